//! The fields of a date and a time of day, and the moment that they are.
ghost use Rattle.std.specs.Prelude.{◌≡◌, ◌↔◌, ◌+◌, ◌*◌, ◌^◌, ◌<◌, ◌≤◌, ℕ, ℤ, pos, ◌+ℤ◌, ◌-ℤ◌, ◌*ℤ◌, ◌≤ℤ◌, unsigned_abs, IsTrue, IsSome, IfSome, IfNone};
ghost use Rattle.std.specs.Int.{int_div_euclid, int_rem_euclid};
ghost use Rattle.jiff.specs.Words.{IsWithin};
ghost use Rattle.iso8601.specs.Calendar.{after_monday, day_of, Exists};
ghost use Rattle.internet_dates.specs.inside.Days.{IsDay};
ghost use Rattle.iso8601.specs.declared.types.Date.TheVariants.{YMD};

use crate::error::DateError;
use crate::fields::Clock;
use jiff_core::civil;

/// A date and a time of day as they are written, whether or not there is such a moment: `seconds` tells.
#[derive(Clone, Copy, Debug, PartialEq, Eq)]
pub struct DateTime {
    /// The day of the week whose name stands in front, from 0 for Monday to 6 for Sunday.
    pub weekday: Option<u8>,
    /// The year, from 0, which is 1 BC, to 9999.
    pub year: u16,
    /// The month, from 1 to 12.
    pub month: u8,
    /// The day of the month, from 1 to 31.
    pub day: u8,
    /// Hours since the day began, to 24.
    pub hour: u8,
    /// Minutes of the hour, to 59.
    pub minute: u8,
    /// Seconds of the minute, to 60.
    pub second: u8,
    /// How many minutes this is ahead of UTC, from -1499 to 1499.
    pub offset: i16,
}

/// The civil day of a year from 0 to 9999; None where the calendar has no such day.
#[inline(always)]
fn civil_day(year: u16, month: u8, day: u8) -> Option<civil::Date>
    requires { year ≤ 9999 }
    ensures some { IsSome result ↔ Exists (YMD (pos year) month day) }
    ensures value { IfSome result
        (λ civil. (civil.year ≡ pos year) × (civil.month ≡ month) × (civil.day ≡ day)) }
{
    // No month and no day of a month is 99.
    match civil::Date::new(year as i16, month.min(99) as i8, day.min(99) as i8) {
        Ok(civil) => Some(civil),
        Err(_) => None,
    }
}

/// The number of a day of the years 0 to 9999, from 1970-01-01 on; None where the calendar has no such day.
#[inline(always)]
fn day_number(year: u16, month: u8, day: u8) -> Option<i32>
    ensures some { IsSome result ↔ ((year ≤ 9999) × Exists (YMD (pos year) month day)) }
    ensures value { IfSome result (λ n. n ≡ day_of (YMD (pos year) month day)) }
{
    iso8601::laws::civil_dates_are_calendar_dates();
    if year > 9999 {
        return None;
    }
    match civil_day(year, month, day) {
        Some(civil) => Some(civil.to_unix_epoch_day()),
        None => None,
    }
}

/// The day of the week, 0 for Monday.
#[tactic(auto, unfolding(iso8601::specs::Calendar::after_monday))]
#[inline(always)]
fn weekday_of(day: i64) -> u8
    requires { IsWithin (10 ^ 15) day }
    ensures { pos result ≡ after_monday day }
{
    (day + 3).rem_euclid(7) as u8
}

/// Whether the name that stands is the day's.
#[inline(always)]
fn is_named(weekday: Option<u8>, day: i32) -> bool
    ensures { IsTrue result ↔ IfSome weekday (λ weekday. pos weekday ≡ after_monday day) }
{
    match weekday {
        Some(weekday) => weekday == weekday_of(i64::from(day)),
        None => true,
    }
}

/// Whether a clock shows the time.
#[inline(always)]
fn is_shown(hour: u8, minute: u8, second: u8) -> bool
    ensures { IsTrue result ↔ ((hour < 24) × (minute < 60) × (second < 60)) }
{
    hour < 24 && minute < 60 && second < 60
}

/// Whether an offset in minutes is less than a day.
#[inline(always)]
fn is_offset(minutes: i16) -> bool
    ensures { IsTrue result ↔ (unsigned_abs minutes < 1440) }
{
    -1440 < minutes && minutes < 1440
}

/// The seconds since midnight.
#[inline(always)]
fn clock_of(hour: u8, minute: u8, second: u8) -> u32
    ensures { result ≡ (hour * 60 + minute) * 60 + second }
{
    (u32::from(hour) * 60 + u32::from(minute)) * 60 + u32::from(second)
}

/// The seconds since 1970 in UTC.
#[inline(always)]
fn seconds_at(day: i32, clock: u32, offset: i16) -> i64
    ensures { result ≡ (day *ℤ pos 86_400 +ℤ pos clock) -ℤ offset *ℤ pos 60 }
{
    day as i64 * 86_400 + clock as i64 - offset as i64 * 60
}

/// A year from 0 on.
#[inline(always)]
fn written_year(year: i16) -> Option<u16>
    ensures some { IsSome result ↔ (pos 0 ≤ℤ year) }
    ensures value { IfSome result (λ y. pos y ≡ year) }
{
    u16::try_from(year).ok()
}

/// The year, the month and the day with this number, in a year from `first` on to 9999.
#[inline(always)]
fn date_at(number: i64, first: u16) -> Option<(u16, u8, u8)>
    ensures real { IfSome result (λ r. IsDay first number r.0 r.1 r.2) }
    ensures none { IfNone result ((y m d : ℕ) → ¬ (IsDay first number y m d)) }
{
    iso8601::laws::civil_dates_are_calendar_dates();
    let Ok(civil) = civil::Date::from_unix_epoch_day(number) else {
        return None;
    };
    let Some(year) = written_year(civil.year) else {
        return None;
    };
    if year < first {
        return None;
    }
    Some((year, civil.month, civil.day))
}

/// The number of a day, and the seconds since its midnight.
#[inline(always)]
fn split_seconds(seconds: i64) -> (i64, u32)
    ensures day { result.0 ≡ int_div_euclid seconds (pos 86_400) }
    ensures clock { pos result.1 ≡ int_rem_euclid seconds (pos 86_400) }
    ensures within { IsWithin (10 ^ 15) result.0 }
    ensures small { result.1 < 86_400 }
{
    (
        seconds.div_euclid(86_400),
        seconds.rem_euclid(86_400) as u32,
    )
}

/// The time so many seconds after midnight.
#[inline(always)]
fn time_of(clock: u32) -> Clock
    requires { clock < 86_400 }
    ensures same { (result.hour * 60 + result.minute) * 60 + result.second ≡ clock }
    ensures shown { (result.hour < 24) × (result.minute < 60) × (result.second < 60) }
{
    Clock {
        hour: (clock / 3600) as u8,
        minute: (clock / 60 % 60) as u8,
        second: (clock % 60) as u8,
    }
}

impl DateTime {
    ghost use Rattle.std.specs.Prelude.{◌≡◌, ◌≢◌, ◌↔◌, ◌<◌, ◌≤◌, Err, IsSome, IfSome, IfNone, IfOk};
    ghost use Rattle.internet_dates.specs.DateTimes.{IsNamedDateAt, IsRealMoment, seconds_of};
    ghost use Rattle.internet_dates.specs.declared.date_time.DateTime.{DateTime as Fields};

    /// The moment in seconds since 1970-01-01 in UTC, or None exactly where there is none: the calendar lacks the day, the name is that
    /// of another day, no clock shows the time, as 24:00 or a second 60, or the offset is a day or more.
    ///
    /// `Sun, 06 Nov 1994 08:49:37 GMT` is 784111777.
    #[inline(always)]
    pub fn seconds(self) -> Option<i64>
        ensures some { IsSome result ↔ IsRealMoment self }
        ensures value { IfSome result (λ seconds. seconds ≡ seconds_of self) }
    {
        self.moment()
    }

    /// The same of a date that stands where it is, without a copy.
    #[inline(always)]
    fn moment(&self) -> Option<i64>
        ensures some { IsSome result ↔ IsRealMoment self.now }
        ensures value { IfSome result (λ seconds. seconds ≡ seconds_of self.now) }
    {
        let day = day_number(self.year, self.month, self.day)?;
        if !is_named(self.weekday, day) {
            return None;
        }
        if !is_shown(self.hour, self.minute, self.second) {
            return None;
        }
        if !is_offset(self.offset) {
            return None;
        }
        let clock = clock_of(self.hour, self.minute, self.second);
        Some(seconds_at(day, clock, self.offset))
    }

    /// The moment of fields whose year is one from `first` on.
    #[inline(always)]
    pub(crate) fn judged(&self, first: u16) -> Result<i64, DateError>
        ensures syntax { result ≢ Err DateError.Syntax }
        ensures ok { IfOk result (λ seconds. IsRealMoment self.now × (first ≤ self.now.year)
            × (seconds ≡ seconds_of self.now)) }
        ensures unreal { result ≡ Err DateError.NoSuchMoment → IsRealMoment self.now → ⊥ }
        ensures range { result ≡ Err DateError.Range
            → IsRealMoment self.now × (self.now.year < first) }
    {
        match self.moment() {
            Some(seconds) => {
                if self.year < first {
                    Err(DateError::Range)
                } else {
                    Ok(seconds)
                }
            }
            None => Err(DateError::NoSuchMoment),
        }
    }

    /// The date and the time in UTC of so many seconds since 1970-01-01, with the day's name, or None exactly where the year isn't from
    /// `first` to 9999.
    #[inline(always)]
    pub fn at(seconds: i64, first: u16) -> Option<DateTime>
        ensures found { IfSome result (λ t. IsNamedDateAt first seconds t) }
        ensures none { IfNone result ((t : Fields) → ¬ (IsNamedDateAt first seconds t)) }
    {
        let (number, clock) = split_seconds(seconds);
        let Some((year, month, day)) = date_at(number, first) else {
            return None;
        };
        let time = time_of(clock);
        Some(DateTime {
            weekday: Some(weekday_of(number)),
            year,
            month,
            day,
            hour: time.hour,
            minute: time.minute,
            second: time.second,
            offset: 0,
        })
    }
}
