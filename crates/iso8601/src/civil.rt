//! Whether a date's day exists, and the turns to civil dates and times.
ghost use Rattle.std.specs.Prelude.{◌≡◌, ◌↔◌, ◌+◌, ◌*◌, ◌^◌, ◌<◌, IsSome, IfSome, pos, unsigned_abs, ◌+ℤ◌, ◌-ℤ◌, ◌*ℤ◌, FitsSigned};
ghost use Rattle.std.specs.Int.{w16, IsInRange};
ghost use Rattle.jiff.specs.Words.{days_in_year, epoch_day, IsBetween, IsDate, IsEpochDay, IsIsoWeekDate, IsYear, IsYmd, monday_zero, ordinal};
ghost use Rattle.jiff_core.specs.IsoWeek.{days_from_iso};
ghost use Rattle.iso8601.specs.Calendar.{day_of, Exists, IsCivilDay};
ghost use Rattle.iso8601.specs.Moments.{IsOnClock};
ghost use Rattle.iso8601.specs.inside.Cycles.{IsCycled};

use crate::types::{Date, DateTime, FixedMoment, Time};
use jiff::civil;
use jiff::civil::{ISOWeekDate, Weekday};

/// A year as civil dates take it.
fn civil_year(year: i32) -> Option<i16>
    ensures some { IsSome result ↔ FitsSigned w16 year }
    ensures value { IfSome result (λ y. y ≡ year) }
{
    i16::try_from(year).ok()
}

/// A month, a week or a day as civil dates take it.
fn civil_field(value: u32) -> Option<i8>
    ensures some { IsSome result ↔ (value < 128) }
    ensures value { IfSome result (λ v. v ≡ pos value) }
{
    i8::try_from(value).ok()
}

/// The day of a month.
fn calendar_day(year: i32, month: u32, day: u32) -> Option<civil::Date>
    ensures some { IsSome result ↔ IsDate year (pos month) (pos day) }
    ensures value { IfSome result (IsYmd year (pos month) (pos day)) }
{
    let year = civil_year(year)?;
    let month = civil_field(month)?;
    let day = civil_field(day)?;
    civil::Date::new(year, month, day).ok()
}

/// The number of a day in its year as civil dates take it.
fn civil_ordinal(ddd: u32) -> Option<i16>
    ensures some { IsSome result ↔ (ddd < 2 ^ 15) }
    ensures value { IfSome result (λ v. v ≡ pos ddd) }
{
    i16::try_from(ddd).ok()
}

/// The day of a year.
fn ordinal_day(year: i32, ddd: u32) -> Option<civil::Date>
    ensures some { IsSome result
        ↔ (IsYear year × IsBetween (pos 1) (pos (days_in_year year)) (pos ddd)) }
    ensures value { IfSome result (λ civil. (civil.year ≡ year) × (pos (ordinal civil) ≡ pos ddd)) }
{
    let first = calendar_day(year, 1, 1)?;
    let ddd = civil_ordinal(ddd)?;
    first.with().day_of_year(ddd).build().ok()
}

/// The day of the week with this number, from 1 for Monday.
fn civil_weekday(d: u32) -> Option<Weekday>
    ensures some { IsSome result ↔ IsInRange 1 7 d }
    ensures value { IfSome result (λ weekday. monday_zero weekday + 1 ≡ d) }
{
    Weekday::from_monday_one_offset(civil_field(d)?).ok()
}

/// The day of a week.
fn week_day(year: i32, ww: u32, weekday: Weekday) -> Option<civil::Date>
    ensures some { IsSome result ↔ IsIsoWeekDate year (pos ww) weekday }
    ensures value { IfSome result (λ civil. epoch_day civil ≡ days_from_iso year ww weekday) }
{
    let year = civil_year(year)?;
    let week = civil_field(ww)?;
    let date = ISOWeekDate::new(year, week, weekday).ok()?;
    Some(date.date())
}

/// A year of the same calendar from 2000 to 2399: 400 years are a whole number of weeks, and leap years repeat.
fn cycle_year(year: i32) -> i32
    ensures cycled { IsCycled year result }
    ensures range { IsBetween (pos 2000) (pos 2399) result }
{
    2000 + year.rem_euclid(400)
}

/// The same date in a year of the same calendar, where each day is a civil one.
fn in_cycle(date: Date) -> Date
    ensures same { Exists result ↔ Exists date }
    ensures civil { Exists result → IsCivilDay (day_of result) }
{
    match date {
        Date::YMD { year, month, day } => Date::YMD {
            year: cycle_year(year),
            month,
            day,
        },
        Date::Week { year, ww, d } => Date::Week {
            year: cycle_year(year),
            ww,
            d,
        },
        Date::Ordinal { year, ddd } => Date::Ordinal {
            year: cycle_year(year),
            ddd,
        },
    }
}

impl Date {
    ghost use Rattle.std.specs.Prelude.{◌≡◌, ◌↔◌, IsTrue, IsSome, IfSome};
    ghost use Rattle.jiff.specs.Words.{epoch_day};
    ghost use Rattle.iso8601.specs.Calendar.{day_of, Exists, IsCivilDay};

    /// Whether there is such a day: true exactly where the month or the year has the day, or the year the week, also
    /// outside the years of civil dates. `2015-02-29` and `2023-W53-1` don't exist; `9999-W52-6` does.
    pub fn exists(&self) -> bool
        ensures { IsTrue result ↔ Exists self.now }
    {
        in_cycle(*self).into_naive().is_some()
    }

    /// The civil day. `None` exactly where there is no such day or week, or the day isn't from -9999-01-01 to
    /// 9999-12-31: `2015-02-29` has none, and `2023-W06-2` is 7 February 2023.
    pub fn into_naive(&self) -> Option<civil::Date>
        ensures some { IsSome result ↔ (Exists self.now × IsCivilDay (day_of self.now)) }
        ensures value { IfSome result (λ day. epoch_day day ≡ day_of self.now) }
    {
        match *self {
            Date::YMD { year, month, day } => calendar_day(year, month, day),
            Date::Week { year, ww, d } => week_day(year, ww, civil_weekday(d)?),
            Date::Ordinal { year, ddd } => ordinal_day(year, ddd),
        }
    }

    /// The number of the day, where 1970-01-01 is 0, and `None` exactly where [`into_naive`](Date::into_naive) is:
    /// `2015-02-29` has none, and `2023-W06-2` is day 19395.
    #[inline(always)] // the fields of a date that was just read needn't go through memory
    pub fn unix_day(&self) -> Option<i32>
        ensures some { IsSome result ↔ (Exists self.now × IsCivilDay (day_of self.now)) }
        ensures value { IfSome result (λ day. day ≡ day_of self.now) }
    {
        Some(self.into_naive()?.to_plain().to_unix_epoch_day())
    }
}

/// The seconds of an offset.
fn total_seconds(hours: i32, minutes: i32) -> i64
    ensures { result ≡ (pos 3600 *ℤ hours) +ℤ (pos 60 *ℤ minutes) }
{
    3600 * i64::from(hours) + 60 * i64::from(minutes)
}

/// The seconds of an offset, or `None` exactly where they are those of a day or more.
fn offset_seconds(hours: i32, minutes: i32) -> Option<i32>
    ensures some { IsSome result
        ↔ (unsigned_abs ((pos 3600 *ℤ hours) +ℤ (pos 60 *ℤ minutes)) < 86_400) }
    ensures value { IfSome result
        (λ seconds. seconds ≡ (pos 3600 *ℤ hours) +ℤ (pos 60 *ℤ minutes)) }
{
    let seconds = total_seconds(hours, minutes);
    if seconds.unsigned_abs() < 86_400 {
        Some(seconds as i32)
    } else {
        None
    }
}

/// The milliseconds since midnight of a time that a clock shows.
fn clock_millis(time: Time) -> Option<u32>
    ensures some { IsSome result ↔ IsOnClock time }
    ensures value { IfSome result (λ millis. millis
        ≡ time.hour * 3_600_000 + time.minute * 60_000 + time.second * 1000 + time.millisecond) }
{
    if time.hour > 23 || time.minute > 59 || time.second > 59 || time.millisecond > 999 {
        return None;
    }
    Some(time.hour * 3_600_000 + time.minute * 60_000 + time.second * 1000 + time.millisecond)
}

/// The milliseconds since 1970 in UTC of a day, milliseconds since midnight, and seconds ahead.
fn millis_at(day: i32, clock: u32, offset: i32) -> i64
    requires day { IsEpochDay day }
    requires clock { clock < 86_400_000 }
    requires offset { unsigned_abs offset < 86_400 }
    ensures { result
        ≡ ((pos 86_400_000 *ℤ day) +ℤ pos clock) -ℤ (pos 1000 *ℤ offset) }
{
    86_400_000 * i64::from(day) + i64::from(clock) - 1000 * i64::from(offset)
}

impl Time {
    ghost use Rattle.std.specs.Prelude.{◌↔◌, IsSome, IfSome};
    ghost use Rattle.iso8601.specs.Moments.{IsCivilTime, IsOnClock};

    /// The civil time of the fields, without the offset. `None` exactly where the hour is above 23, the minute or the
    /// second above 59, or the millisecond above 999: `24:00` and `23:59:60` have none.
    pub fn into_naive(self) -> Option<civil::Time>
        ensures some { IsSome result ↔ IsOnClock self }
        ensures value { IfSome result (IsCivilTime self) }
    {
        if self.millisecond > 999 {
            return None;
        }
        let hour = civil_field(self.hour)?;
        let minute = civil_field(self.minute)?;
        let second = civil_field(self.second)?;
        let nanosecond = 1_000_000 * self.millisecond as i32;
        civil::Time::new(hour, minute, second, nanosecond).ok()
    }
}

impl DateTime {
    ghost use Rattle.std.specs.Prelude.{◌≡◌, ◌↔◌, ◌+◌, ◌*◌, IsSome, IfSome, pos, ◌+ℤ◌, ◌-ℤ◌, ◌*ℤ◌};
    ghost use Rattle.jiff.specs.Words.{epoch_day};
    ghost use Rattle.iso8601.specs.Calendar.{day_of};
    ghost use Rattle.iso8601.specs.Moments.{IsCivilTime, IsMoment, IsMomentOf, offset_of};

    /// The civil date and time on the spot, and the seconds ahead of UTC. `None` exactly where the date or the time has
    /// no civil one, or the offset is 24 hours or more.
    ///
    /// `2023-02-08T23:40:00+01:23` is 8 February 2023, 23:40:00, 4980 seconds ahead.
    pub fn into_fixed_offset(self) -> Option<FixedMoment>
        ensures some { IsSome result ↔ IsMoment self }
        ensures value { IfSome result (IsMomentOf self) }
    {
        let date = self.date.into_naive()?;
        let time = self.time.into_naive()?;
        let offset_seconds = offset_seconds(
            self.time.tz_offset_hours,
            self.time.tz_offset_minutes,
        )?;
        Some(FixedMoment {
            local: civil::DateTime::from_parts(date, time),
            offset_seconds,
        })
    }

    /// The moment in milliseconds since 1970-01-01T00:00:00Z, and `None` exactly where
    /// [`into_fixed_offset`](DateTime::into_fixed_offset) is: `2023-02-08T23:40:00+01:23` is 1675894620000.
    #[inline(always)] // nor those of a date-time
    pub fn unix_millis(self) -> Option<i64>
        ensures some { IsSome result ↔ IsMoment self }
        ensures value { IfSome result (λ millis. millis
            ≡ ((pos 86_400_000 *ℤ day_of self.date)
            +ℤ pos (self.time.hour * 3_600_000 + self.time.minute * 60_000
            + self.time.second * 1000 + self.time.millisecond))
            -ℤ (pos 1000 *ℤ offset_of self.time)) }
    {
        let day = self.date.unix_day()?;
        let clock = clock_millis(self.time)?;
        let offset = offset_seconds(self.time.tz_offset_hours, self.time.tz_offset_minutes)?;
        Some(millis_at(day, clock, offset))
    }

    /// The civil date and time of [`into_fixed_offset`](DateTime::into_fixed_offset), and `None` exactly where that is.
    pub fn into_naive(self) -> Option<civil::DateTime>
        ensures some { IsSome result ↔ IsMoment self }
        ensures day { IfSome result (λ local. epoch_day local.date ≡ day_of self.date) }
        ensures time { IfSome result (λ local. IsCivilTime self.time local.time) }
    {
        Some(self.into_fixed_offset()?.local)
    }
}
