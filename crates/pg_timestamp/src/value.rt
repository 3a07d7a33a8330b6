//! What timestamps are worth.
ghost use Rattle.std.specs.Prelude.{◌≡◌, ◌↔◌, ◌+◌, ◌*◌, ◌<◌, ◌≤◌, ℤ, pos, ◌≤ℤ◌, IsTrue, IsSome, IfSome, neg_ℤ, unsigned_abs, ◌+ℤ◌, ◌-ℤ◌, ◌*ℤ◌, ◌<ℤ◌};
ghost use Rattle.jiff.specs.Words.{IsBetween};
ghost use Rattle.iso8601.specs.Calendar.{Exists, IsCivilDay};
ghost use Rattle.iso8601.specs.declared.types.Date.TheVariants.{YMD};
ghost use Rattle.pg_timestamp.specs.Dates.{IsRealDate, calendar_year, date_number};
ghost use Rattle.pg_timestamp.specs.inside.Days.{IsDayNumber};
ghost use Rattle.pg_timestamp.specs.Values.{IsClockTime, IsShort, IsRealTime, micros_of_day, timed, value_at};

use crate::date::Date;
use crate::time::Time;
use jiff_core::civil;
use thiserror::Error;

/// What a timestamp is worth, counted from 1970-01-01.
#[derive(Clone, Copy, Debug, PartialEq, Eq)]
pub enum Value {
    /// A day: `1970-01-02` is day 1.
    Day(i32),
    /// A time of a day without an offset: `1970-01-02 00:00:01` is day 1 and 1,000,000 microseconds.
    Local { day: i32, micros: u64 },
    /// A moment in microseconds since 1970-01-01 00:00:00 UTC: `1970-01-01 01:00:00+00:30` is 1,800,000,000.
    Moment(i64),
}

/// Why a timestamp has no value.
#[derive(Clone, Copy, Debug, PartialEq, Eq, Error)]
pub enum NoValue {
    /// There is no such day, no clock shows the time, or the offset is a day or more: `2026-02-29`, `0000-01-01`,
    /// `2026-12-01 24:00:00`.
    #[error("there is no such moment")]
    NoSuchMoment,
    /// It is before 4714-11-24 BC or past 9999-12-31: `10000-01-01`.
    #[error("the moment is out of range")]
    Range,
}

/// The year in the calendar.
fn calendar_year(year: u16, bc: bool) -> i32
    ensures { result ≡ calendar_year bc year }
{
    if bc { 1 - year as i32 } else { year as i32 }
}

/// The date in the calendar.
fn calendar_date(date: &Date) -> iso8601::Date
    ensures { result ≡ YMD (calendar_year date.now.bc date.now.year) date.now.month date.now.day }
{
    iso8601::Date::YMD {
        year: calendar_year(date.year, date.bc),
        month: date.month as u32,
        day: date.day as u32,
    }
}

/// Whether there is such a day.
fn is_real_day(date: &Date) -> bool
    ensures { IsTrue result ↔ IsRealDate date.now }
{
    if date.year == 0 {
        return false;
    }
    calendar_date(date).exists()
}

/// The number of a civil day, or `None` exactly where it isn't a civil one.
fn civil_day(date: &Date) -> Option<i32>
    requires { IsRealDate date.now }
    ensures some { IsSome result ↔ IsCivilDay (date_number date.now) }
    ensures value { IfSome result (λ day. day ≡ date_number date.now) }
{
    let day = calendar_date(date).into_naive()?;
    Some(day.to_plain().to_unix_epoch_day())
}

/// The number of a date's day, or why it has none.
pub(crate) fn day_number(date: &Date) -> Result<i32, NoValue>
    ensures { IsDayNumber date.now result }
{
    if date.bc || date.year < 1 || date.year > 9_999 {
        return rare_number(*date);
    }
    iso8601::laws::civil_dates_are_calendar_dates();
    iso8601::laws::years_and_weeks_follow_each_other();
    match civil_date(date.year as i16, date.month, date.day) {
        Some(civil) => Ok(civil.to_unix_epoch_day()),
        None => Err(NoValue::NoSuchMoment),
    }
}

/// The civil date of a year from 1 to 9999, where there is such a day.
fn civil_date(year: i16, month: u8, day: u8) -> Option<civil::Date>
    requires { IsBetween (pos 1) (pos 9_999) year }
    ensures some { IsSome result ↔ Exists (YMD year month day) }
    ensures year { IfSome result (λ civil. civil.year ≡ year) }
    ensures month { IfSome result (λ civil. civil.month ≡ month) }
    ensures day { IfSome result (λ civil. civil.day ≡ day) }
{
    let month = i8::try_from(month).ok()?;
    let day = i8::try_from(day).ok()?;
    civil::Date::new(year, month, day).ok()
}

/// The number of the day of any date, or why it has none.
#[inline(never)] // nearly all years are after Christ and have four digits
fn rare_number(date: Date) -> Result<i32, NoValue>
    ensures { IsDayNumber date result }
{
    if !is_real_day(&date) {
        return Err(NoValue::NoSuchMoment);
    }
    match civil_day(&date) {
        Some(day) => Ok(day),
        None => Err(NoValue::Range),
    }
}

/// Whether a clock shows the time.
fn is_on_clock(time: &Time) -> bool
    ensures { IsTrue result ↔ IsClockTime time.now }
{
    time.hour < 24 && time.minute < 60 && time.second < 60 && time.micros < 1_000_000
}

/// Whether the offset is less than a day.
fn is_short(offset: Option<i32>) -> bool
    ensures { IsTrue result ↔ IsShort offset }
{
    match offset {
        None => true,
        Some(seconds) => seconds.unsigned_abs() < 86_400,
    }
}

/// Whether there is such a time, or none is written.
pub(crate) fn is_real_time(time: &Option<Time>) -> bool
    ensures { IsTrue result ↔ IsRealTime time.now }
{
    match time {
        None => true,
        Some(time) => is_on_clock(time) && is_short(time.offset),
    }
}

/// Microseconds since midnight.
fn micros_of_day(time: &Time) -> u64
    requires { IsClockTime time.now }
    ensures value { result ≡ micros_of_day time.now }
    ensures bound { result < 86_400_000_000 }
{
    let seconds = (time.hour as u64 * 60 + time.minute as u64) * 60 + time.second as u64;
    seconds * 1_000_000 + time.micros as u64
}

/// The time of a day, in UTC where there is an offset.
fn timed(day: i32, micros: u64, offset: Option<i32>) -> Value
    requires day { IsBetween (neg_ℤ (pos 4_371_587)) (pos 2_932_896) day }
    requires micros { micros < 86_400_000_000 }
    requires offset { IsShort offset }
    ensures { result ≡ timed day micros offset }
{
    match offset {
        None => Value::Local { day, micros },
        Some(seconds) => Value::Moment(moment(day, micros, seconds)),
    }
}

/// The microseconds of a moment.
fn moment(day: i32, micros: u64, seconds: i32) -> i64
    requires day { IsBetween (neg_ℤ (pos 4_371_587)) (pos 2_932_896) day }
    requires micros { micros < 86_400_000_000 }
    requires seconds { unsigned_abs seconds < 86_400 }
    ensures { result ≡ ((day *ℤ pos 86_400_000_000) +ℤ pos micros) -ℤ (seconds *ℤ pos 1_000_000) }
{
    day as i64 * 86_400_000_000 + micros as i64 - seconds as i64 * 1_000_000
}

/// The day with this number, or the time of it.
pub(crate) fn value_at(day: i32, time: &Option<Time>) -> Value
    requires day { IsBetween (neg_ℤ (pos 4_371_587)) (pos 2_932_896) day }
    requires time { IsRealTime time.now }
    ensures { result ≡ value_at day time.now }
{
    match time {
        None => Value::Day(day),
        Some(time) => timed(day, micros_of_day(time), time.offset),
    }
}

impl Value {
    ghost use Rattle.std.specs.Prelude.{◌↔◌, IsTrue};
    ghost use Rattle.pg_timestamp.specs.Values.{IsWithinBounds};

    /// Whether the value is within the bounds of timestamps: its day, of a moment that in UTC, is from 4714-11-24 BC to 9999-12-31, and a
    /// time of a day is less than a day.
    pub fn is_within_bounds(self) -> bool
        ensures { IsTrue result ↔ IsWithinBounds self }
    {
        match self {
            Value::Day(day) => is_day_within(day),
            Value::Local { day, micros } => is_day_within(day) && micros < 86_400_000_000,
            Value::Moment(micros) => is_moment_within(micros),
        }
    }
}

/// Whether the day is one from the first to the last.
fn is_day_within(day: i32) -> bool
    ensures { IsTrue result ↔ ((neg_ℤ (pos 2_440_588) ≤ℤ day) × (day ≤ℤ pos 2_932_896)) }
{
    -2_440_588 <= day && day <= 2_932_896
}

/// Whether the moment's day in UTC is one from the first to the last.
fn is_moment_within(micros: i64) -> bool
    ensures { IsTrue result ↔ ((neg_ℤ (pos 210_866_803_200_000_000) ≤ℤ micros)
        × (micros <ℤ pos 253_402_300_800_000_000)) }
{
    -210_866_803_200_000_000 <= micros && micros < 253_402_300_800_000_000
}
