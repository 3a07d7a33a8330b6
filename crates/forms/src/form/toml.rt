//! Date-times of TOML as a form.
ghost use Rattle.std.specs.Prelude.{◌≡◌, ◌↔◌, ◌+◌, ◌*◌, ◌^◌, ◌<◌, ◌≤◌, ◌≤ℤ◌, pos, IsSome, IfSome, ◌+ℤ◌, ◌-ℤ◌, ◌*ℤ◌};
ghost use Rattle.arrayvec.specs.ArrayString.{array_string_len};
ghost use Rattle.jiff.specs.Words.{IsWithin};
ghost use Rattle.port_toml_datetime.specs.WellFormed.{AreWellFormed, IsRealDay};
ghost use Rattle.forms.specs.declared.form.Form.{Form as AnyForm};
ghost use Rattle.forms.specs.declared.value.Value.{Value as AnyValue};
ghost use Rattle.forms.specs.Forms.{Reads, Writes};
ghost use Rattle.forms.specs.Putting.{Puts};
ghost use Rattle.forms.specs.Values.{IsWithinBounds};
ghost use Rattle.forms.specs.form.Toml.{clock, minutes_of, moment_of, dated_worth, worth_of, time_of, HoldsDay, HoldsDated, Holds};
ghost use Rattle.forms.specs.inside.TomlParts.{fraction_of};
ghost use Rattle.forms.specs.inside.TomlParts.{day_of};
ghost use Rattle.forms.specs.inside.Lawful.{Lawful};

use crate::cause::Cause;
use crate::value::{NANOSECONDS_A_DAY, Value};
use arrayvec::ArrayString;
use jiff_core::civil;
use port_toml_datetime::{Date, Datetime, Offset, Time};

const NANOSECONDS_A_MINUTE: i128 = 60_000_000_000;

/// The value of a date-time of any of the four kinds.
pub fn read(text: &[u8]) -> Result<Value, Cause>
    ensures { Reads AnyForm.Toml text.now result }
{
    port_toml_datetime::laws::values_are_well_formed();
    match Datetime::from_ascii(text) {
        Ok(datetime) => value_of(datetime.date, datetime.time, datetime.offset),
        Err(_) => Err(Cause::Syntax),
    }
}

/// The value of the parts that are there.
fn value_of(date: Option<Date>, time: Option<Time>, offset: Option<Offset>) -> Result<Value, Cause>
    requires { AreWellFormed date time offset }
    ensures { result ≡ worth_of date time offset }
{
    match date {
        Some(date) => dated_value(day_of(date), time, offset),
        None => match time {
            Some(time) => Ok(Value::Clock(clock(time)?)),
            None => Err(Cause::Syntax),
        },
    }
}

/// The value of a day, and of a time of it where there is one.
fn dated_value(day: i32, time: Option<Time>, offset: Option<Offset>) -> Result<Value, Cause>
    ensures { result ≡ dated_worth day time offset }
{
    match time {
        Some(time) => Ok(moment_of(day, offset, clock(time)?)),
        None => Ok(Value::Day(day)),
    }
}

/// The number of a real day.
fn day_of(date: Date) -> i32
    requires { IsRealDay date }
    ensures { result ≡ day_of date }
{
    iso8601::laws::civil_dates_are_calendar_dates();
    let civil = civil::Date {
        year: civil_year(date.year),
        month: date.month,
        day: date.day,
    };
    civil.to_unix_epoch_day()
}

/// The year of a civil date.
fn civil_year(year: u16) -> i16
    requires { year ≤ 9999 }
    ensures { result ≡ pos year }
{
    year as i16
}

/// Nanoseconds since midnight.
fn clock(time: Time) -> Result<i64, Cause>
    ensures { result ≡ clock time }
{
    let second = time.second.unwrap_or(0);
    if second == 60 {
        return Err(Cause::NoSuchMoment);
    }
    let nanosecond = time.nanosecond.unwrap_or(0);
    Ok(nanos_of(time.hour, time.minute, second, nanosecond) as i64)
}

/// The nanoseconds of a clock's fields.
fn nanos_of(hour: u8, minute: u8, second: u8, nanosecond: u32) -> u64
    ensures nanos { result ≡ ((hour * 60 + minute) * 60 + second) * 1_000_000_000 + nanosecond }
    ensures fits { result < 2 ^ 63 }
{
    let seconds = (hour as u64 * 60 + minute as u64) * 60 + second as u64;
    seconds * 1_000_000_000 + nanosecond as u64
}

/// The moment, or the local date-time, so many nanoseconds into a day.
fn moment_of(day: i32, offset: Option<Offset>, nanos: i64) -> Value
    ensures { result ≡ moment_of day offset nanos }
{
    match offset {
        Some(offset) => Value::Instant(instant_of(day, minutes_of(offset), nanos)),
        None => Value::Local { day, nanos },
    }
}

/// Minutes ahead of UTC.
fn minutes_of(offset: Offset) -> i16
    ensures { result ≡ minutes_of offset }
{
    match offset {
        Offset::Z => 0,
        Offset::Custom { minutes } => minutes,
    }
}

/// Nanoseconds since 1970 in UTC.
fn instant_of(day: i32, minutes: i16, nanos: i64) -> i128
    ensures { result ≡ (day *ℤ pos 86_400_000_000_000 +ℤ nanos) -ℤ minutes *ℤ pos 60_000_000_000 }
{
    day as i128 * NANOSECONDS_A_DAY as i128 + nanos as i128 - minutes as i128 * NANOSECONDS_A_MINUTE
}

/// Appends the written text: with seconds, with a fraction where it isn't 0, and of a moment in UTC.
pub fn push<const CAP: usize>(value: Value, out: &mut ArrayString<CAP>) -> Result<(), Cause>
    requires within { IsWithinBounds value }
    requires room { array_string_len out.old + 96 ≤ CAP }
    ensures answer { Puts (Writes AnyForm.Toml value) out.old.bytes out.new.bytes result }
    ensures len { array_string_len out.new ≤ array_string_len out.old + 96 }
{
    match datetime_for(value) {
        Ok(datetime) => {
            datetime.push_text(out);
            Ok(())
        }
        Err(cause) => Err(cause),
    }
}

/// The date-time of a value.
fn datetime_for(value: Value) -> Result<Datetime, Cause>
    requires { IsWithinBounds value }
    ensures { Holds value result }
{
    match value {
        Value::Instant(nanos) => utc(nanos),
        Value::Day(day) => dated(day as i64, None, None),
        Value::Local { day, nanos } => dated(day as i64, Some(time_of(nanos.unsigned_abs())), None),
        Value::Clock(nanos) => Ok(Datetime::from(time_of(nanos.unsigned_abs()))),
        _ => Err(Cause::Kind),
    }
}

/// The date-time of a moment in UTC.
fn utc(nanos: i128) -> Result<Datetime, Cause>
    requires { IsWithin (10 ^ 22) nanos }
    ensures { Holds (AnyValue.Instant nanos) result }
{
    let day = nanos.div_euclid(NANOSECONDS_A_DAY as i128) as i64;
    let clock = nanos.rem_euclid(NANOSECONDS_A_DAY as i128).unsigned_abs() as u64;
    dated(day, Some(time_of(clock)), Some(Offset::Z))
}

/// The date with this day, a time or none, and an offset or none.
fn dated(day: i64, time: Option<Time>, offset: Option<Offset>) -> Result<Datetime, Cause>
    ensures { HoldsDated day time offset result }
{
    let date = date_of(day)?;
    Ok(Datetime {
        date: Some(date),
        time,
        offset,
    })
}

/// The date with this day.
fn date_of(day: i64) -> Result<Date, Cause>
    ensures { HoldsDay day result }
{
    iso8601::laws::civil_dates_are_calendar_dates();
    let Ok(civil) = civil::Date::from_unix_epoch_day(day) else {
        return Err(Cause::Range);
    };
    let Some(year) = written_year(civil.year) else {
        return Err(Cause::Range);
    };
    Ok(Date {
        year,
        month: civil.month,
        day: civil.day,
    })
}

/// A year from 0 on.
fn written_year(year: i16) -> Option<u16>
    ensures some { IsSome result ↔ (pos 0 ≤ℤ year) }
    ensures value { IfSome result (λ y. pos y ≡ year) }
{
    u16::try_from(year).ok()
}

/// The time so many nanoseconds after midnight.
fn time_of(nanos: u64) -> Time
    requires { nanos < 86_400_000_000_000 }
    ensures { result ≡ time_of nanos }
{
    Time {
        hour: (nanos / 3_600_000_000_000) as u8,
        minute: (nanos / 60_000_000_000 % 60) as u8,
        second: Some((nanos / 1_000_000_000 % 60) as u8),
        nanosecond: fraction_of(nanos),
    }
}

/// The nanoseconds of the second, where they aren't 0.
fn fraction_of(nanos: u64) -> Option<u32>
    ensures { result ≡ fraction_of nanos }
{
    let fraction = (nanos % 1_000_000_000) as u32;
    if fraction == 0 { None } else { Some(fraction) }
}

/// Date-times of TOML are a lawful form.
pub fn lawful()
    ensures { Lawful AnyForm.Toml }
{
    port_toml_datetime::laws::texts_are_ascii();
    iso8601::laws::civil_dates_are_calendar_dates();
    port_toml_datetime::laws::one_value();
    port_toml_datetime::laws::values_are_well_formed();
    port_toml_datetime::laws::texts_are_read_back();
}
