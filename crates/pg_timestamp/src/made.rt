//! The timestamp of a value.
ghost use Rattle.std.specs.Prelude.{◌≡◌, ◌/◌, ◌%◌, ◌<◌, ◌≤◌, pos, ◌+ℤ◌, ◌-ℤ◌, Option};
ghost use Rattle.jiff.specs.Words.{IsEpochDay};
ghost use Rattle.jiff_core.specs.Date.{epoch_day};
ghost use Rattle.pg_timestamp.specs.Dates.{IsRealDate, calendar_year, date_number};
ghost use Rattle.pg_timestamp.specs.Values.{IsClockTime, IsWithinBounds, micros_of_day};
ghost use Rattle.pg_timestamp.specs.Written.{IsWritten};
ghost use Rattle.pg_timestamp.specs.declared.value.Value.TheVariants.{Moment};

use crate::date::Date;
use crate::time::Time;
use crate::timestamp::Timestamp;
use crate::value::Value;
use jiff_core::civil;

/// The civil date of a day.
fn civil_date(day: i32) -> civil::Date
    requires { IsEpochDay day }
    ensures { epoch_day result ≡ day }
{
    civil::Date::from_days_since_min((day as i64 + 4_371_587) as u32)
}

/// The date of a year in the calendar.
fn dated(year: i16, month: u8, day: u8) -> Date
    ensures year { calendar_year result.bc result.year ≡ year }
    ensures some { 1 ≤ result.year }
    ensures held { result.year < 40_000 }
    ensures month { result.month ≡ month }
    ensures day { result.day ≡ day }
{
    if year > 0 {
        Date {
            year: year as u16,
            month,
            day,
            bc: false,
        }
    } else {
        Date {
            year: (1 - year as i32) as u16,
            month,
            day,
            bc: true,
        }
    }
}

/// The month itself.
fn below_16(month: u8) -> u8
    requires { month ≤ 12 }
    ensures { result ≡ month }
{
    // The remainder tells LLVM the bound, by which two digits are found sooner.
    month % 16
}

/// The date of a day.
fn date_at(day: i32) -> Date
    requires { IsEpochDay day }
    ensures real { IsRealDate result }
    ensures day { date_number result ≡ day }
    ensures held { result.year < 40_000 }
{
    iso8601::laws::civil_dates_are_calendar_dates();
    let civil = civil_date(day);
    dated(civil.year, below_16(civil.month), civil.day)
}

/// The time so many microseconds after midnight.
fn time_at(micros: u64, offset: Option<i32>) -> Time
    requires { micros < 86_400_000_000 }
    ensures clock { IsClockTime result }
    ensures micros { micros_of_day result ≡ micros }
    ensures offset { result.offset ≡ offset }
{
    let seconds = (micros / 1_000_000) as u32;
    let minutes = seconds / 60;
    Time {
        hour: (minutes / 60) as u8,
        minute: (minutes % 60) as u8,
        second: (seconds % 60) as u8,
        micros: (micros % 1_000_000) as u32,
        offset,
    }
}

/// The microseconds from the beginning of the first day to a moment within the bounds.
fn since_first(micros: i64) -> u64
    requires { IsWithinBounds (Moment micros) }
    ensures value { pos result ≡ micros +ℤ pos 210_866_803_200_000_000 }
    ensures bound { result < 464_269_104_000_000_000 }
{
    (micros + 210_866_803_200_000_000) as u64
}

/// The day in UTC that is so many microseconds behind the beginning of the first one.
fn utc_day(since: u64) -> i32
    requires { since < 464_269_104_000_000_000 }
    ensures value { result ≡ pos (since / 86_400_000_000) -ℤ pos 2_440_588 }
    ensures bound { IsEpochDay result }
{
    (since / 86_400_000_000) as i32 - 2_440_588
}

/// The microseconds of that day.
fn utc_micros(since: u64) -> u64
    ensures value { result ≡ since % 86_400_000_000 }
    ensures bound { result < 86_400_000_000 }
{
    since % 86_400_000_000
}

/// The timestamp with this value, in UTC where it is a moment.
#[inline(always)] // the fields stay in registers
pub(crate) fn timestamp_of(value: Value) -> Timestamp
    requires { IsWithinBounds value }
    ensures { IsWritten value result }
{
    match value {
        Value::Day(day) => Timestamp {
            date: date_at(day),
            time: None,
        },
        Value::Local { day, micros } => Timestamp {
            date: date_at(day),
            time: Some(time_at(micros, None)),
        },
        Value::Moment(micros) => moment_at(micros),
    }
}

/// The timestamp of a moment.
fn moment_at(micros: i64) -> Timestamp
    requires { IsWithinBounds (Moment micros) }
    ensures { IsWritten (Moment micros) result }
{
    // A quotient of what is never negative takes fewer instructions.
    let since = since_first(micros);
    Timestamp {
        date: date_at(utc_day(since)),
        time: Some(time_at(utc_micros(since), Some(0))),
    }
}
