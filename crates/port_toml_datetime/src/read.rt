//! The whole text. The checks stand in the order of the table.
ghost use Rattle.std.specs.Prelude.{◌≡◌, codes};
ghost use Rattle.scan_core.specs.Digits.{AreDigits};
ghost use Rattle.port_toml_datetime.specs.Tokens.{is_one_of};
ghost use Rattle.port_toml_datetime.specs.Checks.{dated_outcome, full_time_outcome, local_time_outcome, outcome, tail_outcome};

use crate::error::{Check, DatetimeParseError};
use crate::read_date::read_date;
use crate::read_offset::read_offset;
use crate::read_time::read_time;
use crate::scan::{digits, end, mark};
use crate::{Date, Datetime};

/// A time from its start, and perhaps an offset.
#[tactic(auto, unfolding(crate::specs::Checks::checked, crate::specs::Checks::and_then, crate::specs::Checks::full_time_outcome))]
fn read_full_time(date: Date, bytes: &[u8]) -> Result<Datetime, DatetimeParseError>
    ensures { result ≡ full_time_outcome date bytes.now }
{
    let (hour, bytes) = digits(bytes, Check::Hour)?;
    let bytes = mark(b':', bytes, Check::HourMark)?;
    let (time, bytes) = read_time(hour, bytes)?;
    let offset = read_offset(bytes)?;
    Ok(Datetime {
        date: Some(date),
        time: Some(time),
        offset,
    })
}

/// Whether the byte may stand between a date and a time.
fn is_delimiter(byte: u8) -> bool
    ensures { result ≡ is_one_of (codes "Tt ") byte }
{
    byte == b'T' || byte == b't' || byte == b' '
}

/// Behind a date: the end, or a delimiter and a time.
#[tactic(auto, using(crate::proofs::Marks::delimiter_first, crate::proofs::Marks::no_delimiter_first), unfolding(crate::specs::Checks::checked, crate::specs::Checks::tail_outcome))]
fn read_tail(date: Date, bytes: &[u8]) -> Result<Datetime, DatetimeParseError>
    ensures { result ≡ tail_outcome date bytes.now }
{
    match bytes {
        [] => Ok(Datetime {
            date: Some(date),
            time: None,
            offset: None,
        }),
        [byte, rest @ ..] if is_delimiter(*byte) => read_full_time(date, rest),
        _ => Err(DatetimeParseError::new(Check::Delimiter)),
    }
}

/// A local time, from behind the `:` that follows the hour.
#[tactic(auto, unfolding(crate::specs::Checks::checked, crate::specs::Checks::and_then, crate::specs::Checks::local_time_outcome))]
fn read_local_time(hour: &[u8], bytes: &[u8]) -> Result<Datetime, DatetimeParseError>
    requires { AreDigits hour.now }
    ensures { result ≡ local_time_outcome hour.now bytes.now }
{
    let (time, rest) = read_time(hour, bytes)?;
    end(rest)?;
    Ok(Datetime {
        date: None,
        time: Some(time),
        offset: None,
    })
}

/// A date, from behind the `-` that follows the year, and what follows it.
#[tactic(auto, unfolding(crate::specs::Checks::and_then, crate::specs::Checks::dated_outcome))]
fn read_dated(year: &[u8], bytes: &[u8]) -> Result<Datetime, DatetimeParseError>
    requires { AreDigits year.now }
    ensures { result ≡ dated_outcome year.now bytes.now }
{
    let (date, rest) = read_date(year, bytes)?;
    read_tail(date, rest)
}

/// The date-time that the whole text is, or the error of the first check that fails.
#[tactic(auto, unfolding(crate::specs::Checks::checked, crate::specs::Checks::outcome))]
pub(crate) fn read(bytes: &[u8]) -> Result<Datetime, DatetimeParseError>
    ensures { result ≡ outcome bytes.now }
{
    let (first, rest) = digits(bytes, Check::YearOrHour)?;
    match rest {
        [b'-', rest @ ..] => read_dated(first, rest),
        [b':', rest @ ..] => read_local_time(first, rest),
        _ => Err(DatetimeParseError::new(Check::YearOrHourMark)),
    }
}
