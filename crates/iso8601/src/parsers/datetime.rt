//! The parser of date-times (ISO 8601-1:2019, 5.4).
ghost use Rattle.std.specs.Prelude.{◌≡◌, IfOk, IfErr, option_map};
ghost use Rattle.iso8601.specs.DateTimes.{IsDateTime};
ghost use Rattle.iso8601.specs.Prefixes.{Begins, NoneLonger, NoneBegins};
ghost use Rattle.iso8601.specs.inside.DateTimeReading.{read_date_time};

use super::date::split_date;
use super::front::strip;
use super::time::split_time;
use crate::types::{DateTime, ParseFailed};

/// The date-time in front, and what follows it.
#[tactic(auto, unfolding(crate::specs::inside::DateTimeReading::read_date_time))]
fn split_date_time(bytes: &[u8]) -> Option<(DateTime, &[u8])>
    ensures { option_map (λ r. (r.0, r.1.now)) result ≡ read_date_time bytes.now }
{
    let (date, rest) = split_date(bytes)?;
    let behind = strip(b'T', rest)?;
    let (time, rest) = split_time(behind)?;
    Some((DateTime { date, time }, rest))
}

/// The date-time that the longest prefix of the bytes writes, and what follows the prefix: a date, `T` and a time, as
/// [`parse_date`](super::parse_date) and [`parse_time`](super::parse_time) read them.
///
/// `ParseFailed` exactly where no prefix is a date-time. `parse_datetime(b"2015-06-26T16:43Z, up")` is 16:43 UTC of
/// that day and the rest `, up`.
pub fn parse_datetime(i: &[u8]) -> Result<(&[u8], DateTime), ParseFailed>
    ensures found { IfOk result (λ r. Begins IsDateTime i.now r.1 r.0.now) }
    ensures longest { IfOk result (λ r. NoneLonger IsDateTime i.now r.0.now) }
    ensures none { IfErr result (λ e. NoneBegins IsDateTime i.now) }
{
    match split_date_time(i) {
        Some(found) => Ok((found.1, found.0)),
        None => Err(ParseFailed),
    }
}
