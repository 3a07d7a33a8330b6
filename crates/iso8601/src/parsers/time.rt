//! The parser of times of day (ISO 8601-1:2019, 5.3).
ghost use Rattle.std.specs.Prelude.{◌≡◌, ◌≤◌, IfOk, IfErr, option_map};
ghost use Rattle.scan_core.specs.Digits.{AreDigits};
ghost use Rattle.iso8601.specs.Times.{IsTime};
ghost use Rattle.iso8601.specs.Prefixes.{Begins, NoneLonger, NoneBegins};
ghost use Rattle.scan_core.specs.Fronts.{after_digits, front_digits};
ghost use Rattle.iso8601.specs.inside.TimeReading.{millis_of, read_fraction, read_later, read_offset, read_signed, read_tail, read_time};

use super::front::{split_field, split_marked, with_sign};
use crate::types::{ParseFailed, Time};
use scan_core::split_digits;

/// Perhaps a colon, and two digits up to `hi`; 0 where they aren't there.
#[tactic(auto, unfolding(crate::specs::inside::TimeReading::read_later))]
fn split_later(bytes: &[u8], hi: u32) -> (u32, &[u8])
    ensures later { (result.0, result.1.now) ≡ read_later hi bytes.now }
    ensures bound { result.0 ≤ hi }
{
    match split_marked(b':', bytes, 2, 0, hi) {
        Some(found) => found,
        None => (0, bytes),
    }
}

/// The first three digits, filled with zeros on the right.
#[tactic(auto, unfolding(crate::specs::inside::TimeReading::millis_of))]
fn millis(digits: &[u8]) -> u32
    requires { AreDigits digits.now }
    ensures { result ≡ millis_of digits.now }
{
    match digits {
        [] => 0,
        [a] => 100 * u32::from(*a - b'0'),
        [a, b] => 100 * u32::from(*a - b'0') + 10 * u32::from(*b - b'0'),
        [a, b, c, ..] => {
            100 * u32::from(*a - b'0') + 10 * u32::from(*b - b'0') + u32::from(*c - b'0')
        }
    }
}

/// The milliseconds of the digits at the front, and what follows them.
pub(crate) fn split_millis(bytes: &[u8]) -> (u32, &[u8])
    ensures millis { result.0 ≡ millis_of (front_digits bytes.now) }
    ensures rest { result.1.now ≡ after_digits bytes.now }
{
    let (digits, rest) = split_digits(bytes);
    (millis(digits), rest)
}

/// A fraction of a second; 0 where none is there.
fn split_fraction(bytes: &[u8]) -> (u32, &[u8])
    ensures { (result.0, result.1.now) ≡ read_fraction bytes.now }
{
    match bytes {
        [b'.', rest @ ..] => split_millis(rest),
        [b',', rest @ ..] => split_millis(rest),
        _ => (0, bytes),
    }
}

/// The offset of all bytes whose sign was read.
#[tactic(auto, unfolding(crate::specs::inside::TimeReading::read_signed))]
fn split_signed<'a>(negative: bool, bytes: &'a [u8], behind: &'a [u8]) -> ((i32, i32), &'a [u8])
    ensures { (result.0, result.1.now) ≡ read_signed negative bytes.now behind.now }
{
    match split_field(behind, 2, 0, 24) {
        Some((hours, rest)) => {
            let (minutes, rest) = split_later(rest, 59);
            (
                (with_sign(negative, hours), with_sign(negative, minutes)),
                rest,
            )
        }
        None => ((0, 0), bytes),
    }
}

/// An offset; zeros where none is there.
fn split_offset(bytes: &[u8]) -> ((i32, i32), &[u8])
    ensures { (result.0, result.1.now) ≡ read_offset bytes.now }
{
    match bytes {
        [b'Z', rest @ ..] => ((0, 0), rest),
        [b'-', rest @ ..] => split_signed(true, bytes, rest),
        [b'+', rest @ ..] => split_signed(false, bytes, rest),
        _ => ((0, 0), bytes),
    }
}

/// The time in front, and what follows it.
#[tactic(auto, unfolding(crate::specs::inside::TimeReading::read_time, crate::specs::inside::TimeReading::read_tail))]
pub(crate) fn split_time(bytes: &[u8]) -> Option<(Time, &[u8])>
    ensures { option_map (λ r. (r.0, r.1.now)) result ≡ read_time bytes.now }
{
    let (hour, rest) = split_field(bytes, 2, 0, 24)?;
    let (minute, rest) = split_marked(b':', rest, 2, 0, 59)?;
    let (second, rest) = split_later(rest, 60);
    let (millisecond, rest) = split_fraction(rest);
    let (offset, rest) = split_offset(rest);
    let time = Time {
        hour,
        minute,
        second,
        millisecond,
        tz_offset_hours: offset.0,
        tz_offset_minutes: offset.1,
    };
    Some((time, rest))
}

/// The time of day that the longest prefix of the bytes writes, and what follows the prefix.
///
/// A time is hours to 24 and minutes, perhaps seconds to 60, perhaps a fraction of any number of digits behind a point
/// or a comma, and perhaps `Z` or an offset; each colon may be left out. Of a fraction the first three digits are kept.
/// `ParseFailed` exactly where no prefix is a time.
///
/// `parse_time(b"16:43:16.1239+01")` is 16:43:16.123, an hour ahead of UTC; `16:43+2` is 16:43 and the rest `+2`.
pub fn parse_time(i: &[u8]) -> Result<(&[u8], Time), ParseFailed>
    ensures found { IfOk result (λ r. Begins IsTime i.now r.1 r.0.now) }
    ensures longest { IfOk result (λ r. NoneLonger IsTime i.now r.0.now) }
    ensures none { IfErr result (λ e. NoneBegins IsTime i.now) }
{
    match split_time(i) {
        Some(found) => Ok((found.1, found.0)),
        None => Err(ParseFailed),
    }
}
