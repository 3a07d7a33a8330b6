//! The parser of durations (ISO 8601-1:2019, 5.5.2; RFC 3339, appendix A).
ghost use Rattle.std.specs.Prelude.{◌≡◌, IfOk, IfErr, option_map};
ghost use Rattle.iso8601.specs.Durations.{IsDuration};
ghost use Rattle.iso8601.specs.Prefixes.{Begins, NoneLonger, NoneBegins};
ghost use Rattle.iso8601.specs.inside.DurationReading.{peek, peeked_of, read_body, read_clock, read_closed, read_counted, read_dated, read_duration, read_perhaps, read_seconds, read_weeks};

use super::front::{split_field, split_marked, split_number, strip};
use super::time::{split_millis, split_time};
use crate::types::{Duration, ParseFailed};

/// A number in front, the byte behind it, and what follows that byte: what a count is decided by.
#[derive(Clone, Copy)]
struct Next<'a> {
    number: u32,
    letter: u8,
    behind: &'a [u8],
}

/// The number in front; None where there is none of 32 bits, or nothing follows it.
#[tactic(auto, unfolding(crate::specs::inside::DurationReading::peek))]
fn look(bytes: &[u8]) -> Option<Next<'_>>
    ensures { option_map peeked_of result ≡ peek bytes.now }
{
    let (number, rest) = split_number(bytes)?;
    let (letter, behind) = rest.split_first()?;
    Some(Next {
        number,
        letter: *letter,
        behind,
    })
}

/// Takes the count of a unit, 0 where it isn't in front; digits are looked at again only behind a count that was taken.
#[tactic(auto, unfolding(crate::specs::inside::DurationReading::read_perhaps, crate::specs::inside::DurationReading::read_count))]
fn take<'a>(unit: u8, bytes: &'a [u8], next: Option<Next<'a>>) -> (u32, &'a [u8], Option<Next<'a>>)
    requires { option_map peeked_of next ≡ peek bytes.now }
    ensures taken { (result.0, result.1.now) ≡ read_perhaps unit bytes.now }
    ensures ahead { option_map peeked_of result.2 ≡ peek result.1.now }
{
    match next {
        Some(found) if found.letter == unit => (found.number, found.behind, look(found.behind)),
        _ => (0, bytes, next),
    }
}

/// Seconds whose point was read, with the digits behind it and `S`; zeros where no `S` follows.
fn close<'a>(bytes: &'a [u8], number: u32, behind: &'a [u8]) -> ((u32, u32), &'a [u8])
    ensures { (result.0, result.1.now) ≡ read_closed bytes.now number behind.now }
{
    let (millis, rest) = split_millis(behind);
    match strip(b'S', rest) {
        Some(rest) => ((number, millis), rest),
        None => ((0, 0), bytes),
    }
}

/// Takes the seconds and milliseconds, zeros where they aren't in front.
#[tactic(auto, unfolding(crate::specs::inside::DurationReading::read_seconds))]
fn take_seconds<'a>(bytes: &'a [u8], next: Option<Next<'a>>) -> ((u32, u32), &'a [u8])
    requires { option_map peeked_of next ≡ peek bytes.now }
    ensures { (result.0, result.1.now) ≡ read_seconds bytes.now }
{
    match next {
        Some(found) if found.letter == b'S' => ((found.number, 0), found.behind),
        Some(found) if found.letter == b'.' => close(bytes, found.number, found.behind),
        Some(found) if found.letter == b',' => close(bytes, found.number, found.behind),
        _ => ((0, 0), bytes),
    }
}

/// `T` and the counts behind it, zeros where it isn't there.
fn split_clock(bytes: &[u8]) -> ((u32, u32, (u32, u32)), &[u8])
    ensures { ((result.0.0, (result.0.1, result.0.2)), result.1.now) ≡ read_clock bytes.now }
{
    match bytes {
        [b'T', rest @ ..] => {
            let (hour, rest, next) = take(b'H', rest, look(rest));
            let (minute, rest, next) = take(b'M', rest, next);
            let (second, rest) = take_seconds(rest, next);
            ((hour, minute, second), rest)
        }
        _ => ((0, 0, (0, 0)), bytes),
    }
}

/// The counts in front, where there is one or the `T`.
#[tactic(auto, unfolding(crate::specs::inside::DurationReading::read_counted, crate::specs::inside::DurationReading::read_counts))]
fn split_counted<'a>(bytes: &'a [u8], next: Option<Next<'a>>) -> Option<(Duration, &'a [u8])>
    requires { option_map peeked_of next ≡ peek bytes.now }
    ensures { option_map (λ r. (r.0, r.1.now)) result ≡ read_counted bytes.now }
{
    let (year, rest, next) = take(b'Y', bytes, next);
    let (month, rest, next) = take(b'M', rest, next);
    let (day, rest, _) = take(b'D', rest, next);
    let ((hour, minute, (second, millisecond)), rest) = split_clock(rest);
    if rest.len() < bytes.len() {
        Some((
            Duration::YMDHMS {
                year,
                month,
                day,
                hour,
                minute,
                second,
                millisecond,
            },
            rest,
        ))
    } else {
        None
    }
}

/// The weeks in front.
#[tactic(auto, unfolding(crate::specs::inside::DurationReading::read_weeks, crate::specs::inside::DurationReading::read_count))]
fn split_weeks<'a>(bytes: &'a [u8], next: Option<Next<'a>>) -> Option<(Duration, &'a [u8])>
    requires { option_map peeked_of next ≡ peek bytes.now }
    ensures { option_map (λ r. (r.0, r.1.now)) result ≡ read_weeks bytes.now }
{
    match next {
        Some(found) if found.letter == b'W' => Some((Duration::Weeks(found.number), found.behind)),
        _ => None,
    }
}

/// A date without a sign, `T` and a time.
#[tactic(auto, unfolding(crate::specs::inside::DurationReading::read_dated))]
fn split_dated(bytes: &[u8]) -> Option<(Duration, &[u8])>
    ensures { option_map (λ r. (r.0, r.1.now)) result ≡ read_dated bytes.now }
{
    let (year, rest) = split_field(bytes, 4, 0, 9999)?;
    let (month, rest) = split_marked(b'-', rest, 2, 1, 12)?;
    let (day, rest) = split_marked(b'-', rest, 2, 1, 31)?;
    let behind = strip(b'T', rest)?;
    let (time, rest) = split_time(behind)?;
    Some((
        Duration::YMDHMS {
            year,
            month,
            day,
            hour: time.hour,
            minute: time.minute,
            second: time.second,
            millisecond: time.millisecond,
        },
        rest,
    ))
}

/// What stands behind the `P`: the byte behind the digits tells the three kinds apart.
#[tactic(auto, unfolding(crate::specs::inside::DurationReading::read_body))]
fn split_body(bytes: &[u8]) -> Option<(Duration, &[u8])>
    ensures { option_map (λ r. (r.0, r.1.now)) result ≡ read_body bytes.now }
{
    let next = look(bytes);
    if let Some(found) = split_weeks(bytes, next) {
        return Some(found);
    }
    if let Some(found) = split_counted(bytes, next) {
        return Some(found);
    }
    split_dated(bytes)
}

/// The duration in front, and what follows it.
#[tactic(auto, unfolding(crate::specs::inside::DurationReading::read_duration))]
fn split_duration(bytes: &[u8]) -> Option<(Duration, &[u8])>
    ensures { option_map (λ r. (r.0, r.1.now)) result ≡ read_duration bytes.now }
{
    split_body(strip(b'P', bytes)?)
}

/// The duration that the longest prefix of the bytes writes, and what follows the prefix.
///
/// A duration is `P` and counts of years, months and days, perhaps `T` and counts of hours, minutes and seconds, in this
/// order, at least one of them or the `T`; or `P` and a count of weeks; or `P`, a date without a sign, `T` and a time.
/// Each count fits `u32`, and seconds may have a fraction, of which three digits are kept. `ParseFailed` exactly where
/// no prefix is a duration.
///
/// `parse_duration(b"P1M1Y")` is one month and the rest `1Y`; `PT` is the zero duration.
pub fn parse_duration(i: &[u8]) -> Result<(&[u8], Duration), ParseFailed>
    ensures found { IfOk result (λ r. Begins IsDuration i.now r.1 r.0.now) }
    ensures longest { IfOk result (λ r. NoneLonger IsDuration i.now r.0.now) }
    ensures none { IfErr result (λ e. NoneBegins IsDuration i.now) }
{
    match split_duration(i) {
        Some(found) => Ok((found.1, found.0)),
        None => Err(ParseFailed),
    }
}
