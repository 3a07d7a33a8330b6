//! Times behind a date.
ghost use Rattle.std.specs.Prelude.{◌≡◌, ◌^◌, ◌≤◌, ℕ, IfSome, IfNone};
ghost use Rattle.scan_core.specs.Fronts.{front_digits, after_digits};
ghost use Rattle.pg_timestamp.specs.Timestamps.{IsMicrosFraction};
ghost use Rattle.pg_timestamp.specs.inside.Micros.{AreMicros};
ghost use Rattle.pg_timestamp.specs.inside.Places.{fraction_front, after_fraction, has_point, behind_point};

use crate::offset::perhaps_offset;
use crate::pair::pair;

/// A time as it is written, whether or not a clock has it.
#[derive(Clone, Copy, Debug, PartialEq, Eq)]
pub struct Time {
    /// Hours since the day began: to 24 where they were read.
    pub hour: u8,
    /// Minutes of the hour: to 59 where they were read.
    pub minute: u8,
    /// Seconds of the minute: to 60 where they were read.
    pub second: u8,
    /// Microseconds of the second.
    pub micros: u32,
    /// The seconds that this time is ahead of UTC, or none where it is local.
    pub offset: Option<i32>,
}

/// The microseconds of a point and one to six digits in front, or 0 where there is no point, and what follows.
fn fraction(text: &[u8]) -> Option<(u32, &[u8])>
    ensures found { IfSome result (λ r. IsMicrosFraction (fraction_front text.now) r.0) }
    ensures rest { IfSome result (λ r. r.1.now ≡ after_fraction text.now) }
    ensures none { IfNone result ((micros : ℕ)
        → ¬ (IsMicrosFraction (fraction_front text.now) micros)) }
{
    let (point, rest) = split_point(text);
    if point {
        match split_micros(rest) {
            Some((micros, rest)) => Some((micros, rest)),
            None => None,
        }
    } else {
        Some((0, rest))
    }
}

/// The microseconds of one to six digits in front, and what follows them.
fn split_micros(text: &[u8]) -> Option<(u32, &[u8])>
    ensures found { IfSome result (λ r. AreMicros (front_digits text.now) r.0) }
    ensures rest { IfSome result (λ r. r.1.now ≡ after_digits text.now) }
    ensures none { IfNone result ((micros : ℕ) → ¬ (AreMicros (front_digits text.now) micros)) }
{
    let mut len = 0;
    let mut number: u32 = 0;
    while len < text.len() && text[len].is_ascii_digit() {
        if len == 6 {
            return None;
        }
        number = 10 * number + (text[len] - b'0') as u32;
        len += 1;
    }
    if len == 0 {
        return None;
    }
    let (_, rest) = text.split_at(len);
    Some((number * scale(6 - len), rest))
}

/// Whether a point stands in front, and what follows it.
fn split_point(text: &[u8]) -> (bool, &[u8])
    ensures point { result.0 ≡ has_point text.now }
    ensures rest { result.1.now ≡ behind_point text.now }
{
    match text {
        [b'.', rest @ ..] => (true, rest),
        _ => (false, text),
    }
}

/// A power of ten: `10 ^ places`.
fn scale(places: usize) -> u32
    requires { places ≤ 5 }
    ensures { result ≡ 10 ^ places }
{
    match places {
        0 => 1,
        1 => 10,
        2 => 100,
        3 => 1_000,
        4 => 10_000,
        _ => 100_000,
    }
}

impl Time {
    ghost use Rattle.std.specs.Prelude.{◌≡◌, IfSome, IfNone};
    ghost use Rattle.pg_timestamp.specs.inside.Places.{AreTimeAt, after_time};
    ghost use Rattle.pg_timestamp.specs.declared.time.Time.{Time as TimeValue};

    /// The time in front of the text, behind its blank, and what follows it.
    pub(crate) fn split(text: &[u8]) -> Option<(Time, &[u8])>
        ensures found { IfSome result (λ r. AreTimeAt text.now r.0) }
        ensures rest { IfSome result (λ r. r.1.now ≡ after_time text.now) }
        ensures none { IfNone result ((time : TimeValue) → ¬ (AreTimeAt text.now time)) }
    {
        let (hour, rest) = pair(text, b' ', 0, 24)?;
        let (minute, rest) = pair(rest, b':', 0, 59)?;
        let (second, rest) = pair(rest, b':', 0, 60)?;
        let (micros, rest) = fraction(rest)?;
        let (offset, rest) = perhaps_offset(rest)?;
        Some((
            Time {
                hour,
                minute,
                second,
                micros,
                offset,
            },
            rest,
        ))
    }
}
