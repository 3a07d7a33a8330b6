//! Times, from behind the `:` that follows the hour. The checks stand in the order of the table.
ghost use Rattle.std.specs.Prelude.{◌≡◌, Ok, Err, nat_le, IfOk, IfErr, codes, is_some, option_map, true, false};
ghost use Rattle.scan_core.specs.Digits.{AreDigits, number_of};
ghost use Rattle.port_toml_datetime.specs.Times.{nanoseconds};
ghost use Rattle.port_toml_datetime.specs.Tokens.{is_digits};
ghost use Rattle.port_toml_datetime.specs.inside.Words.{words_of};
ghost use Rattle.port_toml_datetime.specs.Checks.{after_fraction, after_marked, after_time, fraction, has_length, marked, time_outcome, where_there};

use crate::Time;
use crate::error::{Check, DatetimeParseError};
use crate::numbers::{split_nanoseconds, two_digits};
use crate::scan::{Field, begins_with_digit, check, read_field};

/// The field behind a `:`, where one follows, and what follows both.
fn read_second(bytes: &[u8]) -> Result<(Option<Field>, &[u8]), DatetimeParseError>
    ensures is { IfOk result (λ r. where_there is_digits (marked (codes ":") bytes.now) ≡ true) }
    ensures there { IfOk result (λ r. is_some r.0 ≡ is_some (marked (codes ":") bytes.now)) }
    ensures two { IfOk result (λ r.
        where_there (λ f. f.is_two) r.0
        ≡ where_there (has_length 2) (marked (codes ":") bytes.now)) }
    ensures number { IfOk result
        (λ r. where_there (has_length 2) (marked (codes ":") bytes.now) ≡ true
        → option_map (λ f. f.number) r.0 ≡ option_map number_of (marked (codes ":") bytes.now)) }
    ensures rest { IfOk result (λ r. r.1.now ≡ after_marked (codes ":") bytes.now) }
    ensures isnt { IfErr result (λ e.
        where_there is_digits (marked (codes ":") bytes.now) ≡ false) }
    ensures err { IfErr result (λ e. e ≡ words_of Check.Second) }
{
    match bytes {
        [b':', rest @ ..] => {
            let (second, rest) = read_field(rest, Check::Second)?;
            Ok((Some(second), rest))
        }
        _ => Ok((None, bytes)),
    }
}

/// The nanoseconds of the digits behind a `.`, where one follows a second, and what follows both.
#[tactic(auto, using(crate::proofs::TokenFacts::digits_first, crate::proofs::TokenFacts::no_digits_first))]
#[inline(always)] // as its caller
fn read_fraction(has_second: bool, bytes: &[u8]) -> Result<(Option<u32>, &[u8]), DatetimeParseError>
    ensures is { IfOk result (λ r. where_there is_digits (fraction has_second bytes.now) ≡ true) }
    ensures value { IfOk result (λ r.
        r.0 ≡ option_map nanoseconds (fraction has_second bytes.now)) }
    ensures rest { IfOk result (λ r. r.1.now ≡ after_fraction has_second bytes.now) }
    ensures isnt { IfErr result (λ e.
        where_there is_digits (fraction has_second bytes.now) ≡ false) }
    ensures err { IfErr result (λ e. e ≡ words_of Check.Nanosecond) }
{
    match bytes {
        [b'.', rest @ ..] if has_second => {
            check(begins_with_digit(rest), Check::Nanosecond)?;
            let (nanosecond, rest) = split_nanoseconds(rest);
            Ok((Some(nanosecond), rest))
        }
        _ => Ok((None, bytes)),
    }
}

/// Whether the second isn't there, or has two digits.
fn is_two_digits(second: Option<Field>) -> bool
    ensures { result ≡ where_there (λ f. f.is_two) second }
{
    match second {
        Some(second) => second.is_two,
        None => true,
    }
}

/// The number of the second, where it is there.
fn number_of_second(second: Option<Field>) -> Option<u8>
    ensures { result ≡ option_map (λ f. f.number) second }
{
    match second {
        Some(second) => Some(second.number),
        None => None,
    }
}

/// Whether the second is at most 60, or isn't there.
fn is_second(second: Option<u8>) -> bool
    ensures { result ≡ where_there (λ n. nat_le n 60) second }
{
    match second {
        Some(second) => second <= 60,
        None => true,
    }
}

/// A time, from behind the `:` that follows the hour.
#[tactic(auto, unfolding(crate::specs::Checks::checked, crate::specs::Checks::time_outcome, crate::specs::Checks::after_time))]
#[inline(always)] // else its two callers take the time out of memory
pub(crate) fn read_time<'a>(
    hour: &[u8],
    bytes: &'a [u8],
) -> Result<(Time, &'a [u8]), DatetimeParseError>
    requires { AreDigits hour.now }
    ensures time { IfOk result (λ r. time_outcome hour.now bytes.now ≡ Ok r.0) }
    ensures rest { IfOk result (λ r. r.1.now ≡ after_time bytes.now) }
    ensures err { IfErr result (λ e. time_outcome hour.now bytes.now ≡ Err e) }
{
    let (minute, bytes) = read_field(bytes, Check::Minute)?;
    let (second, bytes) = read_second(bytes)?;
    let (nanosecond, bytes) = read_fraction(second.is_some(), bytes)?;
    check(hour.len() == 2, Check::HourWidth)?;
    check(minute.is_two, Check::MinuteWidth)?;
    check(is_two_digits(second), Check::SecondWidth)?;
    let hour = two_digits(hour);
    let minute = minute.number;
    let second = number_of_second(second);
    check(hour <= 23, Check::HourRange)?;
    check(minute <= 59, Check::MinuteRange)?;
    check(is_second(second), Check::SecondRange)?;
    Ok((
        Time {
            hour,
            minute,
            second,
            nanosecond,
        },
        bytes,
    ))
}
