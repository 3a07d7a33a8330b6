//! Tokens in front of bytes, each with the check that asks for it. Nearly all access to bytes goes
//! through these.
ghost use Rattle.std.specs.Prelude.{◌≡◌, true, false, [], ◌∷◌, IfOk, IfErr};
ghost use Rattle.scan_core.specs.Digits.{AreDigits, number_of};
ghost use Rattle.port_toml_datetime.specs.inside.Words.{words_of};
ghost use Rattle.port_toml_datetime.specs.Checks.{has_length};
ghost use Rattle.port_toml_datetime.specs.Tokens.{after_token, first_token, is_digits, is_end, is_mark, is_of};

use crate::error::{Check, DatetimeParseError};
use scan_core::split_digits;

/// The digits in front and what follows them, or the error where there are none.
pub(crate) fn digits(bytes: &[u8], asked: Check) -> Result<(&[u8], &[u8]), DatetimeParseError>
    ensures is { IfOk result (λ r. is_digits (first_token bytes.now) ≡ true) }
    ensures token { IfOk result (λ r. r.0.now ≡ first_token bytes.now) }
    ensures rest { IfOk result (λ r. r.1.now ≡ after_token bytes.now) }
    ensures digits { IfOk result (λ r. AreDigits r.0.now) }
    ensures isnt { IfErr result (λ e. is_digits (first_token bytes.now) ≡ false) }
    ensures err { IfErr result (λ e. e ≡ words_of asked) }
{
    let (front, rest) = split_digits(bytes);
    if front.is_empty() {
        return Err(DatetimeParseError::new(asked));
    }
    Ok((front, rest))
}

/// A run of digits that is to be a field of two.
#[derive(Clone, Copy)]
pub(crate) struct Field {
    /// Whether it has two digits.
    pub is_two: bool,
    /// The number that they write, or 0 where they aren't two.
    pub number: u8,
}

/// Whether a digit stands in front.
pub(crate) fn begins_with_digit(bytes: &[u8]) -> bool
    ensures { result ≡ is_digits bytes.now }
{
    match bytes {
        [b'0'..=b'9', ..] => true,
        _ => false,
    }
}

/// The digits in front as a field of two, and what follows them, or the error where there are none.
///
/// Two digits are read without a loop, since nearly all fields have two.
#[inline(always)]
pub(crate) fn read_field(bytes: &[u8], asked: Check) -> Result<(Field, &[u8]), DatetimeParseError>
    ensures is { IfOk result (λ r. is_digits (first_token bytes.now) ≡ true) }
    ensures two { IfOk result (λ r. r.0.is_two ≡ has_length 2 (first_token bytes.now)) }
    ensures number { IfOk result (λ r. has_length 2 (first_token bytes.now) ≡ true
        → r.0.number ≡ number_of (first_token bytes.now)) }
    ensures rest { IfOk result (λ r. r.1.now ≡ after_token bytes.now) }
    ensures isnt { IfErr result (λ e. is_digits (first_token bytes.now) ≡ false) }
    ensures err { IfErr result (λ e. e ≡ words_of asked) }
{
    match bytes {
        [tens, ones, rest @ ..]
            if tens.is_ascii_digit() && ones.is_ascii_digit() && !begins_with_digit(rest) => {
            let number = 10 * (*tens - b'0') + (*ones - b'0');
            Ok((
                Field {
                    is_two: true,
                    number,
                },
                rest,
            ))
        }
        _ => {
            // Not two digits, else they had been read above.
            let (_, rest) = digits(bytes, asked)?;
            Ok((
                Field {
                    is_two: false,
                    number: 0,
                },
                rest,
            ))
        }
    }
}

/// What follows the mark in front, or the error where it isn't there.
pub(crate) fn mark(mark: u8, bytes: &[u8], asked: Check) -> Result<&[u8], DatetimeParseError>
    requires { is_mark mark ≡ true }
    ensures is { IfOk result (λ r. is_of (mark ∷ []) (first_token bytes.now) ≡ true) }
    ensures rest { IfOk result (λ r. r.now ≡ after_token bytes.now) }
    ensures isnt { IfErr result (λ e. is_of (mark ∷ []) (first_token bytes.now) ≡ false) }
    ensures err { IfErr result (λ e. e ≡ words_of asked) }
{
    match bytes {
        [byte, rest @ ..] if *byte == mark => Ok(rest),
        _ => Err(DatetimeParseError::new(asked)),
    }
}

/// The error where the check doesn't hold.
pub(crate) fn check(holds: bool, asked: Check) -> Result<(), DatetimeParseError>
    ensures is { IfOk result (λ r. holds ≡ true) }
    ensures isnt { IfErr result (λ e. holds ≡ false) }
    ensures err { IfErr result (λ e. e ≡ words_of asked) }
{
    if holds {
        Ok(())
    } else {
        Err(DatetimeParseError::new(asked))
    }
}

/// The error where something is left.
pub(crate) fn end(bytes: &[u8]) -> Result<(), DatetimeParseError>
    ensures is { IfOk result (λ r. is_end bytes.now ≡ true) }
    ensures isnt { IfErr result (λ e. is_end bytes.now ≡ false) }
    ensures err { IfErr result (λ e. e ≡ words_of Check.End) }
{
    check(bytes.is_empty(), Check::End)
}
