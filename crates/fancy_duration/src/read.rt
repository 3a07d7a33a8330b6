//! The items of a text, from left to right, and their sum.
ghost use Rattle.std.specs.Prelude.{◌≡◌, ◌≢◌, ℕ, ◌+◌, ◌*◌, ◌/◌, ◌%◌, ◌<◌, [], ◌∷◌, length};
ghost use Rattle.std.specs.Prelude.{IfOk, IfSome, IfNone, IsErrOf, IsTrue, ◌↔◌};
ghost use Rattle.std.specs.Char.{is_ascii_digit as is_digit, is_ascii_alphabetic as is_letter};
ghost use Rattle.std.specs.Str.Parse.{digits_value_after};
ghost use Rattle.scan_core.specs.Digits.{number_of};
ghost use Rattle.fancy_duration.specs.Items.{Item, begins_by};
ghost use Rattle.fancy_duration.specs.Sums.{total};
ghost use Rattle.fancy_duration.specs.Meanings.{Denotes, IsTooBig};
ghost use Rattle.scan_core.specs.Fronts.{leading, behind};
ghost use Rattle.fancy_duration.specs.inside.Reading.{unit_front, unit_behind, items_of, capped};

use crate::tally::Tally;
use crate::{DurationPart, FancyError};

/// The seconds and nanoseconds of a text's sum, or `TooBig` exactly where the seconds pass `u64::MAX`.
pub(crate) fn read_times(text: &[u8]) -> Result<(u64, u64), FancyError>
    ensures ok { IfOk result (Denotes text.now) }
    ensures all { (times : ℕ × ℕ) → Denotes text.now times → result ≡ Ok times }
    ensures big { IsErrOf result FancyError.TooBig ↔ IsTooBig text.now }
    ensures held { result ≢ Err FancyError.NotHeld }
{
    let (seconds, beyond) = times_of(sum_of(text));
    match u64::try_from(seconds) {
        Ok(seconds) => Ok((seconds, beyond)),
        Err(_) => Err(FancyError::TooBig),
    }
}

/// The whole seconds of a length, and the nanoseconds beyond them.
#[inline(always)]
fn times_of(nanos: u128) -> (u128, u64)
    ensures seconds { result.0 ≡ nanos / 1_000_000_000 }
    ensures beyond { result.1 ≡ nanos % 1_000_000_000 }
{
    // Nearly all lengths have 64 bits, and dividing 128 takes some ten times as long.
    match u64::try_from(nanos) {
        Ok(nanos) => (u128::from(nanos / 1_000_000_000), nanos % 1_000_000_000),
        Err(_) => (nanos / 1_000_000_000, (nanos % 1_000_000_000) as u64),
    }
}

/// The nanoseconds of a text's items, or `u128::MAX` where they are more.
fn sum_of(text: &[u8]) -> u128
    ensures { result ≡ capped (total (items_of text.now)) }
{
    let mut tally = Tally::new();
    let mut rest = text;
    while let Some((number, unit, after)) = next_item(rest) {
        if let Some(part) = DurationPart::named(unit) {
            tally.add(number, part);
        }
        rest = after;
    }
    tally.sum()
}

/// A text's first item, as its number, its unit and what follows it.
fn next_item(text: &[u8]) -> Option<(u128, &[u8], &[u8])>
    ensures found { IfSome result (λ next. (item : Item)
        × (items_of text.now ≡ item ∷ items_of next.2.now)
        × (next.0 ≡ capped (number_of item.digits)) × (next.1.now ≡ item.unit)) }
    ensures shorter { IfSome result (λ next. length next.2.now < length text.now) }
    ensures none { IfNone result (items_of text.now ≡ []) }
{
    let mut rest = text;
    while let Some((first, tail)) = rest.split_first() {
        if first.is_ascii_digit() {
            let (number, behind) = split_number(rest);
            let (unit, after) = split_unit(behind);
            if !unit.is_empty() {
                return Some((number, unit, after));
            }
            rest = behind;
        } else {
            rest = tail;
        }
    }
    None
}

/// The number that the digits at a text's front write, as `u128` holds it or `u128::MAX`, and what follows them.
fn split_number(text: &[u8]) -> (u128, &[u8])
    ensures number { result.0 ≡ capped (number_of (leading is_digit text.now)) }
    ensures rest { result.1.now ≡ behind is_digit text.now }
{
    let (few, behind) = split_few(text);
    let mut number = u128::from(few);
    let mut rest = behind;
    while let Some((first, tail)) = rest.split_first() {
        if !first.is_ascii_digit() {
            break;
        }
        number = with_digit(number, *first - b'0');
        rest = tail;
    }
    (number, rest)
}

/// A number with one more digit, as `u128` holds it or `u128::MAX`.
fn with_digit(number: u128, digit: u8) -> u128
    requires { digit < 10 }
    ensures { result ≡ capped (number * 10 + digit) }
{
    number.saturating_mul(10).saturating_add(u128::from(digit))
}

/// The number of the digits at a text's front as far as it has 64 bits without a test, and what follows these digits: all of them are
/// read, unless the number passes 999,999,999 before.
#[inline(always)]
pub(crate) fn split_few(text: &[u8]) -> (u64, &[u8])
    ensures number { digits_value_after 10 result.0 (leading is_digit result.1.now)
        ≡ number_of (leading is_digit text.now) }
    ensures rest { behind is_digit result.1.now ≡ behind is_digit text.now }
{
    let mut number: u64 = 0;
    let mut rest = text;
    while let Some((first, tail)) = rest.split_first() {
        // The digit has 64 bits from the first, so it is widened once. The bound is one that an instruction holds, and one digit more is
        // always held.
        let digit = u64::from(*first).wrapping_sub(48);
        if digit > 9 || number > 999_999_999 {
            break;
        }
        number = number * 10 + digit;
        rest = tail;
    }
    (number, rest)
}

/// The one or two letters at a text's front, or none, and what follows them.
fn split_unit(text: &[u8]) -> (&[u8], &[u8])
    ensures unit { result.0.now ≡ unit_front text.now }
    ensures rest { result.1.now ≡ unit_behind text.now }
{
    match text {
        [first, ..] if first.is_ascii_alphabetic() => split_letters(text),
        _ => text.split_at(0),
    }
}

/// The one or two letters at the front of a text that begins by a letter, and what follows them; of another text its
/// first byte may be there.
#[inline(always)]
pub(crate) fn split_letters(text: &[u8]) -> (&[u8], &[u8])
    ensures first { begins_by is_letter result.0.now ≡ begins_by is_letter text.now }
    ensures unit { IsTrue (begins_by is_letter text.now) → result.0.now ≡ unit_front text.now }
    ensures rest { IsTrue (begins_by is_letter text.now) → result.1.now ≡ unit_behind text.now }
{
    match text {
        [_, second, ..] if second.is_ascii_alphabetic() => text.split_at(2),
        [_, ..] => text.split_at(1),
        [] => text.split_at(0),
    }
}
