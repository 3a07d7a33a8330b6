//! Dates: their years and eras, and their days.
ghost use Rattle.std.specs.Prelude.{◌≡◌, ◌^◌, ◌<◌, ◌≤◌, ◌-◌, ◌%◌, ℕ, Bool, true, [], ◌∷◌, length, min, IfSome, IfNone};
ghost use Rattle.scan_core.specs.Digits.{AreDigits, number_of};
ghost use Rattle.scan_core.specs.Fronts.{front_digits, after_digits};
ghost use Rattle.pg_timestamp.specs.Pieces.{era_text};
ghost use Rattle.pg_timestamp.specs.Dates.{IsLongYear, held_year};
ghost use Rattle.pg_timestamp.specs.inside.Places.{has_first};

use scan_core::{digits_u32, split_digits};

/// A date as it is written, whether or not there is such a day.
#[derive(Clone, Copy, Debug, PartialEq, Eq)]
pub struct Date {
    /// The year of its era. From 40,000 on it is 40,000 and the last four digits that were written, a year with the same days, which is
    /// past all bounds as well.
    pub year: u16,
    /// The month: from 1 to 12 where it was read.
    pub month: u8,
    /// The day of the month: from 1 to 31 where it was read.
    pub day: u8,
    /// Whether the year is before Christ: the year before 1 is 1 BC.
    pub bc: bool,
}

/// The number that the digits write, or `u32::MAX` where it is above that.
fn capped(digits: &[u8]) -> u32
    requires some { 0 < length digits.now }
    requires digits { AreDigits digits.now }
    ensures { result ≡ min (number_of digits.now) (2 ^ 32 - 1) }
{
    match digits_u32(digits) {
        Some(number) => number,
        None => u32::MAX,
    }
}

/// The number of the last four digits.
fn last_four(digits: &[u8]) -> u16
    requires least { 4 ≤ length digits.now }
    requires digits { AreDigits digits.now }
    ensures { result ≡ number_of digits.now % 10_000 }
{
    let (_, last) = digits.split_at(digits.len() - 4);
    let number = digits_u32(last).unwrap();
    number as u16
}

/// The year that the digits write, as it is held.
fn year_of(digits: &[u8]) -> u16
    requires least { 4 ≤ length digits.now }
    requires digits { AreDigits digits.now }
    ensures { result ≡ held_year (number_of digits.now) }
{
    let number = capped(digits);
    if number < 40_000 {
        return number as u16;
    }
    40_000 + last_four(digits)
}

/// The year of four digits or more in front, and what follows the digits.
pub(crate) fn split_year(text: &[u8]) -> Option<(u16, &[u8])>
    ensures found { IfSome result (λ r. IsLongYear (front_digits text.now) r.0) }
    ensures rest { IfSome result (λ r. r.1.now ≡ after_digits text.now) }
    ensures none { IfNone result ((year : ℕ) → ¬ (IsLongYear (front_digits text.now) year)) }
{
    match split_four(text) {
        Some((year, rest)) => Some((year, rest)),
        None => split_long(text),
    }
}

/// The year of four digits in front of a minus, and what follows the digits.
fn split_four(text: &[u8]) -> Option<(u16, &[u8])>
    ensures found { IfSome result (λ r. IsLongYear (front_digits text.now) r.0) }
    ensures rest { IfSome result (λ r. r.1.now ≡ after_digits text.now) }
{
    match text {
        [a, b, c, d, rest @ ..] => match four(*a, *b, *c, *d) {
            Some(year) => ahead_of_minus(year, rest),
            None => None,
        },
        _ => None,
    }
}

/// The year, and what follows it, where that begins with a minus.
fn ahead_of_minus(year: u16, rest: &[u8]) -> Option<(u16, &[u8])>
    ensures year { IfSome result (λ r. r.0 ≡ year) }
    ensures rest { IfSome result (λ r. r.1.now ≡ rest.now) }
    ensures minus { IfSome result (λ r. has_first 45 rest.now ≡ true) }
{
    match rest {
        [b'-', ..] => Some((year, rest)),
        _ => None,
    }
}

/// The year that four digits write.
fn four(a: u8, b: u8, c: u8, d: u8) -> Option<u16>
    ensures { IfSome result (IsLongYear (a ∷ b ∷ c ∷ d ∷ [])) }
{
    if !a.is_ascii_digit() {
        return None;
    }
    if !b.is_ascii_digit() {
        return None;
    }
    if !c.is_ascii_digit() {
        return None;
    }
    if !d.is_ascii_digit() {
        return None;
    }
    let hundreds = 10 * (a - b'0') + (b - b'0');
    let rest = 10 * (c - b'0') + (d - b'0');
    Some(100 * hundreds as u16 + rest as u16)
}

/// The same of a year of any length.
#[inline(never)] // nearly all years have four digits
fn split_long(text: &[u8]) -> Option<(u16, &[u8])>
    ensures found { IfSome result (λ r. IsLongYear (front_digits text.now) r.0) }
    ensures rest { IfSome result (λ r. r.1.now ≡ after_digits text.now) }
    ensures none { IfNone result ((year : ℕ) → ¬ (IsLongYear (front_digits text.now) year)) }
{
    let (digits, rest) = split_digits(text);
    if digits.len() < 4 {
        return None;
    }
    Some((year_of(digits), rest))
}

/// Whether the text is ` BC`, and not nothing.
pub(crate) fn era(text: &[u8]) -> Option<bool>
    ensures found { IfSome result (λ bc. text.now ≡ era_text bc) }
    ensures none { IfNone result ((bc : Bool) → ¬ (text.now ≡ era_text bc)) }
{
    match text {
        [] => Some(false),
        [b' ', b'B', b'C'] => Some(true),
        _ => None,
    }
}
