//! Unix time as a form.
ghost use Rattle.std.specs.Prelude.{◌≡◌, ◌+◌, ◌*◌, ◌/◌, ◌%◌, ◌^◌, ◌<◌, ◌≤◌, ◌++◌, List, ℕ, length, decimal, IfOk, IfSome, IfNone};
ghost use Rattle.arrayvec.specs.ArrayString.{array_string_len};
ghost use Rattle.jiff.specs.Words.{IsWithin};
ghost use Rattle.scan_core.specs.Digits.{AreDigits, number_of};
ghost use Rattle.scan_core.specs.Number.{minus};
ghost use Rattle.scan_core.specs.Shares.{signed};
ghost use Rattle.forms.specs.declared.form.Form.{Form as AnyForm};
ghost use Rattle.forms.specs.Forms.{Reads, Writes};
ghost use Rattle.forms.specs.Putting.{Puts};
ghost use Rattle.forms.specs.Values.{IsWithinBounds};
ghost use Rattle.forms.specs.form.Unix.{IsShortFraction, fraction_text, held, magnitude_text, nine_digits, unix_text, worth};
ghost use Rattle.forms.specs.inside.Lawful.{Lawful};
ghost use Rattle.forms.specs.inside.UnixParts.{behind_minus, minus_of};

use crate::cause::Cause;
use crate::value::{NANOSECONDS_A_SECOND, Value};
use arrayvec::ArrayString;
use scan_core::{digits_u32, digits_u64, push_num, push_text, push_trimmed, split_digits};

/// The nanoseconds of 10^13 seconds, the most that an instant has to either side.
const MOST_NANOSECONDS: u128 = 10_000_000_000_000_000_000_000;

/// The instant of seconds since the epoch.
pub fn read(text: &[u8]) -> Result<Value, Cause>
    ensures { Reads AnyForm.Unix text.now result }
{
    let (negative, number) = split_minus(text);
    let (whole, tail) = split_digits(number);
    if whole.is_empty() {
        return Err(Cause::Syntax);
    }
    match fraction_of(tail) {
        Some(fraction) => value_of(negative, whole, fraction),
        None => Err(Cause::Syntax),
    }
}

/// Whether a minus stands in front, and what follows it.
fn split_minus(text: &[u8]) -> (bool, &[u8])
    ensures minus { result.0 ≡ minus_of text.now }
    ensures rest { result.1.now ≡ behind_minus text.now }
{
    match text {
        [b'-', rest @ ..] => (true, rest),
        _ => (false, text),
    }
}

/// The nanoseconds of a point and one to nine digits, or of nothing.
fn fraction_of(tail: &[u8]) -> Option<u32>
    ensures found { IfSome result (λ n. (fraction : List ℕ) × IsShortFraction fraction tail.now
        × (n ≡ number_of (nine_digits fraction))) }
    ensures none { IfNone result ((fraction : List ℕ) → ¬ (IsShortFraction fraction tail.now)) }
{
    match tail {
        [] => Some(0),
        [b'.', digits @ ..] => nanoseconds(digits),
        _ => None,
    }
}

/// The nanoseconds of one to nine digits of a fraction.
fn nanoseconds(digits: &[u8]) -> Option<u32>
    ensures found { IfSome result (λ n. ((0 < length digits.now) × (length digits.now ≤ 9))
        × AreDigits digits.now × (n ≡ number_of (nine_digits digits.now))) }
    ensures none { IfNone result
        (¬ (((0 < length digits.now) × (length digits.now ≤ 9)) × AreDigits digits.now)) }
{
    let (front, rest) = split_digits(digits);
    if front.is_empty() {
        return None;
    }
    if !rest.is_empty() {
        return None;
    }
    if front.len() > 9 {
        return None;
    }
    let number = digits_u32(front).unwrap();
    Some(number * scale(9 - front.len()))
}

/// A power of ten: `10 ^ places`.
fn scale(places: usize) -> u32
    requires { places ≤ 8 }
    ensures { result ≡ 10 ^ places }
{
    match places {
        0 => 1,
        1 => 10,
        2 => 100,
        3 => 1_000,
        4 => 10_000,
        5 => 100_000,
        6 => 1_000_000,
        7 => 10_000_000,
        _ => 100_000_000,
    }
}

/// The instant of whole seconds and nanoseconds.
fn value_of(negative: bool, whole: &[u8], fraction: u32) -> Result<Value, Cause>
    requires digits { AreDigits whole.now }
    requires fraction { fraction < 10 ^ 9 }
    ensures { result ≡ worth (signed negative (number_of whole.now * 10 ^ 9 + fraction)) }
{
    match digits_u64(whole) {
        Some(seconds) => instant_of(
            negative,
            seconds as u128 * NANOSECONDS_A_SECOND + fraction as u128,
        ),
        None => Err(Cause::Range),
    }
}

/// The instant of so many nanoseconds before the epoch or behind it, where there are few enough.
fn instant_of(negative: bool, nanos: u128) -> Result<Value, Cause>
    ensures { result ≡ worth (signed negative nanos) }
{
    if nanos <= MOST_NANOSECONDS {
        Ok(Value::Instant(with_sign(negative, nanos)))
    } else {
        Err(Cause::Range)
    }
}

/// A number by its sign and magnitude.
fn with_sign(negative: bool, nanos: u128) -> i128
    requires { nanos ≤ 10 ^ 22 }
    ensures { result ≡ signed negative nanos }
{
    if negative {
        -(nanos as i128)
    } else {
        nanos as i128
    }
}

/// Appends the seconds at an instant, and its nanoseconds where they aren't 0.
pub fn push<const CAP: usize>(value: Value, out: &mut ArrayString<CAP>) -> Result<(), Cause>
    requires within { IsWithinBounds value }
    requires room { array_string_len out.old + 96 ≤ CAP }
    ensures answer { Puts (Writes AnyForm.Unix value) out.old.bytes out.new.bytes result }
    ensures len { array_string_len out.new ≤ array_string_len out.old + 96 }
{
    match instant_in(value) {
        Ok(nanos) => {
            push_instant(out, nanos);
            Ok(())
        }
        Err(cause) => Err(cause),
    }
}

/// The nanoseconds of an instant, the only value that Unix time holds.
fn instant_in(value: Value) -> Result<i128, Cause>
    requires { IsWithinBounds value }
    ensures held { result ≡ held value }
    ensures within { IfOk result (IsWithin (10 ^ 22)) }
{
    match value {
        Value::Instant(nanos) => Ok(nanos),
        _ => Err(Cause::Kind),
    }
}

/// Appends the text of nanoseconds since the epoch.
fn push_instant<const CAP: usize>(out: &mut ArrayString<CAP>, nanos: i128)
    requires within { IsWithin (10 ^ 22) nanos }
    requires room { array_string_len out.old + 31 ≤ CAP }
    ensures bytes { out.new.bytes ≡ out.old.bytes ++ unix_text nanos }
    ensures len { array_string_len out.new ≤ array_string_len out.old + 31 }
{
    push_minus(out, nanos < 0);
    push_magnitude(out, nanos.unsigned_abs());
}

/// Appends a minus, or nothing.
fn push_minus<const CAP: usize>(out: &mut ArrayString<CAP>, negative: bool)
    requires { array_string_len out.old + 1 ≤ CAP }
    ensures bytes { out.new.bytes ≡ out.old.bytes ++ minus negative }
    ensures len { array_string_len out.new ≤ array_string_len out.old + 1 }
{
    if negative {
        push_text(out, "-");
    }
}

/// Appends seconds, and what is less than a second.
#[tactic(auto, unfolding(crate::specs::form::Unix::magnitude_text))]
fn push_magnitude<const CAP: usize>(out: &mut ArrayString<CAP>, nanos: u128)
    requires most { nanos ≤ 10 ^ 22 }
    requires room { array_string_len out.old + 30 ≤ CAP }
    ensures bytes { out.new.bytes ≡ out.old.bytes ++ magnitude_text nanos }
    ensures len { array_string_len out.new ≤ array_string_len out.old + 30 }
{
    let (seconds, rest) = in_seconds(nanos);
    push_seconds(out, seconds);
    push_fraction(out, rest);
}

/// Whole seconds, and the nanoseconds that are left.
fn in_seconds(nanos: u128) -> (u64, u64)
    requires { nanos ≤ 10 ^ 22 }
    ensures seconds { result.0 ≡ nanos / 10 ^ 9 }
    ensures rest { result.1 ≡ nanos % 10 ^ 9 }
{
    // Instants up to the year 2554 fit into 64 bits, where a division is a multiplication.
    match u64::try_from(nanos) {
        Ok(few) => (few / 1_000_000_000, few % 1_000_000_000),
        Err(_) => (
            (nanos / NANOSECONDS_A_SECOND) as u64,
            (nanos % NANOSECONDS_A_SECOND) as u64,
        ),
    }
}

/// Appends the digits of a number, of which 64 bits have 20 at most.
#[tactic(auto, using(scan_core::proofs::DigitFacts::length_decimal_u64))]
fn push_seconds<const CAP: usize>(out: &mut ArrayString<CAP>, seconds: u64)
    requires { array_string_len out.old + 20 ≤ CAP }
    ensures bytes { out.new.bytes ≡ out.old.bytes ++ decimal seconds }
    ensures len { array_string_len out.new ≤ array_string_len out.old + 20 }
{
    push_num(out, seconds);
}

/// Appends a point and the digits of a fraction, or nothing.
#[tactic(auto, using(crate::proofs::UnixTimes::length_decimal_nine), unfolding(crate::specs::form::Unix::fraction_text))]
fn push_fraction<const CAP: usize>(out: &mut ArrayString<CAP>, nanos: u64)
    requires nanos { nanos < 10 ^ 9 }
    requires room { array_string_len out.old + 10 ≤ CAP }
    ensures bytes { out.new.bytes ≡ out.old.bytes ++ fraction_text nanos }
    ensures len { array_string_len out.new ≤ array_string_len out.old + 10 }
{
    if nanos != 0 {
        push_text(out, ".");
        push_trimmed(out, nanos, 9);
    }
}

/// Unix time is a lawful form.
pub fn lawful()
    ensures { Lawful AnyForm.Unix }
{}
