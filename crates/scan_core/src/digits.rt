//! The numbers that digits write.
ghost use Rattle.std.specs.Prelude.{◌≡◌, ◌<◌, ◌≤◌, ◌^◌, ◌↔◌, length, take, IsSome, IfSome};
ghost use Rattle.std.specs.Char.{digit_value};
ghost use Rattle.std.specs.Int.{IsInRange};
ghost use Rattle.scan_core.specs.Digits.{AreDigits, number_of};

/// The number that the digits write, or None exactly where it is above `u32::MAX`: `digits_u32(b"007")` is 7.
pub fn digits_u32(digits: &[u8]) -> Option<u32>
    requires some { 0 < length digits.now }
    requires digits { AreDigits digits.now }
    ensures fits { IsSome result ↔ (number_of digits.now < 2 ^ 32) }
    ensures value { IfSome result (λ value. value ≡ number_of digits.now) }
{
    u32::try_from(digits_u64(digits)?).ok()
}

/// The number that the digits write, which is 0 for none, or None exactly where it is above `u64::MAX`:
/// `digits_u64(b"007")` is 7.
pub fn digits_u64(digits: &[u8]) -> Option<u64>
    requires { AreDigits digits.now }
    ensures fits { IsSome result ↔ (number_of digits.now < 2 ^ 64) }
    ensures value { IfSome result (λ value. value ≡ number_of digits.now) }
{
    if digits.len() <= 19 {
        Some(few_digits(digits))
    } else {
        many_digits(digits)
    }
}

/// The number that at most 19 digits write: no step on the way leaves 64 bits.
#[inline(always)]
fn few_digits(digits: &[u8]) -> u64
    requires digits { AreDigits digits.now }
    requires few { length digits.now ≤ 19 }
    ensures { result ≡ number_of digits.now }
{
    let mut value: u64 = 0;
    for digit in digits {
        value = value * 10 + u64::from(*digit - b'0');
    }
    value
}

/// The number that any digits write, or None exactly where it is above `u64::MAX`.
#[inline(never)] // few texts need it
fn many_digits(digits: &[u8]) -> Option<u64>
    requires { AreDigits digits.now }
    ensures fits { IsSome result ↔ (number_of digits.now < 2 ^ 64) }
    ensures value { IfSome result (λ value. value ≡ number_of digits.now) }
{
    let mut value: u64 = 0;
    for digit in digits {
        value = value
            .checked_mul(10)?
            .checked_add(u64::from(*digit - b'0'))?;
    }
    Some(value)
}

/// The value of a digit, and 10 or more for each other byte.
fn digit_of(byte: u8) -> u32
    ensures digit { result < 10 → (digit_value byte < 10) × (result ≡ digit_value byte) }
    ensures other { IsInRange 48 57 byte → result < 10 }
{
    u32::from(byte).wrapping_sub(48)
}

/// The number that the bytes write, at most 9 of them, or None exactly where one is no digit.
///
/// Each byte is looked at once, and in 32 bits, where its value needs no further widening.
fn field_digits(bytes: &[u8]) -> Option<u32>
    requires { length bytes.now ≤ 9 }
    ensures found { IsSome result ↔ AreDigits bytes.now }
    ensures value { IfSome result (λ value. value ≡ number_of bytes.now) }
{
    let mut value = 0;
    for byte in bytes {
        let digit = digit_of(*byte);
        if digit > 9 {
            return None;
        }
        value = value * 10 + digit;
    }
    Some(value)
}

/// The number that the first `n` bytes write, `n` from 1 to 9, or None exactly where they aren't digits of a
/// number from `lo` to `hi`: `n_digits_in(b"24x", 2, 0, 24)` is 24.
pub fn n_digits_in(text: &[u8], n: usize, lo: u32, hi: u32) -> Option<u32>
    requires least { 1 ≤ n }
    requires most { n ≤ 9 }
    ensures found { IsSome result
        ↔ ((n ≤ length text.now) × AreDigits (take n text.now)
        × (lo ≤ number_of (take n text.now)) × (number_of (take n text.now) ≤ hi)) }
    ensures value { IfSome result (λ value. value ≡ number_of (take n text.now)) }
{
    let value = field_digits(text.get(..n)?)?;
    if lo <= value && value <= hi {
        Some(value)
    } else {
        None
    }
}
