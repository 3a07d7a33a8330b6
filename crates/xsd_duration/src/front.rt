//! The number in front of bytes.
ghost use Rattle.std.specs.Prelude.{◌≡◌, ◌-◌, ◌*◌, ◌+◌, ◌%◌, ◌^◌, ℕ, true};
ghost use Rattle.std.specs.Char.{is_ascii_digit};
ghost use Rattle.scan_core.specs.Digits.{AreDigits, number_of};
ghost use Rattle.scan_core.specs.Shares.{rounded};
ghost use Rattle.xsd_duration.specs.inside.Fronts.{front_in, seen};
ghost use Rattle.xsd_duration.specs.inside.Numbers.{cut_number};

use scan_core::{Unit, count_share, digits_u64};

/// The digits in front of bytes: their number, cut to `u64::MAX`, these digits, and what follows them.
#[derive(Clone, Copy)]
pub(crate) struct Front<'a> {
    pub(crate) number: u64,
    pub(crate) digits: &'a [u8],
    pub(crate) rest: &'a [u8],
}

/// The digits in front.
#[inline(always)]
#[tactic(auto, unfolding(crate::specs::inside::Fronts::front_in))]
pub(crate) fn front_of(bytes: &[u8]) -> Front<'_>
    ensures front { seen result ≡ front_in bytes.now }
    ensures digits { AreDigits result.digits.now }
    ensures number { result.number ≡ cut_number result.digits.now }
{
    let mut number = 0;
    let mut len = 0;
    while len < bytes.len() && bytes[len].is_ascii_digit() {
        number = with_digit(number, bytes[len]);
        len += 1;
    }
    let (digits, rest) = bytes.split_at(len);
    Front {
        number: whole_number(digits, number),
        digits,
        rest,
    }
}

/// The number with one more digit, modulo 2^64.
#[inline(always)]
fn with_digit(number: u64, digit: u8) -> u64
    requires { is_ascii_digit digit ≡ true }
    ensures { (n : ℕ) → number ≡ n % 2 ^ 64
        → result ≡ (n * 10 + (digit - 48)) % 2 ^ 64 }
{
    number
        .wrapping_mul(10)
        .wrapping_add(u64::from(digit - b'0'))
}

/// The number that the digits write, cut to `u64::MAX`, where it is known modulo 2^64: 18 digits write no greater one.
#[inline(always)]
fn whole_number(digits: &[u8], number: u64) -> u64
    requires digits { AreDigits digits.now }
    requires number { number ≡ number_of digits.now % 2 ^ 64 }
    ensures { result ≡ cut_number digits.now }
{
    if digits.len() <= 18 {
        number
    } else {
        long_number(digits)
    }
}

/// The number that any digits write, cut to `u64::MAX`.
#[inline(never)] // few texts need it
fn long_number(digits: &[u8]) -> u64
    requires { AreDigits digits.now }
    ensures { result ≡ cut_number digits.now }
{
    match digits_u64(digits) {
        Some(number) => number,
        None => u64::MAX,
    }
}

/// The fraction of a second that the digits behind the point write, in microseconds, rounded half away from zero. At most six
/// digits write it exactly, and their number is at hand.
#[inline(always)]
pub(crate) fn fraction_of(digits: &[u8], number: u64) -> u64
    requires digits { AreDigits digits.now }
    requires number { number ≡ cut_number digits.now }
    ensures { result ≡ rounded 1_000_000 digits.now }
{
    match digits.len() {
        1 => number * 100_000,
        2 => number * 10_000,
        3 => number * 1_000,
        4 => number * 100,
        5 => number * 10,
        6 => number,
        _ => long_fraction(digits),
    }
}

/// The same of any digits.
#[inline(never)] // few texts need it
fn long_fraction(digits: &[u8]) -> u64
    requires { AreDigits digits.now }
    ensures { result ≡ rounded 1_000_000 digits.now }
{
    count_share(&[], digits, false, Unit::Second)
        .unwrap()
        .micros as u64
}
