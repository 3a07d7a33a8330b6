//! Numbers that runs of digits write.
ghost use Rattle.std.specs.Prelude.{◌≡◌, ◌≤◌, ◌^◌, length, min, take, drop};
ghost use Rattle.scan_core.specs.Digits.{AreDigits, number_of};
ghost use Rattle.scan_core.specs.Fronts.{front_digits, after_digits};
ghost use Rattle.port_toml_datetime.specs.Times.{nanoseconds};

use scan_core::split_digits;

/// The number of two digits.
pub(crate) fn two_digits(digits: &[u8]) -> u8
    requires digits { AreDigits digits.now }
    requires two { length digits.now ≡ 2 }
    ensures { result ≡ number_of digits.now }
{
    match digits {
        [a, b] => 10 * (*a - b'0') + (*b - b'0'),
        _ => 0,
    }
}

/// The number of four digits.
#[inline(always)]
pub(crate) fn four_digits(digits: &[u8]) -> u16
    requires digits { AreDigits digits.now }
    requires four { length digits.now ≡ 4 }
    ensures { result ≡ number_of digits.now }
{
    match digits {
        [a, b, c, d] => {
            1000 * u16::from(*a - b'0')
                + 100 * u16::from(*b - b'0')
                + 10 * u16::from(*c - b'0')
                + u16::from(*d - b'0')
        }
        _ => 0,
    }
}

/// A power of ten: `10 ^ places`.
fn scale(places: usize) -> u32
    requires { places ≤ 9 }
    ensures { result ≡ 10 ^ places }
{
    match places {
        0 => 1,
        1 => 10,
        2 => 100,
        3 => 1_000,
        4 => 10_000,
        5 => 100_000,
        6 => 1_000_000,
        7 => 10_000_000,
        8 => 100_000_000,
        _ => 1_000_000_000,
    }
}

/// How many digits stand in front, nine at most, and the number that they write.
fn leading_nine(bytes: &[u8]) -> (usize, u32)
    ensures len { result.0 ≡ min (length (front_digits bytes.now)) 9 }
    ensures number { result.1 ≡ number_of (take result.0 (front_digits bytes.now)) }
    ensures within { result.0 ≤ length bytes.now }
    ensures rest { after_digits bytes.now ≡ after_digits (drop result.0 bytes.now) }
{
    let most = bytes.len().min(9);
    let mut len = 0;
    let mut value = 0;
    while len < most && bytes[len].is_ascii_digit() {
        value = 10 * value + u32::from(bytes[len] - b'0');
        len += 1;
    }
    (len, value)
}

/// The nanoseconds that the digits in front write as a fraction, and what follows the digits: the first
/// nine count, filled with zeros on the right.
#[inline(always)]
pub(crate) fn split_nanoseconds(bytes: &[u8]) -> (u32, &[u8])
    ensures value { result.0 ≡ nanoseconds (front_digits bytes.now) }
    ensures rest { result.1.now ≡ after_digits bytes.now }
{
    let (len, number) = leading_nine(bytes);
    let (_, rest) = split_digits(&bytes[len..]);
    (number * scale(9 - len), rest)
}
