//! The small readers at the front of a text. All access to bytes goes through them.
ghost use Rattle.std.specs.Prelude.{◌≡◌, ◌+◌, ◌<◌, ◌≤◌, ◌∷◌, IfSome, IfNone, option_map};
ghost use Rattle.scan_core.specs.Fronts.{NoDigitFirst, after_digits, front_digits};
ghost use Rattle.scan_core.specs.Shares.{signed};
ghost use Rattle.iso8601.specs.inside.Reading.{after_mark, number_in, read_field, read_mark, read_marked, read_sign, read_year};

use scan_core::n_digits_in;

/// The value of the digit in front, and what follows it; None where no digit is there.
fn split_digit(bytes: &[u8]) -> Option<(u32, &[u8])>
    ensures some { IfSome result (λ r. (r.0 < 10) × (bytes.now ≡ (r.0 + 48) ∷ r.1.now)) }
    ensures none { IfNone result (NoDigitFirst bytes.now) }
{
    match bytes {
        [digit, rest @ ..] if digit.is_ascii_digit() => Some((u32::from(*digit - b'0'), rest)),
        _ => None,
    }
}

/// The number that the digits in front write, and what follows them; None where they write none of 32 bits.
pub(crate) fn split_number(bytes: &[u8]) -> Option<(u32, &[u8])>
    ensures number { option_map (λ r. r.0) result ≡ number_in (front_digits bytes.now) }
    ensures rest { IfSome result (λ r. r.1.now ≡ after_digits bytes.now) }
{
    let (mut number, mut rest) = split_digit(bytes)?;
    while let Some((digit, behind)) = split_digit(rest) {
        number = number.checked_mul(10)?.checked_add(digit)?;
        rest = behind;
    }
    Some((number, rest))
}

/// The number that the first `count` bytes write, and what follows them; None exactly where they aren't digits
/// of a number from `lo` to `hi`.
#[tactic(auto, unfolding(crate::specs::inside::Reading::read_field))]
pub(crate) fn split_field(bytes: &[u8], count: usize, lo: u32, hi: u32) -> Option<(u32, &[u8])>
    requires least { 1 ≤ count }
    requires most { count ≤ 9 }
    ensures field { option_map (λ r. (r.0, r.1.now)) result ≡ read_field count lo hi bytes.now }
    ensures bound { IfSome result (λ r. r.0 ≤ hi) }
{
    let value = n_digits_in(bytes, count, lo, hi)?;
    Some((value, &bytes[count..]))
}

/// What follows the mark in front, or all of the bytes where it isn't there.
pub(crate) fn after(mark: u8, bytes: &[u8]) -> &[u8]
    ensures { result.now ≡ after_mark mark bytes.now }
{
    match bytes {
        [byte, rest @ ..] if *byte == mark => rest,
        _ => bytes,
    }
}

/// The same behind the mark, which may be left out.
#[tactic(auto, unfolding(crate::specs::inside::Reading::read_marked))]
pub(crate) fn split_marked(
    mark: u8,
    bytes: &[u8],
    count: usize,
    lo: u32,
    hi: u32,
) -> Option<(u32, &[u8])>
    requires least { 1 ≤ count }
    requires most { count ≤ 9 }
    ensures field { option_map (λ r. (r.0, r.1.now)) result
        ≡ read_marked mark count lo hi bytes.now }
    ensures bound { IfSome result (λ r. r.0 ≤ hi) }
{
    split_field(after(mark, bytes), count, lo, hi)
}

/// What follows the mark in front, or None where it isn't there.
pub(crate) fn strip(mark: u8, bytes: &[u8]) -> Option<&[u8]>
    ensures { option_map (λ r. r.now) result ≡ read_mark mark bytes.now }
{
    match bytes {
        [byte, rest @ ..] if *byte == mark => Some(rest),
        _ => None,
    }
}

/// Whether a minus stands in front, and what follows the sign.
fn split_sign(bytes: &[u8]) -> (bool, &[u8])
    ensures { (result.0, result.1.now) ≡ read_sign bytes.now }
{
    match bytes {
        [b'-', rest @ ..] => (true, rest),
        [b'+', rest @ ..] => (false, rest),
        _ => (false, bytes),
    }
}

/// The magnitude with its sign.
pub(crate) fn with_sign(negative: bool, magnitude: u32) -> i32
    requires { magnitude ≤ 9999 }
    ensures { result ≡ signed negative magnitude }
{
    let value = magnitude as i32;
    if negative { -value } else { value }
}

/// The year in front, and what follows it.
#[tactic(auto, unfolding(crate::specs::inside::Reading::read_year))]
pub(crate) fn split_year(bytes: &[u8]) -> Option<(i32, &[u8])>
    ensures { option_map (λ r. (r.0, r.1.now)) result ≡ read_year bytes.now }
{
    let (negative, digits) = split_sign(bytes);
    let (magnitude, rest) = split_field(digits, 4, 0, 9999)?;
    Some((with_sign(negative, magnitude), rest))
}
