//! Short texts, and what is appended to them.
ghost use Rattle.std.specs.Prelude.{◌≡◌, ◌⊎◌, ◌+◌, ◌-◌, ◌%◌, ◌<◌, ◌≤◌, [], ◌∷◌, ◌++◌, length, decimal, replicate, max};
ghost use Rattle.arrayvec.specs.ArrayString.{array_string_len};
ghost use Rattle.scan_core.specs.Padded.{padded_digits, trimmed_digits};

use arrayvec::ArrayString;
use itoa::Buffer;

/// A text of at most 128 bytes that takes no memory.
pub type Short = ArrayString<128>;

/// Appends the text: `push_text(&mut out, "T")`.
pub fn push_text<const CAP: usize>(out: &mut ArrayString<CAP>, text: &str)
    requires { array_string_len out.old + length text.now ≤ CAP }
    ensures bytes { out.new.bytes ≡ out.old.bytes ++ text.now }
    ensures len { array_string_len out.new ≡ array_string_len out.old + length text.now }
{
    out.push_str(text);
}

/// Appends the digits that `itoa` writes.
#[inline(always)]
fn push_formatted<const CAP: usize>(out: &mut ArrayString<CAP>, value: u64)
    requires { array_string_len out.old + length (decimal value) ≤ CAP }
    ensures bytes { out.new.bytes ≡ out.old.bytes ++ decimal value }
    ensures len { array_string_len out.new ≡ array_string_len out.old + length (decimal value) }
{
    let mut buffer = Buffer::new();
    out.push_str(buffer.format(value));
}

/// The same for numbers of any length, in a function of its own.
#[inline(never)]
fn push_long<const CAP: usize>(out: &mut ArrayString<CAP>, value: u64)
    requires { array_string_len out.old + length (decimal value) ≤ CAP }
    ensures bytes { out.new.bytes ≡ out.old.bytes ++ decimal value }
    ensures len { array_string_len out.new ≡ array_string_len out.old + length (decimal value) }
{
    push_formatted(out, value);
}

/// The same for numbers that have mostly three or four digits, in a function of its own, so that the callers of `push_num` stay small.
#[inline(never)]
fn push_hundreds<const CAP: usize>(out: &mut ArrayString<CAP>, value: u64)
    requires { array_string_len out.old + length (decimal value) ≤ CAP }
    ensures bytes { out.new.bytes ≡ out.old.bytes ++ decimal value }
    ensures len { array_string_len out.new ≡ array_string_len out.old + length (decimal value) }
{
    match value {
        100..=999 => push_formatted(out, value),
        1_000..=9_999 => push_formatted(out, value),
        _ => push_long(out, value),
    }
}

/// Appends the decimal digits of the value, without leading zeros: 7 is `7`.
///
/// A branch whose numbers are of one length is compiled for that length: it copies the digits without a loop and without a call.
#[inline(always)]
pub fn push_num<const CAP: usize>(out: &mut ArrayString<CAP>, value: u64)
    requires { array_string_len out.old + length (decimal value) ≤ CAP }
    ensures bytes { out.new.bytes ≡ out.old.bytes ++ decimal value }
    ensures len { array_string_len out.new ≡ array_string_len out.old + length (decimal value) }
{
    match value {
        0..=9 => push_formatted(out, value),
        10..=99 => push_formatted(out, value),
        _ => push_hundreds(out, value),
    }
}

/// Appends the last digit of the value.
#[inline(always)]
fn push_digit<const CAP: usize>(out: &mut ArrayString<CAP>, value: u64)
    requires { array_string_len out.old + 1 ≤ CAP }
    ensures bytes { out.new.bytes ≡ out.old.bytes ++ (48 + value % 10) ∷ [] }
    ensures len { array_string_len out.new ≡ array_string_len out.old + 1 }
{
    out.push((b'0' + (value % 10) as u8) as char);
}

/// Appends a number below 100 in two digits: 7 is `07`.
///
/// Fields of dates and clocks have leading zeros, which `itoa` doesn't write.
#[inline(always)]
pub fn push_two<const CAP: usize>(out: &mut ArrayString<CAP>, value: u64)
    requires value { value < 100 }
    requires room { array_string_len out.old + 2 ≤ CAP }
    ensures bytes { out.new.bytes ≡ out.old.bytes ++ padded_digits 2 value }
    ensures len { array_string_len out.new ≡ array_string_len out.old + 2 }
{
    push_digit(out, value / 10);
    push_digit(out, value);
}

/// Appends a number in two digits, or in all that it has from 100 on.
#[inline(always)]
fn push_at_least_two<const CAP: usize>(out: &mut ArrayString<CAP>, value: u64)
    requires { array_string_len out.old + max 2 (length (decimal value)) ≤ CAP }
    ensures bytes { out.new.bytes ≡ out.old.bytes ++ padded_digits 2 value }
    ensures len { array_string_len out.new
        ≡ array_string_len out.old + max 2 (length (decimal value)) }
{
    if value < 100 {
        push_two(out, value);
    } else {
        push_num(out, value);
    }
}

/// Appends a number below 1000 in three digits.
#[inline(always)]
fn push_three<const CAP: usize>(out: &mut ArrayString<CAP>, value: u64)
    requires value { value < 1000 }
    requires room { array_string_len out.old + 3 ≤ CAP }
    ensures bytes { out.new.bytes ≡ out.old.bytes ++ padded_digits 3 value }
    ensures len { array_string_len out.new ≡ array_string_len out.old + 3 }
{
    push_two(out, value / 10);
    push_digit(out, value);
}

/// Appends a number below 10,000 in four digits.
#[inline(always)]
fn push_four<const CAP: usize>(out: &mut ArrayString<CAP>, value: u64)
    requires value { value < 10_000 }
    requires room { array_string_len out.old + 4 ≤ CAP }
    ensures bytes { out.new.bytes ≡ out.old.bytes ++ padded_digits 4 value }
    ensures len { array_string_len out.new ≡ array_string_len out.old + 4 }
{
    push_two(out, value / 100);
    push_two(out, value % 100);
}

/// Appends a number below 1,000,000 in six digits.
#[inline(always)]
fn push_six<const CAP: usize>(out: &mut ArrayString<CAP>, value: u64)
    requires value { value < 1_000_000 }
    requires room { array_string_len out.old + 6 ≤ CAP }
    ensures bytes { out.new.bytes ≡ out.old.bytes ++ padded_digits 6 value }
    ensures len { array_string_len out.new ≡ array_string_len out.old + 6 }
{
    push_four(out, value / 100);
    push_two(out, value % 100);
}

/// Appends the decimal digits of the value with leading zeros to at least `width` digits, `width` at most 20: 7 in width 2 is `07`.
#[inline(always)] // nearly all widths are constants
pub fn push_padded<const CAP: usize>(out: &mut ArrayString<CAP>, value: u64, width: usize)
    requires width { width ≤ 20 }
    requires room { array_string_len out.old + max width (length (decimal value)) ≤ CAP }
    ensures bytes { out.new.bytes
        ≡ out.old.bytes ++ (replicate (width - length (decimal value)) 48 ++ decimal value) }
    ensures len { array_string_len out.new
        ≡ array_string_len out.old + max width (length (decimal value)) }
{
    if width < 2 {
        push_num(out, value);
    } else if width == 2 {
        push_at_least_two(out, value);
    } else if width == 3 && value < 1000 {
        push_three(out, value);
    } else if width == 4 && value < 10_000 {
        push_four(out, value);
    } else if width == 6 && value < 1_000_000 {
        push_six(out, value);
    } else {
        push_filled(out, value, width);
    }
}

/// The same by way of `itoa`, for any width.
fn push_filled<const CAP: usize>(out: &mut ArrayString<CAP>, value: u64, width: usize)
    requires width { width ≤ 20 }
    requires room { array_string_len out.old + max width (length (decimal value)) ≤ CAP }
    ensures bytes { out.new.bytes ≡ out.old.bytes ++ padded_digits width value }
    ensures len { array_string_len out.new
        ≡ array_string_len out.old + max width (length (decimal value)) }
{
    let mut buffer = Buffer::new();
    let digits = buffer.format(value);
    for _ in digits.len()..width {
        out.push('0');
    }
    out.push_str(digits);
}

/// The number without the zeros at its end, and how many digits of so many are left.
fn without_zeros(value: u64, width: usize) -> (u64, usize)
    requires { 0 < value }
    ensures trimmed { padded_digits result.1 result.0 ≡ trimmed_digits (padded_digits width value) }
    ensures width { result.1 ≤ width }
    ensures len { max result.1 (length (decimal result.0)) ≤ max width (length (decimal value)) }
{
    let mut left = value;
    let mut places = width;
    while left % 10 == 0 {
        left /= 10;
        places = places.saturating_sub(1);
    }
    (left, places)
}

/// The same of a number that ends in a zero.
#[inline(never)]
fn push_shortened<const CAP: usize>(out: &mut ArrayString<CAP>, value: u64, width: usize)
    requires width { width ≤ 20 }
    requires room { array_string_len out.old + max width (length (decimal value)) ≤ CAP }
    ensures bytes { out.new.bytes ≡ out.old.bytes ++ trimmed_digits (padded_digits width value) }
    ensures len { array_string_len out.new
        ≤ array_string_len out.old + max width (length (decimal value)) }
{
    if value != 0 {
        let (left, places) = without_zeros(value, width);
        push_padded(out, left, places);
    }
}

/// Appends the decimal digits of the value as `push_padded` does, without the zeros at their end: 250 in width 6 is `00025`, and
/// of 0 nothing is left.
#[inline(always)] // nearly all widths are constants, and nine fractions of ten end in no zero
pub fn push_trimmed<const CAP: usize>(out: &mut ArrayString<CAP>, value: u64, width: usize)
    requires width { width ≤ 20 }
    requires room { array_string_len out.old + max width (length (decimal value)) ≤ CAP }
    ensures bytes { out.new.bytes ≡ out.old.bytes ++ trimmed_digits (padded_digits width value) }
    ensures len { array_string_len out.new
        ≤ array_string_len out.old + max width (length (decimal value)) }
{
    if value % 10 == 0 {
        push_shortened(out, value, width);
    } else {
        push_padded(out, value, width);
    }
}
