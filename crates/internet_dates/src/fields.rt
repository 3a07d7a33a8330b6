//! The small readers at the front of a text.
ghost use Rattle.std.specs.Prelude.{◌≡◌, ◌≤◌, option_map};
ghost use Rattle.internet_dates.specs.inside.Reading.{four_number, read_clock, read_four, read_mark, read_pair, read_two, read_year, two_number};

/// A time of day by its fields.
#[derive(Clone, Copy)]
pub(crate) struct Clock {
    pub hour: u8,
    pub minute: u8,
    pub second: u8,
}

/// What follows the mark in front, or None where it isn't there.
#[inline(always)]
pub(crate) fn strip(mark: u8, bytes: &[u8]) -> Option<&[u8]>
    ensures { option_map (λ r. r.now) result ≡ read_mark mark bytes.now }
{
    match bytes {
        [byte, rest @ ..] if *byte == mark => Some(rest),
        _ => None,
    }
}

/// The number of two digits, or None where they are none or it isn't from `lo` to `hi`.
#[inline(always)]
#[tactic(auto, unfolding(crate::specs::inside::Reading::two_number))]
pub(crate) fn two_number(a: u8, b: u8, lo: u8, hi: u8) -> Option<u8>
    requires { hi ≤ 99 }
    ensures { result ≡ two_number lo hi a b }
{
    // 528 is what this is of two zeros. Behind a digit, the range leaves digits alone in the first place.
    let number = 10 * u32::from(a) + u32::from(b);
    if b.is_ascii_digit() && 528 + u32::from(lo) <= number && number <= 528 + u32::from(hi) {
        Some((number - 528) as u8)
    } else {
        None
    }
}

/// The number of the two digits in front, and what follows them.
#[inline(always)]
pub(crate) fn split_two(bytes: &[u8], lo: u8, hi: u8) -> Option<(u8, &[u8])>
    requires { hi ≤ 99 }
    ensures { option_map (λ r. (r.0, r.1.now)) result ≡ read_two lo hi bytes.now }
{
    match bytes {
        [a, b, rest @ ..] => Some((two_number(*a, *b, lo, hi)?, rest)),
        _ => None,
    }
}

/// The same behind a mark.
#[inline(always)]
#[tactic(auto, unfolding(crate::specs::inside::Reading::read_pair))]
pub(crate) fn split_pair(mark: u8, bytes: &[u8], lo: u8, hi: u8) -> Option<(u8, &[u8])>
    requires { hi ≤ 99 }
    ensures { option_map (λ r. (r.0, r.1.now)) result ≡ read_pair mark lo hi bytes.now }
{
    split_two(strip(mark, bytes)?, lo, hi)
}

/// The number of four digits.
#[inline(always)]
#[tactic(auto, unfolding(crate::specs::inside::Reading::four_number, crate::specs::inside::Reading::two_number))]
fn four_number(a: u8, b: u8, c: u8, d: u8) -> Option<u16>
    ensures { result ≡ four_number a b c d }
{
    let front = two_number(a, b, 0, 99)?;
    let back = two_number(c, d, 0, 99)?;
    Some(100 * u16::from(front) + u16::from(back))
}

/// The number of the four digits in front, and what follows them.
#[inline(always)]
fn split_four(bytes: &[u8]) -> Option<(u16, &[u8])>
    ensures { option_map (λ r. (r.0, r.1.now)) result ≡ read_four bytes.now }
{
    match bytes {
        [a, b, c, d, rest @ ..] => Some((four_number(*a, *b, *c, *d)?, rest)),
        _ => None,
    }
}

/// The year behind a blank, and what follows it.
#[inline(always)]
#[tactic(auto, unfolding(crate::specs::inside::Reading::read_year))]
pub(crate) fn split_year(bytes: &[u8]) -> Option<(u16, &[u8])>
    ensures { option_map (λ r. (r.0, r.1.now)) result ≡ read_year bytes.now }
{
    split_four(strip(b' ', bytes)?)
}

/// The time of day behind a blank, and what follows it.
#[inline(always)]
#[tactic(auto, unfolding(crate::specs::inside::Reading::read_clock))]
pub(crate) fn split_clock(bytes: &[u8]) -> Option<(Clock, &[u8])>
    ensures { option_map (λ r. (r.0, r.1.now)) result ≡ read_clock bytes.now }
{
    let (hour, rest) = split_pair(b' ', bytes, 0, 24)?;
    let (minute, rest) = split_pair(b':', rest, 0, 59)?;
    let (second, rest) = split_pair(b':', rest, 0, 60)?;
    Some((
        Clock {
            hour,
            minute,
            second,
        },
        rest,
    ))
}
