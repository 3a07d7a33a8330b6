//! Offsets from UTC behind a time.
ghost use Rattle.std.specs.Prelude.{◌≡◌, ◌+◌, ◌*◌, ◌<◌, ℕ, ℤ, Option, IfSome, IfNone};
ghost use Rattle.scan_core.specs.Shares.{signed};
ghost use Rattle.pg_timestamp.specs.Timestamps.{IsMore, sign_of};
ghost use Rattle.pg_timestamp.specs.inside.Places.{has_first, has_sign, more_front, after_more, IsOffsetAt, after_offset, IsPerhapsOffsetAt, after_perhaps};

use crate::pair::pair;

/// Whether the mark stands in front.
fn begins_with(text: &[u8], mark: u8) -> bool
    ensures { result ≡ has_first mark text.now }
{
    match text {
        [first, ..] => *first == mark,
        _ => false,
    }
}

/// A further field of an offset in front, or 0 where there is no colon, and what follows it.
fn more(text: &[u8]) -> Option<(u8, &[u8])>
    ensures found { IfSome result (λ r. IsMore (more_front text.now) r.0) }
    ensures rest { IfSome result (λ r. r.1.now ≡ after_more text.now) }
    ensures none { IfNone result ((n : ℕ) → ¬ (IsMore (more_front text.now) n)) }
    ensures small { IfSome result (λ r. r.0 < 60) }
{
    if begins_with(text, b':') {
        pair(text, b':', 0, 59)
    } else {
        Some((0, text))
    }
}

/// A minus or a plus.
fn sign_byte(negative: bool) -> u8
    ensures { result ≡ sign_of negative }
{
    if negative { b'-' } else { b'+' }
}

/// The seconds of an offset's fields.
fn offset_seconds(negative: bool, hour: u8, minute: u8, second: u8) -> i32
    ensures { result ≡ signed negative ((hour * 60 + minute) * 60 + second) }
{
    let seconds = (hour as i32 * 60 + minute as i32) * 60 + second as i32;
    if negative { -seconds } else { seconds }
}

/// The seconds of the offset in front, and what follows it.
fn split_offset(text: &[u8]) -> Option<(i32, &[u8])>
    ensures found { IfSome result (λ r. IsOffsetAt text.now r.0) }
    ensures rest { IfSome result (λ r. r.1.now ≡ after_offset text.now) }
    ensures none { IfNone result ((seconds : ℤ) → ¬ (IsOffsetAt text.now seconds)) }
{
    let negative = begins_with(text, b'-');
    let (hour, rest) = pair(text, sign_byte(negative), 0, 24)?;
    let (minute, rest) = more(rest)?;
    let (second, rest) = more(rest)?;
    Some((offset_seconds(negative, hour, minute, second), rest))
}

/// Whether a sign stands in front.
fn begins_with_sign(text: &[u8]) -> bool
    ensures { result ≡ has_sign text.now }
{
    begins_with(text, b'-') || begins_with(text, b'+')
}

/// The seconds of the offset in front, or none where there is no sign, and what follows.
pub(crate) fn perhaps_offset(text: &[u8]) -> Option<(Option<i32>, &[u8])>
    ensures found { IfSome result (λ r. IsPerhapsOffsetAt text.now r.0) }
    ensures rest { IfSome result (λ r. r.1.now ≡ after_perhaps text.now) }
    ensures none { IfNone result ((offset : Option ℤ) → ¬ (IsPerhapsOffsetAt text.now offset)) }
{
    if begins_with_sign(text) {
        match split_offset(text) {
            Some((seconds, rest)) => Some((Some(seconds), rest)),
            None => None,
        }
    } else {
        Some((None, text))
    }
}
