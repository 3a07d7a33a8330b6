//! The strict texts.
ghost use Rattle.std.specs.Prelude.{◌≡◌, ◌≢◌, ◌<◌, ◌↔◌, [], length, IsTrue, IfSome, IfNone};
ghost use Rattle.std.specs.Prelude.{IfOk, IsErrOf};
ghost use Rattle.scan_core.specs.Blanks.{is_blank};
ghost use Rattle.scan_core.specs.Fronts.{behind};
ghost use Rattle.fancy_duration.specs.Parts.{unit_of};
ghost use Rattle.fancy_duration.specs.Sums.{total};
ghost use Rattle.fancy_duration.specs.Meanings.{Denotes, IsTooBig};
ghost use Rattle.fancy_duration.specs.Strict.{IsStrict};
ghost use Rattle.fancy_duration.specs.inside.Reading.{HasCounts, items_of, unit_front, unit_behind};

use crate::read::{read_times, split_few, split_letters};
use crate::tally::FewTally;
use crate::{DurationPart, StrictError};
use scan_core::{is_blank, split_digits};

/// The seconds and nanoseconds that the counts of a strict text add up to: of `1m 30s` they are 90 and 0. A text that has anything but
/// counts with their units and blanks is refused, such as `1h 5x`, `1 hour` and the empty one.
///
/// It answers what [`FancyDuration::is_fancy_text`](crate::FancyDuration::is_fancy_text) and then
/// [`FancyDuration::parse_to_ns`](crate::FancyDuration::parse_to_ns) do, by the bytes and mostly in one go.
#[inline(always)]
pub fn strict_to_ns(text: &[u8]) -> Result<(u64, u64), StrictError>
    ensures ok { IfOk result (λ times. IsStrict text.now × Denotes text.now times) }
    ensures not_strict { IsErrOf result StrictError.NotStrict ↔ ¬ (IsStrict text.now) }
    ensures too_big { IsErrOf result StrictError.TooBig
        ↔ (IsStrict text.now × IsTooBig text.now) }
{
    if let Some(nanos) = sum_of_few(text) {
        return Ok((nanos / 1_000_000_000, nanos % 1_000_000_000));
    }
    long_to_ns(text)
}

/// What [`strict_to_ns`] answers, whatever the numbers: the text is judged first and summed then.
#[inline(never)]
fn long_to_ns(text: &[u8]) -> Result<(u64, u64), StrictError>
    ensures ok { IfOk result (λ times. IsStrict text.now × Denotes text.now times) }
    ensures not_strict { IsErrOf result StrictError.NotStrict ↔ ¬ (IsStrict text.now) }
    ensures too_big { IsErrOf result StrictError.TooBig
        ↔ (IsStrict text.now × IsTooBig text.now) }
{
    if !is_strict(text) {
        return Err(StrictError::NotStrict);
    }
    match read_times(text) {
        Ok(times) => Ok(times),
        Err(_) => Err(StrictError::TooBig),
    }
}

/// True exactly for the strict texts.
pub(crate) fn is_strict(text: &[u8]) -> bool
    ensures { IsTrue result ↔ IsStrict text.now }
{
    match text {
        b"0" => true,
        _ => !text.is_empty() && has_counts(text),
    }
}

/// True exactly where the text is a join of counts.
fn has_counts(text: &[u8]) -> bool
    ensures { IsTrue result ↔ HasCounts text.now }
{
    let mut rest = text;
    while !rest.is_empty() {
        match strip_count(rest) {
            Some(after) => rest = after,
            None => return false,
        }
    }
    true
}

/// What follows the count at a text's front, with the blanks behind it.
fn strip_count(text: &[u8]) -> Option<&[u8]>
    ensures found { IfSome result (λ rest. HasCounts rest.now ↔ HasCounts text.now) }
    ensures shorter { IfSome result (λ rest. length rest.now < length text.now) }
    ensures none { IfNone result (HasCounts text.now → text.now ≡ []) }
{
    let (_, behind) = split_digits(text);
    if behind.len() == text.len() {
        return None;
    }
    match split_part(behind) {
        Some((_, after)) => Some(without_blanks(after)),
        None => None,
    }
}

/// The nanoseconds of a strict text, as nearly all are: its numbers and its sum have 64 bits. None says nothing of the text.
#[inline(always)]
fn sum_of_few(text: &[u8]) -> Option<u64>
    ensures strict { IfSome result (λ nanos. IsStrict text.now) }
    ensures sum { IfSome result (λ nanos. nanos ≡ total (items_of text.now)) }
{
    if text.is_empty() {
        return None;
    }
    let mut tally = FewTally::new();
    let mut rest = text;
    while !rest.is_empty() {
        let (number, behind) = split_few(rest);
        if behind.len() == rest.len() {
            return None;
        }
        let (part, after) = split_part(behind)?;
        tally = tally.with(number, part)?;
        rest = without_blanks(after);
    }
    tally.sum()
}

/// The part that the unit at a text's front names, where `m` is read as minutes, and what follows the unit.
#[inline(always)]
fn split_part(text: &[u8]) -> Option<(DurationPart, &[u8])>
    ensures found { IfSome result (λ found. unit_front text.now ≡ unit_of found.0) }
    ensures rest { IfSome result (λ found. found.1.now ≡ unit_behind text.now) }
    ensures minutes { IfSome result (λ found. found.0 ≢ DurationPart.Months) }
    ensures none { IfNone result ((part : _) → unit_front text.now ≢ unit_of part) }
{
    // Whether the first byte is a letter needn't be asked: no other byte names a part.
    let (unit, after) = split_letters(text);
    match DurationPart::named(unit) {
        Some(part) => Some((part, after)),
        None => None,
    }
}

/// A text without the blanks at its front.
#[inline(always)]
fn without_blanks(text: &[u8]) -> &[u8]
    ensures { result.now ≡ behind is_blank text.now }
{
    let mut rest = text;
    while let Some((first, tail)) = rest.split_first() {
        if !is_blank(*first) {
            break;
        }
        rest = tail;
    }
    rest
}
