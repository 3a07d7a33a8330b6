//! Fields and times in front of a scan, which looks at each byte once.
ghost use Rattle.std.specs.Prelude.{◌≡◌, ◌≢◌, ◌+◌, ◌≤◌, ◌↔◌, ℕ, List, [], Some, None, IfSome, IfNone, IsTrue};
ghost use Rattle.scan_core.specs.Scanning.{ahead, unseen};
ghost use Rattle.scan_core.specs.Fronts.{front_digits, after_digits};
ghost use Rattle.iso8601.specs.inside.CountedReading.{BeginsField, BeginsNoPoint, IsPointed, IsStuck};
ghost use Rattle.iso8601.specs.inside.Reading.{read_field, read_marked};
ghost use Rattle.iso8601.specs.inside.TimeReading.{millis_of, read_fraction, read_later, read_offset, read_signed, read_time};
ghost use Rattle.iso8601.specs.declared.types.Time.{Time};

use crate::parsers::with_sign;
use crate::types::Time;
use scan_core::{Scan, Steps};
use std::sync::ledger::Ledger;

/// The field in front, which is passed; `None` exactly where none is there.
#[inline(always)]
pub(crate) fn field<L: Ledger>(
    count: usize,
    lo: u32,
    hi: u32,
    scan: &mut Scan<'_>,
    steps: &mut Steps<L>,
) -> Option<u32>
    requires least { 1 ≤ count }
    requires most { count ≤ 9 }
    ensures read { IfSome result
        (λ value. Some (value, ahead scan.new) ≡ read_field count lo hi (ahead scan.old)) }
    ensures none { IfNone result (None ≡ read_field count lo hi (ahead scan.old)) }
    ensures bound { IfSome result (λ value. value ≤ hi) }
    ensures same { scan.new.text ≡ scan.old.text }
    ensures ticks { steps.new + unseen (ahead scan.new) ≡ steps.old + unseen (ahead scan.old) }
{
    let run = scan.digits_up_to(count, steps);
    if run.end - run.start != count {
        return None;
    }
    if run.value < u64::from(lo) {
        return None;
    }
    if run.value > u64::from(hi) {
        return None;
    }
    Some(run.value as u32)
}

/// The field in front behind a mark that may be left out; `None` exactly where none is there.
#[inline(always)]
#[tactic(auto, unfolding(crate::specs::inside::Reading::read_marked))]
pub(crate) fn marked<L: Ledger>(
    mark: u8,
    count: usize,
    lo: u32,
    hi: u32,
    scan: &mut Scan<'_>,
    steps: &mut Steps<L>,
) -> Option<u32>
    requires least { 1 ≤ count }
    requires most { count ≤ 9 }
    ensures read { IfSome result
        (λ value. Some (value, ahead scan.new) ≡ read_marked mark count lo hi (ahead scan.old)) }
    ensures none { IfNone result (None ≡ read_marked mark count lo hi (ahead scan.old)) }
    ensures bound { IfSome result (λ value. value ≤ hi) }
    ensures same { scan.new.text ≡ scan.old.text }
    ensures ticks { steps.new + unseen (ahead scan.new) ≡ steps.old + unseen (ahead scan.old) }
{
    scan.next_if(mark, steps);
    field(count, lo, hi, scan, steps)
}

/// The first three of the digits in front as milliseconds; all are passed.
#[inline(always)]
fn millis<L: Ledger>(scan: &mut Scan<'_>, steps: &mut Steps<L>) -> u32
    ensures millis { result ≡ millis_of (front_digits (ahead scan.old)) }
    ensures rest { ahead scan.new ≡ after_digits (ahead scan.old) }
    ensures same { scan.new.text ≡ scan.old.text }
    ensures ticks { steps.new + unseen (ahead scan.new) ≡ steps.old + unseen (ahead scan.old) }
{
    let first = scan.digits_up_to(3, steps);
    scan.digits(steps);
    let len = first.end - first.start;
    if len == 0 {
        0
    } else if len == 1 {
        100 * first.value as u32
    } else if len == 2 {
        10 * first.value as u32
    } else {
        first.value as u32
    }
}

/// The milliseconds behind a point or a comma, which is passed; `None` exactly where neither is in front.
#[inline(always)]
pub(crate) fn point_millis<L: Ledger>(scan: &mut Scan<'_>, steps: &mut Steps<L>) -> Option<u32>
    ensures some { IfSome result
        (λ millisecond. IsPointed (ahead scan.old) millisecond (ahead scan.new)) }
    ensures none { IfNone result (BeginsNoPoint (ahead scan.old)) }
    ensures same { scan.new.text ≡ scan.old.text }
    ensures ticks { steps.new + unseen (ahead scan.new) ≡ steps.old + unseen (ahead scan.old) }
{
    if scan.next_if(b'.', steps) {
        return Some(millis(scan, steps));
    }
    if scan.next_if(b',', steps) {
        return Some(millis(scan, steps));
    }
    None
}

/// Whether a colon or a digit is in front.
#[inline(always)]
fn begins_field(scan: &Scan<'_>) -> bool
    ensures { IsTrue result ↔ BeginsField (ahead scan.now) }
{
    match scan.peek() {
        Some(byte) => byte == b':' || byte.is_ascii_digit(),
        None => false,
    }
}

/// A field up to `hi` in front, behind a colon that may be left out, and 0 where neither a colon nor a digit is in front;
/// `None` exactly where one of them is and no field is.
#[inline(always)]
#[tactic(auto, unfolding(crate::specs::inside::TimeReading::read_later))]
fn later<L: Ledger>(hi: u32, scan: &mut Scan<'_>, steps: &mut Steps<L>) -> Option<u32>
    ensures read { IfSome result
        (λ value. (value, ahead scan.new) ≡ read_later hi (ahead scan.old)) }
    ensures none { IfNone result (IsStuck hi (ahead scan.old)) }
    ensures bound { IfSome result (λ value. value ≤ hi) }
    ensures same { scan.new.text ≡ scan.old.text }
    ensures ticks { steps.new + unseen (ahead scan.new) ≡ steps.old + unseen (ahead scan.old) }
{
    if begins_field(scan) {
        marked(b':', 2, 0, hi, scan, steps)
    } else {
        Some(0)
    }
}

/// A fraction of a second, 0 where no point or comma is in front.
#[inline(always)]
fn fraction<L: Ledger>(scan: &mut Scan<'_>, steps: &mut Steps<L>) -> u32
    ensures read { (result, ahead scan.new) ≡ read_fraction (ahead scan.old) }
    ensures same { scan.new.text ≡ scan.old.text }
    ensures ticks { steps.new + unseen (ahead scan.new) ≡ steps.old + unseen (ahead scan.old) }
{
    if scan.next_if(b'.', steps) {
        return millis(scan, steps);
    }
    if scan.next_if(b',', steps) {
        return millis(scan, steps);
    }
    0
}

/// The offset behind a sign that was passed; `None` where it isn't one, or more is left that no offset has.
#[inline(always)]
#[tactic(auto, unfolding(crate::specs::inside::TimeReading::read_signed))]
fn signed<L: Ledger>(
    negative: bool,
    scan: &mut Scan<'_>,
    steps: &mut Steps<L>,
) -> Option<(i32, i32)>
    ensures read { IfSome result
        (λ offset. (bytes : List ℕ)
        → (offset, ahead scan.new) ≡ read_signed negative bytes (ahead scan.old)) }
    ensures none { IfNone result
        ((bytes : List ℕ) → bytes ≢ [] → (read_signed negative bytes (ahead scan.old)).1 ≢ []) }
    ensures same { scan.new.text ≡ scan.old.text }
    ensures ticks { steps.new + unseen (ahead scan.new) ≡ steps.old + unseen (ahead scan.old) }
{
    let hours = field(2, 0, 24, scan, steps)?;
    let minutes = later(59, scan, steps)?;
    Some((with_sign(negative, hours), with_sign(negative, minutes)))
}

/// An offset, zeros where no byte that begins one is in front; `None` where something is left that no offset has.
#[inline(always)]
fn offset<L: Ledger>(scan: &mut Scan<'_>, steps: &mut Steps<L>) -> Option<(i32, i32)>
    ensures read { IfSome result
        (λ offset. (offset, ahead scan.new) ≡ read_offset (ahead scan.old)) }
    ensures none { IfNone result ((read_offset (ahead scan.old)).1 ≢ []) }
    ensures same { scan.new.text ≡ scan.old.text }
    ensures ticks { steps.new + unseen (ahead scan.new) ≡ steps.old + unseen (ahead scan.old) }
{
    if scan.next_if(b'Z', steps) {
        return Some((0, 0));
    }
    if scan.next_if(b'-', steps) {
        return signed(true, scan, steps);
    }
    if scan.next_if(b'+', steps) {
        return signed(false, scan, steps);
    }
    Some((0, 0))
}

/// The time in front; `None` where no time is the whole of what is left.
#[inline(always)]
#[tactic(auto, unfolding(crate::specs::inside::TimeReading::read_time, crate::specs::inside::TimeReading::read_tail))]
pub(crate) fn time<L: Ledger>(scan: &mut Scan<'_>, steps: &mut Steps<L>) -> Option<Time>
    ensures read { IfSome result
        (λ time. Some (time, ahead scan.new) ≡ read_time (ahead scan.old)) }
    ensures none { IfNone result ((time : Time) → read_time (ahead scan.old) ≢ Some (time, [])) }
    ensures same { scan.new.text ≡ scan.old.text }
    ensures ticks { steps.new + unseen (ahead scan.new) ≡ steps.old + unseen (ahead scan.old) }
{
    let hour = field(2, 0, 24, scan, steps)?;
    let minute = marked(b':', 2, 0, 59, scan, steps)?;
    let second = later(60, scan, steps)?;
    let millisecond = fraction(scan, steps);
    let (tz_offset_hours, tz_offset_minutes) = offset(scan, steps)?;
    Some(Time {
        hour,
        minute,
        second,
        millisecond,
        tz_offset_hours,
        tz_offset_minutes,
    })
}
