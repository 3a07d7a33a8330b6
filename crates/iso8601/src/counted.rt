//! Durations of a whole text whose looks are counted. Each byte is looked at once, when the scan comes to it, and once more
//! where digits turn out to begin a date.
ghost use Rattle.std.specs.Prelude.{◌≡◌, ◌≢◌, ◌+◌, ◌<◌, ◌≤◌, ◌↔◌, ℕ, List, [], Some, ◌*◌, ◌∷◌, IfSome, IfNone, IfOk, IfErr, IsTrue, length};
ghost use Rattle.scan_core.specs.Runs.{IsRun, digits_of};
ghost use Rattle.scan_core.specs.Scanning.{ahead, unseen};
ghost use Rattle.iso8601.specs.inside.CountedReading.{BeginsUnit, IsBehind, from_run, read_clock_counts};
ghost use Rattle.iso8601.specs.inside.DurationReading.{read_body, read_clock, read_counted, read_dated, read_perhaps, read_seconds};
ghost use Rattle.iso8601.specs.inside.Reading.{number_in};
ghost use Rattle.iso8601.specs.declared.types.Duration.{Duration};
ghost use Rattle.iso8601.specs.declared.types.Duration.TheVariants.{Weeks};
ghost use Rattle.iso8601.specs.Durations.{IsDuration};

use crate::counted_time::{field, marked, point_millis, time};
use crate::types::{Duration, ParseFailed};
use scan_core::{Looked, Run, Scan, Steps};
use std::sync::ledger::Ledger;

/// The number of 32 bits that the digits of a run are, if they are one.
#[inline(always)]
fn number_in(run: Run) -> Option<u32>
    ensures { (text : List ℕ) → IsRun text run → result ≡ number_in (digits_of text run) }
{
    if run.start == run.end {
        return None;
    }
    u32::try_from(run.value).ok()
}

/// Takes the count of a unit whose digits were passed, and passes the digits behind it; 0 where it isn't there.
#[inline(always)]
#[tactic(auto, unfolding(crate::specs::inside::DurationReading::read_perhaps, crate::specs::inside::DurationReading::read_count))]
fn take<L: Ledger>(unit: u8, run: Run, scan: &mut Scan<'_>, steps: &mut Steps<L>) -> (u32, Run)
    requires { IsBehind run scan.old }
    ensures taken { (result.0, from_run scan.new.text result.1)
        ≡ read_perhaps unit (from_run scan.old.text run) }
    ensures behind { IsBehind result.1 scan.new }
    ensures same { scan.new.text ≡ scan.old.text }
    ensures ticks { steps.new + unseen (ahead scan.new) ≡ steps.old + unseen (ahead scan.old) }
{
    match number_in(run) {
        None => (0, run),
        Some(number) => {
            if scan.next_if(unit, steps) {
                (number, scan.digits(steps))
            } else {
                (0, run)
            }
        }
    }
}

/// The seconds and milliseconds whose digits were passed, zeros where none were; `None` where digits are left that are no
/// seconds.
#[inline(always)]
#[tactic(auto, unfolding(crate::specs::inside::DurationReading::read_seconds))]
fn seconds<L: Ledger>(run: Run, scan: &mut Scan<'_>, steps: &mut Steps<L>) -> Option<(u32, u32)>
    requires { IsBehind run scan.old }
    ensures read { IfSome result
        (λ value. (value, ahead scan.new) ≡ read_seconds (from_run scan.old.text run)) }
    ensures none { IfNone result ((read_seconds (from_run scan.old.text run)).1 ≢ []) }
    ensures same { scan.new.text ≡ scan.old.text }
    ensures ticks { steps.new + unseen (ahead scan.new) ≡ steps.old + unseen (ahead scan.old) }
{
    if run.start == run.end {
        return Some((0, 0));
    }
    let second = number_in(run)?;
    if scan.next_if(b'S', steps) {
        return Some((second, 0));
    }
    let millisecond = point_millis(scan, steps)?;
    if scan.next_if(b'S', steps) {
        Some((second, millisecond))
    } else {
        None
    }
}

/// The hours, minutes and seconds behind a `T` that was passed; `None` where digits are left that are none of them.
#[inline(always)]
fn clock<L: Ledger>(scan: &mut Scan<'_>, steps: &mut Steps<L>) -> Option<(u32, u32, (u32, u32))>
    ensures read { IfSome result
        (λ v. ((v.0, (v.1, v.2)), ahead scan.new) ≡ read_clock_counts (ahead scan.old)) }
    ensures none { IfNone result ((read_clock_counts (ahead scan.old)).1 ≢ []) }
    ensures same { scan.new.text ≡ scan.old.text }
    ensures ticks { steps.new + unseen (ahead scan.new) ≡ steps.old + unseen (ahead scan.old) }
{
    let run = scan.digits(steps);
    let (hour, run) = take(b'H', run, scan, steps);
    let (minute, run) = take(b'M', run, scan, steps);
    let seconds = seconds(run, scan, steps)?;
    Some((hour, minute, seconds))
}

/// A `T` and its clock, zeros where nothing is left; `None` where digits were passed, or a byte that is no `T` is in front.
#[inline(always)]
fn perhaps_clock<L: Ledger>(
    run: Run,
    scan: &mut Scan<'_>,
    steps: &mut Steps<L>,
) -> Option<(u32, u32, (u32, u32))>
    requires { IsBehind run scan.old }
    ensures read { IfSome result
        (λ v. ((v.0, (v.1, v.2)), ahead scan.new) ≡ read_clock (from_run scan.old.text run)) }
    ensures none { IfNone result ((read_clock (from_run scan.old.text run)).1 ≢ []) }
    ensures same { scan.new.text ≡ scan.old.text }
    ensures ticks { steps.new + unseen (ahead scan.new) ≡ steps.old + unseen (ahead scan.old) }
{
    if run.start != run.end {
        return None;
    }
    if scan.next_if(b'T', steps) {
        return clock(scan, steps);
    }
    Some((0, 0, (0, 0)))
}

/// The counts that are the whole of what is left from a run on; `None` exactly where it is no counts.
#[inline(always)]
#[tactic(auto, unfolding(crate::specs::inside::DurationReading::read_counted, crate::specs::inside::DurationReading::read_counts))]
fn counts<L: Ledger>(run: Run, scan: &mut Scan<'_>, steps: &mut Steps<L>) -> Option<Duration>
    requires { IsBehind run scan.old }
    ensures some { IfSome result (λ d. read_counted (from_run scan.old.text run) ≡ Some (d, [])) }
    ensures none { IfNone result
        ((d : Duration) → read_counted (from_run scan.old.text run) ≢ Some (d, [])) }
    ensures done { IfSome result (λ d. ahead scan.new ≡ []) }
    ensures same { scan.new.text ≡ scan.old.text }
    ensures ticks { steps.new + unseen (ahead scan.new) ≡ steps.old + unseen (ahead scan.old) }
{
    if run.start == run.end && scan.is_done() {
        return None;
    }
    let (year, run) = take(b'Y', run, scan, steps);
    let (month, run) = take(b'M', run, scan, steps);
    let (day, run) = take(b'D', run, scan, steps);
    let (hour, minute, (second, millisecond)) = perhaps_clock(run, scan, steps)?;
    if !scan.is_done() {
        return None;
    }
    Some(Duration::YMDHMS {
        year,
        month,
        day,
        hour,
        minute,
        second,
        millisecond,
    })
}

/// A date without a sign, `T` and a time, in front; `None` where they aren't the whole of what is left.
#[inline(always)]
#[tactic(auto, unfolding(crate::specs::inside::DurationReading::read_dated))]
fn date_and_time<L: Ledger>(scan: &mut Scan<'_>, steps: &mut Steps<L>) -> Option<Duration>
    ensures read { IfSome result (λ d. Some (d, ahead scan.new) ≡ read_dated (ahead scan.old)) }
    ensures none { IfNone result ((d : Duration) → read_dated (ahead scan.old) ≢ Some (d, [])) }
    ensures same { scan.new.text ≡ scan.old.text }
    ensures ticks { steps.new + unseen (ahead scan.new) ≡ steps.old + unseen (ahead scan.old) }
{
    let year = field(4, 0, 9999, scan, steps)?;
    let month = marked(b'-', 2, 1, 12, scan, steps)?;
    let day = marked(b'-', 2, 1, 31, scan, steps)?;
    if !scan.next_if(b'T', steps) {
        return None;
    }
    let time = time(scan, steps)?;
    Some(Duration::YMDHMS {
        year,
        month,
        day,
        hour: time.hour,
        minute: time.minute,
        second: time.second,
        millisecond: time.millisecond,
    })
}

/// The date and time that are the whole text behind its first byte; `None` exactly where it is none.
fn dated<L: Ledger>(text: &Looked<'_>, steps: &mut Steps<L>) -> Option<Duration>
    ensures some { IfSome result
        (λ d. (body : List ℕ) → text.now ≡ 80 ∷ body → read_dated body ≡ Some (d, [])) }
    ensures none { IfNone result
        ((body : List ℕ) (d : Duration) → text.now ≡ 80 ∷ body → read_dated body ≢ Some (d, [])) }
    ensures most { steps.new ≤ steps.old + length text.now }
    ensures least { IfSome result (λ d. steps.old + length text.now ≤ steps.new) }
{
    let mut scan = Scan::new(text, steps);
    scan.next(steps);
    let duration = date_and_time(&mut scan, steps)?;
    if scan.is_done() { Some(duration) } else { None }
}

/// Whether the letter of years, months or days is in front.
#[inline(always)]
fn begins_unit(scan: &Scan<'_>) -> bool
    ensures { IsTrue result ↔ BeginsUnit (ahead scan.now) }
{
    match scan.peek() {
        Some(b'Y') | Some(b'M') | Some(b'D') => true,
        _ => false,
    }
}

/// The duration that the text is behind its `P` and the digits behind that; `None` exactly where it is none.
#[inline(always)]
fn body<L: Ledger>(run: Run, scan: &mut Scan<'_>, steps: &mut Steps<L>) -> Option<Duration>
    requires behind { IsBehind run scan.old }
    requires start { scan.old.text ≡ 80 ∷ from_run scan.old.text run }
    ensures some { IfSome result (λ d. read_body (from_run scan.old.text run) ≡ Some (d, [])) }
    ensures none { IfNone result
        ((d : Duration) → read_body (from_run scan.old.text run) ≢ Some (d, [])) }
    ensures most { steps.new ≤ steps.old + unseen (ahead scan.old) + length scan.old.text }
    ensures least { IfSome result (λ d. steps.old + unseen (ahead scan.old) ≤ steps.new) }
{
    match number_in(run) {
        None => counts(run, scan, steps),
        Some(number) => {
            if scan.next_if(b'W', steps) {
                return weeks(number, scan);
            }
            if begins_unit(scan) {
                return counts(run, scan, steps);
            }
            dated(scan.text(), steps)
        }
    }
}

/// So many weeks where nothing is left.
#[inline(always)]
fn weeks(number: u32, scan: &Scan<'_>) -> Option<Duration>
    ensures some { IfSome result (λ d. (d ≡ Weeks number) × (ahead scan.now ≡ [])) }
    ensures none { IfNone result (ahead scan.now ≢ []) }
{
    if scan.is_done() {
        Some(Duration::Weeks(number))
    } else {
        None
    }
}

/// The duration that the whole text is, as [`parse_duration`](crate::parsers::parse_duration) reads it, with its looks
/// counted: at most two for each byte, and at least one where the answer is Ok.
///
/// `ParseFailed` exactly where the whole text is no duration. `P1M1Y` is none, though its prefix `P1M` is one.
pub fn duration_counted<L: Ledger>(
    text: &Looked<'_>,
    steps: &mut Steps<L>,
) -> Result<Duration, ParseFailed>
    ensures value { IfOk result (IsDuration text.now) }
    ensures none { IfErr result (λ e. (d : Duration) → IsDuration text.now d → ⊥) }
    ensures most { steps.new ≤ steps.old + 2 * length text.now }
    ensures least { IfOk result (λ d. steps.old + length text.now ≤ steps.new) }
{
    let mut scan = Scan::new(text, steps);
    if !scan.next_if(b'P', steps) {
        return Err(ParseFailed);
    }
    let run = scan.digits(steps);
    match body(run, &mut scan, steps) {
        Some(duration) => Ok(duration),
        None => Err(ParseFailed),
    }
}
