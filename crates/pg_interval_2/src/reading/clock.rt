//! Clocks at the front of a scan: hours, minutes and seconds with colons between, `04:05:06.5`.
ghost use Rattle.std.specs.Prelude.{◌≡◌, ◌+◌, ◌-◌, ◌≤◌, IfSome, IfNone, length, take};
ghost use Rattle.scan_core.specs.Runs.{IsRun, digits_of};
ghost use Rattle.scan_core.specs.Scanning.{ahead, unseen};
ghost use Rattle.pg_interval_2.specs.inside.ItemReading.{NoItem, read_clock};
ghost use Rattle.pg_interval_2.specs.inside.ItemViews.{AreClockRuns, IsClockAs};
ghost use Rattle.pg_interval_2.specs.inside.Reading.{read_fraction};

use crate::reading::words::ends_word;
use scan_core::{Run, Scan, Steps};
use std::sync::ledger::Ledger;

/// A clock's fields that a scan has passed, of the fraction at most six digits. They are no counts yet.
#[derive(Clone, Copy)]
pub(crate) struct Clock {
    pub(crate) negative: bool,
    pub(crate) hours: Run,
    pub(crate) minutes: Run,
    pub(crate) seconds: Run,
    pub(crate) fraction: Run,
}

/// The first six digits behind a point in front, or none; all of them are passed.
#[inline(always)]
fn cut_fraction<L: Ledger>(scan: &mut Scan<'_>, steps: &mut Steps<L>) -> Run
    ensures run { IsRun scan.new.text result }
    ensures digits { digits_of scan.new.text result ≡ take 6 (read_fraction (ahead scan.old)).0 }
    ensures rest { ahead scan.new ≡ (read_fraction (ahead scan.old)).1 }
    ensures same { scan.new.text ≡ scan.old.text }
    ensures onward { (result.end - result.start) + length (ahead scan.new)
        ≤ length (ahead scan.old) }
    ensures ticks { steps.new + unseen (ahead scan.new) ≡ steps.old + unseen (ahead scan.old) }
{
    if !scan.next_if(b'.', steps) {
        return scan.digits_up_to(0, steps);
    }
    let six = scan.digits_up_to(6, steps);
    scan.digits(steps);
    six
}

/// The clock whose hours stand before the colon that the scan has passed; None exactly where none is there.
#[inline(always)]
#[tactic(auto, unfolding(crate::specs::inside::ItemReading::read_clock))]
pub(crate) fn clock_behind<L: Ledger>(
    negative: bool,
    hours: Run,
    scan: &mut Scan<'_>,
    steps: &mut Steps<L>,
) -> Option<Clock>
    requires { IsRun scan.old.text hours }
    ensures read { IfSome result (IsClockAs scan.new.text (ahead scan.new)
        (read_clock negative (digits_of scan.old.text hours) (ahead scan.old))) }
    ensures none { IfNone result
        (read_clock negative (digits_of scan.old.text hours) (ahead scan.old) ≡ NoItem) }
    ensures runs { IfSome result (AreClockRuns scan.new.text) }
    ensures same { scan.new.text ≡ scan.old.text }
    ensures onward { length (ahead scan.new) ≤ length (ahead scan.old) }
    ensures shorter { IfSome result (λ clock.
        (clock.fraction.end - clock.fraction.start) + length (ahead scan.new)
        ≤ length (ahead scan.old)) }
    ensures long { IfSome result (λ _. length (ahead scan.new) + 3 ≤ length (ahead scan.old)) }
    ensures ticks { steps.new + unseen (ahead scan.new) ≡ steps.old + unseen (ahead scan.old) }
{
    let minutes = scan.digits(steps);
    if !scan.next_if(b':', steps) {
        return None;
    }
    let seconds = scan.digits(steps);
    let fraction = cut_fraction(scan, steps);
    if hours.is_empty() || minutes.is_empty() || seconds.is_empty() || !ends_word(scan) {
        return None;
    }
    Some(Clock {
        negative,
        hours,
        minutes,
        seconds,
        fraction,
    })
}
