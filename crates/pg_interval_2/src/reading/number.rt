//! Decimal numbers at the front of a scan: a sign, whole digits, a point and fraction digits.
ghost use Rattle.std.specs.Prelude.{◌≡◌, ◌+◌, ◌-◌, ◌<◌, ◌≤◌, None, Some, IfSome, IfNone, length};
ghost use Rattle.scan_core.specs.Runs.{IsRun, digits_of};
ghost use Rattle.scan_core.specs.Scanning.{ahead, unseen};
ghost use Rattle.pg_interval_2.specs.inside.Reading.{IsDecimal, numeral_in, read_fraction, read_number, read_sign, read_unsigned};

use scan_core::{Run, Scan, Steps};
use std::sync::ledger::Ledger;

/// A number that a scan has passed: where its digits stand, and their values.
#[derive(Clone, Copy)]
pub(crate) struct Decimal {
    pub(crate) negative: bool,
    pub(crate) whole: Run,
    pub(crate) fraction: Run,
}

/// Whether a minus stands in front; it is passed, and so is a plus where one may stand.
#[inline(always)]
pub(crate) fn sign<L: Ledger>(plus: bool, scan: &mut Scan<'_>, steps: &mut Steps<L>) -> bool
    ensures read { (result, ahead scan.new) ≡ read_sign plus (ahead scan.old) }
    ensures same { scan.new.text ≡ scan.old.text }
    ensures onward { length (ahead scan.new) ≤ length (ahead scan.old) }
    ensures ticks { steps.new + unseen (ahead scan.new) ≡ steps.old + unseen (ahead scan.old) }
{
    match scan.peek() {
        Some(b'-') => {
            scan.next(steps);
            true
        }
        Some(b'+') if plus => {
            scan.next(steps);
            false
        }
        _ => false,
    }
}

/// The digits behind a point in front, which is passed, or none.
#[inline(always)]
pub(crate) fn fraction<L: Ledger>(scan: &mut Scan<'_>, steps: &mut Steps<L>) -> Run
    ensures run { IsRun scan.new.text result }
    ensures read { (digits_of scan.new.text result, ahead scan.new)
        ≡ read_fraction (ahead scan.old) }
    ensures same { scan.new.text ≡ scan.old.text }
    ensures onward { (result.end - result.start) + length (ahead scan.new)
        ≤ length (ahead scan.old) }
    ensures ticks { steps.new + unseen (ahead scan.new) ≡ steps.old + unseen (ahead scan.old) }
{
    if scan.next_if(b'.', steps) {
        scan.fraction_digits(steps)
    } else {
        scan.digits_up_to(0, steps)
    }
}

/// The unsigned number in front, with its sign, which is passed; None exactly where no digit is there.
#[inline(always)]
#[tactic(auto, unfolding(crate::specs::inside::Reading::read_unsigned))]
fn unsigned<L: Ledger>(negative: bool, scan: &mut Scan<'_>, steps: &mut Steps<L>) -> Option<Decimal>
    ensures read { IfSome result (λ number.
        Some (numeral_in scan.new.text number, ahead scan.new)
        ≡ read_unsigned negative (ahead scan.old)) }
    ensures none { IfNone result (None ≡ read_unsigned negative (ahead scan.old)) }
    ensures number { IfSome result (IsDecimal scan.new.text) }
    ensures shorter { IfSome result (λ number.
        (number.fraction.end - number.fraction.start) + length (ahead scan.new)
        ≤ length (ahead scan.old)) }
    ensures same { scan.new.text ≡ scan.old.text }
    ensures onward { length (ahead scan.new) ≤ length (ahead scan.old) }
    ensures ticks { steps.new + unseen (ahead scan.new) ≡ steps.old + unseen (ahead scan.old) }
{
    let whole = scan.digits(steps);
    let fraction = fraction(scan, steps);
    if whole.start == whole.end && fraction.start == fraction.end {
        return None;
    }
    Some(Decimal {
        negative,
        whole,
        fraction,
    })
}

/// The number in front, which is passed; None exactly where none is there. A plus may stand before it where `plus`.
#[inline(always)]
#[tactic(auto, unfolding(crate::specs::inside::Reading::read_number))]
pub(crate) fn number<L: Ledger>(
    plus: bool,
    scan: &mut Scan<'_>,
    steps: &mut Steps<L>,
) -> Option<Decimal>
    ensures read { IfSome result (λ number.
        Some (numeral_in scan.new.text number, ahead scan.new)
        ≡ read_number plus (ahead scan.old)) }
    ensures none { IfNone result (None ≡ read_number plus (ahead scan.old)) }
    ensures number { IfSome result (IsDecimal scan.new.text) }
    ensures shorter { IfSome result (λ number.
        (number.fraction.end - number.fraction.start) + length (ahead scan.new)
        ≤ length (ahead scan.old)) }
    ensures same { scan.new.text ≡ scan.old.text }
    ensures onward { length (ahead scan.new) ≤ length (ahead scan.old) }
    ensures ticks { steps.new + unseen (ahead scan.new) ≡ steps.old + unseen (ahead scan.old) }
{
    let negative = sign(plus, scan, steps);
    unsigned(negative, scan, steps)
}
