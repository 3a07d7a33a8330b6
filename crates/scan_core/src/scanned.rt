//! The shares of counts whose digits a scan has passed, added to their sums.
ghost use Rattle.std.specs.Prelude.{◌≡◌, ◌+◌, ◌-◌, ◌*◌, ◌/◌, ◌^◌, ◌<◌, ◌≤◌, ◌+ℤ◌, ◌↔◌, false, IsTrue};
ghost use Rattle.scan_core.specs.Runs.{IsRun, count_in, digits_of};
ghost use Rattle.scan_core.specs.Shares.{has_share, rounded, share};
ghost use Rattle.scan_core.specs.declared.share.Part.TheVariants.{Months, Days, Micros};

use crate::looked::Looked;
use crate::looked_digits::looked_fraction;
use crate::runs::Run;
use crate::share::Unit;
use crate::steps::Steps;
use crate::totals::Totals;
use std::sync::ledger::Ledger;

/// Adds the share of the count of a unit with these whole and fraction digits of the text, and answers whether it has
/// one; without one nothing changes. The digits were passed by a scan; only those of a fraction of more than twelve are
/// looked at again.
#[inline(always)]
pub fn add_scanned<L: Ledger>(
    totals: &mut Totals,
    text: &Looked<'_>,
    negative: bool,
    whole: Run,
    fraction: Run,
    unit: Unit,
    steps: &mut Steps<L>,
) -> bool
    requires whole { IsRun text.now whole }
    requires fraction { IsRun text.now fraction }
    requires room { totals.old.adds < 2 ^ 63 }
    ensures fits { IsTrue result
        ↔ IsTrue (has_share (count_in text.now negative whole fraction unit)) }
    ensures months { IsTrue result →
        totals.new.months ≡ totals.old.months
        +ℤ share Months (count_in text.now negative whole fraction unit) }
    ensures days { IsTrue result →
        totals.new.days ≡ totals.old.days
        +ℤ share Days (count_in text.now negative whole fraction unit) }
    ensures micros { IsTrue result →
        totals.new.micros ≡ totals.old.micros
        +ℤ share Micros (count_in text.now negative whole fraction unit) }
    ensures adds { IsTrue result → totals.new.adds ≡ totals.old.adds + 1 }
    ensures kept { result ≡ false → totals.new ≡ totals.old }
    ensures least { steps.old ≤ steps.new }
    ensures most { steps.new ≤ steps.old + (fraction.end - fraction.start) }
{
    let next = scanned_fraction(text, fraction, unit.scale(), steps);
    totals.add_count(negative, whole.value, next, unit)
}

/// The fraction that the digits write, in the next smaller unit, rounded half away from zero. At most twelve digits are
/// known from the scan.
#[inline(always)]
fn scanned_fraction<L: Ledger>(
    text: &Looked<'_>,
    fraction: Run,
    scale: u64,
    steps: &mut Steps<L>,
) -> u64
    requires fraction { IsRun text.now fraction }
    requires scale { scale ≤ 1_000_000 }
    ensures value { result ≡ rounded scale (digits_of text.now fraction) }
    ensures small { result ≤ scale }
    ensures least { steps.old ≤ steps.new }
    ensures most { steps.new ≤ steps.old + (fraction.end - fraction.start) }
{
    let digits = fraction.end - fraction.start;
    if digits == 0 {
        0
    } else if digits <= 6 && scale == 1_000_000 {
        millionths(fraction.value, digits)
    } else if digits <= 12 {
        short_fraction(fraction.value, digits, scale)
    } else {
        looked_fraction(text, fraction.start, fraction.end, scale, steps)
    }
}

/// The fraction that a number of at most six digits writes behind the point, in millionths: none is lost, so that nothing
/// is rounded and no division is needed.
#[inline(always)]
fn millionths(number: u64, digits: usize) -> u64
    requires digits { digits ≤ 6 }
    requires number { number < 10 ^ 12 }
    ensures { result ≡ (2 * number * 1_000_000 + 10 ^ digits) / (2 * 10 ^ digits) }
{
    match digits {
        0 => number * 1_000_000,
        1 => number * 100_000,
        2 => number * 10_000,
        3 => number * 1_000,
        4 => number * 100,
        5 => number * 10,
        _ => number,
    }
}

/// The fraction that a number of at most twelve digits writes behind the point.
#[inline(always)]
fn short_fraction(number: u64, digits: usize, scale: u64) -> u64
    requires digits { digits ≤ 12 }
    requires number { number < 10 ^ 12 }
    requires scale { scale ≤ 1_000_000 }
    ensures { result ≡ (2 * number * scale + 10 ^ digits) / (2 * 10 ^ digits) }
{
    let power = power_of_ten(digits);
    (2 * number * scale + power) / (2 * power)
}

/// A power of ten.
#[inline(always)]
fn power_of_ten(exponent: usize) -> u64
    requires { exponent ≤ 12 }
    ensures power { result ≡ 10 ^ exponent }
    ensures least { 1 ≤ result }
    ensures most { result ≤ 10 ^ 12 }
{
    match exponent {
        0 => 1,
        1 => 10,
        2 => 100,
        3 => 1_000,
        4 => 10_000,
        5 => 100_000,
        6 => 1_000_000,
        7 => 10_000_000,
        8 => 100_000_000,
        9 => 1_000_000_000,
        10 => 10_000_000_000,
        11 => 100_000_000_000,
        _ => 1_000_000_000_000,
    }
}
