//! The share of a count whose digits stand at known places of a counted text.
ghost use Rattle.std.specs.Prelude.{◌≡◌, ◌+◌, ◌-◌, ◌*◌, ◌/◌, ◌^◌, ◌≤◌, ◌↔◌, IsTrue, IsSome, IfSome, length};
ghost use Rattle.scan_core.specs.Count.{count_of};
ghost use Rattle.scan_core.specs.Digits.{AreDigits, number_of};
ghost use Rattle.scan_core.specs.Runs.{Knows};
ghost use Rattle.scan_core.specs.Scanning.{between};
ghost use Rattle.scan_core.specs.Shares.{has_share, rounded, share};
ghost use Rattle.scan_core.specs.declared.share.Part.TheVariants.{Months, Days, Micros};

use crate::looked::Looked;
use crate::rounding::weighed_digit;
use crate::runs::with_digit;
use crate::share::{Share, Unit, share_of};
use crate::steps::Steps;
use std::sync::ledger::Ledger;

/// The share of the count of a unit whose whole digits stand from `start` up to `point`, and whose fraction digits, if
/// any, behind the byte at `point` up to `end`, as `count_share` answers it on these digits. Each byte is looked at
/// once at most.
pub fn looked_share<L: Ledger>(
    text: &Looked<'_>,
    start: usize,
    point: usize,
    end: usize,
    negative: bool,
    unit: Unit,
    steps: &mut Steps<L>,
) -> Option<Share>
    requires whole_order { start ≤ point }
    requires order { point ≤ end }
    requires within { end ≤ length text.now }
    requires whole { AreDigits (between start point text.now) }
    requires fraction { AreDigits (between (point + 1) end text.now) }
    ensures fits { IsSome result ↔ IsTrue
        (has_share (count_of negative (between start point text.now)
        (between (point + 1) end text.now) unit)) }
    ensures months { IfSome result (λ given. given.months
        ≡ share Months (count_of negative (between start point text.now)
        (between (point + 1) end text.now) unit)) }
    ensures days { IfSome result (λ given. given.days
        ≡ share Days (count_of negative (between start point text.now)
        (between (point + 1) end text.now) unit)) }
    ensures micros { IfSome result (λ given. given.micros
        ≡ share Micros (count_of negative (between start point text.now)
        (between (point + 1) end text.now) unit)) }
    ensures most { steps.new ≤ steps.old + (end - start) }
{
    let whole = looked_number(text, start, point, steps);
    let next = looked_tail(text, point, end, unit.scale(), steps);
    share_of(negative, whole, next, unit)
}

/// The fraction that the digits behind the point up to `end` write, where something stands there, in the next smaller unit.
fn looked_tail<L: Ledger>(
    text: &Looked<'_>,
    point: usize,
    end: usize,
    scale: u64,
    steps: &mut Steps<L>,
) -> u64
    requires order { point ≤ end }
    requires within { end ≤ length text.now }
    requires digits { AreDigits (between (point + 1) end text.now) }
    requires scale { scale ≤ 1_000_000 }
    ensures value { result ≡ rounded scale (between (point + 1) end text.now) }
    ensures small { result ≤ scale }
    ensures most { steps.new ≤ steps.old + (end - point) }
{
    if point < end {
        looked_fraction(text, point + 1, end, scale, steps)
    } else {
        0
    }
}

/// The number of the digits from `start` up to `end`, exact below 10^18.
fn looked_number<L: Ledger>(
    text: &Looked<'_>,
    start: usize,
    end: usize,
    steps: &mut Steps<L>,
) -> u64
    requires order { start ≤ end }
    requires within { end ≤ length text.now }
    requires digits { AreDigits (between start end text.now) }
    ensures value { Knows (10 ^ 18) result (number_of (between start end text.now)) }
    ensures ticks { steps.new ≡ steps.old + (end - start) }
{
    let mut value = 0;
    for at in start..end {
        value = with_digit(value, text.look(at, steps));
    }
    value
}

/// The fraction that the digits from `start` up to `end` write, in the next smaller unit, rounded half away from zero.
pub(crate) fn looked_fraction<L: Ledger>(
    text: &Looked<'_>,
    start: usize,
    end: usize,
    scale: u64,
    steps: &mut Steps<L>,
) -> u64
    requires order { start ≤ end }
    requires within { end ≤ length text.now }
    requires digits { AreDigits (between start end text.now) }
    requires scale { scale ≤ 1_000_000 }
    ensures value { result ≡ rounded scale (between start end text.now) }
    ensures small { result ≤ scale }
    ensures ticks { steps.new ≡ steps.old + (end - start) }
{
    if start == end {
        return 0;
    }
    let carry = looked_cut(text, start + 1, end, scale, steps);
    (weighed_digit(text.look(start, steps), scale, carry) + 5) / 10
}

/// The same fraction, cut to the number below it.
fn looked_cut<L: Ledger>(
    text: &Looked<'_>,
    start: usize,
    end: usize,
    scale: u64,
    steps: &mut Steps<L>,
) -> u64
    requires order { start ≤ end }
    requires within { end ≤ length text.now }
    requires digits { AreDigits (between start end text.now) }
    requires scale { scale ≤ 1_000_000 }
    ensures value { result
        ≡ number_of (between start end text.now)
        * scale / 10 ^ length (between start end text.now) }
    ensures ticks { steps.new ≡ steps.old + (end - start) }
{
    let mut carry = 0;
    let mut at = end;
    while start < at {
        at -= 1;
        carry = weighed_digit(text.look(at, steps), scale, carry) / 10;
    }
    carry
}
