//! The ISO style: `P1Y2M3DT4H5M6S`.
ghost use Rattle.std.specs.Prelude.{◌≡◌, ◌+◌, ◌*◌, ◌-◌, ◌<◌, ◌≤◌, ◌^◌, ◌||◌, not, true, false, None, Some, length, IfSome, IfNone, IfOk, IfErr};
ghost use Rattle.scan_core.specs.Scanning.{Spends, ahead, unseen};
ghost use Rattle.pg_interval_2.specs.Denotes.{Denotes, HasNoShape, NoPlace, Refuses};
ghost use Rattle.pg_interval_2.specs.Iso.{IsIso, unit_in};
ghost use Rattle.pg_interval_2.specs.inside.IsoShapes.{IsIsoEither, iso_shape, not_in_iso};
ghost use Rattle.pg_interval_2.specs.inside.IsoTally.{IsSpelled, StopsBehindPairs, TakesPairs, ends_pairs};
ghost use Rattle.pg_interval_2.specs.Messages.{not_iso};
ghost use Rattle.pg_interval_2.specs.inside.Reading.{IsDecimal, count_with, numeral_in, read_pair};
ghost use Rattle.pg_interval_2.specs.inside.Tallies.{IsTallyOf};
ghost use Rattle.pg_interval_2.specs.declared.style.Style.TheVariants.{Iso};
ghost use Rattle.pg_interval_2.specs.Styles.{Answers};

use crate::error::ParseError;
use crate::interval::Interval;
use crate::reading::number::{Decimal, number};
use crate::reading::order::{Order, are_kept};
use crate::reading::read;
use crate::reading::tally::Tally;
use crate::style::Style;
use scan_core::{Looked, Scan, Steps, Unit};
use std::sync::ledger::Ledger;

/// The unit that a letter means, before the `T` or behind it.
fn unit_of(in_time: bool, letter: u8) -> Option<Unit>
    ensures { result ≡ unit_in in_time letter }
{
    match letter {
        b'Y' => Some(Unit::Year),
        b'M' if in_time => Some(Unit::Minute),
        b'M' => Some(Unit::Month),
        b'W' => Some(Unit::Week),
        b'D' => Some(Unit::Day),
        b'H' => Some(Unit::Hour),
        b'S' if in_time => Some(Unit::Second),
        _ => None,
    }
}

/// The number and the unit in front, which are passed; None exactly where no such pair is there.
#[inline(always)]
#[tactic(auto, unfolding(crate::specs::inside::Reading::read_pair))]
fn pair<L: Ledger>(
    in_time: bool,
    scan: &mut Scan<'_>,
    steps: &mut Steps<L>,
) -> Option<(Decimal, Unit)>
    ensures read { IfSome result
        (λ pair. Some (count_with (numeral_in scan.new.text pair.0) pair.1, ahead scan.new)
        ≡ read_pair (unit_in in_time) (ahead scan.old)) }
    ensures none { IfNone result (None ≡ read_pair (unit_in in_time) (ahead scan.old)) }
    ensures number { IfSome result (λ pair. IsDecimal scan.new.text pair.0) }
    ensures shorter { IfSome result (λ pair.
        (pair.0.fraction.end - pair.0.fraction.start) + length (ahead scan.new)
        < length (ahead scan.old)) }
    ensures same { scan.new.text ≡ scan.old.text }
    ensures onward { length (ahead scan.new) ≤ length (ahead scan.old) }
    ensures ticks { steps.new + unseen (ahead scan.new) ≡ steps.old + unseen (ahead scan.old) }
{
    let number = number(false, scan, steps)?;
    let letter = scan.next(steps)?;
    let unit = unit_of(in_time, letter)?;
    Some((number, unit))
}

/// Whether no pair can stand here: the text ends, or the time begins.
#[inline(always)]
fn ends_pairs(scan: &Scan<'_>) -> bool
    ensures { result ≡ ends_pairs (ahead scan.now) }
{
    match scan.peek() {
        None | Some(b'T') => true,
        Some(_) => false,
    }
}

/// What a text in ISO style spells.
#[derive(Clone, Copy)]
pub(crate) struct OrderedTally {
    /// The tally of its counts.
    pub(crate) tally: Tally,
    /// Whether its units stand in the order of the strict style, and one at least behind a `T`.
    pub(crate) in_order: bool,
}

/// Takes the pairs up to the end or a `T` into the tally and the order, and answers whether nothing else stands there.
#[inline(always)]
fn take_pairs<L: Ledger>(
    tally: &mut Tally,
    order: &mut Order,
    in_time: bool,
    scan: &mut Scan<'_>,
    steps: &mut Steps<L>,
) -> bool
    requires room { tally.old.totals.adds + length (ahead scan.old) < 2 ^ 63 }
    ensures room { tally.new.totals.adds + length (ahead scan.new)
        ≤ tally.old.totals.adds + length (ahead scan.old) }
    ensures taken { result ≡ true
        → TakesPairs in_time (ahead scan.old) (ahead scan.new)
        tally.old tally.new order.old order.new }
    ensures ends { result ≡ true → ends_pairs (ahead scan.new) ≡ true }
    ensures stops { result ≡ false → StopsBehindPairs in_time (ahead scan.old) tally.old order.old }
    ensures same { scan.new.text ≡ scan.old.text }
    ensures spends { Spends steps.old (ahead scan.old) steps.new (ahead scan.new) }
{
    while !ends_pairs(scan) {
        let (number, unit) = match pair(in_time, scan, steps) {
            Some(pair) => pair,
            None => return false,
        };
        order.take(unit);
        tally.add(scan.text(), number, unit, steps);
    }
    true
}

/// What the text spells, or None exactly where it has no shape.
#[inline(always)]
fn spelled<L: Ledger>(text: &Looked<'_>, steps: &mut Steps<L>) -> Option<OrderedTally>
    ensures some { IfSome result (IsSpelled text.now) }
    ensures none { IfNone result (HasNoShape IsIsoEither text.now) }
    ensures most { steps.new ≤ steps.old + 2 * length text.now }
    ensures least { IfSome result (λ _. steps.old + length text.now ≤ steps.new) }
{
    let mut scan = Scan::new(text, steps);
    if !scan.next_if(b'P', steps) {
        return None;
    }
    if scan.is_done() {
        return None;
    }
    let mut tally = Tally::new();
    let mut dates = Order::new(false);
    if !take_pairs(&mut tally, &mut dates, false, &mut scan, steps) {
        return None;
    }
    if scan.is_done() {
        return Some(OrderedTally {
            tally,
            in_order: dates.is_kept(false),
        });
    }
    scan.next(steps);
    let bare = scan.is_done();
    let mut times = Order::new(true);
    if !take_pairs(&mut tally, &mut times, true, &mut scan, steps) {
        return None;
    }
    if scan.is_done() {
        Some(OrderedTally {
            tally,
            in_order: are_kept(&dates, &times, bare),
        })
    } else {
        None
    }
}

/// Whether a text in ISO style is in the style: in the strict one only where its units stand in order.
#[inline(always)]
fn suits(strict: bool, in_order: bool) -> bool
    ensures { result ≡ (in_order || not strict) }
{
    in_order || !strict
}

/// The tally of the counts that the text spells, or None exactly where it isn't in the style.
#[inline(always)]
fn tally_of<L: Ledger>(strict: bool, text: &Looked<'_>, steps: &mut Steps<L>) -> Option<Tally>
    ensures some { IfSome result (IsTallyOf (iso_shape strict) text.now) }
    ensures none { IfNone result (HasNoShape (iso_shape strict) text.now) }
    ensures most { steps.new ≤ steps.old + 2 * length text.now }
    ensures least { IfSome result (λ _. steps.old + length text.now ≤ steps.new) }
{
    match spelled(text, steps) {
        Some(spelled) => {
            if suits(strict, spelled.in_order) {
                Some(spelled.tally)
            } else {
                None
            }
        }
        None => None,
    }
}

/// The message of a text that isn't in the style.
fn not_in(strict: bool) -> &'static str
    ensures { result.now ≡ not_in_iso strict }
{
    if strict {
        "not a strict iso interval"
    } else {
        "not an iso interval"
    }
}

/// What `Interval::from_iso` answers, or where `strict` what `Interval::from_iso_strict` does, with at most two looks a byte,
/// and with one at least where it is Ok.
// one copy for both styles, with the tally in a place of its own; out of line, so that where the style is named
// `read_counted` is this call alone
#[inline(never)]
pub(crate) fn read_either<L: Ledger>(
    strict: bool,
    text: &Looked<'_>,
    steps: &mut Steps<L>,
) -> Result<Interval, ParseError>
    ensures ok { IfOk result (λ t. Denotes (iso_shape strict) text.now t) }
    ensures err { IfErr result
        (λ e. Refuses (iso_shape strict) NoPlace (not_in_iso strict) text.now e) }
    ensures most { steps.new ≤ steps.old + 2 * length text.now }
    ensures least { IfOk result (λ _. steps.old + length text.now ≤ steps.new) }
{
    match tally_of(strict, text, steps) {
        Some(tally) => tally.answer(),
        None => Err(ParseError::InvalidInterval(not_in(strict))),
    }
}

/// What `Interval::from_iso` answers.
#[inline(always)]
pub(crate) fn read_iso<L: Ledger>(
    text: &Looked<'_>,
    steps: &mut Steps<L>,
) -> Result<Interval, ParseError>
    ensures ok { IfOk result (λ t. Denotes IsIsoEither text.now t) }
    ensures err { IfErr result (λ e. Refuses IsIsoEither NoPlace not_iso text.now e) }
    ensures most { steps.new ≤ steps.old + 2 * length text.now }
    ensures least { IfOk result (λ _. steps.old + length text.now ≤ steps.new) }
{
    read_either(false, text, steps)
}

impl Interval {
    /// The interval that the text denotes in ISO style, PostgreSQL's reading of ISO 8601 durations:
    /// `Interval::from_iso("P1Y2M3DT4H5M6S")`. Letters may repeat and come in any order, and each number may have a
    /// fraction, which is rounded to the next smaller unit.
    ///
    /// `InvalidInterval` exactly where the text isn't in the style, and else `InvalidYearMonth`, `InvalidDay` or
    /// `InvalidTime` exactly where that part of a count, or of the sum of all counts, is the first that leaves its type.
    pub fn from_iso(text: &str) -> Result<Interval, ParseError>
        ensures { Answers Iso text.now result }
    {
        read(Style::Iso, &Looked::new(text))
    }
}
