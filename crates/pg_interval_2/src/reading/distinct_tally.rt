//! The tally of items in which no unit may be counted twice.
ghost use Rattle.std.specs.Prelude.{◌≡◌, ◌≢◌, ◌+◌, ◌-◌, ◌<◌, ◌≤◌, ◌^◌, ◌==◌, ◌&&◌, true, [], List, ℕ, Some, length};
ghost use Rattle.scan_core.specs.Count.{Count};
ghost use Rattle.scan_core.specs.Digits.{number_of};
ghost use Rattle.scan_core.specs.Runs.{IsRun, IsWord, digits_of, letters_of};
ghost use Rattle.scan_core.specs.Scanning.{Spends, ahead, front_byte};
ghost use Rattle.pg_interval_2.specs.inside.DistinctItems.{CountsAll, CountsNamed, CountsOne, CountsPerhaps, IsDistinctTally, IsItemStep, IsStep, LeavesRoom, clock_step};
ghost use Rattle.pg_interval_2.specs.inside.ItemReading.{ClockFields, clock_of, read_clock, read_named};
ghost use Rattle.pg_interval_2.specs.inside.ItemViews.{AreClockRuns, HasFields};
ghost use Rattle.pg_interval_2.specs.inside.NamedUnits.{unit_named};
ghost use Rattle.pg_interval_2.specs.declared.reading.unit_names.NameSet.{NameSet as NameSetValue};
ghost use Rattle.pg_interval_2.specs.inside.NameSets.{names_in};
ghost use Rattle.pg_interval_2.specs.inside.Reading.{IsDecimal, count_with, numeral_in};
ghost use Rattle.pg_interval_2.specs.Turned.{turned_counts};

use crate::reading::clock::{Clock, clock_behind};
use crate::reading::number::{Decimal, fraction, sign};
use crate::reading::tally::Tally;
use crate::reading::unit_names::{NameSet, unit_named};
use crate::reading::units::Units;
use crate::reading::words::name;
use crate::writing::parts::turn;
use scan_core::{Looked, Run, Scan, Steps, Unit, Word};
use std::sync::ledger::Ledger;

/// A tally, and the units that it has counted.
#[derive(Clone, Copy)]
pub(crate) struct DistinctTally {
    pub(crate) tally: Tally,
    units: Units,
}

/// What was found in front of a text.
#[derive(Clone, Copy)]
pub(crate) enum Step {
    /// An item, which was counted.
    Taken,
    /// A number, and letters behind it that are no unit's name or one that was counted before.
    BadName(Word),
    /// No item.
    NoItem,
}

/// Whether the number is 0.
#[inline(always)]
fn is_zero(number: Decimal) -> bool
    ensures { (text : List ℕ) → IsDecimal text number → result
        ≡ (number_of (digits_of text number.whole) == 0
        && number_of (digits_of text number.fraction) == 0) }
{
    number.whole.value == 0 && number.fraction.value == 0
}

/// The number of these digits alone.
#[inline(always)]
fn whole_number(negative: bool, whole: Run) -> Decimal
    ensures number { result.negative ≡ negative }
    ensures whole { result.whole ≡ whole }
    ensures fraction { result.fraction ≡ record { start = whole.end; end = whole.end; value = 0 } }
{
    let fraction = Run {
        start: whole.end,
        end: whole.end,
        value: 0,
    };
    Decimal {
        negative,
        whole,
        fraction,
    }
}

impl DistinctTally {
    /// Nothing counted.
    pub(crate) fn new() -> DistinctTally
        ensures adds { result.tally.totals.adds ≡ 0 }
        ensures counted { IsDistinctTally result [] }
    {
        DistinctTally {
            tally: Tally::new(),
            units: Units::new(),
        }
    }

    /// Counts a number of a unit, and answers whether the unit wasn't counted before.
    #[inline(always)]
    fn count<L: Ledger>(
        &mut self,
        text: &Looked<'_>,
        number: Decimal,
        unit: Unit,
        steps: &mut Steps<L>,
    ) -> bool
        requires number { IsDecimal text.now number }
        requires room { self.old.tally.totals.adds < 2 ^ 63 }
        ensures adds { self.new.tally.totals.adds ≤ self.old.tally.totals.adds + 1 }
        ensures counted { (counts : List Count) → IsDistinctTally self.old counts
            → CountsOne counts (count_with (numeral_in text.now number) unit) self.new result }
        ensures least { steps.old ≤ steps.new }
        ensures most { steps.new ≤ steps.old + (number.fraction.end - number.fraction.start) }
    {
        if self.units.contains(unit) {
            return false;
        }
        self.units.insert(unit);
        self.tally.add(text, number, unit, steps);
        true
    }

    /// Counts a number of a unit, unless it is 0, and answers false where its unit was counted before.
    #[inline(always)]
    fn count_nonzero<L: Ledger>(
        &mut self,
        text: &Looked<'_>,
        number: Decimal,
        unit: Unit,
        steps: &mut Steps<L>,
    ) -> bool
        requires number { IsDecimal text.now number }
        requires room { self.old.tally.totals.adds < 2 ^ 63 }
        ensures adds { self.new.tally.totals.adds ≤ self.old.tally.totals.adds + 1 }
        ensures counted { (counts : List Count) → IsDistinctTally self.old counts
            → CountsPerhaps counts (count_with (numeral_in text.now number) unit) self.new result }
        ensures least { steps.old ≤ steps.new }
        ensures most { steps.new ≤ steps.old + (number.fraction.end - number.fraction.start) }
    {
        if is_zero(number) {
            return true;
        }
        self.count(text, number, unit, steps)
    }

    /// Counts a clock's fields that aren't 0, and answers false where the unit of one was counted before.
    #[inline(always)]
    fn count_clock<L: Ledger>(
        &mut self,
        text: &Looked<'_>,
        clock: Clock,
        steps: &mut Steps<L>,
    ) -> bool
        requires runs { AreClockRuns text.now clock }
        requires room { self.old.tally.totals.adds + 3 ≤ 2 ^ 63 }
        ensures adds { self.new.tally.totals.adds ≤ self.old.tally.totals.adds + 3 }
        ensures counted { (fields : ClockFields)
            → HasFields text.now clock fields → (counts : List Count)
            → IsDistinctTally self.old counts → CountsAll counts (clock_of fields) self.new result }
        ensures least { steps.old ≤ steps.new }
        ensures most { steps.new ≤ steps.old + (clock.fraction.end - clock.fraction.start) }
    {
        let negative = clock.negative;
        let hours = whole_number(negative, clock.hours);
        if !self.count_nonzero(text, hours, Unit::Hour, steps) {
            return false;
        }
        let minutes = whole_number(negative, clock.minutes);
        if !self.count_nonzero(text, minutes, Unit::Minute, steps) {
            return false;
        }
        let seconds = Decimal {
            negative,
            whole: clock.seconds,
            fraction: clock.fraction,
        };
        self.count_nonzero(text, seconds, Unit::Second, steps)
    }

    /// Counts a number of the unit that letters name.
    #[inline(always)]
    fn count_named<L: Ledger>(
        &mut self,
        names: NameSet,
        text: &Looked<'_>,
        number: Decimal,
        letters: Word,
        steps: &mut Steps<L>,
    ) -> Step
        requires number { IsDecimal text.now number }
        requires letters { IsWord text.now letters }
        requires room { self.old.tally.totals.adds < 2 ^ 63 }
        ensures adds { self.new.tally.totals.adds ≤ self.old.tally.totals.adds + 1 }
        ensures counted { (counts : List Count) → IsDistinctTally self.old counts
            → CountsNamed (unit_named (names_in names) (letters_of text.now letters)) counts
            (numeral_in text.now number) letters self.new result }
        ensures least { steps.old ≤ steps.new }
        ensures most { steps.new ≤ steps.old + (number.fraction.end - number.fraction.start) }
    {
        match unit_named(names, letters) {
            Some(unit) => {
                if self.count(text, number, unit, steps) {
                    Step::Taken
                } else {
                    Step::BadName(letters)
                }
            }
            None => Step::BadName(letters),
        }
    }

    /// The same of a decimal.
    // out of line, as few numbers are one: a caller that grows very large is not inlined into its loop
    #[inline(never)]
    fn count_decimal<L: Ledger>(
        &mut self,
        names: NameSet,
        text: &Looked<'_>,
        number: Decimal,
        letters: Word,
        steps: &mut Steps<L>,
    ) -> Step
        requires number { IsDecimal text.now number }
        requires letters { IsWord text.now letters }
        requires room { self.old.tally.totals.adds < 2 ^ 63 }
        ensures adds { self.new.tally.totals.adds ≤ self.old.tally.totals.adds + 1 }
        ensures counted { (counts : List Count) → IsDistinctTally self.old counts
            → CountsNamed (unit_named (names_in names) (letters_of text.now letters)) counts
            (numeral_in text.now number) letters self.new result }
        ensures least { steps.old ≤ steps.new }
        ensures most { steps.new ≤ steps.old + (number.fraction.end - number.fraction.start) }
    {
        self.count_named(names, text, number, letters, steps)
    }

    /// Counts the number whose whole digits the scan has passed, without a point behind them, and passes its letters.
    #[inline(always)]
    fn take_whole<L: Ledger>(
        &mut self,
        names: NameSet,
        turned: bool,
        negative: bool,
        whole: Run,
        scan: &mut Scan<'_>,
        steps: &mut Steps<L>,
    ) -> Step
        requires whole { IsRun scan.old.text whole }
        requires some { whole.start ≢ whole.end }
        requires point { front_byte (ahead scan.old) ≢ Some 46 }
        requires room { self.old.tally.totals.adds < 2 ^ 63 }
        ensures room { LeavesRoom (self.old.tally.totals.adds + length (ahead scan.old))
            (self.new.tally.totals.adds + length (ahead scan.new)) result }
        ensures step { (counts : List Count)
            → IsDistinctTally self.old (turned_counts turned counts)
            → IsItemStep (names_in names) turned scan.new.text
            (read_named negative (digits_of scan.old.text whole) (ahead scan.old))
            (ahead scan.new) counts self.new result }
        ensures same { scan.new.text ≡ scan.old.text }
        ensures spends { Spends steps.old (ahead scan.old) steps.new (ahead scan.new) }
    {
        match name(scan, steps) {
            Some(letters) => {
                let number = whole_number(turn(turned, negative), whole);
                self.count_named(names, scan.text(), number, letters, steps)
            }
            None => Step::NoItem,
        }
    }

    /// Counts the number whose whole digits, perhaps none, the scan has passed, and passes its fraction and letters.
    #[inline(always)]
    fn take_decimal<L: Ledger>(
        &mut self,
        names: NameSet,
        turned: bool,
        negative: bool,
        whole: Run,
        scan: &mut Scan<'_>,
        steps: &mut Steps<L>,
    ) -> Step
        requires whole { IsRun scan.old.text whole }
        requires room { self.old.tally.totals.adds < 2 ^ 63 }
        ensures room { LeavesRoom (self.old.tally.totals.adds + length (ahead scan.old))
            (self.new.tally.totals.adds + length (ahead scan.new)) result }
        ensures step { (counts : List Count)
            → IsDistinctTally self.old (turned_counts turned counts)
            → IsItemStep (names_in names) turned scan.new.text
            (read_named negative (digits_of scan.old.text whole) (ahead scan.old))
            (ahead scan.new) counts self.new result }
        ensures same { scan.new.text ≡ scan.old.text }
        ensures spends { Spends steps.old (ahead scan.old) steps.new (ahead scan.new) }
    {
        let fraction = fraction(scan, steps);
        if whole.is_empty() && fraction.is_empty() {
            return Step::NoItem;
        }
        match name(scan, steps) {
            Some(letters) => {
                let number = Decimal {
                    negative: turn(turned, negative),
                    whole,
                    fraction,
                };
                self.count_decimal(names, scan.text(), number, letters, steps)
            }
            None => Step::NoItem,
        }
    }

    /// Counts the number whose whole digits the scan has passed: nearly all have some, and no point behind them.
    #[inline(always)]
    fn take_named<L: Ledger>(
        &mut self,
        names: NameSet,
        turned: bool,
        negative: bool,
        whole: Run,
        scan: &mut Scan<'_>,
        steps: &mut Steps<L>,
    ) -> Step
        requires whole { IsRun scan.old.text whole }
        requires room { self.old.tally.totals.adds < 2 ^ 63 }
        ensures room { LeavesRoom (self.old.tally.totals.adds + length (ahead scan.old))
            (self.new.tally.totals.adds + length (ahead scan.new)) result }
        ensures step { (counts : List Count)
            → IsDistinctTally self.old (turned_counts turned counts)
            → IsItemStep (names_in names) turned scan.new.text
            (read_named negative (digits_of scan.old.text whole) (ahead scan.old))
            (ahead scan.new) counts self.new result }
        ensures same { scan.new.text ≡ scan.old.text }
        ensures spends { Spends steps.old (ahead scan.old) steps.new (ahead scan.new) }
    {
        if whole.is_empty() || scan.peek() == Some(b'.') {
            return self.take_decimal(names, turned, negative, whole, scan, steps);
        }
        self.take_whole(names, turned, negative, whole, scan, steps)
    }

    /// Counts the clock whose hours stand before the colon that the scan has passed, and answers whether it did.
    #[inline(always)]
    fn count_ahead<L: Ledger>(
        &mut self,
        turned: bool,
        negative: bool,
        hours: Run,
        scan: &mut Scan<'_>,
        steps: &mut Steps<L>,
    ) -> bool
        requires hours { IsRun scan.old.text hours }
        requires room { self.old.tally.totals.adds + length (ahead scan.old) < 2 ^ 63 }
        ensures room { result ≡ true → self.new.tally.totals.adds + length (ahead scan.new)
            ≤ self.old.tally.totals.adds + length (ahead scan.old) }
        ensures step { (names : NameSetValue) (counts : List Count)
            → IsDistinctTally self.old (turned_counts turned counts)
            → IsItemStep (names_in names) turned scan.new.text
            (read_clock negative (digits_of scan.old.text hours) (ahead scan.old))
            (ahead scan.new) counts self.new (clock_step result) }
        ensures same { scan.new.text ≡ scan.old.text }
        ensures spends { Spends steps.old (ahead scan.old) steps.new (ahead scan.new) }
    {
        match clock_behind(negative, hours, scan, steps) {
            Some(clock) => {
                let negative = turn(turned, clock.negative);
                self.count_clock(scan.text(), Clock { negative, ..clock }, steps)
            }
            None => false,
        }
    }

    /// The same on a copy of the scan, whose place stays in registers from byte to byte.
    // out of line, as few items are a clock: no other sets up places for its fields
    #[inline(never)]
    fn take_clock<L: Ledger>(
        &mut self,
        turned: bool,
        negative: bool,
        hours: Run,
        scan: &mut Scan<'_>,
        steps: &mut Steps<L>,
    ) -> bool
        requires hours { IsRun scan.old.text hours }
        requires room { self.old.tally.totals.adds + length (ahead scan.old) < 2 ^ 63 }
        ensures room { result ≡ true → self.new.tally.totals.adds + length (ahead scan.new)
            ≤ self.old.tally.totals.adds + length (ahead scan.old) }
        ensures step { (names : NameSetValue) (counts : List Count)
            → IsDistinctTally self.old (turned_counts turned counts)
            → IsItemStep (names_in names) turned scan.new.text
            (read_clock negative (digits_of scan.old.text hours) (ahead scan.old))
            (ahead scan.new) counts self.new (clock_step result) }
        ensures same { scan.new.text ≡ scan.old.text }
        ensures spends { Spends steps.old (ahead scan.old) steps.new (ahead scan.new) }
    {
        let mut here = scan.here();
        let taken = self.count_ahead(turned, negative, hours, &mut here, steps);
        *scan = here;
        taken
    }

    /// Counts the item in front, which is passed, with the style's names; each count is turned first where `turned`.
    #[inline(always)]
    pub(crate) fn take_item<L: Ledger>(
        &mut self,
        names: NameSet,
        turned: bool,
        scan: &mut Scan<'_>,
        steps: &mut Steps<L>,
    ) -> Step
        requires room { self.old.tally.totals.adds + length (ahead scan.old) < 2 ^ 63 }
        ensures room { LeavesRoom (self.old.tally.totals.adds + length (ahead scan.old))
            (self.new.tally.totals.adds + length (ahead scan.new)) result }
        ensures step { (counts : List Count)
            → IsDistinctTally self.old (turned_counts turned counts)
            → IsStep (names_in names) turned scan.new.text (ahead scan.old) (ahead scan.new)
            counts self.new result }
        ensures same { scan.new.text ≡ scan.old.text }
        ensures spends { Spends steps.old (ahead scan.old) steps.new (ahead scan.new) }
    {
        // a sign and digits begin both kinds, and a colon behind them tells a clock
        let negative = sign(true, scan, steps);
        let whole = scan.digits(steps);
        if !scan.next_if(b':', steps) {
            return self.take_named(names, turned, negative, whole, scan, steps);
        }
        let mut behind = scan.here();
        let taken = self.take_clock(turned, negative, whole, &mut behind, steps);
        *scan = behind;
        if taken { Step::Taken } else { Step::NoItem }
    }
}
