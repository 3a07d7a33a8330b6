//! The tally of a text's counts: exact sums, and which parts a share has left. Nothing is judged before the end.
ghost use Rattle.std.specs.Prelude.{◌≡◌, ◌+◌, ◌-◌, ◌<◌, ◌≤◌, ◌^◌, [], ◌∷◌, ◌++◌, List};
ghost use Rattle.scan_core.specs.Count.{Count, count_of};
ghost use Rattle.scan_core.specs.Runs.{IsRun, digits_of};
ghost use Rattle.scan_core.specs.Shares.{main_part};
ghost use Rattle.pg_interval_2.specs.inside.Reading.{IsDecimal, count_with, numeral_in};
ghost use Rattle.pg_interval_2.specs.inside.Tallies.{Tallies, AnswersCounts, marked};

use crate::error::ParseError;
use crate::interval::Interval;
use crate::reading::number::Decimal;
use scan_core::{Looked, Part, Run, Steps, Totals, Unit, add_scanned};
use std::sync::ledger::Ledger;

/// The sums of the shares that fit, and of each part whether all shares do.
#[derive(Clone, Copy)]
pub(crate) struct Tally {
    totals: Totals,
    months_fit: bool,
    days_fit: bool,
    micros_fit: bool,
}

impl Tally {
    /// The tally of no counts.
    pub(crate) fn new() -> Tally
        ensures adds { result.totals.adds ≡ 0 }
        ensures tallied { Tallies result [] }
    {
        Tally {
            totals: Totals::new(),
            months_fit: true,
            days_fit: true,
            micros_fit: true,
        }
    }

    /// Takes one more count, whose digits a scan of the text has passed.
    #[inline(always)]
    pub(crate) fn add<L: Ledger>(
        &mut self,
        text: &Looked<'_>,
        number: Decimal,
        unit: Unit,
        steps: &mut Steps<L>,
    )
        requires number { IsDecimal text.now number }
        requires room { self.old.totals.adds < 2 ^ 63 }
        ensures adds { self.new.totals.adds ≤ self.old.totals.adds + 1 }
        ensures tallied { (counts : List Count) → Tallies self.old counts
            → Tallies self.new (counts ++ count_with (numeral_in text.now number) unit ∷ []) }
        ensures least { steps.old ≤ steps.new }
        ensures most { steps.new ≤ steps.old + (number.fraction.end - number.fraction.start) }
    {
        let Decimal {
            negative,
            whole,
            fraction,
        } = number;
        if !add_scanned(
            &mut self.totals,
            text,
            negative,
            whole,
            fraction,
            unit,
            steps,
        ) {
            self.mark(unit);
        }
    }

    /// Takes one more count without a fraction, whose digits a scan of the text has passed.
    #[inline(always)]
    pub(crate) fn add_whole<L: Ledger>(
        &mut self,
        text: &Looked<'_>,
        negative: bool,
        whole: Run,
        unit: Unit,
        steps: &mut Steps<L>,
    )
        requires whole { IsRun text.now whole }
        requires room { self.old.totals.adds < 2 ^ 63 }
        ensures adds { self.new.totals.adds ≤ self.old.totals.adds + 1 }
        ensures tallied { (counts : List Count) → Tallies self.old counts
            → Tallies self.new
            (counts ++ count_of negative (digits_of text.now whole) [] unit ∷ []) }
        ensures looks { steps.new ≡ steps.old }
    {
        let fraction = Run {
            start: whole.end,
            end: whole.end,
            value: 0,
        };
        let number = Decimal {
            negative,
            whole,
            fraction,
        };
        self.add(text, number, unit, steps);
    }

    /// Notes that a share of this unit has left its part's type.
    fn mark(&mut self, unit: Unit)
        ensures { self.new ≡ marked (main_part unit) self.old }
    {
        match unit {
            Unit::Year | Unit::Month => self.months_fit = false,
            Unit::Week | Unit::Day => self.days_fit = false,
            Unit::Hour | Unit::Minute | Unit::Second => self.micros_fit = false,
        }
    }

    /// The interval of all counts, or the refusal of the first part that doesn't fit.
    pub(crate) fn answer(&self) -> Result<Interval, ParseError>
        ensures { (counts : List Count) → Tallies self.now counts → AnswersCounts counts result }
    {
        // nearly all texts fit: theirs are the only tests that they pay for
        if self.months_fit && self.days_fit && self.micros_fit {
            if let Some((months, days, microseconds)) = self.totals.fits() {
                return Ok(Interval {
                    months,
                    days,
                    microseconds,
                });
            }
        }
        let out = self.totals.first_out();
        if !self.months_fit || out == Some(Part::Months) {
            return Err(ParseError::InvalidYearMonth(
                "Invalid year/month interval overflow detected.",
            ));
        }
        if !self.days_fit || out == Some(Part::Days) {
            return Err(ParseError::InvalidDay("Invalid day interval overflow detected."));
        }
        Err(ParseError::InvalidTime("Invalid time interval overflow detected."))
    }
}
