//! The strict ISO style, `P1Y2M3W4DT5H6M7S`: texts in ISO style whose units stand in one order.
ghost use Rattle.std.specs.Prelude.{◌≡◌, ◌+◌, ◌*◌, ◌≤◌, length, IfOk, IfErr};
ghost use Rattle.pg_interval_2.specs.Denotes.{Denotes, NoPlace, Refuses};
ghost use Rattle.pg_interval_2.specs.IsoStrict.{IsIsoStrict};
ghost use Rattle.pg_interval_2.specs.inside.IsoShapes.{IsStrictEither};
ghost use Rattle.pg_interval_2.specs.Messages.{not_iso_strict};
ghost use Rattle.pg_interval_2.specs.declared.style.Style.TheVariants.{IsoStrict};
ghost use Rattle.pg_interval_2.specs.Styles.{Answers};

use crate::error::ParseError;
use crate::interval::Interval;
use crate::reading::iso::read_either;
use crate::reading::read;
use crate::style::Style;
use scan_core::{Looked, Steps};
use std::sync::ledger::Ledger;

/// What `Interval::from_iso_strict` answers, with at most two looks a byte, and with one at least where it is Ok.
#[inline(always)]
pub(crate) fn read_iso_strict<L: Ledger>(
    text: &Looked<'_>,
    steps: &mut Steps<L>,
) -> Result<Interval, ParseError>
    ensures ok { IfOk result (λ t. Denotes IsStrictEither text.now t) }
    ensures err { IfErr result (λ e. Refuses IsStrictEither NoPlace not_iso_strict text.now e) }
    ensures most { steps.new ≤ steps.old + 2 * length text.now }
    ensures least { IfOk result (λ _. steps.old + length text.now ≤ steps.new) }
{
    read_either(true, text, steps)
}

impl Interval {
    /// The interval that the text denotes in strict ISO style, `Interval::from_iso_strict("P1Y2M3W4DT5H6M7S")`: as
    /// `Interval::from_iso` reads it, with the letters `Y`, `M`, `W` and `D` before the `T` and `H`, `M` and `S` behind it, in
    /// this order, each at most once, and at least one of them, and one behind a `T`. Each number may have a minus and a fraction.
    ///
    /// `InvalidInterval` exactly where the text isn't in the style, and else `InvalidYearMonth`, `InvalidDay` or
    /// `InvalidTime` exactly where that part of a count, or of the sum of all counts, is the first that leaves its type.
    pub fn from_iso_strict(text: &str) -> Result<Interval, ParseError>
        ensures { Answers IsoStrict text.now result }
    {
        read(Style::IsoStrict, &Looked::new(text))
    }
}
