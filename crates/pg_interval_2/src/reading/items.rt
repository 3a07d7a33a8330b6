//! The items of a text of the word styles, one after the other, with blanks between.
ghost use Rattle.std.specs.Prelude.{◌≡◌, ◌<◌, ◌^◌, [], Ok, IfOk, IfErr, length};
ghost use Rattle.scan_core.specs.Scanning.{Spends, ahead};
ghost use Rattle.pg_interval_2.specs.inside.ItemsTally.{AnswersItems, IsItemsTally, IsMisread, RefusesItems};
ghost use Rattle.pg_interval_2.specs.inside.NameSets.{names_in};

use crate::error::ParseError;
use crate::interval::Interval;
use crate::reading::distinct_tally::{DistinctTally, Step};
use crate::reading::tally::Tally;
use crate::reading::unit_names::NameSet;
use scan_core::{Scan, Steps};
use std::sync::ledger::Ledger;

/// Why what a scan had in front is no items.
#[derive(Clone, Copy)]
enum Misread {
    /// Something else stands there.
    NoItems,
    /// Behind a number, from `start` up to `end` in the text, letters stand that name no unit or one that was counted
    /// before.
    BadName { start: usize, end: usize },
}

/// The interval of all items in front, up to the end; each count is turned first where `turned`. `InvalidInterval` says
/// `not_items` where something else stands there.
// One copy for both styles: of two, neither would have its items and their tally inlined, and so in registers. It answers the
// interval, as the tally is larger and would be copied to the caller.
#[inline(never)]
pub(crate) fn read_items<L: Ledger>(
    names: NameSet,
    turned: bool,
    not_items: &'static str,
    scan: &mut Scan<'_>,
    steps: &mut Steps<L>,
) -> Result<Interval, ParseError>
    requires { length scan.old.text < 2 ^ 63 }
    ensures ok { IfOk result (λ t. AnswersItems (names_in names) turned (ahead scan.old) (Ok t)) }
    ensures err { IfErr result
        (RefusesItems (names_in names) turned not_items.now scan.old.at (ahead scan.old)) }
    ensures done { IfOk result (λ _. ahead scan.new ≡ []) }
    ensures same { scan.new.text ≡ scan.old.text }
    ensures spends { Spends steps.old (ahead scan.old) steps.new (ahead scan.new) }
{
    // scanned on a copy, whose place stays in registers from item to item
    let mut here = scan.here();
    let tally = tally_ahead(names, turned, &mut here, steps);
    *scan = here;
    match tally {
        Ok(tally) => tally.answer(),
        Err(Misread::BadName { start, end }) => Err(ParseError::BadUnit { start, end }),
        Err(Misread::NoItems) => Err(ParseError::InvalidInterval(not_items)),
    }
}

/// The tally of the counts of all items in front, up to the end; each count is turned first where `turned`.
#[inline(always)]
fn tally_ahead<L: Ledger>(
    names: NameSet,
    turned: bool,
    scan: &mut Scan<'_>,
    steps: &mut Steps<L>,
) -> Result<Tally, Misread>
    requires { length scan.old.text < 2 ^ 63 }
    ensures ok { IfOk result (IsItemsTally (names_in names) turned (ahead scan.old)) }
    ensures err { IfErr result (IsMisread (names_in names) scan.old.at (ahead scan.old)) }
    ensures done { IfOk result (λ _. ahead scan.new ≡ []) }
    ensures same { scan.new.text ≡ scan.old.text }
    ensures spends { Spends steps.old (ahead scan.old) steps.new (ahead scan.new) }
{
    let mut counted = DistinctTally::new();
    scan.blanks(steps);
    while !scan.is_done() {
        match counted.take_item(names, turned, scan, steps) {
            Step::Taken => scan.blanks(steps),
            Step::BadName(word) => {
                return Err(Misread::BadName {
                    start: word.start,
                    end: word.end,
                });
            }
            Step::NoItem => return Err(Misread::NoItems),
        }
    }
    Ok(counted.tally)
}
