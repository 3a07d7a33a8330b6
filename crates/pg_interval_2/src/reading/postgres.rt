//! The `postgres` style: `1 year 2 mons 3 days 04:05:06`.
ghost use Rattle.std.specs.Prelude.{◌≡◌, ◌+◌, ◌*◌, ◌<◌, ◌≤◌, ℕ, IfOk, IfErr, length};
ghost use Rattle.pg_interval_2.specs.Denotes.{Denotes, Refuses};
ghost use Rattle.pg_interval_2.specs.Messages.{not_postgres};
ghost use Rattle.pg_interval_2.specs.Postgres.{IsPostgresBadName};
ghost use Rattle.pg_interval_2.specs.inside.PostgresParts.{IsPostgres};
ghost use Rattle.pg_interval_2.specs.declared.style.Style.TheVariants.{Postgres};
ghost use Rattle.pg_interval_2.specs.Styles.{Answers};

use crate::error::ParseError;
use crate::interval::Interval;
use crate::reading::items::read_items;
use crate::reading::read;
use crate::reading::unit_names::NameSet;
use crate::style::Style;
use scan_core::{Looked, Scan, Steps};
use std::sync::ledger::Ledger;

/// What `Interval::from_postgres` answers, with at most two looks a byte, and with one at least where it is Ok.
// a function of its own: where the style is named, `read_counted` is this call alone
#[inline(never)]
pub(crate) fn read_postgres<L: Ledger>(
    text: &Looked<'_>,
    steps: &mut Steps<L>,
) -> Result<Interval, ParseError>
    ensures ok { IfOk result (λ t. Denotes IsPostgres text.now t) }
    ensures err { IfErr result (λ e. Refuses IsPostgres IsPostgresBadName not_postgres text.now e) }
    ensures most { steps.new ≤ steps.old + 2 * length text.now }
    ensures least { IfOk result (λ _. steps.old + length text.now ≤ steps.new) }
{
    let mut scan = Scan::new(text, steps);
    read_items(
        NameSet::Postgres,
        false,
        "not a postgres interval",
        &mut scan,
        steps,
    )
}

impl Interval {
    /// The interval that the text denotes in `postgres` style, PostgreSQL's default:
    /// `Interval::from_postgres("1 year 2 mons 3 days 04:05:06")`. The items are numbers with the names of their units, and
    /// clocks, in any order; no unit is counted twice.
    ///
    /// `BadUnit` exactly where behind a number letters stand that name no unit or one that was counted before, and
    /// `InvalidInterval` exactly where the text isn't in the style for another reason; else `InvalidYearMonth`, `InvalidDay` or
    /// `InvalidTime` exactly where that part of a count, or of the sum of all counts, is the first that leaves its type.
    pub fn from_postgres(text: &str) -> Result<Interval, ParseError>
        ensures { Answers Postgres text.now result }
    {
        read(Style::Postgres, &Looked::new(text))
    }
}
