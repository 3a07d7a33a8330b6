//! The readers of all styles over counted texts.
ghost use Rattle.std.specs.Prelude.{◌≡◌, ◌+◌, ◌*◌, ◌<◌, ◌≤◌, IfOk, IfErr, length};
ghost use Rattle.pg_interval_2.specs.Denotes.{Denotes, Refuses};
ghost use Rattle.pg_interval_2.specs.Styles.{Answers, IsBadPlace, Shape, not_in};

mod ago;
mod clock;
mod distinct_tally;
mod iso;
mod iso_strict;
mod items;
mod number;
mod order;
mod postgres;
mod sql;
mod sql_word;
mod sql_words;
mod tally;
mod unit_names;
mod units;
mod verbose;
mod words;

use crate::error::ParseError;
use crate::interval::Interval;
use crate::reading::iso::read_iso;
use crate::reading::iso_strict::read_iso_strict;
use crate::reading::postgres::read_postgres;
use crate::reading::sql::read_sql;
use crate::reading::verbose::read_verbose;
use crate::style::Style;
use scan_core::{Looked, Steps};
use std::marker::Brand;
use std::sync::ledger::{Blank, Ledger};

/// The interval that the text denotes in the style, as the style's own reader answers it: `Interval::from_iso` of
/// `Style::Iso` and so on. Every byte that it reads is a look that `steps` counts. It takes no memory.
///
/// Of a text of n bytes it looks at most 2n + 4 times: once at each byte, once more at the digits of a fraction of more than
/// twelve, and four times at the end. Where it answers an interval, it has looked at each byte.
// inlined, so that no switch is left where the caller names the style
#[inline(always)]
pub fn read_counted<L: Ledger>(
    style: Style,
    text: &Looked<'_>,
    steps: &mut Steps<L>,
) -> Result<Interval, ParseError>
    ensures answers { Answers style text.now result }
    ensures most { steps.new ≤ steps.old + (2 * length text.now + 4) }
    ensures least { IfOk result (λ _. steps.old + length text.now ≤ steps.new) }
{
    read_style(style, text, steps)
}

/// The answer of the style's reader.
#[inline(always)]
fn read_style<L: Ledger>(
    style: Style,
    text: &Looked<'_>,
    steps: &mut Steps<L>,
) -> Result<Interval, ParseError>
    ensures ok { IfOk result (λ t. Denotes (Shape style) text.now t) }
    ensures err { IfErr result
        (λ e. Refuses (Shape style) (IsBadPlace style) (not_in style) text.now e) }
    ensures most { steps.new ≤ steps.old + (2 * length text.now + 4) }
    ensures least { IfOk result (λ _. steps.old + length text.now ≤ steps.new) }
{
    match style {
        Style::Iso => read_iso(text, steps),
        Style::Postgres => read_postgres(text, steps),
        Style::Verbose => read_verbose(text, steps),
        Style::Sql => read_sql(text, steps),
        Style::IsoStrict => read_iso_strict(text, steps),
    }
}

/// What [`read_counted`] answers, with a counter of its own: `read(Style::Iso, &Looked::new("P1D"))` is the interval of a day.
#[inline(always)]
pub fn read(style: Style, text: &Looked<'_>) -> Result<Interval, ParseError>
    ensures answers { Answers style text.now result }
{
    read_alone::<Brand>(style, text, Blank::new(1))
}

/// The same with the counter's ledger.
#[inline(always)]
fn read_alone<L: Ledger>(
    style: Style,
    text: &Looked<'_>,
    blank: Blank,
) -> Result<Interval, ParseError>
    requires name { blank.name ≡ L.name }
    requires parts { blank.parts ≡ L.parts }
    requires some { 0 < L.parts }
    ensures { Answers style text.now result }
{
    read_counted(style, text, &mut Steps::<L>::new(blank))
}
