//! The `sql_standard` style: `+1-2 -3 +4:05:06`.
ghost use Rattle.std.specs.Prelude.{◌≡◌, ◌+◌, ◌*◌, ◌<◌, ◌≤◌, ◌++◌, ◌^◌, List, length, option_map, IfSome, IfNone, IfOk, IfErr};
ghost use Rattle.scan_core.specs.Count.{Count};
ghost use Rattle.scan_core.specs.Runs.{IsRun};
ghost use Rattle.pg_interval_2.specs.Denotes.{Denotes, HasNoShape, NoPlace, Refuses};
ghost use Rattle.pg_interval_2.specs.Messages.{not_sql};
ghost use Rattle.pg_interval_2.specs.Sql.{IsSql};
ghost use Rattle.pg_interval_2.specs.inside.Tallies.{IsTallyOf, Tallies};
ghost use Rattle.pg_interval_2.specs.inside.SqlReading.{seconds_counts};
ghost use Rattle.pg_interval_2.specs.inside.SqlViews.{AreDateRuns, AreSecondRuns, AreTimeRuns, Perhaps, perhaps_counts, seen_days, seen_seconds, seen_time, seen_year_month};
ghost use Rattle.pg_interval_2.specs.declared.reading.sql_word.Days.{Days as DayRuns};
ghost use Rattle.pg_interval_2.specs.declared.style.Style.TheVariants.{Sql};
ghost use Rattle.pg_interval_2.specs.Styles.{Answers};

use crate::error::ParseError;
use crate::interval::Interval;
use crate::reading::number::Decimal;
use crate::reading::read;
use crate::reading::sql_word::{Days, Seconds, Time, YearMonth};
use crate::reading::sql_words::{Words, words_of};
use crate::reading::tally::Tally;
use crate::style::Style;
use scan_core::{Looked, Steps, Unit};
use std::sync::ledger::Ledger;

/// Takes the counts of a year-month, if it is there.
#[inline(always)]
fn add_date<L: Ledger>(
    tally: &mut Tally,
    text: &Looked<'_>,
    date: Option<YearMonth>,
    steps: &mut Steps<L>,
)
    requires runs { Perhaps (AreDateRuns text.now) date }
    requires room { tally.old.totals.adds + 2 < 2 ^ 63 }
    ensures adds { tally.new.totals.adds ≤ tally.old.totals.adds + 2 }
    ensures tallied { (counts : List Count) → Tallies tally.old counts
        → Tallies tally.new (counts ++ perhaps_counts (seen_year_month text.now) date) }
    ensures looks { steps.new ≡ steps.old }
{
    if let Some(
        YearMonth {
            negative,
            years,
            months,
        },
    ) = date
    {
        tally.add_whole(text, negative, years, Unit::Year, steps);
        tally.add_whole(text, negative, months, Unit::Month, steps);
    }
}

/// Takes the count of days, if they are there.
#[inline(always)]
fn add_days<L: Ledger>(
    tally: &mut Tally,
    text: &Looked<'_>,
    days: Option<Days>,
    steps: &mut Steps<L>,
)
    requires runs { Perhaps (λ (d : DayRuns). IsRun text.now d.days) days }
    requires room { tally.old.totals.adds < 2 ^ 63 }
    ensures adds { tally.new.totals.adds ≤ tally.old.totals.adds + 1 }
    ensures tallied { (counts : List Count) → Tallies tally.old counts
        → Tallies tally.new (counts ++ perhaps_counts (seen_days text.now) days) }
    ensures looks { steps.new ≡ steps.old }
{
    if let Some(Days { negative, days }) = days {
        tally.add_whole(text, negative, days, Unit::Day, steps);
    }
}

/// Takes the count of seconds, if they are there.
#[inline(always)]
fn add_seconds<L: Ledger>(
    tally: &mut Tally,
    text: &Looked<'_>,
    negative: bool,
    seconds: Option<Seconds>,
    steps: &mut Steps<L>,
)
    requires runs { Perhaps (AreSecondRuns text.now) seconds }
    requires room { tally.old.totals.adds < 2 ^ 63 }
    ensures tallied { (counts : List Count) → Tallies tally.old counts → Tallies tally.new
        (counts ++ seconds_counts negative (option_map (seen_seconds text.now) seconds)) }
    ensures least { steps.old ≤ steps.new }
    ensures most { steps.new ≤ steps.old + length text.now }
{
    if let Some(Seconds { whole, fraction }) = seconds {
        let number = Decimal {
            negative,
            whole,
            fraction,
        };
        tally.add(text, number, Unit::Second, steps);
    }
}

/// Takes the counts of a time, if it is there.
#[inline(always)]
fn add_time<L: Ledger>(
    tally: &mut Tally,
    text: &Looked<'_>,
    time: Option<Time>,
    steps: &mut Steps<L>,
)
    requires runs { Perhaps (AreTimeRuns text.now) time }
    requires room { tally.old.totals.adds + 3 < 2 ^ 63 }
    ensures tallied { (counts : List Count) → Tallies tally.old counts
        → Tallies tally.new (counts ++ perhaps_counts (seen_time text.now) time) }
    ensures least { steps.old ≤ steps.new }
    ensures most { steps.new ≤ steps.old + length text.now }
{
    if let Some(
        Time {
            negative,
            hours,
            minutes,
            seconds,
        },
    ) = time
    {
        tally.add_whole(text, negative, hours, Unit::Hour, steps);
        tally.add_whole(text, negative, minutes, Unit::Minute, steps);
        add_seconds(tally, text, negative, seconds, steps);
    }
}

/// The tally of the counts that the text spells, or None exactly where it has no shape.
#[inline(always)]
fn tally_of<L: Ledger>(text: &Looked<'_>, steps: &mut Steps<L>) -> Option<Tally>
    ensures some { IfSome result (IsTallyOf IsSql text.now) }
    ensures none { IfNone result (HasNoShape IsSql text.now) }
    ensures most { steps.new ≤ steps.old + 2 * length text.now }
    ensures least { IfSome result (λ _. steps.old + length text.now ≤ steps.new) }
{
    let Some(Words { date, days, time }) = words_of(text, steps) else {
        return None;
    };
    let mut tally = Tally::new();
    add_date(&mut tally, text, date, steps);
    add_days(&mut tally, text, days, steps);
    add_time(&mut tally, text, time, steps);
    Some(tally)
}

/// What `Interval::from_sql` answers, with at most two looks a byte, and with one at least where it is Ok.
// a function of its own: where the style is named, `read_counted` is this call alone
#[inline(never)]
pub(crate) fn read_sql<L: Ledger>(
    text: &Looked<'_>,
    steps: &mut Steps<L>,
) -> Result<Interval, ParseError>
    ensures ok { IfOk result (λ t. Denotes IsSql text.now t) }
    ensures err { IfErr result (λ e. Refuses IsSql NoPlace not_sql text.now e) }
    ensures most { steps.new ≤ steps.old + 2 * length text.now }
    ensures least { IfOk result (λ _. steps.old + length text.now ≤ steps.new) }
{
    match tally_of(text, steps) {
        Some(tally) => tally.answer(),
        None => Err(ParseError::InvalidInterval("not a sql interval")),
    }
}

impl Interval {
    /// The interval that the text denotes in `sql_standard` style: `Interval::from_sql("+1-2 -3 +4:05:06")`. It is a
    /// year-month, a time, days and a time, or all three, or `0` with no blanks around it. A sign governs all fields of its
    /// word; in two words a time without a sign takes the minus of the days. Fields have no upper bound.
    ///
    /// `InvalidInterval` exactly where the text isn't in the style, and else `InvalidYearMonth`, `InvalidDay` or
    /// `InvalidTime` exactly where that part of a count, or of the sum of all counts, is the first that leaves its type.
    pub fn from_sql(text: &str) -> Result<Interval, ParseError>
        ensures { Answers Sql text.now result }
    {
        read(Style::Sql, &Looked::new(text))
    }
}
