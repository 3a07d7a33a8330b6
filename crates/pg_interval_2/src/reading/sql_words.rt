//! The words of a whole text in `sql_standard` style: a year-month, a time, days and a time, all three, or a zero alone.
ghost use Rattle.std.specs.Prelude.{◌≡◌, ◌+◌, ◌≤◌, ◌++◌, [], List, None, Some, length, option_and_then, IfSome, IfNone};
ghost use Rattle.scan_core.specs.Count.{Count};
ghost use Rattle.scan_core.specs.Runs.{IsRun, digits_of};
ghost use Rattle.scan_core.specs.Scanning.{ahead, unseen};
ghost use Rattle.pg_interval_2.specs.inside.SqlReading.{behind_date, behind_days, last_time, read_sql, read_word, word_counts};
ghost use Rattle.pg_interval_2.specs.inside.SqlViews.{AreDateRuns, AreTextRuns, AreTimeRuns, seen_time, seen_year_month, text_counts};

use crate::reading::sql_word::{Days, Time, Word, YearMonth, next_word};
use scan_core::{Looked, Scan, Steps};
use std::sync::ledger::Ledger;

/// The words of a whole text, none of which need be there.
#[derive(Clone, Copy)]
pub(crate) struct Words {
    pub(crate) date: Option<YearMonth>,
    pub(crate) days: Option<Days>,
    pub(crate) time: Option<Time>,
}

/// The time in front, which ends the text; None exactly where no such time is there.
#[inline(always)]
fn time_at_end<L: Ledger>(default: bool, scan: &mut Scan<'_>, steps: &mut Steps<L>) -> Option<Time>
    ensures read { IfSome result (λ time. (before : List Count)
        → option_and_then (last_time before) (read_word default (ahead scan.old))
        ≡ Some (before ++ word_counts (seen_time scan.new.text time))) }
    ensures none { IfNone result ((before : List Count)
        → option_and_then (last_time before) (read_word default (ahead scan.old)) ≡ None) }
    ensures runs { IfSome result (AreTimeRuns scan.new.text) }
    ensures done { IfSome result (λ _. ahead scan.new ≡ []) }
    ensures same { scan.new.text ≡ scan.old.text }
    ensures onward { length (ahead scan.new) ≤ length (ahead scan.old) }
    ensures ticks { steps.new + unseen (ahead scan.new) ≡ steps.old + unseen (ahead scan.old) }
{
    match next_word(default, scan, steps)? {
        Word::Time(time) if scan.is_done() => Some(time),
        _ => None,
    }
}

/// The words behind a year-month that begins the text: none, or days and a time.
#[inline(always)]
#[tactic(auto, unfolding(crate::specs::inside::SqlReading::behind_date))]
fn words_behind_date<L: Ledger>(
    date: YearMonth,
    scan: &mut Scan<'_>,
    steps: &mut Steps<L>,
) -> Option<Words>
    requires runs { AreDateRuns scan.old.text date }
    ensures read { IfSome result (λ words. Some (text_counts scan.new.text words)
        ≡ behind_date (word_counts (seen_year_month scan.old.text date)) (ahead scan.old)) }
    ensures none { IfNone result (None
        ≡ behind_date (word_counts (seen_year_month scan.old.text date)) (ahead scan.old)) }
    ensures runs { IfSome result (AreTextRuns scan.new.text) }
    ensures done { IfSome result (λ _. ahead scan.new ≡ []) }
    ensures same { scan.new.text ≡ scan.old.text }
    ensures onward { length (ahead scan.new) ≤ length (ahead scan.old) }
    ensures ticks { steps.new + unseen (ahead scan.new) ≡ steps.old + unseen (ahead scan.old) }
{
    let date = Some(date);
    if scan.is_done() {
        return Some(Words {
            date,
            days: None,
            time: None,
        });
    }
    let Word::Days(days) = next_word(false, scan, steps)? else {
        return None;
    };
    let time = time_at_end(false, scan, steps)?;
    Some(Words {
        date,
        days: Some(days),
        time: Some(time),
    })
}

/// The words behind days that begin the text: a time, or none where the text is `0`, which has no counts.
#[inline(always)]
#[tactic(auto, unfolding(crate::specs::inside::SqlReading::behind_days))]
fn words_behind_days<L: Ledger>(
    days: Days,
    scan: &mut Scan<'_>,
    steps: &mut Steps<L>,
) -> Option<Words>
    requires runs { IsRun scan.old.text days.days }
    ensures read { IfSome result (λ words. Some (text_counts scan.new.text words)
        ≡ behind_days scan.old.text days.negative
        (digits_of scan.old.text days.days) (ahead scan.old)) }
    ensures none { IfNone result (None
        ≡ behind_days scan.old.text days.negative
        (digits_of scan.old.text days.days) (ahead scan.old)) }
    ensures runs { IfSome result (AreTextRuns scan.new.text) }
    ensures done { IfSome result (λ _. ahead scan.new ≡ []) }
    ensures same { scan.new.text ≡ scan.old.text }
    ensures onward { length (ahead scan.new) ≤ length (ahead scan.old) }
    ensures ticks { steps.new + unseen (ahead scan.new) ≡ steps.old + unseen (ahead scan.old) }
{
    if scan.is_done() {
        let zero = scan.text().len() == 1 && days.days.value == 0;
        return if zero {
            Some(Words {
                date: None,
                days: None,
                time: None,
            })
        } else {
            None
        };
    }
    let time = time_at_end(days.negative, scan, steps)?;
    Some(Words {
        date: None,
        days: Some(days),
        time: Some(time),
    })
}

/// The words of the text, or None exactly where it has no shape.
#[inline(always)]
#[tactic(auto, unfolding(crate::specs::inside::SqlReading::read_sql))]
pub(crate) fn words_of<L: Ledger>(text: &Looked<'_>, steps: &mut Steps<L>) -> Option<Words>
    ensures read { IfSome result (λ words. Some (text_counts text.now words) ≡ read_sql text.now) }
    ensures none { IfNone result (None ≡ read_sql text.now) }
    ensures runs { IfSome result (AreTextRuns text.now) }
    ensures most { steps.new ≤ steps.old + length text.now }
    ensures least { IfSome result (λ _. steps.old + length text.now ≤ steps.new) }
{
    let mut scan = Scan::new(text, steps);
    scan.blanks(steps);
    match next_word(false, &mut scan, steps)? {
        Word::YearMonth(date) => words_behind_date(date, &mut scan, steps),
        Word::Days(days) => words_behind_days(days, &mut scan, steps),
        Word::Time(time) if scan.is_done() => Some(Words {
            date: None,
            days: None,
            time: Some(time),
        }),
        Word::Time(_) => None,
    }
}
