//! The words of texts in `sql_standard` style, at the front of a scan: `+1-2`, `-3` and `+4:05:06`.
ghost use Rattle.std.specs.Prelude.{◌≡◌, ◌+◌, ◌≤◌, None, Some, IfSome, IfNone, length};
ghost use Rattle.scan_core.specs.Runs.{IsRun, digits_of};
ghost use Rattle.scan_core.specs.Scanning.{ahead, unseen};
ghost use Rattle.pg_interval_2.specs.inside.SqlReading.{read_behind, read_field, read_months, read_seconds, read_sign_or, read_time, read_word};
ghost use Rattle.pg_interval_2.specs.inside.SqlViews.{AreRuns, AreSecondRuns, seen_seconds, seen_word};

use crate::reading::number::fraction;
use crate::reading::words::ends_word;
use scan_core::{Run, Scan, Steps};
use std::sync::ledger::Ledger;

/// Years and months that a scan has passed.
#[derive(Clone, Copy)]
pub(crate) struct YearMonth {
    pub(crate) negative: bool,
    pub(crate) years: Run,
    pub(crate) months: Run,
}

/// Days that a scan has passed.
#[derive(Clone, Copy)]
pub(crate) struct Days {
    pub(crate) negative: bool,
    pub(crate) days: Run,
}

/// Seconds that a scan has passed, with at most six digits behind the point.
#[derive(Clone, Copy)]
pub(crate) struct Seconds {
    pub(crate) whole: Run,
    pub(crate) fraction: Run,
}

/// Hours and minutes that a scan has passed, and perhaps seconds.
#[derive(Clone, Copy)]
pub(crate) struct Time {
    pub(crate) negative: bool,
    pub(crate) hours: Run,
    pub(crate) minutes: Run,
    pub(crate) seconds: Option<Seconds>,
}

/// A word that a scan has passed.
#[derive(Clone, Copy)]
pub(crate) enum Word {
    YearMonth(YearMonth),
    Days(Days),
    Time(Time),
}

/// Whether a minus stands in front, or the default where no sign is there; a sign is passed.
#[inline(always)]
fn sign_or<L: Ledger>(default: bool, scan: &mut Scan<'_>, steps: &mut Steps<L>) -> bool
    ensures read { (result, ahead scan.new) ≡ read_sign_or default (ahead scan.old) }
    ensures same { scan.new.text ≡ scan.old.text }
    ensures onward { length (ahead scan.new) ≤ length (ahead scan.old) }
    ensures ticks { steps.new + unseen (ahead scan.new) ≡ steps.old + unseen (ahead scan.old) }
{
    match scan.peek() {
        Some(b'-') => {
            scan.next(steps);
            true
        }
        Some(b'+') => {
            scan.next(steps);
            false
        }
        _ => default,
    }
}

/// The digits in front, which are passed; None exactly where none is there.
#[inline(always)]
#[tactic(auto, unfolding(crate::specs::inside::SqlReading::read_field))]
fn field<L: Ledger>(scan: &mut Scan<'_>, steps: &mut Steps<L>) -> Option<Run>
    ensures read { IfSome result (λ run.
        Some (digits_of scan.new.text run, ahead scan.new) ≡ read_field (ahead scan.old)) }
    ensures none { IfNone result (None ≡ read_field (ahead scan.old)) }
    ensures run { IfSome result (IsRun scan.new.text) }
    ensures same { scan.new.text ≡ scan.old.text }
    ensures onward { length (ahead scan.new) ≤ length (ahead scan.old) }
    ensures ticks { steps.new + unseen (ahead scan.new) ≡ steps.old + unseen (ahead scan.old) }
{
    let run = scan.digits(steps);
    if run.is_empty() { None } else { Some(run) }
}

/// The seconds behind their colon, which are passed; None exactly where they aren't there.
#[inline(always)]
#[tactic(auto, unfolding(crate::specs::inside::SqlReading::read_seconds))]
fn seconds_behind_colon<L: Ledger>(scan: &mut Scan<'_>, steps: &mut Steps<L>) -> Option<Seconds>
    ensures read { IfSome result (λ seconds.
        Some (seen_seconds scan.new.text seconds, ahead scan.new) ≡ read_seconds (ahead scan.old)) }
    ensures none { IfNone result (None ≡ read_seconds (ahead scan.old)) }
    ensures runs { IfSome result (AreSecondRuns scan.new.text) }
    ensures same { scan.new.text ≡ scan.old.text }
    ensures onward { length (ahead scan.new) ≤ length (ahead scan.old) }
    ensures ticks { steps.new + unseen (ahead scan.new) ≡ steps.old + unseen (ahead scan.old) }
{
    let whole = field(scan, steps)?;
    let fraction = fraction(scan, steps);
    if fraction.end - fraction.start > 6 {
        return None;
    }
    Some(Seconds { whole, fraction })
}

/// The minutes behind the colon of hours, and the seconds if they are there, which are passed.
#[inline(always)]
#[tactic(auto, unfolding(crate::specs::inside::SqlReading::read_time))]
fn time_behind_hours<L: Ledger>(
    negative: bool,
    hours: Run,
    scan: &mut Scan<'_>,
    steps: &mut Steps<L>,
) -> Option<Word>
    requires hours { IsRun scan.old.text hours }
    ensures read { IfSome result (λ word. Some (seen_word scan.new.text word, ahead scan.new)
        ≡ read_time negative (digits_of scan.old.text hours) (ahead scan.old)) }
    ensures none { IfNone result
        (None ≡ read_time negative (digits_of scan.old.text hours) (ahead scan.old)) }
    ensures runs { IfSome result (AreRuns scan.new.text) }
    ensures same { scan.new.text ≡ scan.old.text }
    ensures onward { length (ahead scan.new) ≤ length (ahead scan.old) }
    ensures ticks { steps.new + unseen (ahead scan.new) ≡ steps.old + unseen (ahead scan.old) }
{
    let minutes = field(scan, steps)?;
    let seconds = if scan.next_if(b':', steps) {
        Some(seconds_behind_colon(scan, steps)?)
    } else {
        None
    };
    Some(Word::Time(Time {
        negative,
        hours,
        minutes,
        seconds,
    }))
}

/// The months behind the minus of years, which are passed.
#[inline(always)]
#[tactic(auto, unfolding(crate::specs::inside::SqlReading::read_months))]
fn months_behind_years<L: Ledger>(
    negative: bool,
    years: Run,
    scan: &mut Scan<'_>,
    steps: &mut Steps<L>,
) -> Option<Word>
    requires years { IsRun scan.old.text years }
    ensures read { IfSome result (λ word. Some (seen_word scan.new.text word, ahead scan.new)
        ≡ read_months negative (digits_of scan.old.text years) (ahead scan.old)) }
    ensures none { IfNone result
        (None ≡ read_months negative (digits_of scan.old.text years) (ahead scan.old)) }
    ensures runs { IfSome result (AreRuns scan.new.text) }
    ensures same { scan.new.text ≡ scan.old.text }
    ensures onward { length (ahead scan.new) ≤ length (ahead scan.old) }
    ensures ticks { steps.new + unseen (ahead scan.new) ≡ steps.old + unseen (ahead scan.old) }
{
    let months = field(scan, steps)?;
    Some(Word::YearMonth(YearMonth {
        negative,
        years,
        months,
    }))
}

/// The word whose first digits were passed: the byte behind them tells what it is.
#[inline(always)]
fn word_behind_digits<L: Ledger>(
    negative: bool,
    digits: Run,
    scan: &mut Scan<'_>,
    steps: &mut Steps<L>,
) -> Option<Word>
    requires digits { IsRun scan.old.text digits }
    ensures read { IfSome result (λ word. Some (seen_word scan.new.text word, ahead scan.new)
        ≡ read_behind negative (digits_of scan.old.text digits) (ahead scan.old)) }
    ensures none { IfNone result
        (None ≡ read_behind negative (digits_of scan.old.text digits) (ahead scan.old)) }
    ensures runs { IfSome result (AreRuns scan.new.text) }
    ensures same { scan.new.text ≡ scan.old.text }
    ensures onward { length (ahead scan.new) ≤ length (ahead scan.old) }
    ensures ticks { steps.new + unseen (ahead scan.new) ≡ steps.old + unseen (ahead scan.old) }
{
    match scan.peek() {
        Some(b'-') => {
            scan.next(steps);
            months_behind_years(negative, digits, scan, steps)
        }
        Some(b':') => {
            scan.next(steps);
            time_behind_hours(negative, digits, scan, steps)
        }
        _ => Some(Word::Days(Days {
            negative,
            days: digits,
        })),
    }
}

/// The word in front, which is passed with the blanks behind it; None exactly where none is there. Without a sign it is
/// negative where the default is.
#[inline(always)]
#[tactic(auto, unfolding(crate::specs::inside::SqlReading::read_word))]
pub(crate) fn next_word<L: Ledger>(
    default: bool,
    scan: &mut Scan<'_>,
    steps: &mut Steps<L>,
) -> Option<Word>
    ensures read { IfSome result (λ word. Some (seen_word scan.new.text word, ahead scan.new)
        ≡ read_word default (ahead scan.old)) }
    ensures none { IfNone result (None ≡ read_word default (ahead scan.old)) }
    ensures runs { IfSome result (AreRuns scan.new.text) }
    ensures same { scan.new.text ≡ scan.old.text }
    ensures onward { length (ahead scan.new) ≤ length (ahead scan.old) }
    ensures ticks { steps.new + unseen (ahead scan.new) ≡ steps.old + unseen (ahead scan.old) }
{
    let negative = sign_or(default, scan, steps);
    let digits = field(scan, steps)?;
    let word = word_behind_digits(negative, digits, scan, steps)?;
    if !ends_word(scan) {
        return None;
    }
    scan.blanks(steps);
    Some(word)
}
