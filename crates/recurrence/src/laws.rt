//! Laws of instants, series and replies.
ghost use Rattle.std.specs.Prelude.{◌≡◌, ◌+◌, ◌≤◌, ℕ, List, ℤ, pos, ◌+ℤ◌, ◌*ℤ◌, slice_get, Option as AnyOption, Some};
ghost use Rattle.pg_interval_2.specs.declared.interval.Interval.{Interval as AnyInterval};
ghost use Rattle.recurrence.specs.Instants.{held_day, IsAt, IsCivilInstant, IsMonthLater, IsOnDate, nanos_of};
ghost use Rattle.recurrence.specs.Series.{IsSeries};
ghost use Rattle.forms.specs.Lines.{lines};
ghost use Rattle.recurrence.specs.Replies.{AreReplies, IsReply};
ghost use Rattle.recurrence.specs.inside.Answers.{IsFine, RepliesBy};
ghost use Rattle.recurrence.specs.inside.OneReply.{AreOne};

use crate::answer::{Answer, answer_to};
use crate::instant::civil_dates_are_calendar_dates;
use crate::series::Series;
use whole_input::first_line;

/// A step leads so many times to one instant, or to none.
pub fn a_step_leads_to_one_instant()
    ensures { (start : ℤ) (step : AnyInterval) (k : ℕ) (a b : AnyOption ℤ)
        → IsAt start step k a → IsAt start step k b → a ≡ b }
{
    civil_dates_are_calendar_dates();
}

/// Each instant of a series is so many steps from the start as instants stand before it.
pub fn instants_are_at_their_places()
    ensures { (start : ℤ) (step : AnyInterval) (last : ℕ) (instants : List ℤ) (stop : AnyOption ℕ)
        → IsSeries start step last instants stop
        → (k : ℕ) (instant : ℤ) → slice_get instants k ≡ Some instant
        → IsAt start step k (Some instant) }
{}

/// A start, a step and a number of steps have one series.
pub fn a_start_has_one_series()
    ensures { (start : ℤ) (step : AnyInterval) (last : ℕ) (xs ys : List ℤ) (a b : AnyOption ℕ)
        → IsSeries start step last xs a → IsSeries start step last ys b → (xs ≡ ys) × (a ≡ b) }
{
    civil_dates_are_calendar_dates();
}

/// A step of zero repeats the start.
pub fn a_step_of_zero_repeats()
    ensures { (start : ℤ) (step : AnyInterval) (k : ℕ)
        → step.months ≡ pos 0 → step.days ≡ pos 0 → step.microseconds ≡ pos 0
        → IsCivilInstant start → IsAt start step k (Some start) }
{
    civil_dates_are_calendar_dates();
}

/// A step without months is even: from each instant to the next are its days and its time, and from the start k times as much.
pub fn a_step_without_months_is_even()
    ensures even { (start : ℤ) (step : AnyInterval) (k : ℕ) (a b : ℤ) → step.months ≡ pos 0
        → IsAt start step k (Some a) → IsAt start step (k + 1) (Some b)
        → b ≡ a +ℤ (step.days *ℤ pos 86_400_000_000_000 +ℤ step.microseconds *ℤ pos 1000) }
    ensures from { (start : ℤ) (step : AnyInterval) (k : ℕ) (instant : ℤ) → step.months ≡ pos 0
        → IsAt start step k (Some instant) → instant ≡ start +ℤ nanos_of step k }
{}

/// A step of months alone keeps the time of day, and the day of the month wherever the month has it; else it is the month's last.
pub fn a_step_of_months_keeps_the_day_of_the_month()
    ensures { (start : ℤ) (step : AnyInterval) (k : ℕ) (instant : ℤ) (year later_year : ℤ)
        (month day nanos later_month later_day later_nanos : ℕ)
        → step.days ≡ pos 0 → step.microseconds ≡ pos 0
        → IsAt start step k (Some instant)
        → IsOnDate start year month day nanos
        → IsOnDate instant later_year later_month later_day later_nanos
        → IsMonthLater (pos k *ℤ step.months) year month later_year later_month
        × (later_day ≡ held_day later_year later_month day) × (later_nanos ≡ nanos) }
{
    civil_dates_are_calendar_dates();
}

/// What the replies are made of is one: a text's reading, a value's writing, a text's interval, and the instant a step leads to.
fn parts_are_one()
    ensures { AreOne }
{
    forms::laws::texts_have_one_reading();
    forms::laws::values_have_one_writing();
    forms::laws::texts_have_one_interval_or_cause();
    civil_dates_are_calendar_dates();
}

/// A line has exactly one reply. That there is one is shown by answering the line.
pub fn a_line_has_one_reply(line: &[u8])
    ensures some { (out : List ℕ) × IsReply out line.now }
    ensures alone { (a b : List ℕ) → IsReply a line.now → IsReply b line.now → a ≡ b }
{
    parts_are_one();
    answered(answer_to(line));
}

/// An answer has a reply.
fn answered(answer: Answer)
    requires { IsFine answer }
    ensures { (out : List ℕ) × RepliesBy answer out }
{
    civil_dates_are_calendar_dates();
    match answer {
        Answer::Refused(_) => {}
        Answer::Instants { start, step, last } => {
            let _ = Series::new(start, step, last);
        }
    }
}

/// Lines have exactly one output, the replies to all of them. That there is one is shown by answering them.
pub fn lines_have_one_output(text: &[u8])
    ensures some { (out : List ℕ) × AreReplies (lines text.now) out }
    ensures alone { (a b : List ℕ) → AreReplies (lines text.now) a → AreReplies (lines text.now) b
        → a ≡ b }
{
    parts_are_one();
    let mut rest = text;
    while let Some((line, after)) = first_line(rest) {
        a_line_has_one_reply(line);
        rest = after;
    }
}
