//! The interval forms, each a style of intervals.
ghost use Rattle.std.specs.Prelude.{◌≡◌, ◌+◌, ◌*◌, ◌<◌, ◌≤◌, List, ℕ, Err, IfOk, length};
ghost use Rattle.arrayvec.specs.ArrayString.{array_string_len};
ghost use Rattle.pg_interval_2.specs.Denotes.{Refuses};
ghost use Rattle.pg_interval_2.specs.Styles.{IsBadPlace, Shape, not_in, style_text};
ghost use Rattle.pg_interval_2.specs.declared.style.Style.{Style as AnyStyle};
ghost use Rattle.forms.specs.Answers.{Is, ReadsBy, WritesBy};
ghost use Rattle.forms.specs.Putting.{Puts};
ghost use Rattle.forms.specs.Values.{IsWithinBounds};
ghost use Rattle.forms.specs.form.Intervals.{FindsInterval, worth, held, interval_of, interval_of_length};
ghost use Rattle.forms.specs.inside.Lawful.{Lawful};
ghost use Rattle.forms.specs.declared.form.Form.{Form as AnyForm};

use crate::cause::Cause;
use crate::value::{NANOSECONDS_A_DAY, Value};
use arrayvec::ArrayString;
use pg_interval_2::{Interval, ParseError, Style};
use scan_core::{Looked, Steps};
use std::sync::ledger::Ledger;

/// The triple that a counted text denotes in the style: of n bytes with at most 2n + 4 looks, and with n at least where it is Ok.
pub fn read_counted<L: Ledger>(
    style: Style,
    text: &Looked<'_>,
    steps: &mut Steps<L>,
) -> Result<Value, Cause>
    ensures read { ReadsBy (Shape style) (Is worth) text.now result }
    ensures most { steps.new ≤ steps.old + (2 * length text.now + 4) }
    ensures least { IfOk result (λ _. steps.old + length text.now ≤ steps.new) }
{
    pg_interval_2::laws::denoted_interval_is_in_range();
    match pg_interval_2::read_counted(style, text, steps) {
        Ok(interval) => Ok(Value::Triple {
            months: interval.months as i64,
            days: interval.days as i64,
            micros: interval.microseconds,
        }),
        Err(error) => Err(cause_of(&error)),
    }
}

/// The interval that a text, which may be no UTF-8, denotes in the style: `read_interval(Style::Iso, b"P1Y1Y")` is 24 months.
///
/// `Syntax` where the text hasn't the style's shape, `Range` where a count's share or a sum leaves its part. It takes no memory.
#[inline(always)]
pub fn read_interval(style: Style, text: &[u8]) -> Result<Interval, Cause>
    ensures { FindsInterval style text.now result }
{
    match pg_interval_2::read(style, &Looked::of_bytes(text)) {
        Ok(interval) => Ok(interval),
        Err(error) => Err(cause_of(&error)),
    }
}

/// The cause of a refusal.
pub fn cause_of(error: &ParseError) -> Cause
    ensures { (style : AnyStyle) (text : List ℕ)
        → Refuses (Shape style) (IsBadPlace style) (not_in style) text error.now
        → FindsInterval style text (Err result) }
{
    if error.is_range() {
        Cause::Range
    } else {
        Cause::Syntax
    }
}

/// Appends the written text of a triple, or of a length in days and microseconds.
pub fn push<const CAP: usize>(
    style: Style,
    value: Value,
    out: &mut ArrayString<CAP>,
) -> Result<(), Cause>
    requires within { IsWithinBounds value }
    requires room { array_string_len out.old + 96 ≤ CAP }
    ensures answer { Puts (WritesBy (Is held) (style_text style) value)
        out.old.bytes out.new.bytes result }
    ensures len { array_string_len out.new ≤ array_string_len out.old + 96 }
{
    match interval_for(value) {
        Ok(interval) => {
            interval.push_text(style, out);
            Ok(())
        }
        Err(cause) => Err(cause),
    }
}

/// The interval of a value.
pub fn interval_for(value: Value) -> Result<Interval, Cause>
    requires { IsWithinBounds value }
    ensures { result ≡ held value }
{
    match value {
        Value::Triple {
            months,
            days,
            micros,
        } => interval_of(months, days, micros),
        Value::Length(nanos) => interval_of_length(nanos),
        _ => Err(Cause::Kind),
    }
}

/// The interval of three parts.
fn interval_of(months: i64, days: i64, micros: i64) -> Result<Interval, Cause>
    ensures { result ≡ interval_of months days micros }
{
    let Ok(months) = i32::try_from(months) else {
        return Err(Cause::Range);
    };
    let Ok(days) = i32::try_from(days) else {
        return Err(Cause::Range);
    };
    Ok(Interval::new(months, days, micros))
}

/// The interval of a length.
fn interval_of_length(nanos: u128) -> Result<Interval, Cause>
    ensures { result ≡ interval_of_length nanos }
{
    let Ok(days) = i32::try_from(nanos / NANOSECONDS_A_DAY) else {
        return Err(Cause::Range);
    };
    if nanos % 1000 != 0 {
        return Err(Cause::Precision);
    }
    Ok(Interval::new(0, days, (nanos % NANOSECONDS_A_DAY / 1000) as i64))
}

/// The interval forms are lawful.
pub fn lawful()
    ensures pg_iso { Lawful AnyForm.PgIso }
    ensures postgres { Lawful AnyForm.Postgres }
    ensures pg_verbose { Lawful AnyForm.PgVerbose }
    ensures pg_sql { Lawful AnyForm.PgSql }
    ensures iso_strict { Lawful AnyForm.IsoStrict }
{
    pg_interval_2::laws::texts_are_of_one_alphabet();
    pg_interval_2::laws::text_has_one_list_of_counts();
    pg_interval_2::laws::denoted_interval_is_in_range();
    pg_interval_2::laws::written_text_is_read_back();
}
