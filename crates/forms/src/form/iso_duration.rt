//! Durations of ISO 8601 as a form.
ghost use Rattle.std.specs.Prelude.{◌≡◌, ◌+◌, ◌*◌, ◌/◌, ◌^◌, ◌<◌, ◌≤◌, IfOk, length};
ghost use Rattle.arrayvec.specs.ArrayString.{array_string_len};
ghost use Rattle.forms.specs.declared.form.Form.{Form as AnyForm};
ghost use Rattle.forms.specs.Forms.{Reads, Writes};
ghost use Rattle.forms.specs.Putting.{Puts};
ghost use Rattle.forms.specs.Values.{IsWithinBounds};
ghost use Rattle.forms.specs.form.IsoDuration.{triple_of, worth, duration_of, counts_of, held_triple, held_length, held};
ghost use Rattle.forms.specs.inside.IsoParts.{micros_of};
ghost use Rattle.forms.specs.inside.Lawful.{Lawful};

use crate::cause::Cause;
use crate::value::{NANOSECONDS_A_DAY, Value};
use arrayvec::ArrayString;
use iso8601::{Duration, duration_counted};
use scan_core::{Looked, Steps};
use std::sync::ledger::Ledger;

/// The triple of a duration in a counted text: of n bytes with at most 2n looks, and with n at least where it is Ok.
pub fn read_counted<L: Ledger>(text: &Looked<'_>, steps: &mut Steps<L>) -> Result<Value, Cause>
    ensures read { Reads AnyForm.IsoDuration text.now result }
    ensures most { steps.new ≤ steps.old + 2 * length text.now }
    ensures least { IfOk result (λ _. steps.old + length text.now ≤ steps.new) }
{
    match duration_counted(text, steps) {
        Ok(duration) => value_of(duration),
        Err(_) => Err(Cause::Syntax),
    }
}

/// The triple of a duration.
fn value_of(duration: Duration) -> Result<Value, Cause>
    ensures { result ≡ worth duration }
{
    match duration {
        Duration::YMDHMS {
            year,
            month,
            day,
            hour,
            minute,
            second,
            millisecond,
        } => triple_of(
            12 * year as u64 + month as u64,
            day as u64,
            micros_of(hour, minute, second, millisecond),
        ),
        Duration::Weeks(weeks) => triple_of(0, 7 * weeks as u64, 0),
    }
}

/// The microseconds of a time.
fn micros_of(hour: u32, minute: u32, second: u32, millisecond: u32) -> u64
    ensures { result ≡ micros_of hour minute second millisecond }
{
    let seconds = (hour as u64 * 60 + minute as u64) * 60 + second as u64;
    seconds * 1_000_000 + millisecond as u64 * 1000
}

/// The triple of these parts.
fn triple_of(months: u64, days: u64, micros: u64) -> Result<Value, Cause>
    requires months { months < 2 ^ 63 }
    requires days { days < 2 ^ 63 }
    ensures { result ≡ triple_of months days micros }
{
    if micros > i64::MAX as u64 {
        return Err(Cause::Range);
    }
    Ok(Value::Triple {
        months: months as i64,
        days: days as i64,
        micros: micros as i64,
    })
}

/// Appends the written text of a triple, or of a length in days and a time.
pub fn push<const CAP: usize>(value: Value, out: &mut ArrayString<CAP>) -> Result<(), Cause>
    requires within { IsWithinBounds value }
    requires room { array_string_len out.old + 96 ≤ CAP }
    ensures answer { Puts (Writes AnyForm.IsoDuration value) out.old.bytes out.new.bytes result }
    ensures len { array_string_len out.new ≤ array_string_len out.old + 96 }
{
    match duration_for(value) {
        Ok(duration) => {
            duration.push_text(out);
            Ok(())
        }
        Err(cause) => Err(cause),
    }
}

/// The duration of a value.
fn duration_for(value: Value) -> Result<Duration, Cause>
    requires { IsWithinBounds value }
    ensures { result ≡ held value }
{
    match value {
        Value::Triple {
            months,
            days,
            micros,
        } => held_triple(months, days, micros),
        Value::Length(nanos) => held_length(nanos),
        _ => Err(Cause::Kind),
    }
}

/// The duration of a triple.
fn held_triple(months: i64, days: i64, micros: i64) -> Result<Duration, Cause>
    ensures { result ≡ held_triple months days micros }
{
    if months < 0 {
        return Err(Cause::Range);
    }
    if days < 0 {
        return Err(Cause::Range);
    }
    if micros < 0 {
        return Err(Cause::Range);
    }
    counts_of(
        months.unsigned_abs(),
        days.unsigned_abs(),
        micros.unsigned_abs(),
    )
}

/// The duration of months, days and microseconds.
fn counts_of(months: u64, days: u64, micros: u64) -> Result<Duration, Cause>
    ensures { result ≡ counts_of months days micros }
{
    let most = u32::MAX as u64;
    if months / 12 > most {
        return Err(Cause::Range);
    }
    if days > most {
        return Err(Cause::Range);
    }
    if micros / 3_600_000_000 > most {
        return Err(Cause::Range);
    }
    if micros % 1000 != 0 {
        return Err(Cause::Precision);
    }
    Ok(duration_of(months, days as u32, micros / 1000))
}

/// The duration of a length.
fn held_length(nanos: u128) -> Result<Duration, Cause>
    ensures { result ≡ held_length nanos }
{
    let days = nanos / NANOSECONDS_A_DAY;
    if days > u32::MAX as u128 {
        return Err(Cause::Range);
    }
    if nanos % 1_000_000 != 0 {
        return Err(Cause::Precision);
    }
    let millis = (nanos % NANOSECONDS_A_DAY / 1_000_000) as u64;
    Ok(duration_of(0, days as u32, millis))
}

/// Years and months, days, and the parts of a time.
fn duration_of(months: u64, days: u32, millis: u64) -> Duration
    requires years { months / 12 < 2 ^ 32 }
    requires hours { millis / 3_600_000 < 2 ^ 32 }
    ensures { result ≡ duration_of months days millis }
{
    Duration::YMDHMS {
        year: (months / 12) as u32,
        month: (months % 12) as u32,
        day: days,
        hour: (millis / 3_600_000) as u32,
        minute: (millis / 60_000 % 60) as u32,
        second: (millis / 1000 % 60) as u32,
        millisecond: (millis % 1000) as u32,
    }
}

/// Durations of ISO 8601 are a lawful form.
pub fn lawful()
    ensures { Lawful AnyForm.IsoDuration }
{
    iso8601::laws::texts_are_ascii();
    iso8601::laws::a_text_has_one_value();
    iso8601::laws::a_written_text_spells_its_value();
}
