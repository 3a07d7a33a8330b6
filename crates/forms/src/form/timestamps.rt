//! PostgreSQL's timestamps as a form.
ghost use Rattle.std.specs.Prelude.{◌≡◌, ◌+◌, ◌^◌, ◌≤◌, pos};
ghost use Rattle.arrayvec.specs.ArrayString.{array_string_len};
ghost use Rattle.std.specs.Int.{int_div_euclid, int_rem_euclid};
ghost use Rattle.jiff.specs.Words.{IsWithin};
ghost use Rattle.pg_timestamp.specs.Values.{IsWithinBounds as IsTimestampValue};
ghost use Rattle.forms.specs.declared.form.Form.{Form as AnyForm};
ghost use Rattle.forms.specs.declared.value.Value.{Value as AnyValue};
ghost use Rattle.forms.specs.Forms.{Reads, Writes};
ghost use Rattle.forms.specs.Putting.{Puts};
ghost use Rattle.forms.specs.Values.{IsOfDay, IsWithinBounds};
ghost use Rattle.forms.specs.form.PgTimestamp.{in_nanos, Holds, HoldsMicros, Worth};
ghost use Rattle.forms.specs.inside.PgTimestampParts.{FindsMicros};
ghost use Rattle.forms.specs.inside.Lawful.{Lawful};

use crate::cause::Cause;
use crate::value::Value;
use arrayvec::ArrayString;
use pg_timestamp::{NoValue, Timestamp, Value as TimestampValue};

/// The value of a timestamp.
pub fn read(text: &[u8]) -> Result<Value, Cause>
    ensures { Reads AnyForm.PgTimestamp text.now result }
{
    match pg_timestamp::read(text) {
        Some(timestamp) => value_of(&timestamp),
        None => Err(Cause::Syntax),
    }
}

/// What a timestamp is worth.
fn value_of(timestamp: &Timestamp) -> Result<Value, Cause>
    ensures { Worth timestamp.now result }
{
    match timestamp.value() {
        Ok(value) => Ok(in_nanos(value)),
        Err(NoValue::NoSuchMoment) => Err(Cause::NoSuchMoment),
        Err(NoValue::Range) => Err(Cause::Range),
    }
}

/// The value in nanoseconds.
fn in_nanos(value: TimestampValue) -> Value
    requires { IsTimestampValue value }
    ensures { result ≡ in_nanos value }
{
    match value {
        TimestampValue::Day(day) => Value::Day(day),
        TimestampValue::Local { day, micros } => Value::Local {
            day,
            nanos: (micros * 1000) as i64,
        },
        TimestampValue::Moment(micros) => Value::Instant(micros as i128 * 1000),
    }
}

/// Appends the text of a moment in UTC, of a local date-time or of a day.
pub fn push<const CAP: usize>(value: Value, out: &mut ArrayString<CAP>) -> Result<(), Cause>
    requires within { IsWithinBounds value }
    requires room { array_string_len out.old + 96 ≤ CAP }
    ensures answer { Puts (Writes AnyForm.PgTimestamp value) out.old.bytes out.new.bytes result }
    ensures len { array_string_len out.new ≤ array_string_len out.old + 96 }
{
    match in_micros(value) {
        Ok(value) => {
            value.push_text(out);
            Ok(())
        }
        Err(cause) => Err(cause),
    }
}

/// The value in whole microseconds.
fn in_micros(value: Value) -> Result<TimestampValue, Cause>
    requires { IsWithinBounds value }
    ensures { FindsMicros (Holds value) result }
{
    match value {
        Value::Instant(nanos) => moment_at(nanos),
        Value::Day(day) => whole(TimestampValue::Day(day), 0),
        Value::Local { day, nanos } => local_at(day, nanos),
        _ => Err(Cause::Kind),
    }
}

/// A moment in whole microseconds. One that 64 bits don't hold is out of bounds.
fn moment_at(nanos: i128) -> Result<TimestampValue, Cause>
    requires { IsWithin (10 ^ 22) nanos }
    ensures { FindsMicros (Holds (AnyValue.Instant nanos)) result }
{
    let Ok(micros) = i64::try_from(nanos.div_euclid(1000)) else {
        return Err(Cause::Range);
    };
    whole(TimestampValue::Moment(micros), behind(nanos, micros))
}

/// The nanoseconds behind a whole microsecond.
fn behind(nanos: i128, micros: i64) -> u32
    requires { micros ≡ int_div_euclid nanos (pos 1000) }
    ensures { pos result ≡ int_rem_euclid nanos (pos 1000) }
{
    // The product takes fewer instructions than a second quotient.
    (nanos - micros as i128 * 1000) as u32
}

/// A local date-time in whole microseconds.
fn local_at(day: i32, nanos: i64) -> Result<TimestampValue, Cause>
    requires { IsOfDay nanos }
    ensures { FindsMicros (Holds (AnyValue.Local day nanos)) result }
{
    let nanos = nanos.unsigned_abs();
    let micros = nanos / 1000;
    whole(TimestampValue::Local { day, micros }, (nanos % 1000) as u32)
}

/// The value itself, where it is within the bounds and no nanoseconds are behind it.
fn whole(value: TimestampValue, nanos: u32) -> Result<TimestampValue, Cause>
    ensures { FindsMicros (HoldsMicros value (pos nanos)) result }
{
    if !value.is_within_bounds() {
        return Err(Cause::Range);
    }
    if nanos != 0 {
        return Err(Cause::Precision);
    }
    Ok(value)
}

/// PostgreSQL's timestamps are a lawful form.
pub fn lawful()
    ensures { Lawful AnyForm.PgTimestamp }
{
    pg_timestamp::laws::texts_are_ascii();
    pg_timestamp::laws::a_text_is_one_timestamp();
    pg_timestamp::laws::a_value_has_one_text();
    pg_timestamp::laws::texts_are_read_back();
}
