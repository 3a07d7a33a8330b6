//! Short durations as a form.
ghost use Rattle.std.specs.Prelude.{◌≡◌, ◌+◌, ◌*◌, ◌^◌, ◌<◌, ◌≤◌, IfOk};
ghost use Rattle.std.specs.Duration.{as_nanos};
ghost use Rattle.arrayvec.specs.ArrayString.{array_string_len};
ghost use Rattle.forms.specs.declared.form.Form.{Form as AnyForm};
ghost use Rattle.forms.specs.Forms.{Reads, Writes};
ghost use Rattle.forms.specs.Putting.{Puts};
ghost use Rattle.forms.specs.Values.{IsWithinBounds, nanos_of};
ghost use Rattle.forms.specs.form.Fancy.{held, length_of};
ghost use Rattle.forms.specs.inside.FancyParts.{length_of_triple};
ghost use Rattle.forms.specs.inside.Lawful.{Lawful};

use crate::cause::Cause;
use crate::value::{NANOSECONDS_A_SECOND, Value};
use arrayvec::ArrayString;
use fancy_duration::{FancyDuration, StrictError};
use std::time::Duration;

/// Nanoseconds of 2^64 seconds: no duration is as long.
const TOO_LONG: u128 = 18_446_744_073_709_551_616_000_000_000;

/// The length of a strict text.
pub fn read(text: &[u8]) -> Result<Value, Cause>
    ensures { Reads AnyForm.Fancy text.now result }
{
    fancy_duration::laws::strict_texts_spell_their_sums();
    match fancy_duration::strict_to_ns(text) {
        Ok((seconds, nanos)) => Ok(Value::Length(
            seconds as u128 * NANOSECONDS_A_SECOND + nanos as u128,
        )),
        Err(StrictError::NotStrict) => Err(Cause::Syntax),
        Err(StrictError::TooBig) => Err(Cause::Range),
    }
}

/// Appends the written text of a length, or of a triple without months.
pub fn push<const CAP: usize>(value: Value, out: &mut ArrayString<CAP>) -> Result<(), Cause>
    requires within { IsWithinBounds value }
    requires room { array_string_len out.old + 96 ≤ CAP }
    ensures answer { Puts (Writes AnyForm.Fancy value) out.old.bytes out.new.bytes result }
    ensures len { array_string_len out.new ≤ array_string_len out.old + 96 }
{
    match length_for(value) {
        Ok(nanos) => {
            duration(nanos).push_text(out);
            Ok(())
        }
        Err(cause) => Err(cause),
    }
}

/// The length of a value.
fn length_for(value: Value) -> Result<u128, Cause>
    requires { IsWithinBounds value }
    ensures held { result ≡ held value }
    ensures fits { IfOk result (λ nanos. nanos < 2 ^ 64 * 1_000_000_000) }
{
    match value {
        Value::Length(nanos) => length_of(nanos as i128),
        Value::Triple {
            months,
            days,
            micros,
        } => length_of_triple(months, days, micros),
        _ => Err(Cause::Kind),
    }
}

/// The length of a triple.
fn length_of_triple(months: i64, days: i64, micros: i64) -> Result<u128, Cause>
    ensures held { result ≡ length_of_triple months days micros }
    ensures fits { IfOk result (λ nanos. nanos < 2 ^ 64 * 1_000_000_000) }
{
    if months == 0 {
        length_of(nanos_of(days, micros))
    } else {
        Err(Cause::Kind)
    }
}

/// The nanoseconds of days and microseconds.
fn nanos_of(days: i64, micros: i64) -> i128
    ensures { result ≡ nanos_of days micros }
{
    (days as i128 * 86_400_000_000 + micros as i128) * 1000
}

/// A length whose text is read back.
fn length_of(nanos: i128) -> Result<u128, Cause>
    ensures held { result ≡ length_of nanos }
    ensures fits { IfOk result (λ length. length < 2 ^ 64 * 1_000_000_000) }
{
    let Ok(length) = u128::try_from(nanos) else {
        return Err(Cause::Range);
    };
    if length >= TOO_LONG {
        return Err(Cause::Range);
    }
    if duration(length).reads_back() {
        Ok(length)
    } else {
        Err(Cause::Ambiguous)
    }
}

/// The short duration of a length.
fn duration(nanos: u128) -> FancyDuration<Duration>
    requires { nanos < 2 ^ 64 * 1_000_000_000 }
    ensures { as_nanos result.0 ≡ nanos }
{
    // Nearly all lengths have 64 bits, and dividing 128 takes some ten times as long.
    match u64::try_from(nanos) {
        Ok(nanos) => FancyDuration(Duration::from_nanos(nanos)),
        Err(_) => FancyDuration(Duration::from_nanos_u128(nanos)),
    }
}

/// Short durations are a lawful form.
pub fn lawful()
    ensures { Lawful AnyForm.Fancy }
{
    fancy_duration::laws::texts_are_ascii();
    fancy_duration::laws::texts_have_one_sum();
    fancy_duration::laws::strict_texts_spell_their_sums();
    fancy_duration::laws::written_texts_are_strict();
    fancy_duration::laws::written_texts_are_read_back();
}
