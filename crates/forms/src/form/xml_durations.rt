//! Durations of XML Schema as a form.
ghost use Rattle.std.specs.Prelude.{◌≡◌, ◌+◌, ◌≤◌, IfOk, IsTrue};
ghost use Rattle.arrayvec.specs.ArrayString.{array_string_len};
ghost use Rattle.xsd_duration.specs.Written.{has_one_sign};
ghost use Rattle.forms.specs.declared.form.Form.{Form as AnyForm};
ghost use Rattle.forms.specs.Forms.{Reads, Writes};
ghost use Rattle.forms.specs.Putting.{Puts};
ghost use Rattle.forms.specs.Values.{IsWithinBounds};
ghost use Rattle.forms.specs.form.XsdDuration.{held, of_one_sign};
ghost use Rattle.forms.specs.inside.Lawful.{Lawful};
ghost use Rattle.forms.specs.inside.Readers.{cause_of};

use super::intervals;
use crate::cause::Cause;
use crate::value::Value;
use arrayvec::ArrayString;
use pg_interval_2::Interval;
use xsd_duration::{DurationError, has_one_sign, push_text};

/// The triple of a duration.
pub fn read(text: &[u8]) -> Result<Value, Cause>
    ensures { Reads AnyForm.XsdDuration text.now result }
{
    xsd_duration::laws::a_denoted_interval_is_in_range();
    match xsd_duration::read(text) {
        Ok(interval) => Ok(Value::Triple {
            months: interval.months as i64,
            days: interval.days as i64,
            micros: interval.microseconds,
        }),
        Err(error) => Err(cause_of(error)),
    }
}

/// The cause of a refusal.
fn cause_of(error: DurationError) -> Cause
    ensures { result ≡ cause_of error }
{
    match error {
        DurationError::Syntax => Cause::Syntax,
        DurationError::Range => Cause::Range,
    }
}

/// Appends the written text of a triple of one sign, or of a length in days and a time.
pub fn push<const CAP: usize>(value: Value, out: &mut ArrayString<CAP>) -> Result<(), Cause>
    requires within { IsWithinBounds value }
    requires room { array_string_len out.old + 96 ≤ CAP }
    ensures answer { Puts (Writes AnyForm.XsdDuration value) out.old.bytes out.new.bytes result }
    ensures len { array_string_len out.new ≤ array_string_len out.old + 96 }
{
    match interval_for(value) {
        Ok(interval) => {
            push_text(interval, out);
            Ok(())
        }
        Err(cause) => Err(cause),
    }
}

/// The interval of a value, of one sign.
fn interval_for(value: Value) -> Result<Interval, Cause>
    requires { IsWithinBounds value }
    ensures held { result ≡ held value }
    ensures one { IfOk result (λ t. IsTrue (has_one_sign t)) }
{
    match intervals::interval_for(value) {
        Ok(interval) => of_one_sign(interval),
        Err(cause) => Err(cause),
    }
}

/// The interval, where it has one sign.
#[tactic(auto, unfolding(crate::specs::form::XsdDuration::of_one_sign))]
fn of_one_sign(interval: Interval) -> Result<Interval, Cause>
    ensures made { result ≡ of_one_sign interval }
    ensures one { IfOk result (λ t. IsTrue (has_one_sign t)) }
{
    if has_one_sign(interval) {
        Ok(interval)
    } else {
        Err(Cause::Range)
    }
}

/// Durations of XML Schema are a lawful form.
pub fn lawful()
    ensures { Lawful AnyForm.XsdDuration }
{
    xsd_duration::laws::texts_are_ascii();
    xsd_duration::laws::a_text_has_one_reading();
    xsd_duration::laws::a_denoted_interval_is_in_range();
    xsd_duration::laws::a_written_text_is_read_back();
}
