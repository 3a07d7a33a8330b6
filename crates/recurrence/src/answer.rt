//! What a line is answered by.
ghost use Rattle.std.specs.Prelude.{◌≡◌, ◌↔◌, ◌<◌, ◌≤◌, ◌%◌, ℕ, List, length, unsigned_abs, Result as AnyResult, Ok, Err, IfOk, IfErr, IsTrue, IsSome, IfSome};
ghost use Rattle.scan_core.specs.Digits.{AreDigits, number_of};
ghost use Rattle.forms.specs.Forms.{Reads};
ghost use Rattle.forms.specs.declared.cause.Cause.{Cause as AnyCause};
ghost use Rattle.forms.specs.declared.form.Form.TheVariants.{IsoDateTime};
ghost use Rattle.forms.specs.declared.value.Value.{Value as AnyValue};
ghost use Rattle.forms.specs.declared.value.Value.TheVariants.{Instant};
ghost use Rattle.recurrence.specs.Replies.{IsCountReply, IsReply, IsStartReply, IsStepReply};
ghost use Rattle.recurrence.specs.inside.Answers.{IsFine, IsInstant, RepliesBy};
ghost use Rattle.recurrence.specs.inside.Written.{IsInMillis};

use crate::refusal::Refusal;
use crate::request::request;
use forms::{Cause, Form, Value, read_interval, read_value};
use pg_interval_2::{Interval, Style};
use scan_core::digits_u32;

/// What a line is answered by: a refusal, or the instants of a series.
pub enum Answer {
    Refused(Refusal),
    Instants {
        start: i128,
        step: Interval,
        last: u32,
    },
}

/// What a line is answered by.
pub fn answer_to(line: &[u8]) -> Answer
    ensures reply { (out : List ℕ) → RepliesBy result out → IsReply out line.now }
    ensures fine { IsFine result }
{
    match request(line) {
        Some((digits, start, step)) => asked(digits, start, step),
        None => Answer::Refused(Refusal::Line),
    }
}

/// What a request is answered by.
fn asked(digits: &str, start: &str, step: &str) -> Answer
    requires some { 0 < length digits.now }
    requires digits { AreDigits digits.now }
    ensures reply { (out : List ℕ) → RepliesBy result out
        → IsCountReply (number_of digits.now) start.now step.now out }
    ensures fine { IsFine result }
{
    match number_in(digits.as_bytes()) {
        Some(last) => started(last, start, step),
        None => Answer::Refused(Refusal::Count),
    }
}

/// The number that digits write, or None exactly where it is above 10_000.
fn number_in(digits: &[u8]) -> Option<u32>
    requires some { 0 < length digits.now }
    requires digits { AreDigits digits.now }
    ensures some { IsSome result ↔ (number_of digits.now ≤ 10_000) }
    ensures value { IfSome result (λ number. number ≡ number_of digits.now) }
{
    let number = digits_u32(digits)?;
    if number > 10_000 {
        return None;
    }
    Some(number)
}

/// What a request of so many steps is answered by.
fn started(last: u32, start: &str, step: &str) -> Answer
    ensures reply { (out : List ℕ) → RepliesBy result out
        → (moment : AnyResult AnyValue AnyCause) × Reads IsoDateTime start.now moment
        × IsStartReply last moment step.now out }
    ensures fine { IsFine result }
{
    match moment_of(start) {
        Ok(instant) => stepped(last, instant, step),
        Err(cause) => Answer::Refused(Refusal::Start(cause)),
    }
}

/// The instant that a text stands for.
fn moment_of(start: &str) -> Result<i128, Cause>
    ensures ok { IfOk result (λ instant. Reads IsoDateTime start.now (Ok (Instant instant))) }
    ensures millis { IfOk result IsInMillis }
    ensures err { IfErr result (λ cause. Reads IsoDateTime start.now (Err cause)) }
{
    match read_value(Form::IsoDateTime, start) {
        Ok(value) => Ok(instant_in(value)),
        Err(cause) => Err(cause),
    }
}

/// The instant that a value is.
fn instant_in(value: Value) -> i128
    requires { IsInstant value }
    ensures { value ≡ Instant result }
{
    match value {
        Value::Instant(instant) => instant,
        Value::Day(_) => unreachable!(),
        Value::Local { .. } => unreachable!(),
        Value::Clock(_) => unreachable!(),
        Value::Triple { .. } => unreachable!(),
        Value::Length(_) => unreachable!(),
    }
}

/// What a request from an instant on is answered by.
fn stepped(last: u32, start: i128, step: &str) -> Answer
    requires { IsInMillis start }
    ensures reply { (out : List ℕ) → RepliesBy result out
        → IsStartReply last (Ok (Instant start)) step.now out }
    ensures fine { IsFine result }
{
    match read_interval(Style::Iso, step.as_bytes()) {
        Ok(interval) => lasting(last, start, interval),
        Err(cause) => Answer::Refused(Refusal::Length(cause)),
    }
}

/// What a request of a start and a step is answered by.
fn lasting(last: u32, start: i128, step: Interval) -> Answer
    requires { IsInMillis start }
    ensures reply { (out : List ℕ) → RepliesBy result out → IsStepReply last start step out }
    ensures fine { IsFine result }
{
    if is_whole(step.microseconds) {
        Answer::Instants { start, step, last }
    } else {
        Answer::Refused(Refusal::Length(Cause::Precision))
    }
}

/// Whether microseconds are whole milliseconds.
fn is_whole(microseconds: i64) -> bool
    ensures { IsTrue result ↔ (unsigned_abs microseconds % 1000 ≡ 0) }
{
    microseconds.unsigned_abs() % 1000 == 0
}
