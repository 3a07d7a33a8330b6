//! Instants as whole seconds since 1970 and nanoseconds beyond them, their texts, and those of a recurrence.
ghost use Rattle.std.specs.Prelude.{◌≡◌, ◌≢◌, ◌<◌, ◌≤◌, ◌^◌, ℤ, pos, ◌↔◌, IsTrue, None, Some, Ok, Err, List, ℕ, Result as AnyResult, IfOk, IsUtf8};
ghost use Rattle.jiff.specs.Words.{IsWithin};
ghost use Rattle.recurrence.specs.Instants.{IsAt};
ghost use Rattle.forms.specs.Forms.{Reads, Writes};
ghost use Rattle.forms.specs.declared.cause.Cause.{Cause as AnyCause};
ghost use Rattle.forms.specs.declared.form.Form.{Form as AnyForm};
ghost use Rattle.forms.specs.declared.value.Value.{Value as AnyValue};
ghost use Rattle.timeforms_c.specs.Codes.{code_of, no_such_form, not_utf8};
ghost use Rattle.timeforms_c.specs.Intervals.{seen, nanos_of};
ghost use Rattle.timeforms_c.specs.Numbers.{number_of};
ghost use Rattle.timeforms_c.specs.Rooms.{Answers, Refused};

use crate::arithmetic::interval_of;
use crate::code::{NO_SUCH_FORM, NOT_UTF8, code_of};
use crate::duration::NANOSECONDS_A_SECOND;
use crate::form::form_numbered;
use crate::interval::TimeformsInterval;
use crate::room::put_answer;
use forms::{Cause, Form, Value, read_value, write_value};
use recurrence::at;
use std::str;

/// No instant that a text stands for has more seconds before or behind 1970 than these, and no step leads to one.
const MOST_SECONDS: i64 = 10_000_000_000_000;

/// The instant that lies so many steps behind a start: the months lead to a month, in which the day is held, and then the days and the
/// microseconds are added, in UTC with days of 24 hours. An instant is whole seconds since 1970, rounded down, and the nanoseconds beyond
/// them, below 10^9. Answers 0, or the code of `Range` at 10^9 nanoseconds and more, and exactly where the start's own day, the year to
/// which the months lead or the day at the end isn't of the years -9999 to 9999. Then both places are as they were.
#[unsafe(no_mangle)]
pub extern "C" fn timeforms_recurrence_at(
    seconds: i64,
    nanoseconds: u32,
    step: TimeformsInterval,
    steps: u32,
    at_seconds: &mut i64,
    at_nanoseconds: &mut u32,
) -> i32
    ensures done { (instant : ℤ) → nanoseconds < 1_000_000_000
        → IsAt (nanos_of seconds (pos nanoseconds)) (seen step) steps (Some instant)
        → (result ≡ pos 0) × (nanos_of at_seconds.new (pos at_nanoseconds.new) ≡ instant)
        × (at_nanoseconds.new < 1_000_000_000) }
    ensures none { nanoseconds < 1_000_000_000
        → IsAt (nanos_of seconds (pos nanoseconds)) (seen step) steps None
        → result ≡ code_of AnyCause.Range }
    ensures beyond { 1_000_000_000 ≤ nanoseconds → result ≡ code_of AnyCause.Range }
    ensures kept { result ≢ pos 0 → (at_seconds.new ≡ at_seconds.old)
        × (at_nanoseconds.new ≡ at_nanoseconds.old) }
{
    if nanoseconds >= NANOSECONDS_A_SECOND {
        return code_of(Cause::Range);
    }
    match at(instant_of(seconds, nanoseconds), interval_of(step), steps) {
        Some(instant) => {
            let (whole, beyond) = parted(instant);
            *at_seconds = whole;
            *at_nanoseconds = beyond;
            0
        }
        None => code_of(Cause::Range),
    }
}

/// The instant that a text of a form stands for, by number. Answers 0, or the first of these that holds: `NO_SUCH_FORM`, `NOT_UTF8`, the
/// code of the cause why the text has no value, that of `Kind` where its value is no instant. Then both places are as they were.
#[unsafe(no_mangle)]
pub extern "C" fn timeforms_instant_from_text(
    form: i32,
    text: &[u8],
    seconds: &mut i64,
    nanoseconds: &mut u32,
) -> i32
    ensures done { (f : AnyForm) (instant : ℤ) → form ≡ number_of f → IsUtf8 text.now
        → Reads f text.now (Ok (AnyValue.Instant instant))
        → (result ≡ pos 0) × (nanos_of seconds.new (pos nanoseconds.new) ≡ instant)
        × (nanoseconds.new < 1_000_000_000) }
    ensures kind { (f : AnyForm) (value : AnyValue) → form ≡ number_of f → IsUtf8 text.now
        → Reads f text.now (Ok value) → ((instant : ℤ) → value ≢ AnyValue.Instant instant)
        → result ≡ code_of AnyCause.Kind }
    ensures cause { (f : AnyForm) (cause : AnyCause) → form ≡ number_of f → IsUtf8 text.now
        → Reads f text.now (Err cause) → result ≡ code_of cause }
    ensures utf8 { (f : AnyForm) → form ≡ number_of f → ¬ (IsUtf8 text.now)
        → result ≡ not_utf8 }
    ensures form { ((f : AnyForm) → form ≢ number_of f) → result ≡ no_such_form }
    ensures kept { result ≢ pos 0
        → (seconds.new ≡ seconds.old) × (nanoseconds.new ≡ nanoseconds.old) }
{
    let Some(form) = form_numbered(form) else {
        return NO_SUCH_FORM;
    };
    let Ok(text) = str::from_utf8(text) else {
        return NOT_UTF8;
    };
    match read_instant(form, text) {
        Ok(instant) => {
            let (whole, beyond) = parted(instant);
            *seconds = whole;
            *nanoseconds = beyond;
            0
        }
        Err(cause) => code_of(cause),
    }
}

/// The instant that a text stands for, or the cause why it stands for none.
fn read_instant(form: Form, text: &str) -> Result<i128, Cause>
    ensures done { (instant : ℤ) → Reads form text.now (Ok (AnyValue.Instant instant))
        → result ≡ Ok instant }
    ensures kind { (value : AnyValue) → Reads form text.now (Ok value)
        → ((instant : ℤ) → value ≢ AnyValue.Instant instant) → result ≡ Err AnyCause.Kind }
    ensures cause { (cause : AnyCause) → Reads form text.now (Err cause) → result ≡ Err cause }
    ensures within { IfOk result (IsWithin (10 ^ 22)) }
{
    match read_value(form, text)? {
        Value::Instant(instant) => Ok(instant),
        _ => Err(Cause::Kind),
    }
}

/// Puts the text of an instant in a form, by number, into the room, and answers how many bytes that are, 96 at most. Else it is the first
/// of these that holds, and the room is as it was: `NO_SUCH_FORM`, the code of `Range` at 10^9 nanoseconds and more and where the instant
/// is more than 10^13 seconds from 1970, that of the cause why the form has no text for it, `NO_ROOM`.
#[unsafe(no_mangle)]
pub extern "C" fn timeforms_instant_to_text(
    form: i32,
    seconds: i64,
    nanoseconds: u32,
    out: &mut [u8],
) -> i32
    ensures answer { (f : AnyForm) (answer : AnyResult (List ℕ) AnyCause) → form ≡ number_of f
        → nanoseconds < 1_000_000_000
        → IsWithin (10 ^ 22) (nanos_of seconds (pos nanoseconds))
        → Writes f (AnyValue.Instant (nanos_of seconds (pos nanoseconds))) answer
        → Answers answer out.old out.new result }
    ensures far { (f : AnyForm) → form ≡ number_of f
        → ¬ (IsWithin (10 ^ 22) (nanos_of seconds (pos nanoseconds)))
        → Refused (code_of AnyCause.Range) out.old out.new result }
    ensures beyond { (f : AnyForm) → form ≡ number_of f → 1_000_000_000 ≤ nanoseconds
        → Refused (code_of AnyCause.Range) out.old out.new result }
    ensures form { ((f : AnyForm) → form ≢ number_of f)
        → Refused no_such_form out.old out.new result }
{
    let Some(form) = form_numbered(form) else {
        return NO_SUCH_FORM;
    };
    let instant = instant_of(seconds, nanoseconds);
    if nanoseconds >= NANOSECONDS_A_SECOND || !is_near(instant) {
        return code_of(Cause::Range);
    }
    put_answer(out, write_value(form, Value::Instant(instant)))
}

/// Whether an instant is at most 10^13 seconds from 1970.
fn is_near(instant: i128) -> bool
    ensures { IsTrue result ↔ IsWithin (10 ^ 22) instant }
{
    instant >= -10_000_000_000_000_000_000_000 && instant <= 10_000_000_000_000_000_000_000
}

/// The instant of so many seconds, and of nanoseconds beyond them.
fn instant_of(seconds: i64, nanoseconds: u32) -> i128
    ensures { result ≡ nanos_of seconds (pos nanoseconds) }
{
    seconds as i128 * 1_000_000_000 + nanoseconds as i128
}

/// The whole seconds of an instant, rounded down, and the nanoseconds beyond them.
fn parted(instant: i128) -> (i64, u32)
    requires { IsWithin (10 ^ 22) instant }
    ensures whole { nanos_of result.0 (pos result.1) ≡ instant }
    ensures beyond { result.1 < 1_000_000_000 }
{
    let since = (instant + MOST_SECONDS as i128 * 1_000_000_000) as u128;
    let (whole, beyond) = (since / 1_000_000_000, since % 1_000_000_000);
    (whole as i64 - MOST_SECONDS, beyond as u32)
}
