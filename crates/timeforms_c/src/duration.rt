//! Short durations such as `1h 20m 30s`, as whole seconds and the nanoseconds beyond them.
ghost use Rattle.std.specs.Prelude.{◌≡◌, ◌≢◌, ◌+◌, ◌*◌, ◌<◌, ◌≤◌, ℕ, pos, List, Result as AnyResult, IsUtf8};
ghost use Rattle.fancy_duration.specs.Meanings.{Denotes, IsTooBig};
ghost use Rattle.fancy_duration.specs.Strict.{IsStrict};
ghost use Rattle.forms.specs.Forms.{Writes};
ghost use Rattle.forms.specs.declared.cause.Cause.{Cause as AnyCause};
ghost use Rattle.forms.specs.declared.form.Form.{Form as AnyForm};
ghost use Rattle.forms.specs.declared.value.Value.{Value as AnyValue};
ghost use Rattle.timeforms_c.specs.Codes.{code_of, not_utf8};
ghost use Rattle.timeforms_c.specs.Rooms.{Answers, Refused};

use crate::code::{NOT_UTF8, code_of};
use crate::room::put_answer;
use fancy_duration::FancyDuration;
use forms::{Cause, Form, Value, write_value};
use std::str;
use std::time::Duration;

/// How many nanoseconds a second has: those beyond whole seconds are fewer.
pub(crate) const NANOSECONDS_A_SECOND: u32 = 1_000_000_000;

/// The length that a text of the form `Fancy` denotes, in whole seconds and nanoseconds below 10^9. Answers 0, or the first of these that
/// holds: `NOT_UTF8`, the code of `Syntax`, that of `Range` at 2^64 seconds and more. Then both are as they were.
#[unsafe(no_mangle)]
pub extern "C" fn timeforms_duration_from_text(
    text: &[u8],
    seconds: &mut u64,
    nanoseconds: &mut u32,
) -> i32
    ensures done { (times : ℕ × ℕ) → IsUtf8 text.now → IsStrict text.now → Denotes text.now times
        → (result ≡ pos 0) × (seconds.new ≡ times.0) × (nanoseconds.new ≡ times.1) }
    ensures range { IsUtf8 text.now → IsStrict text.now → IsTooBig text.now
        → result ≡ code_of AnyCause.Range }
    ensures syntax { IsUtf8 text.now → ¬ (IsStrict text.now)
        → result ≡ code_of AnyCause.Syntax }
    ensures utf8 { ¬ (IsUtf8 text.now) → result ≡ not_utf8 }
    ensures kept { result ≢ pos 0
        → (seconds.new ≡ seconds.old) × (nanoseconds.new ≡ nanoseconds.old) }
{
    let Ok(text) = str::from_utf8(text) else {
        return NOT_UTF8;
    };
    if !FancyDuration::<Duration>::is_fancy_text(text) {
        return code_of(Cause::Syntax);
    }
    match FancyDuration::<Duration>::parse_to_ns(text) {
        Ok((whole, beyond)) => {
            *seconds = whole;
            *nanoseconds = beyond as u32;
            0
        }
        Err(_) => code_of(Cause::Range),
    }
}

/// Puts the text of so many seconds and nanoseconds in the form `Fancy` into the room, and answers how many bytes that are, 96 at most.
/// Else it is the first of these that holds, and the room is as it was: the code of `Range` at 10^9 nanoseconds and more, that of
/// `Ambiguous` where the text would be read as another length, `NO_ROOM`.
#[unsafe(no_mangle)]
pub extern "C" fn timeforms_duration_to_text(seconds: u64, nanoseconds: u32, out: &mut [u8]) -> i32
    ensures answer { (answer : AnyResult (List ℕ) AnyCause) → nanoseconds < 1_000_000_000
        → Writes AnyForm.Fancy (AnyValue.Length (seconds * 1_000_000_000 + nanoseconds)) answer
        → Answers answer out.old out.new result }
    ensures range { 1_000_000_000 ≤ nanoseconds
        → Refused (code_of AnyCause.Range) out.old out.new result }
{
    if nanoseconds >= NANOSECONDS_A_SECOND {
        return code_of(Cause::Range);
    }
    let nanos = seconds as u128 * NANOSECONDS_A_SECOND as u128 + nanoseconds as u128;
    put_answer(out, write_value(Form::Fancy, Value::Length(nanos)))
}
