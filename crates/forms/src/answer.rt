//! One text of a form in another form, and the reply to a line.
ghost use Rattle.std.specs.Prelude.{◌≡◌, ◌+◌, ◌*◌, ◌<◌, ◌≤◌, ◌↔◌, ◌++◌, List, ℕ, codes, length, Result as AnyResult, Ok, Err, IfOk, IsErrOf, IsTrue};
ghost use Rattle.std.specs.String.{string_bytes};
ghost use Rattle.arrayvec.specs.ArrayString.{array_string_len};
ghost use Rattle.forms.specs.declared.cause.Cause.{Cause as AnyCause};
ghost use Rattle.forms.specs.Answers.{Then, bytes_of};
ghost use Rattle.forms.specs.Forms.{Writes};
ghost use Rattle.forms.specs.Names.{is_counted};
ghost use Rattle.forms.specs.ReadBack.{Turns};
ghost use Rattle.forms.specs.Replies.{IsAnswer, IsReply, answer_text, is_refusal};
ghost use Rattle.forms.specs.Values.{IsWithinBounds};
ghost use Rattle.forms.specs.Putting.{Puts};
ghost use Rattle.forms.specs.inside.Putting.{Gains};

use crate::cause::Cause;
use crate::form::Form;
use crate::laws;
use crate::line::named_text;
use crate::text_reply::push_text_reply;
use crate::value::{Value, push_value, read_bytes, read_counted, read_value};
use arrayvec::ArrayString;
use scan_core::{Looked, Short, Steps};
use std::alloc::Global;
use std::marker::Brand;
use std::sync::ledger::{Blank, Ledger};

/// Why `convert` has no text.
#[derive(Clone, Copy, Debug, PartialEq, Eq)]
pub enum ConvertError {
    /// The text isn't answered, for this cause.
    Refused(Cause),
    /// There is an answer, and no memory for it.
    NoMemory,
}

/// The text of one form in another form: `reply(Form::PgIso, Form::PgIso, "P1Y1Y")` is `P2Y`. It takes no memory.
///
/// It is what `write_value` makes in the second form of what `read_value` makes in the first, and the cause of the one that refuses.
/// From a form whose texts can be read by counted looks it is one call of `reply_counted`, with a counter of its own.
pub fn reply(from: Form, to: Form, text: &str) -> Result<Short, Cause>
    ensures answer { (answer : AnyResult (List ℕ) AnyCause)
        → (bytes_of result ≡ answer) ↔ IsAnswer from to text.now answer }
    ensures turned { (answer : AnyResult (List ℕ) AnyCause)
        → (bytes_of result ≡ answer) ↔ Turns from to text.now answer }
    ensures len { IfOk result (λ out. array_string_len out ≤ 96) }
{
    if from.is_counted() {
        return reply_alone::<Brand>(from, to, &Looked::new(text), Blank::new(1));
    }
    laws::all_lawful();
    laws::answers_are_readings_written();
    written(to, read_value(from, text))
}

/// The answer of `reply` to a text that is seen by counted looks alone, from an interval form or `Form::IsoDuration`. It takes no
/// memory.
///
/// Of a text of n bytes it looks at most 2n + 4 times, which is less than 32n + 256: once at each byte, once more at the digits of a
/// fraction of more than twelve, and four times at the end. Where it answers a text, it has looked at each byte.
pub fn reply_counted<L: Ledger>(
    from: Form,
    to: Form,
    text: &Looked<'_>,
    steps: &mut Steps<L>,
) -> Result<Short, Cause>
    requires { IsTrue (is_counted from) }
    ensures answer { (answer : AnyResult (List ℕ) AnyCause)
        → (bytes_of result ≡ answer) ↔ IsAnswer from to text.now answer }
    ensures turned { (answer : AnyResult (List ℕ) AnyCause)
        → (bytes_of result ≡ answer) ↔ Turns from to text.now answer }
    ensures len { IfOk result (λ out. array_string_len out ≤ 96) }
    ensures most { steps.new ≤ steps.old + (2 * length text.now + 4) }
    ensures bound { steps.new ≤ steps.old + (32 * length text.now + 256) }
    ensures least { IfOk result (λ _. steps.old + length text.now ≤ steps.new) }
{
    laws::all_lawful();
    laws::answers_are_readings_written();
    written(to, read_counted(from, text, steps))
}

/// The same with a counter of its own.
fn reply_alone<L: Ledger>(
    from: Form,
    to: Form,
    text: &Looked<'_>,
    blank: Blank,
) -> Result<Short, Cause>
    requires name { blank.name ≡ L.name }
    requires parts { blank.parts ≡ L.parts }
    requires some { 0 < L.parts }
    requires form { IsTrue (is_counted from) }
    ensures answer { (answer : AnyResult (List ℕ) AnyCause)
        → (bytes_of result ≡ answer) ↔ IsAnswer from to text.now answer }
    ensures turned { (answer : AnyResult (List ℕ) AnyCause)
        → (bytes_of result ≡ answer) ↔ Turns from to text.now answer }
    ensures len { IfOk result (λ out. array_string_len out ≤ 96) }
{
    reply_counted(from, to, text, &mut Steps::<L>::new(blank))
}

/// The written text of what was read, or the cause why there was nothing to read.
fn written(to: Form, read: Result<Value, Cause>) -> Result<Short, Cause>
    requires { IfOk read IsWithinBounds }
    ensures answer { Then (Writes to) read (bytes_of result) }
    ensures len { IfOk result (λ out. array_string_len out ≤ 96) }
{
    let mut out = Short::new();
    match push_read(to, read, &mut out) {
        Ok(()) => Ok(out),
        Err(cause) => Err(cause),
    }
}

/// Appends the written text of what was read.
fn push_read<const CAP: usize>(
    to: Form,
    read: Result<Value, Cause>,
    out: &mut ArrayString<CAP>,
) -> Result<(), Cause>
    requires within { IfOk read IsWithinBounds }
    requires room { array_string_len out.old + 96 ≤ CAP }
    ensures answer { Puts (Then (Writes to) read) out.old.bytes out.new.bytes result }
    ensures len { array_string_len out.new ≤ array_string_len out.old + 96 }
{
    match read {
        Ok(value) => push_value(to, value, out),
        Err(cause) => Err(cause),
    }
}

/// Appends the text of one form, which may be no UTF-8, in another form.
pub(crate) fn push_turned<const CAP: usize>(
    from: Form,
    to: Form,
    text: &[u8],
    out: &mut ArrayString<CAP>,
) -> Result<(), Cause>
    requires room { array_string_len out.old + 96 ≤ CAP }
    ensures turned { Puts (Turns from to text.now) out.old.bytes out.new.bytes result }
    ensures len { array_string_len out.new ≤ array_string_len out.old + 96 }
{
    push_read(to, read_bytes(from, text), out)
}

/// The answer of `reply` as a `String`. `Refused` has its cause, exactly where `reply` refuses; `NoMemory` may stand
/// in place of a text alone.
pub fn convert(alloc: Global, from: Form, to: Form, text: &str) -> Result<String, ConvertError>
    ensures ok { IfOk result (λ out. IsAnswer from to text.now (Ok (string_bytes out))) }
    ensures refused { (cause : AnyCause)
        → IsErrOf result (ConvertError.Refused cause) ↔ IsAnswer from to text.now (Err cause) }
    ensures no_memory { IsErrOf result ConvertError.NoMemory
        → (out : List ℕ) × IsAnswer from to text.now (Ok out) }
{
    match reply(from, to, text) {
        Ok(out) => match String::from_str(alloc, out.as_str()) {
            Ok(text) => Ok(text),
            Err(_) => Err(ConvertError::NoMemory),
        },
        Err(cause) => Err(ConvertError::Refused(cause)),
    }
}

/// The reply to a line, as `push_line_reply` appends it.
pub(crate) fn line_reply(line: &[u8]) -> Short
    ensures reply { IsReply line.now result.bytes }
    ensures len { array_string_len result ≤ 96 }
{
    let mut out = Short::new();
    push_line_reply(line, &mut out);
    out
}

/// Appends the reply to a line, without its line feed. Where the line is no request it is `refused Line`.
pub(crate) fn push_line_reply<const CAP: usize>(line: &[u8], out: &mut ArrayString<CAP>)
    requires room { array_string_len out.old + 96 ≤ CAP }
    ensures reply { Gains (IsReply line.now) out.old.bytes out.new.bytes }
    ensures len { array_string_len out.new ≤ array_string_len out.old + 96 }
{
    match named_text(line) {
        Some((from, to, text)) => {
            push_text_reply(from, to, text, out);
        }
        None => push_refusal("Line", out),
    }
}

/// Appends the reply to a text, of at most 96 bytes, without a line feed, and answers whether it is a refusal: of `P1Y1Y` from
/// `Form::PgIso` to `Form::PgIso` it appends `P2Y` and answers no, and of `P` it appends `refused Syntax` and answers yes.
#[inline(always)]
pub fn push_answer<const CAP: usize>(
    from: Form,
    to: Form,
    text: &str,
    out: &mut ArrayString<CAP>,
) -> bool
    requires room { array_string_len out.old + 96 ≤ CAP }
    ensures answer { (answer : AnyResult (List ℕ) AnyCause) × IsAnswer from to text.now answer
        × (out.new.bytes ≡ out.old.bytes ++ answer_text answer)
        × (result ≡ is_refusal answer) }
    ensures len { array_string_len out.new ≤ array_string_len out.old + 96 }
{
    laws::answers_are_readings_written();
    match push_turned(from, to, text.as_bytes(), out) {
        Ok(()) => false,
        Err(cause) => {
            push_refusal(cause.name(), out);
            true
        }
    }
}

/// Appends `refused` and why.
pub(crate) fn push_refusal<const CAP: usize>(name: &str, out: &mut ArrayString<CAP>)
    requires name { length name.now ≤ 80 }
    requires room { array_string_len out.old + 96 ≤ CAP }
    ensures bytes { out.new.bytes ≡ out.old.bytes ++ (codes "refused " ++ name.now) }
    ensures len { array_string_len out.new ≤ array_string_len out.old + 96 }
{
    out.push_str("refused ");
    out.push_str(name);
}
