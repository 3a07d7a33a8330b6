//! The text of one form in another form, and the replies to lines.
ghost use Rattle.std.specs.Prelude.{◌≡◌, ◌≢◌, List, ℕ, Result as AnyResult, IsUtf8};
ghost use Rattle.forms.specs.Buffers.{AnswersInto};
ghost use Rattle.forms.specs.Names.{name_of};
ghost use Rattle.forms.specs.Replies.{IsAnswer};
ghost use Rattle.forms.specs.declared.cause.Cause.{Cause as AnyCause};
ghost use Rattle.forms.specs.declared.form.Form.{Form as AnyForm};
ghost use Rattle.timeforms_c.specs.Codes.{no_such_form, not_utf8};
ghost use Rattle.timeforms_c.specs.Numbers.{number_of};
ghost use Rattle.timeforms_c.specs.Rooms.{Answers, Refused};

use crate::code::{NO_SUCH_FORM, NOT_UTF8};
use crate::form::{form_named, form_numbered};
use crate::room::put_answer;
use forms::Form;
use std::str;

/// Puts the text of the first form in the second form into the room, and answers how many bytes that are, 96 at most: the answer of
/// `forms::reply`, the forms by number. Else it is the first of these that holds, and the room is as it was: `NO_SUCH_FORM`, `NOT_UTF8`,
/// the code of a cause, `NO_ROOM`.
#[unsafe(no_mangle)]
pub extern "C" fn timeforms_reply(from: i32, to: i32, text: &[u8], out: &mut [u8]) -> i32
    ensures answer { (f t : AnyForm) (answer : AnyResult (List ℕ) AnyCause)
        → from ≡ number_of f → to ≡ number_of t → IsUtf8 text.now
        → IsAnswer f t text.now answer → Answers answer out.old out.new result }
    ensures utf8 { (f t : AnyForm) → from ≡ number_of f → to ≡ number_of t
        → ¬ (IsUtf8 text.now) → Refused not_utf8 out.old out.new result }
    ensures from { ((f : AnyForm) → from ≢ number_of f)
        → Refused no_such_form out.old out.new result }
    ensures to { ((t : AnyForm) → to ≢ number_of t)
        → Refused no_such_form out.old out.new result }
{
    match (form_numbered(from), form_numbered(to)) {
        (Some(from), Some(to)) => reply_bytes(from, to, text, out),
        (None, _) | (_, None) => NO_SUCH_FORM,
    }
}

/// The same with the forms by name.
#[unsafe(no_mangle)]
pub extern "C" fn timeforms_reply_by_name(
    from: &[u8],
    to: &[u8],
    text: &[u8],
    out: &mut [u8],
) -> i32
    ensures answer { (f t : AnyForm) (answer : AnyResult (List ℕ) AnyCause)
        → from.now ≡ name_of f → to.now ≡ name_of t → IsUtf8 text.now
        → IsAnswer f t text.now answer → Answers answer out.old out.new result }
    ensures utf8 { (f t : AnyForm) → from.now ≡ name_of f → to.now ≡ name_of t
        → ¬ (IsUtf8 text.now) → Refused not_utf8 out.old out.new result }
    ensures from { ((f : AnyForm) → from.now ≢ name_of f)
        → Refused no_such_form out.old out.new result }
    ensures to { ((t : AnyForm) → to.now ≢ name_of t)
        → Refused no_such_form out.old out.new result }
{
    match (form_named(from), form_named(to)) {
        (Some(from), Some(to)) => reply_bytes(from, to, text, out),
        (None, _) | (_, None) => NO_SUCH_FORM,
    }
}

/// Puts the reply to each whole line into the room, each with a line feed, as many as there is room for: how many bytes of the room they
/// have. `used` is how many bytes of the lines were used, all of them whole lines. It is the call `forms::reply_lines`.
#[unsafe(no_mangle)]
pub extern "C" fn timeforms_replies(lines: &[u8], out: &mut [u8], used: &mut usize) -> usize
    ensures { AnswersInto lines.now out.old out.new used.new result }
{
    let (front, written) = forms::reply_lines(lines, out);
    *used = front;
    written
}

/// The answer to a text that may not be UTF-8.
fn reply_bytes(from: Form, to: Form, text: &[u8], out: &mut [u8]) -> i32
    ensures answer { (answer : AnyResult (List ℕ) AnyCause) → IsUtf8 text.now
        → IsAnswer from to text.now answer → Answers answer out.old out.new result }
    ensures utf8 { ¬ (IsUtf8 text.now) → Refused not_utf8 out.old out.new result }
{
    match str::from_utf8(text) {
        Ok(text) => put_answer(out, forms::reply(from, to, text)),
        Err(_) => NOT_UTF8,
    }
}
