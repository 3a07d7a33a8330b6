//! Texts that go into the room of a caller.
ghost use Rattle.std.specs.Prelude.{◌≤◌, length, IfOk};
ghost use Rattle.arrayvec.specs.ArrayString.{array_string_len};
ghost use Rattle.forms.specs.Answers.{bytes_of};
ghost use Rattle.timeforms_c.specs.Rooms.{Answers, Leaves};

use crate::code::{NO_ROOM, code_of};
use forms::Cause;
use scan_core::Short;

/// Puts an answer into the room, or answers the code of its cause.
pub(crate) fn put_answer(out: &mut [u8], answer: Result<Short, Cause>) -> i32
    requires { IfOk answer (λ text. array_string_len text ≤ 96) }
    ensures { Answers (bytes_of answer) out.old out.new result }
{
    match answer {
        Ok(text) => put_text(out, text.as_str()),
        Err(cause) => code_of(cause),
    }
}

/// Puts a text at the front of the room, and answers its length.
pub(crate) fn put_text(out: &mut [u8], text: &str) -> i32
    requires { length text.now ≤ 96 }
    ensures { Leaves text.now out.old out.new result }
{
    let len = text.len();
    if len > out.len() {
        return NO_ROOM;
    }
    out[..len].copy_from_slice(text.as_bytes());
    len as i32
}
