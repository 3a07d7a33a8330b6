//! One text, answered on a line.
ghost use Rattle.std.specs.Prelude.{◌≡◌, ◌+◌, ◌≤◌, ◌++◌, List, ℕ, codes};
ghost use Rattle.arrayvec.specs.ArrayString.{array_string_len};
ghost use Rattle.forms.specs.TextReplies.{IsTextReply};
ghost use Rattle.text_lines.specs.Ends.{TextEnded};

use crate::line::push_reply;
use crate::run::REFUSED;
use forms::{Failed, Form, RunEnd, Sink, write_all};
use scan_core::Short;

/// Writes the reply to a text, of one form, in another form, and a line feed. It answers the exit status: 0 where the reply is an answer, 8
/// where it is a refusal, 4 where a write failed.
pub fn answer_text<K: Sink>(from: Form, to: Form, text: &[u8], sink: &mut K) -> u8
    ensures { TextEnded from to text.now
        (K.held sink.old) (K.held sink.new) (K.faults sink.old) (K.faults sink.new) result }
{
    let mut line = Short::new();
    let refused = push_reply(from, to, text, &mut line);
    line.push('\n');
    match write_all(sink, line.as_str().as_bytes()) {
        Ok(()) if refused => REFUSED,
        Ok(()) => RunEnd::Done.status(),
        Err(Failed) => RunEnd::WriteFault.status(),
    }
}
