//! Lines of which a field or a word is a text.
ghost use Rattle.std.specs.Prelude.{◌≡◌, ◌+◌, ◌≤◌, ◌++◌, List, ℕ, codes, length, drop};
ghost use Rattle.forms.specs.TextReplies.{IsTextReply};
ghost use Rattle.text_lines.specs.Outputs.{IsBeforeEnd};
ghost use Rattle.text_lines.specs.Answering.{SaysColumn};
ghost use Rattle.text_lines.specs.inside.Answering.{PushesOutput};

use crate::byte_batch::ByteBatch;
use crate::line::{LINE, push_reply, split_end, split_mark};
use crate::place::{Place, text_at};
use forms::{AnswersLines, Failed, Form, Sink};
use scan_core::Short;

/// Answers the text at one place of each line, which is of one form, in another form where it stands.
#[derive(Clone, Copy, Debug, PartialEq, Eq)]
pub struct Columns {
    /// The form of the texts.
    pub from: Form,
    /// The form of the answers.
    pub to: Form,
    /// Where the text stands.
    pub place: Place,
    /// Whether no line came so far.
    pub first: bool,
    /// Whether a text was refused so far.
    pub refused: bool,
}

impl AnswersLines for Columns {
    type Batch = ByteBatch;

    ghost says = { SaysColumn };

    fn answer<K: Sink>(
        &mut self,
        sink: &mut K,
        batch: &mut ByteBatch,
        line: &[u8],
    ) -> Result<(), Failed> {
        batch.make_room(sink)?;
        let refused = push_line(self.from, self.to, self.place, self.first, line, batch);
        self.first = false;
        self.refused = self.refused || refused;
        Ok(())
    }
}

/// Appends the output for a line, and answers whether it is a refusal.
#[inline(always)]
fn push_line(
    from: Form,
    to: Form,
    place: Place,
    first: bool,
    line: &[u8],
    batch: &mut ByteBatch,
) -> bool
    requires room { length batch.old + 1_048_832 ≤ 1_114_368 }
    ensures { PushesOutput from to place first line.now batch.old batch.new result }
{
    if line.len() > LINE {
        batch.push(b"refused Line\n");
        return true;
    }
    let (front, rest) = split_mark(first, line);
    let (body, _) = split_end(rest);
    let Some((before, text, _)) = text_at(body, place) else {
        push_refused_line(rest, batch);
        return true;
    };
    let back = behind(rest, before.len() + text.len());
    batch.push(&line[..front.len() + before.len()]);
    let refused = push_reply_bytes(from, to, text, batch);
    batch.push(back);
    batch.push_feed();
    refused
}

/// Appends the refusal of a line as a whole, and the line's end. As a call of its own it leaves the end out of sight of other lines.
#[inline(never)]
fn push_refused_line(line: &[u8], batch: &mut ByteBatch)
    requires room { length batch.old + 14 ≤ 1_114_368 }
    ensures told { (body end : List ℕ) × IsBeforeEnd line.now body end
        × (batch.new ≡ batch.old ++ (codes "refused Line" ++ end)) }
{
    let (_, end) = split_end(line);
    batch.push(b"refused Line");
    batch.push(end.as_bytes());
}

/// What stands behind so many bytes.
#[inline(always)]
fn behind(bytes: &[u8], count: usize) -> &[u8]
    requires { count ≤ length bytes.now }
    ensures { result.now ≡ drop count bytes.now }
{
    &bytes[count..]
}

/// Appends the reply to a text, and answers whether it is a refusal.
#[inline(always)]
fn push_reply_bytes(from: Form, to: Form, text: &[u8], batch: &mut ByteBatch) -> bool
    requires room { length batch.old + 96 ≤ 1_114_368 }
    ensures reply { (reply : List ℕ) × IsTextReply from to text.now reply result
        × (length reply ≤ 96)
        × (batch.new ≡ batch.old ++ reply) }
{
    let mut reply = Short::new();
    let refused = push_reply(from, to, text, &mut reply);
    batch.push(reply.as_str().as_bytes());
    refused
}
