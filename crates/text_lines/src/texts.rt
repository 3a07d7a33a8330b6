//! Lines that are texts.
ghost use Rattle.std.specs.Prelude.{◌≡◌, ◌+◌, ◌≤◌, ◌++◌, List, ℕ, true, codes};
ghost use Rattle.arrayvec.specs.ArrayString.{array_string_len};
ghost use Rattle.text_lines.specs.declared.place.Place.TheVariants.{Whole};
ghost use Rattle.text_lines.specs.Outputs.{IsBehindMark};
ghost use Rattle.text_lines.specs.Answering.{SaysText};
ghost use Rattle.text_lines.specs.inside.Answering.{PushesOutput};

use crate::line::{LINE, before_cr, push_reply, without_mark};
use forms::{AnswersLines, Batch, Failed, Form, Sink, make_room};

/// The longest output for a line: a byte order mark, a reply, a CR and a line feed.
const LONGEST: usize = 101;

/// Answers lines that are texts of one form in another form.
#[derive(Clone, Copy, Debug, PartialEq, Eq)]
pub struct Texts {
    /// The form of the texts.
    pub from: Form,
    /// The form of the answers.
    pub to: Form,
    /// Whether no line came so far.
    pub first: bool,
    /// Whether a text was refused so far.
    pub refused: bool,
}

impl AnswersLines for Texts {
    type Batch = Batch;

    ghost says = { SaysText };

    #[inline(always)]
    fn answer<K: Sink>(
        &mut self,
        sink: &mut K,
        batch: &mut Batch,
        line: &[u8],
    ) -> Result<(), Failed> {
        make_room(sink, batch, LONGEST)?;
        let refused = push_text_line(self.from, self.to, self.first, line, batch);
        self.first = false;
        self.refused = self.refused || refused;
        Ok(())
    }
}

/// Appends the output for a line, and answers whether it is a refusal.
#[inline(always)]
fn push_text_line(from: Form, to: Form, first: bool, line: &[u8], batch: &mut Batch) -> bool
    requires room { array_string_len batch.old + 101 ≤ 65_536 }
    ensures { PushesOutput from to Whole first line.now batch.old.bytes batch.new.bytes result }
{
    if line.len() > LINE {
        return push_too_long(batch);
    }
    let rest = push_mark(first, line, batch);
    match before_cr(rest) {
        Some(text) => {
            let refused = push_reply(from, to, text, batch);
            batch.push_str("\r\n");
            refused
        }
        None => {
            let refused = push_reply(from, to, rest, batch);
            batch.push('\n');
            refused
        }
    }
}

/// Appends the output for a line that is too long, which is a refusal.
fn push_too_long(batch: &mut Batch) -> bool
    requires room { array_string_len batch.old + 101 ≤ 65_536 }
    ensures bytes { batch.new.bytes ≡ batch.old.bytes ++ codes "refused Line\n" }
    ensures refused { result ≡ true }
{
    batch.push_str("refused Line\n");
    true
}

/// Appends the byte order mark that may stand in front of the first line, and answers the rest of the line.
#[inline(always)]
fn push_mark<'a>(first: bool, line: &'a [u8], batch: &mut Batch) -> &'a [u8]
    requires room { array_string_len batch.old + 101 ≤ 65_536 }
    ensures mark { (front : List ℕ) × IsBehindMark first line.now front result.now
        × (batch.new.bytes ≡ batch.old.bytes ++ front) }
    ensures len { array_string_len batch.new ≤ array_string_len batch.old + 3 }
{
    if !first {
        return line;
    }
    match without_mark(line) {
        Some(rest) => {
            batch.push_str("\u{FEFF}");
            rest
        }
        None => line,
    }
}
