//! Answering the lines of a piece, and writing the outputs.
ghost use Rattle.std.specs.Prelude.{◌≡◌, ◌+◌, ◌<◌, ◌≤◌, [], ◌++◌, take, OnOk, OnErr, vec_len, vec_capacity};
ghost use Rattle.arrayvec.specs.ArrayString.{array_string_len};
ghost use Rattle.forms.specs.Outside.{HasCause};
ghost use Rattle.forms.specs.Outputs.{PutsOutput, FailsOutput};
ghost use Rattle.forms.specs.inside.Reading.{PushesReply};
ghost use Rattle.forms.specs.inside.Pieces.{AnswersPiece, FailsPiece, AnswersLast, FailsLast};

use crate::answer::push_line_reply;
use crate::answers_lines::{AnswersLines, Waits};
use crate::line::split_line;
use crate::streams::{Failed, Sink};
use crate::waiting::{BATCH, Batch};

/// The longest reply, with its line feed: a written text has at most 96 bytes.
pub const LONGEST: usize = 97;

/// Writes the output for each line that a line feed in the piece ends, many at once, and keeps what follows the last one.
/// The first of these lines begins with what was kept. Of a line its first `most` bytes are kept and answered.
pub fn answer_piece<A: AnswersLines, K: Sink>(
    answerer: &mut A,
    sink: &mut K,
    batch: &mut A::Batch,
    kept: &mut Vec<u8>,
    most: usize,
    piece: &[u8],
) -> Result<(), Failed>
    requires empty { A.Batch.bytes batch.old ≡ [] }
    requires most { 0 < most }
    requires len { vec_len kept.old ≤ most }
    requires room { most ≤ vec_capacity kept.old }
    ensures ok { OnOk result (AnswersPiece A.says most answerer.old answerer.new
        kept.old.items piece.now kept.new.items (K.held sink.old) (K.held sink.new)) }
    ensures err { OnErr result (FailsPiece A.says most answerer.old
        kept.old.items piece.now (K.held sink.old) (K.held sink.new)) }
    ensures empty { OnOk result (A.Batch.bytes batch.new ≡ []) }
    ensures len { OnOk result (vec_len kept.new ≤ most) }
    ensures room { vec_capacity kept.old ≤ vec_capacity kept.new }
    ensures cause { HasCause (K.faults sink.old) (K.faults sink.new) result }
{
    let mut rest = piece;
    while let Some((line, after)) = split_line(rest) {
        answer_joined(answerer, sink, batch, kept, most, line)?;
        rest = after;
    }
    batch.write_out(sink)?;
    keep(kept, most, rest);
    Ok(())
}

/// Writes the output for the last line, which no line feed ends, where there is one.
pub fn answer_last<A: AnswersLines, K: Sink>(
    answerer: &mut A,
    sink: &mut K,
    batch: &mut A::Batch,
    line: &[u8],
) -> Result<(), Failed>
    requires empty { A.Batch.bytes batch.old ≡ [] }
    ensures ok { OnOk result (AnswersLast A.says answerer.old answerer.new
        line.now (K.held sink.old) (K.held sink.new)) }
    ensures err { OnErr result (FailsLast A.says answerer.old
        line.now (K.held sink.old) (K.held sink.new)) }
    ensures cause { HasCause (K.faults sink.old) (K.faults sink.new) result }
{
    if line.is_empty() {
        return Ok(());
    }
    answerer.answer(sink, batch, line)?;
    batch.write_out(sink)
}

/// Puts the output for a line whose first bytes were kept behind what waits, and keeps nothing.
#[inline(always)]
fn answer_joined<A: AnswersLines, K: Sink>(
    answerer: &mut A,
    sink: &mut K,
    batch: &mut A::Batch,
    kept: &mut Vec<u8>,
    most: usize,
    line: &[u8],
) -> Result<(), Failed>
    requires len { vec_len kept.old ≤ most }
    requires room { most ≤ vec_capacity kept.old }
    ensures ok { OnOk result (PutsOutput A.says answerer.old
        (take most (kept.old.items ++ line.now)) answerer.new
        (K.held sink.old) (K.held sink.new)
        (A.Batch.bytes batch.old) (A.Batch.bytes batch.new)) }
    ensures err { OnErr result (FailsOutput A.says answerer.old
        (take most (kept.old.items ++ line.now))
        (K.held sink.old) (K.held sink.new) (A.Batch.bytes batch.old)) }
    ensures none { kept.new.items ≡ [] }
    ensures room { vec_capacity kept.old ≤ vec_capacity kept.new }
    ensures cause { HasCause (K.faults sink.old) (K.faults sink.new) result }
{
    if kept.is_empty() {
        answerer.answer(sink, batch, &line[..line.len().min(most)])
    } else {
        answer_kept(answerer, sink, batch, kept, most, line)
    }
}

/// The same where some bytes were kept.
fn answer_kept<A: AnswersLines, K: Sink>(
    answerer: &mut A,
    sink: &mut K,
    batch: &mut A::Batch,
    kept: &mut Vec<u8>,
    most: usize,
    line: &[u8],
) -> Result<(), Failed>
    requires len { vec_len kept.old ≤ most }
    requires room { most ≤ vec_capacity kept.old }
    ensures ok { OnOk result (PutsOutput A.says answerer.old
        (take most (kept.old.items ++ line.now)) answerer.new
        (K.held sink.old) (K.held sink.new)
        (A.Batch.bytes batch.old) (A.Batch.bytes batch.new)) }
    ensures err { OnErr result (FailsOutput A.says answerer.old
        (take most (kept.old.items ++ line.now))
        (K.held sink.old) (K.held sink.new) (A.Batch.bytes batch.old)) }
    ensures none { kept.new.items ≡ [] }
    ensures room { vec_capacity kept.old ≤ vec_capacity kept.new }
    ensures cause { HasCause (K.faults sink.old) (K.faults sink.new) result }
{
    keep(kept, most, line);
    let result = answerer.answer(sink, batch, kept);
    kept.clear();
    result
}

/// Keeps more bytes, as many as are kept of a line.
fn keep(kept: &mut Vec<u8>, most: usize, bytes: &[u8])
    requires len { vec_len kept.old ≤ most }
    requires room { most ≤ vec_capacity kept.old }
    ensures items { kept.new.items ≡ take most (kept.old.items ++ bytes.now) }
    ensures len { vec_len kept.new ≤ most }
    ensures room { vec_capacity kept.old ≤ vec_capacity kept.new }
{
    let count = bytes.len().min(most - kept.len());
    kept.extend_from_slice(&bytes[..count]).unwrap();
}

/// Appends the reply to a line, and its line feed. As a call of its own it would cost the shortest lines a sixth more.
#[inline(always)]
pub fn push_reply(batch: &mut Batch, line: &[u8])
    requires room { array_string_len batch.old + LONGEST ≤ BATCH }
    ensures { PushesReply line.now batch.old.bytes batch.new.bytes }
{
    push_line_reply(line, batch);
    batch.push('\n');
}
