//! Answering an input while it is read, piece by piece.
ghost use Rattle.std.specs.Prelude.{◌≡◌, ◌≢◌, ◌^◌, ◌<◌, ◌≤◌, [], vec_len, vec_capacity};
ghost use Rattle.forms.specs.Ends.{streams};
ghost use Rattle.forms.specs.Outputs.{cut, EndedBy};

use crate::answers_lines::{AnswersLines, Waits};
use crate::piece_lines::{answer_last, answer_piece};
use crate::run_end::RunEnd;
use crate::streams::{Failed, Sink, Source};
use crate::waiting::Batch;

/// How many bytes a read asks for at most.
const PIECE: usize = 65_536;

/// Answers the lines of a source until its end, or until one byte more than the limit came: `run` is this with requests.
///
/// The outputs for all whole lines that were taken are written before the next read. A line is shown to the answerer by its first `most`
/// bytes. Nothing waits in the batch at first; `kept` holds the part of a line at a piece's end and takes no memory beyond what it has.
pub fn answer_lines<A: AnswersLines, S: Source, K: Sink>(
    answerer: &mut A,
    source: &mut S,
    sink: &mut K,
    batch: &mut A::Batch,
    kept: &mut Vec<u8>,
    most: usize,
    limit: usize,
) -> RunEnd
    requires waiting { A.Batch.bytes batch.old ≡ [] }
    requires limit { limit ≤ 2 ^ 62 }
    requires most { 0 < most }
    requires room { most ≤ vec_capacity kept.old }
    requires empty { vec_len kept.old ≡ 0 }
    ensures memory { result ≢ RunEnd.NoMemory }
    ensures ended { EndedBy (cut most A.says) limit answerer.old answerer.new
        (streams S.left S.taken S.faults K.held K.faults source.old sink.old)
        (streams S.left S.taken S.faults K.held K.faults source.new sink.new)
        result }
{
    let mut piece = [0u8; PIECE];
    let mut room = limit + 1;
    while room > 0 {
        let want = room.min(piece.len());
        match source.read(&mut piece[..want]) {
            Ok(0) => {
                return match answer_last(answerer, sink, batch, kept) {
                    Ok(()) => RunEnd::Done,
                    Err(Failed) => RunEnd::WriteFault,
                };
            }
            Ok(count) => {
                let within = count.min(room - 1);
                match answer_piece(answerer, sink, batch, kept, most, &piece[..within]) {
                    Ok(()) => room -= count,
                    Err(Failed) => return RunEnd::WriteFault,
                }
            }
            Err(Failed) => return RunEnd::ReadFault,
        }
    }
    RunEnd::TooLong
}
