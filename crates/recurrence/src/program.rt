//! The program.
ghost use Rattle.std.specs.Prelude.{◌≡◌, ◌≢◌, ◌⊎◌, ◌↔◌, false, codes};
ghost use Rattle.forms.specs.Ends.{streams};
ghost use Rattle.whole_input.specs.Outcomes.{EndedWhole, MeansStatus};
ghost use Rattle.recurrence.specs.Replies.{Expands};

use crate::reply::write_replies;
use forms::{Failed, Sink, Source};
use std::alloc::Global;
use whole_input::{Command, Response, answer_whole};

/// How many bytes the input may have.
const LIMIT: u64 = 4_096;

/// The status for words that aren't known.
const UNKNOWN_WORDS: u8 = 2;

/// Writes the instants of series.
struct Recur;

impl Command for Recur {
    ghost says = { λ _. Expands };

    ghost needs_memory = { λ _. false };

    fn respond<K: Sink>(&self, _alloc: Global, input: &[u8], sink: &mut K) -> Response {
        match write_replies(sink, input) {
            Ok(()) => Response::Written(0),
            Err(Failed) => Response::WriteFault,
        }
    }
}

/// The program. With the word `recur` it takes all bytes of the source, 4_096 at most, and replies to each line, which asks for a series:
/// `R3/2015-01-31T00:00:00Z/P1M` is answered by the instants 0 to 3 months from the start, a line each.
///
/// It answers the exit status: 0, those of `RunEnd` for faults, too long an input and want of memory, and 2 for other words. It reserves
/// 4_097 bytes before the first is read, and no more. Nothing is written at 3, 5 and 6, and a prefix of the replies at 4; at 2 and 6
/// nothing is taken either.
pub fn top<S: Source, K: Sink>(alloc: Global, words: &str, source: &mut S, sink: &mut K) -> u8
    // Other words are refused, with nothing taken and nothing written.
    ensures words { (result ≡ 2) ↔ (words.now ≢ codes "recur") }
    ensures unknown { result ≡ 2 → (source.new ≡ source.old) × (sink.new ≡ sink.old) }

    // What was taken and written at each end, however the bytes were cut, and what the status means.
    ensures ended { words.now ≡ codes "recur" → EndedWhole Expands 4_096
        (streams S.left S.taken S.faults K.held K.faults source.old sink.old)
        (streams S.left S.taken S.faults K.held K.faults source.new sink.new)
        result }
    ensures means { words.now ≡ codes "recur" → MeansStatus Expands 4_096
        (streams S.left S.taken S.faults K.held K.faults source.old sink.old)
        (streams S.left S.taken S.faults K.held K.faults source.new sink.new)
        result }

    // Where a read failed, the input is too long or there is no memory nothing was written, and without memory nothing was taken.
    ensures untouched { (result ≡ 3) ⊎ ((result ≡ 5) ⊎ (result ≡ 6)) → sink.new ≡ sink.old }
    ensures unread { result ≡ 6 → source.new ≡ source.old }
{
    if words != "recur" {
        return UNKNOWN_WORDS;
    }
    answer_whole(alloc, &Recur, source, sink, LIMIT)
}
