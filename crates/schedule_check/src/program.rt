//! The program.
ghost use Rattle.std.specs.Prelude.{◌≡◌, ◌≢◌, ◌⊎◌, ◌↔◌, codes};
ghost use Rattle.forms.specs.Ends.{streams};
ghost use Rattle.whole_input.specs.Outcomes.{EndedWhole, MeansStatus};
ghost use Rattle.schedule_check.specs.Reports.{Reports};

use crate::report::Schedule;
use forms::{Sink, Source};
use std::alloc::Global;
use whole_input::answer_whole;

/// How many bytes the input may have.
pub const LIMIT: u64 = 4_194_304;

/// The status for words that aren't known.
const UNKNOWN_WORDS: u8 = 2;

/// The program. With the word `schedule` it takes all bytes of the source, 4_194_304 at most, and reports on them: the first line that has
/// a fault, or else the first two slots that clash, or else all slots in order.
///
/// It answers the exit status: 0, 7 where two slots clash, 8 where a line has a fault, those of `RunEnd` for faults, too long an input and
/// want of memory, with nothing written but a front of the report at 4, and 2 for other words, with nothing taken and nothing written.
pub fn top<S: Source, K: Sink>(alloc: Global, words: &str, source: &mut S, sink: &mut K) -> u8
    // Other words are refused, with nothing taken and nothing written.
    ensures words { (result ≡ 2) ↔ (words.now ≢ codes "schedule") }
    ensures unknown { result ≡ 2 → (source.new ≡ source.old) × (sink.new ≡ sink.old) }

    // What was taken and written at each end, however the bytes were cut, and what the status means.
    ensures ended { words.now ≡ codes "schedule" → EndedWhole Reports 4_194_304
        (streams S.left S.taken S.faults K.held K.faults source.old sink.old)
        (streams S.left S.taken S.faults K.held K.faults source.new sink.new)
        result }
    ensures means { words.now ≡ codes "schedule" → MeansStatus Reports 4_194_304
        (streams S.left S.taken S.faults K.held K.faults source.old sink.old)
        (streams S.left S.taken S.faults K.held K.faults source.new sink.new)
        result }

    // Where a read failed, the input is too long or there is no memory nothing was written.
    ensures untouched { (result ≡ 3) ⊎ ((result ≡ 5) ⊎ (result ≡ 6)) → sink.new ≡ sink.old }
{
    if words != "schedule" {
        return UNKNOWN_WORDS;
    }
    answer_whole(alloc, &Schedule, source, sink, LIMIT)
}
