//! A run over all lines of a source, and the program.
ghost use Rattle.std.specs.Prelude.{◌≡◌, ◌≢◌, ◌≤◌, ◌↔◌, ◌⊎◌, ℕ, List, ◌-◌, ◌/◌, [], ◌<◌, length, IfSome};
ghost use Rattle.std.specs.Io.KnownBytes.{Appends, IsAtEnd};
ghost use Rattle.forms.specs.Lines.{lines};
ghost use Rattle.forms.specs.Outside.{Rose};
ghost use Rattle.forms.specs.Ends.{GainsFront, Ended, EndedWith, streams};
ghost use Rattle.forms.specs.Replies.{AreReplies};
ghost use Rattle.forms.specs.Sample.{AreUnknown, IsSample, SampleEndedWith, told};

use crate::request_lines::Requests;
use crate::run_end::RunEnd;
use crate::sample::{sample, sample_count};
use crate::source_lines::answer_lines;
use crate::streams::{Sink, Source};
use crate::waiting::Batch;
use std::alloc::Global;

/// Writes one reply for each line of the source to the sink, in order, while it reads.
///
/// It reads on only when the replies to all lines taken so far were written, so nothing waits for the end: a source
/// that fails at its next call leaves those replies in the sink and nothing else. The replies to the whole lines of
/// one read go out in one write, or as many as a batch of 64 KiB needs, and no empty piece is written.
///
/// The input may have `limit` bytes, `limit` at most 1_073_741_824. `limit + 1` bytes are reserved before the first
/// byte is read, since one line may be so long, and no memory is asked for afterwards. What stands at each end is told
/// at `RunEnd`.
pub fn run<S: Source, K: Sink>(alloc: Global, source: &mut S, sink: &mut K, limit: u64) -> RunEnd
    requires { limit ≤ 1_073_741_824 }

    // What was taken and written at each end, however the bytes were cut.
    ensures ended { Ended limit
        (streams S.left S.taken S.faults K.held K.faults source.old sink.old)
        (streams S.left S.taken S.faults K.held K.faults source.new sink.new)
        result }

    // Want of memory comes before the first byte.
    ensures no_memory { result ≡ RunEnd.NoMemory
        → (source.new ≡ source.old) × (sink.new ≡ sink.old) }
{
    let limit = limit as usize;
    let Ok(mut kept) = Vec::with_capacity(alloc, limit + 1) else {
        return RunEnd::NoMemory;
    };
    let mut batch = Batch::new();
    answer_lines(
        &mut Requests,
        source,
        sink,
        &mut batch,
        &mut kept,
        limit + 1,
        limit,
    )
}

/// How many bytes the input of the program may have.
pub const LIMIT: u64 = 67_108_864;

/// The status for words that aren't known.
const UNKNOWN_WORDS: u8 = 2;

/// The program. Without words it runs over all lines of the source, with a limit of 67_108_864 bytes, and prints nothing but replies.
/// A line that is refused is a reply and doesn't change the status.
///
/// With `sample N`, N from 1 to 100_000 in decimal without sign or leading zero, it takes nothing from the source: it makes N lines,
/// answers them in memory, and writes one line such as `lines 10 ok 9 refused 1 bytes 378`, which tells how many replies are no refusals,
/// how many are refusals, and how many bytes they have in all. A tenth of the lines is refused.
///
/// It answers the exit status: that of the run's end, as `RunEnd::status` has it, or 2 for other words, with nothing taken and nothing
/// written.
pub fn top<S: Source, K: Sink>(alloc: Global, words: &str, source: &mut S, sink: &mut K) -> u8
    // Words that ask for nothing are refused, with nothing taken and nothing written.
    ensures words { (result ≡ 2) ↔ AreUnknown words.now }
    ensures untouched { result ≡ 2 → (source.new ≡ source.old) × (sink.new ≡ sink.old) }

    // Want of memory comes before the first byte.
    ensures no_memory { result ≡ 6 → (source.new ≡ source.old) × (sink.new ≡ sink.old) }

    // Without words the status is that of a run.
    ensures ended { words.now ≡ [] → EndedWith 67_108_864
        (streams S.left S.taken S.faults K.held K.faults source.old sink.old)
        (streams S.left S.taken S.faults K.held K.faults source.new sink.new)
        result }

    // At status 0 the end came, and each line of all that was left has its reply, however the bytes were cut.
    ensures done { words.now ≡ [] → result ≡ 0 → IsAtEnd (S.left source.new) }
    ensures replies { words.now ≡ [] → result ≡ 0 → IfSome (S.left source.old) (λ bytes.
        (out : List ℕ) × AreReplies (lines bytes) out
        × Appends (K.held sink.old) (K.held sink.new) out) }

    // Whatever the status, a front of the replies to all lines was written.
    ensures front { words.now ≡ [] → IfSome (S.left source.old) (λ bytes.
        GainsFront (lines bytes) (K.held sink.old) (K.held sink.new)) }

    // Without a fault an input is answered exactly where it is within the limit, or finds no memory.
    ensures within { words.now ≡ [] → IfSome (S.left source.old) (λ bytes. length bytes ≤ 67_108_864
        → ¬ (Rose (S.faults source.old) (S.faults source.new))
        → ¬ (Rose (K.faults sink.old) (K.faults sink.new))
        → (result ≡ 0) ⊎ (result ≡ 6)) }
    ensures beyond { words.now ≡ [] → IfSome (S.left source.old) (λ bytes. 67_108_864 < length bytes
        → ¬ (Rose (S.faults source.old) (S.faults source.new))
        → ¬ (Rose (K.faults sink.old) (K.faults sink.new))
        → (result ≡ 5) ⊎ (result ≡ 6)) }

    // A sample leaves the source, and ends with the line that tells of its replies, a fault, or want of memory.
    ensures source { words.now ≢ [] → source.new ≡ source.old }
    ensures sampled { (count : ℕ) → IsSample words.now count → SampleEndedWith count
        (K.held sink.old) (K.held sink.new) (K.faults sink.old) (K.faults sink.new) result }

    // At status 0 the line tells that a tenth of the replies are refusals, rounded down.
    ensures tenth { (count : ℕ) → IsSample words.now count → result ≡ 0 → (bytes : ℕ)
        × Appends (K.held sink.old) (K.held sink.new)
        (told count (count - count / 10) (count / 10) bytes) }
{
    if words.is_empty() {
        return run(alloc, source, sink, LIMIT).status();
    }
    match sample_count(words) {
        Some(count) => sample(alloc, count, sink).status(),
        None => UNKNOWN_WORDS,
    }
}
