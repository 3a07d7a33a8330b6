//! The command `sample`: a run in memory over lines that a generator makes, and a line that tells of the replies.
ghost use Rattle.std.specs.Prelude.{◌≡◌, ◌↔◌, ◌≤◌, ◌-◌, ◌/◌, ℕ, IsTrue, IfSome, IfNone};
ghost use Rattle.std.specs.Io.KnownBytes.{Appends};
ghost use Rattle.forms.specs.Replies.{AreReplies};
ghost use Rattle.forms.specs.Sample.{IsSample, SampleStands, sample_lines, told};

mod lines;
mod summary;

use crate::decimal::number_in_decimal;
use crate::laws;
use crate::memory_sink::MemSink;
use crate::memory_source::MemSource;
use crate::piece_lines::LONGEST;
use crate::program::{LIMIT, run};
use crate::run_end::RunEnd;
use crate::streams::{Failed, Sink};
use crate::writing::write_all;
use lines::sample_bytes;
use std::alloc::Global;
use summary::summary;

/// How many lines may be asked for.
const MOST: u64 = 100_000;

/// The count of lines that the words ask for, or None exactly where they aren't `sample` and a count from 1 to 100_000 in decimal,
/// without sign or leading zero: of `sample 10` it is 10.
pub fn sample_count(words: &str) -> Option<u64>
    ensures found { IfSome result (λ count. IsSample words.now count) }
    ensures none { IfNone result ((count : ℕ) → ¬ (IsSample words.now count)) }
{
    let count = number_in_decimal(words.strip_prefix("sample ")?)?;
    if is_count(count) { Some(count) } else { None }
}

/// Whether so many lines may be asked for.
fn is_count(count: u64) -> bool
    ensures { IsTrue result ↔ ((1 ≤ count) × (count ≤ 100_000)) }
{
    1 <= count && count <= MOST
}

/// Answers so many lines of the sample in memory, and writes a line to the sink that tells of the replies. It is done, or a write
/// failed, or there is no memory, with nothing written.
pub fn sample<K: Sink>(alloc: Global, count: u64, sink: &mut K) -> RunEnd
    requires { count ≤ 100_000 }
    ensures stands { SampleStands count
        (K.held sink.old) (K.held sink.new) (K.faults sink.old) (K.faults sink.new) result }
    ensures no_memory { result ≡ RunEnd.NoMemory → sink.new ≡ sink.old }
    ensures tenth { result ≡ RunEnd.Done → (bytes : ℕ)
        × Appends (K.held sink.old) (K.held sink.new)
        (told count (count - count / 10) (count / 10) bytes) }
{
    laws::a_tenth_of_a_sample_is_refused();
    let Some(replies) = answer_sample(alloc, count) else {
        return RunEnd::NoMemory;
    };
    let line = summary(count, replies.held());
    match write_all(sink, line.as_str().as_bytes()) {
        Ok(()) => RunEnd::Done,
        Err(Failed) => RunEnd::WriteFault,
    }
}

/// A sink with the replies to so many lines of the sample, or None for want of memory.
fn answer_sample(alloc: Global, count: u64) -> Option<MemSink>
    requires { count ≤ 100_000 }
    ensures { IfSome result (λ sink. AreReplies (sample_lines count) sink.held) }
{
    let Ok(lines) = sample_bytes(alloc, count) else {
        return None;
    };
    let Ok(mut source) = MemSource::new(alloc, &lines, usize::MAX, &[]) else {
        return None;
    };
    let Ok(mut sink) = MemSink::new(alloc, LONGEST * count as usize, usize::MAX, &[]) else {
        return None;
    };
    match run(alloc, &mut source, &mut sink, LIMIT) {
        RunEnd::Done => Some(sink),
        _ => None,
    }
}
