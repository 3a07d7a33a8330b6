//! A program that takes its whole input before it writes.
ghost use Rattle.std.specs.Prelude.{◌≡◌, ◌≢◌, ◌⊎◌, ◌≤◌, ℕ, List, Bool, false, IsTrue};
ghost use Rattle.forms.specs.Ends.{streams};
ghost use Rattle.forms.specs.Outside.{Rose};
ghost use Rattle.whole_input.specs.Outcomes.{EndedWhole, GainsAll, GainsPart, IsWritten, MeansStatus};

use crate::reading::{Taken, take_all};
use forms::{RunEnd, Sink, Source};
use std::alloc::Global;

/// How the answer to a whole input was written.
#[derive(Clone, Copy, Debug, PartialEq, Eq)]
pub enum Response {
    /// It was written, and this is its status.
    Written(u8),
    /// A write failed.
    WriteFault,
    /// There was no memory, and nothing was written.
    NoMemory,
}

/// What a program writes of its whole input: a type that is one has no more to say than what goes into its output.
pub trait Command {
    // What it says of an input: the output and the status.
    ghost says: { Self → List ℕ → List ℕ → ℕ → Type 0 };

    // Whether it asks for memory once it has the input.
    ghost needs_memory: { Self → Bool };

    /// Writes what it says of the input, or nothing for want of memory.
    fn respond<K: Sink>(&self, alloc: Global, input: &[u8], sink: &mut K) -> Response
        ensures written { (status : ℕ) → result ≡ Response.Written status
            → GainsAll (says self.now) input.now status (K.held sink.old) (K.held sink.new) }
        ensures status { (status : ℕ) → result ≡ Response.Written status → IsWritten status }
        ensures unwritten { result ≡ Response.WriteFault
            → Rose (K.faults sink.old) (K.faults sink.new)
            × GainsPart (says self.now) input.now (K.held sink.old) (K.held sink.new) }
        ensures no_memory { result ≡ Response.NoMemory
            → IsTrue (needs_memory self.now) × (sink.new ≡ sink.old) }
        ensures later { K.faults sink.old ≤ K.faults sink.new };
}

/// Takes the whole input within a limit, and writes what a command says of it. It answers the exit status: the one that goes with the
/// output, or that of `RunEnd` for a fault, an input beyond the limit, or want of memory.
///
/// The input may have `limit` bytes, `limit` at most 1_073_741_824. `limit + 1` bytes are reserved before the first byte is read.
pub fn answer_whole<S: Source, K: Sink, C: Command>(
    alloc: Global,
    command: &C,
    source: &mut S,
    sink: &mut K,
    limit: u64,
) -> u8
    requires { limit ≤ 1_073_741_824 }
    ensures ended { EndedWhole (C.says command.now) limit
        (streams S.left S.taken S.faults K.held K.faults source.old sink.old)
        (streams S.left S.taken S.faults K.held K.faults source.new sink.new)
        result }
    ensures means { MeansStatus (C.says command.now) limit
        (streams S.left S.taken S.faults K.held K.faults source.old sink.old)
        (streams S.left S.taken S.faults K.held K.faults source.new sink.new)
        result }

    // It is never the status of unknown words.
    ensures known { result ≢ 2 }

    // Where a read failed, the input is too long or there is no memory nothing was written.
    ensures untouched { (result ≡ 3) ⊎ ((result ≡ 5) ⊎ (result ≡ 6)) → sink.new ≡ sink.old }

    // A command that asks for no memory of its own finds none before the first byte, if at all.
    ensures unread { result ≡ 6 → C.needs_memory command.now ≡ false → source.new ≡ source.old }
{
    let limit = limit as usize;
    let Ok(mut input) = Vec::with_capacity(alloc, limit + 1) else {
        return RunEnd::NoMemory.status();
    };
    match take_all(source, &mut input, limit) {
        Taken::All => match command.respond(alloc, &input, sink) {
            Response::Written(status) => status,
            Response::WriteFault => RunEnd::WriteFault.status(),
            Response::NoMemory => RunEnd::NoMemory.status(),
        },
        Taken::ReadFault => RunEnd::ReadFault.status(),
        Taken::TooLong => RunEnd::TooLong.status(),
    }
}
