//! What answers lines, and what waits of its outputs for one write.
ghost use Rattle.std.specs.Prelude.{◌≡◌, List, ℕ, [], OnOk, OnErr};
ghost use Rattle.std.specs.Io.KnownBytes.{Appends};
ghost use Rattle.forms.specs.Outside.{HasCause, AppendsFront};
ghost use Rattle.forms.specs.Outputs.{PutsOutput, FailsOutput};

use crate::streams::{Failed, Sink};
use crate::waiting::{Batch, flush};

/// Bytes that wait for one write.
pub trait Waits {
    // The bytes that wait.
    ghost bytes: { Self → List ℕ };

    /// Writes all that waits.
    fn write_out<K: Sink>(&mut self, sink: &mut K) -> Result<(), Failed>
        ensures ok { OnOk result (Appends (K.held sink.old) (K.held sink.new) (bytes self.old)) }
        ensures err { OnErr result
            (AppendsFront (K.held sink.old) (K.held sink.new) (bytes self.old)) }
        ensures empty { OnOk result (bytes self.new ≡ []) }
        ensures cause { HasCause (K.faults sink.old) (K.faults sink.new) result };
}

impl Waits for Batch {
    ghost bytes = { λ batch. batch.bytes };

    #[inline(always)]
    fn write_out<K: Sink>(&mut self, sink: &mut K) -> Result<(), Failed> {
        flush(sink, self)
    }
}

/// What answers lines, one after another: `run` answers requests, and a crate above may answer lines of another kind by
/// `answer_lines`. What it has in mind from line to line is its value.
pub trait AnswersLines {
    /// How its outputs wait.
    type Batch: Waits;

    // What the output for a line is, with its line feed, and what has become of the answerer.
    ghost says: { Self → List ℕ → List ℕ → Self → Type 0 };

    /// Puts the output for a line behind what waits, and writes what waits where there is no room.
    fn answer<K: Sink>(
        &mut self,
        sink: &mut K,
        batch: &mut Self::Batch,
        line: &[u8],
    ) -> Result<(), Failed>
        ensures ok { OnOk result (PutsOutput says self.old line.now self.new
            (K.held sink.old) (K.held sink.new)
            (Self.Batch.bytes batch.old) (Self.Batch.bytes batch.new)) }
        ensures err { OnErr result (FailsOutput says self.old line.now
            (K.held sink.old) (K.held sink.new) (Self.Batch.bytes batch.old)) }
        ensures cause { HasCause (K.faults sink.old) (K.faults sink.new) result };
}
