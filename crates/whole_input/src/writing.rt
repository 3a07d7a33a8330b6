//! Writing a whole output.
ghost use Rattle.std.specs.Prelude.{◌≡◌, ◌≢◌, ◌≤◌, ℕ};
ghost use Rattle.std.specs.Io.KnownBytes.{Appends};
ghost use Rattle.forms.specs.Outside.{AppendsFront, Rose};

use crate::command::Response;
use forms::{Batch, Failed, Sink, flush, write_all};

/// Writes a whole output at once, whose status is this one: `Written(0)`, or `WriteFault` with a front of it written.
pub fn respond_with<K: Sink>(sink: &mut K, output: &[u8], status: u8) -> Response
    ensures written { (s : ℕ) → result ≡ Response.Written s
        → (s ≡ status) × Appends (K.held sink.old) (K.held sink.new) output.now }
    ensures unwritten { result ≡ Response.WriteFault → Rose (K.faults sink.old) (K.faults sink.new)
        × AppendsFront (K.held sink.old) (K.held sink.new) output.now }
    ensures memory { result ≢ Response.NoMemory }
    ensures later { K.faults sink.old ≤ K.faults sink.new }
{
    match write_all(sink, output) {
        Ok(()) => Response::Written(status),
        Err(Failed) => Response::WriteFault,
    }
}

/// The same of what still waits of an output that was put by `put_text`, text by text.
pub fn respond_waiting<K: Sink>(sink: &mut K, batch: &mut Batch, status: u8) -> Response
    ensures written { (s : ℕ) → result ≡ Response.Written s
        → (s ≡ status) × Appends (K.held sink.old) (K.held sink.new) batch.old.bytes }
    ensures unwritten { result ≡ Response.WriteFault → Rose (K.faults sink.old) (K.faults sink.new)
        × AppendsFront (K.held sink.old) (K.held sink.new) batch.old.bytes }
    ensures memory { result ≢ Response.NoMemory }
    ensures later { K.faults sink.old ≤ K.faults sink.new }
{
    match flush(sink, batch) {
        Ok(()) => Response::Written(status),
        Err(Failed) => Response::WriteFault,
    }
}
