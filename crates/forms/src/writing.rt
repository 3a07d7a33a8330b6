//! Writing a whole text.
ghost use Rattle.std.specs.Prelude.{◌<◌, length, IfOk, OnOk, OnErr};
ghost use Rattle.std.specs.Io.{WritesAtMost};
ghost use Rattle.std.specs.Io.KnownBytes.{Appends, WriteAppends};
ghost use Rattle.forms.specs.Outside.{HasCause, AppendsFront};

use crate::streams::{Failed, Sink};

/// Writes the whole text, or as much as the sink takes before it fails.
pub fn write_all<K: Sink>(sink: &mut K, text: &[u8]) -> Result<(), Failed>
    ensures ok { OnOk result (Appends (K.held sink.old) (K.held sink.new) text.now) }
    ensures err { OnErr result (AppendsFront (K.held sink.old) (K.held sink.new) text.now) }
    ensures cause { HasCause (K.faults sink.old) (K.faults sink.new) result }
{
    let mut at = 0;
    while at < text.len() {
        at += write_some(sink, &text[at..])?;
    }
    Ok(())
}

/// Writes a front of a piece that isn't empty. Each write of a run goes through here, so none is of an empty piece.
fn write_some<K: Sink>(sink: &mut K, piece: &[u8]) -> Result<usize, Failed>
    requires some { 0 < length piece.now }
    ensures bound { WritesAtMost result piece.now }
    ensures bytes { WriteAppends (K.held sink.old) (K.held sink.new) result piece.now }
    ensures progress { IfOk result (λ n. 0 < n) }
    ensures cause { HasCause (K.faults sink.old) (K.faults sink.new) result }
{
    sink.write(piece)
}
