//! Texts that wait for one write.
ghost use Rattle.std.specs.Prelude.{◌≡◌, ◌+◌, ◌≤◌, [], ◌++◌, length, OnOk, OnErr};
ghost use Rattle.std.specs.Io.KnownBytes.{Appends};
ghost use Rattle.arrayvec.specs.ArrayString.{array_string_len};
ghost use Rattle.forms.specs.Outside.{HasCause, AppendsFront};
ghost use Rattle.forms.specs.Waiting.{Moves};

use crate::streams::{Failed, Sink};
use crate::writing::write_all;
use arrayvec::ArrayString;

/// How many bytes wait for one write at most.
pub const BATCH: usize = 65_536;

/// Texts that wait for one write: `Batch::new()` has none.
pub type Batch = ArrayString<BATCH>;

/// Puts a text of at most 65_536 bytes behind what waits. Where there is no room for it, what waits is written first.
#[inline(always)]
pub fn put_text<K: Sink>(sink: &mut K, batch: &mut Batch, text: &str) -> Result<(), Failed>
    requires { length text.now ≤ 65_536 }
    ensures ok { OnOk result (Moves (K.held sink.old) (K.held sink.new)
        batch.old.bytes text.now batch.new.bytes) }
    ensures err { OnErr result (AppendsFront (K.held sink.old) (K.held sink.new)
        (batch.old.bytes ++ text.now)) }
    ensures cause { HasCause (K.faults sink.old) (K.faults sink.new) result }
{
    make_room(sink, batch, text.len())?;
    batch.push_str(text);
    Ok(())
}

/// Writes all that waits where there is no room for so many bytes, at most 65_536.
#[inline(always)]
pub fn make_room<K: Sink>(sink: &mut K, batch: &mut Batch, len: usize) -> Result<(), Failed>
    requires { len ≤ 65_536 }
    ensures room { OnOk result (array_string_len batch.new + len ≤ 65_536) }
    ensures ok { OnOk result
        (Moves (K.held sink.old) (K.held sink.new) batch.old.bytes [] batch.new.bytes) }
    ensures err { OnErr result (AppendsFront (K.held sink.old) (K.held sink.new) batch.old.bytes) }
    ensures cause { HasCause (K.faults sink.old) (K.faults sink.new) result }
{
    if batch.remaining_capacity() < len {
        return flush(sink, batch);
    }
    Ok(())
}

/// Writes all that waits.
pub fn flush<K: Sink>(sink: &mut K, batch: &mut Batch) -> Result<(), Failed>
    ensures ok { OnOk result (Appends (K.held sink.old) (K.held sink.new) batch.old.bytes) }
    ensures err { OnErr result (AppendsFront (K.held sink.old) (K.held sink.new) batch.old.bytes) }
    ensures empty { OnOk result (batch.new.bytes ≡ []) }
    ensures cause { HasCause (K.faults sink.old) (K.faults sink.new) result }
{
    write_all(sink, batch.as_str().as_bytes())?;
    batch.clear();
    Ok(())
}
