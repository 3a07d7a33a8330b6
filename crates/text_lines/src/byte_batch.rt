//! Bytes that wait for one write.
ghost use Rattle.std.specs.Prelude.{◌≡◌, ◌+◌, ◌≤◌, ◌++◌, length, take, drop};

use forms::{Failed, Sink, Waits, write_all};
use std::alloc::{AllocError, Global};
use std::marker::Model;

/// How many bytes wait before they are written.
const WAITING: usize = 65_536;

/// How many bytes there may be: those that wait, and the output for the longest line behind them.
const ROOM: usize = 1_114_368;

/// Bytes that wait for one write, with room for the output of a line behind them: the first ones of a row of fixed length, so that to
/// put bytes is to copy them and to count.
#[derive(Drop)]
pub struct ByteBatch {
    row: Vec<u8>,
    len: usize,
}

impl Model for ByteBatch {
    ghost use Rattle.std.specs.Prelude.{◌≡◌, List, ℕ, ◌≤◌, take, vec_len};

    ghost Value = { List ℕ };

    ghost view = { λ s. take s.len s.row.items };

    ghost invariant = { λ s. (s.len ≤ 1_114_368) × (vec_len s.row ≡ 1_114_368) };
}

impl ByteBatch {
    ghost use Rattle.std.specs.Prelude.{◌≡◌, ◌+◌, ◌≤◌, [], ◌++◌, codes, length, IfOk, OnOk, OnErr};
    ghost use Rattle.forms.specs.Outside.{HasCause, AppendsFront};
    ghost use Rattle.forms.specs.Waiting.{Moves};

    /// No bytes, or want of memory.
    pub fn new(alloc: Global) -> Result<ByteBatch, AllocError>
        ensures { IfOk result (λ batch. batch ≡ []) }
    {
        Ok(ByteBatch {
            row: vec![in alloc; 0; ROOM]?,
            len: 0,
        })
    }

    /// Writes all that waits where it is much, so that there is room for the output of a line.
    #[inline(always)]
    pub fn make_room<K: Sink>(&mut self, sink: &mut K) -> Result<(), Failed>
        ensures room { OnOk result (length self.new + 1_048_832 ≤ 1_114_368) }
        ensures ok { OnOk result
            (Moves (K.held sink.old) (K.held sink.new) self.old [] self.new) }
        ensures err { OnErr result (AppendsFront (K.held sink.old) (K.held sink.new) self.old) }
        ensures cause { HasCause (K.faults sink.old) (K.faults sink.new) result }
    {
        if self.len >= WAITING {
            return self.write_out(sink);
        }
        Ok(())
    }

    /// Puts bytes behind what waits.
    #[inline(always)]
    pub fn push(&mut self, bytes: &[u8])
        requires { length self.old + length bytes.now ≤ 1_114_368 }
        ensures { self.new ≡ self.old ++ bytes.now }
    {
        put_at(&mut self.row, self.len, bytes);
        self.len += bytes.len();
    }

    /// Puts a line feed behind what waits.
    #[inline(always)]
    pub fn push_feed(&mut self)
        requires { length self.old + 1 ≤ 1_114_368 }
        ensures { self.new ≡ self.old ++ codes "\n" }
    {
        self.row[self.len] = b'\n';
        self.len += 1;
    }
}

impl Waits for ByteBatch {
    ghost use Rattle.std.specs.Prelude.{List, ℕ};

    ghost bytes = { λ batch. batch };

    fn write_out<K: Sink>(&mut self, sink: &mut K) -> Result<(), Failed> {
        write_all(sink, &self.row[..self.len])?;
        self.len = 0;
        Ok(())
    }
}

/// Puts bytes at a place of a row.
#[inline(always)]
fn put_at(row: &mut [u8], at: usize, bytes: &[u8])
    requires { at + length bytes.now ≤ length row.old }
    ensures { row.new
        ≡ take at row.old ++ (bytes.now ++ drop (at + length bytes.now) row.old) }
{
    row[at..at + bytes.len()].copy_from_slice(bytes);
}
