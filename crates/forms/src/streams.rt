//! What a run reads from and writes to. A proof knows the bytes where the source or the sink tells them, and the
//! causes of failures always.
ghost use Rattle.std.specs.Prelude.{List, ℕ, length, Option};
ghost use Rattle.std.specs.Io.{ReadsAtMost, WritesAtMost};
ghost use Rattle.std.specs.Io.KnownBytes.{ReadConsumes, WriteAppends};
ghost use Rattle.forms.specs.Outside.{HasCause, CountsTaken, TakesSome};

/// A read or a write that failed. It carries nothing; the count of faults rose.
#[derive(Clone, Copy, Debug, PartialEq, Eq)]
pub struct Failed;

/// Where bytes come from.
pub trait Source {
    // The bytes still to come, where the source tells them.
    ghost left: { Self → Option (List ℕ) };

    // How many bytes it has given so far, a count of 64 bits.
    ghost taken: { Self → ℕ };

    // How many reads failed so far, a count of 64 bits that never falls.
    ghost faults: { Self → ℕ };

    /// Moves the next bytes into the front of `buf` and answers how many; 0 for a `buf` with room is the end.
    /// A read that failed took nothing.
    fn read(&mut self, buf: &mut [u8]) -> Result<usize, Failed>
        ensures bound { ReadsAtMost result buf.new }
        ensures bytes { ReadConsumes (left self.old) (left self.new) result buf.new }
        ensures count { CountsTaken (taken self.old) (taken self.new) (length buf.old) result }
        ensures cause { HasCause (faults self.old) (faults self.new) result };
}

/// Where bytes go to.
pub trait Sink {
    // The bytes taken so far, where the sink tells them.
    ghost held: { Self → Option (List ℕ) };

    // How many writes failed so far, a count of 64 bits that never falls.
    ghost faults: { Self → ℕ };

    /// Takes bytes from the front of `piece` and answers how many, at least one unless the piece is empty.
    /// A write that failed took nothing.
    fn write(&mut self, piece: &[u8]) -> Result<usize, Failed>
        ensures bound { WritesAtMost result piece.now }
        ensures bytes { WriteAppends (held self.old) (held self.new) result piece.now }
        ensures some { TakesSome piece.now result }
        ensures cause { HasCause (faults self.old) (faults self.new) result };
}
