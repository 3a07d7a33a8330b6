//! A sink in memory, which can be made to take small pieces, to be full and to fail at given calls.
ghost use Rattle.std.specs.Prelude.{◌≡◌};

use crate::faults::Faults;
use crate::streams::{Failed, Sink};
use std::alloc::{AllocError, Global};
use std::marker::Model;

/// A sink over memory that `new` reserves. It always tells what it holds.
#[derive(Drop)]
pub struct MemSink {
    held: Vec<u8>,
    room: usize,
    cut: usize,
    faults: Faults,
}

impl Model for MemSink {
    ghost use Rattle.std.specs.Prelude.{◌+◌, ◌≤◌, vec_len, vec_capacity};
    ghost use Rattle.forms.specs.Memory.{SinkState};

    ghost Value = { SinkState };

    ghost view = { λ s. record {
      held = s.held.items;
      room = s.room;
      faults = s.faults.count;
      calls = s.faults.calls;
      cut = s.cut;
      fails = s.faults.fails.items;
    } };

    ghost invariant = { λ s. (vec_len s.held + s.room ≤ vec_capacity s.held) × (1 ≤ s.cut) };
}

impl MemSink {
    ghost use Rattle.std.specs.Prelude.{◌≡◌, ◌≤◌, [], IfOk};

    /// An empty sink with room for `room` bytes in all. Each write takes at most `cut` bytes, `cut` at least 1, and the
    /// calls of `write` with the numbers in `fails`, from 0, fail. The one refusal is want of memory.
    pub fn new(alloc: Global, room: usize, cut: usize, fails: &[u64]) -> Result<MemSink, AllocError>
        requires { 1 ≤ cut }
        ensures { IfOk result (λ s. s ≡ record {
          held = [];
          room = room;
          faults = 0;
          calls = 0;
          cut = cut;
          fails = fails.now;
        }) }
    {
        Ok(MemSink {
            held: Vec::with_capacity(alloc, room)?,
            room,
            cut,
            faults: Faults {
                fails: Vec::from_slice(alloc, fails)?,
                calls: 0,
                count: 0,
            },
        })
    }

    /// The bytes taken.
    pub fn held(&self) -> &[u8]
        ensures { result.now ≡ self.now.held }
    {
        &self.held
    }

    /// How many writes failed.
    pub fn faults(&self) -> u64
        ensures { result ≡ self.now.faults }
    {
        self.faults.count
    }
}

impl Sink for MemSink {
    ghost use Rattle.std.specs.Prelude.{◌≡◌, ◌<◌, ◌↔◌, ◌⊎◌, length, take, Some, Contains, IsErr, IfOk, OnErr};
    ghost use Rattle.std.specs.Io.{WritesAtMost};
    ghost use Rattle.std.specs.Io.KnownBytes.{WriteAppends};
    ghost use Rattle.forms.specs.Outside.{HasCause, TakesSome};
    ghost use Rattle.forms.specs.Memory.{write_len, after_write, after_failed_write};

    ghost held = { λ s. Some s.held };

    ghost faults = { λ s. s.faults };

    fn write(&mut self, piece: &[u8]) -> Result<usize, Failed>
        ensures bound { WritesAtMost result piece.now }
        ensures bytes { WriteAppends (Some self.old.held) (Some self.new.held) result piece.now }
        ensures some { TakesSome piece.now result }
        ensures cause { HasCause self.old.faults self.new.faults result }
        ensures fails { IsErr result ↔
            (Contains self.old.fails self.old.calls
            ⊎ ((self.old.room ≡ 0) × (0 < length piece.now))) }
        ensures failed { OnErr result (self.new ≡ after_failed_write self.old) }
        ensures given { IfOk result (λ n.
            (n ≡ write_len self.old (length piece.now))
            × (self.new ≡ after_write self.old (take n piece.now))) }
    {
        let count = self.cut.min(self.room).min(piece.len());
        if self.faults.next_call_fails() || (count == 0 && !piece.is_empty()) {
            self.faults.count_fault();
            return Err(Failed);
        }
        self.held.extend_from_slice(&piece[..count]).unwrap();
        self.room -= count;
        Ok(count)
    }
}
