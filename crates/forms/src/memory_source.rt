//! A source in memory, which can be made to give its bytes in small pieces and to fail at given calls.
ghost use Rattle.std.specs.Prelude.{◌≡◌, ◌≤◌, ◌++◌, min, length, take, drop};

use crate::faults::Faults;
use crate::streams::{Failed, Source};
use std::alloc::{AllocError, Global};
use std::marker::Model;

/// A source over bytes in memory. It always tells what is left.
#[derive(Drop)]
pub struct MemSource {
    bytes: Vec<u8>,
    at: usize,
    cut: usize,
    taken: u64,
    faults: Faults,
}

impl Model for MemSource {
    ghost use Rattle.std.specs.Prelude.{◌≤◌, drop, vec_len};
    ghost use Rattle.forms.specs.Memory.{SourceState};

    ghost Value = { SourceState };

    ghost view = { λ s. record {
      left = drop s.at s.bytes.items;
      taken = s.taken;
      faults = s.faults.count;
      calls = s.faults.calls;
      cut = s.cut;
      fails = s.faults.fails.items;
    } };

    ghost invariant = { λ s. (s.at ≤ vec_len s.bytes) × (1 ≤ s.cut) };
}

impl MemSource {
    ghost use Rattle.std.specs.Prelude.{◌≡◌, ◌≤◌, IfOk};

    /// A source of these bytes. Each read gives at most `cut` bytes, `cut` at least 1, and the calls of `read`
    /// with the numbers in `fails`, from 0, fail. The one refusal is want of memory.
    pub fn new(
        alloc: Global,
        bytes: &[u8],
        cut: usize,
        fails: &[u64],
    ) -> Result<MemSource, AllocError>
        requires { 1 ≤ cut }
        ensures { IfOk result (λ s. s ≡ record {
          left = bytes.now;
          taken = 0;
          faults = 0;
          calls = 0;
          cut = cut;
          fails = fails.now;
        }) }
    {
        Ok(MemSource {
            bytes: Vec::from_slice(alloc, bytes)?,
            at: 0,
            cut,
            taken: 0,
            faults: Faults {
                fails: Vec::from_slice(alloc, fails)?,
                calls: 0,
                count: 0,
            },
        })
    }

    /// The bytes still to come.
    pub fn left(&self) -> &[u8]
        ensures { result.now ≡ self.now.left }
    {
        &self.bytes[self.at..]
    }

    /// How many reads failed.
    pub fn faults(&self) -> u64
        ensures { result ≡ self.now.faults }
    {
        self.faults.count
    }
}

impl Source for MemSource {
    ghost use Rattle.std.specs.Prelude.{◌≡◌, ◌++◌, ◌↔◌, length, take, drop, Some, Contains, IsErr, IfOk, OnErr};
    ghost use Rattle.std.specs.Io.{ReadsAtMost};
    ghost use Rattle.std.specs.Io.KnownBytes.{ReadConsumes};
    ghost use Rattle.forms.specs.Outside.{HasCause, CountsTaken};
    ghost use Rattle.forms.specs.Memory.{read_len, after_read, after_failed_read};

    ghost left = { λ s. Some s.left };

    ghost taken = { λ s. s.taken };

    ghost faults = { λ s. s.faults };

    fn read(&mut self, buf: &mut [u8]) -> Result<usize, Failed>
        ensures bound { ReadsAtMost result buf.new }
        ensures bytes { ReadConsumes (Some self.old.left) (Some self.new.left) result buf.new }
        ensures count { CountsTaken self.old.taken self.new.taken (length buf.old) result }
        ensures cause { HasCause self.old.faults self.new.faults result }
        ensures fails { IsErr result ↔ Contains self.old.fails self.old.calls }
        ensures failed { OnErr result
            ((self.new ≡ after_failed_read self.old) × (buf.new ≡ buf.old)) }
        ensures given { IfOk result (λ n.
            (n ≡ read_len self.old (length buf.old))
            × (self.new ≡ after_read self.old n)
            × (buf.new ≡ take n self.old.left ++ drop n buf.old)) }
    {
        if self.faults.next_call_fails() {
            self.faults.count_fault();
            return Err(Failed);
        }
        let count = copy_front(self.left(), buf, self.cut);
        self.at += count;
        self.taken = self.taken.saturating_add(count as u64);
        Ok(count)
    }
}

/// Copies as many bytes as both have, and at most `most`, and answers how many.
fn copy_front(from: &[u8], to: &mut [u8], most: usize) -> usize
    ensures count { result ≡ min (min most (length to.old)) (length from.now) }
    ensures copied { to.new ≡ take result from.now ++ drop result to.old }
{
    let count = most.min(to.len()).min(from.len());
    to[..count].copy_from_slice(&from[..count]);
    count
}
