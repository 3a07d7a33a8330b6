//! A text whose bytes are shown by `look` alone.
use crate::steps::Steps;
use std::marker::Model;
use std::sync::ledger::Ledger;

/// A text whose bytes are shown by `look` alone, so that each look is counted.
#[derive(Drop)]
pub struct Looked<'a> {
    bytes: &'a [u8],
}

impl<'a> Model for Looked<'a> {
    ghost use Rattle.std.specs.Prelude.{List, ℕ};

    ghost Value = { List ℕ };

    ghost view = { λ s. s.bytes.now };
}

impl<'a> Looked<'a> {
    ghost use Rattle.std.specs.Prelude.{◌≡◌, ◌+◌, ◌<◌, ◌≤◌, ◌^◌, length, slice_index, take};

    /// The text.
    pub fn new(text: &'a str) -> Looked<'a>
        ensures { result ≡ text.now }
    {
        Looked {
            bytes: text.as_bytes(),
        }
    }

    /// A text by its bytes, which may be no UTF-8.
    pub fn of_bytes(bytes: &'a [u8]) -> Looked<'a>
        ensures { result ≡ bytes.now }
    {
        Looked { bytes }
    }

    /// How many bytes it has.
    pub fn len(&self) -> usize
        ensures length { result ≡ length self.now }
        ensures bound { result < 2 ^ 63 }
    {
        self.bytes.len()
    }

    /// Its first `end` bytes, as a text of their own.
    pub fn up_to(&self, end: usize) -> Looked<'a>
        requires { end ≤ length self.now }
        ensures { result ≡ take end self.now }
    {
        Looked {
            bytes: &self.bytes[..end],
        }
    }

    /// Byte `i`, counted as one look.
    #[inline(always)]
    pub fn look<L: Ledger>(&self, i: usize, steps: &mut Steps<L>) -> u8
        requires { i < length self.now }
        ensures byte { result ≡ slice_index self.now i }
        ensures tick { steps.new ≡ steps.old + 1 }
    {
        steps.tick();
        self.bytes[i]
    }
}
