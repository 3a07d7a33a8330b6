//! The calls of `scan_core` that write onto a short text.
ghost use Rattle.std.specs.Prelude.{◌≡◌, ◌≤◌};

use crate::told::{Answer, text};
use scan_core::{Short, push_num, push_padded, push_text, push_trimmed, push_two};
use std::alloc::Global;

/// A call that writes a number in a width.
#[derive(Clone, Copy)]
pub enum Pushed {
    NumAndPadded,
    Trimmed,
}

/// What the call writes of a number and a width.
#[tactic(auto, using(scan_core::proofs::DigitFacts::length_decimal_u64))]
pub fn answer(alloc: Global, call: Pushed, arguments: &str) -> Answer {
    let (value, width) = arguments.split_once(' ')?;
    let (value, width) = (value.parse::<u64>().ok()?, width.parse::<usize>().ok()?);
    if width > 20 {
        return None;
    }
    let mut out = Short::new();
    match call {
        Pushed::NumAndPadded => {
            push_text(&mut out, "T");
            push_num(&mut out, value);
            push_text(&mut out, " ");
            push_padded(&mut out, value, width);
        }
        Pushed::Trimmed => {
            push_text(&mut out, ".");
            push_trimmed(&mut out, value, width);
        }
    }
    text(alloc, out.as_str())
}

/// What `push_two` writes of a number below 100.
pub fn two_digits(alloc: Global, number: &str) -> Answer {
    let value = number.parse::<u64>().ok()?;
    if value >= 100 {
        return None;
    }
    let mut out = Short::new();
    push_two(&mut out, value);
    text(alloc, out.as_str())
}
