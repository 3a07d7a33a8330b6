//! The end of a text: blanks, and perhaps `ago` before them. It is looked at from its last byte on.
ghost use Rattle.std.specs.Prelude.{◌≡◌, ◌+◌, ◌-◌, ◌<◌, ◌≤◌, ◌++◌, [], ◌∷◌, List, ℕ, IfSome, IfNone, true, false, codes, length, take};
ghost use Rattle.pg_interval_2.specs.inside.VerboseReading.{AreBlanksBetween, IsEnding, ends_solid};

use scan_core::{Looked, Steps, is_blank};
use std::sync::ledger::Ledger;

/// Where the body of a text ends, without the blanks behind it, and whether `ago` stands behind these.
#[derive(Clone, Copy)]
pub(crate) struct BodyEnd {
    pub(crate) end: usize,
    pub(crate) ago: bool,
}

/// The byte before a place, or None at the text's begin.
#[inline(always)]
fn byte_before<L: Ledger>(text: &Looked<'_>, end: usize, steps: &mut Steps<L>) -> Option<u8>
    requires { end ≤ length text.now }
    ensures some { IfSome result
        (λ byte. take end text.now ≡ take (end - 1) text.now ++ byte ∷ []) }
    ensures within { IfSome result (λ _. 0 < end) }
    ensures none { IfNone result (end ≡ 0) }
    ensures tick { IfSome result (λ _. steps.new ≡ steps.old + 1) }
    ensures most { steps.old ≤ steps.new }
    ensures least { steps.new ≤ steps.old + 1 }
{
    if end > 0 {
        Some(text.look(end - 1, steps))
    } else {
        None
    }
}

/// The place behind the last byte before `end` that isn't blank.
fn behind_last<L: Ledger>(text: &Looked<'_>, end: usize, steps: &mut Steps<L>) -> usize
    requires { end ≤ length text.now }
    ensures within { result ≤ end }
    ensures blanks { AreBlanksBetween text.now result end }
    ensures solid { ends_solid (take result text.now) ≡ true }
    ensures least { steps.old + (end - result) ≤ steps.new }
    ensures most { steps.new ≤ steps.old + (end - result) + 1 }
{
    let mut last = end;
    while let Some(byte) = byte_before(text, last, steps) {
        if !is_blank(byte) {
            return last;
        }
        last -= 1;
    }
    last
}

/// Whether the byte before a place is this one.
#[inline(always)]
fn ends_in<L: Ledger>(text: &Looked<'_>, end: usize, byte: u8, steps: &mut Steps<L>) -> bool
    requires { end ≤ length text.now }
    ensures yes { result ≡ true
        → (0 < end) × (take end text.now ≡ take (end - 1) text.now ++ byte ∷ []) }
    ensures no { result ≡ false → (front : List ℕ) → take end text.now ≡ front ++ byte ∷ [] → ⊥ }
    ensures tick { result ≡ true → steps.new ≡ steps.old + 1 }
    ensures least { steps.old ≤ steps.new }
    ensures most { steps.new ≤ steps.old + 1 }
{
    match byte_before(text, end, steps) {
        Some(last) => last == byte,
        None => false,
    }
}

/// Whether `ago` stands before a place.
fn ends_in_ago<L: Ledger>(text: &Looked<'_>, end: usize, steps: &mut Steps<L>) -> bool
    requires { end ≤ length text.now }
    ensures yes { result ≡ true
        → (3 ≤ end) × (take end text.now ≡ take (end - 3) text.now ++ codes "ago") }
    ensures no { result ≡ false → (front : List ℕ) → take end text.now ≡ front ++ codes "ago" → ⊥ }
    ensures least { result ≡ true → steps.old + 3 ≤ steps.new }
    ensures more { steps.old ≤ steps.new }
    ensures most { steps.new ≤ steps.old + 3 }
{
    if !ends_in(text, end, b'o', steps) {
        return false;
    }
    if !ends_in(text, end - 1, b'g', steps) {
        return false;
    }
    ends_in(text, end - 2, b'a', steps)
}

/// Where the body of a text ends, and whether `ago` stands behind it: each byte behind the body is looked at once, and
/// four more at most.
pub(crate) fn body_end<L: Ledger>(text: &Looked<'_>, steps: &mut Steps<L>) -> BodyEnd
    ensures within { result.end ≤ length text.now }
    ensures ending { IsEnding text.now result.end result.ago }
    ensures solid { ends_solid (take result.end text.now) ≡ true }
    ensures least { steps.old + (length text.now - result.end) ≤ steps.new }
    ensures most { steps.new ≤ steps.old + (length text.now - result.end) + 4 }
{
    let last = behind_last(text, text.len(), steps);
    if ends_in_ago(text, last, steps) {
        let end = behind_last(text, last - 3, steps);
        BodyEnd { end, ago: true }
    } else {
        BodyEnd {
            end: last,
            ago: false,
        }
    }
}
