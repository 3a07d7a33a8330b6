//! A forward scan over a counted text. Each byte is looked at once, when the scan comes to it.
ghost use Rattle.std.specs.Prelude.{◌≡◌, ◌+◌, ◌<◌, ◌≤◌, ◌^◌, length, drop};
ghost use Rattle.scan_core.specs.Scanning.{front_byte, unseen};
ghost use Rattle.scan_core.specs.inside.Classes.{has_byte};

use crate::blank::is_blank;
use crate::looked::Looked;
use crate::steps::Steps;
use std::marker::Model;
use std::sync::ledger::Ledger;

/// A place in a text, and the byte in front, if any: it was looked at when the scan came there.
#[derive(Drop)]
pub struct Scan<'a> {
    text: &'a Looked<'a>,
    at: usize,
    front: Option<u8>,
}

impl<'a> Model for Scan<'a> {
    ghost use Rattle.std.specs.Prelude.{◌≡◌, ◌≤◌, ◌<◌, ◌^◌, length, drop};
    ghost use Rattle.scan_core.specs.Scanning.{Place, front_byte};

    ghost Value = { Place };

    ghost view = { λ s. record { text = s.text.now; at = s.at } };

    ghost invariant = { λ s. (s.at ≤ length s.text.now)
        × (length s.text.now < 2 ^ 63)
        × (s.front ≡ front_byte (drop s.at s.text.now)) };
}

/// The classes of bytes of which a scan passes as many as stand in front.
#[derive(Clone, Copy)]
pub(crate) enum Class {
    Digit,
    Letter,
    Blank,
}

impl Class {
    /// Whether the byte is of the class.
    #[inline(always)]
    fn has(self, byte: u8) -> bool
        ensures { result ≡ has_byte self byte }
    {
        match self {
            Class::Digit => byte.is_ascii_digit(),
            Class::Letter => byte.is_ascii_alphabetic(),
            Class::Blank => is_blank(byte),
        }
    }
}

/// The byte at a place, or None at the end.
#[inline(always)]
fn byte_at<L: Ledger>(text: &Looked<'_>, at: usize, steps: &mut Steps<L>) -> Option<u8>
    requires { at ≤ length text.now }
    ensures byte { result ≡ front_byte (drop at text.now) }
    ensures bound { length text.now < 2 ^ 63 }
    ensures ticks { steps.new + unseen (drop at text.now) ≡ steps.old + length (drop at text.now) }
{
    if at < text.len() {
        Some(text.look(at, steps))
    } else {
        None
    }
}

impl<'a> Scan<'a> {
    ghost use Rattle.std.specs.Prelude.{◌≡◌, ◌≢◌, ◌⊎◌, ◌+◌, ◌↔◌, ◌<◌, ◌≤◌, ◌^◌, [], ◌∷◌};
    ghost use Rattle.std.specs.Prelude.{IfSome, IfNone, IsTrue, length, Some, true, false};
    ghost use Rattle.scan_core.specs.Fronts.{leading};
    ghost use Rattle.scan_core.specs.Scanning.{Passes, ahead, front_byte, unseen};
    ghost use Rattle.scan_core.specs.inside.Classes.{has_byte};

    /// A scan at the text's begin, where the first byte was looked at.
    #[inline(always)]
    pub fn new<L: Ledger>(text: &'a Looked<'a>, steps: &mut Steps<L>) -> Scan<'a>
        ensures place { result ≡ record { text = text.now; at = 0 } }
        ensures bound { length text.now < 2 ^ 63 }
        ensures ticks { steps.new + unseen text.now ≡ steps.old + length text.now }
    {
        let front = byte_at(text, 0, steps);
        Scan { text, at: 0, front }
    }

    /// Another scan of the text at the same place. A loop over one of its own has the place in registers.
    #[inline(always)]
    pub fn here(&self) -> Scan<'a>
        ensures { result ≡ self.now }
    {
        Scan {
            text: self.text,
            at: self.at,
            front: self.front,
        }
    }

    /// The text that is scanned.
    #[inline(always)]
    pub fn text(&self) -> &'a Looked<'a>
        ensures { result.now ≡ self.now.text }
    {
        self.text
    }

    /// The place: how many bytes were passed.
    #[inline(always)]
    pub fn at(&self) -> usize
        ensures place { result ≡ self.now.at }
        ensures within { result + length (ahead self.now) ≡ length self.now.text }
        ensures bound { length self.now.text < 2 ^ 63 }
    {
        self.at
    }

    /// How many bytes are ahead.
    #[inline(always)]
    pub(crate) fn left(&self) -> usize
        ensures { result ≡ length (ahead self.now) }
    {
        self.text.len() - self.at
    }

    /// The byte in front, or None at the end. It was looked at before.
    #[inline(always)]
    pub fn peek(&self) -> Option<u8>
        ensures { result ≡ front_byte (ahead self.now) }
    {
        self.front
    }

    /// Whether nothing is left.
    #[inline(always)]
    pub fn is_done(&self) -> bool
        ensures { IsTrue result ↔ (ahead self.now ≡ []) }
    {
        self.front.is_none()
    }

    /// The byte in front, which is passed, or None at the end.
    #[inline(always)]
    pub fn next<L: Ledger>(&mut self, steps: &mut Steps<L>) -> Option<u8>
        ensures front { result ≡ front_byte (ahead self.old) }
        ensures some { IfSome result (λ byte. Passes (byte ∷ []) self.old self.new) }
        ensures none { IfNone result ((ahead self.old ≡ []) × (self.new ≡ self.old)) }
        ensures ticks { steps.new + unseen (ahead self.new) ≡ steps.old + unseen (ahead self.old) }
    {
        let byte = self.front?;
        self.at += 1;
        self.front = byte_at(self.text, self.at, steps);
        Some(byte)
    }

    /// Passes the byte in front, behind which another stands: the end of the text isn't looked for.
    #[inline(always)]
    pub(crate) fn next_inside<L: Ledger>(&mut self, steps: &mut Steps<L>)
        requires { 1 < length (ahead self.old) }
        ensures passed { IfSome (front_byte (ahead self.old))
            (λ byte. Passes (byte ∷ []) self.old self.new) }
        ensures left { length (ahead self.new) + 1 ≡ length (ahead self.old) }
        ensures ticks { steps.new + unseen (ahead self.new) ≡ steps.old + unseen (ahead self.old) }
    {
        self.at += 1;
        self.front = Some(self.text.look(self.at, steps));
    }

    /// Passes the byte in front where it is this one, and answers whether it was.
    #[inline(always)]
    pub fn next_if<L: Ledger>(&mut self, byte: u8, steps: &mut Steps<L>) -> bool
        ensures passed { result ≡ true → Passes (byte ∷ []) self.old self.new }
        ensures other { result ≡ false
            → (self.new ≡ self.old) × (front_byte (ahead self.old) ≢ Some byte) }
        ensures ticks { steps.new + unseen (ahead self.new) ≡ steps.old + unseen (ahead self.old) }
    {
        match self.peek() {
            Some(first) if first == byte => {
                self.next(steps);
                true
            }
            _ => false,
        }
    }

    /// The byte in front where it is of the class. A loop makes use of it before it is passed, so that the end of the text is
    /// looked for once a byte.
    #[inline(always)]
    pub(crate) fn peek_in(&self, class: Class) -> Option<u8>
        ensures some { IfSome result
            (λ byte. (has_byte class byte ≡ true) × (front_byte (ahead self.now) ≡ Some byte)) }
        ensures none { IfNone result (leading (has_byte class) (ahead self.now) ≡ []) }
    {
        match self.peek() {
            Some(first) if class.has(first) => Some(first),
            _ => None,
        }
    }

    /// The byte in front where it is of the class, unless no more are to be.
    #[inline(always)]
    pub(crate) fn peek_few(&self, class: Class, left: usize) -> Option<u8>
        ensures some { IfSome result
            (λ byte. (0 < left) × (has_byte class byte ≡ true)
            × (front_byte (ahead self.now) ≡ Some byte)) }
        ensures none { IfNone result
            ((left ≡ 0) ⊎ (leading (has_byte class) (ahead self.now) ≡ [])) }
    {
        if left == 0 {
            return None;
        }
        self.peek_in(class)
    }
}
