//! Where the text of a line stands.
ghost use Rattle.std.specs.Prelude.{IfSome, IfNone};
ghost use Rattle.text_lines.specs.Places.{HasNoPlace, IsPlace};

use crate::fields::field_at;
use crate::spaced::word_at;

/// Where the text of a line stands. Numbers count from 0 on: `Place::Field(1)` is what the words `field 2` ask for.
#[derive(Clone, Copy, Debug, PartialEq, Eq)]
pub enum Place {
    /// The whole line.
    Whole,
    /// A field; between fields stands a TAB.
    Field(u64),
    /// A word; between words stand spaces and TABs.
    Word(u64),
}

/// The text at a place, with what stands in front of it and behind it, or None exactly where the line has no such place.
pub fn text_at(line: &[u8], place: Place) -> Option<(&[u8], &[u8], &[u8])>
    ensures found { IfSome result (λ r. IsPlace place line.now r.0.now r.1.now r.2.now) }
    ensures none { IfNone result (HasNoPlace place line.now) }
{
    match place {
        Place::Whole => Some((&[], line, &[])),
        Place::Field(number) => field_at(line, number),
        Place::Word(number) => word_at(line, number),
    }
}
