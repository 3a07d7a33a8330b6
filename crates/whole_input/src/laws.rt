//! Laws of what is taken and written, each the contract of a function with an empty body.
ghost use Rattle.std.specs.Prelude.{◌≡◌, ◌↔◌, ◌==◌, ◌&&◌, true, false, ℕ, IsTrue};
ghost use Rattle.whole_input.specs.declared.command.Response.{Response as AnyResponse};
ghost use Rattle.whole_input.specs.declared.filling.FillError.TheVariants as fill;
ghost use Rattle.whole_input.specs.declared.lines.LineError.TheVariants.{NoMemory, Refused};
ghost use Rattle.whole_input.specs.declared.reading.Taken.{Taken as AnyTaken};

use crate::command::Response;
use crate::filling::FillError;
use crate::lines::LineError;
use crate::reading::Taken;

/// Ends of taking an input are equal where they are one, and responses where their statuses are too.
pub fn equality_is_that_of_the_fields()
    ensures taken { (a b : AnyTaken) → IsTrue (⟦<Taken as PartialEq>⟧.eq a b) ↔ (a ≡ b) }
    ensures responses { (a b : AnyResponse)
        → IsTrue (⟦<Response as PartialEq>⟧.eq a b) ↔ (a ≡ b) }
{}

/// Why lines have no values is equal where the line and the fault are, or where both times there was no memory.
pub fn line_errors_are_equal_by_line_and_fault<F: PartialEq>()
    ensures refused { (line other : ℕ) (fault another : F)
        → ⟦<LineError<F> as PartialEq>⟧.eq (Refused line fault) (Refused other another)
        ≡ (line == other && F.eq fault another) }
    ensures no_memory { ⟦<LineError<F> as PartialEq>⟧.eq NoMemory NoMemory ≡ true }
    ensures apart { (line : ℕ) (fault : F)
        → (⟦<LineError<F> as PartialEq>⟧.eq (Refused line fault) NoMemory ≡ false)
        × (⟦<LineError<F> as PartialEq>⟧.eq NoMemory (Refused line fault) ≡ false) }
{}

/// Why lines have no values in a slice is equal where the line and the fault are, or where both times there was no room.
pub fn fill_errors_are_equal_by_line_and_fault<F: PartialEq>()
    ensures refused { (line other : ℕ) (fault another : F)
        → ⟦<FillError<F> as PartialEq>⟧.eq (fill.Refused line fault) (fill.Refused other another)
        ≡ (line == other && F.eq fault another) }
    ensures no_room { ⟦<FillError<F> as PartialEq>⟧.eq fill.NoRoom fill.NoRoom ≡ true }
    ensures apart { (line : ℕ) (fault : F)
        → (⟦<FillError<F> as PartialEq>⟧.eq (fill.Refused line fault) fill.NoRoom ≡ false)
        × (⟦<FillError<F> as PartialEq>⟧.eq fill.NoRoom (fill.Refused line fault) ≡ false) }
{}
