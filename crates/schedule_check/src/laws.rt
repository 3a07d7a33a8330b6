//! Laws of schedules.
ghost use Rattle.std.specs.Prelude.{◌≡◌, ◌<◌, ◌≤◌, ℕ, List, All, AllPairs, IsPermutation, Result as AnyResult, Ok, ◌↔◌, IsTrue};
ghost use Rattle.forms.specs.Lines.{lines};
ghost use Rattle.whole_input.specs.Numbered.{AreRead};
ghost use Rattle.schedule_check.specs.Checks.{Checks};
ghost use Rattle.schedule_check.specs.Clashes.{IsNotAfter, IsFirstClash};
ghost use Rattle.schedule_check.specs.Reports.{Reports};
ghost use Rattle.schedule_check.specs.Slots.{IsSlot};
ghost use Rattle.schedule_check.specs.declared.check_error.CheckError.{CheckError as AnyError};
ghost use Rattle.schedule_check.specs.declared.check_into_error.CheckIntoError.{CheckIntoError as AnyIntoError};
ghost use Rattle.schedule_check.specs.declared.fault.Fault.{Fault as AnyFault};
ghost use Rattle.schedule_check.specs.declared.slot.Slot.{Slot as AnySlot};

use crate::check_error::CheckError;
use crate::check_into_error::CheckIntoError;
use crate::fault::Fault;
use crate::slot::Slot;

/// A line has one slot or one fault at most.
pub fn one_slot()
    ensures { (line : List ℕ) (number : ℕ) (a b : AnyResult AnySlot AnyFault) → IsSlot line number a
        → IsSlot line number b → a ≡ b }
{
    forms::laws::texts_have_one_reading();
}

/// Of slots in order one pair at most is the first clash: for its second place there is only one first one.
pub fn one_first_clash()
    ensures { (slots : List AnySlot) (i j k l : ℕ) → AllPairs IsNotAfter slots
        → All (λ slot. slot.start < slot.end) slots
        → IsFirstClash slots i j → IsFirstClash slots k l → (i ≡ k) × (j ≡ l) }
{}

/// The slots of a schedule are those of its lines, each once.
pub fn slots_are_those_of_the_lines()
    ensures { (input : List ℕ) (ordered : List AnySlot) → Checks input (Ok ordered)
        → (slots : List AnySlot) × AreRead IsSlot 1 (lines input) slots
        × IsPermutation slots ordered }
{}

/// In a schedule each slot ends before the next one starts, or as it starts, so the slots are in order of their ends too.
pub fn slots_end_in_order()
    ensures apart { (input : List ℕ) (ordered : List AnySlot) → Checks input (Ok ordered)
        → AllPairs (λ a b. a.end ≤ b.start) ordered }
    ensures ends { (input : List ℕ) (ordered : List AnySlot) → Checks input (Ok ordered)
        → AllPairs (λ a b. a.end < b.end) ordered }
{}

/// An input has one answer at most.
pub fn one_answer()
    ensures { (input : List ℕ) (a b : AnyResult (List AnySlot) AnyError) → Checks input a
        → Checks input b → a ≡ b }
{
    forms::laws::texts_have_one_reading();
}

/// An input has one report at most, and one status.
pub fn one_report()
    ensures { (input out other : List ℕ) (status number : ℕ) → Reports input out status
        → Reports input other number → (out ≡ other) × (status ≡ number) }
{
    one_answer();
}

/// Slots, faults and refusals are equal where all their fields are.
pub fn equality_is_that_of_the_fields()
    ensures slots { (a b : AnySlot) → IsTrue (⟦<Slot as PartialEq>⟧.eq a b) ↔ (a ≡ b) }
    ensures faults { (a b : AnyFault) → IsTrue (⟦<Fault as PartialEq>⟧.eq a b) ↔ (a ≡ b) }
    ensures refusals { (a b : AnyError) → IsTrue (⟦<CheckError as PartialEq>⟧.eq a b) ↔ (a ≡ b) }
    ensures into { (a b : AnyIntoError)
        → IsTrue (⟦<CheckIntoError as PartialEq>⟧.eq a b) ↔ (a ≡ b) }
{}
