//! Checking a schedule in the slice of a caller.
ghost use Rattle.std.specs.Prelude.{◌≡◌, ◌<◌, ◌≤◌, ℕ, List, Result as AnyResult, Err, length, take, drop};
ghost use Rattle.forms.specs.Lines.{lines};
ghost use Rattle.schedule_check.specs.Checks.{Checks, IsSchedule, answer_at};
ghost use Rattle.schedule_check.specs.declared.check_error.CheckError.{CheckError as AnyError};
ghost use Rattle.schedule_check.specs.declared.slot.Slot.{Slot as AnySlot};

use crate::check_into_error::CheckIntoError;
use crate::clashes::clash_in_order;
use crate::laws;
use crate::line::SlotLines;
use crate::slot::Slot;
use whole_input::{FillError, read_lines_into};

/// What `check` does, with the slots at the front of a slice: how many lines there are, and `Ok` where each has a slot and no two clash.
/// It takes no memory. `NoRoom` comes exactly where there are more lines than places, and then all places are as they were. `Refused` and
/// `Clash` are those of `check`, and with `Clash` the slots of all lines stand in order too. Behind the places of the lines all is as it was.
///
/// Of `1970-01-01T01:00:00Z`, a tab and `30m` in the first line, and `1970-01-01T00:00:00Z`, a tab and `1h` in the second, it is 2 and `Ok`,
/// with the slot of the second line at the first place. With one place it is 2 and `NoRoom`.
pub fn check_into(bytes: &[u8], slots: &mut [Slot]) -> (usize, Result<(), CheckIntoError>)
    ensures count { result.0 ≡ length (lines bytes.now) }
    ensures room { length slots.old < result.0
        → (result.1 ≡ Err CheckIntoError.NoRoom) × (slots.new ≡ slots.old) }

    // Where there is room it is what `check` answers.
    ensures checks { result.0 ≤ length slots.old
        → Checks bytes.now (answer_at (take result.0 slots.new) result.1) }
    ensures exact { (answer : AnyResult (List AnySlot) AnyError) → result.0 ≤ length slots.old
        → Checks bytes.now answer → answer_at (take result.0 slots.new) result.1 ≡ answer }

    // What stands in the slice at a clash, and in the places that no line has.
    ensures ordered { (first second : ℕ) → result.1 ≡ Err (CheckIntoError.Clash first second)
        → IsSchedule bytes.now (take result.0 slots.new) }
    ensures len { length slots.new ≡ length slots.old }
    ensures places { drop result.0 slots.new ≡ drop result.0 slots.old }
{
    laws::one_answer();
    answer_into(bytes, slots)
}

/// What `check_into` answers.
fn answer_into(bytes: &[u8], slots: &mut [Slot]) -> (usize, Result<(), CheckIntoError>)
    ensures count { result.0 ≡ length (lines bytes.now) }
    ensures room { length slots.old < result.0
        → (result.1 ≡ Err CheckIntoError.NoRoom) × (slots.new ≡ slots.old) }
    ensures checks { result.0 ≤ length slots.old
        → Checks bytes.now (answer_at (take result.0 slots.new) result.1) }
    ensures ordered { (first second : ℕ) → result.1 ≡ Err (CheckIntoError.Clash first second)
        → IsSchedule bytes.now (take result.0 slots.new) }
    ensures len { length slots.new ≡ length slots.old }
    ensures places { drop result.0 slots.new ≡ drop result.0 slots.old }
{
    let (count, read) = read_lines_into(&SlotLines, bytes, slots);
    match read {
        Ok(()) => match clash_in_order(&mut slots[..count]) {
            Some((first, second)) => (count, Err(CheckIntoError::Clash { first, second })),
            None => (count, Ok(())),
        },
        Err(FillError::NoRoom) => (count, Err(CheckIntoError::NoRoom)),
        Err(FillError::Refused { line, fault }) => {
            (count, Err(CheckIntoError::Refused { line, fault }))
        }
    }
}
