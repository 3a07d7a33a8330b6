//! The check of a schedule.
ghost use Rattle.std.specs.Prelude.{◌≡◌, ◌≢◌, ◌⊎◌, ◌<◌, ◌≤◌, ℕ, pos, List, Result as AnyResult, Err};
ghost use Rattle.std.specs.Prelude.{length, take, drop};
ghost use Rattle.forms.specs.Lines.{lines};
ghost use Rattle.schedule_check.specs.Checks.{Checks, IsSchedule, answer_at};
ghost use Rattle.schedule_check.specs.declared.check_error.CheckError.{CheckError as AnyError};
ghost use Rattle.schedule_check.specs.declared.check_into_error.CheckIntoError.{CheckIntoError as AnyIntoError};
ghost use Rattle.schedule_check.specs.declared.slot.Slot.{Slot as AnySlot};
ghost use Rattle.timeforms_c.specs.Codes.{clash, no_room};
ghost use Rattle.timeforms_c.specs.Schedules.{TellsAnswer};

use crate::code::{CLASH, NO_ROOM, code_of_fault};
use schedule_check::{CheckIntoError, Slot, check_into};

/// Checks a schedule of lines, each a start, a tab and a length: the answer of `schedule_check::check`, with the slots at the front of the
/// array. `count` is how many lines there are, whatever is answered.
///
/// Answers 0 where each line has a slot and no two clash: then the slots stand in the places of the lines, by start and then by line. Else
/// it is the first of these that holds:
///
/// - `NO_ROOM` where there are more lines than places; then `count` alone is changed
/// - the code of the first line's fault that has one, whose number goes into `first`: `BAD_LINE`, `BAD_START` and the code of a cause,
///   `BAD_LENGTH` and the code of a cause, `EMPTY_LENGTH`
/// - `CLASH`, and the lines of the first two slots that clash go into `first` and `second`; all slots stand in order too
///
/// Behind the places of the lines all is as it was. `first` and `second` are changed where it says so and nowhere else.
#[unsafe(no_mangle)]
pub extern "C" fn timeforms_schedule_check(
    text: &[u8],
    slots: &mut [Slot],
    count: &mut usize,
    first: &mut u64,
    second: &mut u64,
) -> i32
    ensures count { count.new ≡ length (lines text.now) }
    ensures room { length slots.old < count.new
        → (result ≡ no_room) × (slots.new ≡ slots.old) }

    // Where there is room it tells the answer of the definition, and there is one.
    ensures answer { count.new ≤ length slots.old
        → (answer : AnyResult (List AnySlot) AnyError) × Checks text.now answer
        × TellsAnswer answer (take count.new slots.new) first.new second.new result }
    ensures exact { (answer : AnyResult (List AnySlot) AnyError) → count.new ≤ length slots.old
        → Checks text.now answer
        → TellsAnswer answer (take count.new slots.new) first.new second.new result }

    // What stands in the array at a clash, and what is as it was.
    ensures ordered { result ≡ clash → IsSchedule text.now (take count.new slots.new) }
    ensures len { length slots.new ≡ length slots.old }
    ensures places { drop count.new slots.new ≡ drop count.new slots.old }
    ensures first { (result ≡ pos 0) ⊎ (result ≡ no_room) → first.new ≡ first.old }
    ensures second { result ≢ clash → second.new ≡ second.old }
{
    let (lines, answer) = check_into(text, slots);
    *count = lines;
    told(answer, first, second)
}

/// Tells an answer: puts the numbers of the lines that it names into their places, and answers its code.
fn told(answer: Result<(), CheckIntoError>, first: &mut u64, second: &mut u64) -> i32
    ensures answer { (input : List ℕ) (slots : List AnySlot)
        → Checks input (answer_at slots answer)
        → TellsAnswer (answer_at slots answer) slots first.new second.new result }
    ensures room { answer ≡ Err AnyIntoError.NoRoom → result ≡ no_room }
    ensures clash { result ≡ clash
        → (a : ℕ) × (b : ℕ) × (answer ≡ Err (AnyIntoError.Clash a b)) }
    ensures first { (result ≡ pos 0) ⊎ (result ≡ no_room) → first.new ≡ first.old }
    ensures second { result ≢ clash → second.new ≡ second.old }
{
    match answer {
        Ok(()) => 0,
        Err(CheckIntoError::NoRoom) => NO_ROOM,
        Err(CheckIntoError::Refused { line, fault }) => {
            *first = line;
            code_of_fault(fault)
        }
        Err(
            CheckIntoError::Clash {
                first: early,
                second: late,
            },
        ) => {
            *first = early;
            *second = late;
            CLASH
        }
    }
}
