//! Checking a schedule.
ghost use Rattle.std.specs.Prelude.{◌≡◌, ◌⊎◌, List, Result as AnyResult, Err};
ghost use Rattle.schedule_check.specs.Checks.{Checks};
ghost use Rattle.schedule_check.specs.declared.check_error.CheckError.{CheckError as AnyError};
ghost use Rattle.schedule_check.specs.declared.slot.Slot.{Slot as AnySlot};

use crate::check_error::CheckError;
use crate::clashes::clash_in_order;
use crate::laws;
use crate::line::SlotLines;
use crate::table::Table;
use std::alloc::Global;
use whole_input::{LineError, read_lines};

/// The slots of all lines, by start and then by line. `Refused` is the first line that has a fault, with that fault; where none has, `Clash`
/// has the lines of the first two slots that clash: of the slots in order the first that clashes with an earlier one, and that one.
/// `NoMemory` may stand in place of each.
///
/// Of `1970-01-01T01:00:00Z`, a tab and `30m` in the first line, and `1970-01-01T00:00:00Z`, a tab and `1h` in the second, it is a table of
/// both, the second line first: slots that touch don't clash.
pub fn check(alloc: Global, bytes: &[u8]) -> Result<Table, CheckError>
    ensures checks { (result ≡ Err CheckError.NoMemory) ⊎ Checks bytes.now result }
    ensures exact { (answer : AnyResult (List AnySlot) AnyError) → Checks bytes.now answer
        → (result ≡ Err CheckError.NoMemory) ⊎ (result ≡ answer) }
{
    laws::one_answer();
    answer(alloc, bytes)
}

/// What `check` answers.
fn answer(alloc: Global, bytes: &[u8]) -> Result<Table, CheckError>
    ensures { (result ≡ Err CheckError.NoMemory) ⊎ Checks bytes.now result }
{
    let mut slots = match read_lines(alloc, &SlotLines, bytes) {
        Ok(slots) => slots,
        Err(LineError::Refused { line, fault }) => {
            return Err(CheckError::Refused { line, fault });
        }
        Err(LineError::NoMemory) => return Err(CheckError::NoMemory),
    };
    match clash_in_order(&mut slots) {
        Some((first, second)) => Err(CheckError::Clash { first, second }),
        None => Ok(Table::new(slots)),
    }
}
