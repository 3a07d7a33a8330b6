//! Why an input is no schedule in the slice of a caller.
use crate::fault::Fault;

/// Why an input has no slots that `check_into` answers.
#[derive(Clone, Copy, Debug, PartialEq, Eq)]
pub enum CheckIntoError {
    /// There are more lines than places.
    NoRoom,
    /// This line, from 1 on, is the first that has a fault.
    Refused { line: u64, fault: Fault },
    /// No line has a fault, and the slots of these lines clash. The first is the one that starts earlier, or has the lesser number.
    Clash { first: u64, second: u64 },
}
