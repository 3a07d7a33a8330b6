//! The negative numbers that calls answer in place of an answer.
ghost use Rattle.std.specs.Prelude.{◌≡◌};
ghost use Rattle.timeforms_c.specs.Codes.{code_of, code_of_fault};

use forms::Cause;
use schedule_check::Fault;

/// A number or a name that is no form's.
pub(crate) const NO_SUCH_FORM: i32 = -101;

/// A text that isn't UTF-8.
pub(crate) const NOT_UTF8: i32 = -102;

/// An answer that is longer than the room for it.
pub(crate) const NO_ROOM: i32 = -103;

/// Offsets of a cell that fall, or that leave the data.
pub(crate) const BAD_OFFSETS: i32 = -104;

/// Two slots that clash.
pub(crate) const CLASH: i32 = -105;

/// A line of a schedule that isn't UTF-8, or has no tab.
const BAD_LINE: i32 = -106;

/// A slot whose length is 0.
const EMPTY_LENGTH: i32 = -107;

/// Stands before the code of a cause where it is that of a slot's start.
const BAD_START: i32 = -200;

/// Stands before the code of a cause where it is that of a slot's length.
const BAD_LENGTH: i32 = -300;

/// The code of a cause.
pub(crate) fn code_of(cause: Cause) -> i32
    ensures { result ≡ code_of cause }
{
    match cause {
        Cause::Syntax => -1,
        Cause::NoSuchMoment => -2,
        Cause::Range => -3,
        Cause::Kind => -4,
        Cause::Precision => -5,
        Cause::Ambiguous => -6,
    }
}

/// The code of a line's fault.
pub(crate) fn code_of_fault(fault: Fault) -> i32
    ensures { result ≡ code_of_fault fault }
{
    match fault {
        Fault::Line => BAD_LINE,
        Fault::Start(cause) => BAD_START + code_of(cause),
        Fault::Length(cause) => BAD_LENGTH + code_of(cause),
        Fault::Empty => EMPTY_LENGTH,
    }
}
