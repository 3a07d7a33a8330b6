//! The version of the calls.
ghost use Rattle.std.specs.Prelude.{codes};
ghost use Rattle.timeforms_c.specs.Rooms.{Leaves};

use crate::room::put_text;

/// Puts the version of this library into the room, and answers how many bytes that are: `1.1.0`.
#[unsafe(no_mangle)]
pub extern "C" fn timeforms_version(out: &mut [u8]) -> i32
    ensures { Leaves (codes "1.1.0") out.old out.new result }
{
    put_text(out, "1.1.0")
}
