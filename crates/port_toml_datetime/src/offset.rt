//! Offsets from UTC: section "Offset Date-Time" of the TOML specification.
ghost use Rattle.std.specs.Prelude.{Some};
ghost use Rattle.port_toml_datetime.specs.Texts.{time_offset_text};

use crate::text::offset_text;
use std::fmt;
use std::fmt::Display;

/// How far a local time is ahead of UTC.
///
/// `Z` comes before each `Custom`, and those are ordered by their minutes.
#[derive(Clone, Copy, Debug, PartialEq, Eq, PartialOrd, Ord)]
pub enum Offset {
    /// `Z` or `z`: the time is in UTC.
    Z,
    /// A signed offset, such as `-07:00`.
    Custom {
        /// The minutes, negative for west of Greenwich: -1439 to 1439 where they were read.
        /// `-00:00` is 0.
        minutes: i16,
    },
}

/// `Z`, or a sign and `HH:MM` of the magnitude: `-07:00`, `+00:00`. An hour with more digits is
/// written whole: `i16::MIN` minutes are `-546:08`.
impl Display for Offset {
    ghost output = { λ offset. Some (time_offset_text offset) };

    fn fmt<W: fmt::Write>(&self, f: &mut fmt::Formatter<W>) -> fmt::Result {
        f.write_str(offset_text(*self).as_str())
    }
}
