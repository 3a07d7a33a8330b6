//! Local times: section "Local Time" of the TOML specification.
ghost use Rattle.std.specs.Prelude.{Some};
ghost use Rattle.port_toml_datetime.specs.Texts.{partial_time_text};

use crate::text::time_text;
use std::fmt;
use std::fmt::Display;

/// A time of day, without any relation to a day, an offset or a zone.
///
/// What is read has a second wherever it has nanoseconds. The fields may hold any number; the
/// written text is exact for each. Times are ordered by hour, then minute, then second, then
/// nanosecond, and a part that isn't there comes before each that is.
#[derive(Clone, Copy, Debug, PartialEq, Eq, PartialOrd, Ord)]
pub struct Time {
    /// The hour: 0 to 23 where it was read.
    pub hour: u8,
    /// The minute: 0 to 59 where it was read.
    pub minute: u8,
    /// The second: 0 to 60 where it was read, 60 for a leap second. None where it isn't written.
    pub second: Option<u8>,
    /// The nanosecond: 0 to 999,999,999 where it was read. None where no fraction is written.
    pub nanosecond: Option<u32>,
}

/// `HH:MM`, then `:SS` where a second or a nanosecond is there, then `.` and the fraction where a
/// nanosecond is: `07:32`, `07:32:00`, `07:32:00.5`, `07:32:00.0` for a nanosecond of 0.
///
/// A nanosecond without a second stands behind `:00`. A number that has more digits is written
/// whole.
impl Display for Time {
    ghost output = { λ time. Some (partial_time_text time) };

    fn fmt<W: fmt::Write>(&self, f: &mut fmt::Formatter<W>) -> fmt::Result {
        f.write_str(time_text(*self).as_str())
    }
}
