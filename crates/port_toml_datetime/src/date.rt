//! Local dates: section "Local Date" of the TOML specification.
ghost use Rattle.std.specs.Prelude.{Some};
ghost use Rattle.port_toml_datetime.specs.Texts.{full_date_text};

use crate::text::date_text;
use std::fmt;
use std::fmt::Display;

/// A day of the calendar, without any relation to an offset or a zone.
///
/// What is read is a real day. The fields may hold any number; the written text is exact for each.
/// Dates are ordered by year, then month, then day.
#[derive(Clone, Copy, Debug, PartialEq, Eq, PartialOrd, Ord)]
pub struct Date {
    /// The year: 0 to 9999 where it was read.
    pub year: u16,
    /// The month: 1 to 12 where it was read.
    pub month: u8,
    /// The day of the month: 1 to 28, 29, 30 or 31 where it was read.
    pub day: u8,
}

/// `YYYY-MM-DD`, such as `1979-05-27`. A number that has more digits is written whole.
impl Display for Date {
    ghost output = { λ date. Some (full_date_text date) };

    fn fmt<W: fmt::Write>(&self, f: &mut fmt::Formatter<W>) -> fmt::Result {
        f.write_str(date_text(*self).as_str())
    }
}
