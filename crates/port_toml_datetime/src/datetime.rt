//! Date-times of each kind.
ghost use Rattle.std.specs.Prelude.{◌≡◌, ◌+◌, ◌≤◌, ◌++◌, Some, None};
ghost use Rattle.arrayvec.specs.ArrayString.{array_string_len};
ghost use Rattle.port_toml_datetime.specs.Datetimes.{datetime_of};
ghost use Rattle.port_toml_datetime.specs.Reading.{IsReadFrom};
ghost use Rattle.port_toml_datetime.specs.Texts.{text_of};

use crate::read::read;
use crate::text::push_datetime;
use crate::{Date, DatetimeParseError, Offset, Time};
use arrayvec::ArrayString;
use scan_core::Short;
use std::fmt;
use std::fmt::Display;
use std::str::FromStr;

/// A date-time of TOML, by the parts that are there.
///
/// | `date` | `time` | `offset` | Kind |
/// |---|---|---|---|
/// | there | there | there | offset date-time: an instant |
/// | there | there | none | local date-time |
/// | there | none | none | local date |
/// | none | there | none | local time |
///
/// What is read is one of these. The fields may hold any parts and numbers; the written text is
/// exact for each. Date-times are ordered by date, then time, then offset, and a part that isn't
/// there comes before each that is. That is no order of instants.
#[derive(Clone, Copy, Debug, PartialEq, Eq, PartialOrd, Ord)]
pub struct Datetime {
    /// The date, where there is one.
    pub date: Option<Date>,
    /// The time, where there is one.
    pub time: Option<Time>,
    /// The offset, where there is one.
    pub offset: Option<Offset>,
}

impl Datetime {
    /// Reads a text by its bytes, which may be no UTF-8, as [`FromStr`] reads it: `Datetime::from_ascii(b"07:32:00")`. A text with a
    /// byte beyond ASCII is no date-time.
    pub fn from_ascii(date: &[u8]) -> Result<Datetime, DatetimeParseError>
        ensures { IsReadFrom date.now result }
    {
        read(date)
    }

    /// The written text, at most 43 bytes: `1979-05-27T07:32:00.5-07:00`. It takes no memory.
    ///
    /// The parts that are there, with `T` between a date and a time. The text of a value that was
    /// read is read back as that value.
    pub fn text(&self) -> Short
        ensures bytes { result.bytes ≡ text_of self.now }
        ensures short { array_string_len result ≤ 43 }
    {
        let mut out = Short::new();
        self.push_text(&mut out);
        out
    }

    /// Appends what [`Datetime::text`] answers to a text that has room for 43 bytes more: onto `at ` it makes
    /// `at 07:32:00`.
    pub fn push_text<const CAP: usize>(&self, out: &mut ArrayString<CAP>)
        requires room { array_string_len out.old + 43 ≤ CAP }
        ensures bytes { out.new.bytes ≡ out.old.bytes ++ text_of self.now }
        ensures len { array_string_len out.new ≤ array_string_len out.old + 43 }
    {
        push_datetime(out, *self);
    }
}

/// Reads the whole text: a date, a time, or both with `T`, `t` or a space between, and then perhaps
/// `Z`, `z` or a signed offset.
///
/// Of a fraction's digits the first nine are kept and the rest is cut. The error names the first
/// check that fails: `1979-02-30` is `invalid date, expected day between 01 and 28`.
impl FromStr for Datetime {
    type Err = DatetimeParseError;

    ghost from_str_gives = { IsReadFrom };

    fn from_str(date: &str) -> Result<Datetime, DatetimeParseError> {
        Datetime::from_ascii(date.as_bytes())
    }
}

/// The written text.
impl Display for Datetime {
    ghost output = { λ value. Some (text_of value) };

    fn fmt<W: fmt::Write>(&self, f: &mut fmt::Formatter<W>) -> fmt::Result {
        f.write_str(self.text().as_str())
    }
}

/// The local date.
impl From<Date> for Datetime {
    ghost from_gives = { λ date value. value ≡ datetime_of (Some date) None None };

    fn from(date: Date) -> Datetime {
        Datetime {
            date: Some(date),
            time: None,
            offset: None,
        }
    }
}

/// The local time.
impl From<Time> for Datetime {
    ghost from_gives = { λ time value. value ≡ datetime_of None (Some time) None };

    fn from(time: Time) -> Datetime {
        Datetime {
            date: None,
            time: Some(time),
            offset: None,
        }
    }
}
