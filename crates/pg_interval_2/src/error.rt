//! Why a text isn't read as an interval.
ghost use Rattle.std.specs.Prelude.{◌≡◌, ◌↔◌, IsTrue, Some};
ghost use Rattle.pg_interval_2.specs.Denotes.{IsRange};
ghost use Rattle.pg_interval_2.specs.ErrorText.{error_text};

use std::fmt;
use std::fmt::Display;

/// Why a text isn't read as an interval.
#[derive(Clone, Copy, Debug, PartialEq, Eq)]
pub enum ParseError {
    /// The text isn't in the style: `not an iso interval` and the like.
    InvalidInterval(&'static str),
    /// The text isn't in the style, since behind a number letters stand that name no unit, or one that was counted
    /// before: the bytes of the text from `start` up to `end`.
    BadUnit { start: usize, end: usize },
    /// A count of months, or their sum, leaves `i32`.
    InvalidYearMonth(&'static str),
    /// A count of days, or their sum, leaves `i32`.
    InvalidDay(&'static str),
    /// A count of microseconds, or their sum, leaves `i64`.
    InvalidTime(&'static str),
}

impl ParseError {
    /// The refusal of the months with this message.
    pub fn from_year_month(message: &'static str) -> ParseError
        ensures { result ≡ ParseError.InvalidYearMonth message.entry }
    {
        ParseError::InvalidYearMonth(message)
    }

    /// The refusal of the microseconds with this message.
    pub fn from_time(message: &'static str) -> ParseError
        ensures { result ≡ ParseError.InvalidTime message.entry }
    {
        ParseError::InvalidTime(message)
    }

    /// The refusal of a text that isn't in the style, with this message.
    pub fn from_invalid_interval(message: &'static str) -> ParseError
        ensures { result ≡ ParseError.InvalidInterval message.entry }
    {
        ParseError::InvalidInterval(message)
    }

    /// True exactly where the text is in the style and a part of it doesn't fit its type.
    pub fn is_range(&self) -> bool
        ensures { IsTrue result ↔ IsRange self.now }
    {
        match self {
            ParseError::InvalidYearMonth(_)
            | ParseError::InvalidDay(_)
            | ParseError::InvalidTime(_) => true,
            ParseError::InvalidInterval(_) | ParseError::BadUnit { .. } => false,
        }
    }
}

/// `Invalid day interval: Invalid day interval overflow detected.`: which refusal it is, and its message.
impl Display for ParseError {
    ghost output = { λ error. Some (error_text error) };

    fn fmt<W: fmt::Write>(&self, f: &mut fmt::Formatter<W>) -> fmt::Result {
        match self {
            ParseError::InvalidInterval(message) => write!(f, "Invalid interval: {message}"),
            ParseError::BadUnit { start, end } => {
                write!(f, "Invalid interval: bad unit at {start}..{end}")
            }
            ParseError::InvalidYearMonth(message) => {
                write!(f, "Invalid year/month interval: {message}")
            }
            ParseError::InvalidDay(message) => write!(f, "Invalid day interval: {message}"),
            ParseError::InvalidTime(message) => write!(f, "Invalid time interval: {message}"),
        }
    }
}
