//! Why a text is no date-time.
ghost use Rattle.std.specs.Prelude.{◌≡◌, Some, option_map};
ghost use Rattle.port_toml_datetime.specs.Faults.{fault_text};
ghost use Rattle.port_toml_datetime.specs.inside.Words.{words_of};

use std::fmt;
use std::fmt::Display;
use std::marker::Model;

/// The checks that can fail, in the order of the table.
///
/// One byte says which it was, so that readers hand on no texts.
#[derive(Clone, Copy, Debug, PartialEq, Eq)]
pub(crate) enum Check {
    YearOrHour,
    YearOrHourMark,
    Month,
    MonthMark,
    Day,
    YearWidth,
    MonthWidth,
    DayWidth,
    MonthRange,
    DayTo28,
    DayTo29,
    DayTo30,
    DayTo31,
    Delimiter,
    Hour,
    HourMark,
    Minute,
    Second,
    Nanosecond,
    HourWidth,
    MinuteWidth,
    SecondWidth,
    HourRange,
    MinuteRange,
    SecondRange,
    Offset,
    OffsetHour,
    OffsetHourMark,
    OffsetMinute,
    OffsetHourWidth,
    OffsetMinuteWidth,
    OffsetHourRange,
    OffsetMinuteRange,
    End,
}

/// The part that is wrong, and what was expected there.
fn words(check: Check) -> (Option<&'static str>, Option<&'static str>)
    ensures what { option_map (λ s. s.now) result.0 ≡ (words_of check).what }
    ensures expected { option_map (λ s. s.now) result.1 ≡ (words_of check).expected }
{
    match check {
        Check::YearOrHour => (None, Some("year or hour")),
        Check::YearOrHourMark => (None, Some("`-` (YYYY-MM) or `:` (HH:MM)")),
        Check::Month => (Some("date"), Some("month")),
        Check::MonthMark => (Some("date"), Some("`-` (MM-DD)")),
        Check::Day => (Some("date"), Some("day")),
        Check::YearWidth => (Some("date"), Some("a four-digit year (YYYY)")),
        Check::MonthWidth => (Some("date"), Some("a two-digit month (MM)")),
        Check::DayWidth => (Some("date"), Some("a two-digit day (DD)")),
        Check::MonthRange => (Some("date"), Some("month between 01 and 12")),
        Check::DayTo28 => (Some("date"), Some("day between 01 and 28")),
        Check::DayTo29 => (Some("date"), Some("day between 01 and 29")),
        Check::DayTo30 => (Some("date"), Some("day between 01 and 30")),
        Check::DayTo31 => (Some("date"), Some("day between 01 and 31")),
        Check::Delimiter => (Some("date-time"), Some("`T` between date and time")),
        Check::Hour => (Some("time"), Some("hour")),
        Check::HourMark => (Some("time"), Some("`:` (HH:MM)")),
        Check::Minute => (Some("time"), Some("minute")),
        Check::Second => (Some("time"), Some("second")),
        Check::Nanosecond => (Some("time"), Some("nanosecond")),
        Check::HourWidth => (Some("time"), Some("a two-digit hour (HH)")),
        Check::MinuteWidth => (Some("time"), Some("a two-digit minute (MM)")),
        Check::SecondWidth => (Some("time"), Some("a two-digit second (SS)")),
        Check::HourRange => (Some("time"), Some("hour between 00 and 23")),
        Check::MinuteRange => (Some("time"), Some("minute between 00 and 59")),
        Check::SecondRange => (Some("time"), Some("second between 00 and 60")),
        Check::Offset => (Some("offset"), Some("`Z`, +OFFSET, -OFFSET")),
        Check::OffsetHour => (Some("offset"), Some("hour")),
        Check::OffsetHourMark => (Some("offset"), Some("`:` (HH:MM)")),
        Check::OffsetMinute => (Some("offset"), Some("minute")),
        Check::OffsetHourWidth => (Some("offset"), Some("a two-digit hour (HH)")),
        Check::OffsetMinuteWidth => (Some("offset"), Some("a two-digit minute (MM)")),
        Check::OffsetHourRange => (Some("offset"), Some("hours between 00 and 23")),
        Check::OffsetMinuteRange => (Some("offset"), Some("minutes between 00 and 59")),
        Check::End => (None, None),
    }
}

/// Why a text is no date-time: the part that is wrong, and what was expected there.
///
/// Two errors are equal exactly where they say the same.
#[derive(Clone, Copy, Debug)]
pub struct DatetimeParseError {
    check: Check,
}

impl Model for DatetimeParseError {
    ghost use Rattle.port_toml_datetime.specs.Faults.{Fault};
    ghost use Rattle.port_toml_datetime.specs.inside.Words.{words_of, check_of, same_check};

    ghost Value = { Fault };

    ghost view = { λ error. words_of error.check };

    ghost inverse = { λ said. record { check = check_of said } };

    ghost inverse_ok = { λ error _ i. record { check = same_check error.check i } };
}

impl DatetimeParseError {
    /// The error of the check that failed.
    pub(crate) fn new(check: Check) -> DatetimeParseError
        ensures { result ≡ words_of check }
    {
        DatetimeParseError { check }
    }

    /// The part that is wrong: `date`, `date-time`, `time` or `offset`. None where the text doesn't
    /// begin as a date or a time does, or where something follows a date-time.
    pub fn what(&self) -> Option<&'static str>
        ensures { option_map (λ s. s.now) result ≡ self.now.what }
    {
        words(self.check).0
    }

    /// What was expected where the text is wrong, such as `month between 01 and 12`. None where
    /// something follows a date-time.
    pub fn expected(&self) -> Option<&'static str>
        ensures { option_map (λ s. s.now) result ≡ self.now.expected }
    {
        words(self.check).1
    }
}

/// Errors are equal exactly where they say the same.
impl PartialEq for DatetimeParseError {
    ghost use Rattle.std.specs.Cmp.{on_equiv, and_equiv, partial_equiv_from_equiv};
    ghost use Rattle.std.specs.Cmp.Lexicographic.{nat_list_eq_equiv, options_equiv};
    ghost use Rattle.port_toml_datetime.specs.Faults.{says_same};

    ghost eq = { says_same };

    ghost laws = { partial_equiv_from_equiv
        (and_equiv (on_equiv (λ f. f.what) (options_equiv nat_list_eq_equiv))
        (on_equiv (λ f. f.expected) (options_equiv nat_list_eq_equiv))) };

    fn eq(&self, other: &DatetimeParseError) -> bool {
        self.what() == other.what() && self.expected() == other.expected()
    }
}

impl Eq for DatetimeParseError {
    ghost use Rattle.std.specs.Cmp.{on_equiv, and_equiv};
    ghost use Rattle.std.specs.Cmp.Lexicographic.{nat_list_eq_equiv, options_equiv};

    ghost laws = { and_equiv (on_equiv (λ f. f.what) (options_equiv nat_list_eq_equiv))
        (on_equiv (λ f. f.expected) (options_equiv nat_list_eq_equiv)) };
}

/// `invalid date, expected day between 01 and 28`: `invalid`, the part or `datetime`, and what was
/// expected.
impl Display for DatetimeParseError {
    ghost output = { λ error. Some (fault_text error) };

    fn fmt<W: fmt::Write>(&self, f: &mut fmt::Formatter<W>) -> fmt::Result {
        let what = self.what().unwrap_or("datetime");
        match self.expected() {
            Some(expected) => write!(f, "invalid {what}, expected {expected}"),
            None => write!(f, "invalid {what}"),
        }
    }
}
