//! The calls on a whole text, which keep the value and drop the rest.
ghost use Rattle.std.specs.Prelude.{IfOk, IfErr};
ghost use Rattle.iso8601.specs.Dates.{IsDate};
ghost use Rattle.iso8601.specs.DateTimes.{IsDateTime};
ghost use Rattle.iso8601.specs.Durations.{IsDuration};
ghost use Rattle.iso8601.specs.Prefixes.{AnswersLongest, BeginsLongest, NoneBegins};
ghost use Rattle.iso8601.specs.Times.{IsTime};

use crate::parsers::{parse_date, parse_datetime, parse_duration, parse_time};
use crate::types::{Date, DateTime, Duration, ParseFailed, Time};
use std::str::FromStr;

/// The date that the longest prefix of the text writes, whatever follows it: `date("2015-11-02 21:56")` is 2 November 2015.
///
/// `ParseFailed` exactly where no prefix is a date.
pub fn date(string: &str) -> Result<Date, ParseFailed>
    ensures value { IfOk result (BeginsLongest IsDate string.now) }
    ensures none { IfErr result (λ e. NoneBegins IsDate string.now) }
{
    match parse_date(string.as_bytes()) {
        Ok((_, value)) => Ok(value),
        Err(failed) => Err(failed),
    }
}

/// The time that the longest prefix of the text writes, whatever follows it: `time("21:56:42 UTC")` is 21:56:42.
///
/// `ParseFailed` exactly where no prefix is a time.
pub fn time(string: &str) -> Result<Time, ParseFailed>
    ensures value { IfOk result (BeginsLongest IsTime string.now) }
    ensures none { IfErr result (λ e. NoneBegins IsTime string.now) }
{
    match parse_time(string.as_bytes()) {
        Ok((_, value)) => Ok(value),
        Err(failed) => Err(failed),
    }
}

/// The date-time that the longest prefix of the text writes, whatever follows it: `datetime("2015-11-03T21:56Z")`.
///
/// `ParseFailed` exactly where no prefix is a date-time.
pub fn datetime(string: &str) -> Result<DateTime, ParseFailed>
    ensures value { IfOk result (BeginsLongest IsDateTime string.now) }
    ensures none { IfErr result (λ e. NoneBegins IsDateTime string.now) }
{
    match parse_datetime(string.as_bytes()) {
        Ok((_, value)) => Ok(value),
        Err(failed) => Err(failed),
    }
}

/// The duration that the longest prefix of the text writes, whatever follows it: `duration("P1Y99D")`.
///
/// `ParseFailed` exactly where no prefix is a duration.
pub fn duration(string: &str) -> Result<Duration, ParseFailed>
    ensures value { IfOk result (BeginsLongest IsDuration string.now) }
    ensures none { IfErr result (λ e. NoneBegins IsDuration string.now) }
{
    match parse_duration(string.as_bytes()) {
        Ok((_, value)) => Ok(value),
        Err(failed) => Err(failed),
    }
}

/// The answers of [`date`].
impl FromStr for Date {
    type Err = ParseFailed;

    ghost from_str_gives = { AnswersLongest IsDate };

    fn from_str(s: &str) -> Result<Date, ParseFailed> {
        date(s)
    }
}

/// The answers of [`time`].
impl FromStr for Time {
    type Err = ParseFailed;

    ghost from_str_gives = { AnswersLongest IsTime };

    fn from_str(s: &str) -> Result<Time, ParseFailed> {
        time(s)
    }
}

/// The answers of [`datetime`].
impl FromStr for DateTime {
    type Err = ParseFailed;

    ghost from_str_gives = { AnswersLongest IsDateTime };

    fn from_str(s: &str) -> Result<DateTime, ParseFailed> {
        datetime(s)
    }
}

/// The answers of [`duration`].
impl FromStr for Duration {
    type Err = ParseFailed;

    ghost from_str_gives = { AnswersLongest IsDuration };

    fn from_str(s: &str) -> Result<Duration, ParseFailed> {
        duration(s)
    }
}
