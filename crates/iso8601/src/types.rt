//! The values that are read and written: what a text says, whether or not there is such a day or such a clock time.
ghost use Rattle.std.specs.Prelude.{◌≡◌};
ghost use Rattle.iso8601.specs.Defaults.{zero_date, zero_duration};

use jiff::civil;
use thiserror::Error;

/// A date as it is written (ISO 8601-1:2019, 5.2), whether or not there is such a day: `exists` tells.
///
/// A year is astronomical: year 0 is 1 BC, year -1 is 2 BC. The parsers give years from -9999 to 9999; every other
/// call takes all values of the fields.
#[derive(Clone, Copy, Debug, PartialEq, Eq)]
pub enum Date {
    /// A calendar date: `2015-11-02` is year 2015, month 11, day 2. Parsed months go from 1 to 12, days from 1 to 31.
    YMD { year: i32, month: u32, day: u32 },
    /// A week date: `2015-W45-1` is year 2015, week 45, day 1, a Monday. Parsed weeks go from 1 to 53, days from 1,
    /// Monday, to 7, Sunday.
    Week { year: i32, ww: u32, d: u32 },
    /// An ordinal date: `2015-306` is year 2015, day 306. Parsed days go from 1, which is 1 January, to 366.
    Ordinal { year: i32, ddd: u32 },
}

/// A time of day as it is written (ISO 8601-1:2019, 5.3), with its shift from UTC.
///
/// The parsers give hours to 24, minutes to 59, seconds to 60 and milliseconds to 999, and offset parts from -24 to 24
/// hours and -59 to 59 minutes that don't differ in sign.
#[derive(Clone, Copy, Debug, Default, PartialEq, Eq)]
pub struct Time {
    /// Hours since the day began.
    pub hour: u32,
    /// Minutes of the hour.
    pub minute: u32,
    /// Seconds of the minute.
    pub second: u32,
    /// Milliseconds of the second: the first three digits of a fraction.
    pub millisecond: u32,
    /// Whole hours that this time is ahead of UTC.
    pub tz_offset_hours: i32,
    /// Further minutes that this time is ahead of UTC.
    pub tz_offset_minutes: i32,
}

/// A date and a time of day (ISO 8601-1:2019, 5.4): `2015-11-02T21:56:43+01:00`.
#[derive(Clone, Copy, Debug, Default, PartialEq, Eq)]
pub struct DateTime {
    /// The date.
    pub date: Date,
    /// The time of day, with its shift from UTC.
    pub time: Time,
}

/// A duration as it is written (ISO 8601-1:2019, 5.5.2): counts of units, each up to `u32::MAX`.
#[derive(Clone, Copy, Debug, PartialEq, Eq)]
pub enum Duration {
    /// Counts of units, none of which carries into another: `P1Y99D` is one year and 99 days.
    YMDHMS {
        year: u32,
        month: u32,
        day: u32,
        hour: u32,
        minute: u32,
        second: u32,
        millisecond: u32,
    },
    /// A count of weeks: `P5W`.
    Weeks(u32),
}

/// A civil date and time, and how far it is ahead of UTC.
#[derive(Clone, Copy, Debug, PartialEq, Eq)]
pub struct FixedMoment {
    /// The date and the time on the spot.
    pub local: civil::DateTime,
    /// The seconds that `local` is ahead of UTC, from -86399 to 86399 where it was turned from a date-time.
    pub offset_seconds: i32,
}

/// No front of the text is in the grammar.
#[derive(Clone, Copy, Debug, PartialEq, Eq, Error)]
#[error("Failed to parse ISO 8601 text")]
pub struct ParseFailed;

impl Default for Date {
    ghost is_default = { λ d. d ≡ zero_date };

    /// Year, month and day 0, which is no day.
    fn default() -> Date {
        Date::YMD {
            year: 0,
            month: 0,
            day: 0,
        }
    }
}

impl Default for Duration {
    ghost is_default = { λ d. d ≡ zero_duration };

    /// The duration of no time: all counts are 0.
    fn default() -> Duration {
        Duration::YMDHMS {
            year: 0,
            month: 0,
            day: 0,
            hour: 0,
            minute: 0,
            second: 0,
            millisecond: 0,
        }
    }
}
