//! Civil date-times in UTC, over the whole of `jiff`'s years.
ghost use Rattle.std.specs.Prelude.{◌≡◌, ◌↔◌, pos, neg_ℤ, IsSome, IfSome};
ghost use Rattle.jiff.specs.Words.{civil_nanos, IsCivilNanos, IsWithin};
ghost use Rattle.nt_time.specs.Civil.{IsCivilFrom};
ghost use Rattle.nt_time.specs.UnixTime.{IsFromUnixNanos};

use crate::FileTime;
use crate::error::{FileTimeRangeError, OutOfCivil};
use jiff::civil;
use std::marker::Model;

/// A civil date-time in UTC, in the years -9999 to 9999.
///
/// Unlike `jiff::Timestamp` it reaches to the last nanosecond of 9999.
#[derive(Clone, Copy, Debug, PartialEq, Eq, PartialOrd, Ord, Hash)]
pub struct UtcDateTime {
    civil: civil::DateTime,
}

impl Model for UtcDateTime {
    ghost use Rattle.jiff.specs.Types.{DateTime};

    ghost Value = { DateTime };

    ghost view = { λ a. a.civil };

    ghost inverse = { λ d. record { civil = d } };
}

impl UtcDateTime {
    /// That civil date-time, taken to be in UTC.
    pub fn new(civil: civil::DateTime) -> UtcDateTime
        ensures { result ≡ civil }
    {
        UtcDateTime { civil }
    }

    /// The civil date-time.
    pub fn civil(self) -> civil::DateTime
        ensures { result ≡ self }
    {
        self.civil
    }
}

/// The same moment, exact to the tick. `OutOfCivil` exactly from raw count
/// 2_650_467_744_000_000_000 on, the first tick after the year 9999. Raw count 0 is 1601-01-01
/// 00:00:00.
impl TryFrom<FileTime> for UtcDateTime {
    type Error = OutOfCivil;

    ghost try_from_gives = { IsCivilFrom };

    fn try_from(ft: FileTime) -> Result<UtcDateTime, OutOfCivil> {
        match civil_at(ft.to_unix_time_nanos()) {
            Some(civil) => Ok(UtcDateTime::new(civil)),
            None => Err(OutOfCivil),
        }
    }
}

/// As [`FileTime::from_unix_time_nanos`] of the moment.
impl TryFrom<UtcDateTime> for FileTime {
    type Error = FileTimeRangeError;

    ghost try_from_gives = { λ utc. IsFromUnixNanos (civil_nanos utc) };

    fn try_from(utc: UtcDateTime) -> Result<FileTime, FileTimeRangeError> {
        FileTime::from_unix_time_nanos(utc.civil().to_plain().to_nanosecond())
    }
}

/// The civil date-time that many nanoseconds after 1970-01-01 00:00:00. `None` exactly outside the
/// civil years.
fn civil_at(nanos: i128) -> Option<civil::DateTime>
    requires { IsWithin 10_000_000_000_000_000_000_000_000_000_000_000 nanos }
    ensures some { IsSome result ↔ IsCivilNanos nanos }
    ensures value { IfSome result (λ civil. civil_nanos civil ≡ nanos) }
{
    let since_first = nanos + 377_705_116_800_000_000_000;
    match first_moment().to_plain().checked_add_nanos(since_first) {
        Ok(plain) => Some(civil::DateTime::from_plain(plain)),
        Err(_) => None,
    }
}

/// The first civil date-time, -9999-01-01 00:00:00.
fn first_moment() -> civil::DateTime
    ensures { civil_nanos result ≡ neg_ℤ (pos 377_705_116_800_000_000_000) }
{
    civil::DateTime::MIN
}
