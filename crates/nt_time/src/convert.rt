//! File times as instants of `jiff` and as DOS date-times.
ghost use Rattle.nt_time.specs.Civil.{IsTimestampFrom, IsDosFrom, IsTickOf};
ghost use Rattle.nt_time.specs.UnixTime.{IsFromUnixNanos};

use crate::error::{FileTimeRangeError, OutOfCivil};
use crate::{FileTime, UtcDateTime};
use dos_date::{DateTime, DosRangeError, DosRangeErrorKind};
use jiff::Timestamp;

/// As [`FileTime::from_unix_time_nanos`] of the instant.
impl TryFrom<Timestamp> for FileTime {
    type Error = FileTimeRangeError;

    ghost try_from_gives = { λ instant. IsFromUnixNanos instant.nanosecond };

    fn try_from(timestamp: Timestamp) -> Result<FileTime, FileTimeRangeError> {
        FileTime::from_unix_time_nanos(timestamp.as_nanosecond())
    }
}

/// The same instant. `OutOfCivil` exactly where it is after `Timestamp::MAX`.
impl TryFrom<FileTime> for Timestamp {
    type Error = OutOfCivil;

    ghost try_from_gives = { IsTimestampFrom };

    fn try_from(ft: FileTime) -> Result<Timestamp, OutOfCivil> {
        match Timestamp::from_nanosecond(ft.to_unix_time_nanos()) {
            Ok(timestamp) => Ok(timestamp),
            Err(_) => Err(OutOfCivil),
        }
    }
}

/// The DOS date-time of the moment in UTC, as [`DateTime::from_civil`] gives it: the seconds are cut
/// to even. `Negative` exactly before 1980, `Overflow` exactly after 2107, also after the year 9999.
impl TryFrom<FileTime> for DateTime {
    type Error = DosRangeError;

    ghost try_from_gives = { IsDosFrom };

    fn try_from(ft: FileTime) -> Result<DateTime, DosRangeError> {
        match UtcDateTime::try_from(ft) {
            Ok(utc) => DateTime::from_civil(utc.civil()),
            Err(OutOfCivil) => Err(DosRangeErrorKind::Overflow.into()),
        }
    }
}

/// The same moment, where the DOS date-time is taken to be in UTC.
impl From<DateTime> for FileTime {
    ghost from_gives = { IsTickOf };

    fn from(dos: DateTime) -> FileTime {
        let seconds = dos.to_civil().to_plain().to_second();
        FileTime::from_unix_time_secs(seconds).unwrap()
    }
}
