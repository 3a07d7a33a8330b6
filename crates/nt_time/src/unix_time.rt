//! File times and Unix time, which counts from 1970-01-01 00:00:00 UTC.
ghost use Rattle.std.specs.Prelude.{◌≡◌, ◌^◌, ◌<◌, pos, neg_ℤ, ◌+ℤ◌, ◌*ℤ◌, ◌<ℤ◌, ◌≤ℤ◌, ◌↔◌, IfOk, IsErrOf};
ghost use Rattle.nt_time.specs.FileTime.{unix_nanos};
ghost use Rattle.nt_time.specs.UnixTime.{IsFloor, IsLatestNotAfter, IsFromUnixNanos};

use crate::FileTime;
use crate::error::{FileTimeRangeError, FileTimeRangeErrorKind};
use crate::file_time::NANOSECONDS_PER_TICK;

const TICKS_PER_SECOND: u64 = 1_000_000_000 / NANOSECONDS_PER_TICK;

const TICKS_PER_MILLISECOND: u64 = TICKS_PER_SECOND / 1000;

const TICKS_PER_MICROSECOND: u64 = TICKS_PER_SECOND / 1_000_000;

/// The seconds from 1601-01-01 to 1970-01-01.
const EPOCH_SECONDS: i64 = 11_644_473_600;

/// The Unix second with the last tick in it.
const LAST_SECOND: i64 = (u64::MAX / TICKS_PER_SECOND) as i64 - EPOCH_SECONDS;

/// The Unix nanoseconds of the first and of the last tick.
const FIRST_NANOSECOND: i128 = EPOCH_SECONDS as i128 * -1_000_000_000;

const LAST_NANOSECOND: i128 = FIRST_NANOSECOND + u64::MAX as i128 * NANOSECONDS_PER_TICK as i128;

impl FileTime {
    /// Whole seconds since 1970, rounded down, and the nanoseconds beyond them, below 10^9.
    ///
    /// The tick before 1970 is -1 and 999_999_900.
    pub fn to_unix_time(self) -> (i64, u32)
        ensures nanos { result.0 *ℤ pos 1_000_000_000 +ℤ pos result.1 ≡ unix_nanos self }
        ensures beyond { result.1 < 1_000_000_000 }
    {
        let nanos = self.to_raw() % TICKS_PER_SECOND * NANOSECONDS_PER_TICK;
        (self.to_unix_time_secs(), nanos as u32)
    }

    /// Whole seconds since 1970, rounded down: -1 for the tick before 1970.
    pub fn to_unix_time_secs(self) -> i64
        ensures { IsFloor 1_000_000_000 (unix_nanos self) result }
    {
        (self.to_raw() / TICKS_PER_SECOND) as i64 - EPOCH_SECONDS
    }

    /// Whole milliseconds since 1970, rounded down.
    pub fn to_unix_time_millis(self) -> i64
        ensures { IsFloor 1_000_000 (unix_nanos self) result }
    {
        (self.to_raw() / TICKS_PER_MILLISECOND) as i64 - EPOCH_SECONDS * 1000
    }

    /// Whole microseconds since 1970, rounded down.
    pub fn to_unix_time_micros(self) -> i64
        ensures { IsFloor 1000 (unix_nanos self) result }
    {
        (self.to_raw() / TICKS_PER_MICROSECOND) as i64 - EPOCH_SECONDS * 1_000_000
    }

    /// Nanoseconds since 1970, exactly.
    pub fn to_unix_time_nanos(self) -> i128
        ensures { result ≡ unix_nanos self }
    {
        (self.to_raw() as u128 * NANOSECONDS_PER_TICK as u128) as i128 + FIRST_NANOSECOND
    }

    /// The greatest file time not after that many seconds and nanoseconds since 1970. The
    /// nanoseconds may be 10^9 and more.
    ///
    /// `Negative` exactly where the seconds alone are before the first tick, whatever the nanoseconds
    /// would make up; `Overflow` exactly where the seconds, or their sum with the whole ticks of the
    /// nanoseconds, pass the last tick. `from_unix_time(0, 199)` is one tick after
    /// [`FileTime::UNIX_EPOCH`].
    pub fn from_unix_time(secs: i64, nanos: u32) -> Result<FileTime, FileTimeRangeError>
        ensures ok { IfOk result (IsLatestNotAfter (secs *ℤ pos 1_000_000_000 +ℤ pos nanos)) }
        ensures negative { IsErrOf result FileTimeRangeErrorKind.Negative
            ↔ (secs <ℤ neg_ℤ (pos 11_644_473_600)) }
        ensures overflow { IsErrOf result FileTimeRangeErrorKind.Overflow
            ↔ (unix_nanos (2 ^ 64) ≤ℤ (secs *ℤ pos 1_000_000_000 +ℤ pos nanos)) }
    {
        let whole = FileTime::from_unix_time_secs(secs)?;
        let beyond = nanos as u64 / NANOSECONDS_PER_TICK;
        match whole.to_raw().checked_add(beyond) {
            Some(raw) => Ok(FileTime::new(raw)),
            None => Err(FileTimeRangeErrorKind::Overflow.into()),
        }
    }

    /// The file time of that many seconds since 1970.
    ///
    /// `Negative` exactly below -11_644_473_600, `Overflow` exactly above 1_833_029_933_770.
    pub fn from_unix_time_secs(secs: i64) -> Result<FileTime, FileTimeRangeError>
        ensures ok { IfOk result (λ t. unix_nanos t ≡ secs *ℤ pos 1_000_000_000) }
        ensures negative { IsErrOf result FileTimeRangeErrorKind.Negative
            ↔ (secs <ℤ neg_ℤ (pos 11_644_473_600)) }
        ensures overflow { IsErrOf result FileTimeRangeErrorKind.Overflow
            ↔ (pos 1_833_029_933_770 <ℤ secs) }
    {
        if secs < -EPOCH_SECONDS {
            return Err(FileTimeRangeErrorKind::Negative.into());
        }
        if secs > LAST_SECOND {
            return Err(FileTimeRangeErrorKind::Overflow.into());
        }
        Ok(FileTime::new((secs + EPOCH_SECONDS) as u64 * TICKS_PER_SECOND))
    }

    /// As [`FileTime::from_unix_time_nanos`] of that many milliseconds since 1970.
    pub fn from_unix_time_millis(millis: i64) -> Result<FileTime, FileTimeRangeError>
        ensures { IsFromUnixNanos (millis *ℤ pos 1_000_000) result }
    {
        FileTime::from_unix_time_nanos(millis as i128 * 1_000_000)
    }

    /// As [`FileTime::from_unix_time_nanos`] of that many microseconds since 1970.
    pub fn from_unix_time_micros(micros: i64) -> Result<FileTime, FileTimeRangeError>
        ensures { IsFromUnixNanos (micros *ℤ pos 1000) result }
    {
        FileTime::from_unix_time_nanos(micros as i128 * 1000)
    }

    /// The greatest file time not after that many nanoseconds since 1970.
    ///
    /// `Negative` exactly below -11_644_473_600_000_000_000, the first tick, and `Overflow` exactly
    /// above 1_833_029_933_770_955_161_500, the last one. `from_unix_time_nanos(-1)` is one tick before
    /// [`FileTime::UNIX_EPOCH`].
    pub fn from_unix_time_nanos(nanos: i128) -> Result<FileTime, FileTimeRangeError>
        ensures { IsFromUnixNanos nanos result }
    {
        if nanos < FIRST_NANOSECOND {
            return Err(FileTimeRangeErrorKind::Negative.into());
        }
        if nanos > LAST_NANOSECOND {
            return Err(FileTimeRangeErrorKind::Overflow.into());
        }
        let since_first = (nanos - FIRST_NANOSECOND) as u128;
        Ok(FileTime::new((since_first / NANOSECONDS_PER_TICK as u128) as u64))
    }
}
