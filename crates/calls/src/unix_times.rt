//! The calls of `nt_time` that turn Unix times.
use crate::arguments::numbers;
use crate::told::{Answer, told};
use nt_time::FileTime;
use nt_time::error::FileTimeRangeError;
use std::alloc::Global;

/// What a Unix time counts.
#[derive(Clone, Copy)]
pub enum Unit {
    SecsAndNanos,
    Secs,
    Millis,
    Micros,
    Nanos,
}

/// The Unix time of a file time, which is given by its count.
pub fn to_unix(alloc: Global, unit: Unit, arguments: &str) -> Answer {
    let ft = FileTime::from(arguments.parse::<u64>().ok()?);
    match unit {
        Unit::SecsAndNanos => told(alloc, &ft.to_unix_time()),
        Unit::Secs => told(alloc, &ft.to_unix_time_secs()),
        Unit::Millis => told(alloc, &ft.to_unix_time_millis()),
        Unit::Micros => told(alloc, &ft.to_unix_time_micros()),
        Unit::Nanos => told(alloc, &ft.to_unix_time_nanos()),
    }
}

/// The file time of a Unix time.
pub fn from_unix(unit: Unit, arguments: &str) -> Option<Result<FileTime, FileTimeRangeError>> {
    Some(match unit {
        Unit::SecsAndNanos => {
            let [secs, nanos] = numbers::<2>(arguments)?;
            let (secs, nanos) = (i64::try_from(secs).ok()?, u32::try_from(nanos).ok()?);
            FileTime::from_unix_time(secs, nanos)
        }
        Unit::Secs => FileTime::from_unix_time_secs(arguments.parse::<i64>().ok()?),
        Unit::Millis => FileTime::from_unix_time_millis(arguments.parse::<i64>().ok()?),
        Unit::Micros => FileTime::from_unix_time_micros(arguments.parse::<i64>().ok()?),
        Unit::Nanos => FileTime::from_unix_time_nanos(arguments.parse::<i128>().ok()?),
    })
}
