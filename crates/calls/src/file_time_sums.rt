//! The calls of `nt_time` that add lengths and subtract them.
use crate::arguments::{length_of, numbers};
use crate::told::{Answer, told};
use jiff::SignedDuration;
use nt_time::FileTime;
use nt_time::error::FileTimeRangeError;
use std::alloc::Global;

/// How a length is added to a file time or subtracted from it.
#[derive(Clone, Copy)]
pub enum Sum {
    CheckedAdd,
    CheckedSub,
    SaturatingAdd,
    SaturatingSub,
    Add,
    Sub,
    AddAssign,
    SubAssign,
}

/// The sum of a file time and a length, of three numbers.
pub fn moved(alloc: Global, sum: Sum, arguments: &str) -> Answer {
    let [from, secs, nanos] = numbers::<3>(arguments)?;
    let (ft, length) = (file_time(from)?, length_of(secs, nanos)?);
    match sum {
        Sum::CheckedAdd => told(alloc, &raw(ft.checked_add(length))),
        Sum::CheckedSub => told(alloc, &raw(ft.checked_sub(length))),
        Sum::SaturatingAdd => told(alloc, &ft.saturating_add(length).to_raw()),
        Sum::SaturatingSub => told(alloc, &ft.saturating_sub(length).to_raw()),
        Sum::Add => {
            ft.checked_add(length)?;
            told(alloc, &(ft + length).to_raw())
        }
        Sum::Sub => {
            ft.checked_sub(length)?;
            told(alloc, &(ft - length).to_raw())
        }
        Sum::AddAssign => {
            ft.checked_add(length)?;
            let mut later = ft;
            later += length;
            told(alloc, &u64::from(later))
        }
        Sum::SubAssign => {
            ft.checked_sub(length)?;
            let mut earlier = ft;
            earlier -= length;
            told(alloc, &u64::from(earlier))
        }
    }
}

/// The sum with a signed length, of three numbers.
pub fn added_signed(arguments: &str) -> Option<Option<u64>> {
    let [from, secs, nanos] = numbers::<3>(arguments)?;
    let length = signed_of(secs, nanos)?;
    Some(raw(file_time(from)?.checked_add_signed(length)))
}

/// The difference with a signed length, of three numbers.
pub fn subtracted_signed(arguments: &str) -> Option<Option<u64>> {
    let [from, secs, nanos] = numbers::<3>(arguments)?;
    let length = signed_of(secs, nanos)?;
    Some(raw(file_time(from)?.checked_sub_signed(length)))
}

/// The length from the second file time to the first, of two counts.
pub fn between(alloc: Global, arguments: &str) -> Answer {
    let [later, earlier] = numbers::<2>(arguments)?;
    let (later, earlier) = (u64::try_from(later).ok()?, u64::try_from(earlier).ok()?);
    if earlier > later {
        return None;
    }
    let length = FileTime::new(later) - FileTime::new(earlier);
    told(alloc, &(length.as_secs(), length.subsec_nanos()))
}

/// The file time of a length, of two numbers.
pub fn from_duration(arguments: &str) -> Option<Result<FileTime, FileTimeRangeError>> {
    let [secs, nanos] = numbers::<2>(arguments)?;
    Some(FileTime::from_duration(length_of(secs, nanos)?))
}

/// The file time of a count.
fn file_time(count: i128) -> Option<FileTime> {
    Some(FileTime::new(u64::try_from(count).ok()?))
}

/// The count of a file time.
fn raw(ft: Option<FileTime>) -> Option<u64> {
    Some(ft?.to_raw())
}

/// The length of seconds and nanoseconds of one sign.
fn signed_of(secs: i128, nanos: i128) -> Option<SignedDuration> {
    let nanos = SignedDuration::from_nanos(i64::try_from(nanos).ok()?);
    SignedDuration::from_secs(i64::try_from(secs).ok()?).checked_add(nanos)
}
