//! Windows file times: 64-bit counts of ticks of 100 nanoseconds since 1601-01-01 00:00:00 UTC.
//!
//! NTFS, the registry and the Windows event logs keep their moments so. A [`FileTime`] turns exactly
//! into Unix time, into civil time and into the date words of MS-DOS, and each way back says where
//! there is no such file time.
#![tactic(auto)]

mod bytes;
mod convert;
pub mod error;
mod file_time;
pub mod laws;
mod sums;
mod text;
mod unix_time;
mod utc_date_time;

pub use file_time::FileTime;
pub use utc_date_time::UtcDateTime;
