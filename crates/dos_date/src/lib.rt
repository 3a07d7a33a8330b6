//! Dates and times as MS-DOS stores them, in two 16-bit words.
//!
//! FAT directory entries, ZIP archives and the Windows calls `FileTimeToDosDateTime` and
//! `DosDateTimeToFileTime` use these words. They hold the years 1980 to 2107 and even seconds, in
//! no time zone.
#![tactic(auto)]

mod date;
mod date_time;
mod error;
pub mod laws;
mod time;

pub use date::Date;
pub use date_time::DateTime;
pub use error::{DosRangeError, DosRangeErrorKind};
pub use time::Time;
