//! TOML date-times: offset date-times, local date-times, local dates and local times.
//!
//! [`Datetime`] reads and writes them as the TOML specification, version 1.1, defines them. A text
//! that is none is refused with the part that is wrong and what was expected there, in words for
//! the user of a configuration file.
#![tactic(auto)]

mod date;
mod datetime;
mod error;
pub mod laws;
mod numbers;
mod offset;
mod read;
mod read_date;
mod read_offset;
mod read_time;
mod scan;
mod text;
mod time;

pub use date::Date;
pub use datetime::Datetime;
pub use error::DatetimeParseError;
pub use offset::Offset;
pub use time::Time;
