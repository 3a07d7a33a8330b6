//! The parsers: from bytes to the longest front in a grammar, its value, and what follows it.
mod date;
mod datetime;
mod duration;
mod front;
mod time;

pub use date::parse_date;
pub use datetime::parse_datetime;
pub use duration::parse_duration;
pub(crate) use front::with_sign;
pub use time::parse_time;
