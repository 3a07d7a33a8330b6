//! Dates, times, date-times and durations as ISO 8601 writes them.
//!
//! [`parsers`] read the longest prefix of bytes and give back the rest, so that a log's line can begin with a time stamp;
//! [`date`], [`time`], [`datetime`] and [`duration`] do so from a string and drop the rest. A value is what the text says:
//! `2015-02-29` is read, and [`Date::exists`] answers that there is no such day. The `into_` calls turn values into the
//! civil dates and times of `jiff`, and `text` writes each value in one way, from which it is read back.
//!
//! No call takes memory, and no float is used anywhere.
#![tactic(auto)]

mod civil;
mod counted;
mod counted_time;
mod duration_text;
pub mod laws;
pub mod parsers;
mod texts;
mod types;
mod values;
mod written;

pub use counted::duration_counted;
pub use texts::{date, datetime, duration, time};
pub use types::{Date, DateTime, Duration, FixedMoment, ParseFailed, Time};
