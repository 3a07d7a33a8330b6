//! Short durations such as `1h 20m 30s`, as configuration files have them.
//!
//! A text is read by its items, each a number and a unit: `y` 360 days, `m` 30 days, `w` 7 days, `d` 24 hours,
//! `h` 60 minutes, `m` 60 seconds, `s`, `ms`, `us` and `ns`. An `m` is months exactly where a later item has one of
//! the units `m`, `h`, `d`, `w` and `y`, and minutes elsewhere: `1m 2d` is 32 days, `2d 1m` is two days and a minute.
//! Sums are exact over numbers of any length.
//!
//! The written text of a length is read back as this length, unless its months stand alone: 30 days are written `1m`,
//! which is read as a minute. [`FancyDuration::reads_back`] tells where, [`laws`] says so, and which two lengths have
//! one text.
//!
//! A reader passes over what isn't an item, so `1.5h` is 5 hours and `1 hour` no time at all.
//! [`FancyDuration::is_fancy_text`] tells the texts that are counts with their units and nothing else, and
//! [`strict_to_ns`] reads these alone.
//!
//! [`FancyDuration`] wraps any type that has seconds and nanoseconds ([`AsTimes`]), as std's `Duration`.
#![tactic(auto)]

mod as_times;
mod breakdown;
mod error;
mod fancy;
pub mod laws;
mod part;
mod read;
mod strict;
mod tally;
mod traits;
mod written;

pub use as_times::AsTimes;
pub use error::{FancyError, StrictError};
pub use fancy::FancyDuration;
pub use part::DurationPart;
pub use scan_core::Short;
pub use strict::strict_to_ns;
pub use traits::{AsFancyDuration, ParseFancyDuration};
