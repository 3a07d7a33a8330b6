//! Timestamps of PostgreSQL, as its output in DateStyle ISO has them: `2026-12-01 23:24:31.051677+00`, `0044-03-15 BC`.
#![tactic(auto)]

mod date;
pub mod laws;
mod made;
mod offset;
mod pair;
mod time;
mod timestamp;
mod value;
mod worth;
mod written;

pub use date::Date;
pub use time::Time;
pub use timestamp::{Timestamp, read};
pub use value::{NoValue, Value};
