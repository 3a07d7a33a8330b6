//! PostgreSQL intervals: months, days and microseconds, read from and written in the server's output styles, and in
//! a strict form of its ISO style, exactly. A count such as `1.99 years` is rounded once, half away from zero, however
//! many digits it has; each count and each sum must fit its type, and no sum on the way is tested.
//!
//! Ported from the crate `pg_interval_2` of Rust. Readers and `text` take no memory.
#![tactic(auto)]

mod cell;
mod duration;
mod error;
mod interval;
pub mod laws;
mod reading;
mod strings;
mod style;
mod sums;
mod writing;

pub use error::ParseError;
pub use interval::Interval;
pub use reading::{read, read_counted};
pub use scan_core::Short;
pub use style::Style;
