//! Recurring instants, as `R3/2015-01-31T00:00:00Z/P1M` of ISO 8601 has them: a start, a step of months, days and microseconds, and how
//! often it is taken. Each instant is computed from the start and not from the one before, so the day of the month isn't lost.
//!
//! [`at`] is one instant, [`Series`] iterates over them, and [`top`] is the program: a line asks for a series, and its reply has a line
//! for each instant. Nothing takes memory but `top`, which asks for the input's.
#![tactic(auto)]

mod answer;
mod instant;
pub mod laws;
mod program;
mod refusal;
mod reply;
mod request;
mod series;
mod series_lines;

pub use instant::at;
pub use program::top;
pub use series::Series;
