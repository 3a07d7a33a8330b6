//! A column of intervals: sorted, with its count, its least, its greatest and its exact sum, whatever style each row is written in.
//!
//! A row is an interval form's name, a space and a text, such as `Postgres 1 mon 2 days`. `Column::read` reads all rows, and `top` is
//! the program, which writes the column in one form. The order is PostgreSQL's, in which a month has 30 days and a day 24 hours;
//! intervals that are as long as each other go by their parts.
#![tactic(auto)]

mod column;
mod entry;
mod fault;
mod interval_of;
pub mod laws;
mod line_text;
mod ordering;
mod output;
mod program;
mod ranked;
mod ranking;
mod reading;
mod summary;
mod sums;

pub use column::Column;
pub use fault::{ColumnError, LineFault};
pub use ordering::{key, order};
pub use program::{LIMIT, top};
