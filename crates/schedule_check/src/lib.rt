//! A schedule of slots, one a line, and whether two of them clash.
#![tactic(auto)]

mod check_error;
mod check_into_error;
mod checking;
mod checking_into;
mod clashes;
mod fault;
pub mod laws;
mod line;
mod program;
mod report;
mod report_lines;
mod slot;
mod table;

pub use check_error::CheckError;
pub use check_into_error::CheckIntoError;
pub use checking::check;
pub use checking_into::check_into;
pub use fault::Fault;
pub use program::top;
pub use slot::Slot;
pub use table::Table;
