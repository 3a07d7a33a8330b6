//! Programs that take their whole input, up to a limit, before they write.
//!
//! `answer_whole` is such a program for any [`Command`]; `read_lines` and `read_lines_into` read each line of an input up to the
//! first that has a fault.
#![tactic(auto)]

mod command;
mod filling;
pub mod laws;
mod lines;
mod reading;
mod split;
mod writing;

pub use command::{Command, Response, answer_whole};
pub use filling::{FillError, read_lines_into};
pub use lines::{LineError, ReadLine, count_lines, first_line, read_lines};
pub use reading::{Taken, take_all};
pub use split::{split_at, split_text};
pub use writing::{respond_waiting, respond_with};
