//! The calls of this repository for C, and for all that calls C: a static library over `forms` and the crates below it.
//!
//! `include/timeforms.h` has each call as C sees it. Every call stands on calls of the crates below, with their clauses; nothing is
//! allocated, and no call stops its caller. A slice crosses as a pointer and a length, and a pointer whose length is 0 may be null.
//!
//! A call answers 0 or more where it has an answer, and else a negative code (`code`).
#![tactic(auto)]

pub mod arithmetic;
mod cell;
pub mod code;
pub mod column;
pub mod duration;
pub mod file_time;
pub mod form;
pub mod instants;
pub mod interval;
pub mod interval_cells;
pub mod reply;
mod room;
pub mod schedule;
#[cfg(test)]
mod tests;
pub mod version;
