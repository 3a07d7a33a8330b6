//! Texts of one form in another form where they stand: the lines of a stream, a field or a word of each line, or one text of a command line.
//!
//! `run_lines` answers all lines of a source, however many, and `top` is the command `FROM TO ..`, told by its words. What stands in place of
//! a text is the reply that `forms::run` has for a line of the two forms' names and the text.
#![tactic(auto)]

mod asked;
mod byte_batch;
mod columns;
mod command;
mod fields;
pub mod laws;
mod line;
mod place;
mod run;
mod spaced;
mod text;
mod texts;

pub use command::top;
pub use place::Place;
pub use run::run_lines;
pub use text::answer_text;
