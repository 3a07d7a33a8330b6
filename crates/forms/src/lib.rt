//! Timestamps, durations and intervals from one written form into another: one text, or a stream of lines such as
//! `PgIso PgIso P1Y1Y`.
//!
//! `reply` turns one text, `run` answers every line of a source with one line to a sink, and `top` is the program.
//! A line that can't be answered has a reply as well, `refused` and the cause, so nothing stops and nothing is lost.
#![tactic(auto)]

mod answer;
mod answers_lines;
mod buffer;
mod cause;
mod decimal;
mod faults;
mod form;
pub mod laws;
mod line;
mod memory_sink;
mod memory_source;
mod piece_lines;
mod program;
mod request_lines;
mod run_end;
mod sample;
mod source_lines;
mod streams;
mod text_reply;
mod value;
mod waiting;
mod writing;

pub use answer::{ConvertError, convert, push_answer, reply, reply_counted};
pub use answers_lines::{AnswersLines, Waits};
pub use buffer::reply_lines;
pub use cause::Cause;
pub use decimal::number_in_decimal;
pub use form::Form;
pub use form::file_time::file_time_of;
pub use form::intervals::read_interval;
pub use memory_sink::MemSink;
pub use memory_source::MemSource;
pub use program::{run, top};
pub use run_end::RunEnd;
pub use source_lines::answer_lines;
pub use streams::{Failed, Sink, Source};
pub use text_reply::push_text_reply;
pub use value::{Value, push_value, read_value, write_value};
pub use waiting::{Batch, flush, make_room, put_text};
pub use writing::write_all;
