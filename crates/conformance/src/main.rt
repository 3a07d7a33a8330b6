//! The conformance tables: each row's line, or whole input, goes through the program, and the reply, or output, must be the row's.
//! The rows stand in data/, each with the rule that it pins; they were reckoned apart from this program. A line goes through it twice:
//! read and written as a whole, and byte by byte.
#![tactic(auto)]

ghost use Rattle.std.specs.Prelude.{◌≤◌};

mod input;
mod row;

use forms::{MemSink, MemSource, top};
use input::input_agrees;
use row::{Row, row_of};
use std::alloc::{AllocError, Global};
use std::rt::Files;
use std::{fs, io};

/// The tables, in data/.
const TABLES: [&str; 12] = [
    "intervals.tsv",
    "weeks.tsv",
    "iso_strict.tsv",
    "postgres.tsv",
    "other_forms.tsv",
    "rfc3339.tsv",
    "iso8601.tsv",
    "toml.tsv",
    "microsoft.tsv",
    "dates.tsv",
    "xml_durations.tsv",
    "by_hand.tsv",
];

/// The tables of whole inputs, in data/.
const INPUT_TABLES: [&str; 4] = ["schedule.tsv", "column.tsv", "recur.tsv", "text_lines.tsv"];

/// What a row of a table asks for.
#[derive(Clone, Copy)]
enum Kind {
    /// The reply to a line.
    Line,
    /// The output for a whole input.
    Input,
}

fn main(rt: HostRuntime) -> io::Result<()> {
    for table in TABLES {
        run_table(&rt, table, Kind::Line)?;
    }
    for table in INPUT_TABLES {
        run_table(&rt, table, Kind::Input)?;
    }
    Ok(())
}

/// Runs each row of a table, and tells which rows disagree and how many agree.
fn run_table<R: Files + AllocGlobal + Print>(rt: &R, table: &str, kind: Kind) -> io::Result<()> {
    let text = fs::read_to_string(rt, table)?;
    let mut agreeing: u64 = 0;
    for line in text.lines() {
        if line.starts_with('#') {
            continue;
        }
        if row_agrees(rt.alloc(), kind, line)? {
            agreeing = agreeing.saturating_add(1);
        } else {
            rt.println(format!(in rt.alloc(); "{table} disagrees: {line}")?)?;
        }
    }
    rt.println(format!(in rt.alloc(); "{table}: {agreeing} rows agree")?)
}

/// Whether a line of a table spells a row, and the program answers it so.
fn row_agrees(alloc: Global, kind: Kind, line: &str) -> Result<bool, AllocError> {
    match kind {
        Kind::Line => match row_of(alloc, line)? {
            Some(row) => agrees(alloc, &row),
            None => Ok(false),
        },
        Kind::Input => input_agrees(alloc, line),
    }
}

/// Whether the program answers the row's line with the row's reply, and with status 0, as a whole and byte by byte.
fn agrees(alloc: Global, row: &Row) -> Result<bool, AllocError> {
    Ok(agrees_in_pieces(alloc, row, 65_536)? && agrees_in_pieces(alloc, row, 1)?)
}

/// Whether it answers so where a read gives and a write takes at most `cut` bytes.
fn agrees_in_pieces(alloc: Global, row: &Row, cut: usize) -> Result<bool, AllocError>
    requires { 1 ≤ cut }
{
    let mut source = MemSource::new(alloc, row.line.as_slice(), cut, &[])?;
    let mut sink = MemSink::new(alloc, 4096, cut, &[])?;
    let status = top(alloc, "", &mut source, &mut sink);
    Ok(status == 0 && sink.held() == row.reply.as_slice())
}
