//! Tables of calls: each row names a call, its arguments and the answer that it must give. The rows stand in data/, a table for each
//! crate, each with what it pins.
#![tactic(auto)]

mod arguments;
mod dos_words;
mod file_time_sums;
mod file_times;
mod internet_moments;
mod intervals;
mod iso_texts;
mod iso_values;
mod lines;
mod named;
mod row;
mod scanning;
mod short_durations;
mod short_texts;
mod small;
mod timestamps;
mod told;
mod toml_texts;
mod unix_times;

use row::{Row, row_of};
use std::alloc::{AllocError, Global};
use std::rt::Files;
use std::{fs, io};
use told::Answer;

/// A table, by the crate whose calls it has.
#[derive(Clone, Copy)]
enum Table {
    ScanCore,
    PgInterval2,
    DosDate,
    NtTime,
    FancyDuration,
    Iso8601,
    PortTomlDatetime,
    InternetDates,
    PgTimestamp,
    Forms,
}

/// The tables by their names in data/.
const TABLES: [(&str, Table); 10] = [
    ("scan_core.tsv", Table::ScanCore),
    ("pg_interval_2.tsv", Table::PgInterval2),
    ("dos_date.tsv", Table::DosDate),
    ("nt_time.tsv", Table::NtTime),
    ("fancy_duration.tsv", Table::FancyDuration),
    ("iso8601.tsv", Table::Iso8601),
    ("port_toml_datetime.tsv", Table::PortTomlDatetime),
    ("internet_dates.tsv", Table::InternetDates),
    ("pg_timestamp.tsv", Table::PgTimestamp),
    ("forms.tsv", Table::Forms),
];

fn main(rt: HostRuntime) -> io::Result<()> {
    for (name, table) in TABLES {
        run_table(&rt, name, table)?;
    }
    Ok(())
}

/// Runs each row of a table, and tells which rows disagree and how many agree.
fn run_table<R: Files + AllocGlobal + Print>(rt: &R, name: &str, table: Table) -> io::Result<()> {
    let text = fs::read_to_string(rt, name)?;
    let mut agreeing: u64 = 0;
    for line in text.lines() {
        if line.starts_with('#') {
            continue;
        }
        if agrees(rt.alloc(), table, line)? {
            agreeing = agreeing.saturating_add(1);
        } else {
            rt.println(format!(in rt.alloc(); "{name} disagrees: {line}")?)?;
        }
    }
    rt.println(format!(in rt.alloc(); "{name}: {agreeing} rows agree")?)
}

/// Whether the row's call gives the row's answer.
fn agrees(alloc: Global, table: Table, line: &str) -> Result<bool, AllocError> {
    let Some(row) = row_of(alloc, line)? else {
        return Ok(false);
    };
    match answer(alloc, table, &row) {
        Some(answer) => Ok(answer?.as_str().as_bytes() == row.answer.as_slice()),
        None => Ok(false),
    }
}

/// What the row's call answers, by the crate that the table is of.
fn answer(alloc: Global, table: Table, row: &Row) -> Answer {
    let (call, bytes) = (row.call, row.arguments.as_slice());
    let text = str::from_utf8(bytes).ok();
    match table {
        Table::ScanCore => scanning::answer(alloc, call, text?),
        Table::PgInterval2 => intervals::answer(alloc, call, text?),
        Table::DosDate => dos_words::answer(alloc, call, text?),
        Table::NtTime => file_times::answer(alloc, call, text?),
        Table::FancyDuration => short_durations::answer(alloc, call, text?),
        Table::Iso8601 => iso_texts::answer(alloc, call, bytes),
        Table::PortTomlDatetime => toml_texts::answer(alloc, call, text?),
        Table::InternetDates => internet_moments::answer(alloc, call, bytes),
        Table::PgTimestamp => timestamps::answer(alloc, call, bytes),
        Table::Forms => lines::answer(alloc, call, bytes),
    }
}
