//! A row of a table of whole inputs: the input, the words, the whole output, the status and what it pins, with TABs between.

use crate::row::spelled;
use forms::{MemSink, MemSource};
use interval_column::{Column, ColumnError};
use pg_interval_2::Style;
use schedule_check::{CheckError, Fault, check};
use std::alloc::{AllocError, Global};

/// The status where a read failed.
const READ_FAULT: u8 = 3;

/// The status where a write failed.
const WRITE_FAULT: u8 = 4;

/// The status where the input is too long for its command, whose call has no limit.
const TOO_LONG: u8 = 5;

/// Whether a line spells a row, and the program answers the row's words and input with the row's output and status.
pub fn input_agrees(alloc: Global, line: &str) -> Result<bool, AllocError> {
    let mut fields = line.split('\t');
    let (Some(input), Some(words), Some(output), Some(status), Some(_)) = (
        fields.next(),
        fields.next(),
        fields.next(),
        fields.next(),
        fields.next(),
    ) else {
        return Ok(false);
    };
    let Ok(status) = status.parse::<u8>() else {
        return Ok(false);
    };
    let (Some(input), Some(output)) = (spelled(alloc, input)?, spelled(alloc, output)?) else {
        return Ok(false);
    };
    Ok(
        top_agrees(alloc, words, &input, &output, status)?
            && fails_agree(alloc, words, &input, &output, status)?
            && call_agrees(alloc, words, &input, &output, status)?,
    )
}

/// Whether the program writes this output for an input, and ends with this status.
fn top_agrees(
    alloc: Global,
    words: &str,
    input: &[u8],
    output: &[u8],
    status: u8,
) -> Result<bool, AllocError> {
    let mut source = MemSource::new(alloc, input, 65_536, &[])?;
    let mut sink = MemSink::new(alloc, output.len().saturating_add(1), 65_536, &[])?;
    let answer = top(alloc, words, &mut source, &mut sink);
    Ok(answer == status && sink.held() == output)
}

/// Whether a sink without room for the last byte of an output gains all others and the status is 4, and whether nothing is written and
/// the status is 3 where the first read fails. Where nothing is written, or nothing read, neither can fail.
fn fails_agree(
    alloc: Global,
    words: &str,
    input: &[u8],
    output: &[u8],
    status: u8,
) -> Result<bool, AllocError> {
    let mut source = MemSource::new(alloc, input, 65_536, &[])?;
    let room = output.len().saturating_sub(1);
    let mut sink = MemSink::new(alloc, room, 65_536, &[])?;
    let answer = top(alloc, words, &mut source, &mut sink);
    let wanted = if output.is_empty() {
        status
    } else {
        WRITE_FAULT
    };
    if answer != wanted || sink.held() != &output[..room] {
        return Ok(false);
    }
    let mut source = MemSource::new(alloc, input, 65_536, &[0])?;
    let mut sink = MemSink::new(alloc, output.len(), 65_536, &[])?;
    let answer = top(alloc, words, &mut source, &mut sink);
    Ok(if source.faults() == 0 {
        answer == status && sink.held() == output
    } else {
        answer == READ_FAULT && sink.held().is_empty()
    })
}

/// The answer of the command that the first word names.
fn top(alloc: Global, words: &str, source: &mut MemSource, sink: &mut MemSink) -> u8 {
    match words.split(' ').next() {
        Some("schedule") => schedule_check::top(alloc, words, source, sink),
        Some("column") => interval_column::top(alloc, words, source, sink),
        Some("recur") => recurrence::top(alloc, words, source, sink),
        Some("sample") => forms::top(alloc, words, source, sink),
        _ => text_lines::top(alloc, words, source, sink),
    }
}

/// Whether the call behind a command answers the input as the output and the status tell.
fn call_agrees(
    alloc: Global,
    words: &str,
    input: &[u8],
    output: &[u8],
    status: u8,
) -> Result<bool, AllocError> {
    if status == TOO_LONG {
        return Ok(true);
    }
    if let Some(name) = words.strip_prefix("column ") {
        return column_agrees(alloc, name, input, output, status);
    }
    match words {
        "schedule" => check_agrees(alloc, input, output, status),
        _ => Ok(true),
    }
}

/// Whether `check` answers the input as the output and the status tell.
fn check_agrees(
    alloc: Global,
    input: &[u8],
    output: &[u8],
    status: u8,
) -> Result<bool, AllocError> {
    let mut told = String::new(alloc);
    let wanted = match check(alloc, input) {
        Ok(table) => {
            for slot in table.slots() {
                let line = format!(in alloc; "{} {} {}\n", slot.start, slot.end, slot.line)?;
                told.push_str(line.as_str())?;
            }
            0
        }
        Err(CheckError::Clash { first, second }) => {
            told = format!(in alloc; "clash {first} {second}\n")?;
            7
        }
        Err(CheckError::Refused { line, fault }) => {
            let (part, name) = names(fault);
            told = format!(in alloc; "line {line} {part}{name}\n")?;
            8
        }
        Err(CheckError::NoMemory) => return Err(AllocError),
    };
    Ok(status == wanted && output == told.as_bytes())
}

/// Whether `Column::read` answers the input as the output and the status tell, where the words name a style.
fn column_agrees(
    alloc: Global,
    name: &str,
    input: &[u8],
    output: &[u8],
    status: u8,
) -> Result<bool, AllocError> {
    let Some(style) = style_of(name) else {
        return Ok(status == 2);
    };
    let (told, wanted) = match Column::read(alloc, input) {
        Ok(column) => (told_of(alloc, style, &column)?, 0),
        Err(ColumnError::Refused { line, fault }) => {
            (
                format!(in alloc; "line {line} refused {}\n", fault.name())?,
                8,
            )
        }
        Err(ColumnError::NoMemory) => return Err(AllocError),
    };
    Ok(status == wanted && output == told.as_bytes())
}

/// What the calls of a column tell, as the program writes it.
fn told_of(alloc: Global, style: Style, column: &Column) -> Result<String, AllocError> {
    let mut told = String::new(alloc);
    for interval in column.sorted() {
        told.push_str(interval.text(style).as_str())?;
        told.push_str("\n")?;
    }
    let count = format!(in alloc; "count {}\n", column.sorted().len())?;
    told.push_str(count.as_str())?;
    if let (Some(least), Some(greatest)) = (column.least(), column.greatest()) {
        let least = format!(in alloc; "least {}\n", least.text(style))?;
        told.push_str(least.as_str())?;
        let greatest = format!(in alloc; "greatest {}\n", greatest.text(style))?;
        told.push_str(greatest.as_str())?;
        let sum = match column.total() {
            Some(total) => format!(in alloc; "sum {}\n", total.text(style))?,
            None => format!(in alloc; "sum Range\n")?,
        };
        told.push_str(sum.as_str())?;
    }
    Ok(told)
}

/// The style of an interval form's name.
fn style_of(name: &str) -> Option<Style> {
    match name {
        "PgIso" => Some(Style::Iso),
        "Postgres" => Some(Style::Postgres),
        "PgVerbose" => Some(Style::Verbose),
        "PgSql" => Some(Style::Sql),
        "IsoStrict" => Some(Style::IsoStrict),
        _ => None,
    }
}

/// The part of a line that has a fault, and the fault.
fn names(fault: Fault) -> (&'static str, &'static str) {
    match fault {
        Fault::Line => ("", "Line"),
        Fault::Start(cause) => ("start ", cause.name()),
        Fault::Length(cause) => ("length ", cause.name()),
        Fault::Empty => ("length ", "Empty"),
    }
}
