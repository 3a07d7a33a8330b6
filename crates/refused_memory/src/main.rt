//! Each call that takes memory, once, and the program once more for a sample, with its answer. `tools/refuse_memory` refuses each
//! request for memory in turn: then an answer is the one with ample memory, or want of memory.
#![tactic(auto)]

use fancy_duration::FancyDuration;
use forms::{ConvertError, Form, MemSink, MemSource, convert, run, top};
use pg_interval_2::Interval;
use std::alloc::{AllocError, Global};
use std::io;
use std::time::Duration;

/// Two lines in 20 bytes.
const TWO_LINES: &[u8] = b"PgIso PgIso P1Y1Y\nx\n";

/// Lines as a user has them.
const LINES: &[u8] = b"Postgres PgIso 23:59:59.5\nPgSql PgIso 3 4:05:06\n";

fn main(rt: HostRuntime) -> io::Result<()> {
    let alloc = rt.alloc();
    let interval = Interval::new(13, 1, 3_600_000_000);
    tell(&rt, "to_iso_8601", interval.to_iso_8601(alloc))?;
    tell(&rt, "to_postgres", interval.to_postgres(alloc))?;
    tell(
        &rt,
        "to_postgres_verbose",
        interval.to_postgres_verbose(alloc),
    )?;
    tell(&rt, "to_sql", interval.to_sql(alloc))?;
    let length = FancyDuration(Duration::new(8_553_924, 0));
    tell(&rt, "format", length.format(alloc))?;
    tell(&rt, "format_compact", length.format_compact(alloc))?;
    tell_converted(&rt)?;
    tell_run(&rt)?;
    tell_top(&rt, "top", "")?;
    tell_top(&rt, "sample", "sample 10")
}

/// Prints the text of a call, or that there was no memory for it.
fn tell<R: Print>(rt: &R, call: &str, text: Result<String, AllocError>) -> io::Result<()> {
    match text {
        Ok(text) => println!(rt; "{call}: {}", text.as_str()),
        Err(_) => println!(rt; "{call}: no memory"),
    }
}

/// A text of one form in another.
fn tell_converted<R: Print + AllocGlobal>(rt: &R) -> io::Result<()> {
    match convert(rt.alloc(), Form::PgIso, Form::Postgres, "P1Y1M1DT1H") {
        Ok(text) => println!(rt; "convert: {}", text.as_str()),
        Err(ConvertError::NoMemory) => println!(rt; "convert: no memory"),
        Err(ConvertError::Refused(_)) => println!(rt; "convert: refused"),
    }
}

/// A run over an input in memory: how it ended, what is left of the input, and what was written.
fn tell_run<R: Print + AllocGlobal>(rt: &R) -> io::Result<()> {
    match ends(rt.alloc(), TWO_LINES) {
        Ok((mut source, mut sink)) => {
            let end = run(rt.alloc(), &mut source, &mut sink, 100);
            let (left, held) = (source.left().len(), sink.held().len());
            println!(rt; "run: {end:?}, {left} bytes left, {held} bytes held")
        }
        Err(_) => println!(rt; "run: no memory"),
    }
}

/// The program with these words over lines in memory.
fn tell_top<R: Print + AllocGlobal>(rt: &R, call: &str, words: &str) -> io::Result<()> {
    match ends(rt.alloc(), LINES) {
        Ok((mut source, mut sink)) => {
            let status = top(rt.alloc(), words, &mut source, &mut sink);
            let (left, held) = (source.left().len(), sink.held().len());
            println!(rt; "{call}: status {status}, {left} bytes left, {held} bytes held")
        }
        Err(_) => println!(rt; "{call}: no memory"),
    }
}

/// A source of the input, and a sink with room for 100 bytes, neither of which fails.
fn ends(alloc: Global, input: &[u8]) -> Result<(MemSource, MemSink), AllocError> {
    let source = MemSource::new(alloc, input, 64, &[])?;
    let sink = MemSink::new(alloc, 100, 64, &[])?;
    Ok((source, sink))
}
