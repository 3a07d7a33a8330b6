//! Writing a column, many lines at once.
ghost use Rattle.std.specs.Prelude.{◌≡◌, ◌≢◌, ◌≤◌, ◌++◌, ℕ, [], flat_map, OnOk, OnErr};
ghost use Rattle.std.specs.Io.KnownBytes.{Appends};
ghost use Rattle.forms.specs.Outside.{AppendsFront, HasCause, Rose};
ghost use Rattle.forms.specs.Waiting.{Moves};
ghost use Rattle.whole_input.specs.Outcomes.{GainsAll, GainsPart, IsWritten};
ghost use Rattle.interval_column.specs.Output.{Tells, column_text, fault_line, interval_line};
ghost use Rattle.interval_column.specs.inside.Ranks.{intervals_of};

use crate::fault::{ColumnError, LineFault};
use crate::line_text::{fault_text, push_line};
use crate::ranked::Ranked;
use crate::reading::read_ranks;
use crate::summary::summary;
use forms::{Batch, Failed, Sink, put_text};
use pg_interval_2::{Interval, Style};
use scan_core::Short;
use std::alloc::Global;
use whole_input::{Response, respond_waiting, respond_with};

/// The status where a line has a fault.
const FAULT: u8 = 8;

/// Writes the column of an input in a style, or the line about its first fault.
pub fn respond<K: Sink>(alloc: Global, style: Style, input: &[u8], sink: &mut K) -> Response
    ensures written { (status : ℕ) → result ≡ Response.Written status
        → GainsAll (Tells style) input.now status (K.held sink.old) (K.held sink.new) }
    ensures status { (status : ℕ) → result ≡ Response.Written status → IsWritten status }
    ensures unwritten { result ≡ Response.WriteFault
        → Rose (K.faults sink.old) (K.faults sink.new)
        × GainsPart (Tells style) input.now (K.held sink.old) (K.held sink.new) }
    ensures no_memory { result ≡ Response.NoMemory → sink.new ≡ sink.old }
    ensures later { K.faults sink.old ≤ K.faults sink.new }
{
    match read_ranks(alloc, input) {
        Ok(ranks) => respond_column(style, &ranks, sink),
        Err(ColumnError::Refused { line, fault }) => respond_fault(line, fault, sink),
        Err(ColumnError::NoMemory) => Response::NoMemory,
    }
}

/// Writes intervals in order.
fn respond_column<K: Sink>(style: Style, ranks: &[Ranked], sink: &mut K) -> Response
    ensures written { (s : ℕ) → result ≡ Response.Written s → (s ≡ 0)
        × Appends (K.held sink.old) (K.held sink.new) (column_text style (intervals_of ranks.now)) }
    ensures unwritten { result ≡ Response.WriteFault → Rose (K.faults sink.old) (K.faults sink.new)
        × AppendsFront (K.held sink.old) (K.held sink.new)
        (column_text style (intervals_of ranks.now)) }
    ensures memory { result ≢ Response.NoMemory }
    ensures later { K.faults sink.old ≤ K.faults sink.new }
{
    forms::laws::waiting_texts_keep_their_order();
    let mut batch = Batch::new();
    match put_column(sink, &mut batch, style, ranks) {
        Ok(()) => respond_waiting(sink, &mut batch, 0),
        Err(Failed) => Response::WriteFault,
    }
}

/// Writes the line about a fault.
fn respond_fault<K: Sink>(line: u64, fault: LineFault, sink: &mut K) -> Response
    ensures written { (s : ℕ) → result ≡ Response.Written s → (s ≡ 8)
        × Appends (K.held sink.old) (K.held sink.new) (fault_line line fault) }
    ensures unwritten { result ≡ Response.WriteFault → Rose (K.faults sink.old) (K.faults sink.new)
        × AppendsFront (K.held sink.old) (K.held sink.new) (fault_line line fault) }
    ensures memory { result ≢ Response.NoMemory }
    ensures later { K.faults sink.old ≤ K.faults sink.new }
{
    let text = fault_text(line, fault);
    respond_with(sink, text.as_str().as_bytes(), FAULT)
}

/// Puts the lines of intervals in order, and those of their count and their ends.
fn put_column<K: Sink>(
    sink: &mut K,
    batch: &mut Batch,
    style: Style,
    ranks: &[Ranked],
) -> Result<(), Failed>
    ensures ok { OnOk result (Moves (K.held sink.old) (K.held sink.new)
        batch.old.bytes (column_text style (intervals_of ranks.now)) batch.new.bytes) }
    ensures err { OnErr result (AppendsFront (K.held sink.old) (K.held sink.new)
        (batch.old.bytes ++ column_text style (intervals_of ranks.now))) }
    ensures cause { HasCause (K.faults sink.old) (K.faults sink.new) result }
{
    forms::laws::waiting_texts_keep_their_order();
    put_intervals(sink, batch, style, ranks)?;
    let summary = summary(style, ranks);
    put_text(sink, batch, summary.as_str())
}

/// Puts the lines of intervals.
fn put_intervals<K: Sink>(
    sink: &mut K,
    batch: &mut Batch,
    style: Style,
    ranks: &[Ranked],
) -> Result<(), Failed>
    ensures ok { OnOk result (Moves (K.held sink.old) (K.held sink.new)
        batch.old.bytes (flat_map (interval_line style []) (intervals_of ranks.now))
        batch.new.bytes) }
    ensures err { OnErr result (AppendsFront (K.held sink.old) (K.held sink.new)
        (batch.old.bytes ++ flat_map (interval_line style []) (intervals_of ranks.now))) }
    ensures cause { HasCause (K.faults sink.old) (K.faults sink.new) result }
{
    forms::laws::waiting_texts_keep_their_order();
    for ranked in ranks {
        put_interval(sink, batch, style, ranked.interval)?;
    }
    Ok(())
}

/// Puts the line of an interval.
#[inline(always)]
fn put_interval<K: Sink>(
    sink: &mut K,
    batch: &mut Batch,
    style: Style,
    interval: Interval,
) -> Result<(), Failed>
    ensures ok { OnOk result (Moves (K.held sink.old) (K.held sink.new)
        batch.old.bytes (interval_line style [] interval) batch.new.bytes) }
    ensures err { OnErr result (AppendsFront (K.held sink.old) (K.held sink.new)
        (batch.old.bytes ++ interval_line style [] interval)) }
    ensures cause { HasCause (K.faults sink.old) (K.faults sink.new) result }
{
    let mut line = Short::new();
    push_line(&mut line, "", style, interval);
    put_text(sink, batch, line.as_str())
}
