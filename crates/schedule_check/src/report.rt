//! The report on an input, written as it is made.
ghost use Rattle.std.specs.Prelude.{◌≡◌, ◌≢◌, ◌≤◌, ◌++◌, ℕ, true, OnOk, OnErr, Err};
ghost use Rattle.std.specs.Io.KnownBytes.{Appends};
ghost use Rattle.forms.specs.Outside.{HasCause, AppendsFront, Rose};
ghost use Rattle.forms.specs.Waiting.{Moves};
ghost use Rattle.schedule_check.specs.Reports.{Reports, report_of, report_status, slot_lines};

use crate::check_error::CheckError;
use crate::checking::check;
use crate::report_lines::{clash_line, fault_line, slot_line};
use crate::slot::Slot;
use crate::table::Table;
use forms::{Batch, Failed, Sink, put_text};
use std::alloc::Global;
use whole_input::{Command, Response, respond_waiting, respond_with};

/// The status where no line has a fault, and no two slots clash.
const NO_CLASH: u8 = 0;

/// The status where no line has a fault, and two slots clash.
const CLASH: u8 = 7;

/// The status where a line has a fault.
const FAULT: u8 = 8;

/// Reports on a schedule.
pub struct Schedule;

impl Command for Schedule {
    ghost says = { λ _. Reports };

    ghost needs_memory = { λ _. true };

    fn respond<K: Sink>(&self, alloc: Global, input: &[u8], sink: &mut K) -> Response {
        write_report(sink, &check(alloc, input))
    }
}

/// Writes the report on what an input was checked as, or nothing for want of memory.
fn write_report<K: Sink>(sink: &mut K, answer: &Result<Table, CheckError>) -> Response
    ensures written { (s : ℕ) → result ≡ Response.Written s
        → (s ≡ report_status answer.now)
        × Appends (K.held sink.old) (K.held sink.new) (report_of answer.now) }
    ensures unwritten { result ≡ Response.WriteFault → Rose (K.faults sink.old) (K.faults sink.new)
        × AppendsFront (K.held sink.old) (K.held sink.new) (report_of answer.now) }
    ensures none { answer.now ≡ Err CheckError.NoMemory → result ≡ Response.NoMemory }
    ensures no_memory { result ≡ Response.NoMemory → sink.new ≡ sink.old }
    ensures later { K.faults sink.old ≤ K.faults sink.new }
{
    match answer {
        Ok(table) => write_slots(sink, table.slots()),
        Err(CheckError::Clash { first, second }) => {
            respond_with(sink, clash_line(*first, *second).as_str().as_bytes(), CLASH)
        }
        Err(CheckError::Refused { line, fault }) => {
            respond_with(sink, fault_line(*line, *fault).as_str().as_bytes(), FAULT)
        }
        Err(CheckError::NoMemory) => Response::NoMemory,
    }
}

/// Writes the lines of the slots.
fn write_slots<K: Sink>(sink: &mut K, slots: &[Slot]) -> Response
    ensures written { (s : ℕ) → result ≡ Response.Written s
        → (s ≡ 0) × Appends (K.held sink.old) (K.held sink.new) (slot_lines slots.now) }
    ensures unwritten { result ≡ Response.WriteFault → Rose (K.faults sink.old) (K.faults sink.new)
        × AppendsFront (K.held sink.old) (K.held sink.new) (slot_lines slots.now) }
    ensures memory { result ≢ Response.NoMemory }
    ensures later { K.faults sink.old ≤ K.faults sink.new }
{
    forms::laws::waiting_texts_keep_their_order();
    let mut batch = Batch::new();
    match put_slots(sink, &mut batch, slots) {
        Ok(()) => respond_waiting(sink, &mut batch, NO_CLASH),
        Err(Failed) => Response::WriteFault,
    }
}

/// Puts the lines of the slots behind what waits.
fn put_slots<K: Sink>(sink: &mut K, batch: &mut Batch, slots: &[Slot]) -> Result<(), Failed>
    ensures ok { OnOk result (Moves (K.held sink.old) (K.held sink.new)
        batch.old.bytes (slot_lines slots.now) batch.new.bytes) }
    ensures err { OnErr result (AppendsFront (K.held sink.old) (K.held sink.new)
        (batch.old.bytes ++ slot_lines slots.now)) }
    ensures cause { HasCause (K.faults sink.old) (K.faults sink.new) result }
{
    forms::laws::waiting_texts_keep_their_order();
    for slot in slots {
        let line = slot_line(*slot);
        put_text(sink, batch, line.as_str())?;
    }
    Ok(())
}
