//! The slot of a line.
ghost use Rattle.std.specs.Prelude.{◌≡◌};
ghost use Rattle.forms.specs.Forms.{Reads};
ghost use Rattle.schedule_check.specs.Slots.{IsSlot, IsSlotOf, StartsAt, Lasts, nanos_of, slot_for};

use crate::fault::Fault;
use crate::slot::Slot;
use forms::{Cause, Form, Value, file_time_of, read_value};
use std::str;
use whole_input::{ReadLine, split_text};

/// The length of a tick in nanoseconds.
const TICK: u128 = 100;

/// Reads lines as slots.
pub struct SlotLines;

impl ReadLine<Slot, Fault> for SlotLines {
    ghost is_read = { λ _. IsSlot };

    fn read_line(&self, line: &[u8], number: u64) -> Result<Slot, Fault> {
        slot_of(line, number)
    }
}

/// The slot of a line with its number.
fn slot_of(line: &[u8], number: u64) -> Result<Slot, Fault>
    ensures { IsSlot line.now number result }
{
    let Ok(text) = str::from_utf8(line) else {
        return Err(Fault::Line);
    };
    match split_text(b'\t', text) {
        Some((start, length)) => slot_of_parts(start, length, number),
        None => Err(Fault::Line),
    }
}

/// The slot of a start and a length.
fn slot_of_parts(start: &str, length: &str, number: u64) -> Result<Slot, Fault>
    ensures { IsSlotOf start.now length.now number result }
{
    match ticks_of(start) {
        Ok(ticks) => match nanos_of(length) {
            Ok(nanos) => slot_for(number, ticks, nanos),
            Err(cause) => Err(Fault::Length(cause)),
        },
        Err(cause) => Err(Fault::Start(cause)),
    }
}

/// The slot of a start in ticks and a length in nanoseconds.
#[tactic(auto, unfolding(crate::specs::Slots::slot_for))]
fn slot_for(line: u64, start: u64, nanos: u128) -> Result<Slot, Fault>
    ensures { result ≡ slot_for line start nanos }
{
    if nanos == 0 {
        return Err(Fault::Empty);
    }
    if nanos % TICK != 0 {
        return Err(Fault::Length(Cause::Precision));
    }
    let ticks = nanos / TICK;
    if ticks > (u64::MAX - start) as u128 {
        return Err(Fault::Length(Cause::Range));
    }
    Ok(Slot {
        start,
        end: start + ticks as u64,
        line,
    })
}

/// The file time that a start stands for, in ticks.
fn ticks_of(start: &str) -> Result<u64, Cause>
    ensures { StartsAt start.now result }
{
    match read(Form::Toml, start) {
        Ok(value) => file_time_of(value),
        Err(cause) => Err(cause),
    }
}

/// The nanoseconds that a length stands for.
fn nanos_of(length: &str) -> Result<u128, Cause>
    ensures { Lasts length.now result }
{
    match read(Form::Fancy, length) {
        Ok(value) => nanos_held(value),
        Err(cause) => Err(cause),
    }
}

/// The value that a text stands for.
fn read(form: Form, text: &str) -> Result<Value, Cause>
    ensures { Reads form text.now result }
{
    read_value(form, text)
}

/// The nanoseconds of a length.
fn nanos_held(value: Value) -> Result<u128, Cause>
    ensures { result ≡ nanos_of value }
{
    match value {
        Value::Length(nanos) => Ok(nanos),
        _ => Err(Cause::Kind),
    }
}
