//! The lines of a report.
ghost use Rattle.std.specs.Prelude.{◌≡◌, ◌+◌, ◌≤◌, ◌++◌, decimal, length};
ghost use Rattle.arrayvec.specs.ArrayString.{array_string_len};
ghost use Rattle.forms.specs.Names.{cause_name};
ghost use Rattle.schedule_check.specs.Reports.{slot_line, clash_line, fault_line, fault_text};

use crate::fault::Fault;
use crate::slot::Slot;
use forms::Cause;
use scan_core::{Short, push_num, push_text};

/// The line of a slot.
pub fn slot_line(slot: Slot) -> Short
    ensures { result.bytes ≡ slot_line slot }
{
    let mut out = Short::new();
    push_count(&mut out, slot.start, " ");
    push_count(&mut out, slot.end, " ");
    push_count(&mut out, slot.line, "\n");
    out
}

/// The line of two slots that clash, by the numbers of their lines.
pub fn clash_line(first: u64, second: u64) -> Short
    ensures { result.bytes ≡ clash_line first second }
{
    let mut out = Short::new();
    push_text(&mut out, "clash ");
    push_count(&mut out, first, " ");
    push_count(&mut out, second, "\n");
    out
}

/// The line of a fault.
pub fn fault_line(line: u64, fault: Fault) -> Short
    ensures { result.bytes ≡ fault_line line fault }
{
    let mut out = Short::new();
    push_text(&mut out, "line ");
    push_count(&mut out, line, " ");
    push_fault(&mut out, fault);
    push_text(&mut out, "\n");
    out
}

/// Appends a fault by name.
fn push_fault(out: &mut Short, fault: Fault)
    requires room { array_string_len out.old + 29 ≤ 128 }
    ensures bytes { out.new.bytes ≡ out.old.bytes ++ fault_text fault }
    ensures len { array_string_len out.new ≤ array_string_len out.old + 29 }
{
    match fault {
        Fault::Line => push_text(out, "Line"),
        Fault::Start(cause) => push_cause(out, "start ", cause),
        Fault::Length(cause) => push_cause(out, "length ", cause),
        Fault::Empty => push_text(out, "length Empty"),
    }
}

/// Appends a label of at most 9 bytes, and a cause by name.
fn push_cause(out: &mut Short, label: &str, cause: Cause)
    requires label { length label.now ≤ 9 }
    requires room { array_string_len out.old + 29 ≤ 128 }
    ensures bytes { out.new.bytes ≡ out.old.bytes ++ (label.now ++ cause_name cause) }
    ensures len { array_string_len out.new ≤ array_string_len out.old + 29 }
{
    push_text(out, label);
    push_text(out, cause.name());
}

/// Appends a number in decimal, and what stands behind it, of at most 9 bytes.
fn push_count(out: &mut Short, count: u64, behind: &str)
    requires behind { length behind.now ≤ 9 }
    requires room { array_string_len out.old + 29 ≤ 128 }
    ensures bytes { out.new.bytes ≡ out.old.bytes ++ (decimal count ++ behind.now) }
    ensures len { array_string_len out.new ≤ array_string_len out.old + 29 }
{
    push_num(out, count);
    push_text(out, behind);
}
