//! The lines of an output.
ghost use Rattle.std.specs.Prelude.{◌≡◌, ◌+◌, ◌≤◌, ◌++◌, decimal, length};
ghost use Rattle.arrayvec.specs.ArrayString.{array_string_len};
ghost use Rattle.interval_column.specs.Output.{count_line, fault_line, interval_line};

use crate::fault::LineFault;
use arrayvec::ArrayString;
use pg_interval_2::{Interval, Style};
use scan_core::{Short, push_num, push_text};

/// Appends an interval behind a label of at most 9 bytes, and a line feed.
#[inline(always)]
pub fn push_line<const CAP: usize>(
    out: &mut ArrayString<CAP>,
    label: &str,
    style: Style,
    interval: Interval,
)
    requires label { length label.now ≤ 9 }
    requires room { array_string_len out.old + 106 ≤ CAP }
    ensures bytes { out.new.bytes ≡ out.old.bytes ++ interval_line style label.now interval }
    ensures len { array_string_len out.new ≤ array_string_len out.old + 106 }
{
    out.push_str(label);
    interval.push_text(style, out);
    out.push('\n');
}

/// The line about the first line with a fault: `line 3 refused Syntax`.
pub fn fault_text(line: u64, fault: LineFault) -> Short
    ensures { result.bytes ≡ fault_line line fault }
{
    let mut out = Short::new();
    push_count(&mut out, "line ", line);
    push_text(&mut out, " refused ");
    push_text(&mut out, fault.name());
    push_text(&mut out, "\n");
    out
}

/// The line of a count: `count 2`.
pub fn count_text(count: u64) -> Short
    ensures bytes { result.bytes ≡ count_line count }
    ensures len { array_string_len result ≤ 30 }
{
    let mut out = Short::new();
    push_count(&mut out, "count ", count);
    push_text(&mut out, "\n");
    out
}

/// Appends a label of at most 9 bytes, and a number in decimal.
fn push_count(out: &mut Short, label: &str, count: u64)
    requires label { length label.now ≤ 9 }
    requires room { array_string_len out.old + 29 ≤ 128 }
    ensures bytes { out.new.bytes ≡ out.old.bytes ++ (label.now ++ decimal count) }
    ensures len { array_string_len out.new ≤ array_string_len out.old + 29 }
{
    push_text(out, label);
    push_num(out, count);
}
