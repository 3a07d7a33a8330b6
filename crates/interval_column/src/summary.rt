//! The lines behind the intervals of a column: their count, their ends and their sum.
ghost use Rattle.std.specs.Prelude.{◌≡◌, ◌+◌, ◌-◌, ◌≤◌, ◌++◌, length, slice_get};
ghost use Rattle.arrayvec.specs.ArrayString.{array_string_len};
ghost use Rattle.interval_column.specs.Columns.{total_of};
ghost use Rattle.interval_column.specs.Output.{count_line, end_lines, sum_line};
ghost use Rattle.interval_column.specs.inside.Ranks.{intervals_of};

use crate::line_text::{count_text, push_line};
use crate::ranked::Ranked;
use crate::sums::total_of;
use arrayvec::ArrayString;
use pg_interval_2::{Interval, Style};

/// The lines behind the intervals: 30 bytes of a count, and three lines of 106.
type Summary = ArrayString<384>;

/// The lines of the count, the least, the greatest and the sum of intervals in order.
pub fn summary(style: Style, ranks: &[Ranked]) -> Summary
    ensures bytes { result.bytes ≡ count_line (length (intervals_of ranks.now))
        ++ end_lines style (slice_get (intervals_of ranks.now) 0)
        (slice_get (intervals_of ranks.now) (length (intervals_of ranks.now) - 1))
        (total_of (intervals_of ranks.now)) }
    ensures len { array_string_len result ≤ 384 }
{
    let mut out = Summary::new();
    let count = count_text(ranks.len() as u64);
    out.push_str(count.as_str());
    if let (Some(least), Some(greatest)) = (ranks.first(), ranks.last()) {
        push_line(&mut out, "least ", style, least.interval);
        push_line(&mut out, "greatest ", style, greatest.interval);
        push_sum(&mut out, style, total_of(ranks));
    }
    out
}

/// Appends the line of the sum.
fn push_sum(out: &mut Summary, style: Style, sum: Option<Interval>)
    requires room { array_string_len out.old + 106 ≤ 384 }
    ensures bytes { out.new.bytes ≡ out.old.bytes ++ sum_line style sum }
    ensures len { array_string_len out.new ≤ array_string_len out.old + 106 }
{
    match sum {
        Some(sum) => push_line(out, "sum ", style, sum),
        None => out.push_str("sum Range\n"),
    }
}
