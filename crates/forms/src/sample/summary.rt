//! The line that tells of the replies to the sample.
ghost use Rattle.std.specs.Prelude.{◌≡◌, ◌+◌, ◌≤◌, ◌++◌, decimal, length};
ghost use Rattle.arrayvec.specs.ArrayString.{array_string_len};
ghost use Rattle.forms.specs.Lines.{whole_lines};
ghost use Rattle.forms.specs.Sample.{answers, refusals, told};

use crate::line::split_line;
use scan_core::{Short, push_num, push_text};

/// How many replies there are of each kind.
#[derive(Drop)]
struct Counts {
    ok: u64,
    refused: u64,
}

/// The line that tells of the replies to so many lines.
pub fn summary(count: u64, replies: &[u8]) -> Short
    ensures { result.bytes ≡ told count
        (answers (whole_lines replies.now)) (refusals (whole_lines replies.now))
        (length replies.now) }
{
    let counts = counts_of(replies);
    told(count, counts.ok, counts.refused, replies.len() as u64)
}

/// The counts of replies, each of which a line feed ends.
fn counts_of(replies: &[u8]) -> Counts
    ensures ok { result.ok ≡ answers (whole_lines replies.now) }
    ensures refused { result.refused ≡ refusals (whole_lines replies.now) }
{
    let mut counts = Counts { ok: 0, refused: 0 };
    let mut rest = replies;
    while let Some((reply, after)) = split_line(rest) {
        if reply.starts_with(b"refused ") {
            counts.refused += 1;
        } else {
            counts.ok += 1;
        }
        rest = after;
    }
    counts
}

/// The line of these counts.
fn told(lines: u64, ok: u64, refused: u64, bytes: u64) -> Short
    ensures { result.bytes ≡ told lines ok refused bytes }
{
    let mut out = Short::new();
    push_count(&mut out, "lines ", lines);
    push_count(&mut out, " ok ", ok);
    push_count(&mut out, " refused ", refused);
    push_count(&mut out, " bytes ", bytes);
    push_text(&mut out, "\n");
    out
}

/// Appends a label of at most 9 bytes, and a count in decimal.
fn push_count(out: &mut Short, label: &str, count: u64)
    requires label { length label.now ≤ 9 }
    requires room { array_string_len out.old + 29 ≤ 128 }
    ensures bytes { out.new.bytes ≡ out.old.bytes ++ (label.now ++ decimal count) }
    ensures len { array_string_len out.new ≤ array_string_len out.old + 29 }
{
    push_text(out, label);
    push_num(out, count);
}
