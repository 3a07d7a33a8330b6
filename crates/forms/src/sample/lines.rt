//! The lines of the sample, which ask for intervals that a generator draws.
ghost use Rattle.std.specs.Prelude.{◌≡◌, ◌+◌, ◌≤◌, ◌++◌, codes, IfOk};
ghost use Rattle.arrayvec.specs.ArrayString.{array_string_len};
ghost use Rattle.forms.specs.Names.{name_of};
ghost use Rattle.forms.specs.Sample.{drawn_after, form_of, interval_of_draws, line_of, mark_of, sample_lines, style_at};
ghost use Rattle.forms.specs.inside.Pieces.{AreWhole};

use pg_interval_2::{Interval, Style};
use scan_core::{Short, push_text};
use std::alloc::{AllocError, Global};

/// No line has more bytes: two names of at most 9, a space behind each, a written text of at most 96, a mark and a line feed.
const LONGEST_LINE: usize = 118;

/// So many lines of the sample, each with its line feed.
pub fn sample_bytes(alloc: Global, count: u64) -> Result<Vec<u8>, AllocError>
    requires { count ≤ 100_000 }
    ensures { IfOk result (λ bytes. AreWhole (sample_lines count) bytes.items) }
{
    pg_interval_2::laws::written_text_is_one_line();
    let mut bytes = Vec::with_capacity(alloc, LONGEST_LINE * count as usize)?;
    let mut x = 1;
    for index in 0..count {
        let a = draw_after(x);
        let b = draw_after(a);
        x = draw_after(b);
        let line = line_of(index, interval_of_draws(a, b, x));
        bytes.extend_from_slice(line.as_str().as_bytes())?;
    }
    Ok(bytes)
}

/// The generator's number behind another one.
fn draw_after(x: u64) -> u64
    ensures { result ≡ drawn_after x }
{
    x.wrapping_mul(6_364_136_223_846_793_005)
        .wrapping_add(1_442_695_040_888_963_407)
}

/// The interval of three numbers of the generator.
fn interval_of_draws(a: u64, b: u64, c: u64) -> Interval
    ensures { result ≡ interval_of_draws a b c }
{
    let months = (a / (1 << 33) % 4801) as i32 - 2400;
    let days = (b / (1 << 33) % 20_001) as i32 - 10_000;
    let microseconds = (c / (1 << 24)) as i64 - 549_755_813_888;
    Interval::new(months, days, microseconds)
}

/// A line of the sample, with its line feed.
fn line_of(index: u64, interval: Interval) -> Short
    ensures { result.bytes ≡ line_of index interval ++ codes "\n" }
{
    let from = style_at(index % 4);
    let mut out = Short::new();
    push_name(&mut out, from);
    push_name(&mut out, style_at(index / 4 % 4));
    push_text(&mut out, interval.text(from).as_str());
    push_mark(&mut out, index);
    push_text(&mut out, "\n");
    out
}

/// The style with the number, of the four in turn.
fn style_at(number: u64) -> Style
    ensures { result ≡ style_at number }
{
    match number {
        0 => Style::Iso,
        1 => Style::Postgres,
        2 => Style::Verbose,
        _ => Style::Sql,
    }
}

/// Appends the name of the style's form, and a space.
fn push_name(out: &mut Short, style: Style)
    requires room { array_string_len out.old + 10 ≤ 128 }
    ensures bytes { out.new.bytes ≡ out.old.bytes ++ (name_of (form_of style) ++ codes " ") }
    ensures len { array_string_len out.new ≤ array_string_len out.old + 10 }
{
    match style {
        Style::Iso => push_text(out, "PgIso "),
        Style::Postgres => push_text(out, "Postgres "),
        Style::Verbose => push_text(out, "PgVerbose "),
        Style::Sql => push_text(out, "PgSql "),
        Style::IsoStrict => push_text(out, "IsoStrict "),
    }
}

/// Appends the mark of a tenth line.
#[tactic(auto, unfolding(crate::specs::Sample::mark_of))]
fn push_mark(out: &mut Short, index: u64)
    requires room { array_string_len out.old + 1 ≤ 128 }
    ensures bytes { out.new.bytes ≡ out.old.bytes ++ mark_of index }
    ensures len { array_string_len out.new ≤ array_string_len out.old + 1 }
{
    if index % 10 == 9 {
        push_text(out, "x");
    }
}
