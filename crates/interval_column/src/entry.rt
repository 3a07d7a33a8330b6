//! One line of a column.
ghost use Rattle.std.specs.Prelude.{◌≡◌, IfSome, IfNone};
ghost use Rattle.whole_input.specs.Parts.{HasNo};
ghost use Rattle.interval_column.specs.Lines.{IsEntry, IsLabelled, IsLineRead, IsTextRead};
ghost use Rattle.interval_column.specs.inside.Labels.{IsNoEntry, IsNotStyled, IsStyled};

use crate::fault::LineFault;
use forms::{Cause, Form, read_interval};
use pg_interval_2::{Interval, Style};
use std::str;
use whole_input::split_text;

/// The interval that a line denotes, or its fault.
pub fn read_line(line: &[u8]) -> Result<Interval, LineFault>
    ensures { IsLineRead line.now result }
{
    match entry(line) {
        Some((style, text)) => read_text(style, text),
        None => Err(LineFault::Line),
    }
}

/// The style and the text of an entry, or None exactly where the line is none.
fn entry(line: &[u8]) -> Option<(Style, &str)>
    ensures found { IfSome result (λ r. IsEntry line.now r.0 r.1.now) }
    ensures none { IfNone result (IsNoEntry line.now) }
{
    match str::from_utf8(line) {
        Ok(text) => styled(text),
        Err(_) => None,
    }
}

/// The style that the first word names, and what follows.
fn styled(text: &str) -> Option<(Style, &str)>
    ensures found { IfSome result (λ r. IsStyled text.now r.0 r.1.now) }
    ensures none { IfNone result (IsNotStyled text.now) }
{
    let (word, rest) = first_word(text);
    let form = Form::by_name(word)?;
    let style = form.style()?;
    Some((style, rest))
}

/// What stands before the first space, and what follows it.
fn first_word(text: &str) -> (&str, &str)
    ensures word { HasNo 32 result.0.now }
    ensures labelled { IsLabelled text.now result.0.now result.1.now }
{
    match split_text(b' ', text) {
        Some((word, rest)) => (word, rest),
        None => (text, ""),
    }
}

/// The interval that a text denotes in a style.
fn read_text(style: Style, text: &str) -> Result<Interval, LineFault>
    ensures { IsTextRead style text.now result }
{
    match read_interval(style, text.as_bytes()) {
        Ok(interval) => Ok(interval),
        Err(Cause::Range) => Err(LineFault::Range),
        Err(_) => Err(LineFault::Syntax),
    }
}
