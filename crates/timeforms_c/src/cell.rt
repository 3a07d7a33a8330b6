//! One cell of a column: its text, the text's answer and its interval.
ghost use Rattle.std.specs.Prelude.{◌≡◌, ◌≤◌, IfOk, IfSome, IfNone};
ghost use Rattle.arrayvec.specs.ArrayString.{array_string_len};
ghost use Rattle.forms.specs.Answers.{bytes_of};
ghost use Rattle.forms.specs.Replies.{IsAnswer};
ghost use Rattle.forms.specs.form.Intervals.{FindsInterval};
ghost use Rattle.timeforms_c.specs.Columns.{HasNoCell, IsCell, IsCellAnswer, IsCoded, coded};
ghost use Rattle.timeforms_c.specs.inside.Cells.{shown};

use crate::code::{BAD_OFFSETS, NOT_UTF8, code_of};
use forms::{Cause, Form, push_text_reply, read_interval, reply};
use pg_interval_2::{Interval, Style};
use scan_core::Short;
use std::str;

/// The answer to a cell, or a code.
#[inline(always)]
pub(crate) fn cell_answer(
    from: Form,
    to: Form,
    bytes: &[u8],
    start: u32,
    end: u32,
) -> Result<Short, i32>
    ensures answer { IsCellAnswer (IsAnswer from to) bytes.now start end (shown result) }
    ensures len { IfOk result (λ text. array_string_len text ≤ 96) }
{
    match cell_text(bytes, start, end) {
        Some(text) => text_answer(from, to, text),
        None => Err(BAD_OFFSETS),
    }
}

/// The interval of a cell, or a code.
#[inline(always)]
pub(crate) fn cell_interval(
    style: Style,
    bytes: &[u8],
    start: u32,
    end: u32,
) -> Result<Interval, i32>
    ensures { IsCellAnswer (FindsInterval style) bytes.now start end result }
{
    match cell_text(bytes, start, end) {
        Some(text) => text_interval(style, text),
        None => Err(BAD_OFFSETS),
    }
}

/// The text of a cell, or None exactly where its offsets fall or leave the bytes.
#[inline(always)]
fn cell_text(bytes: &[u8], start: u32, end: u32) -> Option<&[u8]>
    ensures found { IfSome result (λ text. IsCell bytes.now start end text.now) }
    ensures none { IfNone result (HasNoCell bytes.now start end) }
{
    if start <= end && end as usize <= bytes.len() {
        return Some(&bytes[start as usize..end as usize]);
    }
    None
}

/// The answer to a text, or a code. A text that has an answer is gone through once.
#[inline(always)]
fn text_answer(from: Form, to: Form, text: &[u8]) -> Result<Short, i32>
    ensures answer { IsCoded (IsAnswer from to) text.now (shown result) }
    ensures len { IfOk result (λ text. array_string_len text ≤ 96) }
{
    let mut out = Short::new();
    if push_text_reply(from, to, text, &mut out) {
        return refused_answer(from, to, text);
    }
    Ok(out)
}

/// The same of a text that is likely refused.
#[inline(never)]
fn refused_answer(from: Form, to: Form, text: &[u8]) -> Result<Short, i32>
    ensures answer { IsCoded (IsAnswer from to) text.now (shown result) }
    ensures len { IfOk result (λ text. array_string_len text ≤ 96) }
{
    match str::from_utf8(text) {
        Ok(text) => coded_answer(reply(from, to, text)),
        Err(_) => Err(NOT_UTF8),
    }
}

/// An answer, or the code of its cause.
#[inline(always)]
fn coded_answer(answer: Result<Short, Cause>) -> Result<Short, i32>
    requires { IfOk answer (λ text. array_string_len text ≤ 96) }
    ensures answer { shown result ≡ coded (bytes_of answer) }
    ensures len { IfOk result (λ text. array_string_len text ≤ 96) }
{
    match answer {
        Ok(text) => Ok(text),
        Err(cause) => Err(code_of(cause)),
    }
}

/// The interval that a text denotes, or a code.
#[inline(always)]
fn text_interval(style: Style, text: &[u8]) -> Result<Interval, i32>
    ensures { IsCoded (FindsInterval style) text.now result }
{
    match str::from_utf8(text) {
        Ok(text) => coded_interval(read_interval(style, text.as_bytes())),
        Err(_) => Err(NOT_UTF8),
    }
}

/// An interval, or the code of its cause.
#[inline(always)]
fn coded_interval(found: Result<Interval, Cause>) -> Result<Interval, i32>
    ensures { result ≡ coded found }
{
    match found {
        Ok(interval) => Ok(interval),
        Err(cause) => Err(code_of(cause)),
    }
}
