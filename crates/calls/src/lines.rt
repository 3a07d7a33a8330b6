//! The calls of `forms`.
ghost use Rattle.std.specs.Prelude.{◌≡◌, ◌<◌, ◌≤◌, IsTrue};
ghost use Rattle.forms.specs.Names.{is_counted};
ghost use Rattle.forms.specs.Values.{IsWithinBounds};

use crate::named::named;
use crate::told::{Answer, text, told};
use forms::{
    Cause, Form, MemSink, MemSource, RunEnd, Value, convert, read_value, reply, reply_counted,
    reply_lines, top, write_value,
};
use scan_core::{Looked, Short, Steps};
use std::alloc::{AllocError, Global};
use std::marker::Brand;
use std::sync::ledger::{Blank, Ledger};

/// A call of a table.
#[derive(Clone, Copy)]
enum Call {
    Lines,
    LinesByteByByte,
    LinesAtEachCut,
    Top,
    ReplyLines,
    Status,
    Convert,
    ReadValue,
    OfName(OfName),
    Written(Written),
}

/// A call of a form's name.
#[derive(Clone, Copy)]
enum OfName {
    ByName,
    Name,
    IsCounted,
}

/// A call that writes a value in a form, or the value that a text of the form denotes.
#[derive(Clone, Copy)]
enum Written {
    Value,
    Again,
    Reply,
    ReplyCounted,
}

/// The calls by their names.
const CALLS: [(&str, Call); 15] = [
    ("lines", Call::Lines),
    ("lines byte by byte", Call::LinesByteByByte),
    ("lines at each cut", Call::LinesAtEachCut),
    ("top", Call::Top),
    ("reply_lines", Call::ReplyLines),
    ("status", Call::Status),
    ("convert", Call::Convert),
    ("read_value", Call::ReadValue),
    ("by_name", Call::OfName(OfName::ByName)),
    ("name", Call::OfName(OfName::Name)),
    ("is_counted", Call::OfName(OfName::IsCounted)),
    ("write_value", Call::Written(Written::Value)),
    ("written again", Call::Written(Written::Again)),
    ("reply", Call::Written(Written::Reply)),
    ("reply_counted", Call::Written(Written::ReplyCounted)),
];

/// The ends of a run by their names.
const ENDS: [(&str, RunEnd); 5] = [
    ("Done", RunEnd::Done),
    ("ReadFault", RunEnd::ReadFault),
    ("WriteFault", RunEnd::WriteFault),
    ("TooLong", RunEnd::TooLong),
    ("NoMemory", RunEnd::NoMemory),
];

/// A value that has a name.
#[derive(Clone, Copy)]
enum NamedValue {
    Instant0,
    Instant1,
    Clock0,
    Length1,
    LengthOf30Days,
    TripleOf2To31Months,
}

/// Some values by their names.
const VALUES: [(&str, NamedValue); 6] = [
    ("Instant 0", NamedValue::Instant0),
    ("Instant 1", NamedValue::Instant1),
    ("Clock 0", NamedValue::Clock0),
    ("Length 1", NamedValue::Length1),
    ("Length of 30 days", NamedValue::LengthOf30Days),
    ("Triple of 2^31 months", NamedValue::TripleOf2To31Months),
];

/// What the call answers, where its arguments are bytes.
pub fn answer(alloc: Global, call: &str, arguments: &[u8]) -> Answer {
    let of = str::from_utf8(arguments).ok();
    match named(&CALLS, call)? {
        Call::Lines => Some(outcome(alloc, "", arguments, 65_536, 65_536)),
        Call::LinesByteByByte => Some(outcome(alloc, "", arguments, 65_536, 1)),
        Call::LinesAtEachCut => Some(outcome_at_each_cut(alloc, arguments)),
        Call::Top => outcome_of_top(alloc, of?),
        Call::ReplyLines => replies_in(alloc, of?),
        Call::Status => told(alloc, &named(&ENDS, of?)?.status()),
        Call::Convert => converted(alloc, of?),
        Call::ReadValue => {
            let (form, of) = form_and_text(of?)?;
            told(alloc, &read_value(form, of))
        }
        Call::OfName(call) => of_name(alloc, call, of?),
        Call::Written(call) => match text_of(call, of?)? {
            Ok(out) => text(alloc, out.as_str()),
            Err(cause) => told(alloc, &cause),
        },
    }
}

/// What the call answers to a form's name.
fn of_name(alloc: Global, call: OfName, name: &str) -> Answer {
    match call {
        OfName::ByName => told(alloc, &Form::by_name(name)),
        OfName::Name => text(alloc, Form::by_name(name)?.name()),
        OfName::IsCounted => told(alloc, &Form::by_name(name)?.is_counted()),
    }
}

/// What the call writes, behind the form.
fn text_of(call: Written, arguments: &str) -> Option<Result<Short, Cause>> {
    let (form, of) = form_and_text(arguments)?;
    match call {
        Written::Value => Some(write_value(form, value_of(named(&VALUES, of)?))),
        Written::Again => Some(written_again(form, of)),
        Written::Reply => Some(reply(form, Form::PgIso, of)),
        Written::ReplyCounted => counted(form, of),
    }
}

/// What the program does with words, behind the room of the sink and the bytes of a call.
fn outcome_of_top(alloc: Global, arguments: &str) -> Answer {
    let (room, rest) = arguments.split_once(' ')?;
    let (cut, words) = rest.split_once(' ')?;
    let (room, cut) = (room.parse::<usize>().ok()?, cut.parse::<usize>().ok()?);
    if cut < 1 {
        return None;
    }
    Some(outcome(alloc, words, b"left\n", room, cut))
}

/// The text of a form in another one.
fn converted(alloc: Global, arguments: &str) -> Answer {
    let (from, rest) = form_and_text(arguments)?;
    let (to, of) = form_and_text(rest)?;
    match convert(alloc, from, to, of) {
        Ok(out) => text(alloc, out.as_str()),
        Err(error) => told(alloc, &error),
    }
}

/// The value that has a name.
fn value_of(name: NamedValue) -> Value
    ensures { IsWithinBounds result }
{
    match name {
        NamedValue::Instant0 => Value::Instant(0),
        NamedValue::Instant1 => Value::Instant(1),
        NamedValue::Clock0 => Value::Clock(0),
        NamedValue::Length1 => Value::Length(1),
        NamedValue::LengthOf30Days => Value::Length(2_592_000_000_000_000),
        NamedValue::TripleOf2To31Months => Value::Triple {
            months: 2_147_483_648,
            days: 0,
            micros: 0,
        },
    }
}

/// A form by its name, and what follows the space behind it.
fn form_and_text(arguments: &str) -> Option<(Form, &str)> {
    let (name, rest) = arguments.split_once(' ')?;
    Some((Form::by_name(name)?, rest))
}

/// What the form writes of the value that a text of it denotes.
fn written_again(form: Form, of: &str) -> Result<Short, Cause> {
    write_value(form, read_value(form, of)?)
}

/// The answer in the ISO style by counted looks, of the forms that are read so.
fn counted(form: Form, of: &str) -> Option<Result<Short, Cause>> {
    if form.is_counted() {
        Some(counted_alone::<Brand>(form, &Looked::new(of), Blank::new(1)))
    } else {
        None
    }
}

/// The same with a counter of its own.
fn counted_alone<L: Ledger>(form: Form, of: &Looked<'_>, blank: Blank) -> Result<Short, Cause>
    requires form { IsTrue (is_counted form) }
    requires name { blank.name ≡ L.name }
    requires parts { blank.parts ≡ L.parts }
    requires some { 0 < L.parts }
{
    reply_counted(form, Form::PgIso, of, &mut Steps::<L>::new(blank))
}

/// The program's status, how many bytes it left of the input, and what the sink held.
fn outcome(
    alloc: Global,
    words: &str,
    input: &[u8],
    room: usize,
    cut: usize,
) -> Result<String, AllocError>
    requires { 1 ≤ cut }
{
    let mut source = MemSource::new(alloc, input, cut, &[])?;
    let mut sink = MemSink::new(alloc, room, cut, &[])?;
    let status = top(alloc, words, &mut source, &mut sink);
    let left = source.left().len();
    let held = str::from_utf8(sink.held()).unwrap_or("bytes that are not UTF-8");
    format!(in alloc; "status {status}, left {left}: {held}")
}

/// The outcome that each of 21 runs has, of which the first reads and writes a byte at most, the next two, and so on.
fn outcome_at_each_cut(alloc: Global, input: &[u8]) -> Result<String, AllocError> {
    let whole = outcome(alloc, "", input, 65_536, 65_536)?;
    for cut in 1..22_usize {
        if outcome(alloc, "", input, 65_536, cut)?.as_str() != whole.as_str() {
            return format!(in alloc; "another outcome at {cut}");
        }
    }
    Ok(whole)
}

/// How many bytes were read and written, and the buffer behind the call, whose bytes were `-`. The room stands in front of the lines.
fn replies_in(alloc: Global, arguments: &str) -> Answer {
    let (room, lines) = arguments.split_once(' ')?;
    Some(replies(alloc, room.parse::<usize>().ok()?, lines.as_bytes()))
}

/// The same of a room and lines.
fn replies(alloc: Global, room: usize, lines: &[u8]) -> Result<String, AllocError> {
    let mut out = vec![in alloc; b'-'; room]?;
    let (read, wrote) = reply_lines(lines, out.as_mut_slice());
    let held = str::from_utf8(out.as_slice()).unwrap_or("bytes that are not UTF-8");
    format!(in alloc; "read {read}, wrote {wrote}: {held}")
}
