//! A row of a table: a call, its arguments, its answer and what it pins, with TABs between.
ghost use Rattle.std.specs.Prelude.{◌<◌, length, IfSome};

use std::alloc::{AllocError, Global};

/// A call by its name, the bytes of its arguments, and the bytes of its answer.
#[derive(Drop)]
pub struct Row<'a> {
    pub call: &'a str,
    pub arguments: Vec<u8>,
    pub answer: Vec<u8>,
}

/// The row that a line of a table spells, or None where it has no four fields or a repeated piece is not spelled so.
pub fn row_of(alloc: Global, line: &str) -> Result<Option<Row<'_>>, AllocError> {
    let mut fields = line.split('\t');
    let (Some(call), Some(spelled), Some(answer), Some(_)) = (
        fields.next(),
        fields.next(),
        fields.next(),
        fields.next(),
    ) else {
        return Ok(None);
    };
    let mut answer_bytes = Vec::new(alloc);
    push_spelled(&mut answer_bytes, answer)?;
    Ok(arguments_of(alloc, spelled)?.map(|arguments| Row {
        call,
        arguments,
        answer: answer_bytes,
    }))
}

/// The bytes that a field of arguments spells, in which `{1D-1D*1000}` is a piece a thousand times.
fn arguments_of(alloc: Global, field: &str) -> Result<Option<Vec<u8>>, AllocError> {
    let mut bytes = Vec::new(alloc);
    let mut parts = field.split('{');
    push_spelled(&mut bytes, parts.next().unwrap_or(""))?;
    for part in parts {
        let Some((piece, count, after)) = repeated(part) else {
            return Ok(None);
        };
        for _ in 0..count {
            push_spelled(&mut bytes, piece)?;
        }
        push_spelled(&mut bytes, after)?;
    }
    Ok(Some(bytes))
}

/// The piece, how often it stands, and what follows: of `9*1000}D` they are `9`, 1000 and `D`.
fn repeated(part: &str) -> Option<(&str, u32, &str)> {
    let (inside, after) = part.split_once('}')?;
    let (piece, count) = inside.split_once('*')?;
    Some((piece, count.parse::<u32>().ok()?, after))
}

/// Appends the bytes that a field spells.
fn push_spelled(bytes: &mut Vec<u8>, field: &str) -> Result<(), AllocError> {
    let mut rest = field.as_bytes();
    while let Some((byte, after)) = spelled_byte(rest) {
        bytes.push(byte)?;
        rest = after;
    }
    Ok(())
}

/// The byte that a field spells first, and what follows it: `\x0A` is one byte, each other character is itself.
fn spelled_byte(field: &[u8]) -> Option<(u8, &[u8])>
    ensures shorter { IfSome result (λ r. length r.1.now < length field.now) }
{
    match field {
        [b'\\', b'x', high, low, after @ ..] => Some((16 * value(*high) + value(*low), after)),
        [byte, after @ ..] => Some((*byte, after)),
        [] => None,
    }
}

/// The value of a hexadecimal digit in capital letters, and 0 of another byte.
fn value(digit: u8) -> u8
    ensures { result < 16 }
{
    match digit {
        b'0'..=b'9' => digit - b'0',
        b'A'..=b'F' => digit - b'A' + 10,
        _ => 0,
    }
}
