//! A row of a table: a line, its reply and what it pins, with TABs between.
ghost use Rattle.std.specs.Prelude.{◌<◌, length, IfSome};

use std::alloc::{AllocError, Global};

/// A line and the reply to it, each with its line feed.
#[derive(Drop)]
pub struct Row {
    pub line: Vec<u8>,
    pub reply: Vec<u8>,
}

/// The row that a line of a table spells, or None where it has no two TABs.
pub fn row_of(alloc: Global, text: &str) -> Result<Option<Row>, AllocError> {
    let mut fields = text.split('\t');
    let (Some(line), Some(reply), Some(_)) = (fields.next(), fields.next(), fields.next()) else {
        return Ok(None);
    };
    Ok(Some(Row {
        line: spelled_line(alloc, line)?,
        reply: spelled_line(alloc, reply)?,
    }))
}

/// The bytes that a field spells, and a line feed.
fn spelled_line(alloc: Global, field: &str) -> Result<Vec<u8>, AllocError> {
    let mut bytes = Vec::new(alloc);
    push_spelled(&mut bytes, field)?;
    bytes.push(b'\n')?;
    Ok(bytes)
}

/// The bytes that a field of a whole input or output spells, in which `{x*1000}` is a piece a thousand times, or None where a repeated
/// piece is not spelled so.
pub fn spelled(alloc: Global, field: &str) -> Result<Option<Vec<u8>>, AllocError> {
    let mut bytes = Vec::new(alloc);
    let mut parts = field.split('{');
    push_spelled(&mut bytes, parts.next().unwrap_or(""))?;
    for part in parts {
        let Some((piece, count, after)) = repeated(part) else {
            return Ok(None);
        };
        let mut once = Vec::new(alloc);
        push_spelled(&mut once, piece)?;
        for _ in 0..count {
            bytes.extend_from_slice(&once)?;
        }
        push_spelled(&mut bytes, after)?;
    }
    Ok(Some(bytes))
}

/// The piece, how often it stands, and what follows: of `x*1000}y` they are `x`, 1000 and `y`.
fn repeated(part: &str) -> Option<(&str, u32, &str)> {
    let (inside, after) = part.split_once('}')?;
    let (piece, count) = inside.split_once('*')?;
    Some((piece, count.parse::<u32>().ok()?, after))
}

/// Appends the bytes that a field spells.
fn push_spelled(bytes: &mut Vec<u8>, field: &str) -> Result<(), AllocError> {
    let mut rest = field.as_bytes();
    while let Some((byte, after)) = spelled_byte(rest) {
        bytes.push(byte)?;
        rest = after;
    }
    Ok(())
}

/// The byte that a field spells first, and what follows it: `\x0A` is one byte, and so are `\n` and `\t`, a line feed and a TAB. Each
/// other character is itself.
fn spelled_byte(field: &[u8]) -> Option<(u8, &[u8])>
    ensures shorter { IfSome result (λ r. length r.1.now < length field.now) }
{
    match field {
        [b'\\', b'x', high, low, after @ ..] => Some((16 * value(*high) + value(*low), after)),
        [b'\\', b'n', after @ ..] => Some((b'\n', after)),
        [b'\\', b't', after @ ..] => Some((b'\t', after)),
        [byte, after @ ..] => Some((*byte, after)),
        [] => None,
    }
}

/// The value of a hexadecimal digit in capital letters, and 0 of another byte.
fn value(digit: u8) -> u8
    ensures { result < 16 }
{
    match digit {
        b'0'..=b'9' => digit - b'0',
        b'A'..=b'F' => digit - b'A' + 10,
        _ => 0,
    }
}
