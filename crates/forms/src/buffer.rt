//! Replies that are written into a buffer.
ghost use Rattle.std.specs.Prelude.{◌≡◌, ◌+◌, ◌-◌, ◌≤◌, ◌++◌, length, take, drop, IfSome, IfNone};
ghost use Rattle.forms.specs.Buffers.{AnswersInto, Stops};
ghost use Rattle.forms.specs.inside.Buffers.{PutsNext};

use crate::answer::line_reply;
use crate::line::split_line;

/// Answers whole lines at the front of a text into a buffer, as many as it has room for: how many bytes of the text they have, and how
/// many bytes of the buffer their replies. A last line without its line feed isn't used. It takes no memory.
///
/// A reply has at most 97 bytes with its line feed, so into a buffer of 97 bytes at least one whole line is answered, where there is one.
/// `reply_lines(b"PgIso PgIso P1Y1Y\nPgIso", out)` is `(18, 4)`, with `P2Y` and a line feed at the front of `out`.
pub fn reply_lines(text: &[u8], out: &mut [u8]) -> (usize, usize)
    ensures { AnswersInto text.now out.old out.new result.0 result.1 }
{
    let mut rest = text;
    let mut written = 0;
    while let Some((len, after)) = put_next(rest, out, written) {
        written += len;
        rest = after;
    }
    (text.len() - rest.len(), written)
}

/// Puts the reply to the first whole line with its line feed at a place of the buffer: how many bytes it has, and what follows that line.
/// None where there is no such line or no room for the reply, and the buffer is as it was.
#[inline(always)]
fn put_next<'a>(text: &'a [u8], out: &mut [u8], at: usize) -> Option<(usize, &'a [u8])>
    requires { at ≤ length out.old }
    ensures found { IfSome result (λ r. PutsNext text.now out.old out.new at r.0 r.1.now) }
    ensures none { IfNone result
        (Stops text.now (length out.old - at) × (out.new ≡ out.old)) }
{
    let (line, after) = split_line(text)?;
    let mut reply = line_reply(line);
    reply.push('\n');
    if out.len() - at < reply.len() {
        return None;
    }
    put_at(out, at, reply.as_str().as_bytes());
    Some((reply.len(), after))
}

/// Puts bytes at a place of a buffer.
#[inline(always)]
fn put_at(out: &mut [u8], at: usize, bytes: &[u8])
    requires { at + length bytes.now ≤ length out.old }
    ensures { out.new
        ≡ take at out.old ++ (bytes.now ++ drop (at + length bytes.now) out.old) }
{
    out[at..at + bytes.len()].copy_from_slice(bytes);
}
