//! The parts of a line, and the reply to its text.
ghost use Rattle.std.specs.Prelude.{◌≡◌, ◌+◌, ◌≤◌, ◌++◌, List, ℕ, Bool, codes, IfSome, IfNone};
ghost use Rattle.arrayvec.specs.ArrayString.{array_string_len};
ghost use Rattle.forms.specs.TextReplies.{IsTextReply};
ghost use Rattle.text_lines.specs.Outputs.{IsBeforeEnd, IsBehindMark, mark};

use arrayvec::ArrayString;
use forms::{Form, push_text_reply};

/// How many bytes a line may have.
pub const LINE: usize = 1_048_576;

/// The byte order mark that may stand in front of the first line, and the rest of the line.
#[inline(always)]
pub fn split_mark(first: bool, line: &[u8]) -> (&[u8], &[u8])
    ensures { IsBehindMark first line.now result.0.now result.1.now }
{
    if !first {
        return (&[], line);
    }
    match without_mark(line) {
        Some(rest) => (b"\xEF\xBB\xBF", rest),
        None => (&[], line),
    }
}

/// What follows the byte order mark, or None exactly where the line doesn't begin with one.
pub fn without_mark(line: &[u8]) -> Option<&[u8]>
    ensures found { IfSome result (λ rest. line.now ≡ mark ++ rest.now) }
    ensures none { IfNone result ((other : List ℕ) → line.now ≡ mark ++ other → ⊥) }
{
    match line {
        [239, 187, 191, rest @ ..] => Some(rest),
        _ => None,
    }
}

/// A line without the CR that may stand in front of its line feed, and the end of both.
#[inline(always)]
pub fn split_end(line: &[u8]) -> (&[u8], &'static str)
    ensures { IsBeforeEnd line.now result.0.now result.1.now }
{
    match before_cr(line) {
        Some(body) => (body, "\r\n"),
        None => (line, "\n"),
    }
}

/// What stands before a CR at the end, or None exactly where the line doesn't end with one.
#[inline(always)]
pub fn before_cr(line: &[u8]) -> Option<&[u8]>
    ensures found { IfSome result (λ text. line.now ≡ text.now ++ codes "\r") }
    ensures none { IfNone result ((other : List ℕ) → line.now ≡ other ++ codes "\r" → ⊥) }
{
    match line {
        [text @ .., b'\r'] => Some(text),
        _ => None,
    }
}

/// Appends the reply to a text, and answers whether it is a refusal. It is a call of its own for all kinds of places: more copies of
/// the readers would make requests dearer.
#[inline(never)]
pub fn push_reply<const CAP: usize>(
    from: Form,
    to: Form,
    text: &[u8],
    out: &mut ArrayString<CAP>,
) -> bool
    requires room { array_string_len out.old + 96 ≤ CAP }
    ensures reply { (reply : List ℕ) × IsTextReply from to text.now reply result
        × (out.new.bytes ≡ out.old.bytes ++ reply) }
    ensures len { array_string_len out.new ≤ array_string_len out.old + 96 }
{
    push_text_reply(from, to, text, out)
}
