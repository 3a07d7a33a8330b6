//! A text up to a byte.
ghost use Rattle.std.specs.Prelude.{◌<◌, ◌+◌, length, take, drop, IfSome, IfNone};
ghost use Rattle.whole_input.specs.Parts.{HasNo, IsSplitAt};

use memchr::memchr;

/// What stands before the first such byte of a text and what follows it, or None exactly where the text has none:
/// `split_at(b'/', b"a/b/c")` is `a` and `b/c`.
pub fn split_at(mark: u8, text: &[u8]) -> Option<(&[u8], &[u8])>
    ensures found { IfSome result (λ r. IsSplitAt mark text.now r.0.now r.1.now) }
    ensures none { IfNone result (HasNo mark text.now) }
{
    let end = place_of(mark, text)?;
    Some((&text[..end], &text[end + 1..]))
}

/// The same of a text in UTF-8, at a byte of ASCII: `split_text(b'\t', "1d")` is None.
pub fn split_text(mark: u8, text: &str) -> Option<(&str, &str)>
    requires { mark < 128 }
    ensures found { IfSome result (λ r. IsSplitAt mark text.now r.0.now r.1.now) }
    ensures none { IfNone result (HasNo mark text.now) }
{
    let end = place_of(mark, text.as_bytes())?;
    Some((&text[..end], &text[end + 1..]))
}

/// The place of the first such byte, or None exactly where there is none.
fn place_of(mark: u8, text: &[u8]) -> Option<usize>
    ensures found { IfSome result (λ n. (n < length text.now)
        × IsSplitAt mark text.now (take n text.now) (drop (n + 1) text.now)) }
    ensures none { IfNone result (HasNo mark text.now) }
{
    memchr(mark, text)
}
