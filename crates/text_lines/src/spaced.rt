//! Words of a line, which have blanks between.
ghost use Rattle.std.specs.Prelude.{◌≡◌, ◌≤◌, ℕ, List, true, false, length, take, drop, IfSome, IfNone};
ghost use Rattle.text_lines.specs.Spaced.{AllAre, BeginsOther, IsFirstWord, IsWord, is_blank};

use memchr::memchr2;

/// A word, from 0 on, with what stands in front of it and behind it, or None exactly where the line has no such word.
pub fn word_at(line: &[u8], number: u64) -> Option<(&[u8], &[u8], &[u8])>
    ensures found { IfSome result (λ r. IsWord number line.now r.0.now r.1.now r.2.now) }
    ensures none { IfNone result ((before text after : List ℕ)
        → IsWord number line.now before text after → ⊥) }
{
    let mut at = 0;
    let mut left = number;
    let mut rest = line;
    while let Some((gap, word, after)) = first_word(rest) {
        if left == 0 {
            return Some((&line[..at + gap.len()], word, after));
        }
        at += gap.len() + word.len();
        left -= 1;
        rest = after;
    }
    None
}

/// Blanks, a word and what follows it, or None exactly where there are blanks alone.
fn first_word(line: &[u8]) -> Option<(&[u8], &[u8], &[u8])>
    ensures found { IfSome result (λ r. IsFirstWord line.now r.0.now r.1.now r.2.now) }
    ensures none { IfNone result (AllAre true line.now) }
{
    let start = gap_len(line);
    let rest = &line[start..];
    let count = word_len(rest);
    if count == 0 {
        return None;
    }
    Some((&line[..start], &rest[..count], &rest[count..]))
}

/// How many bytes at the front are blanks.
fn gap_len(text: &[u8]) -> usize
    ensures within { result ≤ length text.now }
    ensures all { AllAre true (take result text.now) }
    ensures next { BeginsOther true (drop result text.now) }
{
    let mut n = 0;
    while n < text.len() && is_blank_byte(text[n]) {
        n += 1;
    }
    n
}

/// How many bytes at the front are no blanks.
fn word_len(text: &[u8]) -> usize
    ensures within { result ≤ length text.now }
    ensures all { AllAre false (take result text.now) }
    ensures next { BeginsOther false (drop result text.now) }
{
    match memchr2(b' ', b'\t', text) {
        Some(n) => n,
        None => text.len(),
    }
}

/// Whether a byte is a space or a TAB.
#[inline(always)]
fn is_blank_byte(byte: u8) -> bool
    ensures { result ≡ is_blank byte }
{
    byte == b' ' || byte == b'\t'
}
