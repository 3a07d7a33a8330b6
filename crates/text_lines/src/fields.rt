//! Fields of a line, which have a TAB between.
ghost use Rattle.std.specs.Prelude.{◌≡◌, ◌≤◌, ◌++◌, ℕ, List, length, take, IfSome, IfNone};
ghost use Rattle.whole_input.specs.Parts.{HasNo};
ghost use Rattle.text_lines.specs.Fields.{AreTabbed, IsField, IsTabEnd};

use whole_input::split_at;

/// A field, from 0 on, with what stands in front of it and behind it, or None exactly where the line has no such field.
#[inline(always)]
pub fn field_at(line: &[u8], number: u64) -> Option<(&[u8], &[u8], &[u8])>
    ensures found { IfSome result (λ r. IsField number line.now r.0.now r.1.now r.2.now) }
    ensures none { IfNone result ((before text after : List ℕ)
        → IsField number line.now before text after → ⊥) }
{
    let at = field_start(line, number)?;
    let (text, after) = field_end(&line[at..]);
    Some((&line[..at], text, after))
}

/// Where a field begins, or None exactly where there are fewer TABs.
fn field_start(line: &[u8], number: u64) -> Option<usize>
    ensures found { IfSome result (λ at.
        (at ≤ length line.now) × AreTabbed number (take at line.now)) }
    ensures none { IfNone result ((before rest : List ℕ)
        → AreTabbed number before → line.now ≡ before ++ rest → ⊥) }
{
    let mut at = 0;
    let mut left = number;
    while left > 0 {
        let (field, _) = split_at(b'\t', &line[at..])?;
        at += field.len() + 1;
        left -= 1;
    }
    Some(at)
}

/// A field and what follows it.
fn field_end(rest: &[u8]) -> (&[u8], &[u8])
    ensures alone { HasNo 9 result.0.now }
    ensures behind { IsTabEnd result.1.now }
    ensures joined { rest.now ≡ result.0.now ++ result.1.now }
{
    match split_at(b'\t', rest) {
        Some((text, _)) => (text, &rest[text.len()..]),
        None => (rest, &[]),
    }
}
