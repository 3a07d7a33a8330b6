//! What a line asks for.
ghost use Rattle.std.specs.Prelude.{◌≡◌, ◌≢◌, ◌↔◌, ◌<◌, ◌++◌, codes, length, List, ℕ, IsTrue, IfSome, IfNone};
ghost use Rattle.std.specs.Char.{is_ascii_digit};
ghost use Rattle.std.specs.List.{list_all};
ghost use Rattle.scan_core.specs.Digits.{AreDigits};
ghost use Rattle.recurrence.specs.Requests.{HasParts, IsRequest};

use std::str;
use whole_input::split_text;

/// The digits, the start and the step that a line asks for, or None exactly where it asks for no series.
pub fn request(line: &[u8]) -> Option<(&str, &str, &str)>
    ensures found { IfSome result (λ r. IsRequest line.now r.0.now r.1.now r.2.now) }
    ensures none { IfNone result
        ((digits start step : List ℕ) → IsRequest line.now digits start step → ⊥) }
{
    match str::from_utf8(line) {
        Ok(text) => parts(text),
        Err(_) => None,
    }
}

/// The digits, the start and the step of a text, or None exactly where it hasn't these parts.
fn parts(text: &str) -> Option<(&str, &str, &str)>
    ensures found { IfSome result (λ r. HasParts text.now r.0.now r.1.now r.2.now) }
    ensures none { IfNone result
        ((digits start step : List ℕ) → HasParts text.now digits start step → ⊥) }
{
    let rest = behind_r(text)?;
    let (digits, tail) = split_text(b'/', rest)?;
    let (start, step) = split_text(b'/', tail)?;
    if are_digits(digits.as_bytes()) {
        Some((digits, start, step))
    } else {
        None
    }
}

/// What follows an `R`.
fn behind_r(text: &str) -> Option<&str>
    ensures found { IfSome result (λ rest. text.now ≡ codes "R" ++ rest.now) }
    ensures none { IfNone result ((rest : List ℕ) → text.now ≢ codes "R" ++ rest) }
{
    text.strip_prefix('R')
}

/// Whether the bytes are digits, one or more.
fn are_digits(bytes: &[u8]) -> bool
    ensures { IsTrue result ↔ ((0 < length bytes.now) × AreDigits bytes.now) }
{
    !bytes.is_empty() && all_digits(bytes)
}

/// Whether all bytes are digits.
fn all_digits(bytes: &[u8]) -> bool
    ensures { result ≡ list_all is_ascii_digit bytes.now }
{
    bytes.iter().all(|b| b.is_ascii_digit())
}
