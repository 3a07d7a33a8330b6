//! A mark and two digits.
ghost use Rattle.std.specs.Prelude.{◌≡◌, ℕ, [], ◌∷◌, take, drop, IfSome, IfNone};
ghost use Rattle.pg_timestamp.specs.Pieces.{IsMarkedPair};

/// The number from `lo` to `hi` of two digits behind the mark in front, and what follows them.
pub(crate) fn pair(text: &[u8], mark: u8, lo: u8, hi: u8) -> Option<(u8, &[u8])>
    ensures found { IfSome result (λ r. IsMarkedPair mark lo hi (take 3 text.now) r.0) }
    ensures rest { IfSome result (λ r. r.1.now ≡ drop 3 text.now) }
    ensures none { IfNone result ((n : ℕ) → ¬ (IsMarkedPair mark lo hi (take 3 text.now) n)) }
{
    match text {
        [m, a, b, rest @ ..] => match two(*m, *a, *b, mark, lo, hi) {
            Some(number) => Some((number, rest)),
            None => None,
        },
        _ => None,
    }
}

/// The number from `lo` to `hi` of two digits, where the first byte is the mark.
fn two(m: u8, a: u8, b: u8, mark: u8, lo: u8, hi: u8) -> Option<u8>
    ensures found { IfSome result (λ n. IsMarkedPair mark lo hi (m ∷ a ∷ b ∷ []) n) }
    ensures none { IfNone result ((n : ℕ) → ¬ (IsMarkedPair mark lo hi (m ∷ a ∷ b ∷ []) n)) }
{
    if m != mark {
        return None;
    }
    if !a.is_ascii_digit() {
        return None;
    }
    if !b.is_ascii_digit() {
        return None;
    }
    let number = 10 * (a - b'0') + (b - b'0');
    if number < lo {
        return None;
    }
    if number > hi {
        return None;
    }
    Some(number)
}
