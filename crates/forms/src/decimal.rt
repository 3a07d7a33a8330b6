//! Numbers in decimal.
ghost use Rattle.std.specs.Prelude.{◌≡◌, ◌↔◌, ◌^◌, ◌<◌, ℕ, Some, IsTrue, decimal};

use scan_core::{Short, push_num};

/// The number of 64 bits that a text is in decimal, without sign or leading zero, or None where it is none: of `10` it is 10.
pub fn number_in_decimal(text: &str) -> Option<u64>
    ensures { (number : ℕ) → (result ≡ Some number)
        ↔ ((number < 2 ^ 64) × (text.now ≡ decimal number)) }
{
    let number = text.parse::<u64>().ok()?;
    if is_decimal(number, text) {
        Some(number)
    } else {
        None
    }
}

/// Whether the text is the number in decimal.
fn is_decimal(number: u64, text: &str) -> bool
    ensures { IsTrue result ↔ (text.now ≡ decimal number) }
{
    let mut out = Short::new();
    push_num(&mut out, number);
    out.as_str() == text
}
