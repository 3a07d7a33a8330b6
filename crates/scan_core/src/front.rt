//! The digits at the front of bytes.
ghost use Rattle.std.specs.Prelude.{◌≡◌};
ghost use Rattle.scan_core.specs.Fronts.{front_digits, after_digits};

/// The digits at the front, and what follows them: `split_digits(b"12a")` is `12` and `a`.
pub fn split_digits(bytes: &[u8]) -> (&[u8], &[u8])
    ensures front { result.0.now ≡ front_digits bytes.now }
    ensures rest { result.1.now ≡ after_digits bytes.now }
{
    let mut len = 0;
    while len < bytes.len() && bytes[len].is_ascii_digit() {
        len += 1;
    }
    bytes.split_at(len)
}
