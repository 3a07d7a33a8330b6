//! Blanks.
ghost use Rattle.std.specs.Prelude.{◌≡◌};
ghost use Rattle.scan_core.specs.Blanks.{is_blank};

/// True for the six blanks of ASCII, 0x09 to 0x0D and 0x20: `is_blank(b' ')` is true, `is_blank(b'x')` isn't.
pub fn is_blank(byte: u8) -> bool
    ensures { result ≡ is_blank byte }
{
    // nearly all bytes are above the blanks
    if byte > b' ' {
        return false;
    }
    byte == b' ' || (9..=13).contains(&byte)
}
