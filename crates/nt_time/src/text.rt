//! File times as texts: the raw count in decimal.
ghost use Rattle.std.specs.Prelude.{◌≡◌, Some, IfSome, IfNone, decimal};
ghost use Rattle.std.specs.Str.Parse.{IsNumeral, without_leading_plus};
ghost use Rattle.nt_time.specs.Text.{IsReadFrom};

use crate::FileTime;
use crate::error::{ParseFileTimeCause, ParseFileTimeError};
use scan_core::{digits_u64, split_digits};
use std::fmt;
use std::fmt::Display;
use std::str::FromStr;

/// The raw count in decimal.
impl Display for FileTime {
    ghost output = { λ t. Some (decimal t) };

    fn fmt<W: fmt::Write>(&self, f: &mut fmt::Formatter<W>) -> fmt::Result {
        write!(f, "{}", self.to_raw())
    }
}

impl FileTime {
    /// Reads a raw count by the bytes of its text, as [`FromStr`] does: `FileTime::from_ascii(b"+5")` is raw count 5. A text with a byte
    /// beyond ASCII has a bad digit.
    pub fn from_ascii(src: &[u8]) -> Result<FileTime, ParseFileTimeError>
        ensures { IsReadFrom src.now result }
    {
        if src.is_empty() {
            return Err(ParseFileTimeError::new(ParseFileTimeCause::Empty));
        }
        // A bad digit behind too many digits is a bad digit: the size comes last.
        let Some(digits) = numeral(src) else {
            return Err(ParseFileTimeError::new(ParseFileTimeCause::InvalidDigit));
        };
        match digits_u64(digits) {
            Some(raw) => Ok(FileTime::new(raw)),
            None => Err(ParseFileTimeError::new(ParseFileTimeCause::Overflow)),
        }
    }
}

/// Reads a raw count: decimal digits, as many as there are, with a `+` before them or without.
///
/// `Empty` exactly for the empty text, `InvalidDigit` exactly for another text that is not so, and
/// `Overflow` exactly for a number above `u64::MAX`. `+5` is raw count 5.
impl FromStr for FileTime {
    type Err = ParseFileTimeError;

    ghost from_str_gives = { IsReadFrom };

    fn from_str(src: &str) -> Result<FileTime, ParseFileTimeError> {
        FileTime::from_ascii(src.as_bytes())
    }
}

/// The digits of a text that is one digit or more, with a plus before them or without.
fn numeral(text: &[u8]) -> Option<&[u8]>
    ensures found { IfSome result (λ digits. IsNumeral 10 digits.now
        × (digits.now ≡ without_leading_plus text.now)) }
    ensures none { IfNone result (¬ IsNumeral 10 (without_leading_plus text.now)) }
{
    let (digits, rest) = split_digits(without_plus(text));
    if digits.is_empty() {
        return None;
    }
    if !rest.is_empty() {
        return None;
    }
    Some(digits)
}

/// A text without the plus at its front.
fn without_plus(text: &[u8]) -> &[u8]
    ensures { result.now ≡ without_leading_plus text.now }
{
    text.strip_prefix(b"+").unwrap_or(text)
}
