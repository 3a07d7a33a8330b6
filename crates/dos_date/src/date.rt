//! Days over one date word.
ghost use Rattle.std.specs.Prelude.{◌≡◌, ◌↔◌, ◌+◌, ◌*◌, ◌^◌, ◌<◌, pos, IsSome, IfSome, Some};
ghost use Rattle.jiff.specs.Words.{IsBetween};
ghost use Rattle.dos_date.specs.Bits.{bits};
ghost use Rattle.dos_date.specs.DateWord.{IsDateWord, IsRealDay};
ghost use Rattle.dos_date.specs.Text.{date_text};

use jiff::civil;
use std::fmt;
use std::fmt::Display;
use std::marker::Model;

/// A day from 1980-01-01 to 2107-12-31, over one date word.
///
/// The word has the day of the month in bits 0 to 4, the month in bits 5 to 8 and the years since
/// 1980 in bits 9 to 15. The order of dates is that of their words.
#[derive(Clone, Copy, Debug, PartialEq, Eq, PartialOrd, Ord, Hash)]
pub struct Date {
    pub(crate) word: u16,
}

impl Model for Date {
    ghost use Rattle.std.specs.Prelude.{ℕ};
    ghost use Rattle.dos_date.specs.DateWord.{IsRealDay};

    ghost Value = { ℕ };

    ghost view = { λ d. d.word };

    ghost invariant = { λ d. IsRealDay d.word };

    ghost inverse = { λ n. record { word = n } };
}

impl Date {
    /// 1980-01-01.
    pub(crate) const MIN: Date = Date { word: 0x0021 };

    /// 2107-12-31.
    pub(crate) const MAX: Date = Date { word: 0xff9f };

    /// The date over this word. `None` exactly where the word is no real day.
    ///
    /// `Date::from_raw(0x2d7a)` is 2002-11-26, and `Date::from_raw(0)` is `None`.
    pub fn from_raw(word: u16) -> Option<Date>
        ensures some { IsSome result ↔ IsRealDay word }
        ensures value { IfSome result (λ date. date ≡ word) }
    {
        match civil_of(word) {
            Some(_) => Some(Date { word }),
            None => None,
        }
    }

    /// The word.
    pub fn to_raw(self) -> u16
        ensures value { result ≡ self }
        ensures real { IsRealDay result }
    {
        self.word
    }

    /// The civil date that the word holds.
    pub(crate) fn to_civil(self) -> civil::Date
        ensures { IsDateWord self result }
    {
        civil_of(self.word).unwrap()
    }

    /// The date of a civil one in the years 1980 to 2107.
    pub(crate) fn from_civil(date: civil::Date) -> Date
        requires { IsBetween (pos 1980) (pos 2107) date.year }
        ensures { IsDateWord result date }
    {
        let plain = date.to_plain();
        let word = word_of((plain.year - 1980) as u16, plain.month, plain.day);
        Date { word }
    }
}

/// `YYYY-MM-DD`.
impl Display for Date {
    ghost output = { λ d. Some (date_text d) };

    fn fmt<W: fmt::Write>(&self, f: &mut fmt::Formatter<W>) -> fmt::Result {
        let (years, month, day) = fields(self.word);
        write!(f, "{}-{month:02}-{day:02}", 1980 + years)
    }
}

/// The civil date whose fields a word holds, or `None` where the calendar has none.
fn civil_of(word: u16) -> Option<civil::Date>
    ensures some { IsSome result ↔ IsRealDay word }
    ensures value { IfSome result (IsDateWord word) }
{
    let (years, month, day) = fields(word);
    match civil::Date::new(1980 + years as i16, month as i8, day as i8) {
        Ok(date) => Some(date),
        Err(_) => None,
    }
}

/// The years since 1980, the month and the day of a word.
fn fields(word: u16) -> (u16, u8, u8)
    ensures years { result.0 ≡ bits 9 7 word }
    ensures month { result.1 ≡ bits 5 4 word }
    ensures day { result.2 ≡ bits 0 5 word }
{
    (word >> 9, (word >> 5 & 0xf) as u8, (word & 0x1f) as u8)
}

/// The word of these fields.
fn word_of(years: u16, month: u8, day: u8) -> u16
    requires years { years < 2 ^ 7 }
    requires month { month < 2 ^ 4 }
    requires day { day < 2 ^ 5 }
    ensures { result ≡ years * 2 ^ 9 + month * 2 ^ 5 + day }
{
    years << 9 | ((month as u16) << 5 | day as u16)
}
