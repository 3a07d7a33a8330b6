//! Times of day over one time word.
ghost use Rattle.std.specs.Prelude.{◌≡◌, ◌↔◌, ◌+◌, ◌*◌, ◌^◌, ◌<◌, IsSome, IfSome, Some};
ghost use Rattle.dos_date.specs.Bits.{bits};
ghost use Rattle.dos_date.specs.TimeWord.{IsTimeWord, IsCutTimeWord, IsRealTime};
ghost use Rattle.dos_date.specs.Text.{time_text};

use jiff::civil;
use std::fmt;
use std::fmt::Display;
use std::marker::Model;

/// A time of day on an even second, over one time word.
///
/// The word has the second divided by 2 in bits 0 to 4, the minute in bits 5 to 10 and the hour in
/// bits 11 to 15. The order of times is that of their words.
#[derive(Clone, Copy, Debug, PartialEq, Eq, PartialOrd, Ord, Hash)]
pub struct Time {
    pub(crate) word: u16,
}

impl Model for Time {
    ghost use Rattle.std.specs.Prelude.{ℕ};
    ghost use Rattle.dos_date.specs.TimeWord.{IsRealTime};

    ghost Value = { ℕ };

    ghost view = { λ t. t.word };

    ghost invariant = { λ t. IsRealTime t.word };

    ghost inverse = { λ n. record { word = n } };
}

impl Time {
    /// 00:00:00.
    pub(crate) const MIN: Time = Time { word: 0x0000 };

    /// 23:59:58.
    pub(crate) const MAX: Time = Time { word: 0xbf7d };

    /// The time over this word. `None` exactly where the hour is above 23, the minute above 59 or
    /// the halved second above 29.
    ///
    /// `Time::from_raw(0x9b20)` is 19:25:00, and `Time::from_raw(30)` is `None`.
    pub fn from_raw(word: u16) -> Option<Time>
        ensures some { IsSome result ↔ IsRealTime word }
        ensures value { IfSome result (λ time. time ≡ word) }
    {
        match civil_of(word) {
            Some(_) => Some(Time { word }),
            None => None,
        }
    }

    /// The word.
    pub fn to_raw(self) -> u16
        ensures value { result ≡ self }
        ensures real { IsRealTime result }
    {
        self.word
    }

    /// The civil time that the word holds.
    pub(crate) fn to_civil(self) -> civil::Time
        ensures { IsTimeWord self result }
    {
        civil_of(self.word).unwrap()
    }

    /// The last time that is not after a civil one.
    pub(crate) fn cut_from(time: civil::Time) -> Time
        ensures { IsCutTimeWord result time }
    {
        let plain = time.to_plain();
        let word = word_of(plain.hour, plain.minute, plain.second / 2);
        Time { word }
    }
}

/// `HH:MM:SS`.
impl Display for Time {
    ghost output = { λ t. Some (time_text t) };

    fn fmt<W: fmt::Write>(&self, f: &mut fmt::Formatter<W>) -> fmt::Result {
        let (hour, minute, halved) = fields(self.word);
        write!(f, "{hour:02}:{minute:02}:{:02}", 2 * halved)
    }
}

/// The civil time whose fields a word holds, or `None` where no clock shows it.
fn civil_of(word: u16) -> Option<civil::Time>
    ensures some { IsSome result ↔ IsRealTime word }
    ensures value { IfSome result (IsTimeWord word) }
{
    let (hour, minute, halved) = fields(word);
    match civil::Time::new(hour as i8, minute as i8, 2 * halved as i8, 0) {
        Ok(time) => Some(time),
        Err(_) => None,
    }
}

/// The hour, the minute and the halved second of a word.
fn fields(word: u16) -> (u8, u8, u8)
    ensures hour { result.0 ≡ bits 11 5 word }
    ensures minute { result.1 ≡ bits 5 6 word }
    ensures halved { result.2 ≡ bits 0 5 word }
{
    (
        (word >> 11) as u8,
        (word >> 5 & 0x3f) as u8,
        (word & 0x1f) as u8,
    )
}

/// The word of these fields.
fn word_of(hour: u8, minute: u8, halved: u8) -> u16
    requires hour { hour < 2 ^ 5 }
    requires minute { minute < 2 ^ 6 }
    requires halved { halved < 2 ^ 5 }
    ensures { result ≡ hour * 2 ^ 11 + minute * 2 ^ 5 + halved }
{
    (hour as u16) << 11 | ((minute as u16) << 5 | halved as u16)
}
