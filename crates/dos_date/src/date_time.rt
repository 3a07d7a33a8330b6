//! Date-times over both words.
ghost use Rattle.std.specs.Prelude.{◌≡◌, ◌↔◌, IsSome, IfSome, ◌++◌, Some, codes};
ghost use Rattle.dos_date.specs.DateWord.{IsRealDay};
ghost use Rattle.dos_date.specs.TimeWord.{IsRealTime};
ghost use Rattle.dos_date.specs.DateTime.{IsMomentOf, IsFromCivil};
ghost use Rattle.dos_date.specs.Text.{date_text, time_text};

use crate::{Date, DosRangeError, DosRangeErrorKind, Time};
use jiff::civil;
use std::fmt;
use std::fmt::Display;
use std::marker::Model;

/// A civil date-time from 1980-01-01 00:00:00 to 2107-12-31 23:59:58 on an even second.
///
/// It is in no time zone. Earlier date-times are less than later ones.
#[derive(Clone, Copy, Debug, PartialEq, Eq, PartialOrd, Ord, Hash)]
pub struct DateTime {
    date: Date,
    time: Time,
}

impl Model for DateTime {
    ghost use Rattle.dos_date.specs.Words.{Words};

    ghost Value = { Words };

    ghost view = { λ d. record { date = d.date; time = d.time } };

    ghost inverse = { λ w. record { date = w.date; time = w.time } };
}

impl DateTime {
    /// 1980-01-01 00:00:00, the words 0x0021 and 0x0000.
    pub const MIN: DateTime = DateTime {
        date: Date::MIN,
        time: Time::MIN,
    };

    /// 2107-12-31 23:59:58, the words 0xFF9F and 0xBF7D.
    pub const MAX: DateTime = DateTime {
        date: Date::MAX,
        time: Time::MAX,
    };

    /// The date-time over these words. `None` exactly where one of them is no date or no time.
    ///
    /// `DateTime::from_raw(0x2d7a, 0x9b20)` is 2002-11-26 19:25:00.
    pub fn from_raw(date: u16, time: u16) -> Option<DateTime>
        ensures some { IsSome result ↔ (IsRealDay date × IsRealTime time) }
        ensures value { IfSome result (λ d. (d.date ≡ date) × (d.time ≡ time)) }
    {
        Some(DateTime {
            date: Date::from_raw(date)?,
            time: Time::from_raw(time)?,
        })
    }

    /// The date.
    pub fn date(self) -> Date
        ensures { result ≡ self.date }
    {
        self.date
    }

    /// The time of day.
    pub fn time(self) -> Time
        ensures { result ≡ self.time }
    {
        self.time
    }

    /// The date word.
    pub fn date_raw(self) -> u16
        ensures value { result ≡ self.date }
        ensures real { IsRealDay result }
    {
        self.date.to_raw()
    }

    /// The time word.
    pub fn time_raw(self) -> u16
        ensures value { result ≡ self.time }
        ensures real { IsRealTime result }
    {
        self.time.to_raw()
    }

    /// The DOS date-time of a civil one, with the seconds cut to even and anything less cut off.
    ///
    /// `Negative` exactly before 1980, `Overflow` exactly after 2107. 2018-11-17 10:38:31.5 becomes
    /// 2018-11-17 10:38:30.
    pub fn from_civil(civil: civil::DateTime) -> Result<DateTime, DosRangeError>
        ensures { IsFromCivil civil result }
    {
        if civil.year() < 1980 {
            return Err(DosRangeErrorKind::Negative.into());
        }
        if civil.year() > 2107 {
            return Err(DosRangeErrorKind::Overflow.into());
        }
        Ok(DateTime {
            date: Date::from_civil(civil.date()),
            time: Time::cut_from(civil.time()),
        })
    }

    /// The civil fields.
    pub fn to_civil(self) -> civil::DateTime
        ensures { IsMomentOf self result }
    {
        civil::DateTime::from_parts(self.date.to_civil(), self.time.to_civil())
    }
}

// The constants have the words that the laws speak of.
const _: () = prove!(DateTime::MIN.date.word == 0x0021 && DateTime::MIN.time.word == 0x0000);

const _: () = prove!(DateTime::MAX.date.word == 0xff9f && DateTime::MAX.time.word == 0xbf7d);

/// `YYYY-MM-DD HH:MM:SS`.
impl Display for DateTime {
    ghost output = { λ d. Some (date_text d.date ++ codes " " ++ time_text d.time) };

    fn fmt<W: fmt::Write>(&self, f: &mut fmt::Formatter<W>) -> fmt::Result {
        write!(f, "{} {}", self.date, self.time)
    }
}
