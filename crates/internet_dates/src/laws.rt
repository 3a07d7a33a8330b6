//! Laws of dates, each for every value: functions that do nothing.
ghost use Rattle.std.specs.Prelude.{◌≡◌, ℕ, List, ℤ, pos, IsSome, Ok, Result};
ghost use Rattle.std.specs.Str.{IsAscii};
ghost use Rattle.internet_dates.specs.DateTimes.{IsNamedDateAt, IsRealMoment};
ghost use Rattle.internet_dates.specs.HttpDate.{IsHttpDate};
ghost use Rattle.internet_dates.specs.MailDate.{IsMailDate};
ghost use Rattle.internet_dates.specs.Readings.{IsRead};
ghost use Rattle.internet_dates.specs.Written.{http_date_text, mail_date_text};
ghost use Rattle.internet_dates.specs.declared.date_time.DateTime.{DateTime};
ghost use Rattle.internet_dates.specs.declared.error.DateError.{DateError};

/// A text has one reading at most.
pub fn a_text_has_one_reading()
    ensures http { (text : List ℕ) (a b : DateTime) → IsHttpDate text a → IsHttpDate text b
        → a ≡ b }
    ensures mail { (text : List ℕ) (a b : DateTime) → IsMailDate text a → IsMailDate text b
        → a ≡ b }
{}

/// A moment has one date and time in UTC with the name of its day.
pub fn a_moment_has_one_date()
    ensures { (first : ℕ) (seconds : ℤ) (a b : DateTime) → IsNamedDateAt first seconds a
        → IsNamedDateAt first seconds b → a ≡ b }
{
    iso8601::laws::civil_dates_are_calendar_dates();
}

/// The written text of a real date in UTC that has the name of its day spells it.
pub fn a_written_text_spells_its_date()
    ensures http { (t : DateTime) → IsRealMoment t → IsSome t.weekday → t.offset ≡ pos 0
        → IsHttpDate (http_date_text t) t }
    ensures mail { (t : DateTime) → IsRealMoment t → IsSome t.weekday → t.offset ≡ pos 0
        → IsMailDate (mail_date_text t) t }
{}

/// What is read of the written text of a moment is this moment.
pub fn a_written_moment_is_read_back()
    ensures http { (seconds : ℤ) (t : DateTime) (answer : Result ℤ DateError)
        → IsNamedDateAt 0 seconds t
        → IsRead IsHttpDate 0 (http_date_text t) answer → answer ≡ Ok seconds }
    ensures mail { (seconds : ℤ) (t : DateTime) (answer : Result ℤ DateError)
        → IsNamedDateAt 1900 seconds t
        → IsRead IsMailDate 1900 (mail_date_text t) answer → answer ≡ Ok seconds }
{}

/// A text that is a date of HTTP or of mail is ASCII: the readers need no test whether it is UTF-8.
pub fn texts_are_ascii()
    ensures http { (text : List ℕ) (t : DateTime) → IsHttpDate text t → IsAscii text }
    ensures mail { (text : List ℕ) (t : DateTime) → IsMailDate text t → IsAscii text }
{}
