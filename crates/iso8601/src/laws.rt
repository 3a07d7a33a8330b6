//! Laws of dates, times, date-times and durations, each for every value: functions that do nothing.
ghost use Rattle.std.specs.Prelude.{◌≡◌, ℕ, List, [], ℤ, pos, neg_ℤ, ◌+ℤ◌, ◌≤ℤ◌, ◌↔◌, IsTrue};
ghost use Rattle.std.specs.Str.{IsAscii};
ghost use Rattle.jiff_core.specs.Date.{epoch_day};
ghost use Rattle.jiff_core.specs.DateTime.{civil_nanos};
ghost use Rattle.jiff_core.specs.declared.civil.date.Date.{Date as CivilDate};
ghost use Rattle.iso8601.specs.Calendar.{IsCivilDay, after_monday, day_of, Exists, new_year, week_one};
ghost use Rattle.iso8601.specs.Calendar.{days_in_year};
ghost use Rattle.iso8601.specs.Dates.{IsDate};
ghost use Rattle.iso8601.specs.DateTimes.{IsDateTime};
ghost use Rattle.iso8601.specs.Defaults.{zero_date, zero_duration};
ghost use Rattle.iso8601.specs.Durations.{IsDuration};
ghost use Rattle.iso8601.specs.Prefixes.{Begins, NoneLonger};
ghost use Rattle.iso8601.specs.Ranges.{IsDateInRange, IsDateTimeInRange, IsDurationInRange, IsTimeInRange};
ghost use Rattle.iso8601.specs.Times.{IsTime};
ghost use Rattle.iso8601.specs.Written.{date_text, date_time_text, time_text};
ghost use Rattle.iso8601.specs.WrittenDurations.{duration_text};
ghost use Rattle.iso8601.specs.declared.types.Date.{Date};
ghost use Rattle.iso8601.specs.declared.types.Date.TheVariants.{YMD};
ghost use Rattle.iso8601.specs.declared.types.DateTime.{DateTime};
ghost use Rattle.iso8601.specs.declared.types.Duration.{Duration};
ghost use Rattle.iso8601.specs.declared.types.FixedMoment.{FixedMoment};
ghost use Rattle.iso8601.specs.declared.types.ParseFailed.{ParseFailed};
ghost use Rattle.iso8601.specs.declared.types.Time.{Time};

use crate::types;

/// A text has one value at most.
pub fn a_text_has_one_value()
    ensures date { (text : List ℕ) (a b : Date) → IsDate text a → IsDate text b → a ≡ b }
    ensures time { (text : List ℕ) (a b : Time) → IsTime text a → IsTime text b → a ≡ b }
    ensures date_time { (text : List ℕ) (a b : DateTime) → IsDateTime text a → IsDateTime text b
        → a ≡ b }
    ensures duration { (text : List ℕ) (a b : Duration) → IsDuration text a → IsDuration text b
        → a ≡ b }
{}

/// The written text of a value in range is in the grammar, with this value.
pub fn a_written_text_spells_its_value()
    ensures date { (date : Date) → IsDateInRange date → IsDate (date_text date) date }
    ensures time { (time : Time) → IsTimeInRange time → IsTime (time_text time) time }
    ensures date_time { (t : DateTime) → IsDateTimeInRange t → IsDateTime (date_time_text t) t }
    ensures duration { (d : Duration) → IsDurationInRange d → IsDuration (duration_text d) d }
{}

/// What the parsers answer of the written text of a value in range is this value, and nothing is left.
pub fn a_written_text_is_read_back()
    ensures date { (date value : Date) (rest : List ℕ) → IsDateInRange date
        → Begins IsDate (date_text date) value rest → NoneLonger IsDate (date_text date) rest
        → (value ≡ date) × (rest ≡ []) }
    ensures time { (time value : Time) (rest : List ℕ) → IsTimeInRange time
        → Begins IsTime (time_text time) value rest → NoneLonger IsTime (time_text time) rest
        → (value ≡ time) × (rest ≡ []) }
    ensures date_time { (t value : DateTime) (rest : List ℕ) → IsDateTimeInRange t
        → Begins IsDateTime (date_time_text t) value rest
        → NoneLonger IsDateTime (date_time_text t) rest
        → (value ≡ t) × (rest ≡ []) }
    ensures duration { (d value : Duration) (rest : List ℕ) → IsDurationInRange d
        → Begins IsDuration (duration_text d) value rest
        → NoneLonger IsDuration (duration_text d) rest
        → (value ≡ d) × (rest ≡ []) }
{}

/// Day 0 is 1 January 1970, each year begins behind the days of the one before, and week 1 begins on the Monday that is
/// nearest to 1 January. The civil days are those from -4371587 to 2932896.
pub fn years_and_weeks_follow_each_other()
    ensures epoch { new_year (pos 1970) ≡ pos 0 }
    ensures next { (year : ℤ)
        → new_year (year +ℤ pos 1) ≡ new_year year +ℤ pos (days_in_year year) }
    ensures monday { (year : ℤ) → after_monday (week_one year) ≡ pos 0 }
    ensures near { (year : ℤ) → (new_year year ≤ℤ (week_one year +ℤ pos 3))
        × (week_one year ≤ℤ (new_year year +ℤ pos 3)) }
    ensures civil { (day : ℤ) → IsCivilDay day
        ↔ ((neg_ℤ (pos 4_371_587) ≤ℤ day) × (day ≤ℤ pos 2_932_896)) }
{}

/// Each civil date of `jiff` exists as a calendar date, and its day has the number that `jiff` gives it.
pub fn civil_dates_are_calendar_dates()
    ensures exists { (d : CivilDate) → Exists (YMD d.year d.month d.day) }
    ensures day { (d : CivilDate) → day_of (YMD d.year d.month d.day) ≡ epoch_day d }
{}

/// Values are equal where all fields are: `24:00` isn't `00:00`, and a week date isn't the calendar date of its day. The civil
/// date-times of `jiff` are equal where their counts of nanoseconds are.
pub fn equality_is_that_of_the_fields()
    ensures date { (a b : Date) → IsTrue (⟦<types::Date as PartialEq>⟧.eq a b) ↔ (a ≡ b) }
    ensures time { (a b : Time) → IsTrue (⟦<types::Time as PartialEq>⟧.eq a b) ↔ (a ≡ b) }
    ensures date_time { (a b : DateTime)
        → IsTrue (⟦<types::DateTime as PartialEq>⟧.eq a b) ↔ (a ≡ b) }
    ensures duration { (a b : Duration)
        → IsTrue (⟦<types::Duration as PartialEq>⟧.eq a b) ↔ (a ≡ b) }
    ensures moment { (a b : FixedMoment)
        → IsTrue (⟦<types::FixedMoment as PartialEq>⟧.eq a b)
        ↔ ((civil_nanos a.local ≡ civil_nanos b.local)
        × (a.offset_seconds ≡ b.offset_seconds)) }
    ensures failed { (a b : ParseFailed)
        → IsTrue (⟦<types::ParseFailed as PartialEq>⟧.eq a b) ↔ (a ≡ b) }
{}

/// The defaults are zero in each field: year, month and day 0, which is no day, midnight in UTC, and the duration of no time.
pub fn defaults_are_zero()
    ensures date { (date : Date) → ⟦<types::Date as Default>⟧.is_default date
        ↔ (date ≡ zero_date) }
    ensures hour { (time : Time) → ⟦<types::Time as Default>⟧.is_default time
        → (time.hour ≡ 0) × (time.minute ≡ 0) × (time.second ≡ 0) × (time.millisecond ≡ 0) }
    ensures shift { (time : Time) → ⟦<types::Time as Default>⟧.is_default time
        → (time.tz_offset_hours ≡ pos 0) × (time.tz_offset_minutes ≡ pos 0) }
    ensures day { (t : DateTime) → ⟦<types::DateTime as Default>⟧.is_default t
        → t.date ≡ zero_date }
    ensures time { (t : DateTime) → ⟦<types::DateTime as Default>⟧.is_default t
        → ⟦<types::Time as Default>⟧.is_default t.time }
    ensures duration { (d : Duration) → ⟦<types::Duration as Default>⟧.is_default d
        ↔ (d ≡ zero_duration) }
{}

/// A text that is a date, a date-time or a duration is ASCII: the readers need no test whether it is UTF-8.
pub fn texts_are_ascii()
    ensures date { (text : List ℕ) (date : Date) → IsDate text date → IsAscii text }
    ensures date_time { (text : List ℕ) (t : DateTime) → IsDateTime text t → IsAscii text }
    ensures duration { (text : List ℕ) (d : Duration) → IsDuration text d → IsAscii text }
{}
