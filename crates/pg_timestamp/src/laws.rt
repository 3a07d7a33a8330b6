//! Laws of timestamps, each for every value: functions that do nothing.
ghost use Rattle.std.specs.Prelude.{◌≡◌, ◌↔◌, ℕ, Bool, List, pos, neg_ℤ, ◌-ℤ◌, ◌≤ℤ◌, ◌≤◌, IsTrue};
ghost use Rattle.std.specs.Str.{IsAscii};
ghost use Rattle.iso8601.specs.Calendar.{day_of, Exists};
ghost use Rattle.iso8601.specs.declared.types.Date.TheVariants.{YMD};
ghost use Rattle.pg_timestamp.specs.Dates.{IsRealDate, calendar_year, date_number, held_year};
ghost use Rattle.pg_timestamp.specs.Timestamps.{IsTimestampText};
ghost use Rattle.pg_timestamp.specs.Values.{first_day, last_day};
ghost use Rattle.pg_timestamp.specs.Written.{IsValueText, IsWritten};
ghost use Rattle.pg_timestamp.specs.declared.date.Date.{Date};
ghost use Rattle.pg_timestamp.specs.declared.time.Time.{Time};
ghost use Rattle.pg_timestamp.specs.declared.timestamp.Timestamp.{Timestamp};
ghost use Rattle.pg_timestamp.specs.declared.value.NoValue.{NoValue};
ghost use Rattle.pg_timestamp.specs.declared.value.Value.{Value};

use crate::{date, time, timestamp, value};

/// A text is one timestamp at most.
pub fn a_text_is_one_timestamp()
    ensures { (text : List ℕ) (a b : Timestamp) → IsTimestampText text a → IsTimestampText text b
        → a ≡ b }
{}

/// The written text of a value is read as a timestamp with this value.
pub fn texts_are_read_back()
    ensures { (value : Value) (text : List ℕ) → IsValueText value text
        → (t : Timestamp) × IsTimestampText text t × IsWritten value t }
{}

/// A value has one text at most.
pub fn a_value_has_one_text()
    ensures { (value : Value) (s t : List ℕ) → IsValueText value s → IsValueText value t → s ≡ t }
{
    iso8601::laws::years_and_weeks_follow_each_other();
}

/// A day is one real date's.
pub fn a_day_has_one_date()
    ensures { (a b : Date) → IsRealDate a → IsRealDate b → date_number a ≡ date_number b
        → a ≡ b }
{
    iso8601::laws::years_and_weeks_follow_each_other();
}

/// A year that isn't held as it is written has the same days as the one that is held.
pub fn held_years_have_the_same_days()
    ensures { (bc : Bool) (year month day : ℕ)
        → Exists (YMD (calendar_year bc (held_year year)) month day)
        ↔ Exists (YMD (calendar_year bc year) month day) }
{}

/// A year that isn't held as it is written is more than two days out of the bounds, and so are its moments in UTC.
pub fn years_from_40_000_on_are_out_of_range()
    ensures { (bc : Bool) (year month day : ℕ) → 40_000 ≤ year
        → Exists (YMD (calendar_year bc year) month day)
        → (first_day -ℤ pos 2) ≤ℤ day_of (YMD (calendar_year bc year) month day)
        → ¬ (day_of (YMD (calendar_year bc year) month day) ≤ℤ last_day) }
{
    iso8601::laws::years_and_weeks_follow_each_other();
}

/// The first day is 24 November 4714 BC, and the last one 31 December 9999.
pub fn bounds_are_days()
    ensures first { day_of (YMD (neg_ℤ (pos 4713)) 11 24) ≡ first_day }
    ensures last { day_of (YMD (pos 9999) 12 31) ≡ last_day }
{}

/// Timestamps are equal where all fields are, and values where they are of one kind with the same numbers.
pub fn equality_is_that_of_the_fields()
    ensures date { (a b : Date) → IsTrue (⟦<date::Date as PartialEq>⟧.eq a b) ↔ (a ≡ b) }
    ensures time { (a b : Time) → IsTrue (⟦<time::Time as PartialEq>⟧.eq a b) ↔ (a ≡ b) }
    ensures timestamp { (a b : Timestamp)
        → IsTrue (⟦<timestamp::Timestamp as PartialEq>⟧.eq a b) ↔ (a ≡ b) }
    ensures value { (a b : Value)
        → IsTrue (⟦<value::Value as PartialEq>⟧.eq a b) ↔ (a ≡ b) }
    ensures no_value { (a b : NoValue)
        → IsTrue (⟦<value::NoValue as PartialEq>⟧.eq a b) ↔ (a ≡ b) }
{}

/// A text that is a timestamp is ASCII: the reader needs no test whether it is UTF-8.
pub fn texts_are_ascii()
    ensures { (text : List ℕ) (t : Timestamp) → IsTimestampText text t → IsAscii text }
{}
