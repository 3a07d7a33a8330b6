//! Laws of the words, each for every value: functions that do nothing.
ghost use Rattle.std.specs.Prelude.{◌≡◌, ℕ, ◌^◌, ◌<◌, ◌≤◌, ◌↔◌, Result, Ok, IsTrue, unsigned_abs};
ghost use Rattle.jiff.specs.Types.{Date as CivilDate, Time as CivilTime, DateTime as CivilDateTime};
ghost use Rattle.std.specs.Ordering.{nat_cmp, ordering_then};
ghost use Rattle.dos_date.specs.declared.error.DosRangeErrorKind.{DosRangeErrorKind};
ghost use Rattle.dos_date.specs.DateWord.{IsDateWord, IsRealDay};
ghost use Rattle.dos_date.specs.TimeWord.{IsTimeWord, IsRealTime};
ghost use Rattle.dos_date.specs.DateTime.{IsMomentOf, IsFromCivil, IsAt};
ghost use Rattle.dos_date.specs.Order.{IsEarlierDay, IsEarlierTime};
ghost use Rattle.dos_date.specs.Text.{date_text, time_text, day_text, clock_text};
ghost use Rattle.dos_date.specs.Words.{Words};

use crate::{Date, DateTime, DosRangeError, DosRangeErrorKind as Kind, Time};

/// A word is a date word exactly where some civil date has it. It names one day, and a day has one
/// date word.
pub fn date_words_and_days_are_one_to_one()
    ensures real { (word : ℕ) → word < 2 ^ 16
        → IsRealDay word ↔ ((date : CivilDate) × IsDateWord word date) }
    ensures day { (word : ℕ) (a b : CivilDate) → IsDateWord word a → IsDateWord word b
        → (a.year ≡ b.year) × (a.month ≡ b.month) × (a.day ≡ b.day) }
    ensures word { (v w : ℕ) (date : CivilDate) → IsDateWord v date → IsDateWord w date → v ≡ w }
{}

/// A word is a time word exactly where some civil time on an even second has it. It names one time
/// of day, and a time on an even second has one time word.
pub fn time_words_and_times_are_one_to_one()
    ensures real { (word : ℕ) → word < 2 ^ 16
        → IsRealTime word ↔ ((time : CivilTime) × IsTimeWord word time) }
    ensures time { (word : ℕ) (a b : CivilTime) → IsTimeWord word a → IsTimeWord word b
        → (a.hour ≡ b.hour) × (a.minute ≡ b.minute) × (a.second ≡ b.second)
        × (a.subsec_nanosecond ≡ b.subsec_nanosecond) }
    ensures word { (v w : ℕ) (time : CivilTime) → IsTimeWord v time → IsTimeWord w time → v ≡ w }
{}

/// What `from_civil` answers for the civil moment of a DOS date-time is that date-time.
pub fn civil_moments_are_read_back()
    ensures { (words : Words) (civil : CivilDateTime) (result : Result Words DosRangeErrorKind)
        → IsMomentOf words civil → IsFromCivil civil result → result ≡ Ok words }
{}

/// The text of a DOS date-time is that of its civil moment.
pub fn texts_are_those_of_civil_moments()
    ensures date { (word : ℕ) (date : CivilDate) → IsDateWord word date
        → date_text word ≡ day_text (unsigned_abs date.year) date.month date.day }
    ensures time { (word : ℕ) (time : CivilTime) → IsTimeWord word time
        → time_text word ≡ clock_text time.hour time.minute time.second }
{}

/// Dates are equal and ordered as their words are.
pub fn dates_are_ordered_by_word()
    ensures equal { (a b : ℕ) → IsTrue (⟦<Date as PartialEq>⟧.eq a b) ↔ (a ≡ b) }
    ensures order { (a b : ℕ) → ⟦<Date as Ord>⟧.cmp a b ≡ nat_cmp a b }
{}

/// Times of day are equal and ordered as their words are.
pub fn times_are_ordered_by_word()
    ensures equal { (a b : ℕ) → IsTrue (⟦<Time as PartialEq>⟧.eq a b) ↔ (a ≡ b) }
    ensures order { (a b : ℕ) → ⟦<Time as Ord>⟧.cmp a b ≡ nat_cmp a b }
{}

/// Date-times are equal where both words are, and ordered by their date, and on one day by their time.
pub fn date_times_are_ordered_by_date_and_time()
    ensures equal { (a b : Words) → IsTrue (⟦<DateTime as PartialEq>⟧.eq a b) ↔ (a ≡ b) }
    ensures order { (a b : Words) → ⟦<DateTime as Ord>⟧.cmp a b
        ≡ ordering_then (nat_cmp a.date b.date) (nat_cmp a.time b.time) }
{}

/// A later day has the greater date word, and a later time on an even second the greater time word.
pub fn words_rise_with_days_and_times()
    ensures days { (v w : ℕ) (a b : CivilDate) → IsDateWord v a → IsDateWord w b
        → (v < w) ↔ IsEarlierDay a b }
    ensures times { (v w : ℕ) (a b : CivilTime) → IsTimeWord v a → IsTimeWord w b
        → (v < w) ↔ IsEarlierTime a b }
{}

/// The words of [`DateTime::MIN`] name 1980-01-01 00:00:00, those of [`DateTime::MAX`] 2107-12-31
/// 23:59:58, and every DOS date-time lies between them.
pub fn first_and_last_moment()
    ensures first { (civil : CivilDateTime)
        → IsMomentOf (record { date = 0x0021; time = 0x0000 }) civil → IsAt 1980 1 1 0 0 0 civil }
    ensures last { (civil : CivilDateTime)
        → IsMomentOf (record { date = 0xFF9F; time = 0xBF7D }) civil
        → IsAt 2107 12 31 23 59 58 civil }
    ensures within { (words : Words) (civil : CivilDateTime) → IsMomentOf words civil
        → (0x0021 ≤ words.date) × (words.date ≤ 0xFF9F) × (words.time ≤ 0xBF7D) }
{}

/// Refusals are equal where they are of one kind.
pub fn equal_refusals_are_of_one_kind()
    ensures kinds { (a b : DosRangeErrorKind) → IsTrue (⟦<Kind as PartialEq>⟧.eq a b) ↔ (a ≡ b) }
    ensures errors { (a b : DosRangeErrorKind)
        → IsTrue (⟦<DosRangeError as PartialEq>⟧.eq a b) ↔ (a ≡ b) }
{}
