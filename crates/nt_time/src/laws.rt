//! Laws of file times, each for every value: functions that do nothing.
ghost use Rattle.std.specs.Prelude.{◌≡◌, ℕ, ◌+◌, ◌-◌, ◌^◌, ◌<◌, ◌≤◌, ℤ, pos, neg_ℤ, ◌<ℤ◌, ◌≤ℤ◌};
ghost use Rattle.std.specs.Prelude.{◌↔◌, List, length, Result, Ok, IsTrue, decimal, slice_index};
ghost use Rattle.std.specs.Int.{w64, to_be_bytes, to_le_bytes, from_be_bytes, from_le_bytes};
ghost use Rattle.std.specs.Ordering.{nat_cmp, int_cmp};
ghost use Rattle.std.specs.Str.{IsAscii};
ghost use Rattle.jiff.specs.Types.{DateTime as CivilDateTime};
ghost use Rattle.jiff.specs.Words.{civil_nanos};
ghost use Rattle.nt_time.specs.declared.error.FileTimeRangeErrorKind.{FileTimeRangeErrorKind};
ghost use Rattle.nt_time.specs.declared.error.OutOfCivil.{OutOfCivil as AnyOutOfCivil};
ghost use Rattle.nt_time.specs.declared.error.ParseFileTimeCause.{ParseFileTimeCause};
ghost use Rattle.nt_time.specs.FileTime.{IsFileTime, unix_nanos, HasParts};
ghost use Rattle.nt_time.specs.Text.{IsTextOf, IsReadFrom};
ghost use Rattle.nt_time.specs.Ticks.{IsWholeTicks, CanAddTicks, CanSubTicks};
ghost use Rattle.nt_time.specs.UnixTime.{IsFromUnixNanos};

use crate::error::{
    FileTimeRangeError, FileTimeRangeErrorKind as Kind, OutOfCivil, ParseFileTimeCause as Cause,
    ParseFileTimeError,
};
use crate::{FileTime, UtcDateTime};
use std::hash::Hash;

/// The nanoseconds of the ticks of [`FileTime::NT_TIME_EPOCH`], [`FileTime::UNIX_EPOCH`],
/// [`FileTime::SIGNED_MAX`] and [`FileTime::MAX`].
pub fn nanoseconds_of_constants()
    ensures first { unix_nanos 0 ≡ neg_ℤ (pos 11_644_473_600_000_000_000) }
    ensures unix_epoch { unix_nanos 116_444_736_000_000_000 ≡ pos 0 }
    ensures signed_max { unix_nanos (2 ^ 63 - 1) ≡ pos 910_692_730_085_477_580_700 }
    ensures last { unix_nanos (2 ^ 64 - 1) ≡ pos 1_833_029_933_770_955_161_500 }
{}

/// What `from_unix_time_nanos` answers for the nanoseconds of a file time is that file time.
pub fn unix_nanoseconds_are_read_back()
    ensures { (ticks : ℕ) (result : Result ℕ FileTimeRangeErrorKind) → IsFileTime ticks
        → IsFromUnixNanos (unix_nanos ticks) result → result ≡ Ok ticks }
{}

/// The nanoseconds of a later file time are greater.
pub fn unix_nanoseconds_rise()
    ensures { (a b : ℕ) → a < b → unix_nanos a <ℤ unix_nanos b }
{}

/// What `from_unix_time_nanos` gives is the greatest file time not after the nanoseconds.
pub fn floor_is_greatest_file_time_not_after()
    ensures { (n : ℤ) (result : Result ℕ FileTimeRangeErrorKind) (ticks : ℕ)
        → IsFromUnixNanos n result → result ≡ Ok ticks
        → IsFileTime ticks × (unix_nanos ticks ≤ℤ n)
        × ((later : ℕ) → IsFileTime later → unix_nanos later ≤ℤ n → later ≤ ticks) }
{}

/// File times are equal and ordered as their raw counts are, and equal ones hash alike.
pub fn order_and_hash_are_those_of_raw_counts()
    ensures equal { (a b : ℕ) → IsTrue (⟦<FileTime as PartialEq>⟧.eq a b) ↔ (a ≡ b) }
    ensures order { (a b : ℕ) → ⟦<FileTime as Ord>⟧.cmp a b ≡ nat_cmp a b }
    ensures hash { (a b : ℕ) → IsTrue (⟦<FileTime as PartialEq>⟧.eq a b)
        → ⟦<FileTime as Hash>⟧.hash_input a ≡ ⟦<FileTime as Hash>⟧.hash_input b }
{}

/// Both byte orders of a file time are read back, and so are eight bytes.
pub fn bytes_are_read_back()
    ensures be { (ticks : ℕ) → IsFileTime ticks
        → from_be_bytes w64 (to_be_bytes w64 ticks) ≡ ticks }
    ensures le { (ticks : ℕ) → IsFileTime ticks
        → from_le_bytes w64 (to_le_bytes w64 ticks) ≡ ticks }
    ensures be_bytes { (bytes : List ℕ) → length bytes ≡ 8 → ((i : ℕ) → slice_index bytes i < 256)
        → to_be_bytes w64 (from_be_bytes w64 bytes) ≡ bytes }
    ensures le_bytes { (bytes : List ℕ) → length bytes ≡ 8 → ((i : ℕ) → slice_index bytes i < 256)
        → to_le_bytes w64 (from_le_bytes w64 bytes) ≡ bytes }
{}

/// The high and low parts name one file time, and a file time has one pair of parts.
pub fn parts_are_read_back()
    ensures file_time { (a b high low : ℕ) → HasParts a high low → HasParts b high low → a ≡ b }
    ensures parts { (ticks high low high' low' : ℕ) → HasParts ticks high low
        → HasParts ticks high' low' → (high ≡ high') × (low ≡ low') }
{}

/// The conditions of sums say that 64 bits hold the result.
pub fn whole_ticks_fit()
    ensures add { (ticks nanos whole : ℕ) → IsWholeTicks nanos whole
        → CanAddTicks ticks nanos ↔ IsFileTime (ticks + whole) }
    ensures sub { (ticks nanos whole : ℕ) → IsWholeTicks nanos whole
        → CanSubTicks ticks nanos ↔ (whole ≤ ticks) }
{}

/// What `from_str` answers for the text of a file time is that file time.
pub fn texts_are_read_back()
    ensures { (ticks : ℕ) (result : Result ℕ ParseFileTimeCause) → IsFileTime ticks
        → IsReadFrom (decimal ticks) result → result ≡ Ok ticks }
{}

/// A text writes one number at most, and the decimal digits of a count are a text of it.
pub fn texts_write_one_number()
    ensures alone { (text : List ℕ) (m n : ℕ) → IsTextOf text m → IsTextOf text n → m ≡ n }
    ensures digits { (ticks : ℕ) → IsFileTime ticks → IsTextOf (decimal ticks) ticks }
{}

/// Civil date-times in UTC are equal and ordered as their moments are.
pub fn civil_order_is_that_of_moments()
    ensures equal { (a b : CivilDateTime) → IsTrue (⟦<UtcDateTime as PartialEq>⟧.eq a b)
        ↔ (civil_nanos a ≡ civil_nanos b) }
    ensures order { (a b : CivilDateTime) → ⟦<UtcDateTime as Ord>⟧.cmp a b
        ≡ int_cmp (civil_nanos a) (civil_nanos b) }
{}

/// Refusals are equal where they are of one kind, and have one cause.
pub fn equal_refusals_say_the_same()
    ensures kinds { (a b : FileTimeRangeErrorKind)
        → IsTrue (⟦<Kind as PartialEq>⟧.eq a b) ↔ (a ≡ b) }
    ensures ranges { (a b : FileTimeRangeErrorKind)
        → IsTrue (⟦<FileTimeRangeError as PartialEq>⟧.eq a b) ↔ (a ≡ b) }
    ensures causes { (a b : ParseFileTimeCause)
        → IsTrue (⟦<Cause as PartialEq>⟧.eq a b) ↔ (a ≡ b) }
    ensures texts { (a b : ParseFileTimeCause)
        → IsTrue (⟦<ParseFileTimeError as PartialEq>⟧.eq a b) ↔ (a ≡ b) }
    ensures civil { (a b : AnyOutOfCivil)
        → IsTrue (⟦<OutOfCivil as PartialEq>⟧.eq a b) ↔ (a ≡ b) }
{}

/// A text that writes a number is ASCII: the reader needs no test whether it is UTF-8.
pub fn texts_are_ascii()
    ensures { (text : List ℕ) (n : ℕ) → IsTextOf text n → IsAscii text }
{}
