//! The parts of an interval's numbers, by magnitude, and how they are appended to a text.
ghost use Rattle.std.specs.Prelude.{◌≡◌, ◌+◌, ◌≤◌, ◌<◌, ◌++◌, decimal, codes};
ghost use Rattle.arrayvec.specs.ArrayString.{array_string_len};
ghost use Rattle.scan_core.specs.Padded.{padded_digits};
ghost use Rattle.pg_interval_2.specs.Turned.{turned_sign};
ghost use Rattle.scan_core.specs.Number.{minus};
ghost use Rattle.pg_interval_2.specs.inside.PartSteps.{has_negative, years_of, months_of, hours_of, minutes_of, seconds_of, subsecond_of};

use arrayvec::ArrayString;
use scan_core::{push_num, push_padded, push_text};

/// The whole years of a number of months, by magnitude.
pub fn years_of(months: i32) -> u32
    ensures { result ≡ years_of months }
{
    months.unsigned_abs() / 12
}

/// The months beside the whole years, 0 to 11.
pub fn months_of(months: i32) -> u32
    ensures { result ≡ months_of months }
{
    months.unsigned_abs() % 12
}

/// The whole hours of a number of microseconds, by magnitude.
pub fn hours_of(micros: i64) -> u32
    ensures { result ≡ hours_of micros }
{
    (micros.unsigned_abs() / 3_600_000_000) as u32
}

/// The minutes beside the whole hours, 0 to 59.
pub fn minutes_of(micros: i64) -> u32
    ensures { result ≡ minutes_of micros }
{
    (micros.unsigned_abs() / 60_000_000 % 60) as u32
}

/// The seconds beside the whole minutes, 0 to 59.
pub fn seconds_of(micros: i64) -> u32
    ensures { result ≡ seconds_of micros }
{
    (micros.unsigned_abs() / 1_000_000 % 60) as u32
}

/// The microseconds beside the whole seconds, 0 to 999_999.
pub fn subsecond_of(micros: i64) -> u32
    ensures { result ≡ subsecond_of micros }
{
    (micros.unsigned_abs() % 1_000_000) as u32
}

/// Whether one of the numbers is negative.
pub fn has_negative(months: i32, days: i32, micros: i64) -> bool
    ensures { result ≡ has_negative months days micros }
{
    months.is_negative() || days.is_negative() || micros.is_negative()
}

/// A sign, turned where `turned`.
#[inline(always)]
pub fn turn(turned: bool, negative: bool) -> bool
    ensures { result ≡ turned_sign turned negative }
{
    if turned { !negative } else { negative }
}

/// Appends the minus of a negative number.
#[inline(always)]
pub fn push_minus<const CAP: usize>(out: &mut ArrayString<CAP>, negative: bool)
    requires { array_string_len out.old + 1 ≤ CAP }
    ensures bytes { out.new.bytes ≡ out.old.bytes ++ minus negative }
    ensures len { array_string_len out.new ≤ array_string_len out.old + 1 }
{
    if negative {
        push_text(out, "-");
    }
}

/// Appends the digits of a number.
#[tactic(auto, using(scan_core::proofs::DigitFacts::length_decimal_u32, scan_core::proofs::DigitFacts::length_decimal_two))]
#[inline(always)]
pub fn push_digits<const CAP: usize>(out: &mut ArrayString<CAP>, value: u32)
    requires { array_string_len out.old + 10 ≤ CAP }
    ensures bytes { out.new.bytes ≡ out.old.bytes ++ decimal value }
    ensures len { array_string_len out.new ≤ array_string_len out.old + 10 }
    ensures two { value < 100 → array_string_len out.new ≤ array_string_len out.old + 2 }
{
    push_num(out, u64::from(value));
}

/// Appends a point and six digits of microseconds.
#[tactic(auto, using(crate::proofs::Widths::length_decimal_micros))]
pub fn push_fraction<const CAP: usize>(out: &mut ArrayString<CAP>, micros: u32)
    requires micros { micros < 1_000_000 }
    requires room { array_string_len out.old + 7 ≤ CAP }
    ensures bytes { out.new.bytes ≡ out.old.bytes ++ (codes "." ++ padded_digits 6 micros) }
    ensures len { array_string_len out.new ≤ array_string_len out.old + 7 }
{
    push_text(out, ".");
    push_padded(out, u64::from(micros), 6);
}
