//! Written clocks: hours, minutes and seconds, by magnitude.
ghost use Rattle.std.specs.Prelude.{◌≡◌, ◌+◌, ◌≤◌, ◌<◌, ◌++◌};
ghost use Rattle.arrayvec.specs.ArrayString.{array_string_len};
ghost use Rattle.pg_interval_2.specs.inside.ClockSteps.{hours_text, field_text, fraction_text, clock_steps};

use crate::writing::parts::{hours_of, minutes_of, push_fraction, seconds_of, subsecond_of};
use arrayvec::ArrayString;
use scan_core::{push_padded, push_text};

/// Appends the digits of hours, at least `width` of them.
#[tactic(auto, using(scan_core::proofs::DigitFacts::length_decimal_u32), unfolding(crate::specs::inside::ClockSteps::hours_text))]
#[inline(always)]
fn push_hours<const CAP: usize>(out: &mut ArrayString<CAP>, width: usize, hours: u32)
    requires width { width ≤ 2 }
    requires room { array_string_len out.old + 10 ≤ CAP }
    ensures bytes { out.new.bytes ≡ out.old.bytes ++ hours_text width hours }
    ensures len { array_string_len out.new ≤ array_string_len out.old + 10 }
{
    push_padded(out, u64::from(hours), width);
}

/// Appends a colon and minutes or seconds in two digits.
#[tactic(auto, using(scan_core::proofs::DigitFacts::length_decimal_two), unfolding(crate::specs::inside::ClockSteps::field_text))]
#[inline(always)]
fn push_field<const CAP: usize>(out: &mut ArrayString<CAP>, value: u32)
    requires value { value < 100 }
    requires room { array_string_len out.old + 3 ≤ CAP }
    ensures bytes { out.new.bytes ≡ out.old.bytes ++ field_text value }
    ensures len { array_string_len out.new ≤ array_string_len out.old + 3 }
{
    push_text(out, ":");
    push_padded(out, u64::from(value), 2);
}

/// Appends a point and six digits of microseconds, or nothing where they are 0.
#[tactic(auto, unfolding(crate::specs::inside::ClockSteps::fraction_text))]
#[inline(always)]
fn push_nonzero_fraction<const CAP: usize>(out: &mut ArrayString<CAP>, micros: u32)
    requires micros { micros < 1_000_000 }
    requires room { array_string_len out.old + 7 ≤ CAP }
    ensures bytes { out.new.bytes ≡ out.old.bytes ++ fraction_text micros }
    ensures len { array_string_len out.new ≤ array_string_len out.old + 7 }
{
    if micros != 0 {
        push_fraction(out, micros);
    }
}

/// Appends the time by magnitude, with at least `width` digits of hours.
pub fn push_clock<const CAP: usize>(out: &mut ArrayString<CAP>, width: usize, micros: i64)
    requires width { width ≤ 2 }
    requires room { array_string_len out.old + 23 ≤ CAP }
    ensures bytes { out.new.bytes ≡ out.old.bytes ++ clock_steps width micros }
    ensures len { array_string_len out.new ≤ array_string_len out.old + 23 }
{
    push_hours(out, width, hours_of(micros));
    push_field(out, minutes_of(micros));
    push_field(out, seconds_of(micros));
    push_nonzero_fraction(out, subsecond_of(micros));
}
