//! Written texts in ISO style.
ghost use Rattle.std.specs.Prelude.{◌≡◌, ◌+◌, ◌≤◌, ◌<◌, ◌++◌, length, codes};
ghost use Rattle.arrayvec.specs.ArrayString.{array_string_len};
ghost use Rattle.pg_interval_2.specs.IsoText.{iso_part};
ghost use Rattle.pg_interval_2.specs.inside.IsoSteps.{nonzero_digits, iso_decimal, iso_seconds, iso_date, iso_time, iso_steps};

use crate::writing::parts::{
    hours_of, minutes_of, months_of, push_digits, push_fraction, push_minus, seconds_of,
    subsecond_of, years_of,
};
use arrayvec::ArrayString;
use scan_core::push_text;

/// Appends a number with its minus and its letter, or nothing where it is 0.
#[tactic(auto, unfolding(crate::specs::IsoText::iso_part))]
#[inline(always)]
fn push_part<const CAP: usize>(out: &mut ArrayString<CAP>, negative: bool, value: u32, letter: &str)
    requires letter { length letter.now ≤ 1 }
    requires room { array_string_len out.old + 12 ≤ CAP }
    ensures bytes { out.new.bytes ≡ out.old.bytes ++ iso_part negative value letter.now }
    ensures len { array_string_len out.new ≤ array_string_len out.old + 12 }
{
    if value != 0 {
        push_minus(out, negative);
        push_digits(out, value);
        push_text(out, letter);
    }
}

/// Appends the digits of a number, or nothing where it is 0.
#[tactic(auto, unfolding(crate::specs::inside::IsoSteps::nonzero_digits))]
#[inline(always)]
fn push_nonzero<const CAP: usize>(out: &mut ArrayString<CAP>, value: u32)
    requires { array_string_len out.old + 10 ≤ CAP }
    ensures bytes { out.new.bytes ≡ out.old.bytes ++ nonzero_digits value }
    ensures len { array_string_len out.new ≤ array_string_len out.old + 10 }
{
    if value != 0 {
        push_digits(out, value);
    }
}

/// Appends seconds with microseconds that aren't 0.
#[tactic(auto, unfolding(crate::specs::inside::IsoSteps::iso_decimal))]
#[inline(always)]
fn push_decimal<const CAP: usize>(
    out: &mut ArrayString<CAP>,
    negative: bool,
    seconds: u32,
    micros: u32,
)
    requires micros { micros < 1_000_000 }
    requires room { array_string_len out.old + 19 ≤ CAP }
    ensures bytes { out.new.bytes ≡ out.old.bytes ++ iso_decimal negative seconds micros }
    ensures len { array_string_len out.new ≤ array_string_len out.old + 19 }
{
    push_minus(out, negative);
    push_nonzero(out, seconds);
    push_fraction(out, micros);
    push_text(out, "S");
}

/// Appends the seconds, or nothing where they and the microseconds are 0.
#[tactic(auto, unfolding(crate::specs::inside::IsoSteps::iso_seconds))]
#[inline(always)]
fn push_seconds<const CAP: usize>(
    out: &mut ArrayString<CAP>,
    negative: bool,
    seconds: u32,
    micros: u32,
)
    requires micros { micros < 1_000_000 }
    requires room { array_string_len out.old + 19 ≤ CAP }
    ensures bytes { out.new.bytes ≡ out.old.bytes ++ iso_seconds negative seconds micros }
    ensures len { array_string_len out.new ≤ array_string_len out.old + 19 }
{
    if micros == 0 {
        push_part(out, negative, seconds, "S");
    } else {
        push_decimal(out, negative, seconds, micros);
    }
}

/// Appends the time, or nothing where it is 0.
#[tactic(auto, unfolding(crate::specs::inside::IsoSteps::iso_time))]
#[inline(always)]
fn push_time<const CAP: usize>(out: &mut ArrayString<CAP>, micros: i64)
    requires { array_string_len out.old + 44 ≤ CAP }
    ensures bytes { out.new.bytes ≡ out.old.bytes ++ iso_time micros }
    ensures len { array_string_len out.new ≤ array_string_len out.old + 44 }
{
    if micros != 0 {
        push_text(out, "T");
        push_part(out, micros.is_negative(), hours_of(micros), "H");
        push_part(out, micros.is_negative(), minutes_of(micros), "M");
        push_seconds(
            out,
            micros.is_negative(),
            seconds_of(micros),
            subsecond_of(micros),
        );
    }
}

/// Appends the years, months and days, each where it isn't 0.
#[tactic(auto, unfolding(crate::specs::inside::IsoSteps::iso_date))]
#[inline(always)]
fn push_date<const CAP: usize>(out: &mut ArrayString<CAP>, months: i32, days: i32)
    requires { array_string_len out.old + 36 ≤ CAP }
    ensures bytes { out.new.bytes ≡ out.old.bytes ++ iso_date months days }
    ensures len { array_string_len out.new ≤ array_string_len out.old + 36 }
{
    push_part(out, months.is_negative(), years_of(months), "Y");
    push_part(out, months.is_negative(), months_of(months), "M");
    push_part(out, days.is_negative(), days.unsigned_abs(), "D");
}

/// Appends the text of an interval that isn't zero.
#[inline(always)]
fn push_parts<const CAP: usize>(out: &mut ArrayString<CAP>, months: i32, days: i32, micros: i64)
    requires { array_string_len out.old + 96 ≤ CAP }
    ensures bytes { out.new.bytes
        ≡ out.old.bytes ++ (codes "P" ++ (iso_date months days ++ iso_time micros)) }
    ensures len { array_string_len out.new ≤ array_string_len out.old + 96 }
{
    push_text(out, "P");
    push_date(out, months, days);
    push_time(out, micros);
}

/// Appends the text of an interval of these parts: `P1Y1M1DT1H` of 13, 1 and 3_600_000_000.
#[tactic(auto, unfolding(crate::specs::inside::IsoSteps::iso_steps))]
pub fn push_iso<const CAP: usize>(out: &mut ArrayString<CAP>, months: i32, days: i32, micros: i64)
    requires { array_string_len out.old + 96 ≤ CAP }
    ensures bytes { out.new.bytes ≡ out.old.bytes ++ iso_steps months days micros }
    ensures len { array_string_len out.new ≤ array_string_len out.old + 96 }
{
    if months == 0 && days == 0 && micros == 0 {
        push_text(out, "PT0S");
    } else {
        push_parts(out, months, days, micros);
    }
}
