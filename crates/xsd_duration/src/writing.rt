//! The writer, which takes the parts by sign and magnitude.
ghost use Rattle.std.specs.Prelude.{◌≡◌, ◌+◌, ◌<◌, ◌≤◌, ◌^◌, ◌++◌, length, codes, decimal, IsTrue};
ghost use Rattle.arrayvec.specs.ArrayString.{array_string_len};
ghost use Rattle.scan_core.specs.Number.{minus};
ghost use Rattle.pg_interval_2.specs.Parts.{is_zero};
ghost use Rattle.xsd_duration.specs.Written.{xml_duration_text, has_negative, has_one_sign, has_positive};
ghost use Rattle.xsd_duration.specs.inside.Writing.{clock_part, date_part, fraction_part, number_part, seconds_part, time_part};

use arrayvec::ArrayString;
use pg_interval_2::Interval;
use scan_core::{push_num, push_text as push_all, push_trimmed};

/// Whether no part of the interval is above zero while another is below: durations of XML Schema have one sign for the whole, so others
/// have no text. True of a day before, and of a month and an hour; false of a day less an hour.
#[tactic(auto, unfolding(crate::specs::Written::has_one_sign))]
pub fn has_one_sign(interval: Interval) -> bool
    ensures { result ≡ has_one_sign interval }
{
    if has_negative(interval) {
        !has_positive(interval)
    } else {
        true
    }
}

/// Whether a part is below zero.
fn has_negative(interval: Interval) -> bool
    ensures { result ≡ has_negative interval }
{
    interval.months < 0 || interval.days < 0 || interval.microseconds < 0
}

/// Whether a part is above zero.
fn has_positive(interval: Interval) -> bool
    ensures { result ≡ has_positive interval }
{
    interval.months > 0 || interval.days > 0 || interval.microseconds > 0
}

/// Whether all three parts are 0.
fn is_zero(interval: Interval) -> bool
    ensures { result ≡ is_zero interval }
{
    interval.months == 0 && interval.days == 0 && interval.microseconds == 0
}

/// Appends the text of an interval of one sign to a text that has room for 96 bytes more: of a month and an hour it makes `P1MT1H`, of a
/// day before `-P1D`, and `PT0S` of zero.
///
/// Parts that are 0 are left out, months are carried into years and seconds into minutes and hours, and hours aren't carried into days,
/// so the text is read back as the same interval.
pub fn push_text<const CAP: usize>(interval: Interval, out: &mut ArrayString<CAP>)
    requires one { IsTrue (has_one_sign interval) }
    requires room { array_string_len out.old + 96 ≤ CAP }
    ensures bytes { out.new.bytes ≡ out.old.bytes ++ xml_duration_text interval }
    ensures len { array_string_len out.new ≤ array_string_len out.old + 96 }
{
    push_sign(out, has_negative(interval));
    let months = interval.months.unsigned_abs();
    let days = interval.days.unsigned_abs();
    push_date(out, u64::from(months), u64::from(days));
    push_time(out, is_zero(interval), interval.microseconds.unsigned_abs());
}

/// Appends the sign and `P`.
fn push_sign<const CAP: usize>(out: &mut ArrayString<CAP>, negative: bool)
    requires { array_string_len out.old + 2 ≤ CAP }
    ensures bytes { out.new.bytes ≡ out.old.bytes ++ (minus negative ++ codes "P") }
    ensures len { array_string_len out.new ≤ array_string_len out.old + 2 }
{
    if negative {
        push_all(out, "-P");
    } else {
        push_all(out, "P");
    }
}

/// Appends a number and the letter of its unit.
#[inline(always)] // else the letter is a text of any length
#[tactic(auto, using(scan_core::proofs::DigitFacts::length_decimal_u32))]
fn push_number<const CAP: usize>(out: &mut ArrayString<CAP>, n: u64, letter: &str)
    requires letter { length letter.now ≤ 1 }
    requires small { n < 2 ^ 32 }
    requires room { array_string_len out.old + 11 ≤ CAP }
    ensures bytes { out.new.bytes ≡ out.old.bytes ++ (decimal n ++ letter.now) }
    ensures len { array_string_len out.new ≤ array_string_len out.old + 11 }
{
    push_num(out, n);
    push_all(out, letter);
}

/// Appends a number and the letter of its unit, or nothing where the number is 0.
#[inline(always)]
#[tactic(auto, unfolding(crate::specs::inside::Writing::number_part))]
fn push_count<const CAP: usize>(out: &mut ArrayString<CAP>, n: u64, letter: &str)
    requires letter { length letter.now ≤ 1 }
    requires small { n < 2 ^ 32 }
    requires room { array_string_len out.old + 11 ≤ CAP }
    ensures bytes { out.new.bytes ≡ out.old.bytes ++ number_part n letter.now }
    ensures len { array_string_len out.new ≤ array_string_len out.old + 11 }
{
    if n != 0 {
        push_number(out, n, letter);
    }
}

/// Appends years, months and days.
#[tactic(auto, unfolding(crate::specs::inside::Writing::date_part))]
fn push_date<const CAP: usize>(out: &mut ArrayString<CAP>, months: u64, days: u64)
    requires months { months < 2 ^ 32 }
    requires days { days < 2 ^ 32 }
    requires room { array_string_len out.old + 33 ≤ CAP }
    ensures bytes { out.new.bytes ≡ out.old.bytes ++ date_part months days }
    ensures len { array_string_len out.new ≤ array_string_len out.old + 33 }
{
    push_count(out, months / 12, "Y");
    push_count(out, months % 12, "M");
    push_count(out, days, "D");
}

/// Appends `T` and what stands behind it, or nothing of no time in an interval that isn't zero.
#[tactic(auto, unfolding(crate::specs::inside::Writing::time_part))]
fn push_time<const CAP: usize>(out: &mut ArrayString<CAP>, zero: bool, micros: u64)
    requires micros { micros ≤ 2 ^ 63 }
    requires room { array_string_len out.old + 42 ≤ CAP }
    ensures bytes { out.new.bytes ≡ out.old.bytes ++ time_part zero micros }
    ensures len { array_string_len out.new ≤ array_string_len out.old + 42 }
{
    if micros == 0 && !zero {
        return;
    }
    push_all(out, "T");
    push_clock(out, zero, micros);
}

/// Appends hours, minutes and seconds.
#[tactic(auto, unfolding(crate::specs::inside::Writing::clock_part))]
fn push_clock<const CAP: usize>(out: &mut ArrayString<CAP>, zero: bool, micros: u64)
    requires micros { micros ≤ 2 ^ 63 }
    requires room { array_string_len out.old + 41 ≤ CAP }
    ensures bytes { out.new.bytes ≡ out.old.bytes ++ clock_part zero micros }
    ensures len { array_string_len out.new ≤ array_string_len out.old + 41 }
{
    push_count(out, micros / 3_600_000_000, "H");
    push_count(out, micros / 60_000_000 % 60, "M");
    push_seconds(out, zero, micros / 1_000_000 % 60, micros % 1_000_000);
}

/// Appends seconds and their fraction, or nothing of no seconds in an interval that isn't zero.
#[tactic(auto, unfolding(crate::specs::inside::Writing::seconds_part))]
fn push_seconds<const CAP: usize>(out: &mut ArrayString<CAP>, zero: bool, second: u64, micro: u64)
    requires second { second < 60 }
    requires micro { micro < 1_000_000 }
    requires room { array_string_len out.old + 19 ≤ CAP }
    ensures bytes { out.new.bytes ≡ out.old.bytes ++ seconds_part zero second micro }
    ensures len { array_string_len out.new ≤ array_string_len out.old + 19 }
{
    if micro != 0 {
        push_number(out, second, "");
        push_fraction(out, micro);
    } else if zero {
        push_number(out, second, "S");
    } else {
        push_count(out, second, "S");
    }
}

/// Appends the point, the digits of the fraction without zeros at their end, and the letter of seconds.
#[tactic(auto, using(crate::proofs::WrittenFacts::length_decimal_six), unfolding(crate::specs::inside::Writing::fraction_part))]
fn push_fraction<const CAP: usize>(out: &mut ArrayString<CAP>, micro: u64)
    requires micro { micro < 1_000_000 }
    requires room { array_string_len out.old + 8 ≤ CAP }
    ensures bytes { out.new.bytes ≡ out.old.bytes ++ fraction_part micro }
    ensures len { array_string_len out.new ≤ array_string_len out.old + 8 }
{
    push_all(out, ".");
    push_trimmed(out, micro, 6);
    push_all(out, "S");
}
