//! The texts of durations.
ghost use Rattle.std.specs.Prelude.{◌≡◌, ◌+◌, ◌≤◌, ◌++◌, length, codes, decimal, Some};
ghost use Rattle.arrayvec.specs.ArrayString.{array_string_len};
ghost use Rattle.iso8601.specs.WrittenDurations.{count_text, duration_text, second_text};
ghost use Rattle.iso8601.specs.inside.DurationParts.{clock_counts_text, date_counts_text};

use crate::types::Duration;
use crate::written::push_digits;
use arrayvec::ArrayString;
use scan_core::{Short, push_num, push_text};
use std::fmt;
use std::fmt::Display;

/// Appends a count and the letter of its unit.
#[inline(always)] // else the letter is a text of any length
#[tactic(auto, using(scan_core::proofs::DigitFacts::length_decimal_u32))]
fn push_count<const CAP: usize>(out: &mut ArrayString<CAP>, count: u32, letter: &str)
    requires letter { length letter.now ≤ 1 }
    requires room { array_string_len out.old + 11 ≤ CAP }
    ensures bytes { out.new.bytes ≡ out.old.bytes ++ (decimal count ++ letter.now) }
    ensures len { array_string_len out.new ≤ array_string_len out.old + 11 }
{
    push_num(out, u64::from(count));
    push_text(out, letter);
}

/// Appends a count and the letter of its unit, or nothing where the count is 0.
#[inline(always)]
#[tactic(auto, unfolding(crate::specs::WrittenDurations::count_text))]
fn push_nonzero<const CAP: usize>(out: &mut ArrayString<CAP>, count: u32, letter: &str)
    requires letter { length letter.now ≤ 1 }
    requires room { array_string_len out.old + 11 ≤ CAP }
    ensures bytes { out.new.bytes ≡ out.old.bytes ++ count_text count letter.now }
    ensures len { array_string_len out.new ≤ array_string_len out.old + 11 }
{
    if count != 0 {
        push_count(out, count, letter);
    }
}

/// Appends the seconds, with the milliseconds where these aren't 0.
#[tactic(auto, unfolding(crate::specs::WrittenDurations::second_text))]
fn push_seconds<const CAP: usize>(out: &mut ArrayString<CAP>, second: u32, millisecond: u32)
    requires { array_string_len out.old + 22 ≤ CAP }
    ensures bytes { out.new.bytes ≡ out.old.bytes ++ second_text second millisecond }
    ensures len { array_string_len out.new ≤ array_string_len out.old + 22 }
{
    if millisecond == 0 {
        push_nonzero(out, second, "S");
    } else {
        push_count(out, second, ".");
        push_digits(out, millisecond, 3);
        push_text(out, "S");
    }
}

/// Appends `T` and the counts of a clock that aren't 0, or nothing where all are.
#[tactic(auto, unfolding(crate::specs::inside::DurationParts::clock_counts_text))]
fn push_clock<const CAP: usize>(
    out: &mut ArrayString<CAP>,
    hour: u32,
    minute: u32,
    second: u32,
    millisecond: u32,
)
    requires { array_string_len out.old + 45 ≤ CAP }
    ensures bytes { out.new.bytes
        ≡ out.old.bytes ++ clock_counts_text hour minute second millisecond }
    ensures len { array_string_len out.new ≤ array_string_len out.old + 45 }
{
    if hour == 0 && minute == 0 && second == 0 && millisecond == 0 {
        return;
    }
    push_text(out, "T");
    push_nonzero(out, hour, "H");
    push_nonzero(out, minute, "M");
    push_seconds(out, second, millisecond);
}

/// Appends the counts of a date that aren't 0.
#[tactic(auto, unfolding(crate::specs::inside::DurationParts::date_counts_text))]
fn push_date<const CAP: usize>(out: &mut ArrayString<CAP>, year: u32, month: u32, day: u32)
    requires { array_string_len out.old + 33 ≤ CAP }
    ensures bytes { out.new.bytes ≡ out.old.bytes ++ date_counts_text year month day }
    ensures len { array_string_len out.new ≤ array_string_len out.old + 33 }
{
    push_nonzero(out, year, "Y");
    push_nonzero(out, month, "M");
    push_nonzero(out, day, "D");
}

impl Duration {
    ghost use Rattle.std.specs.Prelude.{◌≡◌, ◌+◌, ◌≤◌, ◌++◌};
    ghost use Rattle.arrayvec.specs.ArrayString.{array_string_len};
    ghost use Rattle.iso8601.specs.WrittenDurations.{duration_text};

    /// The written text, at most 79 bytes: `P1Y2M3DT4H5M6.007S`, `P5W`, or `P0D` where every count is 0. Every value has
    /// one. A duration with at most 999 milliseconds is read back whole and equal.
    pub fn text(&self) -> Short
        ensures bytes { result.bytes ≡ duration_text self.now }
        ensures len { array_string_len result ≤ 79 }
    {
        let mut out = Short::new();
        self.push_text(&mut out);
        out
    }

    /// Appends what [`Duration::text`] answers to a text that has room for 79 bytes more: onto `for ` it makes `for P5W`.
    #[tactic(auto, unfolding(crate::specs::WrittenDurations::duration_text, crate::specs::inside::DurationParts::date_counts_text, crate::specs::inside::DurationParts::clock_counts_text))]
    pub fn push_text<const CAP: usize>(&self, out: &mut ArrayString<CAP>)
        requires room { array_string_len out.old + 79 ≤ CAP }
        ensures bytes { out.new.bytes ≡ out.old.bytes ++ duration_text self.now }
        ensures len { array_string_len out.new ≤ array_string_len out.old + 79 }
    {
        push_text(out, "P");
        match *self {
            Duration::Weeks(weeks) => push_count(out, weeks, "W"),
            Duration::YMDHMS {
                year: 0,
                month: 0,
                day: 0,
                hour: 0,
                minute: 0,
                second: 0,
                millisecond: 0,
            } => push_text(out, "0D"),
            Duration::YMDHMS {
                year,
                month,
                day,
                hour,
                minute,
                second,
                millisecond,
            } => {
                push_date(out, year, month, day);
                push_clock(out, hour, minute, second, millisecond);
            }
        }
    }
}

/// The bytes of `text`.
impl Display for Duration {
    ghost output = { λ d. Some (duration_text d) };

    fn fmt<W: fmt::Write>(&self, f: &mut fmt::Formatter<W>) -> fmt::Result {
        f.write_str(self.text().as_str())
    }
}
