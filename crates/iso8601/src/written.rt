//! The texts of dates, times and date-times.
ghost use Rattle.std.specs.Prelude.{◌≡◌, ◌+◌, ◌≤◌, ◌++◌, length, Some};
ghost use Rattle.arrayvec.specs.ArrayString.{array_string_len};
ghost use Rattle.scan_core.specs.Padded.{padded_digits};
ghost use Rattle.std.specs.Int.{is_negative};
ghost use Rattle.iso8601.specs.Written.{time_of_day_text, date_text, date_time_text, offset_text, time_text, two_wide, year_text};
ghost use Rattle.scan_core.specs.Number.{minus};
ghost use Rattle.iso8601.specs.inside.WrittenParts.{governed_part};

use crate::types::{Date, DateTime, Time};
use arrayvec::ArrayString;
use scan_core::{Short, push_padded, push_text};
use std::fmt;
use std::fmt::Display;

/// Appends a number of 32 bits with leading zeros to at least `width` digits.
#[inline(always)] // the width is a constant at each call
#[tactic(auto, using(scan_core::proofs::DigitFacts::length_decimal_u32))]
pub(crate) fn push_digits<const CAP: usize>(out: &mut ArrayString<CAP>, value: u32, width: usize)
    requires width { width ≤ 10 }
    requires room { array_string_len out.old + 10 ≤ CAP }
    ensures bytes { out.new.bytes ≡ out.old.bytes ++ padded_digits width value }
    ensures len { array_string_len out.new ≤ array_string_len out.old + 10 }
{
    push_padded(out, u64::from(value), width);
}

/// Appends a minus, or nothing.
fn push_minus<const CAP: usize>(out: &mut ArrayString<CAP>, negative: bool)
    requires { array_string_len out.old + 1 ≤ CAP }
    ensures bytes { out.new.bytes ≡ out.old.bytes ++ minus negative }
    ensures len { array_string_len out.new ≤ array_string_len out.old + 1 }
{
    if negative {
        push_text(out, "-");
    }
}

/// Appends a text and a number in at least `width` digits.
#[inline(always)] // else the mark is a text of any length
fn push_field<const CAP: usize>(out: &mut ArrayString<CAP>, mark: &str, value: u32, width: usize)
    requires mark { length mark.now ≤ 2 }
    requires width { width ≤ 10 }
    requires room { array_string_len out.old + length mark.now + 10 ≤ CAP }
    ensures bytes { out.new.bytes ≡ out.old.bytes ++ (mark.now ++ padded_digits width value) }
    ensures len { array_string_len out.new ≤ array_string_len out.old + length mark.now + 10 }
{
    push_text(out, mark);
    push_digits(out, value, width);
}

/// Appends a year.
#[tactic(auto, unfolding(crate::specs::Written::year_text))]
fn push_year<const CAP: usize>(out: &mut ArrayString<CAP>, year: i32)
    requires { array_string_len out.old + 11 ≤ CAP }
    ensures bytes { out.new.bytes ≡ out.old.bytes ++ year_text year }
    ensures len { array_string_len out.new ≤ array_string_len out.old + 11 }
{
    push_minus(out, year.is_negative());
    push_digits(out, year.unsigned_abs(), 4);
}

/// Appends a date.
#[inline(always)] // most callers know the kind
#[tactic(auto, unfolding(crate::specs::Written::date_text))]
fn push_date<const CAP: usize>(out: &mut ArrayString<CAP>, date: Date)
    requires { array_string_len out.old + 34 ≤ CAP }
    ensures bytes { out.new.bytes ≡ out.old.bytes ++ date_text date }
    ensures len { array_string_len out.new ≤ array_string_len out.old + 34 }
{
    match date {
        Date::YMD { year, month, day } => {
            push_year(out, year);
            push_field(out, "-", month, 2);
            push_field(out, "-", day, 2);
        }
        Date::Week { year, ww, d } => {
            push_year(out, year);
            push_field(out, "-W", ww, 2);
            push_field(out, "-", d, 1);
        }
        Date::Ordinal { year, ddd } => {
            push_year(out, year);
            push_field(out, "-", ddd, 3);
        }
    }
}

/// Appends the hours, minutes, seconds and milliseconds of a time.
#[tactic(auto, unfolding(crate::specs::Written::time_of_day_text))]
fn push_clock<const CAP: usize>(out: &mut ArrayString<CAP>, time: &Time)
    requires { array_string_len out.old + 43 ≤ CAP }
    ensures bytes { out.new.bytes
        ≡ out.old.bytes
        ++ time_of_day_text time.now.hour time.now.minute time.now.second time.now.millisecond }
    ensures len { array_string_len out.new ≤ array_string_len out.old + 43 }
{
    push_digits(out, time.hour, 2);
    push_field(out, ":", time.minute, 2);
    push_field(out, ":", time.second, 2);
    push_field(out, ".", time.millisecond, 3);
}

/// Whether a part of an offset has a minus of its own: it has the sign that doesn't govern the parts.
fn has_minus(governed: bool, part: i32) -> bool
    ensures { result ≡ is_negative (governed_part governed part) }
{
    if governed { part > 0 } else { part < 0 }
}

/// Appends a part of an offset, negated where a minus governs the parts.
#[tactic(auto, unfolding(crate::specs::Written::two_wide))]
fn push_part<const CAP: usize>(out: &mut ArrayString<CAP>, governed: bool, part: i32)
    requires { array_string_len out.old + 11 ≤ CAP }
    ensures bytes { out.new.bytes ≡ out.old.bytes ++ two_wide (governed_part governed part) }
    ensures len { array_string_len out.new ≤ array_string_len out.old + 11 }
{
    if has_minus(governed, part) {
        push_field(out, "-", part.unsigned_abs(), 1);
    } else {
        push_digits(out, part.unsigned_abs(), 2);
    }
}

/// Appends an offset.
#[tactic(auto, unfolding(crate::specs::Written::offset_text))]
fn push_offset<const CAP: usize>(out: &mut ArrayString<CAP>, hours: i32, minutes: i32)
    requires { array_string_len out.old + 24 ≤ CAP }
    ensures bytes { out.new.bytes ≡ out.old.bytes ++ offset_text hours minutes }
    ensures len { array_string_len out.new ≤ array_string_len out.old + 24 }
{
    let governed = hours.is_negative() || minutes.is_negative();
    push_text(out, if governed { "-" } else { "+" });
    push_part(out, governed, hours);
    push_text(out, ":");
    push_part(out, governed, minutes);
}

/// Appends a time with its offset.
#[tactic(auto, unfolding(crate::specs::Written::time_text))]
fn push_time<const CAP: usize>(out: &mut ArrayString<CAP>, time: &Time)
    requires { array_string_len out.old + 67 ≤ CAP }
    ensures bytes { out.new.bytes ≡ out.old.bytes ++ time_text time.now }
    ensures len { array_string_len out.new ≤ array_string_len out.old + 66 }
{
    push_clock(out, time);
    push_offset(out, time.tz_offset_hours, time.tz_offset_minutes);
}

impl Date {
    ghost use Rattle.std.specs.Prelude.{◌≡◌, ◌+◌, ◌≤◌, ◌++◌};
    ghost use Rattle.arrayvec.specs.ArrayString.{array_string_len};
    ghost use Rattle.iso8601.specs.Written.{date_text};

    /// The written text, at most 34 bytes: `2015-06-26`, `2015-W26-5` or `2015-177`. Every value has one. A year from
    /// -9999 to 9999 with fields in the parser's ranges is read back whole and equal.
    pub fn text(&self) -> Short
        ensures bytes { result.bytes ≡ date_text self.now }
        ensures len { array_string_len result ≤ 34 }
    {
        let mut out = Short::new();
        self.push_text(&mut out);
        out
    }

    /// Appends what [`Date::text`] answers to a text that has room for 34 bytes more: onto `due ` it makes `due 2015-06-26`.
    #[inline(always)] // the same
    pub fn push_text<const CAP: usize>(&self, out: &mut ArrayString<CAP>)
        requires room { array_string_len out.old + 34 ≤ CAP }
        ensures bytes { out.new.bytes ≡ out.old.bytes ++ date_text self.now }
        ensures len { array_string_len out.new ≤ array_string_len out.old + 34 }
    {
        push_date(out, *self);
    }
}

impl Time {
    ghost use Rattle.std.specs.Prelude.{◌≡◌, ◌+◌, ◌≤◌, ◌++◌};
    ghost use Rattle.arrayvec.specs.ArrayString.{array_string_len};
    ghost use Rattle.iso8601.specs.Written.{time_text};

    /// The written text, at most 66 bytes: `16:43:16.123+02:00`. Every value has one. A time with fields in the parser's
    /// ranges, whose offset parts don't differ in sign, is read back whole and equal.
    pub fn text(&self) -> Short
        ensures bytes { result.bytes ≡ time_text self.now }
        ensures len { array_string_len result ≤ 66 }
    {
        let mut out = Short::new();
        self.push_text(&mut out);
        out
    }

    /// Appends what [`Time::text`] answers to a text that has room for 67 bytes more: onto `at ` it makes
    /// `at 16:43:16.123+02:00`.
    #[inline]
    pub fn push_text<const CAP: usize>(&self, out: &mut ArrayString<CAP>)
        requires room { array_string_len out.old + 67 ≤ CAP }
        ensures bytes { out.new.bytes ≡ out.old.bytes ++ time_text self.now }
        ensures len { array_string_len out.new ≤ array_string_len out.old + 66 }
    {
        push_time(out, self);
    }
}

impl DateTime {
    ghost use Rattle.std.specs.Prelude.{◌≡◌, ◌+◌, ◌≤◌, ◌++◌};
    ghost use Rattle.arrayvec.specs.ArrayString.{array_string_len};
    ghost use Rattle.iso8601.specs.Written.{date_time_text};

    /// The written text, at most 101 bytes: `2015-06-26T16:43:16.123+02:00`. Every value has one, and it is read back as
    /// the date and the time are.
    pub fn text(&self) -> Short
        ensures bytes { result.bytes ≡ date_time_text self.now }
        ensures len { array_string_len result ≤ 101 }
    {
        let mut out = Short::new();
        self.push_text(&mut out);
        out
    }

    /// Appends what [`DateTime::text`] answers to a text that has room for 102 bytes more: onto `from ` it makes
    /// `from 2015-06-26T16:43:16.123+02:00`.
    #[inline]
    #[tactic(auto, unfolding(crate::specs::Written::date_time_text))]
    pub fn push_text<const CAP: usize>(&self, out: &mut ArrayString<CAP>)
        requires room { array_string_len out.old + 102 ≤ CAP }
        ensures bytes { out.new.bytes ≡ out.old.bytes ++ date_time_text self.now }
        ensures len { array_string_len out.new ≤ array_string_len out.old + 101 }
    {
        push_date(out, self.date);
        push_text(out, "T");
        push_time(out, &self.time);
    }
}

/// The bytes of `text`.
impl Display for Date {
    ghost output = { λ d. Some (date_text d) };

    fn fmt<W: fmt::Write>(&self, f: &mut fmt::Formatter<W>) -> fmt::Result {
        f.write_str(self.text().as_str())
    }
}

/// The bytes of `text`.
impl Display for Time {
    ghost output = { λ t. Some (time_text t) };

    fn fmt<W: fmt::Write>(&self, f: &mut fmt::Formatter<W>) -> fmt::Result {
        f.write_str(self.text().as_str())
    }
}

/// The bytes of `text`.
impl Display for DateTime {
    ghost output = { λ t. Some (date_time_text t) };

    fn fmt<W: fmt::Write>(&self, f: &mut fmt::Formatter<W>) -> fmt::Result {
        f.write_str(self.text().as_str())
    }
}
