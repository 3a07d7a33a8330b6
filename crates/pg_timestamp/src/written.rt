//! The written text of a value.
ghost use Rattle.std.specs.Prelude.{◌≡◌, ◌+◌, ◌<◌, ◌≤◌, ◌++◌, length, Option};
ghost use Rattle.arrayvec.specs.ArrayString.{array_string_len};
ghost use Rattle.scan_core.specs.Padded.{padded_digits, trimmed_digits};
ghost use Rattle.pg_timestamp.specs.Pieces.{era_text};
ghost use Rattle.pg_timestamp.specs.Values.{IsClockTime, IsRealTime, IsRealTimestamp};
ghost use Rattle.pg_timestamp.specs.Written.{blank_time_text, year_first_text, micros_text, zone_text, perhaps_time_text, timestamp_text};

use crate::date::Date;
use crate::made::timestamp_of;
use crate::time::Time;
use crate::timestamp::Timestamp;
use crate::value::Value;
use arrayvec::ArrayString;
use scan_core::{push_padded, push_text, push_trimmed, push_two};

/// The mark and two digits.
fn push_pair<const CAP: usize>(out: &mut ArrayString<CAP>, mark: &str, value: u8)
    requires mark { length mark.now ≡ 1 }
    requires value { value < 100 }
    requires room { array_string_len out.old + 3 ≤ CAP }
    ensures bytes { out.new.bytes ≡ out.old.bytes ++ (mark.now ++ padded_digits 2 value) }
    ensures len { array_string_len out.new ≤ array_string_len out.old + 3 }
{
    push_text(out, mark);
    push_two(out, value as u64);
}

/// At least four digits.
#[tactic(auto, using(crate::proofs::WrittenFacts::length_decimal_u16))]
fn push_year<const CAP: usize>(out: &mut ArrayString<CAP>, year: u16)
    requires room { array_string_len out.old + 5 ≤ CAP }
    ensures bytes { out.new.bytes ≡ out.old.bytes ++ padded_digits 4 year }
    ensures len { array_string_len out.new ≤ array_string_len out.old + 5 }
{
    push_padded(out, year as u64, 4);
}

/// A date without its era.
#[tactic(auto, unfolding(crate::specs::Written::year_first_text))]
fn push_date<const CAP: usize>(out: &mut ArrayString<CAP>, date: &Date)
    requires month { date.now.month < 100 }
    requires day { date.now.day < 100 }
    requires room { array_string_len out.old + 13 ≤ CAP }
    ensures bytes { out.new.bytes ≡ out.old.bytes ++ year_first_text date.now }
    ensures len { array_string_len out.new ≤ array_string_len out.old + 13 }
{
    push_year(out, date.year);
    push_pair(out, "-", date.month);
    push_pair(out, "-", date.day);
}

/// The digits of a fraction, without the zeros at their end.
#[tactic(auto, using(scan_core::proofs::DigitFacts::length_decimal_u32, crate::proofs::WrittenFacts::thousands))]
fn push_micros<const CAP: usize>(out: &mut ArrayString<CAP>, micros: u32)
    requires some { 0 < micros }
    requires room { array_string_len out.old + 10 ≤ CAP }
    ensures bytes { out.new.bytes ≡ out.old.bytes ++ trimmed_digits (padded_digits 6 micros) }
    ensures len { array_string_len out.new ≤ array_string_len out.old + 10 }
{
    // Most fractions that end in zeros are whole milliseconds.
    if micros % 1000 == 0 {
        push_trimmed(out, (micros / 1000) as u64, 3);
    } else {
        push_trimmed(out, micros as u64, 6);
    }
}

/// A point and the digits of a fraction, or nothing.
#[tactic(auto, unfolding(crate::specs::Written::micros_text))]
fn push_fraction<const CAP: usize>(out: &mut ArrayString<CAP>, micros: u32)
    requires room { array_string_len out.old + 11 ≤ CAP }
    ensures bytes { out.new.bytes ≡ out.old.bytes ++ micros_text micros }
    ensures len { array_string_len out.new ≤ array_string_len out.old + 11 }
{
    if micros != 0 {
        push_text(out, ".");
        push_micros(out, micros);
    }
}

/// The offset of UTC, or nothing.
fn push_offset<const CAP: usize>(out: &mut ArrayString<CAP>, offset: Option<i32>)
    requires room { array_string_len out.old + 3 ≤ CAP }
    ensures bytes { out.new.bytes ≡ out.old.bytes ++ zone_text offset }
    ensures len { array_string_len out.new ≤ array_string_len out.old + 3 }
{
    if offset.is_some() {
        out.push('+');
        out.push('0');
        out.push('0');
    }
}

/// A time.
#[tactic(auto, unfolding(crate::specs::Written::blank_time_text))]
fn push_clock<const CAP: usize>(out: &mut ArrayString<CAP>, time: &Time)
    requires clock { IsClockTime time.now }
    requires room { array_string_len out.old + 26 ≤ CAP }
    ensures bytes { out.new.bytes ≡ out.old.bytes ++ blank_time_text time.now }
    ensures len { array_string_len out.new ≤ array_string_len out.old + 26 }
{
    push_pair(out, " ", time.hour);
    push_pair(out, ":", time.minute);
    push_pair(out, ":", time.second);
    push_fraction(out, time.micros);
    push_offset(out, time.offset);
}

/// A time, or nothing.
fn push_time<const CAP: usize>(out: &mut ArrayString<CAP>, time: &Option<Time>)
    requires real { IsRealTime time.now }
    requires room { array_string_len out.old + 26 ≤ CAP }
    ensures bytes { out.new.bytes ≡ out.old.bytes ++ perhaps_time_text time.now }
    ensures len { array_string_len out.new ≤ array_string_len out.old + 26 }
{
    if let Some(time) = time {
        push_clock(out, time);
    }
}

/// The era, or nothing.
fn push_era<const CAP: usize>(out: &mut ArrayString<CAP>, bc: bool)
    requires room { array_string_len out.old + 3 ≤ CAP }
    ensures bytes { out.new.bytes ≡ out.old.bytes ++ era_text bc }
    ensures len { array_string_len out.new ≤ array_string_len out.old + 3 }
{
    if bc {
        push_text(out, " BC");
    }
}

/// A timestamp.
#[tactic(auto, unfolding(crate::specs::Written::timestamp_text))]
fn push_timestamp<const CAP: usize>(out: &mut ArrayString<CAP>, timestamp: &Timestamp)
    requires real { IsRealTimestamp timestamp.now }
    requires room { array_string_len out.old + 42 ≤ CAP }
    ensures bytes { out.new.bytes ≡ out.old.bytes ++ timestamp_text timestamp.now }
    ensures len { array_string_len out.new ≤ array_string_len out.old + 42 }
{
    push_date(out, &timestamp.date);
    push_time(out, &timestamp.time);
    push_era(out, timestamp.date.bc);
}

impl Value {
    ghost use Rattle.std.specs.Prelude.{◌≡◌, ◌+◌, ◌≤◌, ◌++◌, List, ℕ};
    ghost use Rattle.arrayvec.specs.ArrayString.{array_string_len};
    ghost use Rattle.pg_timestamp.specs.Values.{IsWithinBounds};
    ghost use Rattle.pg_timestamp.specs.Written.{IsValueText};

    /// Appends the text of the value, of at most 42 bytes: `2026-12-01` of a day, `2026-12-01 23:24:31.051677` of a time of a day, and
    /// `2026-12-01 23:24:31.051677+00` of a moment; before year 1 it ends in ` BC`.
    pub fn push_text<const CAP: usize>(self, out: &mut ArrayString<CAP>)
        requires value { IsWithinBounds self }
        requires room { array_string_len out.old + 42 ≤ CAP }
        ensures bytes { (text : List ℕ) × IsValueText self text
            × (out.new.bytes ≡ out.old.bytes ++ text) }
        ensures len { array_string_len out.new ≤ array_string_len out.old + 42 }
    {
        push_timestamp(out, &timestamp_of(self));
    }
}
