//! The written texts, piece by piece.
ghost use Rattle.std.specs.Prelude.{◌≡◌, ◌+◌, ◌<◌, ◌≤◌, ◌++◌, codes};
ghost use Rattle.arrayvec.specs.ArrayString.{array_string_len};
ghost use Rattle.scan_core.specs.Padded.{padded_digits};
ghost use Rattle.port_toml_datetime.specs.Texts.{full_date_text, delimiter_text, fraction_text, minutes_text, time_offset_text, part_text, partial_second_text, signed_text, text_of, partial_time_text};

use crate::{Date, Datetime, Offset, Time};
use arrayvec::ArrayString;
use scan_core::{Short, push_padded, push_text, push_trimmed};

/// `YYYY-MM-DD`.
#[tactic(auto, unfolding(crate::specs::Texts::full_date_text), using(crate::proofs::TextFacts::short_year, crate::proofs::TextFacts::short_hours))]
fn push_date<const CAP: usize>(out: &mut ArrayString<CAP>, date: Date)
    requires { array_string_len out.old + 13 ≤ CAP }
    ensures bytes { out.new.bytes ≡ out.old.bytes ++ full_date_text date }
    ensures len { array_string_len out.new ≤ array_string_len out.old + 13 }
{
    push_padded(out, u64::from(date.year), 4);
    push_text(out, "-");
    push_padded(out, u64::from(date.month), 2);
    push_text(out, "-");
    push_padded(out, u64::from(date.day), 2);
}

/// A colon, and at least two digits.
#[tactic(auto, using(crate::proofs::TextFacts::short_hours))]
fn push_colon_two<const CAP: usize>(out: &mut ArrayString<CAP>, value: u8)
    requires { array_string_len out.old + 4 ≤ CAP }
    ensures bytes { out.new.bytes ≡ out.old.bytes ++ (codes ":" ++ padded_digits 2 value) }
    ensures len { array_string_len out.new ≤ array_string_len out.old + 4 }
{
    push_text(out, ":");
    push_padded(out, u64::from(value), 2);
}

/// The digits of a nanosecond without the zeros at the end, at least one.
#[tactic(auto, using(scan_core::proofs::DigitFacts::length_decimal_u32))]
fn push_fraction<const CAP: usize>(out: &mut ArrayString<CAP>, nanosecond: u32)
    requires { array_string_len out.old + 10 ≤ CAP }
    ensures bytes { out.new.bytes ≡ out.old.bytes ++ fraction_text nanosecond }
    ensures len { array_string_len out.new ≤ array_string_len out.old + 10 }
{
    if nanosecond == 0 {
        out.push('0');
    } else {
        push_trimmed(out, u64::from(nanosecond), 9);
    }
}

/// A point, and the digits of the nanoseconds.
fn push_point_fraction<const CAP: usize>(out: &mut ArrayString<CAP>, nanosecond: u32)
    requires { array_string_len out.old + 11 ≤ CAP }
    ensures bytes { out.new.bytes ≡ out.old.bytes ++ (codes "." ++ fraction_text nanosecond) }
    ensures len { array_string_len out.new ≤ array_string_len out.old + 11 }
{
    push_text(out, ".");
    push_fraction(out, nanosecond);
}

/// The second and its fraction, where they are there.
fn push_seconds<const CAP: usize>(
    out: &mut ArrayString<CAP>,
    second: Option<u8>,
    nanosecond: Option<u32>,
)
    requires { array_string_len out.old + 15 ≤ CAP }
    ensures bytes { out.new.bytes ≡ out.old.bytes ++ partial_second_text second nanosecond }
    ensures len { array_string_len out.new ≤ array_string_len out.old + 15 }
{
    match (second, nanosecond) {
        (None, None) => {}
        (Some(second), None) => push_colon_two(out, second),
        (None, Some(nanosecond)) => {
            push_colon_two(out, 0);
            push_point_fraction(out, nanosecond);
        }
        (Some(second), Some(nanosecond)) => {
            push_colon_two(out, second);
            push_point_fraction(out, nanosecond);
        }
    }
}

/// `HH:MM`, and perhaps seconds and a fraction.
#[tactic(auto, unfolding(crate::specs::Texts::partial_time_text), using(crate::proofs::TextFacts::short_hours))]
fn push_time<const CAP: usize>(out: &mut ArrayString<CAP>, time: Time)
    requires { array_string_len out.old + 22 ≤ CAP }
    ensures bytes { out.new.bytes ≡ out.old.bytes ++ partial_time_text time }
    ensures len { array_string_len out.new ≤ array_string_len out.old + 22 }
{
    push_padded(out, u64::from(time.hour), 2);
    push_colon_two(out, time.minute);
    push_seconds(out, time.second, time.nanosecond);
}

/// `HH:MM` of so many minutes.
#[tactic(auto, using(crate::proofs::TextFacts::short_hours, scan_core::proofs::DigitFacts::length_decimal_two))]
fn push_minutes<const CAP: usize>(out: &mut ArrayString<CAP>, minutes: u16)
    requires minutes { minutes ≤ 32768 }
    requires room { array_string_len out.old + 6 ≤ CAP }
    ensures bytes { out.new.bytes ≡ out.old.bytes ++ minutes_text minutes }
    ensures len { array_string_len out.new ≤ array_string_len out.old + 6 }
{
    push_padded(out, u64::from(minutes / 60), 2);
    push_text(out, ":");
    push_padded(out, u64::from(minutes % 60), 2);
}

/// A sign, and `HH:MM` of the magnitude.
#[tactic(auto, using(crate::proofs::TextFacts::negative_text, crate::proofs::TextFacts::positive_text))]
fn push_signed<const CAP: usize>(out: &mut ArrayString<CAP>, minutes: i16)
    requires { array_string_len out.old + 7 ≤ CAP }
    ensures bytes { out.new.bytes ≡ out.old.bytes ++ signed_text minutes }
    ensures len { array_string_len out.new ≤ array_string_len out.old + 7 }
{
    if minutes < 0 {
        push_text(out, "-");
        push_minutes(out, minutes.unsigned_abs());
    } else {
        push_text(out, "+");
        push_minutes(out, minutes.unsigned_abs());
    }
}

/// `Z`, or a sign and `HH:MM`.
#[tactic(auto, unfolding(crate::specs::Texts::time_offset_text))]
fn push_offset<const CAP: usize>(out: &mut ArrayString<CAP>, offset: Offset)
    requires { array_string_len out.old + 7 ≤ CAP }
    ensures bytes { out.new.bytes ≡ out.old.bytes ++ time_offset_text offset }
    ensures len { array_string_len out.new ≤ array_string_len out.old + 7 }
{
    match offset {
        Offset::Z => push_text(out, "Z"),
        Offset::Custom { minutes } => push_signed(out, minutes),
    }
}

/// The date, where there is one.
fn push_part_date<const CAP: usize>(out: &mut ArrayString<CAP>, date: Option<Date>)
    requires { array_string_len out.old + 13 ≤ CAP }
    ensures bytes { out.new.bytes ≡ out.old.bytes ++ part_text full_date_text date }
    ensures len { array_string_len out.new ≤ array_string_len out.old + 13 }
{
    if let Some(date) = date {
        push_date(out, date);
    }
}

/// `T`, where there are a date and a time.
fn push_delimiter<const CAP: usize>(
    out: &mut ArrayString<CAP>,
    date: Option<Date>,
    time: Option<Time>,
)
    requires { array_string_len out.old + 1 ≤ CAP }
    ensures bytes { out.new.bytes ≡ out.old.bytes ++ delimiter_text date time }
    ensures len { array_string_len out.new ≤ array_string_len out.old + 1 }
{
    match (date, time) {
        (Some(_), Some(_)) => push_text(out, "T"),
        (Some(_), None) => {}
        (None, _) => {}
    }
}

/// The time, where there is one.
fn push_part_time<const CAP: usize>(out: &mut ArrayString<CAP>, time: Option<Time>)
    requires { array_string_len out.old + 22 ≤ CAP }
    ensures bytes { out.new.bytes ≡ out.old.bytes ++ part_text partial_time_text time }
    ensures len { array_string_len out.new ≤ array_string_len out.old + 22 }
{
    if let Some(time) = time {
        push_time(out, time);
    }
}

/// The offset, where there is one.
fn push_part_offset<const CAP: usize>(out: &mut ArrayString<CAP>, offset: Option<Offset>)
    requires { array_string_len out.old + 7 ≤ CAP }
    ensures bytes { out.new.bytes ≡ out.old.bytes ++ part_text time_offset_text offset }
    ensures len { array_string_len out.new ≤ array_string_len out.old + 7 }
{
    if let Some(offset) = offset {
        push_offset(out, offset);
    }
}

/// `YYYY-MM-DD`.
pub(crate) fn date_text(date: Date) -> Short
    ensures bytes { result.bytes ≡ full_date_text date }
{
    let mut out = Short::new();
    push_date(&mut out, date);
    out
}

/// `HH:MM`, and perhaps seconds and a fraction.
pub(crate) fn time_text(time: Time) -> Short
    ensures bytes { result.bytes ≡ partial_time_text time }
{
    let mut out = Short::new();
    push_time(&mut out, time);
    out
}

/// `Z`, or a sign and `HH:MM`.
pub(crate) fn offset_text(offset: Offset) -> Short
    ensures bytes { result.bytes ≡ time_offset_text offset }
{
    let mut out = Short::new();
    push_offset(&mut out, offset);
    out
}

/// The parts that are there, with `T` between a date and a time.
#[tactic(auto, unfolding(crate::specs::Texts::text_of))]
pub(crate) fn push_datetime<const CAP: usize>(out: &mut ArrayString<CAP>, datetime: Datetime)
    requires { array_string_len out.old + 43 ≤ CAP }
    ensures bytes { out.new.bytes ≡ out.old.bytes ++ text_of datetime }
    ensures len { array_string_len out.new ≤ array_string_len out.old + 43 }
{
    push_part_date(out, datetime.date);
    push_delimiter(out, datetime.date, datetime.time);
    push_part_time(out, datetime.time);
    push_part_offset(out, datetime.offset);
}
