//! What the written texts of both kinds have in common: all but the zone.
ghost use Rattle.std.specs.Prelude.{◌≡◌, ◌+◌, ◌<◌, ◌≤◌, ◌++◌, codes, IsSome, IfSome};
ghost use Rattle.arrayvec.specs.ArrayString.{array_string_len};
ghost use Rattle.scan_core.specs.Padded.{padded_digits};
ghost use Rattle.internet_dates.specs.DateTimes.{IsRealMoment};
ghost use Rattle.internet_dates.specs.Names.{month_name};
ghost use Rattle.internet_dates.specs.Written.{full_clock_text, named_date_text, moment_text, weekday_text};

use crate::date_time::DateTime;
use crate::names::{day_front, month_between};
use arrayvec::ArrayString;
use scan_core::{push_padded, push_text, push_two};

/// The name of a day, where there is one, with the comma and the blank behind it.
#[tactic(auto, using(crate::proofs::WrittenFacts::length_day_name))]
#[inline(always)]
fn push_weekday<const CAP: usize>(out: &mut ArrayString<CAP>, weekday: Option<u8>)
    requires some { IsSome weekday }
    requires weekday { IfSome weekday (λ weekday. weekday < 7) }
    requires room { array_string_len out.old + 5 ≤ CAP }
    ensures bytes { out.new.bytes ≡ out.old.bytes ++ (weekday_text weekday ++ codes ", ") }
    ensures len { array_string_len out.new ≡ array_string_len out.old + 5 }
{
    match weekday {
        Some(weekday) => push_text(out, day_front(weekday)),
        None => {}
    }
}

/// The name of a month between two blanks.
#[tactic(auto, using(crate::proofs::WrittenFacts::length_month_name))]
#[inline(always)]
fn push_month_name<const CAP: usize>(out: &mut ArrayString<CAP>, month: u8)
    requires least { 1 ≤ month }
    requires most { month ≤ 12 }
    requires room { array_string_len out.old + 5 ≤ CAP }
    ensures bytes { out.new.bytes
        ≡ out.old.bytes ++ (codes " " ++ (month_name month ++ codes " ")) }
    ensures len { array_string_len out.new ≡ array_string_len out.old + 5 }
{
    push_text(out, month_between(month));
}

/// A year in four digits.
#[inline(always)]
#[tactic(auto, using(crate::proofs::WrittenFacts::length_year))]
fn push_year<const CAP: usize>(out: &mut ArrayString<CAP>, year: u16)
    requires value { year ≤ 9999 }
    requires room { array_string_len out.old + 4 ≤ CAP }
    ensures bytes { out.new.bytes ≡ out.old.bytes ++ padded_digits 4 year }
    ensures len { array_string_len out.new ≡ array_string_len out.old + 4 }
{
    push_padded(out, u64::from(year), 4);
}

/// A time of day.
#[tactic(auto, unfolding(crate::specs::Written::full_clock_text))]
#[inline(always)]
fn push_clock<const CAP: usize>(out: &mut ArrayString<CAP>, hour: u8, minute: u8, second: u8)
    requires hour { hour < 100 }
    requires minute { minute < 100 }
    requires second { second < 100 }
    requires room { array_string_len out.old + 8 ≤ CAP }
    ensures bytes { out.new.bytes ≡ out.old.bytes ++ full_clock_text hour minute second }
    ensures len { array_string_len out.new ≡ array_string_len out.old + 8 }
{
    push_two(out, u64::from(hour));
    push_text(out, ":");
    push_two(out, u64::from(minute));
    push_text(out, ":");
    push_two(out, u64::from(second));
}

/// The date.
#[tactic(auto, using(crate::proofs::DayFacts::name_small, crate::proofs::WrittenFacts::most_days), unfolding(crate::specs::Written::named_date_text))]
#[inline(always)]
fn push_date<const CAP: usize>(out: &mut ArrayString<CAP>, t: &DateTime)
    requires named { IsSome t.now.weekday }
    requires real { IsRealMoment t.now }
    requires room { array_string_len out.old + 16 ≤ CAP }
    ensures bytes { out.new.bytes ≡ out.old.bytes ++ named_date_text t.now }
    ensures len { array_string_len out.new ≡ array_string_len out.old + 16 }
{
    push_weekday(out, t.weekday);
    push_two(out, u64::from(t.day));
    push_month_name(out, t.month);
    push_year(out, t.year);
}

/// The date and the time, all but the zone.
#[tactic(auto, unfolding(crate::specs::Written::moment_text))]
#[inline(always)]
pub(crate) fn push_moment<const CAP: usize>(out: &mut ArrayString<CAP>, t: &DateTime)
    requires named { IsSome t.now.weekday }
    requires real { IsRealMoment t.now }
    requires room { array_string_len out.old + 25 ≤ CAP }
    ensures bytes { out.new.bytes ≡ out.old.bytes ++ moment_text t.now }
    ensures len { array_string_len out.new ≡ array_string_len out.old + 25 }
{
    push_date(out, t);
    push_text(out, " ");
    push_clock(out, t.hour, t.minute, t.second);
}
