//! The instant that lies so many steps behind a start.
ghost use Rattle.std.specs.Prelude.{◌≡◌, ◌↔◌, ◌^◌, ℤ, pos, ◌+ℤ◌, ◌*ℤ◌, Option as AnyOption, IsSome, IfSome, IsTrue};
ghost use Rattle.std.specs.Option.{option_copied};
ghost use Rattle.jiff.specs.Words.{epoch_day, IsWithin, IsYear, IsCivilNanos};
ghost use Rattle.jiff_core.specs.DateTime.{civil_nanos};
ghost use Rattle.jiff_core.specs.Time.{time_nanos};
ghost use Rattle.jiff_span.specs.Months.{add_months, IsShiftable};
ghost use Rattle.recurrence.specs.Instants.{nanos_of, IsAt};
ghost use Rattle.recurrence.specs.inside.Steps.{AreCalendarDates, at_from, at_start, civil_or_none, is_civil_instant, months_of};

use jiff_core::civil;
use jiff_span::date::add_months;
use pg_interval_2::Interval;

/// The instant that lies k steps behind the start, in nanoseconds since 1970-01-01 in UTC.
pub fn at(start: i128, step: Interval, k: u32) -> Option<i128>
    ensures { (answer : AnyOption ℤ) → (result ≡ answer) ↔ IsAt start step k answer }
{
    civil_dates_are_calendar_dates();
    at_start(civil_of(start), step, k)
}

/// Civil dates are the calendar's dates of the years -9999 to 9999.
pub(crate) fn civil_dates_are_calendar_dates()
    ensures { AreCalendarDates }
{
    iso8601::laws::civil_dates_are_calendar_dates();
    iso8601::laws::years_and_weeks_follow_each_other();
}

/// The civil date-time of an instant.
pub(crate) fn civil_of(start: i128) -> Option<civil::DateTime>
    ensures some { IsSome result ↔ IsCivilNanos start }
    ensures value { IfSome result (λ c. civil_nanos c ≡ start) }
{
    civil::DateTime::from_nanosecond(start).ok()
}

/// The instant that lies k steps behind a start.
pub(crate) fn at_start(start: Option<civil::DateTime>, step: Interval, k: u32) -> Option<i128>
    ensures { result ≡ at_start start step k }
{
    match start {
        Some(civil) => at_from(civil, step, k),
        None => None,
    }
}

/// The instant that lies k steps behind a civil date-time.
fn at_from(civil: civil::DateTime, step: Interval, k: u32) -> Option<i128>
    ensures { result ≡ at_from civil step k }
{
    match date_after(civil.date, months_of(step, k)) {
        Some(date) => civil_or_none(moved_from(date, civil.time, nanos_of(step, k))),
        None => None,
    }
}

/// A product that fits.
fn times(k: u32, n: i64) -> i128
    ensures value { result ≡ pos k *ℤ n }
    ensures bound { IsWithin (2 ^ 95) result }
{
    k as i128 * n as i128
}

/// So many times the months of a step.
fn months_of(step: Interval, k: u32) -> i128
    ensures value { result ≡ months_of step k }
    ensures bound { IsWithin (2 ^ 95) result }
{
    times(k, step.months as i64)
}

/// The instant of a date and a time of day, so many nanoseconds later.
fn moved_from(date: civil::Date, time: civil::Time, nanos: i128) -> i128
    requires { IsWithin (2 ^ 120) nanos }
    ensures value { result
        ≡ (epoch_day date *ℤ pos 86_400_000_000_000 +ℤ pos (time_nanos time)) +ℤ nanos }
    ensures bound { IsWithin (2 ^ 121) result }
{
    instant_of(date, time) + nanos
}

/// So many times the days and microseconds of a step, in nanoseconds.
fn nanos_of(step: Interval, k: u32) -> i128
    ensures value { result ≡ nanos_of step k }
    ensures bound { IsWithin (2 ^ 120) result }
{
    in_nanos(times(k, step.days as i64), times(k, step.microseconds))
}

/// Days and microseconds in nanoseconds.
fn in_nanos(days: i128, microseconds: i128) -> i128
    requires days { IsWithin (2 ^ 64) days }
    requires microseconds { IsWithin (2 ^ 95) microseconds }
    ensures value { result ≡ days *ℤ pos 86_400_000_000_000 +ℤ microseconds *ℤ pos 1000 }
    ensures bound { IsWithin (2 ^ 120) result }
{
    days * 86_400_000_000_000 + microseconds * 1000
}

/// The date that lies so many months later, with its day held within the month, where its year is a civil one.
fn date_after(date: civil::Date, months: i128) -> Option<civil::Date>
    ensures some { IsSome result ↔ IsShiftable date months }
    ensures value { IfSome result (λ d. epoch_day d ≡ add_months date months) }
{
    if months.unsigned_abs() > 500_000 {
        return None;
    }
    add_months(date, months as i32).ok()
}

/// The instant of a date and a time of day.
fn instant_of(date: civil::Date, time: civil::Time) -> i128
    ensures value { result ≡ epoch_day date *ℤ pos 86_400_000_000_000 +ℤ pos (time_nanos time) }
    ensures bound { IsWithin (2 ^ 120) result }
{
    civil::DateTime { date, time }.to_nanosecond()
}

/// The instant, where it is a civil one.
#[tactic(auto, unfolding(crate::specs::inside::Steps::civil_or_none))]
fn civil_or_none(instant: i128) -> Option<i128>
    ensures { result ≡ civil_or_none instant }
{
    if is_civil_instant(instant) {
        Some(instant)
    } else {
        None
    }
}

/// Whether an instant is one of the years -9999 to 9999.
fn is_civil_instant(instant: i128) -> bool
    ensures { result ≡ is_civil_instant instant }
{
    instant >= -377_705_116_800_000_000_000 && instant <= 253_402_300_799_999_999_999
}
