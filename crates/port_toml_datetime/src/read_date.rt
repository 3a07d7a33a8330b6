//! Dates, from behind the `-` that follows the year. The checks stand in the order of the table.
ghost use Rattle.std.specs.Prelude.{◌≡◌, pos, Ok, Err, codes, IfOk, IfErr};
ghost use Rattle.scan_core.specs.Digits.{AreDigits};
ghost use Rattle.scan_core.specs.Calendar.{days_in_month, is_leap_year};
ghost use Rattle.port_toml_datetime.specs.Faults.{fault};
ghost use Rattle.port_toml_datetime.specs.inside.Words.{words_of};
ghost use Rattle.port_toml_datetime.specs.Checks.{date_outcome, day_words};
ghost use Rattle.port_toml_datetime.specs.Tokens.{after};

use crate::Date;
use crate::error::{Check, DatetimeParseError};
use crate::numbers::four_digits;
use crate::scan::{check, mark, read_field};

/// Whether the year has a 29 February.
fn is_leap_year(year: u16) -> bool
    ensures { result ≡ is_leap_year (pos year) }
{
    year % 4 == 0 && (year % 100 != 0 || year % 400 == 0)
}

/// How many days the month has.
fn days_in_month(year: u16, month: u8) -> u8
    ensures { result ≡ days_in_month (pos year) month }
{
    match month {
        2 if is_leap_year(year) => 29,
        2 => 28,
        4 | 6 | 9 | 11 => 30,
        _ => 31,
    }
}

/// The check that the day is one of so many.
#[tactic(auto, unfolding(crate::specs::Checks::day_words))]
fn day_check(days: u8) -> Check
    ensures { words_of result ≡ fault (codes "date") (day_words days) }
{
    match days {
        28 => Check::DayTo28,
        29 => Check::DayTo29,
        30 => Check::DayTo30,
        _ => Check::DayTo31,
    }
}

/// A date, from behind the `-` that follows the year.
#[tactic(auto, unfolding(crate::specs::Checks::checked, crate::specs::Checks::date_outcome))]
pub(crate) fn read_date<'a>(
    year: &[u8],
    bytes: &'a [u8],
) -> Result<(Date, &'a [u8]), DatetimeParseError>
    requires { AreDigits year.now }
    ensures date { IfOk result (λ r. date_outcome year.now bytes.now ≡ Ok r.0) }
    ensures rest { IfOk result (λ r. r.1.now ≡ after 3 bytes.now) }
    ensures err { IfErr result (λ e. date_outcome year.now bytes.now ≡ Err e) }
{
    let (month, bytes) = read_field(bytes, Check::Month)?;
    let bytes = mark(b'-', bytes, Check::MonthMark)?;
    let (day, bytes) = read_field(bytes, Check::Day)?;
    check(year.len() == 4, Check::YearWidth)?;
    check(month.is_two, Check::MonthWidth)?;
    check(day.is_two, Check::DayWidth)?;
    let year = four_digits(year);
    let month = month.number;
    let day = day.number;
    check(1 <= month && month <= 12, Check::MonthRange)?;
    let days = days_in_month(year, month);
    check(1 <= day && day <= days, day_check(days))?;
    Ok((Date { year, month, day }, bytes))
}
