//! The parser of dates: calendar, week and ordinal dates (ISO 8601-1:2019, 5.2).
ghost use Rattle.std.specs.Prelude.{◌≡◌, IfOk, IfErr, option_map};
ghost use Rattle.iso8601.specs.Dates.{IsDate};
ghost use Rattle.iso8601.specs.Prefixes.{Begins, NoneLonger, NoneBegins};
ghost use Rattle.iso8601.specs.inside.Reading.{read_date, read_day, read_month_day, read_ordinal_day, read_week_day};

use super::front::{after, split_field, split_marked, split_year, strip};
use crate::types::{Date, ParseFailed};

/// A month, perhaps a hyphen, and a day.
#[tactic(auto, unfolding(crate::specs::inside::Reading::read_month_day))]
fn split_month_day(year: i32, bytes: &[u8]) -> Option<(Date, &[u8])>
    ensures { option_map (λ r. (r.0, r.1.now)) result ≡ read_month_day year bytes.now }
{
    let (month, rest) = split_field(bytes, 2, 1, 12)?;
    let (day, rest) = split_marked(b'-', rest, 2, 1, 31)?;
    Some((Date::YMD { year, month, day }, rest))
}

/// `W`, a week, perhaps a hyphen, and a day.
#[tactic(auto, unfolding(crate::specs::inside::Reading::read_week_day))]
fn split_week_day(year: i32, bytes: &[u8]) -> Option<(Date, &[u8])>
    ensures { option_map (λ r. (r.0, r.1.now)) result ≡ read_week_day year bytes.now }
{
    let week = strip(b'W', bytes)?;
    let (ww, rest) = split_field(week, 2, 1, 53)?;
    let (d, rest) = split_marked(b'-', rest, 1, 1, 7)?;
    Some((Date::Week { year, ww, d }, rest))
}

/// A day by its number.
#[tactic(auto, unfolding(crate::specs::inside::Reading::read_ordinal_day))]
fn split_ordinal_day(year: i32, bytes: &[u8]) -> Option<(Date, &[u8])>
    ensures { option_map (λ r. (r.0, r.1.now)) result ≡ read_ordinal_day year bytes.now }
{
    let (ddd, rest) = split_field(bytes, 3, 1, 366)?;
    Some((Date::Ordinal { year, ddd }, rest))
}

/// A day of any kind: where two stand in front, the one with a month is longer.
#[inline(always)] // an answer of five words would go through memory
#[tactic(auto, unfolding(crate::specs::inside::Reading::read_day))]
fn split_day(year: i32, bytes: &[u8]) -> Option<(Date, &[u8])>
    ensures { option_map (λ r. (r.0, r.1.now)) result ≡ read_day year bytes.now }
{
    if let Some(found) = split_week_day(year, bytes) {
        return Some(found);
    }
    if let Some(found) = split_month_day(year, bytes) {
        return Some(found);
    }
    split_ordinal_day(year, bytes)
}

/// The date in front, and what follows it.
#[inline(always)] // an answer of five words would go through memory
#[tactic(auto, unfolding(crate::specs::inside::Reading::read_date))]
pub(crate) fn split_date(bytes: &[u8]) -> Option<(Date, &[u8])>
    ensures { option_map (λ r. (r.0, r.1.now)) result ≡ read_date bytes.now }
{
    let (year, rest) = split_year(bytes)?;
    split_day(year, after(b'-', rest))
}

/// The date that the longest prefix of the bytes writes, and what follows the prefix.
///
/// A date is a year of four digits, perhaps with a sign, then a month and a day, a week and its day, or a day of the
/// year; each hyphen may be left out. `ParseFailed` exactly where no prefix is a date. That the day exists isn't asked.
///
/// `parse_date(b"2015-123 ")` is ordinal day 123 of 2015 and the rest ` `; `20151302` is ordinal day 130 and the rest
/// `2`.
pub fn parse_date(i: &[u8]) -> Result<(&[u8], Date), ParseFailed>
    ensures found { IfOk result (λ r. Begins IsDate i.now r.1 r.0.now) }
    ensures longest { IfOk result (λ r. NoneLonger IsDate i.now r.0.now) }
    ensures none { IfErr result (λ e. NoneBegins IsDate i.now) }
{
    match split_date(i) {
        Some(found) => Ok((found.1, found.0)),
        None => Err(ParseFailed),
    }
}
