//! The calls of `iso8601` on values that are given by their fields.
use crate::arguments::numbers;
use crate::named::named;
use crate::told::{Answer, printed, text, told};
use iso8601::{Date, DateTime, Duration, Time};
use scan_core::Short;
use std::alloc::Global;
use std::time::Duration as StdDuration;

/// A call of a value.
#[derive(Clone, Copy)]
pub enum OfValue {
    Exists(DateOf),
    Text(TextOf),
    Display(DisplayOf),
    Default,
    Offset,
    LengthOfCounts,
    LengthOfLongest,
}

/// The fields of a date.
#[derive(Clone, Copy)]
pub enum DateOf {
    Ymd,
    Week,
    Ordinal,
}

/// The value whose text is asked for.
#[derive(Clone, Copy)]
pub enum TextOf {
    Date(DateOf),
    Time,
    Offset,
    Counts,
    Weeks,
    Longest,
}

/// The value that is printed.
#[derive(Clone, Copy)]
pub enum DisplayOf {
    Time,
    Counts,
    Longest,
}

/// A type with a default.
#[derive(Clone, Copy)]
enum ValueType {
    Date,
    Time,
    DateTime,
    Duration,
}

/// The types by their names.
const TYPES: [(&str, ValueType); 4] = [
    ("Date", ValueType::Date),
    ("Time", ValueType::Time),
    ("DateTime", ValueType::DateTime),
    ("Duration", ValueType::Duration),
];

/// The date-time with the longest text.
const LONGEST: DateTime = DateTime {
    date: Date::Week {
        year: i32::MIN,
        ww: u32::MAX,
        d: u32::MAX,
    },
    time: Time {
        hour: u32::MAX,
        minute: u32::MAX,
        second: u32::MAX,
        millisecond: u32::MAX,
        tz_offset_hours: i32::MIN,
        tz_offset_minutes: i32::MAX,
    },
};

/// What the call answers.
pub fn answer(alloc: Global, call: OfValue, fields: &str) -> Answer {
    match call {
        OfValue::Exists(of) => told(alloc, &date_of(of, fields)?.exists()),
        OfValue::Text(of) => text(alloc, text_of(of, fields)?.as_str()),
        OfValue::Display(of) => display(alloc, of, fields),
        OfValue::Default => default(alloc, named(&TYPES, fields)?),
        OfValue::Offset => {
            let date = Date::Ordinal { year: 2023, ddd: 1 };
            let time = Time::default().set_tz(pair_of(fields)?);
            let moment = DateTime { date, time }.into_fixed_offset();
            told(alloc, &moment.map(|fixed| fixed.offset_seconds))
        }
        OfValue::LengthOfCounts => {
            let length = StdDuration::from(counts(fields)?);
            told(alloc, &(length.as_secs(), length.subsec_nanos()))
        }
        OfValue::LengthOfLongest => told(alloc, &LONGEST.text().len()),
    }
}

/// The text of a value.
fn text_of(of: TextOf, fields: &str) -> Option<Short> {
    Some(match of {
        TextOf::Date(of) => date_of(of, fields)?.text(),
        TextOf::Time => clock(fields)?.text(),
        TextOf::Offset => Time::default().set_tz(pair_of(fields)?).text(),
        TextOf::Counts => counts(fields)?.text(),
        TextOf::Weeks => Duration::Weeks(fields.parse::<u32>().ok()?).text(),
        TextOf::Longest => LONGEST.text(),
    })
}

/// A value, as it prints.
fn display(alloc: Global, of: DisplayOf, fields: &str) -> Answer {
    match of {
        DisplayOf::Time => printed(alloc, &clock(fields)?),
        DisplayOf::Counts => printed(alloc, &counts(fields)?),
        DisplayOf::Longest => printed(alloc, &LONGEST),
    }
}

/// The default of a type, as it prints.
fn default(alloc: Global, of: ValueType) -> Answer {
    match of {
        ValueType::Date => printed(alloc, &Date::default()),
        ValueType::Time => printed(alloc, &Time::default()),
        ValueType::DateTime => printed(alloc, &DateTime::default()),
        ValueType::Duration => printed(alloc, &Duration::default()),
    }
}

/// The date of a year and its further fields.
fn date_of(of: DateOf, fields: &str) -> Option<Date> {
    match of {
        DateOf::Ymd => calendar_date(fields),
        DateOf::Week => week_date(fields),
        DateOf::Ordinal => ordinal_date(fields),
    }
}

/// The calendar date of a year, a month and a day.
fn calendar_date(arguments: &str) -> Option<Date> {
    let [year, month, day] = numbers::<3>(arguments)?;
    Some(Date::YMD {
        year: i32::try_from(year).ok()?,
        month: u32::try_from(month).ok()?,
        day: u32::try_from(day).ok()?,
    })
}

/// The week date of a year, a week and a day.
fn week_date(arguments: &str) -> Option<Date> {
    let [year, ww, d] = numbers::<3>(arguments)?;
    Some(Date::Week {
        year: i32::try_from(year).ok()?,
        ww: u32::try_from(ww).ok()?,
        d: u32::try_from(d).ok()?,
    })
}

/// The ordinal date of a year and a day.
fn ordinal_date(arguments: &str) -> Option<Date> {
    let [year, ddd] = numbers::<2>(arguments)?;
    Some(Date::Ordinal {
        year: i32::try_from(year).ok()?,
        ddd: u32::try_from(ddd).ok()?,
    })
}

/// The time of an hour, a minute, a second and a millisecond, in UTC.
fn clock(arguments: &str) -> Option<Time> {
    let [hour, minute, second, millisecond] = numbers::<4>(arguments)?;
    Some(Time {
        hour: u32::try_from(hour).ok()?,
        minute: u32::try_from(minute).ok()?,
        second: u32::try_from(second).ok()?,
        millisecond: u32::try_from(millisecond).ok()?,
        ..Time::default()
    })
}

/// The duration of seven counts.
fn counts(arguments: &str) -> Option<Duration> {
    let [year, month, day, hour, minute, second, millisecond] = numbers::<7>(arguments)?;
    Some(Duration::YMDHMS {
        year: u32::try_from(year).ok()?,
        month: u32::try_from(month).ok()?,
        day: u32::try_from(day).ok()?,
        hour: u32::try_from(hour).ok()?,
        minute: u32::try_from(minute).ok()?,
        second: u32::try_from(second).ok()?,
        millisecond: u32::try_from(millisecond).ok()?,
    })
}

/// The hours and minutes of an offset.
fn pair_of(arguments: &str) -> Option<(i32, i32)> {
    let [hours, minutes] = numbers::<2>(arguments)?;
    Some((i32::try_from(hours).ok()?, i32::try_from(minutes).ok()?))
}
