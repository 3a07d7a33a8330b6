//! The calls of `port_toml_datetime`.
use crate::arguments::word_and_text;
use crate::named::named;
use crate::told::{Answer, printed, text, told};
use port_toml_datetime::{Date, Datetime, Offset, Time};
use std::alloc::Global;
use std::str::FromStr;

/// A call of a table.
#[derive(Clone, Copy)]
enum Call {
    Value,
    Said,
    Text,
    IsReadBack,
    What,
    Expected,
    IsLess,
    IsEqual,
    DisplayDate,
    DisplayTime,
    DisplayOffset,
    TextOfParts,
    DisplayOfParts,
    FromDate,
    FromTime,
}

/// The calls by their names.
const CALLS: [(&str, Call); 15] = [
    ("value", Call::Value),
    ("said", Call::Said),
    ("text", Call::Text),
    ("text is read back", Call::IsReadBack),
    ("what", Call::What),
    ("expected", Call::Expected),
    ("is_less", Call::IsLess),
    ("is_equal", Call::IsEqual),
    ("display Date", Call::DisplayDate),
    ("display Time", Call::DisplayTime),
    ("display Offset", Call::DisplayOffset),
    ("text of parts", Call::TextOfParts),
    ("display of parts", Call::DisplayOfParts),
    ("Datetime::from Date", Call::FromDate),
    ("Datetime::from Time", Call::FromTime),
];

/// What the call answers.
pub fn answer(alloc: Global, call: &str, arguments: &str) -> Answer {
    match named(&CALLS, call)? {
        Call::Value => told(alloc, &Datetime::from_str(arguments).ok()),
        Call::Said => match Datetime::from_str(arguments) {
            Ok(value) => printed(alloc, &value),
            Err(error) => printed(alloc, &error),
        },
        Call::Text => text(alloc, Datetime::from_str(arguments).ok()?.text().as_str()),
        Call::IsReadBack => {
            let value = Datetime::from_str(arguments).ok()?;
            let again = Datetime::from_str(value.text().as_str());
            told(alloc, &(again == Ok(value)))
        }
        Call::What => told(alloc, &Datetime::from_str(arguments).err()?.what()),
        Call::Expected => told(alloc, &Datetime::from_str(arguments).err()?.expected()),
        Call::IsLess => {
            let (a, b) = two_of(arguments)?;
            told(alloc, &(a < b))
        }
        Call::IsEqual => {
            let (a, b) = two_of(arguments)?;
            told(alloc, &(a == b))
        }
        Call::DisplayDate => printed(alloc, &date_of(arguments)?),
        Call::DisplayTime => printed(alloc, &time_of(arguments)?),
        Call::DisplayOffset => printed(alloc, &offset_of(arguments)?),
        Call::TextOfParts => text(alloc, parts_of(arguments)?.text().as_str()),
        Call::DisplayOfParts => printed(alloc, &parts_of(arguments)?),
        Call::FromDate => told(alloc, &Datetime::from(date_of(arguments)?)),
        Call::FromTime => told(alloc, &Datetime::from(time_of(arguments)?)),
    }
}

/// The date-times of two texts.
fn two_of(arguments: &str) -> Option<(Datetime, Datetime)> {
    let (a, b) = word_and_text(arguments)?;
    Some((Datetime::from_str(a).ok()?, Datetime::from_str(b).ok()?))
}

/// The date-time of a date, a time and an offset with a comma between, each of which may be missing.
fn parts_of(arguments: &str) -> Option<Datetime> {
    let (date, rest) = arguments.split_once(',')?;
    let (time, offset) = rest.split_once(',')?;
    Some(Datetime {
        date: date_of(date),
        time: time_of(time),
        offset: offset_of(offset),
    })
}

/// The date of a year, a month and a day.
fn date_of(arguments: &str) -> Option<Date> {
    let mut words = arguments.split(' ');
    Some(Date {
        year: words.next()?.parse::<u16>().ok()?,
        month: words.next()?.parse::<u8>().ok()?,
        day: words.next()?.parse::<u8>().ok()?,
    })
}

/// The time of an hour, a minute, a second and a nanosecond, of which the last two may be `-` for None.
fn time_of(arguments: &str) -> Option<Time> {
    let mut words = arguments.split(' ');
    Some(Time {
        hour: words.next()?.parse::<u8>().ok()?,
        minute: words.next()?.parse::<u8>().ok()?,
        second: words.next()?.parse::<u8>().ok(),
        nanosecond: words.next()?.parse::<u32>().ok(),
    })
}

/// The offset of minutes, or `Z`.
fn offset_of(arguments: &str) -> Option<Offset> {
    if arguments == "Z" {
        return Some(Offset::Z);
    }
    Some(Offset::Custom {
        minutes: arguments.parse::<i16>().ok()?,
    })
}
