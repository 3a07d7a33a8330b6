//! The calls of `iso8601` that read a text.
ghost use Rattle.std.specs.Prelude.{◌≡◌, ◌<◌};

use crate::dos_words::fields_of;
use crate::iso_values::{self, DateOf, DisplayOf, OfValue, TextOf};
use crate::named::named;
use crate::told::{Answer, printed, text, told};
use iso8601::parsers::{parse_date, parse_datetime, parse_duration, parse_time};
use iso8601::{
    Date, DateTime, Duration, ParseFailed, Time, date, datetime, duration, duration_counted, time,
};
use scan_core::{Looked, Short, Steps};
use std::alloc::Global;
use std::fmt::Debug;
use std::marker::Brand;
use std::sync::ledger::{Blank, Ledger};
use std::time::Duration as StdDuration;

/// A call of a table.
#[derive(Clone, Copy)]
enum Call {
    ParseDate,
    ParseTime,
    ParseDatetime,
    ParseDuration,
    Message,
    Reader(Reader),
    Refused(Refused),
    Turn(Turn),
    OfValue(OfValue),
}

/// A call that reads a text, and answers the written text.
#[derive(Clone, Copy)]
enum Reader {
    Date,
    Time,
    Datetime,
    Duration,
    DurationCounted,
    DateFromStr,
    TimeFromStr,
    DatetimeFromStr,
    DurationFromStr,
}

/// A call that refuses a text.
#[derive(Clone, Copy)]
enum Refused {
    Date,
    Time,
    Datetime,
    Duration,
}

/// A call that turns what a text is read as.
#[derive(Clone, Copy)]
enum Turn {
    NaiveDate,
    NaiveTime,
    NaiveDatetime,
    FixedOffset,
    IsLocal,
    IsZero,
    Length,
}

/// The calls by their names.
const CALLS: [(&str, Call); 43] = [
    ("parse_date", Call::ParseDate),
    ("parse_time", Call::ParseTime),
    ("parse_datetime", Call::ParseDatetime),
    ("parse_duration", Call::ParseDuration),
    ("message", Call::Message),
    ("date", Call::Reader(Reader::Date)),
    ("time", Call::Reader(Reader::Time)),
    ("datetime", Call::Reader(Reader::Datetime)),
    ("duration", Call::Reader(Reader::Duration)),
    ("duration_counted", Call::Reader(Reader::DurationCounted)),
    ("Date::from_str", Call::Reader(Reader::DateFromStr)),
    ("Time::from_str", Call::Reader(Reader::TimeFromStr)),
    ("DateTime::from_str", Call::Reader(Reader::DatetimeFromStr)),
    ("Duration::from_str", Call::Reader(Reader::DurationFromStr)),
    ("date fails", Call::Refused(Refused::Date)),
    ("time fails", Call::Refused(Refused::Time)),
    ("datetime fails", Call::Refused(Refused::Datetime)),
    ("duration fails", Call::Refused(Refused::Duration)),
    ("Date::into_naive", Call::Turn(Turn::NaiveDate)),
    ("Time::into_naive", Call::Turn(Turn::NaiveTime)),
    ("DateTime::into_naive", Call::Turn(Turn::NaiveDatetime)),
    ("into_fixed_offset", Call::Turn(Turn::FixedOffset)),
    ("into_fixed_offset is local", Call::Turn(Turn::IsLocal)),
    ("is_zero", Call::Turn(Turn::IsZero)),
    ("length", Call::Turn(Turn::Length)),
    ("exists YMD", Call::OfValue(OfValue::Exists(DateOf::Ymd))),
    ("exists Week", Call::OfValue(OfValue::Exists(DateOf::Week))),
    (
        "exists Ordinal",
        Call::OfValue(OfValue::Exists(DateOf::Ordinal)),
    ),
    (
        "text YMD",
        Call::OfValue(OfValue::Text(TextOf::Date(DateOf::Ymd))),
    ),
    (
        "text Week",
        Call::OfValue(OfValue::Text(TextOf::Date(DateOf::Week))),
    ),
    (
        "text Ordinal",
        Call::OfValue(OfValue::Text(TextOf::Date(DateOf::Ordinal))),
    ),
    ("default", Call::OfValue(OfValue::Default)),
    ("offset of", Call::OfValue(OfValue::Offset)),
    (
        "text with set_tz",
        Call::OfValue(OfValue::Text(TextOf::Offset)),
    ),
    ("text Time", Call::OfValue(OfValue::Text(TextOf::Time))),
    (
        "display Time",
        Call::OfValue(OfValue::Display(DisplayOf::Time)),
    ),
    ("text YMDHMS", Call::OfValue(OfValue::Text(TextOf::Counts))),
    (
        "display YMDHMS",
        Call::OfValue(OfValue::Display(DisplayOf::Counts)),
    ),
    ("length YMDHMS", Call::OfValue(OfValue::LengthOfCounts)),
    ("text Weeks", Call::OfValue(OfValue::Text(TextOf::Weeks))),
    (
        "text of the longest",
        Call::OfValue(OfValue::Text(TextOf::Longest)),
    ),
    (
        "display of the longest",
        Call::OfValue(OfValue::Display(DisplayOf::Longest)),
    ),
    (
        "length of the longest",
        Call::OfValue(OfValue::LengthOfLongest),
    ),
];

/// What the call answers, where its arguments are bytes.
pub fn answer(alloc: Global, call: &str, arguments: &[u8]) -> Answer {
    let of = str::from_utf8(arguments).ok();
    match named(&CALLS, call)? {
        Call::ParseDate => front(alloc, parse_date(arguments)),
        Call::ParseTime => front(alloc, parse_time(arguments)),
        Call::ParseDatetime => front(alloc, parse_datetime(arguments)),
        Call::ParseDuration => front(alloc, parse_duration(arguments)),
        Call::Message => printed(alloc, &ParseFailed),
        Call::Reader(call) => match read(call, of?) {
            Ok(written) => text(alloc, written.as_str()),
            Err(failed) => told(alloc, &failed),
        },
        Call::Refused(call) => told(alloc, &fails(call, of?)?),
        Call::Turn(call) => turned(alloc, call, of?),
        Call::OfValue(call) => iso_values::answer(alloc, call, of?),
    }
}

/// The value of the front that was read, and how many bytes are left.
fn front<T: Copy + Debug>(alloc: Global, answer: Result<(&[u8], T), ParseFailed>) -> Answer {
    match answer {
        Ok((rest, value)) => {
            let left = rest.len();
            Some(format!(in alloc; "{value:?} and {left} left"))
        }
        Err(failed) => told(alloc, &failed),
    }
}

/// The written text of what a text is read as.
fn read(call: Reader, of: &str) -> Result<Short, ParseFailed> {
    Ok(match call {
        Reader::Date => date(of)?.text(),
        Reader::Time => time(of)?.text(),
        Reader::Datetime => datetime(of)?.text(),
        Reader::Duration => duration(of)?.text(),
        Reader::DurationCounted => counted(of)?.text(),
        Reader::DateFromStr => of.parse::<Date>()?.text(),
        Reader::TimeFromStr => of.parse::<Time>()?.text(),
        Reader::DatetimeFromStr => of.parse::<DateTime>()?.text(),
        Reader::DurationFromStr => of.parse::<Duration>()?.text(),
    })
}

/// The refusal of a text.
fn fails(call: Refused, of: &str) -> Option<ParseFailed> {
    match call {
        Refused::Date => date(of).err(),
        Refused::Time => time(of).err(),
        Refused::Datetime => datetime(of).err(),
        Refused::Duration => duration(of).err(),
    }
}

/// The calls that turn what a text is read as.
fn turned(alloc: Global, call: Turn, of: &str) -> Answer {
    match call {
        Turn::NaiveDate => {
            let day = of.parse::<Date>().ok()?.into_naive();
            told(alloc, &day.map(|day| (day.year(), day.month(), day.day())))
        }
        Turn::NaiveTime => {
            let clock = of.parse::<Time>().ok()?.into_naive();
            told(
                alloc,
                &clock.map(|c| (c.hour(), c.minute(), c.second(), c.subsec_nanosecond())),
            )
        }
        Turn::NaiveDatetime => {
            let moment = of.parse::<DateTime>().ok()?;
            told(alloc, &moment.into_naive().map(fields_of))
        }
        Turn::FixedOffset => {
            let moment = of.parse::<DateTime>().ok()?;
            told(
                alloc,
                &moment.into_fixed_offset().map(|fixed| fixed.offset_seconds),
            )
        }
        Turn::IsLocal => {
            let moment = of.parse::<DateTime>().ok()?;
            let local = moment.into_fixed_offset().map(|fixed| fixed.local);
            told(alloc, &(local == moment.into_naive()))
        }
        Turn::IsZero => told(alloc, &of.parse::<Duration>().ok()?.is_zero()),
        Turn::Length => {
            let length = StdDuration::from(of.parse::<Duration>().ok()?);
            told(alloc, &length.as_nanos())
        }
    }
}

/// The duration that a whole text is read as by counted looks.
fn counted(text: &str) -> Result<Duration, ParseFailed> {
    counted_alone::<Brand>(&Looked::new(text), Blank::new(1))
}

/// The same with a counter of its own.
fn counted_alone<L: Ledger>(text: &Looked<'_>, blank: Blank) -> Result<Duration, ParseFailed>
    requires name { blank.name ≡ L.name }
    requires parts { blank.parts ≡ L.parts }
    requires some { 0 < L.parts }
{
    duration_counted(text, &mut Steps::<L>::new(blank))
}
