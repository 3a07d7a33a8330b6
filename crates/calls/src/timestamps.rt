//! The calls of `pg_timestamp`.
use crate::arguments::numbers;
use crate::named::named;
use crate::told::{Answer, printed, text, told};
use pg_timestamp::{Date, NoValue, Time, Timestamp, Value, read};
use scan_core::Short;
use std::alloc::Global;

/// A call of a table.
#[derive(Clone, Copy)]
enum Call {
    Read,
    Value,
    IsEqual,
    ValueOfDate,
    ValueOfTime,
    IsWithinBounds(Kind),
    PushText(Kind),
    Message,
}

/// A kind of value.
#[derive(Clone, Copy)]
enum Kind {
    Day,
    Local,
    Moment,
}

/// The calls by their names.
const CALLS: [(&str, Call); 12] = [
    ("read", Call::Read),
    ("value", Call::Value),
    ("is_equal", Call::IsEqual),
    ("value of a date", Call::ValueOfDate),
    ("value of a time", Call::ValueOfTime),
    ("is_within_bounds Day", Call::IsWithinBounds(Kind::Day)),
    ("is_within_bounds Local", Call::IsWithinBounds(Kind::Local)),
    (
        "is_within_bounds Moment",
        Call::IsWithinBounds(Kind::Moment),
    ),
    ("push_text Day", Call::PushText(Kind::Day)),
    ("push_text Local", Call::PushText(Kind::Local)),
    ("push_text Moment", Call::PushText(Kind::Moment)),
    ("message", Call::Message),
];

/// The refusals by their names.
const ERRORS: [(&str, NoValue); 2] = [
    ("NoSuchMoment", NoValue::NoSuchMoment),
    ("Range", NoValue::Range),
];

/// What the call answers, where its arguments are bytes.
pub fn answer(alloc: Global, call: &str, arguments: &[u8]) -> Answer {
    let of = str::from_utf8(arguments).ok();
    match named(&CALLS, call)? {
        Call::Read => told(alloc, &read(arguments)),
        Call::Value => told(alloc, &read(arguments)?.value()),
        Call::IsEqual => {
            let (a, b) = of?.split_once('|')?;
            told(alloc, &(read(a.as_bytes()) == read(b.as_bytes())))
        }
        Call::ValueOfDate => {
            let date = date_of(of?)?;
            told(alloc, &Timestamp { date, time: None }.value())
        }
        Call::ValueOfTime => {
            let time = Some(time_of(of?)?);
            told(alloc, &Timestamp { date: FIRST, time }.value())
        }
        Call::IsWithinBounds(kind) => told(alloc, &value_of(kind, of?)?.is_within_bounds()),
        Call::PushText(kind) => text(alloc, written(kind, of?)?.as_str()),
        Call::Message => printed(alloc, &named(&ERRORS, of?)?),
    }
}

/// The day from which values are counted.
const FIRST: Date = Date {
    year: 1970,
    month: 1,
    day: 1,
    bc: false,
};

/// The date of a year, a month and a day, and of 1 where it is before Christ.
fn date_of(arguments: &str) -> Option<Date> {
    let [year, month, day, bc] = numbers::<4>(arguments)?;
    Some(Date {
        year: u16::try_from(year).ok()?,
        month: u8::try_from(month).ok()?,
        day: u8::try_from(day).ok()?,
        bc: bc == 1,
    })
}

/// The time of an hour, a minute, a second, microseconds and the seconds of an offset, of which one that 32 bits don't hold is none.
fn time_of(arguments: &str) -> Option<Time> {
    let [hour, minute, second, micros, offset] = numbers::<5>(arguments)?;
    Some(Time {
        hour: u8::try_from(hour).ok()?,
        minute: u8::try_from(minute).ok()?,
        second: u8::try_from(second).ok()?,
        micros: u32::try_from(micros).ok()?,
        offset: i32::try_from(offset).ok(),
    })
}

/// The value of a kind with these numbers.
fn value_of(kind: Kind, arguments: &str) -> Option<Value> {
    match kind {
        Kind::Day => Some(Value::Day(arguments.parse::<i32>().ok()?)),
        Kind::Local => {
            let [day, micros] = numbers::<2>(arguments)?;
            Some(Value::Local {
                day: i32::try_from(day).ok()?,
                micros: u64::try_from(micros).ok()?,
            })
        }
        Kind::Moment => Some(Value::Moment(arguments.parse::<i64>().ok()?)),
    }
}

/// The text of a value within the bounds.
fn written(kind: Kind, arguments: &str) -> Option<Short> {
    let value = value_of(kind, arguments)?;
    if !value.is_within_bounds() {
        return None;
    }
    let mut out = Short::new();
    value.push_text(&mut out);
    Some(out)
}
