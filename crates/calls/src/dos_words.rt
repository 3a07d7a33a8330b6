//! The calls of `dos_date`.
use crate::arguments::numbers;
use crate::named::named;
use crate::told::{Answer, printed, told};
use dos_date::{Date, DateTime, DosRangeErrorKind, Time};
use jiff::civil;
use std::alloc::Global;

/// A call of a table.
#[derive(Clone, Copy)]
enum Call {
    DateFromRaw,
    TimeFromRaw,
    FromRaw,
    Min,
    Max,
    ToCivil,
    Display,
    Parts,
    FromCivil,
    Message,
    MessageOfKind,
    IsLess,
}

/// The calls by their names.
const CALLS: [(&str, Call); 12] = [
    ("Date::from_raw", Call::DateFromRaw),
    ("Time::from_raw", Call::TimeFromRaw),
    ("DateTime::from_raw", Call::FromRaw),
    ("MIN", Call::Min),
    ("MAX", Call::Max),
    ("to_civil", Call::ToCivil),
    ("display", Call::Display),
    ("parts", Call::Parts),
    ("from_civil", Call::FromCivil),
    ("message", Call::Message),
    ("message of kind", Call::MessageOfKind),
    ("is_less", Call::IsLess),
];

/// What the call answers.
pub fn answer(alloc: Global, call: &str, arguments: &str) -> Answer {
    match named(&CALLS, call)? {
        Call::DateFromRaw => told(
            alloc,
            &Date::from_raw(word_of(arguments)?).map(|d| d.to_raw()),
        ),
        Call::TimeFromRaw => told(
            alloc,
            &Time::from_raw(word_of(arguments)?).map(|t| t.to_raw()),
        ),
        Call::FromRaw => told(alloc, &words(date_time_of(arguments))),
        Call::Min => told(alloc, &words(Some(DateTime::MIN))),
        Call::Max => told(alloc, &words(Some(DateTime::MAX))),
        Call::ToCivil => told(alloc, &fields_of(date_time_of(arguments)?.to_civil())),
        Call::Display => printed(alloc, &date_time_of(arguments)?),
        Call::Parts => {
            let dos = date_time_of(arguments)?;
            told(alloc, &(dos.date().to_raw(), dos.time().to_raw()))
        }
        Call::FromCivil => told(alloc, &from_civil(arguments)?),
        Call::Message => printed(alloc, &DateTime::from_civil(civil_of(arguments)?).err()?),
        Call::MessageOfKind => printed(alloc, &from_civil(arguments)?.err()?),
        Call::IsLess => {
            let [a, b, c, d] = numbers::<4>(arguments)?;
            told(alloc, &(of_numbers([a, b])? < of_numbers([c, d])?))
        }
    }
}

/// The words of a civil date-time, or the kind of its refusal.
fn from_civil(arguments: &str) -> Option<Result<(u16, u16), DosRangeErrorKind>> {
    Some(match DateTime::from_civil(civil_of(arguments)?) {
        Ok(dos) => Ok((dos.date_raw(), dos.time_raw())),
        Err(error) => Err(error.kind()),
    })
}

/// The two words of a date-time.
fn words(dos: Option<DateTime>) -> Option<(u16, u16)> {
    dos.map(|dos| (dos.date_raw(), dos.time_raw()))
}

/// The date-time of two words.
pub fn date_time_of(arguments: &str) -> Option<DateTime> {
    of_numbers(numbers::<2>(arguments)?)
}

/// The date-time of two words as numbers.
fn of_numbers([date, time]: [i128; 2]) -> Option<DateTime> {
    DateTime::from_raw(u16::try_from(date).ok()?, u16::try_from(time).ok()?)
}

/// A word that is a number.
fn word_of(arguments: &str) -> Option<u16> {
    arguments.parse::<u16>().ok()
}

/// The civil date-time of a year, a month, a day, an hour, a minute, a second and nanoseconds.
pub fn civil_of(arguments: &str) -> Option<civil::DateTime> {
    let [year, month, day, hour, minute, second, nanos] = numbers::<7>(arguments)?;
    civil::DateTime::new(
        i16::try_from(year).ok()?,
        i8::try_from(month).ok()?,
        i8::try_from(day).ok()?,
        i8::try_from(hour).ok()?,
        i8::try_from(minute).ok()?,
        i8::try_from(second).ok()?,
        i32::try_from(nanos).ok()?,
    )
    .ok()
}

/// A civil date-time: its year, month and day, its hour, minute and second, and its nanoseconds.
pub fn fields_of(civil: civil::DateTime) -> ((i16, i8, i8), (i8, i8, i8), i32) {
    (
        (civil.year(), civil.month(), civil.day()),
        (civil.hour(), civil.minute(), civil.second()),
        civil.subsec_nanosecond(),
    )
}
