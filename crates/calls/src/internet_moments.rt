//! The calls of `internet_dates`.
ghost use Rattle.std.specs.Prelude.{IsSome, IfSome};
ghost use Rattle.internet_dates.specs.DateTimes.{IsRealMoment};

use crate::arguments::numbers;
use crate::named::named;
use crate::told::{Answer, printed, text, told};
use internet_dates::{DateError, DateTime, http_date, mail_date};
use scan_core::Short;
use std::alloc::Global;

/// A call of a table.
#[derive(Clone, Copy)]
enum Call {
    Fields(Grammar),
    Read(Grammar),
    PushText(Grammar),
    IsEqual(Grammar),
    At,
    Seconds,
    Message,
}

/// Whose dates they are.
#[derive(Clone, Copy)]
enum Grammar {
    Http,
    Mail,
}

/// The calls by their names.
const CALLS: [(&str, Call); 11] = [
    ("http_date::fields", Call::Fields(Grammar::Http)),
    ("mail_date::fields", Call::Fields(Grammar::Mail)),
    ("http_date::read", Call::Read(Grammar::Http)),
    ("mail_date::read", Call::Read(Grammar::Mail)),
    ("http_date::push_text", Call::PushText(Grammar::Http)),
    ("mail_date::push_text", Call::PushText(Grammar::Mail)),
    ("is_equal of HTTP", Call::IsEqual(Grammar::Http)),
    ("is_equal of mail", Call::IsEqual(Grammar::Mail)),
    ("at", Call::At),
    ("seconds", Call::Seconds),
    ("message", Call::Message),
];

/// The refusals by their names.
const ERRORS: [(&str, DateError); 3] = [
    ("Syntax", DateError::Syntax),
    ("NoSuchMoment", DateError::NoSuchMoment),
    ("Range", DateError::Range),
];

/// What the call answers, where its arguments are bytes.
pub fn answer(alloc: Global, call: &str, arguments: &[u8]) -> Answer {
    let of = str::from_utf8(arguments).ok();
    match named(&CALLS, call)? {
        Call::Fields(grammar) => told(alloc, &fields(grammar, arguments)),
        Call::Read(Grammar::Http) => told(alloc, &http_date::read(arguments)),
        Call::Read(Grammar::Mail) => told(alloc, &mail_date::read(arguments)),
        Call::PushText(grammar) => text(alloc, written(grammar, of?)?.as_str()),
        Call::IsEqual(grammar) => {
            let (a, b) = of?.split_once('|')?;
            let a = fields(grammar, a.as_bytes());
            told(alloc, &(a == fields(grammar, b.as_bytes())))
        }
        Call::At => told(alloc, &date_at(of?)),
        Call::Seconds => told(alloc, &date_of(of?)?.seconds()),
        Call::Message => printed(alloc, &named(&ERRORS, of?)?),
    }
}

/// The fields of a text.
fn fields(grammar: Grammar, bytes: &[u8]) -> Option<DateTime> {
    match grammar {
        Grammar::Http => http_date::fields(bytes),
        Grammar::Mail => mail_date::fields(bytes),
    }
}

/// The date of so many seconds since 1970, in a year from a first one on.
fn date_at(arguments: &str) -> Option<DateTime>
    ensures real { IfSome result (λ t. IsRealMoment t) }
    ensures named { IfSome result (λ t. IsSome t.weekday) }
{
    let [seconds, first] = numbers::<2>(arguments)?;
    DateTime::at(i64::try_from(seconds).ok()?, u16::try_from(first).ok()?)
}

/// The text of that date.
fn written(grammar: Grammar, arguments: &str) -> Option<Short> {
    let date = date_at(arguments)?;
    let mut out = Short::new();
    match grammar {
        Grammar::Http => http_date::push_text(&mut out, &date),
        Grammar::Mail => mail_date::push_text(&mut out, &date),
    }
    Some(out)
}

/// The fields as they are given, where a day of the week below 0 is none.
fn date_of(arguments: &str) -> Option<DateTime> {
    let [weekday, year, month, day, hour, minute, second, offset] = numbers::<8>(arguments)?;
    Some(DateTime {
        weekday: u8::try_from(weekday).ok(),
        year: u16::try_from(year).ok()?,
        month: u8::try_from(month).ok()?,
        day: u8::try_from(day).ok()?,
        hour: u8::try_from(hour).ok()?,
        minute: u8::try_from(minute).ok()?,
        second: u8::try_from(second).ok()?,
        offset: i16::try_from(offset).ok()?,
    })
}
