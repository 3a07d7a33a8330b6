//! The calls of `pg_interval_2`.
use crate::arguments::{numbers, word_and_text};
use crate::named::named;
use crate::told::{Answer, printed, text, told};
use jiff::SignedDuration;
use pg_interval_2::{Interval, ParseError, Style};
use std::alloc::{AllocError, Global};

/// A call of a table.
#[derive(Clone, Copy)]
enum Call {
    From(Reader),
    FromCell,
    FromDuration,
    Message,
    IsRange,
    Text(Style),
    To(Writer),
    ToCell,
    Summed(Sum),
    SummedTexts(Sum),
    DayTime(Sum),
    YearMonth(Sum),
}

/// A call that reads a text of a style.
#[derive(Clone, Copy)]
enum Reader {
    Iso,
    IsoStrict,
    Postgres,
    PostgresVerbose,
    Sql,
}

/// A call that makes a text of a style.
#[derive(Clone, Copy)]
enum Writer {
    Iso8601,
    Postgres,
    PostgresVerbose,
    Sql,
}

/// A sum or a difference, as an option or by the call that wants one.
#[derive(Clone, Copy)]
enum Sum {
    CheckedAdd,
    CheckedSub,
    Add,
    Sub,
}

/// The calls by their names.
const CALLS: [(&str, Call); 32] = [
    ("from_iso", Call::From(Reader::Iso)),
    ("from_iso_strict", Call::From(Reader::IsoStrict)),
    ("from_postgres", Call::From(Reader::Postgres)),
    ("from_postgres_verbose", Call::From(Reader::PostgresVerbose)),
    ("from_sql", Call::From(Reader::Sql)),
    ("from_cell", Call::FromCell),
    ("from_duration", Call::FromDuration),
    ("message", Call::Message),
    ("is_range", Call::IsRange),
    ("text Iso", Call::Text(Style::Iso)),
    ("text Postgres", Call::Text(Style::Postgres)),
    ("text Verbose", Call::Text(Style::Verbose)),
    ("text Sql", Call::Text(Style::Sql)),
    ("to_iso_8601", Call::To(Writer::Iso8601)),
    ("to_postgres", Call::To(Writer::Postgres)),
    ("to_postgres_verbose", Call::To(Writer::PostgresVerbose)),
    ("to_sql", Call::To(Writer::Sql)),
    ("to_cell", Call::ToCell),
    ("checked_add", Call::Summed(Sum::CheckedAdd)),
    ("checked_sub", Call::Summed(Sum::CheckedSub)),
    ("add", Call::Summed(Sum::Add)),
    ("sub", Call::Summed(Sum::Sub)),
    ("checked_add of texts", Call::SummedTexts(Sum::CheckedAdd)),
    ("checked_sub of texts", Call::SummedTexts(Sum::CheckedSub)),
    ("checked_add_day_time", Call::DayTime(Sum::CheckedAdd)),
    ("checked_sub_day_time", Call::DayTime(Sum::CheckedSub)),
    ("add_day_time", Call::DayTime(Sum::Add)),
    ("sub_day_time", Call::DayTime(Sum::Sub)),
    ("checked_add_year_month", Call::YearMonth(Sum::CheckedAdd)),
    ("checked_sub_year_month", Call::YearMonth(Sum::CheckedSub)),
    ("add_year_month", Call::YearMonth(Sum::Add)),
    ("sub_year_month", Call::YearMonth(Sum::Sub)),
];

/// What the call answers.
pub fn answer(alloc: Global, call: &str, arguments: &str) -> Answer {
    match named(&CALLS, call)? {
        Call::From(call) => told(alloc, &read(call, arguments)),
        Call::FromCell => told(alloc, &Interval::from_cell(cell_of(arguments)?)),
        Call::FromDuration => told(alloc, &Interval::from_duration(duration_of(arguments)?)),
        Call::Message => printed(alloc, &error_of(arguments)?),
        Call::IsRange => told(alloc, &error_of(arguments)?.is_range()),
        Call::Text(style) => text(alloc, interval_of(arguments)?.text(style).as_str()),
        Call::To(call) => Some(written(alloc, call, interval_of(arguments)?)),
        Call::ToCell => told(alloc, &interval_of(arguments)?.to_cell()),
        Call::Summed(call) => summed(alloc, call, pair_of(arguments)?),
        Call::SummedTexts(call) => summed(alloc, call, texts_of(arguments)?),
        Call::DayTime(call) => added_day_time(alloc, call, arguments),
        Call::YearMonth(call) => added_year_month(alloc, call, arguments),
    }
}

/// The interval that a text of a style spells.
fn read(call: Reader, of: &str) -> Result<Interval, ParseError> {
    match call {
        Reader::Iso => Interval::from_iso(of),
        Reader::IsoStrict => Interval::from_iso_strict(of),
        Reader::Postgres => Interval::from_postgres(of),
        Reader::PostgresVerbose => Interval::from_postgres_verbose(of),
        Reader::Sql => Interval::from_sql(of),
    }
}

/// The text of an interval in a style.
fn written(alloc: Global, call: Writer, of: Interval) -> Result<String, AllocError> {
    match call {
        Writer::Iso8601 => of.to_iso_8601(alloc),
        Writer::Postgres => of.to_postgres(alloc),
        Writer::PostgresVerbose => of.to_postgres_verbose(alloc),
        Writer::Sql => of.to_sql(alloc),
    }
}

/// The sum or the difference of two intervals.
fn summed(alloc: Global, call: Sum, (a, b): (Interval, Interval)) -> Answer {
    match call {
        Sum::CheckedAdd => told(alloc, &a.checked_add(b)),
        Sum::CheckedSub => told(alloc, &a.checked_sub(b)),
        Sum::Add => {
            a.checked_add(b)?;
            told(alloc, &(a + b))
        }
        Sum::Sub => {
            a.checked_sub(b)?;
            told(alloc, &(a - b))
        }
    }
}

/// The sums with days and times of day, of seven numbers.
fn added_day_time(alloc: Global, call: Sum, arguments: &str) -> Answer {
    let [months, days, micros, d, h, m, nanos] = numbers::<7>(arguments)?;
    let interval = of_numbers([months, days, micros])?;
    let d = i32::try_from(d).ok()?;
    let (h, m) = (i64::try_from(h).ok()?, i64::try_from(m).ok()?);
    match call {
        Sum::CheckedAdd => told(alloc, &interval.checked_add_day_time(d, h, m, nanos)),
        Sum::CheckedSub => told(alloc, &interval.checked_sub_day_time(d, h, m, nanos)),
        Sum::Add => {
            interval.checked_add_day_time(d, h, m, nanos)?;
            told(alloc, &interval.add_day_time(d, h, m, nanos))
        }
        Sum::Sub => {
            interval.checked_sub_day_time(d, h, m, nanos)?;
            told(alloc, &interval.sub_day_time(d, h, m, nanos))
        }
    }
}

/// The sums with years and months, of five numbers.
fn added_year_month(alloc: Global, call: Sum, arguments: &str) -> Answer {
    let [months, days, micros, year, month] = numbers::<5>(arguments)?;
    let interval = of_numbers([months, days, micros])?;
    let (year, month) = (i32::try_from(year).ok()?, i32::try_from(month).ok()?);
    match call {
        Sum::CheckedAdd => told(alloc, &interval.checked_add_year_month(year, month)),
        Sum::CheckedSub => told(alloc, &interval.checked_sub_year_month(year, month)),
        Sum::Add => {
            interval.checked_add_year_month(year, month)?;
            told(alloc, &interval.add_year_month(year, month))
        }
        Sum::Sub => {
            interval.checked_sub_year_month(year, month)?;
            told(alloc, &interval.sub_year_month(year, month))
        }
    }
}

/// The interval of months, days and microseconds.
fn of_numbers([months, days, micros]: [i128; 3]) -> Option<Interval> {
    Some(Interval::new(
        i32::try_from(months).ok()?,
        i32::try_from(days).ok()?,
        i64::try_from(micros).ok()?,
    ))
}

/// The interval of three numbers.
fn interval_of(arguments: &str) -> Option<Interval> {
    of_numbers(numbers::<3>(arguments)?)
}

/// The two intervals of six numbers.
fn pair_of(arguments: &str) -> Option<(Interval, Interval)> {
    let [a, b, c, d, e, f] = numbers::<6>(arguments)?;
    Some((of_numbers([a, b, c])?, of_numbers([d, e, f])?))
}

/// The two intervals of two texts in the ISO style.
fn texts_of(arguments: &str) -> Option<(Interval, Interval)> {
    let (a, b) = word_and_text(arguments)?;
    Some((Interval::from_iso(a).ok()?, Interval::from_iso(b).ok()?))
}

/// The bytes of sixteen numbers.
fn cell_of(arguments: &str) -> Option<[u8; 16]> {
    let mut cell = [0; 16];
    let numbers = numbers::<16>(arguments)?;
    for place in 0..16 {
        cell[place] = u8::try_from(numbers[place]).ok()?;
    }
    Some(cell)
}

/// The length of seconds and nanoseconds of one sign.
fn duration_of(arguments: &str) -> Option<SignedDuration> {
    let [secs, nanos] = numbers::<2>(arguments)?;
    let (secs, nanos) = (i64::try_from(secs).ok()?, i32::try_from(nanos).ok()?);
    SignedDuration::from_secs(secs).checked_add(SignedDuration::from_nanos(i64::from(nanos)))
}

/// A refusal of each kind, by the call that makes it.
fn error_of(name: &str) -> Option<ParseError> {
    let errors = [
        (
            "from_invalid_interval",
            ParseError::from_invalid_interval("not an iso interval"),
        ),
        ("BadUnit 2 11", ParseError::BadUnit { start: 2, end: 11 }),
        ("from_year_month", ParseError::from_year_month("too many")),
        ("InvalidDay", ParseError::InvalidDay("too many")),
        ("from_time", ParseError::from_time("too many")),
    ];
    named(&errors, name)
}
