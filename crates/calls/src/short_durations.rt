//! The calls of `fancy_duration`.
use crate::arguments::{length_of, numbers, word_and_text};
use crate::named::named;
use crate::small::Small;
use crate::told::{Answer, printed, text, told};
use fancy_duration::{
    AsFancyDuration, AsTimes, DurationPart, FancyDuration, FancyError, ParseFancyDuration,
    StrictError, strict_to_ns,
};
use std::alloc::Global;
use std::time::Duration;

/// A call of a table.
#[derive(Clone, Copy)]
enum Call {
    ParseToNs,
    OfStrict(OfStrict),
    ParseFancyDuration,
    Parse,
    FromStr,
    Message,
    IsLess,
    OfLength(OfLength),
    Filter,
    Truncate,
    FromTimesOfTheGreatest,
    FromTimesThatCarry,
    OfSmall(OfSmall),
}

/// A call about strict texts.
#[derive(Clone, Copy)]
enum OfStrict {
    IsFancyText,
    StrictToNs,
    Message,
}

/// A call of a type of the user's own.
#[derive(Clone, Copy)]
enum OfSmall {
    Parse,
    Text,
    Truncate,
}

/// A call of a length, which is given by its seconds and nanoseconds.
#[derive(Clone, Copy)]
enum OfLength {
    Text,
    Display,
    Format,
    FormatCompact,
    ReadsBack,
}

/// The calls by their names.
const CALLS: [(&str, Call); 21] = [
    ("parse_to_ns", Call::ParseToNs),
    ("is_fancy_text", Call::OfStrict(OfStrict::IsFancyText)),
    ("strict_to_ns", Call::OfStrict(OfStrict::StrictToNs)),
    (
        "message of a strict text",
        Call::OfStrict(OfStrict::Message),
    ),
    ("parse_fancy_duration", Call::ParseFancyDuration),
    ("parse", Call::Parse),
    ("from_str", Call::FromStr),
    ("message", Call::Message),
    ("is_less", Call::IsLess),
    ("text", Call::OfLength(OfLength::Text)),
    ("display", Call::OfLength(OfLength::Display)),
    ("format", Call::OfLength(OfLength::Format)),
    ("format_compact", Call::OfLength(OfLength::FormatCompact)),
    ("reads_back", Call::OfLength(OfLength::ReadsBack)),
    ("filter", Call::Filter),
    ("truncate", Call::Truncate),
    ("from_times of the greatest", Call::FromTimesOfTheGreatest),
    ("from_times that carry", Call::FromTimesThatCarry),
    ("parse of Small", Call::OfSmall(OfSmall::Parse)),
    ("text of Small", Call::OfSmall(OfSmall::Text)),
    ("truncate of Small", Call::OfSmall(OfSmall::Truncate)),
];

/// The refusals by their names.
const ERRORS: [(&str, FancyError); 2] = [
    ("TooBig", FancyError::TooBig),
    ("NotHeld", FancyError::NotHeld),
];

/// The refusals of strict texts by their names.
const STRICT_ERRORS: [(&str, StrictError); 2] = [
    ("NotStrict", StrictError::NotStrict),
    ("TooBig", StrictError::TooBig),
];

/// The parts by their names.
const PARTS: [(&str, DurationPart); 10] = [
    ("Years", DurationPart::Years),
    ("Months", DurationPart::Months),
    ("Weeks", DurationPart::Weeks),
    ("Days", DurationPart::Days),
    ("Hours", DurationPart::Hours),
    ("Minutes", DurationPart::Minutes),
    ("Seconds", DurationPart::Seconds),
    ("Milliseconds", DurationPart::Milliseconds),
    ("Microseconds", DurationPart::Microseconds),
    ("Nanoseconds", DurationPart::Nanoseconds),
];

/// What the call answers.
pub fn answer(alloc: Global, call: &str, arguments: &str) -> Answer {
    match named(&CALLS, call)? {
        Call::ParseToNs => told(alloc, &FancyDuration::<Duration>::parse_to_ns(arguments)),
        Call::OfStrict(call) => of_strict(alloc, call, arguments),
        Call::ParseFancyDuration => {
            let parsed = Duration::parse_fancy_duration(arguments);
            told(alloc, &parsed.map(|length| length.as_times()))
        }
        Call::Parse => told(alloc, &times(FancyDuration::<Duration>::parse(arguments))),
        Call::FromStr => told(alloc, &times(arguments.parse::<FancyDuration<Duration>>())),
        Call::Message => printed(alloc, &named(&ERRORS, arguments)?),
        Call::IsLess => {
            let (a, b) = word_and_text(arguments)?;
            told(alloc, &(named(&PARTS, a)? < named(&PARTS, b)?))
        }
        Call::OfLength(call) => of_length(alloc, call, arguments),
        Call::Filter => filtered(alloc, arguments),
        Call::Truncate => truncated::<Duration>(alloc, arguments),
        Call::FromTimesOfTheGreatest => {
            let longest = Duration::new(0, 0).from_times(u64::MAX, 999_999_999);
            told(alloc, &longest.as_times())
        }
        Call::FromTimesThatCarry => {
            let carried = Duration::new(0, 0).from_times(1, 4_294_967_295);
            told(alloc, &carried.as_times())
        }
        Call::OfSmall(call) => of_small(alloc, call, arguments),
    }
}

/// What a call about strict texts answers.
fn of_strict(alloc: Global, call: OfStrict, arguments: &str) -> Answer {
    match call {
        OfStrict::IsFancyText => {
            told(alloc, &FancyDuration::<Duration>::is_fancy_text(arguments))
        }
        OfStrict::StrictToNs => told(alloc, &strict_to_ns(arguments.as_bytes())),
        OfStrict::Message => printed(alloc, &named(&STRICT_ERRORS, arguments)?),
    }
}

/// The seconds and nanoseconds that were read.
fn times(parsed: Result<FancyDuration<Duration>, FancyError>) -> Result<(u64, u64), FancyError> {
    parsed.map(|fancy| fancy.duration().as_times())
}

/// The text of some parts of a text's length.
fn filtered(alloc: Global, arguments: &str) -> Answer {
    let (parts, of) = word_and_text(arguments)?;
    let fancy = FancyDuration::<Duration>::parse(of).ok()?;
    text(alloc, fancy.filter(&parts_of(parts)?).text().as_str())
}

/// The text of so many parts of a text's length.
fn truncated<D: AsTimes + Copy>(alloc: Global, arguments: &str) -> Answer {
    let (limit, of) = word_and_text(arguments)?;
    let limit = limit.parse::<usize>().ok()?;
    let fancy = FancyDuration::<D>::parse(of).ok()?;
    text(alloc, fancy.truncate(limit).text().as_str())
}

/// The calls of a type of the user's own.
fn of_small(alloc: Global, call: OfSmall, arguments: &str) -> Answer {
    match call {
        OfSmall::Parse => {
            let parsed = FancyDuration::<Small>::parse(arguments);
            told(alloc, &parsed.map(|fancy| fancy.duration()))
        }
        OfSmall::Text => {
            let fancy = FancyDuration::<Small>::parse(arguments).ok()?;
            text(alloc, fancy.text().as_str())
        }
        OfSmall::Truncate => truncated::<Small>(alloc, arguments),
    }
}

/// The calls of a length.
fn of_length(alloc: Global, call: OfLength, arguments: &str) -> Answer {
    let [secs, nanos] = numbers::<2>(arguments)?;
    let fancy = length_of(secs, nanos)?.fancy_duration();
    match call {
        OfLength::Text => text(alloc, fancy.text().as_str()),
        OfLength::Display => printed(alloc, &fancy),
        OfLength::Format => Some(fancy.format(alloc)),
        OfLength::FormatCompact => Some(fancy.format_compact(alloc)),
        OfLength::ReadsBack => told(alloc, &fancy.reads_back()),
    }
}

/// One to three parts with a comma between, of which the first stands for each that is missing.
fn parts_of(parts: &str) -> Option<[DurationPart; 3]> {
    let mut names = parts.split(',');
    let first = named(&PARTS, names.next()?)?;
    let second = part_or(first, names.next());
    let third = part_or(first, names.next());
    Some([first, second, third])
}

/// A part by its name, and the first where there is none.
fn part_or(first: DurationPart, name: Option<&str>) -> DurationPart {
    match name {
        Some(name) => named(&PARTS, name).unwrap_or(first),
        None => first,
    }
}
