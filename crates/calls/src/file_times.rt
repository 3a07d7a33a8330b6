//! The calls of `nt_time`.
use crate::arguments::numbers;
use crate::dos_words::{civil_of, date_time_of, fields_of};
use crate::file_time_sums::{self, Sum};
use crate::named::named;
use crate::told::{Answer, printed, told};
use crate::unix_times::{self, Unit};
use dos_date::DateTime;
use jiff::Timestamp;
use nt_time::error::{FileTimeRangeError, FileTimeRangeErrorKind, OutOfCivil};
use nt_time::{FileTime, UtcDateTime};
use std::alloc::Global;
use std::str::FromStr;

/// A call of a table.
#[derive(Clone, Copy)]
enum Call {
    FromStr,
    MessageOf(MessageOf),
    Made(Made),
    Tried(Tried),
    ToUnix(Unit),
    OfRaw(OfRaw),
    Between,
    CheckedAddSigned,
    CheckedSubSigned,
    Moved(Sum),
}

/// A call that makes a file time.
#[derive(Clone, Copy)]
enum Made {
    Constant,
    FromBeBytes,
    FromLeBytes,
    FromHighLow,
    FromDos,
}

/// A call that makes a file time or refuses.
#[derive(Clone, Copy)]
enum Tried {
    FromCivil,
    FromTimestamp,
    FromTimestampMax,
    FromTimestampMin,
    FromUnix(Unit),
    FromDuration,
}

/// What a message is of.
#[derive(Clone, Copy)]
enum MessageOf {
    Text,
    Cause,
    Range,
    Kind,
    Civil,
}

/// A call of a file time, which is given by its count.
#[derive(Clone, Copy)]
enum OfRaw {
    Display,
    ToBeBytes,
    ToLeBytes,
    ToHighLow,
    ToDuration,
    ToCivil,
    ToTimestamp,
    ToDos,
}

/// The calls by their names.
const CALLS: [(&str, Call); 45] = [
    ("constant", Call::Made(Made::Constant)),
    ("from_str", Call::FromStr),
    ("message", Call::MessageOf(MessageOf::Text)),
    ("message of cause", Call::MessageOf(MessageOf::Cause)),
    ("message of range", Call::MessageOf(MessageOf::Range)),
    ("message of kind", Call::MessageOf(MessageOf::Kind)),
    ("message of civil", Call::MessageOf(MessageOf::Civil)),
    ("from_be_bytes", Call::Made(Made::FromBeBytes)),
    ("from_le_bytes", Call::Made(Made::FromLeBytes)),
    ("from_high_low", Call::Made(Made::FromHighLow)),
    ("from_dos", Call::Made(Made::FromDos)),
    ("from_civil", Call::Tried(Tried::FromCivil)),
    ("from_timestamp", Call::Tried(Tried::FromTimestamp)),
    ("from_timestamp MAX", Call::Tried(Tried::FromTimestampMax)),
    ("from_timestamp MIN", Call::Tried(Tried::FromTimestampMin)),
    (
        "from_unix_time",
        Call::Tried(Tried::FromUnix(Unit::SecsAndNanos)),
    ),
    (
        "from_unix_time_secs",
        Call::Tried(Tried::FromUnix(Unit::Secs)),
    ),
    (
        "from_unix_time_millis",
        Call::Tried(Tried::FromUnix(Unit::Millis)),
    ),
    (
        "from_unix_time_micros",
        Call::Tried(Tried::FromUnix(Unit::Micros)),
    ),
    (
        "from_unix_time_nanos",
        Call::Tried(Tried::FromUnix(Unit::Nanos)),
    ),
    ("from_duration", Call::Tried(Tried::FromDuration)),
    ("to_unix_time", Call::ToUnix(Unit::SecsAndNanos)),
    ("to_unix_time_secs", Call::ToUnix(Unit::Secs)),
    ("to_unix_time_millis", Call::ToUnix(Unit::Millis)),
    ("to_unix_time_micros", Call::ToUnix(Unit::Micros)),
    ("to_unix_time_nanos", Call::ToUnix(Unit::Nanos)),
    ("display", Call::OfRaw(OfRaw::Display)),
    ("to_be_bytes", Call::OfRaw(OfRaw::ToBeBytes)),
    ("to_le_bytes", Call::OfRaw(OfRaw::ToLeBytes)),
    ("to_high_low", Call::OfRaw(OfRaw::ToHighLow)),
    ("to_duration", Call::OfRaw(OfRaw::ToDuration)),
    ("to_civil", Call::OfRaw(OfRaw::ToCivil)),
    ("to_timestamp", Call::OfRaw(OfRaw::ToTimestamp)),
    ("to_dos", Call::OfRaw(OfRaw::ToDos)),
    ("between", Call::Between),
    ("checked_add_signed", Call::CheckedAddSigned),
    ("checked_sub_signed", Call::CheckedSubSigned),
    ("checked_add", Call::Moved(Sum::CheckedAdd)),
    ("checked_sub", Call::Moved(Sum::CheckedSub)),
    ("saturating_add", Call::Moved(Sum::SaturatingAdd)),
    ("saturating_sub", Call::Moved(Sum::SaturatingSub)),
    ("add", Call::Moved(Sum::Add)),
    ("sub", Call::Moved(Sum::Sub)),
    ("add_assign", Call::Moved(Sum::AddAssign)),
    ("sub_assign", Call::Moved(Sum::SubAssign)),
];

/// The kinds of refusal by their names.
const KINDS: [(&str, FileTimeRangeErrorKind); 2] = [
    ("Negative", FileTimeRangeErrorKind::Negative),
    ("Overflow", FileTimeRangeErrorKind::Overflow),
];

/// What the call answers.
pub fn answer(alloc: Global, call: &str, arguments: &str) -> Answer {
    match named(&CALLS, call)? {
        Call::FromStr => match FileTime::from_str(arguments) {
            Ok(ft) => told(alloc, &Some(ft.to_raw())),
            Err(error) => told(alloc, &error.cause()),
        },
        Call::MessageOf(of) => message(alloc, of, arguments),
        Call::Made(call) => told(alloc, &file_time_of(call, arguments)?.to_raw()),
        Call::Tried(call) => told(alloc, &raw(outcome_of(call, arguments)?)),
        Call::ToUnix(unit) => unix_times::to_unix(alloc, unit, arguments),
        Call::OfRaw(call) => of_raw(alloc, call, arguments),
        Call::Between => file_time_sums::between(alloc, arguments),
        Call::CheckedAddSigned => told(alloc, &file_time_sums::added_signed(arguments)?),
        Call::CheckedSubSigned => told(alloc, &file_time_sums::subtracted_signed(arguments)?),
        Call::Moved(sum) => file_time_sums::moved(alloc, sum, arguments),
    }
}

/// The file time that the call makes.
fn file_time_of(call: Made, arguments: &str) -> Option<FileTime> {
    Some(match call {
        Made::Constant => constant(arguments)?,
        Made::FromBeBytes => FileTime::from_be_bytes(bytes_of(arguments)?),
        Made::FromLeBytes => FileTime::from_le_bytes(bytes_of(arguments)?),
        Made::FromHighLow => {
            let [high, low] = numbers::<2>(arguments)?;
            FileTime::from_high_low(u32::try_from(high).ok()?, u32::try_from(low).ok()?)
        }
        Made::FromDos => FileTime::from(date_time_of(arguments)?),
    })
}

/// The file time that the call makes, or its refusal.
fn outcome_of(call: Tried, arguments: &str) -> Option<Result<FileTime, FileTimeRangeError>> {
    Some(match call {
        Tried::FromCivil => FileTime::try_from(UtcDateTime::new(civil_of(arguments)?)),
        Tried::FromTimestamp => FileTime::try_from(timestamp(arguments)?),
        Tried::FromTimestampMax => FileTime::try_from(Timestamp::MAX),
        Tried::FromTimestampMin => FileTime::try_from(Timestamp::MIN),
        Tried::FromUnix(unit) => unix_times::from_unix(unit, arguments)?,
        Tried::FromDuration => file_time_sums::from_duration(arguments)?,
    })
}

/// The message of a text's refusal, or of one that is given by its kind.
fn message(alloc: Global, of: MessageOf, arguments: &str) -> Answer {
    match of {
        MessageOf::Text => printed(alloc, &FileTime::from_str(arguments).err()?),
        MessageOf::Cause => printed(alloc, &FileTime::from_str(arguments).err()?.cause()),
        MessageOf::Range => printed(alloc, &FileTimeRangeError::from(named(&KINDS, arguments)?)),
        MessageOf::Kind => printed(alloc, &named(&KINDS, arguments)?),
        MessageOf::Civil => printed(alloc, &OutOfCivil),
    }
}

/// The calls of a file time, which is given by its count.
fn of_raw(alloc: Global, call: OfRaw, arguments: &str) -> Answer {
    let ft = FileTime::new(arguments.parse::<u64>().ok()?);
    match call {
        OfRaw::Display => printed(alloc, &ft),
        OfRaw::ToBeBytes => told(alloc, &ft.to_be_bytes()),
        OfRaw::ToLeBytes => told(alloc, &ft.to_le_bytes()),
        OfRaw::ToHighLow => told(alloc, &ft.to_high_low()),
        OfRaw::ToDuration => {
            let length = ft.to_duration();
            told(alloc, &(length.as_secs(), length.subsec_nanos()))
        }
        OfRaw::ToCivil => told(
            alloc,
            &UtcDateTime::try_from(ft).map(|utc| fields_of(utc.civil())),
        ),
        OfRaw::ToTimestamp => told(alloc, &Timestamp::try_from(ft).map(|t| t.as_nanosecond())),
        OfRaw::ToDos => match DateTime::try_from(ft) {
            Ok(dos) => told(alloc, &(dos.date_raw(), dos.time_raw())),
            Err(error) => told(alloc, &error.kind()),
        },
    }
}

/// The timestamp of nanoseconds.
fn timestamp(arguments: &str) -> Option<Timestamp> {
    Timestamp::from_nanosecond(arguments.parse::<i128>().ok()?).ok()
}

/// The count of a file time, or the kind of the refusal.
fn raw(outcome: Result<FileTime, FileTimeRangeError>) -> Result<u64, FileTimeRangeErrorKind> {
    match outcome {
        Ok(ft) => Ok(ft.to_raw()),
        Err(error) => Err(error.kind()),
    }
}

/// A constant by its name.
fn constant(name: &str) -> Option<FileTime> {
    let constants = [
        ("NT_TIME_EPOCH", FileTime::NT_TIME_EPOCH),
        ("UNIX_EPOCH", FileTime::UNIX_EPOCH),
        ("SIGNED_MAX", FileTime::SIGNED_MAX),
        ("MAX", FileTime::MAX),
        ("default", FileTime::default()),
    ];
    named(&constants, name)
}

/// The bytes of eight numbers.
fn bytes_of(arguments: &str) -> Option<[u8; 8]> {
    let mut bytes = [0; 8];
    let numbers = numbers::<8>(arguments)?;
    for place in 0..8 {
        bytes[place] = u8::try_from(numbers[place]).ok()?;
    }
    Some(bytes)
}
