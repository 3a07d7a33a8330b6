//! Timestamps, and reading them.
ghost use Rattle.std.specs.Prelude.{Bool, Option, Some, IfSome, IfNone};
ghost use Rattle.pg_timestamp.specs.Timestamps.{IsTimestampText};
ghost use Rattle.pg_timestamp.specs.inside.Places.{IsEndAt};
ghost use Rattle.pg_timestamp.specs.declared.time.Time.{Time as TimeValue};
ghost use Rattle.pg_timestamp.specs.declared.timestamp.Timestamp.{Timestamp as TimestampValue};

use crate::date::{Date, era, split_year};
use crate::pair::pair;
use crate::time::Time;

/// A timestamp as it is written, whether or not there is such a day or such a time.
#[derive(Clone, Copy, Debug, PartialEq, Eq)]
pub struct Timestamp {
    /// The date, with the era that is written behind all.
    pub date: Date,
    /// The time, with its offset, or none where a day alone is written.
    pub time: Option<Time>,
}

/// What follows the day: a time or none, and whether the year is before Christ.
fn end(text: &[u8]) -> Option<(Option<Time>, bool)>
    ensures found { IfSome result (λ r. IsEndAt text.now r.0 r.1) }
    ensures none { IfNone result
        ((time : Option TimeValue) (bc : Bool) → ¬ (IsEndAt text.now time bc)) }
{
    match era(text) {
        Some(bc) => Some((None, bc)),
        None => timed_end(text),
    }
}

/// What follows the day where that is no era alone.
fn timed_end(text: &[u8]) -> Option<(Option<Time>, bool)>
    ensures found { IfSome result (λ r. IsEndAt text.now r.0 r.1) }
    ensures none { IfNone result
        ((time : TimeValue) (bc : Bool) → ¬ (IsEndAt text.now (Some time) bc)) }
{
    let (time, rest) = Time::split(text)?;
    let bc = era(rest)?;
    Some((Some(time), bc))
}

/// The timestamp that the whole text is, or `None` exactly where it is none: `2026-12-01 23:24:31.051677+00`, `0044-03-15 BC`.
///
/// A day that its month lacks, year 0, hour 24, second 60 and an offset of 24 hours are read, and have no value.
pub fn read(text: &[u8]) -> Option<Timestamp>
    ensures found { IfSome result (IsTimestampText text.now) }
    ensures none { IfNone result ((t : TimestampValue) → ¬ (IsTimestampText text.now t)) }
{
    let (year, rest) = split_year(text)?;
    let (month, rest) = pair(rest, b'-', 1, 12)?;
    let (day, rest) = pair(rest, b'-', 1, 31)?;
    let (time, bc) = end(rest)?;
    Some(Timestamp {
        date: Date {
            year,
            month,
            day,
            bc,
        },
        time,
    })
}
