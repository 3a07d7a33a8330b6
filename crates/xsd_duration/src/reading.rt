//! The reader. It passes a text once, for the numbers of its counts, and then sums them.
ghost use Rattle.std.specs.Prelude.{◌≡◌, IfOk, IfErr, Ok, option_map};
ghost use Rattle.pg_interval_2.specs.Denotes.{Denotes};
ghost use Rattle.pg_interval_2.specs.declared.interval.Interval.{Interval as AnyInterval};
ghost use Rattle.xsd_duration.specs.Durations.{SpellsDuration};
ghost use Rattle.xsd_duration.specs.Readings.{IsRefused};
ghost use Rattle.xsd_duration.specs.inside.Fronts.{clock_counted, counted, counts_counted, fraction_counted, seconds_counted};
ghost use Rattle.xsd_duration.specs.inside.Fronts.{seen, sign_split, time_counted, unsigned_counted};
ghost use Rattle.xsd_duration.specs.inside.Numbers.{numbers_of};
ghost use Rattle.xsd_duration.specs.inside.Reading.{read_spelling};

use crate::error::DurationError;
use crate::front::{Front, fraction_of, front_of};
use crate::sums::sum_of;
use pg_interval_2::Interval;

/// The numbers of the counts behind a `T`, 0 where a count is left out, and the fraction of seconds in microseconds.
#[derive(Clone, Copy)]
pub(crate) struct Clock {
    pub(crate) hours: u64,
    pub(crate) minutes: u64,
    pub(crate) seconds: u64,
    pub(crate) micros: u64,
}

/// The numbers of all counts, cut to `u64::MAX`, and whether a minus stands in front.
#[derive(Clone, Copy)]
pub(crate) struct Numbers {
    pub(crate) negative: bool,
    pub(crate) years: u64,
    pub(crate) months: u64,
    pub(crate) days: u64,
    pub(crate) clock: Clock,
}

/// The interval that a whole text denotes: `read(b"P1Y2M3DT4H5M6.5S")` is 14 months, 3 days and 14,706,500,000 microseconds, and
/// `read(b"-P1D")` is a day before.
///
/// A text is a duration as XML Schema 1.1 part 2, section 3.3.6, has it. Months are 12 a year; hours aren't carried into days. `Syntax`
/// exactly where the text is no duration, `Range` exactly where it is one and its months, days or microseconds leave their types.
pub fn read(text: &[u8]) -> Result<Interval, DurationError>
    ensures ok { IfOk result (λ t. Denotes SpellsDuration text.now t) }
    ensures all { (t : AnyInterval) → Denotes SpellsDuration text.now t → result ≡ Ok t }
    ensures err { IfErr result (λ e. IsRefused text.now e) }
{
    match numbers_in(text) {
        Some(numbers) => match sum_of(numbers) {
            Some(interval) => Ok(interval),
            None => Err(DurationError::Range),
        },
        None => Err(DurationError::Syntax),
    }
}

/// The number of the count in front that has this letter, and the digits behind it; 0 and the same front where it isn't there.
#[inline(always)]
fn split_count<'a>(front: &Front<'a>, letter: u8) -> (u64, Front<'a>)
    ensures { (result.0, seen result.1) ≡ counted letter (seen front.now) }
{
    match front.rest {
        [byte, behind @ ..] if *byte == letter && !front.digits.is_empty() => (
            front.number,
            front_of(behind),
        ),
        _ => (0, *front),
    }
}

/// The fraction behind the point in front, in microseconds, and what follows it; 0 and all bytes where it isn't there.
#[inline(always)]
#[tactic(auto, unfolding(crate::specs::inside::Fronts::fraction_counted))]
fn split_fraction(bytes: &[u8]) -> (u64, &[u8])
    ensures { (result.0, result.1.now) ≡ fraction_counted bytes.now }
{
    match bytes {
        [byte, behind @ ..] if *byte == b'.' => {
            let front = front_of(behind);
            if front.digits.is_empty() {
                (0, bytes)
            } else {
                (fraction_of(front.digits, front.number), front.rest)
            }
        }
        _ => (0, bytes),
    }
}

/// The seconds and their fraction where they are all that is left; none of nothing.
#[inline(always)]
fn split_seconds(front: &Front<'_>) -> Option<(u64, u64)>
    ensures { result ≡ seconds_counted (seen front.now) }
{
    if front.digits.is_empty() {
        return if front.rest.is_empty() {
            Some((0, 0))
        } else {
            None
        };
    }
    let (micros, last) = split_fraction(front.rest);
    match last {
        [byte] if *byte == b'S' => Some((front.number, micros)),
        _ => None,
    }
}

/// The counts that are all of the bytes behind a `T`.
#[inline(always)]
#[tactic(auto, unfolding(crate::specs::inside::Fronts::time_counted))]
fn split_time(bytes: &[u8]) -> Option<Clock>
    ensures { result ≡ time_counted bytes.now }
{
    let (hours, front) = split_count(&front_of(bytes), b'H');
    let (minutes, front) = split_count(&front, b'M');
    let (seconds, micros) = split_seconds(&front)?;
    Some(Clock {
        hours,
        minutes,
        seconds,
        micros,
    })
}

/// The counts behind the `T` in front, at least one; none of nothing.
#[inline(always)]
fn split_clock(front: &Front<'_>) -> Option<Clock>
    ensures { result ≡ clock_counted (seen front.now) }
{
    if !front.digits.is_empty() {
        return None;
    }
    match front.rest {
        [] => Some(Clock {
            hours: 0,
            minutes: 0,
            seconds: 0,
            micros: 0,
        }),
        [_] => None,
        [byte, time @ ..] if *byte == b'T' => split_time(time),
        _ => None,
    }
}

/// The counts that are all of the bytes.
#[inline(always)]
#[tactic(auto, unfolding(crate::specs::inside::Fronts::counts_counted))]
fn split_counts(negative: bool, bytes: &[u8]) -> Option<Numbers>
    ensures { result ≡ counts_counted negative bytes.now }
{
    let (years, front) = split_count(&front_of(bytes), b'Y');
    let (months, front) = split_count(&front, b'M');
    let (days, front) = split_count(&front, b'D');
    let clock = split_clock(&front)?;
    Some(Numbers {
        negative,
        years,
        months,
        days,
        clock,
    })
}

/// The counts behind the `P` in front, at least one.
#[inline(always)]
fn split_unsigned(negative: bool, bytes: &[u8]) -> Option<Numbers>
    ensures { result ≡ unsigned_counted negative bytes.now }
{
    match bytes {
        [] => None,
        [byte, body @ ..] => {
            if *byte != b'P' || body.is_empty() {
                return None;
            }
            split_counts(negative, body)
        }
    }
}

/// Whether a minus stands in front, and what follows it.
#[inline(always)]
fn split_sign(text: &[u8]) -> (bool, &[u8])
    ensures { (result.0, result.1.now) ≡ sign_split text.now }
{
    match text {
        [byte, rest @ ..] if *byte == b'-' => (true, rest),
        _ => (false, text),
    }
}

/// The whole text's sign, and the numbers of its counts.
#[inline(always)]
fn numbers_in(text: &[u8]) -> Option<Numbers>
    ensures { result ≡ option_map numbers_of (read_spelling text.now) }
{
    let (negative, rest) = split_sign(text);
    split_unsigned(negative, rest)
}
