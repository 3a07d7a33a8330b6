//! The sums over the counts of a text, which all have one sign.
ghost use Rattle.std.specs.Prelude.{◌≡◌, ◌<◌, ◌≤◌, ◌^◌, ◌↔◌, IfSome, IsSome, IsTrue};
ghost use Rattle.scan_core.specs.Shares.{is_within, signed};
ghost use Rattle.xsd_duration.specs.inside.Numbers.{AreFew, interval_of, sums_within};

use crate::reading::Numbers;
use pg_interval_2::Interval;

/// The interval whose parts are the sums of all counts, or None exactly where one leaves its type.
#[inline(always)]
pub(crate) fn sum_of(numbers: Numbers) -> Option<Interval>
    requires { numbers.clock.micros ≤ 1_000_000 }
    ensures fits { IsSome result ↔ IsTrue (sums_within numbers) }
    ensures sums { IfSome result (λ t. t ≡ interval_of numbers) }
{
    if are_few(numbers) {
        Some(sum_of_few(numbers))
    } else {
        sum_of_many(numbers)
    }
}

/// Few units of each kind: no sum of so many leaves its type.
const FEW: u64 = 100_000_000;

/// Whether few units of each kind are counted.
#[inline(always)]
fn are_few(numbers: Numbers) -> bool
    ensures { IsTrue result ↔ AreFew numbers }
{
    numbers.years < FEW
        && numbers.months < FEW
        && numbers.days < FEW
        && numbers.clock.hours < FEW
        && numbers.clock.minutes < FEW
        && numbers.clock.seconds < FEW
}

/// The sums of few units, which nothing tests.
#[inline(always)]
fn sum_of_few(numbers: Numbers) -> Interval
    requires few { AreFew numbers }
    requires micros { numbers.clock.micros ≤ 1_000_000 }
    ensures { result ≡ interval_of numbers }
{
    let clock = numbers.clock;
    let months = numbers.years * 12 + numbers.months;
    let micros = clock.hours * 3_600_000_000
        + clock.minutes * 60_000_000
        + clock.seconds * 1_000_000
        + clock.micros;
    Interval::new(
        turned_i32(numbers.negative, months),
        turned_i32(numbers.negative, numbers.days),
        turned_i64(numbers.negative, micros),
    )
}

/// A magnitude with its sign.
#[inline(always)]
fn turned_i32(negative: bool, magnitude: u64) -> i32
    requires { magnitude < 2 ^ 31 }
    ensures { result ≡ signed negative magnitude }
{
    let value = magnitude as i32;
    if negative { -value } else { value }
}

/// A magnitude with its sign.
#[inline(always)]
fn turned_i64(negative: bool, magnitude: u64) -> i64
    requires { magnitude < 2 ^ 63 }
    ensures { result ≡ signed negative magnitude }
{
    let value = magnitude as i64;
    if negative { -value } else { value }
}

/// The sums of any numbers of units, or None exactly where one leaves its type.
#[inline(never)] // few texts need it
fn sum_of_many(numbers: Numbers) -> Option<Interval>
    ensures fits { IsSome result ↔ IsTrue (sums_within numbers) }
    ensures sums { IfSome result (λ t. t ≡ interval_of numbers) }
{
    let clock = numbers.clock;
    let months = u128::from(numbers.years) * 12 + u128::from(numbers.months);
    let micros = u128::from(clock.hours) * 3_600_000_000
        + u128::from(clock.minutes) * 60_000_000
        + u128::from(clock.seconds) * 1_000_000
        + u128::from(clock.micros);
    let months = signed_i64(numbers.negative, months)?;
    let days = signed_i64(numbers.negative, u128::from(numbers.days))?;
    let micros = signed_i64(numbers.negative, micros)?;
    let months = i32::try_from(months).ok()?;
    let days = i32::try_from(days).ok()?;
    Some(Interval::new(months, days, micros))
}

/// A magnitude with its sign, or None exactly where it leaves `i64`.
fn signed_i64(negative: bool, magnitude: u128) -> Option<i64>
    requires { magnitude < 2 ^ 127 }
    ensures fits { IsSome result ↔ IsTrue (is_within 64 (signed negative magnitude)) }
    ensures value { IfSome result (λ value. value ≡ signed negative magnitude) }
{
    let value = magnitude as i128;
    i64::try_from(if negative { -value } else { value }).ok()
}
