//! The order of intervals, after PostgreSQL's.
ghost use Rattle.std.specs.Prelude.{◌≡◌, ◌^◌, pos, ◌+ℤ◌, ◌*ℤ◌};
ghost use Rattle.interval_column.specs.Order.{key_of, order_of};
ghost use Rattle.interval_column.specs.inside.Bounds.{IsWithin};

use pg_interval_2::Interval;
use std::cmp::Ordering;

/// How long an interval is by PostgreSQL's order, in microseconds, with 30 days a month and 24 hours a day: of `P1M` it is
/// 2_592_000_000_000, as of `P30D`. Its magnitude is below 2^73, so no interval is too long for it.
pub fn key(interval: Interval) -> i128
    ensures { result ≡ key_of interval }
{
    key_of_parts(
        interval.months as i128,
        interval.days as i128,
        interval.microseconds as i128,
    )
}

/// The key of three parts.
fn key_of_parts(months: i128, days: i128, micros: i128) -> i128
    requires months { IsWithin (2 ^ 31) months }
    requires days { IsWithin (2 ^ 31) days }
    requires micros { IsWithin (2 ^ 63) micros }
    ensures { result ≡ ((pos 30 *ℤ months) +ℤ days) *ℤ pos 86_400_000_000 +ℤ micros }
{
    (30 * months + days) * 86_400_000_000 + micros
}

/// The order of two intervals: by their keys, and where these are equal by months, days and microseconds. So `P30D` is before `P1M`,
/// which PostgreSQL takes for equal, and only equal intervals tie.
pub fn order(a: Interval, b: Interval) -> Ordering
    ensures { result ≡ order_of a b }
{
    key(a)
        .cmp(&key(b))
        .then(a.months.cmp(&b.months))
        .then(a.days.cmp(&b.days))
        .then(a.microseconds.cmp(&b.microseconds))
}
