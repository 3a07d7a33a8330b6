//! Sums, differences and the order of intervals, and the interval of a length.
ghost use Rattle.std.specs.Prelude.{◌≡◌, ◌<◌, ◌≤◌, pos, IfSome, IfNone};
ghost use Rattle.jiff.specs.Words.{signed_nanos};
ghost use Rattle.pg_interval_2.specs.Lengths.{length_of};
ghost use Rattle.pg_interval_2.specs.Ranges.{IsInRange};
ghost use Rattle.pg_interval_2.specs.Sums.{plus, less};
ghost use Rattle.interval_column.specs.Order.{order_of};
ghost use Rattle.forms.specs.declared.cause.Cause.{Cause as AnyCause};
ghost use Rattle.timeforms_c.specs.Codes.{code_of};
ghost use Rattle.timeforms_c.specs.Intervals.{seen, no_time, nanos_of, number_of_order};

use crate::code::code_of;
use crate::duration::NANOSECONDS_A_SECOND;
use crate::interval::TimeformsInterval;
use forms::Cause;
use interval_column::order;
use jiff::SignedDuration;
use pg_interval_2::Interval;
use std::cmp::Ordering;

/// The sum of two intervals, part by part. Answers 0, or the code of `Range` exactly where a part leaves its type; then the sum is as it
/// was.
#[unsafe(no_mangle)]
pub extern "C" fn timeforms_interval_add(
    a: TimeformsInterval,
    b: TimeformsInterval,
    sum: &mut TimeformsInterval,
) -> i32
    ensures done { IsInRange (plus (seen a) (seen b)) → (result ≡ pos 0)
        × (seen sum.new ≡ plus (seen a) (seen b)) }
    ensures range { ¬ (IsInRange (plus (seen a) (seen b)))
        → (result ≡ code_of AnyCause.Range) × (sum.new ≡ sum.old) }
{
    put_interval(interval_of(a).checked_add(interval_of(b)), sum)
}

/// The first interval less the second, part by part. Answers 0, or the code of `Range` exactly where a part leaves its type; then the
/// difference is as it was.
#[unsafe(no_mangle)]
pub extern "C" fn timeforms_interval_subtract(
    a: TimeformsInterval,
    b: TimeformsInterval,
    difference: &mut TimeformsInterval,
) -> i32
    ensures done { IsInRange (less (seen a) (seen b)) → (result ≡ pos 0)
        × (seen difference.new ≡ less (seen a) (seen b)) }
    ensures range { ¬ (IsInRange (less (seen a) (seen b)))
        → (result ≡ code_of AnyCause.Range) × (difference.new ≡ difference.old) }
{
    put_interval(interval_of(a).checked_sub(interval_of(b)), difference)
}

/// The interval with the sign of each part turned. Answers 0, or the code of `Range` exactly where a part is the least of its type; then
/// `negated` is as it was.
#[unsafe(no_mangle)]
pub extern "C" fn timeforms_interval_negate(
    a: TimeformsInterval,
    negated: &mut TimeformsInterval,
) -> i32
    ensures done { IsInRange (less no_time (seen a))
        → (result ≡ pos 0)
        × (seen negated.new ≡ less no_time (seen a)) }
    ensures range { ¬ (IsInRange (less no_time (seen a)))
        → (result ≡ code_of AnyCause.Range) × (negated.new ≡ negated.old) }
{
    put_interval(Interval::new(0, 0, 0).checked_sub(interval_of(a)), negated)
}

/// How two intervals are ordered: -1 where the first is before the second, 0 where they are equal, 1 where it is behind. A month counts
/// 30 days and a day 24 hours, and intervals that are as long as each other go by months, days and microseconds.
#[unsafe(no_mangle)]
pub extern "C" fn timeforms_interval_compare(a: TimeformsInterval, b: TimeformsInterval) -> i32
    ensures { result ≡ number_of_order (order_of (seen a) (seen b)) }
{
    match order(interval_of(a), interval_of(b)) {
        Ordering::Less => -1,
        Ordering::Equal => 0,
        Ordering::Greater => 1,
    }
}

/// The interval of so many seconds and the nanoseconds beyond them, below 10^9, cut toward zero to microseconds: no months, as many whole
/// days of 24 hours as there are, toward zero, and the rest. Answers 0, or the code of `Range` at 10^9 nanoseconds and more, and exactly
/// where a part leaves its type; then the interval is as it was.
#[unsafe(no_mangle)]
pub extern "C" fn timeforms_interval_from_seconds(
    seconds: i64,
    nanoseconds: u32,
    interval: &mut TimeformsInterval,
) -> i32
    ensures done { nanoseconds < 1_000_000_000
        → IsInRange (length_of (nanos_of seconds (pos nanoseconds))) → (result ≡ pos 0)
        × (seen interval.new
        ≡ length_of (nanos_of seconds (pos nanoseconds))) }
    ensures range { nanoseconds < 1_000_000_000
        → ¬ (IsInRange (length_of (nanos_of seconds (pos nanoseconds))))
        → (result ≡ code_of AnyCause.Range) × (interval.new ≡ interval.old) }
    ensures beyond { 1_000_000_000 ≤ nanoseconds
        → (result ≡ code_of AnyCause.Range) × (interval.new ≡ interval.old) }
{
    if nanoseconds >= NANOSECONDS_A_SECOND {
        return code_of(Cause::Range);
    }
    put_interval(
        Interval::from_duration(length(seconds, nanoseconds)),
        interval,
    )
}

/// The length of so many seconds and nanoseconds beyond them.
fn length(seconds: i64, nanoseconds: u32) -> SignedDuration
    requires { nanoseconds < 1_000_000_000 }
    ensures { signed_nanos result ≡ nanos_of seconds (pos nanoseconds) }
{
    SignedDuration::from_nanos_i128(seconds as i128 * 1_000_000_000 + nanoseconds as i128)
}

/// The same interval as the crates below have it.
pub(crate) fn interval_of(a: TimeformsInterval) -> Interval
    ensures { result ≡ seen a }
{
    Interval::new(a.months, a.days, a.microseconds)
}

/// Hands an interval on where there is one, and else answers the code of `Range`.
fn put_interval(found: Option<Interval>, out: &mut TimeformsInterval) -> i32
    ensures some { IfSome found (λ t. (result ≡ pos 0)
        × (seen out.new ≡ t)) }
    ensures none { IfNone found ((result ≡ code_of AnyCause.Range) × (out.new ≡ out.old)) }
{
    match found {
        Some(interval) => {
            out.months = interval.months;
            out.days = interval.days;
            out.microseconds = interval.microseconds;
            0
        }
        None => code_of(Cause::Range),
    }
}
