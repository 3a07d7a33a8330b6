//! Sorting intervals by keys that are reckoned once.
ghost use Rattle.std.specs.Prelude.{◌≡◌};
ghost use Rattle.interval_column.specs.Columns.{IsColumn};
ghost use Rattle.interval_column.specs.Order.{order_of};
ghost use Rattle.interval_column.specs.inside.Ranks.{intervals_of};

use crate::ordering::key;
use crate::ranked::Ranked;
use pg_interval_2::Interval;
use std::cmp::Ordering;

/// An interval with its key.
pub fn ranked(interval: Interval) -> Ranked
    ensures { result.interval ≡ interval }
{
    Ranked {
        key: key(interval),
        interval,
    }
}

/// Puts intervals in order. It takes no memory.
pub fn sort_ranks(ranks: &mut Vec<Ranked>)
    ensures { IsColumn (intervals_of ranks.old.items) (intervals_of ranks.new.items) }
{
    ranks.sort_unstable_by(|a, b| compare(a, b));
}

/// The order of two intervals, by keys that are known.
#[inline(always)]
fn compare(a: &Ranked, b: &Ranked) -> Ordering
    ensures { result ≡ order_of a.now.interval b.now.interval }
{
    a.key
        .cmp(&b.key)
        .then(a.interval.months.cmp(&b.interval.months))
        .then(a.interval.days.cmp(&b.interval.days))
        .then(a.interval.microseconds.cmp(&b.interval.microseconds))
}
