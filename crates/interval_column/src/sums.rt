//! Sums of intervals by part.
ghost use Rattle.std.specs.Prelude.{◌≡◌, ◌↔◌, ◌+◌, ◌+ℤ◌, ◌<◌, ◌^◌, length, map, IsTrue, IsSome, IfSome};
ghost use Rattle.scan_core.specs.Shares.{fits_type};
ghost use Rattle.scan_core.specs.declared.share.Part.TheVariants.{Months, Days, Micros};
ghost use Rattle.interval_column.specs.Columns.{sum_by_part, total_of};

use crate::interval_of::HasInterval;
use pg_interval_2::Interval;
use scan_core::{Share, Totals};

/// The sum by part of intervals, or None exactly where a part leaves its type.
pub fn total_of<T: HasInterval>(items: &[T]) -> Option<Interval>
    requires { length items.now < 2 ^ 63 }
    ensures { result ≡ total_of (map T.interval_of items.now) }
{
    interval_of(&sums_of(items))
}

/// The sums by part.
fn sums_of<T: HasInterval>(items: &[T]) -> Totals
    requires { length items.now < 2 ^ 63 }
    ensures months { result.months ≡ (sum_by_part (map T.interval_of items.now)).months }
    ensures days { result.days ≡ (sum_by_part (map T.interval_of items.now)).days }
    ensures micros { result.micros ≡ (sum_by_part (map T.interval_of items.now)).microseconds }
{
    let mut totals = Totals::new();
    for item in items {
        add(&mut totals, item.interval());
    }
    totals
}

/// Adds an interval.
fn add(totals: &mut Totals, interval: Interval)
    requires { totals.old.adds < 2 ^ 63 }
    ensures months { totals.new.months ≡ totals.old.months +ℤ interval.months }
    ensures days { totals.new.days ≡ totals.old.days +ℤ interval.days }
    ensures micros { totals.new.micros ≡ totals.old.micros +ℤ interval.microseconds }
    ensures adds { totals.new.adds ≡ totals.old.adds + 1 }
{
    totals.add(Share {
        months: interval.months,
        days: interval.days,
        micros: interval.microseconds,
    });
}

/// The interval of three sums, or None exactly where one leaves its type.
fn interval_of(totals: &Totals) -> Option<Interval>
    ensures some { IsSome result ↔ (IsTrue (fits_type Months totals.now.months)
        × IsTrue (fits_type Days totals.now.days)
        × IsTrue (fits_type Micros totals.now.micros)) }
    ensures value { IfSome result (λ t. (t.months ≡ totals.now.months)
        × (t.days ≡ totals.now.days) × (t.microseconds ≡ totals.now.micros)) }
{
    let (months, days, microseconds) = totals.fits()?;
    Some(Interval {
        months,
        days,
        microseconds,
    })
}
