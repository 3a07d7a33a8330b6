//! What has an interval.
use crate::ranked::Ranked;
use pg_interval_2::Interval;

/// What has an interval: one by itself, or one with its key.
pub trait HasInterval {
    ghost use Rattle.std.specs.Prelude.{◌≡◌};
    ghost use Rattle.pg_interval_2.specs.declared.interval.Interval.{Interval as AnyInterval};

    // Its interval.
    ghost interval_of: { Self → AnyInterval };

    /// Its interval.
    fn interval(&self) -> Interval
        ensures { result ≡ interval_of self.now };
}

impl HasInterval for Interval {
    ghost interval_of = { λ t. t };

    fn interval(&self) -> Interval {
        *self
    }
}

impl HasInterval for Ranked {
    ghost interval_of = { λ r. r.interval };

    fn interval(&self) -> Interval {
        self.interval
    }
}
