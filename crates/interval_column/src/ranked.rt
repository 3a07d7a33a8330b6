//! Intervals with their keys.
ghost use Rattle.std.specs.Prelude.{◌≡◌};
ghost use Rattle.interval_column.specs.Order.{key_of};

use pg_interval_2::Interval;

/// An interval with its key, which is reckoned once: 32 bytes.
#[derive(Clone, Copy)]
pub struct Ranked {
    pub key: i128,
    pub interval: Interval,
    ghost exact: { key ≡ key_of interval },
}
