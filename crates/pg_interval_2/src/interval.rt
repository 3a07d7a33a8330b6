//! Intervals: months, days and microseconds.
ghost use Rattle.std.specs.Prelude.{◌≡◌};

/// An interval as PostgreSQL keeps it. The three parts stand beside each other: a month is no number of days, and a day
/// no number of hours.
#[derive(Clone, Copy, Debug, PartialEq, Eq)]
pub struct Interval {
    /// Whole months, 12 a year.
    pub months: i32,
    /// Whole days.
    pub days: i32,
    /// Microseconds, 3_600_000_000 an hour.
    pub microseconds: i64,
}

impl Interval {
    /// The interval of these parts: `Interval::new(13, 1, 0)` is a year, a month and a day.
    pub fn new(months: i32, days: i32, microseconds: i64) -> Interval
        ensures { result ≡ record { months = months; days = days; microseconds = microseconds } }
    {
        Interval {
            months,
            days,
            microseconds,
        }
    }
}
