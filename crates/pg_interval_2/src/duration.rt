//! The interval of a length of time.
ghost use Rattle.std.specs.Prelude.{◌≡◌, pos, ◌-ℤ◌, ◌*ℤ◌};
ghost use Rattle.std.specs.Option.{SomeIff};
ghost use Rattle.jiff.specs.Words.{signed_nanos, IsWithin};
ghost use Rattle.pg_interval_2.specs.Ranges.{IsInRange};
ghost use Rattle.pg_interval_2.specs.Lengths.{length_of, whole_days};

use crate::interval::Interval;
use jiff::SignedDuration;

/// 24 hours.
const MICROSECONDS_PER_DAY: i128 = 86_400_000_000;

impl Interval {
    /// The interval of the length, which is cut toward zero to microseconds: no months, as many whole days as there are,
    /// toward zero, within `i32`, and the rest as microseconds. `None` exactly where that rest leaves `i64`.
    ///
    /// A day and 1500 nanoseconds give a day and a microsecond; -36 hours give -1 day and -12 hours.
    pub fn from_duration(duration: SignedDuration) -> Option<Interval>
        ensures { SomeIff result (IsInRange (length_of (signed_nanos duration)))
            (length_of (signed_nanos duration)) }
    {
        let micros = duration.as_micros();
        let days = whole_days(micros);
        with_days(days, rest(micros, days))
    }
}

/// The whole days, toward zero, as many as their type has.
fn whole_days(micros: i128) -> i32
    requires { IsWithin 10_000_000_000_000_000_000_000_000 micros }
    ensures { result ≡ whole_days micros }
{
    let days = micros / MICROSECONDS_PER_DAY;
    days.clamp(i32::MIN as i128, i32::MAX as i128) as i32
}

/// The microseconds beside these days.
fn rest(micros: i128, days: i32) -> i128
    requires { IsWithin 10_000_000_000_000_000_000_000_000 micros }
    ensures { result ≡ (micros -ℤ (days *ℤ pos 86_400_000_000)) }
{
    micros - days as i128 * MICROSECONDS_PER_DAY
}

/// Days, and microseconds beside them, where their type holds these.
fn with_days(days: i32, micros: i128) -> Option<Interval>
    ensures { SomeIff result
        (IsInRange (record { months = pos 0; days = days; microseconds = micros }))
        (record { months = pos 0; days = days; microseconds = micros }) }
{
    let microseconds = i64::try_from(micros).ok()?;
    Some(Interval::new(0, days, microseconds))
}
