//! What is asked of values: another offset, whether a duration is of no time, and how long it is.
use crate::types::{Duration, Time};
use std::time;

impl Time {
    ghost use Rattle.std.specs.Prelude.{◌≡◌};

    /// The time with this offset, hours and minutes ahead of UTC; all else stays, and the moment is another.
    ///
    /// `time.set_tz((5, 30))` of `16:43Z` is `16:43+05:30`.
    pub fn set_tz(&self, tzo: (i32, i32)) -> Time
        ensures { result ≡ record self.now { tz_offset_hours = tzo.0; tz_offset_minutes = tzo.1 } }
    {
        Time {
            tz_offset_hours: tzo.0,
            tz_offset_minutes: tzo.1,
            ..*self
        }
    }
}

impl Duration {
    ghost use Rattle.std.specs.Prelude.{◌≡◌, ◌⊎◌, ◌↔◌, IsTrue};
    ghost use Rattle.iso8601.specs.Defaults.{zero_duration};
    ghost use Rattle.iso8601.specs.declared.types.Duration.TheVariants.{Weeks};

    /// Whether every count is 0: true exactly of `Duration::default()` and of `Duration::Weeks(0)`.
    pub fn is_zero(&self) -> bool
        ensures { IsTrue result ↔ ((self.now ≡ zero_duration) ⊎ (self.now ≡ Weeks 0)) }
    {
        *self == Duration::default() || *self == Duration::Weeks(0)
    }
}

/// How long the duration is where a year is 365 days, a month 30 and a week 7. Milliseconds carry into seconds. Every
/// duration has a length: the longest is below 2^57 seconds.
impl From<Duration> for time::Duration {
    ghost use Rattle.std.specs.Prelude.{◌≡◌};
    ghost use Rattle.std.specs.Duration.{as_nanos};
    ghost use Rattle.iso8601.specs.Lengths.{length_nanos};

    ghost from_gives = { λ duration length. as_nanos length ≡ length_nanos duration };

    fn from(duration: Duration) -> time::Duration {
        match duration {
            Duration::YMDHMS {
                year,
                month,
                day,
                hour,
                minute,
                second,
                millisecond,
            } => {
                let days = 365 * u64::from(year) + 30 * u64::from(month) + u64::from(day);
                let minutes = 60 * u64::from(hour) + u64::from(minute);
                let seconds = 86_400 * days + 60 * minutes + u64::from(second);
                time::Duration::new(
                    seconds + u64::from(millisecond / 1000),
                    millisecond % 1000 * 1_000_000,
                )
            }
            Duration::Weeks(weeks) => time::Duration::from_secs(604_800 * u64::from(weeks)),
        }
    }
}
