//! Calls on lengths themselves.
ghost use Rattle.std.specs.Prelude.{◌≡◌, ℕ};
ghost use Rattle.fancy_duration.specs.Meanings.{Parses};
ghost use Rattle.fancy_duration.specs.Durations.{duration_times};

use crate::{AsTimes, FancyDuration, FancyError};
use std::time::Duration;

/// A type that has a [`FancyDuration`].
pub trait AsFancyDuration<T: AsTimes + Copy>: Sized {
    ghost wrapped: { Self → T };

    /// The same length, to be written: `Duration::new(185, 0).fancy_duration()` prints `3m 5s`.
    fn fancy_duration(&self) -> FancyDuration<T>
        ensures { result.0 ≡ wrapped self.now };
}

/// A type that is read from a short text.
pub trait ParseFancyDuration<T: AsTimes + Copy>: Sized {
    ghost parsed: { Self → ℕ × ℕ };

    /// The length that a text denotes: `Duration::parse_fancy_duration("3m 5s")` is 185 seconds.
    fn parse_fancy_duration(s: &str) -> Result<Self, FancyError>
        ensures { Parses parsed T.holds s.now result };
}

impl AsFancyDuration<Duration> for Duration {
    ghost wrapped = { λ d. d };

    fn fancy_duration(&self) -> FancyDuration<Duration> {
        FancyDuration(*self)
    }
}

impl ParseFancyDuration<Duration> for Duration {
    ghost parsed = { duration_times };

    fn parse_fancy_duration(s: &str) -> Result<Self, FancyError> {
        Duration::parse_to_duration(s)
    }
}
