//! The types that hold a length, and std's `Duration` among them.
ghost use Rattle.std.specs.Prelude.{◌≡◌, ℕ, ◌+◌, ◌*◌, ◌<◌, ◌≤◌, ⊤};
ghost use Rattle.std.specs.Duration.{as_nanos};
ghost use Rattle.std.proofs.Common.{arith};
ghost use Rattle.fancy_duration.specs.Times.{nanos_of};
ghost use Rattle.fancy_duration.specs.Meanings.{Parses};
ghost use Rattle.fancy_duration.specs.Durations.{duration_times, CanMake};

use crate::FancyError;
use crate::read::read_times;
use std::time::Duration;

/// A length of time that has seconds and nanoseconds.
pub trait AsTimes: Sized {
    ghost times: { Self → ℕ × ℕ };

    ghost holds: { ℕ → ℕ → Type 0 };

    /// The seconds, and the nanoseconds beside them, which are fewer than a second.
    fn as_times(&self) -> (u64, u64)
        ensures value { result ≡ times self.now }
        ensures within { result.1 < 1_000_000_000 };

    /// The length that a text denotes.
    ///
    /// `TooBig` comes exactly where [`parse_to_ns`](crate::FancyDuration::parse_to_ns) answers it, and `NotHeld`
    /// exactly where the type doesn't hold the text's seconds and nanoseconds.
    fn parse_to_duration(s: &str) -> Result<Self, FancyError>
        ensures { Parses times holds s.now result };

    /// A length of these seconds and nanoseconds, which is no longer than `self`.
    fn from_times(&self, s: u64, ns: u64) -> Self
        requires below { ns < 1_000_000_000 }
        requires within { nanos_of (s, ns) ≤ nanos_of (times self.now) }
        ensures times { times result ≡ (s, ns) };

    ghost sub_second: { (d : Self) → (times d).1 < 1_000_000_000 };
}

impl AsTimes for Duration {
    ghost times = { duration_times };

    ghost holds = { λ secs nanos. ⊤ };

    ghost sub_second = { λ d. Prim.omega arith };

    fn as_times(&self) -> (u64, u64) {
        (self.as_secs(), u64::from(self.subsec_nanos()))
    }

    fn parse_to_duration(s: &str) -> Result<Self, FancyError> {
        match read_times(s.as_bytes()) {
            Ok((secs, nanos)) => Ok(Duration::new(secs, nanos as u32)),
            Err(error) => Err(error),
        }
    }

    /// A length of `s` seconds and `ns` nanoseconds, of which whole seconds carry.
    fn from_times(&self, s: u64, ns: u64) -> Self
        requires { CanMake self.now s ns }
        ensures length { as_nanos result ≡ s * 1_000_000_000 + ns }
        ensures times { ns < 1_000_000_000 → duration_times result ≡ (s, ns) }
    {
        Duration::new(s, ns as u32)
    }
}
