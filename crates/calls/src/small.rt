//! A type of a user's own that holds short lengths.
ghost use Rattle.std.specs.Prelude.{◌<◌, ◌^◌, ◌%◌};
ghost use Rattle.std.proofs.Common.{arith};

use fancy_duration::{AsTimes, FancyDuration, FancyError};
use std::time::Duration;

/// Seconds and nanoseconds of 32 bits each.
#[derive(Clone, Copy, Debug, PartialEq)]
pub struct Small(u32, u32);

impl AsTimes for Small {
    ghost times = { λ small. (small.0, small.1 % 1_000_000_000) };

    ghost holds = { λ secs nanos. secs < 2 ^ 32 };

    ghost sub_second = { λ small. Prim.omega arith };

    fn as_times(&self) -> (u64, u64) {
        (u64::from(self.0), u64::from(self.1 % 1_000_000_000))
    }

    fn parse_to_duration(s: &str) -> Result<Self, FancyError> {
        match FancyDuration::<Duration>::parse_to_ns(s) {
            Ok((secs, nanos)) => match u32::try_from(secs) {
                Ok(secs) => Ok(Small(secs, nanos as u32)),
                Err(_) => Err(FancyError::NotHeld),
            },
            Err(error) => Err(error),
        }
    }

    fn from_times(&self, s: u64, ns: u64) -> Self {
        let _held = self.0;
        Small(s as u32, ns as u32)
    }
}
