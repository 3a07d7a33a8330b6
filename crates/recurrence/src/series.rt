//! The instants of a series, one after the other.
ghost use Rattle.std.specs.Prelude.{◌≡◌, ◌+◌, ◌≤◌, ◌^◌, length, None, IsSome, option_map};
ghost use Rattle.std.specs.Iterator.{at_most};
ghost use Rattle.recurrence.specs.Series.{GivesNext, IsSeries};

use crate::instant::{at_start, civil_dates_are_calendar_dates, civil_of};
use jiff_core::civil;
use pg_interval_2::Interval;
use std::marker::Model;

/// The instants 0, 1 and so on steps behind a start, up to the last or to the first that there is not.
#[derive(Drop)]
pub struct Series {
    start: Option<civil::DateTime>,
    step: Interval,
    next: u64,
    left: u64,
    stopped: Option<u32>,
}

impl Model for Series {
    ghost use Rattle.std.specs.Prelude.{◌≡◌, ℕ, ◌+◌, ◌≤◌, ◌^◌, Option, None};
    ghost use Rattle.recurrence.specs.Series.{SeriesState};
    ghost use Rattle.recurrence.specs.inside.Steps.{instants_from, stop_from, or_later, RestsAfterStop};

    ghost Value = { SeriesState };

    ghost view = { λ s. record {
      left = instants_from s.start s.step s.next s.left;
      stop = or_later s.stopped (stop_from s.start s.step s.next s.left);
      stopped = s.stopped;
    } };

    ghost invariant = { λ s. RestsAfterStop s.next s.left s.stopped };
}

impl Series {
    /// The series of a start, a step and the number of the last instant: it has one instant more, if none is missing.
    pub fn new(start: i128, step: Interval, count: u32) -> Series
        ensures series { IsSeries start step count result.left result.stop }
        ensures fresh { result.stopped ≡ None }
    {
        civil_dates_are_calendar_dates();
        Series {
            start: civil_of(start),
            step,
            next: 0,
            left: count as u64 + 1,
            stopped: None,
        }
    }

    /// The first number of steps that has no instant, once the iterator met it.
    pub fn stopped(&self) -> Option<u32>
        ensures { result ≡ self.now.stopped }
    {
        self.stopped
    }
}

impl Iterator for Series {
    type Item = i128;

    ghost next_gives = { GivesNext };

    ghost remaining = { λ s. at_most (length s.left) };

    fn next(&mut self) -> Option<i128> {
        if self.left == 0 {
            return None;
        }
        match at_start(self.start, self.step, self.next as u32) {
            Some(instant) => {
                self.next += 1;
                self.left -= 1;
                Some(instant)
            }
            None => {
                self.stopped = Some(self.next as u32);
                self.left = 0;
                None
            }
        }
    }
}
