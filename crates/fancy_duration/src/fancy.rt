//! Lengths that are read and written as short texts.
ghost use Rattle.std.specs.Prelude.{◌≡◌, ◌≢◌, ℕ, ◌+◌, ◌*◌, ◌^◌, ◌<◌, ◌≤◌, ◌++◌, ◌↔◌};
ghost use Rattle.std.specs.Prelude.{IfOk, IsErrOf, Some, IsTrue};
ghost use Rattle.std.specs.String.{string_bytes};
ghost use Rattle.arrayvec.specs.ArrayString.{array_string_len};
ghost use Rattle.fancy_duration.specs.Times.{nanos_of, times_of};
ghost use Rattle.fancy_duration.specs.Meanings.{Denotes, IsTooBig, Parses};
ghost use Rattle.fancy_duration.specs.Breakdown.{kept_length, front_length};
ghost use Rattle.fancy_duration.specs.Written.{length_text, compact_text};
ghost use Rattle.fancy_duration.specs.Strict.{IsStrict};
ghost use Rattle.fancy_duration.specs.Collisions.{MonthsStandAlone};

use crate::breakdown::{have_months_alone, kept_nanos, leading_nanos};
use crate::read::read_times;
use crate::strict::is_strict;
use crate::written::{push_length, without_spaces};
use crate::{AsTimes, DurationPart, FancyError};
use arrayvec::ArrayString;
use scan_core::Short;
use std::alloc::{AllocError, Global};
use std::fmt;
use std::str::FromStr;

/// A duration that is read and written as a short text such as `1h 20m 30s`.
#[derive(Clone, Copy, Debug, PartialEq)]
pub struct FancyDuration<D: AsTimes + Copy>(pub D);

impl<D: AsTimes + Copy> FancyDuration<D> {
    /// Wraps a duration.
    pub fn new(d: D) -> Self
        ensures { result.0 ≡ d }
    {
        FancyDuration(d)
    }

    /// The wrapped duration.
    pub fn duration(&self) -> D
        ensures { result ≡ self.now.0 }
    {
        self.0
    }

    /// The parts of the breakdown that the list holds, with all others 0: `1m 5s 10ms` by minutes and
    /// milliseconds is `1m 10ms`.
    pub fn filter(&self, filter: &[DurationPart]) -> Self
        ensures { D.times result.0
            ≡ times_of (kept_length filter.now (nanos_of (D.times self.now.0))) }
    {
        self.shortened(kept_nanos(self.nanos(), filter))
    }

    /// From the first part above 0 on, `limit` consecutive parts stay, and all later ones are 0: `1h 1m 30us`
    /// truncated to 3 is `1h 1m`.
    pub fn truncate(&self, limit: usize) -> Self
        ensures { D.times result.0 ≡ times_of (front_length limit (nanos_of (D.times self.now.0))) }
    {
        self.shortened(leading_nanos(self.nanos(), limit))
    }

    /// The duration that a text denotes: `3m 5s` is 185 seconds.
    ///
    /// What isn't an item is passed over, as in the Rust crate: `1.5h` is 5 hours, `-5m` 5 minutes, and `1 hour` no
    /// time at all. Ask [`is_fancy_text`](Self::is_fancy_text) first where a text may be something else.
    pub fn parse(s: &str) -> Result<Self, FancyError>
        ensures { Parses (λ fancy. D.times fancy.0) D.holds s.now result }
    {
        match D::parse_to_duration(s) {
            Ok(d) => Ok(FancyDuration(d)),
            Err(error) => Err(error),
        }
    }

    /// The seconds and nanoseconds that a text's items add up to: `1m 30s` is 90 and 0. All else is passed over.
    ///
    /// `TooBig` comes exactly where the seconds pass `u64::MAX`, and `NotHeld` never.
    pub fn parse_to_ns(s: &str) -> Result<(u64, u64), FancyError>
        ensures ok { IfOk result (Denotes s.now) }
        ensures all { (times : ℕ × ℕ) → Denotes s.now times → result ≡ Ok times }
        ensures too_big { IsErrOf result FancyError.TooBig ↔ IsTooBig s.now }
        ensures held { result ≢ Err FancyError.NotHeld }
    {
        read_times(s.as_bytes())
    }

    /// The written text, of at most 96 bytes. It takes no memory.
    pub fn text(&self) -> Short
        ensures bytes { result.bytes ≡ length_text (nanos_of (D.times self.now.0)) }
        ensures short { array_string_len result ≤ 96 }
    {
        let mut out = Short::new();
        self.push_text(&mut out);
        out
    }

    /// Appends what [`text`](Self::text) answers to a text that has room for 96 bytes more: onto `in ` it makes
    /// `in 1h 20m`.
    pub fn push_text<const CAP: usize>(&self, out: &mut ArrayString<CAP>)
        requires room { array_string_len out.old + 96 ≤ CAP }
        ensures bytes { out.new.bytes
            ≡ out.old.bytes ++ length_text (nanos_of (D.times self.now.0)) }
        ensures len { array_string_len out.new ≤ array_string_len out.old + 96 }
    {
        let (secs, nanos) = self.0.as_times();
        push_length(out, secs, nanos);
    }

    /// The written text: `3m 1w 2d 5m 24s`.
    pub fn format(&self, alloc: Global) -> Result<String, AllocError>
        ensures { IfOk result (λ text. string_bytes text
            ≡ length_text (nanos_of (D.times self.now.0))) }
    {
        String::from_str(alloc, self.text().as_str())
    }

    /// The written text without spaces: `3m1w2d5m24s`.
    pub fn format_compact(&self, alloc: Global) -> Result<String, AllocError>
        ensures { IfOk result (λ text. string_bytes text
            ≡ compact_text (nanos_of (D.times self.now.0))) }
    {
        without_spaces(alloc, self.text().as_str())
    }

    /// Whether the written text is read back as this length: not where its months stand alone, as those of 30 days,
    /// which are written `1m` and read as a minute.
    pub fn reads_back(&self) -> bool
        ensures text { IsTrue result
            ↔ Denotes (length_text (nanos_of (D.times self.now.0))) (D.times self.now.0) }
        ensures months { IsTrue result ↔ (¬ (MonthsStandAlone (nanos_of (D.times self.now.0)))) }
    {
        let (seconds, _) = self.0.as_times();
        !have_months_alone(seconds)
    }

    /// True exactly for the strict texts, which have nothing but counts, units and blanks: `1h 5m`, not `1h 5x`.
    pub fn is_fancy_text(s: &str) -> bool
        ensures { IsTrue result ↔ IsStrict s.now }
    {
        is_strict(s.as_bytes())
    }

    /// The length in nanoseconds.
    fn nanos(&self) -> u128
        ensures value { result ≡ nanos_of (D.times self.now.0) }
        ensures within { result < 2 ^ 64 * 1_000_000_000 }
    {
        let (secs, nanos) = self.0.as_times();
        u128::from(secs) * 1_000_000_000 + u128::from(nanos)
    }

    /// The duration with this length, which is no more than its own.
    fn shortened(&self, nanos: u128) -> Self
        requires fits { nanos < 2 ^ 64 * 1_000_000_000 }
        requires within { nanos ≤ nanos_of (D.times self.now.0) }
        ensures { D.times result.0 ≡ times_of nanos }
    {
        let secs = (nanos / 1_000_000_000) as u64;
        FancyDuration(self.0.from_times(secs, (nanos % 1_000_000_000) as u64))
    }
}

impl<D: AsTimes + Copy> fmt::Display for FancyDuration<D> {
    ghost output = { λ fancy. Some (length_text (nanos_of (D.times fancy.0))) };

    fn fmt<W: fmt::Write>(&self, f: &mut fmt::Formatter<W>) -> fmt::Result {
        f.write_str(self.text().as_str())
    }
}

impl<D: AsTimes + Copy> FromStr for FancyDuration<D> {
    type Err = FancyError;

    ghost from_str_gives = { λ bytes result.
        Parses (λ fancy. D.times fancy.0) D.holds bytes result };

    fn from_str(s: &str) -> Result<Self, FancyError> {
        FancyDuration::parse(s)
    }
}
