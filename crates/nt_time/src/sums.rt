//! File times and lengths of time, which are cut to whole ticks.
ghost use Rattle.std.specs.Prelude.{◌≡◌, ◌-◌, ◌*◌, ◌^◌, ◌≤◌, ◌↔◌, neg_ℤ, IfSome, IsSome, IsNone, IfOk, IsErrOf};
ghost use Rattle.std.specs.Duration.{as_nanos};
ghost use Rattle.jiff.specs.Words.{signed_nanos};
ghost use Rattle.nt_time.specs.Ticks.{IsWholeTicks, IsAfterBy, IsMovedBy, CanAddTicks, CanSubTicks, CanMoveTicks};

use crate::FileTime;
use crate::error::{FileTimeRangeError, FileTimeRangeErrorKind};
use crate::file_time::NANOSECONDS_PER_TICK;
use jiff::SignedDuration;
use std::ops::{Add, AddAssign, Sub, SubAssign};
use std::time::Duration;

impl FileTime {
    /// The length since the first tick, 100 nanoseconds for each tick.
    pub fn to_duration(self) -> Duration
        ensures { as_nanos result ≡ 100 * self }
    {
        Duration::from_nanos_u128(self.to_raw() as u128 * NANOSECONDS_PER_TICK as u128)
    }

    /// The file time that is the whole ticks of the length after the first tick.
    ///
    /// `Overflow` exactly where they pass `u64::MAX`; never `Negative`.
    pub fn from_duration(duration: Duration) -> Result<FileTime, FileTimeRangeError>
        ensures ok { IfOk result (IsWholeTicks (as_nanos duration)) }
        ensures overflow { IsErrOf result FileTimeRangeErrorKind.Overflow
            ↔ (100 * 2 ^ 64 ≤ as_nanos duration) }
        ensures never_negative { ¬ IsErrOf result FileTimeRangeErrorKind.Negative }
    {
        match whole_ticks(duration) {
            Some(ticks) => Ok(FileTime::new(ticks)),
            None => Err(FileTimeRangeErrorKind::Overflow.into()),
        }
    }

    /// The file time that is the whole ticks of `rhs` later. `None` exactly where it leaves `u64`.
    ///
    /// 99 nanoseconds add no tick, and 199 add one.
    pub fn checked_add(self, rhs: Duration) -> Option<FileTime>
        ensures some { IsSome result ↔ CanAddTicks self (as_nanos rhs) }
        ensures value { IfSome result (IsAfterBy (as_nanos rhs) self) }
    {
        let raw = self.to_raw().checked_add(whole_ticks(rhs)?)?;
        Some(FileTime::new(raw))
    }

    /// The file time that is the whole ticks of `rhs` earlier. `None` exactly where it leaves `u64`.
    pub fn checked_sub(self, rhs: Duration) -> Option<FileTime>
        ensures some { IsSome result ↔ CanSubTicks self (as_nanos rhs) }
        ensures value { IfSome result (λ t. IsAfterBy (as_nanos rhs) t self) }
    {
        let raw = self.to_raw().checked_sub(whole_ticks(rhs)?)?;
        Some(FileTime::new(raw))
    }

    /// As [`FileTime::checked_add`], and [`FileTime::MAX`] where that is `None`.
    pub fn saturating_add(self, rhs: Duration) -> FileTime
        ensures sum { CanAddTicks self (as_nanos rhs) → IsAfterBy (as_nanos rhs) self result }
        ensures saturated { ¬ CanAddTicks self (as_nanos rhs) → result ≡ 2 ^ 64 - 1 }
    {
        self.checked_add(rhs).unwrap_or(FileTime::MAX)
    }

    /// As [`FileTime::checked_sub`], and [`FileTime::NT_TIME_EPOCH`] where that is `None`.
    pub fn saturating_sub(self, rhs: Duration) -> FileTime
        ensures difference { CanSubTicks self (as_nanos rhs)
            → IsAfterBy (as_nanos rhs) result self }
        ensures saturated { ¬ CanSubTicks self (as_nanos rhs) → result ≡ 0 }
    {
        self.checked_sub(rhs).unwrap_or(FileTime::NT_TIME_EPOCH)
    }

    /// The file time that is the whole ticks of `rhs` later, or earlier where `rhs` is negative. The
    /// magnitude is cut to whole ticks. `None` exactly where it leaves `u64`.
    ///
    /// Raw count 5 and -199 nanoseconds give raw count 4.
    pub fn checked_add_signed(self, rhs: SignedDuration) -> Option<FileTime>
        ensures some { IsSome result ↔ CanMoveTicks self (signed_nanos rhs) }
        ensures value { IfSome result (IsMovedBy (signed_nanos rhs) self) }
    {
        if rhs.is_negative() {
            self.checked_sub(rhs.unsigned_abs())
        } else {
            self.checked_add(rhs.unsigned_abs())
        }
    }

    /// The file time that is the whole ticks of `rhs` earlier, or later where `rhs` is negative. The
    /// magnitude is cut to whole ticks. `None` exactly where it leaves `u64`.
    pub fn checked_sub_signed(self, rhs: SignedDuration) -> Option<FileTime>
        ensures some { IsSome result ↔ CanMoveTicks self (neg_ℤ (signed_nanos rhs)) }
        ensures value { IfSome result (IsMovedBy (neg_ℤ (signed_nanos rhs)) self) }
    {
        if rhs.is_negative() {
            self.checked_add(rhs.unsigned_abs())
        } else {
            self.checked_sub(rhs.unsigned_abs())
        }
    }
}

/// The whole ticks of a length. `None` exactly where they pass `u64::MAX`.
fn whole_ticks(duration: Duration) -> Option<u64>
    ensures none { IsNone result ↔ (100 * 2 ^ 64 ≤ as_nanos duration) }
    ensures value { IfSome result (IsWholeTicks (as_nanos duration)) }
{
    u64::try_from(duration.as_nanos() / NANOSECONDS_PER_TICK as u128).ok()
}

/// As [`FileTime::checked_add`], which must be `Some`.
impl Add<Duration> for FileTime {
    type Output = FileTime;

    ghost can_add = { λ t d. CanAddTicks t (as_nanos d) };

    ghost add_gives = { λ t d r. IsAfterBy (as_nanos d) t r };

    fn add(self, rhs: Duration) -> FileTime {
        self.checked_add(rhs).unwrap()
    }
}

/// As [`FileTime::checked_add`], which must be `Some`.
impl AddAssign<Duration> for FileTime {
    ghost can_add_assign = { λ t d. CanAddTicks t (as_nanos d) };

    ghost add_assign_gives = { λ t d r. IsAfterBy (as_nanos d) t r };

    fn add_assign(&mut self, rhs: Duration) {
        *self = *self + rhs;
    }
}

/// As [`FileTime::checked_sub`], which must be `Some`.
impl Sub<Duration> for FileTime {
    type Output = FileTime;

    ghost can_sub = { λ t d. CanSubTicks t (as_nanos d) };

    ghost sub_gives = { λ t d r. IsAfterBy (as_nanos d) r t };

    fn sub(self, rhs: Duration) -> FileTime {
        self.checked_sub(rhs).unwrap()
    }
}

/// As [`FileTime::checked_sub`], which must be `Some`.
impl SubAssign<Duration> for FileTime {
    ghost can_sub_assign = { λ t d. CanSubTicks t (as_nanos d) };

    ghost sub_assign_gives = { λ t d r. IsAfterBy (as_nanos d) r t };

    fn sub_assign(&mut self, rhs: Duration) {
        *self = *self - rhs;
    }
}

/// The length from the right side to the left, which must not be earlier.
impl Sub for FileTime {
    type Output = Duration;

    ghost can_sub = { λ a b. b ≤ a };

    ghost sub_gives = { λ a b r. as_nanos r ≡ 100 * (a - b) };

    fn sub(self, rhs: FileTime) -> Duration {
        FileTime::new(self.to_raw() - rhs.to_raw()).to_duration()
    }
}
