//! The count of ticks, and its constants.
ghost use Rattle.std.specs.Prelude.{◌≡◌};

use std::marker::Model;

/// How long a tick is.
pub(crate) const NANOSECONDS_PER_TICK: u64 = 100;

/// A moment as Windows counts it: whole ticks of 100 nanoseconds since 1601-01-01 00:00:00 UTC.
///
/// Later moments are greater. The last one is +60056-05-28 05:36:10.9551615 UTC.
#[derive(Clone, Copy, Debug, PartialEq, Eq, PartialOrd, Ord, Hash)]
pub struct FileTime {
    raw: u64,
}

impl Model for FileTime {
    ghost use Rattle.std.specs.Prelude.{ℕ};

    ghost Value = { ℕ };

    ghost view = { λ t. t.raw };

    ghost inverse = { λ n. record { raw = n } };
}

impl FileTime {
    /// 1601-01-01 00:00:00 UTC, the first tick.
    pub const NT_TIME_EPOCH: FileTime = FileTime { raw: 0 };

    /// 1970-01-01 00:00:00 UTC.
    pub const UNIX_EPOCH: FileTime = FileTime {
        raw: 116_444_736_000_000_000,
    };

    /// 30828-09-14 02:48:05.4775807 UTC, the last tick that a signed count reaches.
    pub const SIGNED_MAX: FileTime = FileTime {
        raw: i64::MAX as u64,
    };

    /// +60056-05-28 05:36:10.9551615 UTC, the last tick.
    pub const MAX: FileTime = FileTime { raw: u64::MAX };

    /// The file time of that raw count: 0 is [`FileTime::NT_TIME_EPOCH`].
    pub fn new(ft: u64) -> FileTime
        ensures { result ≡ ft }
    {
        FileTime { raw: ft }
    }

    /// The raw count of ticks.
    pub fn to_raw(self) -> u64
        ensures { result ≡ self }
    {
        self.raw
    }
}

// The constants have the counts that the laws speak of.
const _: () = prove!(FileTime::NT_TIME_EPOCH.raw == 0);

const _: () = prove!(FileTime::UNIX_EPOCH.raw == 116_444_736_000_000_000);

const _: () = prove!(FileTime::SIGNED_MAX.raw == 9_223_372_036_854_775_807);

const _: () = prove!(FileTime::MAX.raw == 18_446_744_073_709_551_615);

/// 1601-01-01 00:00:00 UTC.
impl Default for FileTime {
    ghost is_default = { λ t. t ≡ 0 };

    fn default() -> FileTime {
        FileTime::NT_TIME_EPOCH
    }
}

/// The file time of that raw count.
impl From<u64> for FileTime {
    ghost from_gives = { λ raw t. t ≡ raw };

    fn from(raw: u64) -> FileTime {
        FileTime::new(raw)
    }
}

/// The raw count of ticks.
impl From<FileTime> for u64 {
    ghost from_gives = { λ t raw. raw ≡ t };

    fn from(ft: FileTime) -> u64 {
        ft.to_raw()
    }
}
