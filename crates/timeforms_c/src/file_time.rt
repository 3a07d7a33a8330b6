//! Windows file times, the ticks of 100 nanoseconds since 1601-01-01 00:00:00 UTC, and Unix time.
ghost use Rattle.std.specs.Prelude.{◌≡◌, ◌<◌, ◌^◌, ◌⊎◌, ℤ, pos, neg_ℤ, ◌+ℤ◌, ◌*ℤ◌, ◌<ℤ◌, ◌≤ℤ◌, FitsSigned};
ghost use Rattle.std.specs.Int.{w64};
ghost use Rattle.nt_time.specs.FileTime.{unix_nanos};
ghost use Rattle.nt_time.specs.UnixTime.{IsLatestNotAfter};
ghost use Rattle.forms.specs.declared.cause.Cause.{Cause as AnyCause};
ghost use Rattle.timeforms_c.specs.Codes.{code_of};

use crate::code::code_of;
use forms::Cause;
use nt_time::FileTime;

/// The Unix time of so many ticks: whole seconds since 1970, rounded down, and the nanoseconds beyond them, below 10^9. Answers 0.
#[unsafe(no_mangle)]
pub extern "C" fn timeforms_file_time_to_unix_time(
    ticks: u64,
    seconds: &mut i64,
    nanoseconds: &mut u32,
) -> i32
    ensures nanos { seconds.new *ℤ pos 1_000_000_000 +ℤ pos nanoseconds.new ≡ unix_nanos ticks }
    ensures beyond { nanoseconds.new < 1_000_000_000 }
    ensures done { result ≡ pos 0 }
{
    let (whole, beyond) = FileTime::new(ticks).to_unix_time();
    *seconds = whole;
    *nanoseconds = beyond;
    0
}

/// The ticks of the latest file time that is not after so many seconds and nanoseconds since 1970. Answers 0, or the code of `Range` where
/// the seconds are before 1601, or the sum is past the last tick; then the ticks are as they were.
#[unsafe(no_mangle)]
pub extern "C" fn timeforms_file_time_from_unix_time(
    seconds: i64,
    nanoseconds: u32,
    ticks: &mut u64,
) -> i32
    ensures range { (seconds <ℤ neg_ℤ (pos 11_644_473_600))
        ⊎ (unix_nanos (2 ^ 64) ≤ℤ (seconds *ℤ pos 1_000_000_000 +ℤ pos nanoseconds))
        → (result ≡ code_of AnyCause.Range) × (ticks.new ≡ ticks.old) }
    ensures done { neg_ℤ (pos 11_644_473_600) ≤ℤ seconds
        → (seconds *ℤ pos 1_000_000_000 +ℤ pos nanoseconds) <ℤ unix_nanos (2 ^ 64)
        → (result ≡ pos 0)
        × IsLatestNotAfter (seconds *ℤ pos 1_000_000_000 +ℤ pos nanoseconds) ticks.new }
{
    match FileTime::from_unix_time(seconds, nanoseconds) {
        Ok(time) => {
            *ticks = time.to_raw();
            0
        }
        Err(_) => code_of(Cause::Range),
    }
}

/// The nanoseconds since 1970 of so many ticks. Answers 0, or the code of `Range` where 64 bits don't hold them, before 1677-09-21 and
/// after 2262-04-11; then the nanoseconds are as they were.
#[unsafe(no_mangle)]
pub extern "C" fn timeforms_file_time_to_nanoseconds(ticks: u64, nanoseconds: &mut i64) -> i32
    ensures done { FitsSigned w64 (unix_nanos ticks)
        → (result ≡ pos 0) × (nanoseconds.new ≡ unix_nanos ticks) }
    ensures range { ¬ (FitsSigned w64 (unix_nanos ticks))
        → (result ≡ code_of AnyCause.Range) × (nanoseconds.new ≡ nanoseconds.old) }
{
    match i64::try_from(FileTime::new(ticks).to_unix_time_nanos()) {
        Ok(nanos) => {
            *nanoseconds = nanos;
            0
        }
        Err(_) => code_of(Cause::Range),
    }
}

/// The ticks of the latest file time that is not after so many nanoseconds since 1970. There is one for every 64 bits. Answers 0.
#[unsafe(no_mangle)]
pub extern "C" fn timeforms_file_time_from_nanoseconds(nanoseconds: i64, ticks: &mut u64) -> i32
    ensures done { result ≡ pos 0 }
    ensures ticks { IsLatestNotAfter nanoseconds ticks.new }
{
    match FileTime::from_unix_time_nanos(nanoseconds as i128) {
        Ok(time) => {
            *ticks = time.to_raw();
            0
        }
        Err(_) => code_of(Cause::Range),
    }
}
