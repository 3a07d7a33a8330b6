//! File times as a form.
ghost use Rattle.std.specs.Prelude.{◌≡◌, ◌≢◌, ℕ, ◌+◌, ◌^◌, ◌<◌, ◌≤◌, ◌++◌, ◌-ℤ◌, Err, decimal};
ghost use Rattle.arrayvec.specs.ArrayString.{array_string_len};
ghost use Rattle.nt_time.specs.FileTime.{unix_nanos};
ghost use Rattle.forms.specs.declared.form.Form.{Form as AnyForm};
ghost use Rattle.forms.specs.Forms.{Reads, Writes};
ghost use Rattle.forms.specs.Putting.{Puts};
ghost use Rattle.forms.specs.Values.{IsWithinBounds};
ghost use Rattle.forms.specs.form.FileTime.{held, ticks_after};
ghost use Rattle.forms.specs.inside.Lawful.{Lawful};

use crate::cause::Cause;
use crate::value::Value;
use arrayvec::ArrayString;
use nt_time::FileTime;
use nt_time::error::ParseFileTimeCause;
use scan_core::push_num;

/// The nanoseconds from tick 0, 1601-01-01 00:00:00 UTC, to 1970.
const NANOSECONDS_TO_1970: u128 = 11_644_473_600_000_000_000;

/// The value of a raw count in decimal.
pub fn read(text: &[u8]) -> Result<Value, Cause>
    ensures { Reads AnyForm.FileTime text.now result }
{
    match FileTime::from_ascii(text) {
        Ok(time) => Ok(Value::Instant(time.to_unix_time_nanos())),
        Err(error) => match error.cause() {
            ParseFileTimeCause::Empty | ParseFileTimeCause::InvalidDigit => Err(Cause::Syntax),
            ParseFileTimeCause::Overflow => Err(Cause::Range),
        },
    }
}

/// Appends the raw count at an instant, in decimal.
pub fn push<const CAP: usize>(value: Value, out: &mut ArrayString<CAP>) -> Result<(), Cause>
    requires within { IsWithinBounds value }
    requires room { array_string_len out.old + 96 ≤ CAP }
    ensures answer { Puts (Writes AnyForm.FileTime value) out.old.bytes out.new.bytes result }
    ensures len { array_string_len out.new ≤ array_string_len out.old + 96 }
{
    match file_time_of(value) {
        Ok(ticks) => {
            push_ticks(out, ticks);
            Ok(())
        }
        Err(cause) => Err(cause),
    }
}

/// The file time of a value, the count of ticks of 100 nanoseconds since 1601-01-01 00:00:00 UTC, which `write_value` writes: of the
/// instant 0, 1970-01-01 00:00:00 UTC, it is 116_444_736_000_000_000.
///
/// `Kind` where the value is no instant, `Range` where it is before 1601 or behind the last tick of 64 bits, `Precision` where it
/// isn't a whole number of ticks.
pub fn file_time_of(value: Value) -> Result<u64, Cause>
    ensures { result ≡ held value }
{
    match value {
        Value::Instant(nanos) => ticks_at(nanos),
        _ => Err(Cause::Kind),
    }
}

/// Appends the decimal digits of a number, of which 64 bits have 20 at most.
fn push_ticks<const CAP: usize>(out: &mut ArrayString<CAP>, ticks: u64)
    requires { array_string_len out.old + 20 ≤ CAP }
    ensures bytes { out.new.bytes ≡ out.old.bytes ++ decimal ticks }
    ensures len { array_string_len out.new ≤ array_string_len out.old + 20 }
{
    push_num(out, ticks);
}

/// The count of ticks at an instant.
fn ticks_at(nanos: i128) -> Result<u64, Cause>
    ensures { result ≡ ticks_after (nanos -ℤ unix_nanos 0) }
{
    let ticks = only_ticks(nanos);
    if FileTime::new(ticks).to_unix_time_nanos() == nanos {
        Ok(ticks)
    } else {
        Err(off_ticks(nanos))
    }
}

/// Why no count of ticks lies at an instant.
#[inline(never)]
fn off_ticks(nanos: i128) -> Cause
    requires { (ticks : ℕ) → ticks < 2 ^ 64 → unix_nanos ticks ≢ nanos }
    ensures { Err result ≡ ticks_after (nanos -ℤ unix_nanos 0) }
{
    match FileTime::from_unix_time_nanos(nanos) {
        Ok(_) => Cause::Precision,
        Err(_) => Cause::Range,
    }
}

/// The only count of ticks that may lie at an instant.
fn only_ticks(nanos: i128) -> u64
    ensures { (ticks : ℕ) → ticks < 2 ^ 64 → nanos ≡ unix_nanos ticks → result ≡ ticks }
{
    // A product with the inverse of 25 modulo 2^64 divides a multiple of 25, without a quotient of 128 bits.
    let since = nanos.cast_unsigned().wrapping_add(NANOSECONDS_TO_1970);
    ((since / 4 % (1 << 64)) as u64).wrapping_mul(0x8f5c_28f5_c28f_5c29)
}

/// File times are a lawful form.
pub fn lawful()
    ensures { Lawful AnyForm.FileTime }
{
    nt_time::laws::texts_are_ascii();
    nt_time::laws::texts_write_one_number();
}
