//! Offsets. The checks stand in the order of the table.
ghost use Rattle.std.specs.Prelude.{◌≡◌, ◌≤◌};
ghost use Rattle.scan_core.specs.Shares.{signed};
ghost use Rattle.port_toml_datetime.specs.Checks.{numeric_offset_outcome, offset_outcome};

use crate::Offset;
use crate::error::{Check, DatetimeParseError};
use crate::scan::{check, end, mark, read_field};

/// The minutes with their sign.
fn with_sign(negative: bool, minutes: u16) -> i16
    requires { minutes ≤ 1439 }
    ensures { result ≡ signed negative minutes }
{
    let minutes = minutes as i16;
    if negative { -minutes } else { minutes }
}

/// An offset, from behind its sign.
#[tactic(auto, unfolding(crate::specs::Checks::checked, crate::specs::Checks::numeric_offset_outcome))]
#[inline(always)] // else the offset goes through memory
fn read_numeric_offset(negative: bool, bytes: &[u8]) -> Result<Option<Offset>, DatetimeParseError>
    ensures { result ≡ numeric_offset_outcome negative bytes.now }
{
    let (hours, bytes) = read_field(bytes, Check::OffsetHour)?;
    let bytes = mark(b':', bytes, Check::OffsetHourMark)?;
    let (minutes, bytes) = read_field(bytes, Check::OffsetMinute)?;
    check(hours.is_two, Check::OffsetHourWidth)?;
    check(minutes.is_two, Check::OffsetMinuteWidth)?;
    check(hours.number <= 23, Check::OffsetHourRange)?;
    check(minutes.number <= 59, Check::OffsetMinuteRange)?;
    end(bytes)?;
    let minutes = 60 * u16::from(hours.number) + u16::from(minutes.number);
    Ok(Some(Offset::Custom {
        minutes: with_sign(negative, minutes),
    }))
}

/// Behind a date and a time: the end, `Z`, or a signed offset.
#[tactic(auto, unfolding(crate::specs::Checks::checked, crate::specs::Checks::offset_outcome))]
pub(crate) fn read_offset(bytes: &[u8]) -> Result<Option<Offset>, DatetimeParseError>
    ensures { result ≡ offset_outcome bytes.now }
{
    match bytes {
        [] => Ok(None),
        [b'Z', rest @ ..] => {
            end(rest)?;
            Ok(Some(Offset::Z))
        }
        [b'z', rest @ ..] => {
            end(rest)?;
            Ok(Some(Offset::Z))
        }
        [b'+', rest @ ..] => read_numeric_offset(false, rest),
        [b'-', rest @ ..] => read_numeric_offset(true, rest),
        _ => Err(DatetimeParseError::new(Check::Offset)),
    }
}
