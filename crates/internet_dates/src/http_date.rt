//! Dates of HTTP (RFC 9110, section 5.6.7): read in two forms, and written in one.
ghost use Rattle.std.specs.Prelude.{◌≡◌, ◌+◌, ◌≤◌, ◌++◌, codes, option_map, IsSome, IfSome, IfNone};
ghost use Rattle.internet_dates.specs.inside.Reading.{is_text, read_asctime, read_fixdate, read_http_date, read_padded, read_padded_day, tens};
ghost use Rattle.arrayvec.specs.ArrayString.{array_string_len};
ghost use Rattle.internet_dates.specs.DateTimes.{IsRealMoment};
ghost use Rattle.internet_dates.specs.HttpDate.{IsHttpDate};
ghost use Rattle.internet_dates.specs.Readings.{IsRead};
ghost use Rattle.internet_dates.specs.Written.{http_date_text};
ghost use Rattle.internet_dates.specs.declared.date_time.DateTime.{DateTime as Fields};

use crate::date_time::DateTime;
use crate::error::DateError;
use crate::fields::{split_clock, split_pair, split_year, strip, two_number};
use crate::names::{split_month, split_weekday};
use crate::written::push_moment;
use arrayvec::ArrayString;
use scan_core::push_text as push_bytes;

/// Whether ` GMT` is left.
#[inline(always)]
fn is_gmt(bytes: &[u8]) -> bool
    ensures { result ≡ is_text (codes " GMT") bytes.now }
{
    match bytes {
        [b' ', b'G', b'M', b'T'] => true,
        _ => false,
    }
}

/// An IMF-fixdate, from behind the comma.
#[inline(always)]
#[tactic(auto, unfolding(crate::specs::inside::Reading::read_fixdate, crate::specs::inside::Reading::read_clock))]
fn read_fixdate(weekday: u8, bytes: &[u8]) -> Option<DateTime>
    ensures { result ≡ read_fixdate weekday bytes.now }
{
    let (day, rest) = split_pair(b' ', bytes, 1, 31)?;
    let (month, rest) = split_month(rest)?;
    let (year, rest) = split_year(rest)?;
    let (hour, rest) = split_pair(b' ', rest, 0, 24)?;
    let (minute, rest) = split_pair(b':', rest, 0, 59)?;
    let (second, rest) = split_pair(b':', rest, 0, 60)?;
    if is_gmt(rest) {
        Some(DateTime {
            weekday: Some(weekday),
            year,
            month,
            day,
            hour,
            minute,
            second,
            offset: 0,
        })
    } else {
        None
    }
}

/// A blank stands for the digit 0.
fn tens(byte: u8) -> u8
    ensures { result ≡ tens byte }
{
    if byte == b' ' { b'0' } else { byte }
}

/// A day of two digits, of which the first may be a blank, and what follows it.
fn split_padded(bytes: &[u8]) -> Option<(u8, &[u8])>
    ensures { option_map (λ r. (r.0, r.1.now)) result ≡ read_padded bytes.now }
{
    match bytes {
        [a, b, rest @ ..] => Some((two_number(tens(*a), *b, 1, 31)?, rest)),
        _ => None,
    }
}

/// The same behind a blank.
#[tactic(auto, unfolding(crate::specs::inside::Reading::read_padded_day))]
fn split_padded_day(bytes: &[u8]) -> Option<(u8, &[u8])>
    ensures { option_map (λ r. (r.0, r.1.now)) result ≡ read_padded_day bytes.now }
{
    split_padded(strip(b' ', bytes)?)
}

/// The form of asctime, from behind the name of the day.
#[tactic(auto, unfolding(crate::specs::inside::Reading::read_asctime))]
fn read_asctime(weekday: u8, bytes: &[u8]) -> Option<DateTime>
    ensures { result ≡ read_asctime weekday bytes.now }
{
    let (month, rest) = split_month(bytes)?;
    let (day, rest) = split_padded_day(rest)?;
    let (clock, rest) = split_clock(rest)?;
    let (year, rest) = split_year(rest)?;
    if rest.is_empty() {
        Some(DateTime {
            weekday: Some(weekday),
            year,
            month,
            day,
            hour: clock.hour,
            minute: clock.minute,
            second: clock.second,
            offset: 0,
        })
    } else {
        None
    }
}

/// A date of either form: a comma behind the name of the day tells them apart.
#[tactic(auto, unfolding(crate::specs::inside::Reading::read_http_date))]
#[inline(always)]
fn read_fields(text: &[u8]) -> Option<DateTime>
    ensures { result ≡ read_http_date text.now }
{
    let (weekday, rest) = split_weekday(text)?;
    match strip(b',', rest) {
        Some(behind) => read_fixdate(weekday, behind),
        None => read_asctime(weekday, rest),
    }
}

/// The fields of a date of HTTP, whether or not there is such a moment: an IMF-fixdate, `Sun, 06 Nov 1994 08:49:37 GMT`, or the form of
/// asctime, `Sun Nov  6 08:49:37 1994`, whose day may have a zero in place of its blank. Names are told by case.
///
/// None exactly where the text is neither. The form of RFC 850, `Sunday, 06-Nov-94 08:49:37 GMT`, isn't read: its century would hang on
/// the day of the reading.
pub fn fields(text: &[u8]) -> Option<DateTime>
    ensures found { IfSome result (λ t. IsHttpDate text.now t) }
    ensures none { IfNone result ((t : Fields) → ¬ (IsHttpDate text.now t)) }
{
    read_fields(text)
}

/// The moment of a date of HTTP in seconds since 1970-01-01 in UTC.
///
/// `Sun, 06 Nov 1994 08:49:37 GMT` is 784111777. `Syntax` where [`fields`] gives none, `NoSuchMoment` where there is no such moment.
pub fn read(text: &[u8]) -> Result<i64, DateError>
    ensures { IsRead IsHttpDate 0 text.now result }
{
    // Of an IMF-fixdate this one test of the length stands for those of all fields.
    if text.len() == 29 {
        moment_of(text)
    } else {
        read_other(text)
    }
}

/// The same in a function of its own.
#[inline(never)]
fn read_other(text: &[u8]) -> Result<i64, DateError>
    ensures { IsRead IsHttpDate 0 text.now result }
{
    moment_of(text)
}

/// The same at each place where it is called.
#[inline(always)]
fn moment_of(text: &[u8]) -> Result<i64, DateError>
    ensures { IsRead IsHttpDate 0 text.now result }
{
    match read_fields(text) {
        Some(t) => t.judged(0),
        None => Err(DateError::Syntax),
    }
}

/// Appends an IMF-fixdate of 29 bytes, such as `Sun, 06 Nov 1994 08:49:37 GMT`, of a real date in UTC that has the name of its day.
/// Its offset is taken to be 0 and isn't looked at.
#[inline(always)]
pub fn push_text<const CAP: usize>(out: &mut ArrayString<CAP>, t: &DateTime)
    requires real { IsRealMoment t.now }
    requires named { IsSome t.now.weekday }
    requires room { array_string_len out.old + 29 ≤ CAP }
    ensures bytes { out.new.bytes ≡ out.old.bytes ++ http_date_text t.now }
    ensures len { array_string_len out.new ≡ array_string_len out.old + 29 }
{
    push_moment(out, t);
    push_bytes(out, " GMT");
}
