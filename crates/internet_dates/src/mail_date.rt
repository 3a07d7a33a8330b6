//! Dates of mail (RFC 5322, section 3.3).
ghost use Rattle.std.specs.Prelude.{◌≡◌, ◌+◌, ◌*◌, ◌^◌, ◌<◌, ◌≤◌, ◌++◌, codes, option_map, IsSome, IfSome, IfNone};
ghost use Rattle.scan_core.specs.Fronts.{behind};
ghost use Rattle.scan_core.specs.Shares.{signed};
ghost use Rattle.internet_dates.specs.MailDate.{is_comment_byte};
ghost use Rattle.internet_dates.specs.inside.Reading.{begins_with_digit, is_closed, is_comment, is_text, read_day, read_day_behind, read_front, read_mail_date, read_named, read_numeric, read_opening, read_seconds, read_spaced_zone, read_ut, read_zone, read_zone_name};
ghost use Rattle.arrayvec.specs.ArrayString.{array_string_len};
ghost use Rattle.internet_dates.specs.DateTimes.{IsRealMoment};
ghost use Rattle.internet_dates.specs.MailDate.{IsMailDate};
ghost use Rattle.internet_dates.specs.Readings.{IsRead};
ghost use Rattle.internet_dates.specs.Written.{mail_date_text};
ghost use Rattle.internet_dates.specs.declared.date_time.DateTime.{DateTime as Fields};

use crate::date_time::DateTime;
use crate::error::DateError;
use crate::fields::{split_pair, split_two, split_year, strip, two_number};
use crate::names::{split_month, split_weekday, split_zone_name};
use crate::written::push_moment;
use arrayvec::ArrayString;
use scan_core::push_text as push_bytes;

/// The first year that dates of mail have.
const FIRST_YEAR: u16 = 1900;

/// Whether a digit stands in front.
fn begins_with_digit(bytes: &[u8]) -> bool
    ensures { result ≡ begins_with_digit bytes.now }
{
    match bytes {
        [b'0'..=b'9', ..] => true,
        _ => false,
    }
}

/// The name of a day, a comma and a blank, and what follows them.
#[tactic(auto, unfolding(crate::specs::inside::Reading::read_named))]
fn split_named(bytes: &[u8]) -> Option<(Option<u8>, &[u8])>
    ensures { option_map (λ r. (r.0, r.1.now)) result ≡ read_named bytes.now }
{
    let (weekday, rest) = split_weekday(bytes)?;
    let rest = strip(b',', rest)?;
    let rest = strip(b' ', rest)?;
    Some((Some(weekday), rest))
}

/// The same, or nothing where a digit stands in front.
#[tactic(auto, unfolding(crate::specs::inside::Reading::read_front))]
fn split_front(bytes: &[u8]) -> Option<(Option<u8>, &[u8])>
    ensures { option_map (λ r. (r.0, r.1.now)) result ≡ read_front bytes.now }
{
    if begins_with_digit(bytes) {
        Some((None, bytes))
    } else {
        split_named(bytes)
    }
}

/// A day whose first byte was read, and what follows it: a blank ends a day of one digit.
fn split_day_behind(a: u8, bytes: &[u8]) -> Option<(u8, &[u8])>
    ensures { option_map (λ r. (r.0, r.1.now)) result ≡ read_day_behind a bytes.now }
{
    match bytes {
        [b' ', ..] => Some((two_number(b'0', a, 1, 31)?, bytes)),
        [b, rest @ ..] => Some((two_number(a, *b, 1, 31)?, rest)),
        [] => None,
    }
}

/// One or two digits of a day, and what follows them.
fn split_day(bytes: &[u8]) -> Option<(u8, &[u8])>
    ensures { option_map (λ r. (r.0, r.1.now)) result ≡ read_day bytes.now }
{
    match bytes {
        [a, rest @ ..] => split_day_behind(*a, rest),
        [] => None,
    }
}

/// Seconds behind a colon, or 0 where there is none, and what follows them.
#[inline(always)]
fn split_seconds(bytes: &[u8]) -> Option<(u8, &[u8])>
    ensures { option_map (λ r. (r.0, r.1.now)) result ≡ read_seconds bytes.now }
{
    match bytes {
        [b':', rest @ ..] => split_two(rest, 0, 60),
        _ => Some((0, bytes)),
    }
}

/// The minutes with their sign.
fn with_sign(negative: bool, minutes: u16) -> i16
    requires { minutes < 2 ^ 15 }
    ensures { result ≡ signed negative minutes }
{
    let minutes = minutes as i16;
    if negative { -minutes } else { minutes }
}

/// The minutes of hours and minutes.
fn minutes_of(hours: u8, minutes: u8) -> u16
    ensures minutes { result ≡ 60 * hours + minutes }
    ensures bound { result < 2 ^ 15 }
{
    60 * u16::from(hours) + u16::from(minutes)
}

/// Hours and minutes behind a sign, and what follows them.
#[inline(always)]
#[tactic(auto, unfolding(crate::specs::inside::Reading::read_numeric))]
fn split_numeric(negative: bool, bytes: &[u8]) -> Option<(i16, &[u8])>
    ensures { option_map (λ r. (r.0, r.1.now)) result ≡ read_numeric negative bytes.now }
{
    let (hours, rest) = split_two(bytes, 0, 24)?;
    let (minutes, rest) = split_two(rest, 0, 59)?;
    Some((with_sign(negative, minutes_of(hours, minutes)), rest))
}

/// What follows `UT`.
#[tactic(auto, unfolding(crate::specs::inside::Reading::read_ut))]
fn split_ut(bytes: &[u8]) -> Option<&[u8]>
    ensures { option_map (λ r. r.now) result ≡ read_ut bytes.now }
{
    strip(b'T', strip(b'U', bytes)?)
}

/// A zone, as minutes ahead of UTC, and what follows it.
#[inline(always)]
fn split_zone(bytes: &[u8]) -> Option<(i16, &[u8])>
    ensures { option_map (λ r. (r.0, r.1.now)) result ≡ read_zone bytes.now }
{
    match bytes {
        [b'+', rest @ ..] => split_numeric(false, rest),
        [b'-', rest @ ..] => split_numeric(true, rest),
        [] => None,
        _ => match split_ut(bytes) {
            Some(rest) => Some((0, rest)),
            None => split_zone_name(bytes),
        },
    }
}

/// The same behind a blank.
#[inline(always)]
#[tactic(auto, unfolding(crate::specs::inside::Reading::read_spaced_zone))]
fn split_spaced_zone(bytes: &[u8]) -> Option<(i16, &[u8])>
    ensures { option_map (λ r. (r.0, r.1.now)) result ≡ read_spaced_zone bytes.now }
{
    split_zone(strip(b' ', bytes)?)
}

/// Whether the byte may stand in a comment: printable ASCII without parentheses and backslash.
fn is_comment_byte(byte: u8) -> bool
    ensures { result ≡ is_comment_byte byte }
{
    b' ' <= byte && byte <= b'~' && byte != b'(' && byte != b')' && byte != b'\\'
}

/// What follows the bytes of a comment that stand in front.
fn behind_comment(bytes: &[u8]) -> &[u8]
    ensures { result.now ≡ behind is_comment_byte bytes.now }
{
    let mut len = 0;
    while len < bytes.len() && is_comment_byte(bytes[len]) {
        len += 1;
    }
    &bytes[len..]
}

/// What follows a blank and an opening parenthesis.
#[tactic(auto, unfolding(crate::specs::inside::Reading::read_opening))]
fn split_opening(bytes: &[u8]) -> Option<&[u8]>
    ensures { option_map (λ r. r.now) result ≡ read_opening bytes.now }
{
    strip(b'(', strip(b' ', bytes)?)
}

/// Whether a closing parenthesis is left.
fn is_closing(bytes: &[u8]) -> bool
    ensures { result ≡ is_text (codes ")") bytes.now }
{
    match bytes {
        [b')'] => true,
        _ => false,
    }
}

/// Whether a blank and a comment are left.
#[inline(never)] // a text has a comment seldom
fn is_bracketed(bytes: &[u8]) -> bool
    ensures { result ≡ is_closed (read_opening bytes.now) }
{
    match split_opening(bytes) {
        Some(inner) => is_closing(behind_comment(inner)),
        None => false,
    }
}

/// Whether a comment is left, or nothing.
#[inline(always)]
#[tactic(auto, unfolding(crate::specs::inside::Reading::is_comment))]
fn is_comment(bytes: &[u8]) -> bool
    ensures { result ≡ is_comment bytes.now }
{
    bytes.is_empty() || is_bracketed(bytes)
}

/// The fields of a date.
#[tactic(auto, unfolding(crate::specs::inside::Reading::read_mail_date, crate::specs::inside::Reading::read_mail_clock))]
#[inline(always)]
fn read_fields(text: &[u8]) -> Option<DateTime>
    ensures { result ≡ read_mail_date text.now }
{
    let (weekday, rest) = split_front(text)?;
    let (day, rest) = split_day(rest)?;
    let (month, rest) = split_month(rest)?;
    let (year, rest) = split_year(rest)?;
    let (hour, rest) = split_pair(b' ', rest, 0, 24)?;
    let (minute, rest) = split_pair(b':', rest, 0, 59)?;
    let (second, rest) = split_seconds(rest)?;
    let (offset, rest) = split_spaced_zone(rest)?;
    if is_comment(rest) {
        Some(DateTime {
            weekday,
            year,
            month,
            day,
            hour,
            minute,
            second,
            offset,
        })
    } else {
        None
    }
}

/// The fields of a date of mail, whether or not there is such a moment: `Tue, 1 Dec 2026 23:24:31 +0000`. The name of the day and the
/// seconds may be left out, the zone is `+HHMM`, `-HHMM` or one of UT, GMT, EST, EDT, CST, CDT, MST, MDT, PST and PDT, and a comment
/// such as ` (CET)` may stand at the end.
///
/// None exactly where the text isn't one. Just one blank stands in each place, and the year has four digits.
pub fn fields(text: &[u8]) -> Option<DateTime>
    ensures found { IfSome result (λ t. IsMailDate text.now t) }
    ensures none { IfNone result ((t : Fields) → ¬ (IsMailDate text.now t)) }
{
    read_fields(text)
}

/// The moment of a date of mail in seconds since 1970-01-01 in UTC.
///
/// `1 Dec 2026 23:24 EST` is 1796185440. `Syntax` where [`fields`] gives none, `NoSuchMoment` where there is no such moment, and then
/// `Range` where the year, as it is written, is before 1900.
pub fn read(text: &[u8]) -> Result<i64, DateError>
    ensures { IsRead IsMailDate 1900 text.now result }
{
    // Behind this one test no field up to the seconds is tested for its length. Few texts are shorter.
    if text.len() >= 25 {
        moment_of(text)
    } else {
        read_short(text)
    }
}

/// The same in a function of its own.
#[inline(never)]
fn read_short(text: &[u8]) -> Result<i64, DateError>
    ensures { IsRead IsMailDate 1900 text.now result }
{
    moment_of(text)
}

/// The same at each place where it is called.
#[inline(always)]
fn moment_of(text: &[u8]) -> Result<i64, DateError>
    ensures { IsRead IsMailDate 1900 text.now result }
{
    match read_fields(text) {
        Some(t) => t.judged(FIRST_YEAR),
        None => Err(DateError::Syntax),
    }
}

/// Appends a date of 31 bytes, such as `Tue, 01 Dec 2026 23:24:31 +0000`, of a real date in UTC that has the name of its day.
/// Its offset is taken to be 0 and isn't looked at.
#[inline(always)]
pub fn push_text<const CAP: usize>(out: &mut ArrayString<CAP>, t: &DateTime)
    requires real { IsRealMoment t.now }
    requires named { IsSome t.now.weekday }
    requires room { array_string_len out.old + 31 ≤ CAP }
    ensures bytes { out.new.bytes ≡ out.old.bytes ++ mail_date_text t.now }
    ensures len { array_string_len out.new ≡ array_string_len out.old + 31 }
{
    push_moment(out, t);
    push_bytes(out, " +0000");
}
