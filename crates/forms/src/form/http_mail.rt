//! Dates of HTTP and of mail as forms.
ghost use Rattle.std.specs.Prelude.{◌≡◌, ◌+◌, ◌^◌, ◌≤◌, pos, IsSome, IfOk};
ghost use Rattle.arrayvec.specs.ArrayString.{array_string_len};
ghost use Rattle.jiff.specs.Words.{IsWithin};
ghost use Rattle.internet_dates.specs.DateTimes.{IsRealMoment};
ghost use Rattle.forms.specs.declared.form.Form.{Form as AnyForm};
ghost use Rattle.forms.specs.declared.value.Value.{Value as AnyValue};
ghost use Rattle.forms.specs.Forms.{Reads, Writes};
ghost use Rattle.forms.specs.Putting.{Puts};
ghost use Rattle.forms.specs.Values.{IsWithinBounds};
ghost use Rattle.forms.specs.form.InternetDates.{Holds, HoldsSecond};
ghost use Rattle.forms.specs.inside.InternetParts.{answered};
ghost use Rattle.forms.specs.inside.Lawful.{Lawful};

use crate::cause::Cause;
use crate::value::Value;
use arrayvec::ArrayString;
use internet_dates::{DateError, DateTime, http_date, mail_date};

/// The first year of dates of HTTP.
const FIRST_HTTP_YEAR: u16 = 0;

/// The first year of dates of mail.
const FIRST_MAIL_YEAR: u16 = 1900;

/// The moment of a date of HTTP.
pub fn read_http(text: &[u8]) -> Result<Value, Cause>
    ensures { Reads AnyForm.HttpDate text.now result }
{
    answered(http_date::read(text))
}

/// The moment of a date of mail.
pub fn read_mail(text: &[u8]) -> Result<Value, Cause>
    ensures { Reads AnyForm.MailDate text.now result }
{
    answered(mail_date::read(text))
}

/// The moment in nanoseconds, or the cause.
fn answered(read: Result<i64, DateError>) -> Result<Value, Cause>
    ensures { result ≡ answered read }
{
    match read {
        Ok(seconds) => Ok(Value::Instant(seconds as i128 * 1_000_000_000)),
        Err(DateError::Syntax) => Err(Cause::Syntax),
        Err(DateError::NoSuchMoment) => Err(Cause::NoSuchMoment),
        Err(DateError::Range) => Err(Cause::Range),
    }
}

/// Appends the date of HTTP of a moment, an IMF-fixdate.
#[inline(never)]
pub fn push_http<const CAP: usize>(value: Value, out: &mut ArrayString<CAP>) -> Result<(), Cause>
    requires within { IsWithinBounds value }
    requires room { array_string_len out.old + 96 ≤ CAP }
    ensures answer { Puts (Writes AnyForm.HttpDate value) out.old.bytes out.new.bytes result }
    ensures len { array_string_len out.new ≤ array_string_len out.old + 96 }
{
    match date_for(value, FIRST_HTTP_YEAR) {
        Ok(date) => {
            http_date::push_text(out, &date);
            Ok(())
        }
        Err(cause) => Err(cause),
    }
}

/// Appends the date of mail of a moment.
#[inline(never)]
pub fn push_mail<const CAP: usize>(value: Value, out: &mut ArrayString<CAP>) -> Result<(), Cause>
    requires within { IsWithinBounds value }
    requires room { array_string_len out.old + 96 ≤ CAP }
    ensures answer { Puts (Writes AnyForm.MailDate value) out.old.bytes out.new.bytes result }
    ensures len { array_string_len out.new ≤ array_string_len out.old + 96 }
{
    match date_for(value, FIRST_MAIL_YEAR) {
        Ok(date) => {
            mail_date::push_text(out, &date);
            Ok(())
        }
        Err(cause) => Err(cause),
    }
}

/// The date and the time in UTC of a value.
#[inline(always)]
fn date_for(value: Value, first: u16) -> Result<DateTime, Cause>
    requires { IsWithinBounds value }
    ensures held { Holds first value result }
    ensures real { IfOk result (λ t. IsRealMoment t) }
    ensures named { IfOk result (λ t. IsSome t.weekday) }
{
    match value {
        Value::Instant(nanos) => date_at(nanos, first),
        _ => Err(Cause::Kind),
    }
}

/// The date and the time in UTC of a moment.
#[inline(always)]
fn date_at(nanos: i128, first: u16) -> Result<DateTime, Cause>
    requires { IsWithin (10 ^ 22) nanos }
    ensures held { Holds first (AnyValue.Instant nanos) result }
    ensures real { IfOk result (λ t. IsRealMoment t) }
    ensures named { IfOk result (λ t. IsSome t.weekday) }
{
    let seconds = nanos.div_euclid(1_000_000_000) as i64;
    date_in_second(seconds, nanos.rem_euclid(1_000_000_000) as u32, first)
}

/// The date and the time in UTC of a second, where the moment lies no nanoseconds behind it.
#[inline(always)]
fn date_in_second(seconds: i64, nanos: u32, first: u16) -> Result<DateTime, Cause>
    ensures held { HoldsSecond first seconds (pos nanos) result }
    ensures real { IfOk result (λ t. IsRealMoment t) }
    ensures named { IfOk result (λ t. IsSome t.weekday) }
{
    let Some(date) = DateTime::at(seconds, first) else {
        return Err(Cause::Range);
    };
    if nanos != 0 {
        return Err(Cause::Precision);
    }
    Ok(date)
}

/// Dates of HTTP and of mail are lawful forms.
pub fn lawful()
    ensures http { Lawful AnyForm.HttpDate }
    ensures mail { Lawful AnyForm.MailDate }
{
    internet_dates::laws::texts_are_ascii();
    internet_dates::laws::a_text_has_one_reading();
    internet_dates::laws::a_moment_has_one_date();
    internet_dates::laws::a_written_text_spells_its_date();
    iso8601::laws::civil_dates_are_calendar_dates();
}
