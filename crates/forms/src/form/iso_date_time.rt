//! Date-times of ISO 8601 as a form.
ghost use Rattle.std.specs.Prelude.{◌≡◌, ◌⊎◌, ◌↔◌, ◌+◌, ◌<◌, ◌≤◌, ◌++◌, pos, ◌*ℤ◌, length, unsigned_abs, IsTrue, IfOk};
ghost use Rattle.arrayvec.specs.ArrayString.{array_string_len};
ghost use Rattle.iso8601.specs.Moments.{offset_of};
ghost use Rattle.iso8601.specs.Written.{date_text, date_time_text};
ghost use Rattle.forms.specs.declared.cause.Cause.{Cause as AnyCause};
ghost use Rattle.forms.specs.declared.form.Form.{Form as AnyForm};
ghost use Rattle.forms.specs.declared.value.Value.{Value as AnyValue};
ghost use Rattle.forms.specs.Forms.{Reads, Writes};
ghost use Rattle.forms.specs.Putting.{Puts};
ghost use Rattle.forms.specs.Values.{IsWithinBounds};
ghost use Rattle.forms.specs.form.IsoDateTime.{IsReal, Worth, Holds};
ghost use Rattle.forms.specs.inside.CivilMoments.{utc, in_millis, HoldsCivil};
ghost use Rattle.forms.specs.inside.Lawful.{Lawful};

use crate::cause::Cause;
use crate::form::iso_date::date_of;
use crate::value::Value;
use arrayvec::ArrayString;
use iso8601::parsers::parse_datetime;
use iso8601::{Date, DateTime, Time};
use jiff_core::civil;
use scan_core::push_text;

/// The moment of a date-time.
pub fn read(text: &[u8]) -> Result<Value, Cause>
    ensures { Reads AnyForm.IsoDateTime text.now result }
{
    match parse_datetime(text) {
        Ok((rest, datetime)) => {
            if rest.is_empty() {
                moment_of(datetime)
            } else {
                Err(Cause::Syntax)
            }
        }
        Err(_) => Err(Cause::Syntax),
    }
}

/// The moment of a date-time, where there is one.
fn moment_of(datetime: DateTime) -> Result<Value, Cause>
    ensures { Worth datetime result }
{
    match datetime.unix_millis() {
        Some(millis) => Ok(Value::Instant(nanos_of(millis))),
        None => Err(why_none(datetime)),
    }
}

/// Milliseconds in nanoseconds.
fn nanos_of(millis: i64) -> i128
    ensures { result ≡ millis *ℤ pos 1_000_000 }
{
    i128::from(millis) * 1_000_000
}

/// Why a date-time without a civil moment has no value.
#[cold]
fn why_none(datetime: DateTime) -> Cause
    ensures { (IsReal datetime × (result ≡ AnyCause.Range))
        ⊎ ((IsReal datetime → ⊥) × (result ≡ AnyCause.NoSuchMoment)) }
{
    if is_real(datetime) {
        Cause::Range
    } else {
        Cause::NoSuchMoment
    }
}

/// Whether there is such a day, a clock shows the time, and the offset is less than a day.
fn is_real(datetime: DateTime) -> bool
    ensures { IsTrue result ↔ IsReal datetime }
{
    datetime.date.exists()
        && datetime.time.into_naive().is_some()
        && is_less_than_a_day(offset_of(datetime.time))
}

/// Seconds ahead of UTC.
fn offset_of(time: Time) -> i64
    ensures { result ≡ offset_of time }
{
    3600 * time.tz_offset_hours as i64 + 60 * time.tz_offset_minutes as i64
}

/// Whether an offset is less than a day.
fn is_less_than_a_day(seconds: i64) -> bool
    ensures { IsTrue result ↔ (unsigned_abs seconds < 86_400) }
{
    seconds.unsigned_abs() < 86_400
}

/// Appends the written text of a moment, in UTC.
pub fn push<const CAP: usize>(value: Value, out: &mut ArrayString<CAP>) -> Result<(), Cause>
    requires within { IsWithinBounds value }
    requires room { array_string_len out.old + 96 ≤ CAP }
    ensures answer { Puts (Writes AnyForm.IsoDateTime value) out.old.bytes out.new.bytes result }
    ensures len { array_string_len out.new ≤ array_string_len out.old + 96 }
{
    match datetime_for(value) {
        Ok(datetime) => {
            push_text_of(out, datetime);
            Ok(())
        }
        Err(cause) => Err(cause),
    }
}

/// Appends the text of a date-time whose date is short: as much room as a date-time with any fields has needs isn't there.
#[tactic(auto, unfolding(iso8601::specs::Written::date_time_text))]
fn push_text_of<const CAP: usize>(out: &mut ArrayString<CAP>, datetime: DateTime)
    requires short { length (date_text datetime.date) ≤ 28 }
    requires room { array_string_len out.old + 96 ≤ CAP }
    ensures bytes { out.new.bytes ≡ out.old.bytes ++ date_time_text datetime }
    ensures len { array_string_len out.new ≤ array_string_len out.old + 96 }
{
    push_date(out, datetime.date);
    push_text(out, "T");
    datetime.time.push_text(out);
}

/// Appends a date that is short.
fn push_date<const CAP: usize>(out: &mut ArrayString<CAP>, date: Date)
    requires short { length (date_text date) ≤ 28 }
    requires room { array_string_len out.old + 34 ≤ CAP }
    ensures bytes { out.new.bytes ≡ out.old.bytes ++ date_text date }
    ensures len { array_string_len out.new ≤ array_string_len out.old + 28 }
{
    date.push_text(out);
}

/// The date-time of a value.
fn datetime_for(value: Value) -> Result<DateTime, Cause>
    requires { IsWithinBounds value }
    ensures held { Holds value result }
    ensures short { IfOk result (λ datetime. length (date_text datetime.date) ≤ 28) }
{
    iso8601::laws::civil_dates_are_calendar_dates();
    iso8601::laws::years_and_weeks_follow_each_other();
    match value {
        Value::Instant(nanos) => datetime_at(nanos),
        _ => Err(Cause::Kind),
    }
}

/// The date-time of a moment.
fn datetime_at(nanos: i128) -> Result<DateTime, Cause>
    ensures held { HoldsCivil (AnyValue.Instant nanos) result }
    ensures short { IfOk result (λ datetime. length (date_text datetime.date) ≤ 28) }
{
    match civil::DateTime::from_nanosecond(nanos) {
        Ok(civil) => in_millis(civil),
        Err(_) => Err(Cause::Range),
    }
}

/// The date-time in UTC, where its milliseconds are whole.
fn in_millis(civil: civil::DateTime) -> Result<DateTime, Cause>
    ensures held { result ≡ in_millis civil }
    ensures short { IfOk result (λ datetime. length (date_text datetime.date) ≤ 28) }
{
    if civil.time.subsec_nanosecond % 1_000_000 == 0 {
        Ok(utc(civil))
    } else {
        Err(Cause::Precision)
    }
}

/// The date-time in UTC, without what is less than a millisecond.
fn utc(civil: civil::DateTime) -> DateTime
    ensures utc { result ≡ utc civil }
    ensures short { length (date_text result.date) ≤ 28 }
{
    DateTime {
        date: date_of(civil.date),
        time: Time {
            hour: civil.time.hour as u32,
            minute: civil.time.minute as u32,
            second: civil.time.second as u32,
            millisecond: civil.time.subsec_nanosecond / 1_000_000,
            tz_offset_hours: 0,
            tz_offset_minutes: 0,
        },
    }
}

/// Date-times of ISO 8601 are a lawful form.
pub fn lawful()
    ensures { Lawful AnyForm.IsoDateTime }
{
    iso8601::laws::texts_are_ascii();
    iso8601::laws::a_text_has_one_value();
    iso8601::laws::a_written_text_spells_its_value();
    iso8601::laws::civil_dates_are_calendar_dates();
    iso8601::laws::years_and_weeks_follow_each_other();
}
