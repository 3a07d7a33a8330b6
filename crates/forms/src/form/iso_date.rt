//! Dates of ISO 8601 as a form.
ghost use Rattle.std.specs.Prelude.{◌≡◌, ◌⊎◌, ◌+◌, ◌≤◌};
ghost use Rattle.arrayvec.specs.ArrayString.{array_string_len};
ghost use Rattle.jiff.specs.Words.{IsEpochDay};
ghost use Rattle.jiff_core.specs.Date.{epoch_day};
ghost use Rattle.iso8601.specs.Calendar.{Exists};
ghost use Rattle.forms.specs.declared.cause.Cause.{Cause as AnyCause};
ghost use Rattle.forms.specs.declared.form.Form.{Form as AnyForm};
ghost use Rattle.forms.specs.Forms.{Reads, Writes};
ghost use Rattle.forms.specs.Putting.{Puts};
ghost use Rattle.forms.specs.Values.{IsWithinBounds};
ghost use Rattle.forms.specs.form.IsoDate.{Worth, Holds};
ghost use Rattle.forms.specs.inside.CivilDates.{date_of};
ghost use Rattle.forms.specs.inside.Lawful.{Lawful};

use crate::cause::Cause;
use crate::value::Value;
use arrayvec::ArrayString;
use iso8601::Date;
use iso8601::parsers::parse_date;
use jiff_core::civil;

/// The day of a date.
pub fn read(text: &[u8]) -> Result<Value, Cause>
    ensures { Reads AnyForm.IsoDate text.now result }
{
    match parse_date(text) {
        Ok((rest, date)) => {
            if rest.is_empty() {
                day_of(date)
            } else {
                Err(Cause::Syntax)
            }
        }
        Err(_) => Err(Cause::Syntax),
    }
}

/// The day of a date, where there is one.
fn day_of(date: Date) -> Result<Value, Cause>
    ensures { Worth date result }
{
    match date.unix_day() {
        Some(day) => Ok(Value::Day(day)),
        None => Err(why_none(date)),
    }
}

/// Why a date without a civil day has no value.
#[cold]
fn why_none(date: Date) -> Cause
    ensures { (Exists date × (result ≡ AnyCause.Range))
        ⊎ ((Exists date → ⊥) × (result ≡ AnyCause.NoSuchMoment)) }
{
    if date.exists() {
        Cause::Range
    } else {
        Cause::NoSuchMoment
    }
}

/// Appends the written text of a day, by year, month and day.
pub fn push<const CAP: usize>(value: Value, out: &mut ArrayString<CAP>) -> Result<(), Cause>
    requires within { IsWithinBounds value }
    requires room { array_string_len out.old + 96 ≤ CAP }
    ensures answer { Puts (Writes AnyForm.IsoDate value) out.old.bytes out.new.bytes result }
    ensures len { array_string_len out.new ≤ array_string_len out.old + 96 }
{
    match date_for(value) {
        Ok(date) => {
            date.push_text(out);
            Ok(())
        }
        Err(cause) => Err(cause),
    }
}

/// The date of a value.
fn date_for(value: Value) -> Result<Date, Cause>
    requires { IsWithinBounds value }
    ensures { Holds value result }
{
    iso8601::laws::civil_dates_are_calendar_dates();
    iso8601::laws::years_and_weeks_follow_each_other();
    match value {
        Value::Day(day) => Ok(date_of(civil_date(day))),
        _ => Err(Cause::Kind),
    }
}

/// The civil date of a day.
fn civil_date(day: i32) -> civil::Date
    requires { IsEpochDay day }
    ensures { epoch_day result ≡ day }
{
    civil::Date::from_days_since_min((day as i64 + 4_371_587) as u32)
}

/// A civil date by year, month and day.
pub(crate) fn date_of(date: civil::Date) -> Date
    ensures { result ≡ date_of date }
{
    Date::YMD {
        year: date.year as i32,
        month: date.month as u32,
        day: date.day as u32,
    }
}

/// Dates of ISO 8601 are a lawful form.
pub fn lawful()
    ensures { Lawful AnyForm.IsoDate }
{
    iso8601::laws::texts_are_ascii();
    iso8601::laws::a_text_has_one_value();
    iso8601::laws::a_written_text_spells_its_value();
    iso8601::laws::civil_dates_are_calendar_dates();
    iso8601::laws::years_and_weeks_follow_each_other();
}
