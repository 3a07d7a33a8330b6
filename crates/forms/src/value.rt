//! Values, which texts of all forms stand for, and the two tables of forms: how each reads a value, and how it writes one.
ghost use Rattle.std.specs.Prelude.{◌≡◌, ◌+◌, ◌*◌, ◌<◌, ◌≤◌, ◌↔◌, List, ℕ, Result as AnyResult, IfOk, IsTrue, length};
ghost use Rattle.arrayvec.specs.ArrayString.{array_string_len};
ghost use Rattle.forms.specs.declared.cause.Cause.{Cause as AnyCause};
ghost use Rattle.forms.specs.declared.value.Value.{Value as AnyValue};
ghost use Rattle.forms.specs.Answers.{bytes_of};
ghost use Rattle.forms.specs.Forms.{Reads, Writes};
ghost use Rattle.forms.specs.Names.{is_counted};
ghost use Rattle.forms.specs.Putting.{Puts};
ghost use Rattle.forms.specs.Values.{IsWithinBounds};

use crate::cause::Cause;
use crate::form::{
    Form, fancy, file_time, http_mail, intervals, iso_date, iso_date_time, iso_duration,
    timestamps, toml, unix, xml_durations,
};
use crate::laws;
use arrayvec::ArrayString;
use pg_interval_2::{Short, Style};
use scan_core::{Looked, Steps};
use std::marker::Brand;
use std::sync::ledger::{Blank, Ledger};

/// How many nanoseconds a second has.
pub(crate) const NANOSECONDS_A_SECOND: u128 = 1_000_000_000;

/// How many nanoseconds a day of 86,400 seconds has.
pub(crate) const NANOSECONDS_A_DAY: u128 = 86_400_000_000_000;

/// What a text stands for. Moments and days count from 1970-01-01 in the Gregorian calendar, which is taken to go on before 1582.
#[derive(Clone, Copy, Debug, PartialEq, Eq)]
pub enum Value {
    /// A moment, in nanoseconds of UTC: 10^22 of them at most, before 1970 or after.
    Instant(i128),
    /// A day of the years -9999 to 9999, where 0 is 1970-01-01.
    Day(i32),
    /// A date and a time that no offset ties to UTC: a day as [`Value::Day`] has it, and the nanoseconds of that day.
    Local { day: i32, nanos: i64 },
    /// A time of day, in nanoseconds.
    Clock(i64),
    /// Months, days and microseconds, which are no multiples of each other.
    Triple { months: i64, days: i64, micros: i64 },
    /// A length in nanoseconds, of fewer than 2^64 seconds.
    Length(u128),
}

/// The value that a whole text stands for in the form: `read_value(Form::PgIso, "P1Y1Y")` is the triple of 24 months.
///
/// Where there is none it is the first of these that holds: `Syntax` where the text hasn't the form's shape, `NoSuchMoment` where its
/// fields name no day or no time of day, or an offset of a day or more, `Range` where its numbers or its day leave the value's bounds.
/// It takes no memory.
pub fn read_value(form: Form, text: &str) -> Result<Value, Cause>
    ensures answer { (answer : AnyResult AnyValue AnyCause)
        → (result ≡ answer) ↔ Reads form text.now answer }
    ensures within { IfOk result IsWithinBounds }
{
    read_bytes(form, text.as_bytes())
}

/// What `read_value` answers to a text by its bytes, which may be no UTF-8: then it has no form's shape.
pub(crate) fn read_bytes(form: Form, text: &[u8]) -> Result<Value, Cause>
    ensures answer { (answer : AnyResult AnyValue AnyCause)
        → (result ≡ answer) ↔ Reads form text.now answer }
    ensures within { IfOk result IsWithinBounds }
{
    laws::all_lawful();
    read(form, text)
}

/// The written text of a value in the form, of at most 96 bytes: `write_value(Form::FileTime, Value::Instant(0))` is
/// `116444736000000000`.
///
/// Where there is none it is the first of these that holds: `Kind` where the form has no such values, `Range` where it has none so small
/// or so great, `Precision` where the value is no whole number of the form's least unit, `Ambiguous` where the text would be read
/// otherwise. It takes no memory.
pub fn write_value(form: Form, value: Value) -> Result<Short, Cause>
    requires { IsWithinBounds value }
    ensures answer { (answer : AnyResult (List ℕ) AnyCause)
        → (bytes_of result ≡ answer) ↔ Writes form value answer }
    ensures len { IfOk result (λ out. array_string_len out ≤ 96) }
{
    laws::all_lawful();
    let mut out = Short::new();
    match push_value(form, value, &mut out) {
        Ok(()) => Ok(out),
        Err(cause) => Err(cause),
    }
}

/// What the form's reader answers.
fn read(form: Form, text: &[u8]) -> Result<Value, Cause>
    ensures { Reads form text.now result }
{
    match form {
        Form::FileTime => file_time::read(text),
        Form::IsoDateTime => iso_date_time::read(text),
        Form::IsoDate => iso_date::read(text),
        Form::Toml => toml::read(text),
        Form::Fancy => fancy::read(text),
        Form::Unix => unix::read(text),
        Form::PgTimestamp => timestamps::read(text),
        Form::HttpDate => http_mail::read_http(text),
        Form::MailDate => http_mail::read_mail(text),
        Form::XsdDuration => xml_durations::read(text),
        _ => read_alone::<Brand>(form, &Looked::of_bytes(text), Blank::new(1)),
    }
}

/// What the form's reader answers on a counted text, with a counter of its own.
fn read_alone<L: Ledger>(form: Form, text: &Looked<'_>, blank: Blank) -> Result<Value, Cause>
    requires name { blank.name ≡ L.name }
    requires parts { blank.parts ≡ L.parts }
    requires some { 0 < L.parts }
    requires form { IsTrue (is_counted form) }
    ensures { Reads form text.now result }
{
    read_by_looks(form, text, &mut Steps::<L>::new(blank))
}

/// What `read_value` answers on a counted text: of n bytes with at most 2n + 4 looks, and with n at least where it is Ok.
pub(crate) fn read_counted<L: Ledger>(
    form: Form,
    text: &Looked<'_>,
    steps: &mut Steps<L>,
) -> Result<Value, Cause>
    requires { IsTrue (is_counted form) }
    ensures read { Reads form text.now result }
    ensures within { IfOk result IsWithinBounds }
    ensures most { steps.new ≤ steps.old + (2 * length text.now + 4) }
    ensures least { IfOk result (λ _. steps.old + length text.now ≤ steps.new) }
{
    laws::all_lawful();
    read_by_looks(form, text, steps)
}

/// What the form's reader answers on a counted text: that of its style, or of ISO durations, the only others.
fn read_by_looks<L: Ledger>(
    form: Form,
    text: &Looked<'_>,
    steps: &mut Steps<L>,
) -> Result<Value, Cause>
    requires { IsTrue (is_counted form) }
    ensures read { Reads form text.now result }
    ensures most { steps.new ≤ steps.old + (2 * length text.now + 4) }
    ensures least { IfOk result (λ _. steps.old + length text.now ≤ steps.new) }
{
    match form.style() {
        Some(style) => intervals::read_counted(style, text, steps),
        None => iso_duration::read_counted(text, steps),
    }
}

/// Appends the text that [`write_value`] answers to a text that has room for 96 bytes more, or nothing where it refuses, for the same
/// cause: of `Value::Instant(0)` in `Form::FileTime` it makes `at 116444736000000000` of `at `. It takes no memory.
pub fn push_value<const CAP: usize>(
    form: Form,
    value: Value,
    out: &mut ArrayString<CAP>,
) -> Result<(), Cause>
    requires within { IsWithinBounds value }
    requires room { array_string_len out.old + 96 ≤ CAP }
    ensures answer { Puts (Writes form value) out.old.bytes out.new.bytes result }
    ensures len { array_string_len out.new ≤ array_string_len out.old + 96 }
{
    match form {
        Form::FileTime => file_time::push(value, out),
        Form::IsoDateTime => iso_date_time::push(value, out),
        Form::IsoDate => iso_date::push(value, out),
        Form::IsoDuration => iso_duration::push(value, out),
        Form::Toml => toml::push(value, out),
        Form::Fancy => fancy::push(value, out),
        Form::PgIso => intervals::push(Style::Iso, value, out),
        Form::Postgres => intervals::push(Style::Postgres, value, out),
        Form::PgVerbose => intervals::push(Style::Verbose, value, out),
        Form::PgSql => intervals::push(Style::Sql, value, out),
        Form::IsoStrict => intervals::push(Style::IsoStrict, value, out),
        Form::Unix => unix::push(value, out),
        Form::PgTimestamp => timestamps::push(value, out),
        Form::HttpDate => http_mail::push_http(value, out),
        Form::MailDate => http_mail::push_mail(value, out),
        Form::XsdDuration => xml_durations::push(value, out),
    }
}
