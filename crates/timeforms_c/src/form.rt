//! Forms by number and by name.
ghost use Rattle.std.specs.Prelude.{◌≡◌, ◌≢◌, ◌↔◌, Some};
ghost use Rattle.forms.specs.Names.{name_of};
ghost use Rattle.forms.specs.declared.form.Form.{Form as AnyForm};
ghost use Rattle.timeforms_c.specs.Codes.{no_such_form};
ghost use Rattle.timeforms_c.specs.Numbers.{number_of};
ghost use Rattle.timeforms_c.specs.Rooms.{Leaves, Refused};

use crate::code::NO_SUCH_FORM;
use crate::room::put_text;
use forms::Form;
use std::str;

/// The number of the form of exactly this name, as calls take it, or `NO_SUCH_FORM` where it is no form's.
#[unsafe(no_mangle)]
pub extern "C" fn timeforms_form_by_name(name: &[u8]) -> i32
    ensures found { (form : AnyForm) → name.now ≡ name_of form → result ≡ number_of form }
    ensures none { ((form : AnyForm) → name.now ≢ name_of form) → result ≡ no_such_form }
{
    match form_named(name) {
        Some(form) => number_of(form),
        None => NO_SUCH_FORM,
    }
}

/// Puts the name of the form of this number into the room, and answers how many bytes that are. `NO_SUCH_FORM` where the number is no
/// form's.
#[unsafe(no_mangle)]
pub extern "C" fn timeforms_form_name(form: i32, out: &mut [u8]) -> i32
    ensures name { (f : AnyForm) → form ≡ number_of f
        → Leaves (name_of f) out.old out.new result }
    ensures none { ((f : AnyForm) → form ≢ number_of f)
        → Refused no_such_form out.old out.new result }
{
    match form_numbered(form) {
        Some(form) => put_text(out, form.name()),
        None => NO_SUCH_FORM,
    }
}

/// The form of this number.
pub(crate) fn form_numbered(number: i32) -> Option<Form>
    ensures { (form : AnyForm) → (result ≡ Some form) ↔ (number ≡ number_of form) }
{
    match number {
        0 => Some(Form::FileTime),
        1 => Some(Form::IsoDateTime),
        2 => Some(Form::IsoDate),
        3 => Some(Form::IsoDuration),
        4 => Some(Form::Toml),
        5 => Some(Form::Fancy),
        6 => Some(Form::PgIso),
        7 => Some(Form::Postgres),
        8 => Some(Form::PgVerbose),
        9 => Some(Form::PgSql),
        10 => Some(Form::IsoStrict),
        11 => Some(Form::Unix),
        12 => Some(Form::PgTimestamp),
        13 => Some(Form::HttpDate),
        14 => Some(Form::MailDate),
        15 => Some(Form::XsdDuration),
        _ => None,
    }
}

/// A form's number.
fn number_of(form: Form) -> i32
    ensures { result ≡ number_of form }
{
    match form {
        Form::FileTime => 0,
        Form::IsoDateTime => 1,
        Form::IsoDate => 2,
        Form::IsoDuration => 3,
        Form::Toml => 4,
        Form::Fancy => 5,
        Form::PgIso => 6,
        Form::Postgres => 7,
        Form::PgVerbose => 8,
        Form::PgSql => 9,
        Form::IsoStrict => 10,
        Form::Unix => 11,
        Form::PgTimestamp => 12,
        Form::HttpDate => 13,
        Form::MailDate => 14,
        Form::XsdDuration => 15,
    }
}

/// The form of this name.
pub(crate) fn form_named(name: &[u8]) -> Option<Form>
    ensures { (form : AnyForm) → (result ≡ Some form) ↔ (name.now ≡ name_of form) }
{
    match str::from_utf8(name) {
        Ok(name) => Form::by_name(name),
        Err(_) => None,
    }
}
