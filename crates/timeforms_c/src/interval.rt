//! PostgreSQL's intervals as three numbers, read and written by an interval form.
ghost use Rattle.std.specs.Prelude.{◌≡◌, ◌≢◌, pos, None, Some, IsUtf8};
ghost use Rattle.scan_core.specs.declared.share.Part.{Part};
ghost use Rattle.pg_interval_2.specs.Denotes.{Denotes, HasNoShape, Misfits};
ghost use Rattle.pg_interval_2.specs.Styles.{Shape, style_text};
ghost use Rattle.pg_interval_2.specs.declared.interval.Interval.{Interval as AnyInterval};
ghost use Rattle.pg_interval_2.specs.declared.style.Style.{Style as AnyStyle};
ghost use Rattle.forms.specs.Names.{style_of};
ghost use Rattle.forms.specs.declared.cause.Cause.{Cause as AnyCause};
ghost use Rattle.forms.specs.declared.form.Form.{Form as AnyForm};
ghost use Rattle.timeforms_c.specs.Codes.{code_of, no_such_form, not_utf8};
ghost use Rattle.timeforms_c.specs.Numbers.{number_of};
ghost use Rattle.timeforms_c.specs.Rooms.{Leaves, Refused};

use crate::code::{NO_SUCH_FORM, NOT_UTF8, code_of};
use crate::form::form_numbered;
use crate::room::put_text;
use forms::laws::texts_have_one_interval_or_cause;
use forms::read_interval;
use pg_interval_2::laws::denoted_interval_is_in_range;
use pg_interval_2::{Interval, Style};
use std::str;

/// An interval as C has it: months, days and microseconds, none a multiple of another.
#[repr(C)]
#[derive(Clone, Copy)]
pub struct TimeformsInterval {
    /// Whole months, 12 a year.
    pub months: i32,
    /// Whole days.
    pub days: i32,
    /// Microseconds, 3_600_000_000 an hour.
    pub microseconds: i64,
}

/// The interval that a text denotes in an interval form, by number. Answers 0, or the first of these that holds: `NO_SUCH_FORM` where the
/// number is no interval form's, `NOT_UTF8`, the code of `Syntax`, that of `Range`. Then the interval is as it was.
#[unsafe(no_mangle)]
pub extern "C" fn timeforms_interval_from_text(
    form: i32,
    text: &[u8],
    interval: &mut TimeformsInterval,
) -> i32
    ensures done { (f : AnyForm) (style : AnyStyle) (t : AnyInterval) → form ≡ number_of f
        → style_of f ≡ Some style → IsUtf8 text.now → Denotes (Shape style) text.now t
        → (result ≡ pos 0) × (interval.new.months ≡ t.months)
        × (interval.new.days ≡ t.days) × (interval.new.microseconds ≡ t.microseconds) }
    ensures range { (f : AnyForm) (style : AnyStyle) (part : Part) → form ≡ number_of f
        → style_of f ≡ Some style → IsUtf8 text.now → Misfits (Shape style) text.now part
        → result ≡ code_of AnyCause.Range }
    ensures syntax { (f : AnyForm) (style : AnyStyle) → form ≡ number_of f
        → style_of f ≡ Some style → IsUtf8 text.now → HasNoShape (Shape style) text.now
        → result ≡ code_of AnyCause.Syntax }
    ensures utf8 { (f : AnyForm) (style : AnyStyle) → form ≡ number_of f
        → style_of f ≡ Some style → ¬ (IsUtf8 text.now) → result ≡ not_utf8 }
    ensures form { ((f : AnyForm) → form ≡ number_of f → style_of f ≡ None)
        → result ≡ no_such_form }
    ensures kept { result ≢ pos 0 → interval.new ≡ interval.old }
{
    denoted_interval_is_in_range();
    texts_have_one_interval_or_cause();
    let Some(style) = style_numbered(form) else {
        return NO_SUCH_FORM;
    };
    let Ok(text) = str::from_utf8(text) else {
        return NOT_UTF8;
    };
    match read_interval(style, text.as_bytes()) {
        Ok(read) => {
            interval.months = read.months;
            interval.days = read.days;
            interval.microseconds = read.microseconds;
            0
        }
        Err(cause) => code_of(cause),
    }
}

/// Puts the text of an interval in an interval form, by number, into the room, and answers how many bytes that are, 96 at most: each
/// interval has one. Else it is `NO_SUCH_FORM` where the number is no interval form's, or `NO_ROOM`, and the room is as it was.
#[unsafe(no_mangle)]
pub extern "C" fn timeforms_interval_to_text(
    form: i32,
    interval: &TimeformsInterval,
    out: &mut [u8],
) -> i32
    ensures text { (f : AnyForm) (style : AnyStyle) → form ≡ number_of f → style_of f ≡ Some style
        → let t : AnyInterval = record {
          months = interval.now.months;
          days = interval.now.days;
          microseconds = interval.now.microseconds;
        } in
        Leaves (style_text style t) out.old out.new result }
    ensures form { ((f : AnyForm) → form ≡ number_of f → style_of f ≡ None)
        → Refused no_such_form out.old out.new result }
{
    let Some(style) = style_numbered(form) else {
        return NO_SUCH_FORM;
    };
    let interval = Interval::new(interval.months, interval.days, interval.microseconds);
    put_text(out, interval.text(style).as_str())
}

/// The style of the interval form of this number.
pub(crate) fn style_numbered(form: i32) -> Option<Style>
    ensures some { (f : AnyForm) (style : AnyStyle) → form ≡ number_of f → style_of f ≡ Some style
        → result ≡ Some style }
    ensures none { ((f : AnyForm) → form ≡ number_of f → style_of f ≡ None) → result ≡ None }
{
    form_numbered(form)?.style()
}
