//! Columns of texts as intervals.
ghost use Rattle.std.specs.Prelude.{◌≡◌, ◌≢◌, ◌-◌, min, pos, length, None, Some};
ghost use Rattle.pg_interval_2.specs.declared.style.Style.{Style as AnyStyle};
ghost use Rattle.forms.specs.Names.{style_of};
ghost use Rattle.forms.specs.declared.form.Form.{Form as AnyForm};
ghost use Rattle.timeforms_c.specs.Codes.{no_such_form};
ghost use Rattle.timeforms_c.specs.Columns.{ReadsColumn, answer_code, part_of};
ghost use Rattle.timeforms_c.specs.Numbers.{number_of};

use crate::cell::cell_interval;
use crate::code::NO_SUCH_FORM;
use crate::interval::style_numbered;
use pg_interval_2::{Interval, Style};

/// Reads the cells of a column as intervals in an interval form, by number, from the first on, as many as there is a place for in each
/// array: months, days and microseconds each into an array of its own. Cell n has the bytes of `bytes` from `offsets[n]` to
/// `offsets[n + 1]`. The code of a cell is 0, or the first of these that holds, and then its three parts are 0: `BAD_OFFSETS` where its
/// offsets fall or leave the bytes, `NOT_UTF8`, the code of `Syntax`, that of `Range`. `done` is how many cells were read.
///
/// Answers 0, or `NO_SUCH_FORM` where the number is no interval form's; then all is as it was.
#[unsafe(no_mangle)]
pub extern "C" fn timeforms_intervals_from_column(
    form: i32,
    bytes: &[u8],
    offsets: &[u32],
    months: &mut [i32],
    days: &mut [i32],
    microseconds: &mut [i64],
    codes: &mut [i32],
    done: &mut usize,
) -> i32
    ensures read { (f : AnyForm) (style : AnyStyle) → form ≡ number_of f → style_of f ≡ Some style
        → (result ≡ pos 0) × ReadsColumn style bytes.now offsets.now months.old months.new
        days.old days.new microseconds.old microseconds.new codes.old codes.new done.new }
    ensures form { ((f : AnyForm) → form ≡ number_of f → style_of f ≡ None)
        → result ≡ no_such_form }
    ensures kept { result ≢ pos 0 → (months.new ≡ months.old) × (days.new ≡ days.old)
        × (microseconds.new ≡ microseconds.old) × (codes.new ≡ codes.old)
        × (done.new ≡ done.old) }
{
    let Some(style) = style_numbered(form) else {
        return NO_SUCH_FORM;
    };
    *done = read_cells(style, bytes, offsets, months, days, microseconds, codes);
    0
}

/// Reads cells from the first on: how many.
fn read_cells(
    style: Style,
    bytes: &[u8],
    offsets: &[u32],
    months: &mut [i32],
    days: &mut [i32],
    microseconds: &mut [i64],
    codes: &mut [i32],
) -> usize
    ensures { ReadsColumn style bytes.now offsets.now months.old months.new
        days.old days.new microseconds.old microseconds.new codes.old codes.new result }
{
    let places = months
        .len()
        .min(days.len())
        .min(microseconds.len())
        .min(codes.len());
    let count = offsets.len().saturating_sub(1).min(places);
    let mut done = 0;
    while done < count {
        let (interval, code) = parts(cell_interval(style, bytes, offsets[done], offsets[done + 1]));
        months[done] = interval.months;
        days[done] = interval.days;
        microseconds[done] = interval.microseconds;
        codes[done] = code;
        done += 1;
    }
    done
}

/// The parts of an interval and the code 0, or no time and a code.
#[inline(always)]
fn parts(answer: Result<Interval, i32>) -> (Interval, i32)
    ensures months { result.0.months ≡ part_of (λ t. t.months) answer }
    ensures days { result.0.days ≡ part_of (λ t. t.days) answer }
    ensures microseconds { result.0.microseconds ≡ part_of (λ t. t.microseconds) answer }
    ensures code { result.1 ≡ answer_code answer }
{
    match answer {
        Ok(interval) => (interval, 0),
        Err(code) => (Interval::new(0, 0, 0), code),
    }
}
