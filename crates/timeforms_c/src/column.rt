//! Columns of texts in another form.
ghost use Rattle.std.specs.Prelude.{◌≡◌, ◌≢◌, ◌+◌, ◌-◌, ◌<◌, ◌≤◌, ◌++◌, min, pos, length, take, drop, IfSome, IfNone, IfOk};
ghost use Rattle.arrayvec.specs.ArrayString.{array_string_len};
ghost use Rattle.forms.specs.declared.form.Form.{Form as AnyForm};
ghost use Rattle.timeforms_c.specs.Codes.{no_room, no_such_form};
ghost use Rattle.timeforms_c.specs.Columns.{AnswersColumn, answer_code, answer_text};
ghost use Rattle.timeforms_c.specs.Numbers.{number_of};
ghost use Rattle.timeforms_c.specs.inside.Cells.{PutsAnswer, shown};

use crate::cell::cell_answer;
use crate::code::{NO_ROOM, NO_SUCH_FORM};
use crate::form::form_numbered;
use forms::Form;
use scan_core::Short;

/// How many bytes the texts of one call have at most, so that each offset is within 32 bits with a sign.
const MOST_BYTES: usize = 2_147_483_647;

/// Answers the cells of a column from the first on, as many as there is room for in each array: each by the answer of `timeforms_reply` to
/// its text. Cell n has the bytes of `bytes` from `offsets[n]` to `offsets[n + 1]`, so there is one offset more than cells. The answers are
/// put in the same layout: side by side into `out`, and into `out_offsets` where they start and end, from 0 on. The code of a cell is 0,
/// or the first of these that holds, and then its answer is empty: `BAD_OFFSETS` where its offsets fall or leave the bytes, `NOT_UTF8`, the
/// code of a cause. No cell has to do with the answer to another one. `done` is how many cells were answered.
///
/// Answers 0, or the first of these that holds: `NO_SUCH_FORM`, `NO_ROOM` where `out_offsets` has no place for the first one. Then all is
/// as it was.
#[unsafe(no_mangle)]
pub extern "C" fn timeforms_convert_column(
    from: i32,
    to: i32,
    bytes: &[u8],
    offsets: &[u32],
    out: &mut [u8],
    out_offsets: &mut [u32],
    codes: &mut [i32],
    done: &mut usize,
) -> i32
    ensures answers { (f t : AnyForm) → from ≡ number_of f → to ≡ number_of t
        → 0 < length out_offsets.old → (result ≡ pos 0)
        × AnswersColumn f t bytes.now offsets.now out.old out.new
        out_offsets.old out_offsets.new codes.old codes.new done.new }
    ensures room { (f t : AnyForm) → from ≡ number_of f → to ≡ number_of t
        → length out_offsets.old ≡ 0 → result ≡ no_room }
    ensures from { ((f : AnyForm) → from ≢ number_of f) → result ≡ no_such_form }
    ensures to { ((t : AnyForm) → to ≢ number_of t) → result ≡ no_such_form }
    ensures kept { result ≢ pos 0 → (out.new ≡ out.old) × (out_offsets.new ≡ out_offsets.old)
        × (codes.new ≡ codes.old) × (done.new ≡ done.old) }
{
    match (form_numbered(from), form_numbered(to)) {
        (Some(from), Some(to)) => {
            if out_offsets.is_empty() {
                return NO_ROOM;
            }
            *done = answer_cells(from, to, bytes, offsets, out, out_offsets, codes);
            0
        }
        (None, _) | (_, None) => NO_SUCH_FORM,
    }
}

/// Answers cells from the first on: how many.
fn answer_cells(
    from: Form,
    to: Form,
    bytes: &[u8],
    offsets: &[u32],
    out: &mut [u8],
    ends: &mut [u32],
    codes: &mut [i32],
) -> usize
    requires { 0 < length ends.old }
    ensures { AnswersColumn from to bytes.now offsets.now out.old out.new
        ends.old ends.new codes.old codes.new result }
{
    let count = cell_count(offsets.len(), ends.len(), codes.len());
    let room = out.len().min(MOST_BYTES);
    let mut written = 0;
    let mut done = 0;
    ends[0] = 0;
    while done < count {
        let answer = cell_answer(from, to, bytes, offsets[done], offsets[done + 1]);
        let Some((len, code)) = put_answer(out, written, room, &answer) else {
            return done;
        };
        codes[done] = code;
        written += len;
        done += 1;
        ends[done] = written as u32;
    }
    done
}

/// How many cells there are between so many offsets, if each of them and its code has a place.
fn cell_count(offsets: usize, ends: usize, codes: usize) -> usize
    requires { 0 < ends }
    ensures { result ≡ min (min (offsets - 1) (ends - 1)) codes }
{
    offsets.saturating_sub(1).min(ends - 1).min(codes)
}

/// Puts the text of an answer at a place of so much room: how many bytes it has, and the answer's code. None where it is longer than the
/// room that is left.
#[inline(always)]
fn put_answer(
    out: &mut [u8],
    at: usize,
    room: usize,
    answer: &Result<Short, i32>,
) -> Option<(usize, i32)>
    requires at { at ≤ room }
    requires room { room ≤ length out.old }
    ensures found { IfSome result
        (λ r. PutsAnswer (shown answer.now) at room out.old out.new r.0 r.1) }
    ensures none { IfNone result
        ((out.new ≡ out.old) × (room < at + length (answer_text (shown answer.now)))) }
{
    match answer {
        Ok(text) => {
            let bytes = text.as_str().as_bytes();
            if bytes.len() > room - at {
                return None;
            }
            out[at..at + bytes.len()].copy_from_slice(bytes);
            Some((bytes.len(), 0))
        }
        Err(code) => Some((0, *code)),
    }
}
