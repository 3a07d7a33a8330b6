//! The reply to a text by its bytes.
ghost use Rattle.std.specs.Prelude.{◌≡◌, ◌≢◌, ◌⊎◌, ◌+◌, ◌≤◌, ◌++◌, List, ℕ, Some, IfSome, IsTrue, IsUtf8, ◌↔◌, codes, length};
ghost use Rattle.arrayvec.specs.ArrayString.{array_string_len};
ghost use Rattle.forms.specs.declared.form.Form.{Form as AnyForm};
ghost use Rattle.forms.specs.Names.{cause_name, style_of};
ghost use Rattle.forms.specs.TextReplies.{IsTextReply};

use crate::answer::{push_refusal, push_turned};
use crate::cause::Cause;
use crate::form::{Form, intervals};
use crate::laws;
use arrayvec::ArrayString;
use pg_interval_2::Style;
use scan_core::Looked;
use std::str;

/// Appends the reply to a text by its bytes, of at most 96 bytes, without a line feed, and answers whether it is a refusal: what
/// `push_answer` appends, or `refused Line` where the bytes aren't UTF-8.
#[inline(always)]
pub fn push_text_reply<const CAP: usize>(
    from: Form,
    to: Form,
    text: &[u8],
    out: &mut ArrayString<CAP>,
) -> bool
    requires room { array_string_len out.old + 96 ≤ CAP }
    ensures reply { (reply : List ℕ) × IsTextReply from to text.now reply result
        × (out.new.bytes ≡ out.old.bytes ++ reply) }
    ensures len { array_string_len out.new ≤ array_string_len out.old + 96 }
{
    match styles(from, to) {
        Some((one, other)) => push_interval_reply(one, other, text, out),
        None => push_value_reply(from, to, text, out),
    }
}

/// The styles of two interval forms.
#[inline(always)]
fn styles(from: Form, to: Form) -> Option<(Style, Style)>
    ensures { IfSome result (λ s. (style_of from ≡ Some s.0) × (style_of to ≡ Some s.1)) }
{
    Some((from.style()?, to.style()?))
}

/// The same between two interval forms, with no value on the way.
#[inline(always)]
fn push_interval_reply<const CAP: usize>(
    from: Style,
    to: Style,
    text: &[u8],
    out: &mut ArrayString<CAP>,
) -> bool
    requires room { array_string_len out.old + 96 ≤ CAP }
    ensures reply { (reply : List ℕ)
        × ((f t : AnyForm) → style_of f ≡ Some from → style_of t ≡ Some to
        → IsTextReply f t text.now reply result)
        × (out.new.bytes ≡ out.old.bytes ++ reply) }
    ensures len { array_string_len out.new ≤ array_string_len out.old + 96 }
{
    pg_interval_2::laws::texts_are_of_one_alphabet();
    // by reference, so that the interval is written from where it was read
    let read = pg_interval_2::read(from, &Looked::of_bytes(text));
    match &read {
        Ok(interval) => {
            interval.push_text(to, out);
            false
        }
        Err(error) => {
            push_refusal(refusal(text, intervals::cause_of(error)), out);
            true
        }
    }
}

/// The word behind `refused` for a text that has no answer. Texts with a form's shape are ASCII, so one without it alone may be no
/// UTF-8.
fn refusal(text: &[u8], cause: Cause) -> &'static str
    requires { cause ≢ Cause.Syntax → IsUtf8 text.now }
    ensures word { (¬ (IsUtf8 text.now) × (result.now ≡ codes "Line"))
        ⊎ (IsUtf8 text.now × (result.now ≡ cause_name cause)) }
    ensures len { length result.now ≤ 80 }
{
    if cause == Cause::Syntax && !is_utf8(text) {
        return "Line";
    }
    cause.name()
}

/// The same by the value that a text stands for.
#[inline(never)]
fn push_value_reply<const CAP: usize>(
    from: Form,
    to: Form,
    text: &[u8],
    out: &mut ArrayString<CAP>,
) -> bool
    requires room { array_string_len out.old + 96 ≤ CAP }
    ensures reply { (reply : List ℕ) × IsTextReply from to text.now reply result
        × (out.new.bytes ≡ out.old.bytes ++ reply) }
    ensures len { array_string_len out.new ≤ array_string_len out.old + 96 }
{
    laws::texts_are_ascii();
    laws::answers_are_readings_written();
    match push_turned(from, to, text, out) {
        Ok(()) => false,
        Err(cause) => {
            push_refusal(refusal(text, cause), out);
            true
        }
    }
}

/// Whether bytes are UTF-8.
fn is_utf8(text: &[u8]) -> bool
    ensures { IsTrue result ↔ IsUtf8 text.now }
{
    // Nearly all texts are ASCII, which is UTF-8 and is told from eight bytes at a time.
    text.is_ascii() || str::from_utf8(text).is_ok()
}
