//! Refusals of a line.
ghost use Rattle.std.specs.Prelude.{◌≡◌, ◌+◌, ◌≤◌, ◌++◌, length};
ghost use Rattle.arrayvec.specs.ArrayString.{array_string_len};
ghost use Rattle.forms.specs.Names.{cause_name};
ghost use Rattle.recurrence.specs.Replies.{refusal as refused};
ghost use Rattle.recurrence.specs.inside.Answers.{words_of};

use forms::Cause;
use scan_core::{Short, push_text};

/// Why a line is refused.
#[derive(Clone, Copy, Debug, PartialEq, Eq)]
pub enum Refusal {
    /// It isn't UTF-8, or it hasn't the parts of a request.
    Line,
    /// Its number is above 10_000.
    Count,
    /// Its start is no date-time, for this cause.
    Start(Cause),
    /// Its step is no interval, or one that instants aren't moved by, for this cause.
    Length(Cause),
}

/// The line of a refusal.
pub fn refusal_line(refusal: Refusal) -> Short
    ensures line { result.bytes ≡ refused (words_of refusal) }
    ensures len { length result.bytes ≤ 40 }
{
    match refusal {
        Refusal::Line => line_of("", "Line"),
        Refusal::Count => line_of("", "Count"),
        Refusal::Start(cause) => line_of("start ", name_of(cause)),
        Refusal::Length(cause) => line_of("length ", name_of(cause)),
    }
}

/// A cause's name, which is short.
fn name_of(cause: Cause) -> &'static str
    ensures name { result.now ≡ cause_name cause }
    ensures len { length result.now ≤ 12 }
{
    cause.name()
}

/// The line of a refusal of a part, for a cause.
fn line_of(part: &str, cause: &str) -> Short
    requires part { length part.now ≤ 7 }
    requires cause { length cause.now ≤ 12 }
    ensures line { result.bytes ≡ refused (part.now ++ cause.now) }
    ensures len { length result.bytes ≤ 40 }
{
    let mut line = Short::new();
    push_text(&mut line, "refused ");
    push_text(&mut line, part);
    push_text(&mut line, cause);
    push_text(&mut line, "\n");
    line
}
