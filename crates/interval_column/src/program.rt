//! The program.
ghost use Rattle.std.specs.Prelude.{◌≡◌, ◌⊎◌, ◌↔◌, true, Some};
ghost use Rattle.pg_interval_2.specs.declared.style.Style.{Style as AnyStyle};
ghost use Rattle.forms.specs.Ends.{streams};
ghost use Rattle.whole_input.specs.Outcomes.{EndedWhole, MeansStatus};
ghost use Rattle.interval_column.specs.Output.{AsksFor, Tells};

use crate::output::respond;
use forms::{Form, Sink, Source};
use pg_interval_2::Style;
use std::alloc::Global;
use whole_input::{Command, Response, answer_whole};

/// How many bytes the input may have.
pub const LIMIT: u64 = 4_194_304;

/// The status for words that aren't known.
const UNKNOWN_WORDS: u8 = 2;

/// Writes a column in a style.
#[derive(Clone, Copy)]
struct ColumnIn {
    style: Style,
}

impl Command for ColumnIn {
    ghost says = { λ command. Tells command.style };

    ghost needs_memory = { λ _. true };

    fn respond<K: Sink>(&self, alloc: Global, input: &[u8], sink: &mut K) -> Response {
        respond(alloc, self.style, input, sink)
    }
}

/// The program. With the words `column F`, where F is the name of an interval form, it takes all bytes of the source, 4_194_304 at most,
/// and writes the intervals of all lines in order, each in F, and behind them lines such as `count 2`, `least P1D`, `greatest P1M` and
/// `sum P1M1D`. The sum is `Range` where a part of it leaves its type; of no lines there is `count 0` alone. Where a line has a fault
/// it writes one line about the first of them, such as `line 3 refused Syntax`, and nothing else.
///
/// It answers the exit status: 0, 8 where a line has a fault, those of `RunEnd` for faults, too long an input and want of memory, with
/// nothing written but a front of the output at 4, and 2 for other words, with nothing taken and nothing written.
pub fn top<S: Source, K: Sink>(alloc: Global, words: &str, source: &mut S, sink: &mut K) -> u8
    // Other words are refused, with nothing taken and nothing written.
    ensures words { (result ≡ 2) ↔ ((style : AnyStyle) → AsksFor words.now style → ⊥) }
    ensures unknown { result ≡ 2 → (source.new ≡ source.old) × (sink.new ≡ sink.old) }

    // What was taken and written at each end, however the bytes were cut, and what the status means.
    ensures ended { (style : AnyStyle) → AsksFor words.now style
        → EndedWhole (Tells style) 4_194_304
        (streams S.left S.taken S.faults K.held K.faults source.old sink.old)
        (streams S.left S.taken S.faults K.held K.faults source.new sink.new)
        result }
    ensures means { (style : AnyStyle) → AsksFor words.now style
        → MeansStatus (Tells style) 4_194_304
        (streams S.left S.taken S.faults K.held K.faults source.old sink.old)
        (streams S.left S.taken S.faults K.held K.faults source.new sink.new)
        result }

    // Where a read failed, the input is too long or there is no memory nothing was written.
    ensures untouched { (result ≡ 3) ⊎ ((result ≡ 5) ⊎ (result ≡ 6)) → sink.new ≡ sink.old }
{
    match style_asked(words) {
        Some(style) => answer_whole(alloc, &ColumnIn { style }, source, sink, LIMIT),
        None => UNKNOWN_WORDS,
    }
}

/// The style that the words ask for, or None where they ask for none.
fn style_asked(words: &str) -> Option<Style>
    ensures { (style : AnyStyle) → (result ≡ Some style) ↔ AsksFor words.now style }
{
    let name = words.strip_prefix("column ")?;
    Form::by_name(name)?.style()
}
