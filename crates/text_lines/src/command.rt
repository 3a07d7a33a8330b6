//! The command `FROM TO ..`, told by its words.
ghost use Rattle.std.specs.Prelude.{◌≡◌, ◌↔◌, ◌≤◌, List, ℕ, length, drop};
ghost use Rattle.forms.specs.declared.form.Form.{Form as AnyForm};
ghost use Rattle.forms.specs.Ends.{streams};
ghost use Rattle.text_lines.specs.declared.place.Place.{Place as AnyPlace};
ghost use Rattle.text_lines.specs.Asked.{AskLines, AskNothing, AskText};
ghost use Rattle.text_lines.specs.Outputs.{IsOutput};
ghost use Rattle.text_lines.specs.Ends.{JudgedEnded, MeansLines, TextEnded};

use crate::asked::{Asked, what_is_asked};
use crate::run::run_lines;
use crate::text::answer_text;
use forms::{Sink, Source};
use std::alloc::Global;

/// The status for words that ask for nothing.
const UNKNOWN_WORDS: u8 = 2;

/// The command that the words ask for.
///
/// - `FROM TO`, two names of forms, answers each line of the source, and `FROM TO field N` or `FROM TO word N`, with a decimal number from 1
///   on, the N-th field or word of each line where it stands: see `run_lines`.
/// - `FROM TO TEXT`, with any other text behind the names, answers this text on one line, and takes nothing from the source.
///
/// It answers the exit status: 0 where every reply is an answer, 8 where one is a refusal, 2 for other words, with nothing taken and nothing
/// written, 3 where a read failed, 4 where a write failed, 6 where there is no memory, with nothing taken and nothing written.
pub fn top<S: Source, K: Sink>(alloc: Global, words: &str, source: &mut S, sink: &mut K) -> u8
    // Words that ask for nothing are refused, with nothing taken and nothing written.
    ensures words { (result ≡ 2) ↔ AskNothing words.now }
    ensures unknown { result ≡ 2 → (source.new ≡ source.old) × (sink.new ≡ sink.old) }

    // Want of memory comes before the first byte.
    ensures no_memory { result ≡ 6 → (source.new ≡ source.old) × (sink.new ≡ sink.old) }

    // The lines of the source are answered.
    ensures ended { (from to : AnyForm) (place : AnyPlace) → AskLines words.now from to place
        → JudgedEnded (IsOutput from to place)
        (streams S.left S.taken S.faults K.held K.faults source.old sink.old)
        (streams S.left S.taken S.faults K.held K.faults source.new sink.new)
        result }
    ensures means { (from to : AnyForm) (place : AnyPlace) → AskLines words.now from to place
        → MeansLines (IsOutput from to place)
        (streams S.left S.taken S.faults K.held K.faults source.old sink.old)
        (streams S.left S.taken S.faults K.held K.faults source.new sink.new)
        result }

    // One text is answered, and nothing is taken.
    ensures text { (from to : AnyForm) (text : List ℕ) → AskText words.now from to text
        → TextEnded from to text
        (K.held sink.old) (K.held sink.new) (K.faults sink.old) (K.faults sink.new) result }
    ensures source { (from to : AnyForm) (text : List ℕ) → AskText words.now from to text
        → source.new ≡ source.old }
{
    match what_is_asked(words) {
        Asked::Lines(from, to, place) => run_lines(alloc, from, to, place, source, sink),
        Asked::Text(from, to, start) => answer_text(from, to, behind(words, start), sink),
        Asked::Nothing => UNKNOWN_WORDS,
    }
}

/// What stands in words from a byte on.
fn behind(words: &str, start: usize) -> &[u8]
    requires { start ≤ length words.now }
    ensures { result.now ≡ drop start words.now }
{
    &words.as_bytes()[start..]
}
