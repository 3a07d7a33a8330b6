//! A run over lines with a text at a place.
ghost use Rattle.std.specs.Prelude.{◌≡◌};
ghost use Rattle.forms.specs.Ends.{streams};
ghost use Rattle.text_lines.specs.declared.place.Place.TheVariants.{Whole};
ghost use Rattle.text_lines.specs.Outputs.{IsOutput};
ghost use Rattle.text_lines.specs.Ends.{JudgedEnded, MeansLines, judged_status};

use crate::byte_batch::ByteBatch;
use crate::columns::Columns;
use crate::line::LINE;
use crate::place::Place;
use crate::texts::Texts;
use forms::{Batch, Form, RunEnd, Sink, Source, answer_lines};
use std::alloc::Global;

/// More bytes than any input has.
const NO_LIMIT: usize = 4_611_686_018_427_387_904;

/// Answers the text at one place of each line of the source, which is of one form, in another form where it stands, while it reads:
/// from `Form::PgIso` to `Form::Postgres` at `Place::Field(1)` the line `a<TAB>P1D<TAB>b` becomes `a<TAB>1 day<TAB>b`.
///
/// What stands in place of the text is its reply, as `forms::run` has it for a line of the two names and the text: the answer, or `refused`
/// and the cause. All other bytes stay, among them a CR in front of a line feed and a byte order mark in front of the first line. A line
/// without such a place, and a line of more than 1_048_576 bytes, is `refused Line`; of the longer one the line's end is a line feed alone.
///
/// The input may have any length. 2.2 MB are reserved before the first byte is read, and no memory is asked for afterwards. It reads on
/// only when the outputs for all lines taken so far were written.
///
/// It answers the exit status: 0 where every reply is an answer, 8 where one is a refusal, 3 where a read failed, 4 where a write failed,
/// 6 where there is no memory, with nothing taken.
pub fn run_lines<S: Source, K: Sink>(
    alloc: Global,
    from: Form,
    to: Form,
    place: Place,
    source: &mut S,
    sink: &mut K,
) -> u8
    // What was taken and written at each end, however the bytes were cut.
    ensures ended { JudgedEnded (IsOutput from to place)
        (streams S.left S.taken S.faults K.held K.faults source.old sink.old)
        (streams S.left S.taken S.faults K.held K.faults source.new sink.new)
        result }

    // What each status means for all bytes.
    ensures means { MeansLines (IsOutput from to place)
        (streams S.left S.taken S.faults K.held K.faults source.old sink.old)
        (streams S.left S.taken S.faults K.held K.faults source.new sink.new)
        result }

    // Want of memory comes before the first byte.
    ensures no_memory { result ≡ 6 → (source.new ≡ source.old) × (sink.new ≡ sink.old) }
{
    forms::laws::whole_lines_of_a_front_come_first();
    run_at(alloc, from, to, place, source, sink)
}

/// The same, by how the outputs wait.
fn run_at<S: Source, K: Sink>(
    alloc: Global,
    from: Form,
    to: Form,
    place: Place,
    source: &mut S,
    sink: &mut K,
) -> u8
    ensures ended { JudgedEnded (IsOutput from to place)
        (streams S.left S.taken S.faults K.held K.faults source.old sink.old)
        (streams S.left S.taken S.faults K.held K.faults source.new sink.new)
        result }
    ensures no_memory { result ≡ 6 → (source.new ≡ source.old) × (sink.new ≡ sink.old) }
{
    match place {
        Place::Whole => run_texts(alloc, from, to, source, sink),
        Place::Field(_) => run_columns(alloc, from, to, place, source, sink),
        Place::Word(_) => run_columns(alloc, from, to, place, source, sink),
    }
}

/// The run over lines that are texts.
fn run_texts<S: Source, K: Sink>(
    alloc: Global,
    from: Form,
    to: Form,
    source: &mut S,
    sink: &mut K,
) -> u8
    ensures ended { JudgedEnded (IsOutput from to Whole)
        (streams S.left S.taken S.faults K.held K.faults source.old sink.old)
        (streams S.left S.taken S.faults K.held K.faults source.new sink.new)
        result }
    ensures no_memory { result ≡ 6 → (source.new ≡ source.old) × (sink.new ≡ sink.old) }
{
    let Ok(mut kept) = Vec::with_capacity(alloc, LINE + 1) else {
        return RunEnd::NoMemory.status();
    };
    let mut batch = Batch::new();
    let mut texts = Texts {
        from,
        to,
        first: true,
        refused: false,
    };
    let end = answer_lines(
        &mut texts,
        source,
        sink,
        &mut batch,
        &mut kept,
        LINE + 1,
        NO_LIMIT,
    );
    status_with(end, texts.refused)
}

/// The run over lines of which a part is a text.
fn run_columns<S: Source, K: Sink>(
    alloc: Global,
    from: Form,
    to: Form,
    place: Place,
    source: &mut S,
    sink: &mut K,
) -> u8
    ensures ended { JudgedEnded (IsOutput from to place)
        (streams S.left S.taken S.faults K.held K.faults source.old sink.old)
        (streams S.left S.taken S.faults K.held K.faults source.new sink.new)
        result }
    ensures no_memory { result ≡ 6 → (source.new ≡ source.old) × (sink.new ≡ sink.old) }
{
    let Ok(mut kept) = Vec::with_capacity(alloc, LINE + 1) else {
        return RunEnd::NoMemory.status();
    };
    let Ok(mut batch) = ByteBatch::new(alloc) else {
        return RunEnd::NoMemory.status();
    };
    let mut columns = Columns {
        from,
        to,
        place,
        first: true,
        refused: false,
    };
    let end = answer_lines(
        &mut columns,
        source,
        sink,
        &mut batch,
        &mut kept,
        LINE + 1,
        NO_LIMIT,
    );
    status_with(end, columns.refused)
}

/// The status of an end, where a text was refused or none was.
fn status_with(end: RunEnd, refused: bool) -> u8
    ensures { result ≡ judged_status end refused }
{
    if end == RunEnd::Done && refused {
        return REFUSED;
    }
    end.status()
}

/// The status where a text was refused.
pub const REFUSED: u8 = 8;
