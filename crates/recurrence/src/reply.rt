//! Writing the replies to lines.
ghost use Rattle.std.specs.Prelude.{◌≡◌, [], List, ℕ, OnOk, OnErr};
ghost use Rattle.forms.specs.Lines.{lines};
ghost use Rattle.forms.specs.Outside.{HasCause};
ghost use Rattle.whole_input.specs.Outcomes.{GainsAll, GainsPart};
ghost use Rattle.recurrence.specs.Replies.{Expands, IsReply, IsSeriesReply, IsWholeMillis, refusal};
ghost use Rattle.recurrence.specs.inside.Answers.{words_of};
ghost use Rattle.recurrence.specs.inside.Waiting.{Fails, Puts};
ghost use Rattle.recurrence.specs.inside.Written.{IsInMillis};

use crate::answer::{Answer, answer_to};
use crate::instant::civil_dates_are_calendar_dates;
use crate::laws;
use crate::refusal::{Refusal, refusal_line};
use crate::series::Series;
use crate::series_lines::{put_left, put_stop, texts_keep_their_order};
use forms::{Batch, Failed, Sink, flush, put_text};
use pg_interval_2::Interval;
use whole_input::first_line;

/// Writes the replies to all lines of a text, many at once.
pub fn write_replies<K: Sink>(sink: &mut K, text: &[u8]) -> Result<(), Failed>
    ensures ok { OnOk result (GainsAll Expands text.now 0 (K.held sink.old) (K.held sink.new)) }
    ensures err { OnErr result (GainsPart Expands text.now (K.held sink.old) (K.held sink.new)) }
    ensures cause { HasCause (K.faults sink.old) (K.faults sink.new) result }
{
    texts_keep_their_order();
    let mut batch = Batch::new();
    let mut rest = text;
    while let Some((line, after)) = first_line(rest) {
        if let Err(failed) = put_reply(sink, &mut batch, line) {
            laws::lines_have_one_output(after);
            return Err(failed);
        }
        rest = after;
    }
    flush(sink, &mut batch)
}

/// Puts the reply to a line behind what waits for the sink.
fn put_reply<K: Sink>(sink: &mut K, batch: &mut Batch, line: &[u8]) -> Result<(), Failed>
    ensures ok { OnOk result (Puts (λ out. IsReply out line.now)
        (K.held sink.old) (K.held sink.new) batch.old.bytes batch.new.bytes) }
    ensures err { OnErr result (Fails (λ out. IsReply out line.now)
        (K.held sink.old) (K.held sink.new) batch.old.bytes) }
    ensures cause { HasCause (K.faults sink.old) (K.faults sink.new) result }
{
    match answer_to(line) {
        Answer::Refused(refusal) => put_refusal(sink, batch, refusal),
        Answer::Instants { start, step, last } => put_series(sink, batch, start, step, last),
    }
}

/// Puts a refusal.
fn put_refusal<K: Sink>(sink: &mut K, batch: &mut Batch, why: Refusal) -> Result<(), Failed>
    ensures ok { OnOk result (Puts (λ out. out ≡ refusal (words_of why))
        (K.held sink.old) (K.held sink.new) batch.old.bytes batch.new.bytes) }
    ensures err { OnErr result (Fails (λ out. out ≡ refusal (words_of why))
        (K.held sink.old) (K.held sink.new) batch.old.bytes) }
    ensures cause { HasCause (K.faults sink.old) (K.faults sink.new) result }
{
    let line = refusal_line(why);
    put_text(sink, batch, line.as_str())
}

/// Puts the instants of a series, and where it stopped.
fn put_series<K: Sink>(
    sink: &mut K,
    batch: &mut Batch,
    start: i128,
    step: Interval,
    last: u32,
) -> Result<(), Failed>
    requires start { IsInMillis start }
    requires step { IsWholeMillis step }
    ensures ok { OnOk result (Puts (λ out. IsSeriesReply last start step out)
        (K.held sink.old) (K.held sink.new) batch.old.bytes batch.new.bytes) }
    ensures err { OnErr result (Fails (λ out. IsSeriesReply last start step out)
        (K.held sink.old) (K.held sink.new) batch.old.bytes) }
    ensures cause { HasCause (K.faults sink.old) (K.faults sink.new) result }
{
    texts_keep_their_order();
    civil_dates_are_calendar_dates();
    let mut series = Series::new(start, step, last);
    put_left(sink, batch, &mut series)?;
    put_stop(sink, batch, series.stopped())
}
