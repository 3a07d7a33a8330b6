//! Writing the instants of a series, each on a line of its own.
ghost use Rattle.std.specs.Prelude.{◌≡◌, ◌+◌, ◌≤◌, ◌++◌, Ok, Some, codes, decimal, length, OnOk, OnErr};
ghost use Rattle.arrayvec.specs.ArrayString.{array_string_len};
ghost use Rattle.scan_core.specs.Join.{IsJoin};
ghost use Rattle.forms.specs.Forms.{Writes};
ghost use Rattle.forms.specs.Outside.{HasCause};
ghost use Rattle.forms.specs.declared.form.Form.TheVariants.{IsoDateTime};
ghost use Rattle.forms.specs.declared.value.Value.TheVariants.{Instant};
ghost use Rattle.recurrence.specs.Replies.{IsInstantLine, stop_text};
ghost use Rattle.recurrence.specs.inside.Waiting.{Puts, Fails, Gains, KeepOrder};
ghost use Rattle.recurrence.specs.inside.Written.{AreWritable, IsWritable};

use crate::instant::civil_dates_are_calendar_dates;
use crate::series::Series;
use arrayvec::ArrayString;
use forms::{Batch, Failed, Form, Sink, Value, make_room, push_value, put_text};
use scan_core::{Short, push_num};

/// Texts that wait for one write are written in order.
pub(crate) fn texts_keep_their_order()
    ensures { KeepOrder }
{
    forms::laws::waiting_texts_keep_their_order();
}

/// Puts the lines of the instants that are left, up to the series' end.
pub fn put_left<K: Sink>(sink: &mut K, batch: &mut Batch, series: &mut Series) -> Result<(), Failed>
    requires { AreWritable series.old.left }
    ensures ok { OnOk result (Puts (λ text. IsJoin IsInstantLine text series.old.left)
        (K.held sink.old) (K.held sink.new) batch.old.bytes batch.new.bytes) }
    ensures stopped { OnOk result (series.new.stopped ≡ series.old.stop) }
    ensures err { OnErr result (Fails (λ text. IsJoin IsInstantLine text series.old.left)
        (K.held sink.old) (K.held sink.new) batch.old.bytes) }
    ensures cause { HasCause (K.faults sink.old) (K.faults sink.new) result }
{
    texts_keep_their_order();
    civil_dates_are_calendar_dates();
    while let Some(instant) = series.next() {
        put_instant(sink, batch, instant)?;
    }
    Ok(())
}

/// Puts the line of an instant.
fn put_instant<K: Sink>(sink: &mut K, batch: &mut Batch, instant: i128) -> Result<(), Failed>
    requires { IsWritable instant }
    ensures ok { OnOk result (Puts (λ text. IsInstantLine text instant)
        (K.held sink.old) (K.held sink.new) batch.old.bytes batch.new.bytes) }
    ensures err { OnErr result (Fails (λ text. IsInstantLine text instant)
        (K.held sink.old) (K.held sink.new) batch.old.bytes) }
    ensures cause { HasCause (K.faults sink.old) (K.faults sink.new) result }
{
    texts_keep_their_order();
    civil_dates_are_calendar_dates();
    make_room(sink, batch, 97)?;
    push_line(batch, instant);
    Ok(())
}

/// Appends the line of an instant.
fn push_line<const CAP: usize>(batch: &mut ArrayString<CAP>, instant: i128)
    requires writable { IsWritable instant }
    requires room { array_string_len batch.old + 97 ≤ CAP }
    ensures { Gains (λ text. IsInstantLine text instant) batch.old.bytes batch.new.bytes }
{
    push_instant(batch, instant);
    batch.push('\n');
}

/// Appends the written text of an instant.
fn push_instant<const CAP: usize>(batch: &mut ArrayString<CAP>, instant: i128)
    requires writable { IsWritable instant }
    requires room { array_string_len batch.old + 96 ≤ CAP }
    ensures written { Gains (λ text. Writes IsoDateTime (Instant instant) (Ok text))
        batch.old.bytes batch.new.bytes }
    ensures len { array_string_len batch.new ≤ array_string_len batch.old + 96 }
{
    civil_dates_are_calendar_dates();
    forms::laws::values_have_one_writing();
    match push_value(Form::IsoDateTime, Value::Instant(instant), batch) {
        Ok(()) => {}
        Err(_) => unreachable!(),
    }
}

/// Puts the line that says where a series stopped, where it did.
pub fn put_stop<K: Sink>(
    sink: &mut K,
    batch: &mut Batch,
    stopped: Option<u32>,
) -> Result<(), Failed>
    ensures ok { OnOk result (Puts (λ text. text ≡ stop_text stopped)
        (K.held sink.old) (K.held sink.new) batch.old.bytes batch.new.bytes) }
    ensures err { OnErr result (Fails (λ text. text ≡ stop_text stopped)
        (K.held sink.old) (K.held sink.new) batch.old.bytes) }
    ensures cause { HasCause (K.faults sink.old) (K.faults sink.new) result }
{
    match stopped {
        Some(k) => {
            let line = stop_line(k);
            put_text(sink, batch, line.as_str())
        }
        None => Ok(()),
    }
}

/// The line that says where a series stopped.
fn stop_line(k: u32) -> Short
    ensures line { result.bytes ≡ stop_text (Some k) }
    ensures len { length result.bytes ≤ 40 }
{
    let mut line = stop_place(k);
    line.push('\n');
    line
}

/// The same without its line feed.
#[tactic(auto, using(crate::proofs::Asking::short_decimal))]
fn stop_place(k: u32) -> Short
    ensures line { result.bytes ≡ codes "refused Range at " ++ decimal k }
    ensures len { array_string_len result ≤ 27 }
{
    let mut line = stop_head();
    push_num(&mut line, k as u64);
    line
}

/// What stands before the number.
fn stop_head() -> Short
    ensures line { result.bytes ≡ codes "refused Range at " }
    ensures len { array_string_len result ≤ 17 }
{
    let mut line = Short::new();
    line.push_str("refused Range at ");
    line
}
