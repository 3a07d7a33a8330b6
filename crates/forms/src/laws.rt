//! Laws of forms, lines, replies and the ends of runs.
ghost use Rattle.std.specs.Prelude.{pos, ◌≡◌, ◌≢◌, ◌⊎◌, ◌↔◌, ◌+◌, ◌-◌, ◌/◌, ◌^◌, ◌<◌, ◌++◌, List, ℕ, Option, Result as AnyResult, Ok, Err, IfSome, IsTrue, IsUtf8, codes};
ghost use Rattle.std.specs.Io.KnownBytes.{Appends};
ghost use Rattle.std.specs.Str.{IsAscii};
ghost use Rattle.pg_interval_2.specs.Denotes.{Denotes};
ghost use Rattle.pg_interval_2.specs.Styles.{Shape};
ghost use Rattle.pg_interval_2.specs.declared.interval.Interval.{Interval as AnyInterval};
ghost use Rattle.pg_interval_2.specs.declared.style.Style.{Style as AnyStyle};
ghost use Rattle.forms.specs.declared.answer.ConvertError.{ConvertError as AnyConvertError};
ghost use Rattle.forms.specs.declared.cause.Cause.{Cause as AnyCause};
ghost use Rattle.forms.specs.declared.form.Form.{Form as AnyForm};
ghost use Rattle.forms.specs.declared.streams.Failed.{Failed as AnyFailed};
ghost use Rattle.forms.specs.declared.run_end.RunEnd.{RunEnd as AnyEnd};
ghost use Rattle.forms.specs.declared.run_end.RunEnd.TheVariants.{TooLong, WriteFault};
ghost use Rattle.forms.specs.declared.value.Value.{Value as AnyValue};
ghost use Rattle.forms.specs.Ends.{Ended, EndsByLength, GainsFront, Streams};
ghost use Rattle.forms.specs.Forms.{Reads, Writes};
ghost use Rattle.forms.specs.Names.{name_of};
ghost use Rattle.forms.specs.Lines.{lines, whole_lines};
ghost use Rattle.forms.specs.Outside.{Rose, AppendsFront};
ghost use Rattle.forms.specs.ReadBack.{Turns, IsReadBack};
ghost use Rattle.forms.specs.Replies.{IsAnswer, IsIntervalAnswer, IsReply, IsRequest, AreReplies};
ghost use Rattle.forms.specs.Sample.{answers, refusals, sample_lines};
ghost use Rattle.forms.specs.Values.{IsWithinBounds};
ghost use Rattle.forms.specs.Waiting.{Moves};
ghost use Rattle.forms.specs.form.Intervals.{FindsInterval};
ghost use Rattle.forms.specs.inside.Lawful.{Lawful};

use crate::answer::{ConvertError, line_reply};
use crate::cause::Cause;
use crate::form::{
    Form, fancy, file_time, http_mail, intervals, iso_date, iso_date_time, iso_duration,
    timestamps, toml, unix, xml_durations,
};
use crate::run_end::RunEnd;
use crate::streams::Failed;
use crate::value::Value;

/// Each form is lawful.
pub(crate) fn all_lawful()
    ensures { (form : AnyForm) → Lawful form }
{
    file_time::lawful();
    iso_date_time::lawful();
    iso_date::lawful();
    iso_duration::lawful();
    toml::lawful();
    fancy::lawful();
    intervals::lawful();
    unix::lawful();
    timestamps::lawful();
    http_mail::lawful();
    xml_durations::lawful();
}

/// A text that has a form's shape is ASCII, whatever it stands for there.
pub fn texts_are_ascii()
    ensures { (form : AnyForm) (text : List ℕ) (answer : AnyResult AnyValue AnyCause)
        → Reads form text answer → answer ≢ Err AnyCause.Syntax → IsAscii text }
{
    all_lawful();
}

/// A text stands for one value at most in each form, and where it stands for none there is one cause.
pub fn texts_have_one_reading()
    ensures { (form : AnyForm) (text : List ℕ) (a b : AnyResult AnyValue AnyCause)
        → Reads form text a → Reads form text b → a ≡ b }
{
    all_lawful();
}

/// A text denotes one interval at most in each style, and where it denotes none there is one cause: what [`crate::read_interval`]
/// answers.
pub fn texts_have_one_interval_or_cause()
    ensures { (style : AnyStyle) (text : List ℕ) (a b : AnyResult AnyInterval AnyCause)
        → FindsInterval style text a → FindsInterval style text b → a ≡ b }
{
    pg_interval_2::laws::text_has_one_list_of_counts();
}

/// A value has one written text at most in each form, and where it has none there is one cause.
pub fn values_have_one_writing()
    ensures { (form : AnyForm) (value : AnyValue) (a b : AnyResult (List ℕ) AnyCause)
        → Writes form value a → Writes form value b → a ≡ b }
{
    all_lawful();
}

/// What a text stands for is within the bounds of values.
pub fn read_values_are_within_bounds()
    ensures { (form : AnyForm) (text : List ℕ) (value : AnyValue)
        → Reads form text (Ok value) → IsWithinBounds value }
{
    all_lawful();
}

/// The written text of a value stands for this value, or for one that is the same, whose text it is.
pub fn written_texts_are_read_back()
    ensures { (form : AnyForm) (value : AnyValue) (text : List ℕ)
        → IsWithinBounds value → Writes form value (Ok text) → IsReadBack form value text }
{
    all_lawful();
}

/// Where a text of one form has an answer in another form, the answer stands there for the value of the text, or for one
/// that is the same, whose text it is: so a second conversion into that form changes nothing.
pub fn answers_are_read_back()
    ensures { (from to : AnyForm) (text out : List ℕ) → IsAnswer from to text (Ok out)
        → (value : AnyValue) × Reads from text (Ok value) × IsReadBack to value out }
{
    all_lawful();
    answers_are_readings_written();
}

/// Between interval forms the answer denotes the text's interval itself. So a way through a third interval form changes nothing.
pub fn interval_answers_keep_their_interval()
    ensures { (from to : AnyStyle) (text out : List ℕ) → IsIntervalAnswer from to text (Ok out)
        → (t : AnyInterval) × Denotes (Shape from) text t × Denotes (Shape to) out t }
{
    pg_interval_2::laws::denoted_interval_is_in_range();
    pg_interval_2::laws::written_text_is_read_back();
}

/// An answer is what the second form writes of what the first reads, between interval forms too, where it is said in the words of the
/// interval grammars and styles.
pub fn answers_are_readings_written()
    ensures { (from to : AnyForm) (text : List ℕ) (answer : AnyResult (List ℕ) AnyCause)
        → IsAnswer from to text answer ↔ Turns from to text answer }
{
    pg_interval_2::laws::denoted_interval_is_in_range();
}

/// A text has one answer at most between any two forms.
pub fn texts_have_one_answer()
    ensures { (from to : AnyForm) (text : List ℕ) (a b : AnyResult (List ℕ) AnyCause)
        → IsAnswer from to text a → IsAnswer from to text b → a ≡ b }
{
    all_lawful();
    answers_are_readings_written();
}

/// A line of two names, a space and a text asks for this text where it is UTF-8, and else for nothing.
pub fn lines_of_two_names_ask_for_their_text()
    ensures asked { (from to : AnyForm) (text : List ℕ) → IsUtf8 text
        → IsRequest ((name_of from ++ (codes " " ++ name_of to)) ++ (codes " " ++ text))
        from to text }
    ensures none { (from to : AnyForm) (text : List ℕ) → ¬ (IsUtf8 text)
        → (f t : AnyForm) (other : List ℕ)
        → ¬ (IsRequest ((name_of from ++ (codes " " ++ name_of to)) ++ (codes " " ++ text))
        f t other) }
{}

/// A line has exactly one reply. That there is one is shown by answering the line.
pub fn one_reply(line: &[u8])
    ensures some { (out : List ℕ) × IsReply line.now out }
    ensures alone { (a b : List ℕ) → IsReply line.now a → IsReply line.now b → a ≡ b }
{
    all_lawful();
    answers_are_readings_written();
    let _ = line_reply(line);
}

/// Lines have one list of replies at most.
pub fn one_output()
    ensures { (lines : List (List ℕ)) (a b : List ℕ) → AreReplies lines a → AreReplies lines b
        → a ≡ b }
{
    all_lawful();
    answers_are_readings_written();
}

/// Of the replies to the lines of a sample a tenth are refusals, rounded down, and the others aren't.
pub fn a_tenth_of_a_sample_is_refused()
    ensures { (count : ℕ) (replies : List ℕ) → AreReplies (sample_lines count) replies
        → (refusals (whole_lines replies) ≡ count / 10)
        × (answers (whole_lines replies) ≡ count - count / 10) }
{
    pg_interval_2::laws::texts_are_of_one_alphabet();
    pg_interval_2::laws::written_text_is_one_line();
    pg_interval_2::laws::written_text_is_read_back();
    one_output();
}

/// Texts that are put behind what waits are written in order: one behind another, all once what waits is written, and a front of them
/// where a write fails.
pub fn waiting_texts_keep_their_order()
    ensures next { (a b c : Option (List ℕ)) (before first between second after : List ℕ)
        → Moves a b before first between → Moves b c between second after
        → Moves a c before (first ++ second) after }
    ensures next_fails { (a b c : Option (List ℕ)) (before first between second : List ℕ)
        → Moves a b before first between → AppendsFront b c (between ++ second)
        → AppendsFront a c (before ++ (first ++ second)) }
    ensures flushed { (a b c : Option (List ℕ)) (before text after : List ℕ)
        → Moves a b before text after → Appends b c after → Appends a c (before ++ text) }
    ensures flush_fails { (a b c : Option (List ℕ)) (before text after : List ℕ)
        → Moves a b before text after → AppendsFront b c after
        → AppendsFront a c (before ++ text) }
{}

/// The whole lines of a front of some bytes are the first lines of all.
pub fn whole_lines_of_a_front_come_first()
    ensures { (front rest : List ℕ) → (more : List (List ℕ))
        × (lines (front ++ rest) ≡ whole_lines front ++ more) }
{}

/// A count of faults that stands still didn't rise, but at its greatest value.
pub fn still_count_is_no_fault()
    ensures { (count : ℕ) → count < 2 ^ 64 - 1 → ¬ (Rose count count) }
{}

/// Where no count of faults rose, the length of the input decides how a run ends: within the limit it is done, beyond
/// it too long, if there is memory.
pub fn length_decides_the_end()
    ensures { (limit : ℕ) (old new : Streams) (end : AnyEnd) → Ended limit old new end
        → ¬ (Rose old.read_faults new.read_faults) → ¬ (Rose old.write_faults new.write_faults)
        → EndsByLength limit old.left end }
{}

/// A run that is too long took more bytes than the limit. A run that took more is too long, if no write failed.
/// This holds also where the source tells no bytes.
pub fn too_long_is_past_the_limit()
    ensures { (limit : ℕ) (old new : Streams) (end : AnyEnd)
        → Ended limit old new end → old.taken < 2 ^ 63
        → (end ≡ TooLong → old.taken + limit < new.taken)
        × (old.taken + limit < new.taken
        → (end ≡ TooLong) ⊎ ((end ≡ WriteFault) × Rose old.write_faults new.write_faults)) }
{}

/// At every end a front of the replies to all lines of the input was written.
pub fn each_end_leaves_a_front()
    ensures { (limit : ℕ) (old new : Streams) (end : AnyEnd) → Ended limit old new end
        → IfSome old.left (λ bytes. GainsFront (lines bytes) old.held new.held) }
{}

/// Forms, causes and ends are equal where they are one, values and refusals where all their fields are: a day isn't the moment at which
/// it begins.
pub fn equality_is_that_of_the_fields()
    ensures forms { (a b : AnyForm) → IsTrue (⟦<Form as PartialEq>⟧.eq a b) ↔ (a ≡ b) }
    ensures values { (a b : AnyValue) → IsTrue (⟦<Value as PartialEq>⟧.eq a b) ↔ (a ≡ b) }
    ensures causes { (a b : AnyCause) → IsTrue (⟦<Cause as PartialEq>⟧.eq a b) ↔ (a ≡ b) }
    ensures refusals { (a b : AnyConvertError)
        → IsTrue (⟦<ConvertError as PartialEq>⟧.eq a b) ↔ (a ≡ b) }
    ensures failures { (a b : AnyFailed) → IsTrue (⟦<Failed as PartialEq>⟧.eq a b) ↔ (a ≡ b) }
    ensures ends { (a b : AnyEnd) → IsTrue (⟦<RunEnd as PartialEq>⟧.eq a b) ↔ (a ≡ b) }
{}
