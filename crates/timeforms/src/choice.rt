//! Which program the words ask for.
ghost use Rattle.std.specs.Prelude.{◌≡◌, ◌≢◌, ◌↔◌, ℕ, List, [], codes};
ghost use Rattle.forms.specs.Ends.{streams};
ghost use Rattle.forms.specs.Sample.{AreUnknown, IsSample};
ghost use Rattle.forms.specs.declared.form.Form.{Form as AnyForm};
ghost use Rattle.interval_column.specs.Output.{AsksFor, Tells};
ghost use Rattle.pg_interval_2.specs.declared.style.Style.{Style as AnyStyle};
ghost use Rattle.recurrence.specs.Replies.{Expands};
ghost use Rattle.schedule_check.specs.Reports.{Reports};
ghost use Rattle.text_lines.specs.declared.place.Place.{Place as AnyPlace};
ghost use Rattle.text_lines.specs.Asked.{AskLines, AskNothing, AskText};
ghost use Rattle.text_lines.specs.Ends.{TextEnded};
ghost use Rattle.text_lines.specs.Outputs.{IsOutput};
ghost use Rattle.timeforms.specs.Programs.{AnswersLines, AnswersRequests, AnswersSample, AnswersWhole};

use forms::{Sink, Source};
use std::alloc::Global;

/// The status for words that aren't known.
const UNKNOWN_WORDS: u8 = 2;

/// The program that the words ask for: that of the first command that knows them, `interval_column::top` with `column F`,
/// `recurrence::top` with `recur`, `schedule_check::top` with `schedule`, `text_lines::top` with two names of forms, and `forms::top` with
/// all others. Each clause is one of that command's `top`, for its words.
pub fn pick<S: Source, K: Sink>(alloc: Global, words: &str, source: &mut S, sink: &mut K) -> u8
    // Words that ask for nothing are refused, with nothing taken and nothing written.
    ensures words { (result ≡ 2) ↔ (((style : AnyStyle) → AsksFor words.now style → ⊥)
        × (AreUnknown words.now × (words.now ≢ codes "schedule") × (words.now ≢ codes "recur")
        × AskNothing words.now)) }
    ensures unknown { result ≡ 2 → (source.new ≡ source.old) × (sink.new ≡ sink.old) }

    // With `schedule` it reports on all bytes.
    ensures schedule { words.now ≡ codes "schedule" → AnswersWhole Reports 4_194_304
        (streams S.left S.taken S.faults K.held K.faults source.old sink.old)
        (streams S.left S.taken S.faults K.held K.faults source.new sink.new)
        (sink.new ≡ sink.old) result }

    // With `recur` it writes the instants of the series that each line asks for.
    ensures recur { words.now ≡ codes "recur" → AnswersWhole Expands 4_096
        (streams S.left S.taken S.faults K.held K.faults source.old sink.old)
        (streams S.left S.taken S.faults K.held K.faults source.new sink.new)
        (sink.new ≡ sink.old) result }

    // With `column F` it writes the intervals of all lines in order, each in F, or the first line that has a fault.
    ensures column { (style : AnyStyle) → AsksFor words.now style
        → AnswersWhole (Tells style) 4_194_304
        (streams S.left S.taken S.faults K.held K.faults source.old sink.old)
        (streams S.left S.taken S.faults K.held K.faults source.new sink.new)
        (sink.new ≡ sink.old) result }

    // With two forms' names the lines of the source are answered, or one text, with nothing taken.
    ensures lines { (from to : AnyForm) (place : AnyPlace) → AskLines words.now from to place
        → AnswersLines (IsOutput from to place)
        (streams S.left S.taken S.faults K.held K.faults source.old sink.old)
        (streams S.left S.taken S.faults K.held K.faults source.new sink.new)
        result }
    ensures text { (from to : AnyForm) (text : List ℕ) → AskText words.now from to text
        → TextEnded from to text
        (K.held sink.old) (K.held sink.new) (K.faults sink.old) (K.faults sink.new) result }
    ensures untaken { (from to : AnyForm) (text : List ℕ) → AskText words.now from to text
        → source.new ≡ source.old }

    // Without words each line is a request, and has its reply.
    ensures requests { words.now ≡ [] → AnswersRequests 67_108_864
        (streams S.left S.taken S.faults K.held K.faults source.old sink.old)
        (streams S.left S.taken S.faults K.held K.faults source.new sink.new)
        result }

    // A sample leaves the source, and ends with the line that tells of its replies.
    ensures sample { (count : ℕ) → IsSample words.now count → AnswersSample count
        (K.held sink.old) (K.held sink.new) (K.faults sink.old) (K.faults sink.new) result }
    ensures unsampled { (count : ℕ) → IsSample words.now count → source.new ≡ source.old }

    // But for the commands that ask for memory once they have the input, want of it comes before the first byte.
    ensures no_memory { ((style : AnyStyle) → AsksFor words.now style → ⊥)
        → words.now ≢ codes "schedule" → result ≡ 6
        → (source.new ≡ source.old) × (sink.new ≡ sink.old) }
{
    text_lines::laws::asked_words_begin_with_a_capital();
    // A command that doesn't know the words leaves the source and the sink as they are.
    let status = interval_column::top(alloc, words, source, sink);
    if status != UNKNOWN_WORDS {
        return status;
    }
    let status = recurrence::top(alloc, words, source, sink);
    if status != UNKNOWN_WORDS {
        return status;
    }
    let status = schedule_check::top(alloc, words, source, sink);
    if status != UNKNOWN_WORDS {
        return status;
    }
    let status = text_lines::top(alloc, words, source, sink);
    if status != UNKNOWN_WORDS {
        return status;
    }
    forms::top(alloc, words, source, sink)
}

#[cfg(test)]
mod tests {
    use super::*;
    use forms::{MemSink, MemSource};
    use std::alloc::AllocError;
    use std::test::Fail;

    /// The status with which these words answer an input, where they write this output, and else none.
    fn picked(
        alloc: Global,
        words: &str,
        input: &[u8],
        output: &[u8],
    ) -> Result<Option<u8>, AllocError> {
        let mut source = MemSource::new(alloc, input, 65_536, &[])?;
        let mut sink = MemSink::new(alloc, 1000, 65_536, &[])?;
        let status = pick(alloc, words, &mut source, &mut sink);
        Ok(if sink.held() == output {
            Some(status)
        } else {
            None
        })
    }

    #[test]
    fn words_pick_programs(rt: HostRuntime) -> Result<(), Fail> {
        let alloc = rt.alloc();
        let line = b"PgIso PgIso P1Y1Y\n".as_slice();
        assert_eq!(rt; picked(alloc, "", line, b"P2Y\n")?, Some(0));
        assert_eq!(rt; picked(alloc, "schedule x", line, b"")?, Some(2));
        assert_eq!(rt;
            picked(
                alloc,
                "sample 10",
                line,
                b"lines 10 ok 9 refused 1 bytes 378\n"
            )?,
            Some(0)
        );
        assert_eq!(rt; picked(alloc, "schedule", line, b"line 1 Line\n")?, Some(8));
        Ok(())
    }

    #[test]
    fn plans_are_checked(rt: HostRuntime) -> Result<(), Fail> {
        let alloc = rt.alloc();
        let plan = b"1970-01-01T01:00:00Z\t30m\n1970-01-01T00:00:00Z\t1h\n".as_slice();
        let report =
            b"116444736000000000 116444772000000000 2\n116444772000000000 116444790000000000 1\n".as_slice();
        assert_eq!(rt; picked(alloc, "schedule", plan, report)?, Some(0));
        let plan = b"1970-01-01T00:00:00Z\t2h\n1970-01-01T02:30:00+01:00\t1h\n".as_slice();
        assert_eq!(rt; picked(alloc, "schedule", plan, b"clash 1 2\n")?, Some(7));
        let plan = b"1970-01-01\t1h\n".as_slice();
        assert_eq!(rt;
            picked(alloc, "schedule", plan, b"line 1 start Kind\n")?,
            Some(8)
        );
        let plan = b"1970-01-01T00:00:00Z\t0\n".as_slice();
        assert_eq!(rt;
            picked(alloc, "schedule", plan, b"line 1 length Empty\n")?,
            Some(8)
        );
        let plan = b"1970-01-01T00:00:00Z\t1ns\n".as_slice();
        assert_eq!(rt;
            picked(alloc, "schedule", plan, b"line 1 length Precision\n")?,
            Some(8)
        );
        let plan =
            b"1970-01-01T00:00:00Z\t2h\n1970-01-01T05:00:00Z\t1h\n1970-01-01T01:00:00Z\t1h\n".as_slice();
        assert_eq!(rt; picked(alloc, "schedule", plan, b"clash 1 3\n")?, Some(7));
        assert_eq!(rt; picked(alloc, "schedule", b"", b"")?, Some(0));
        Ok(())
    }

    #[test]
    fn columns_are_sorted(rt: HostRuntime) -> Result<(), Fail> {
        let alloc = rt.alloc();
        let rows = b"PgIso P1M\nPostgres 30 days\nPgSql 24:00:00\nPgVerbose @ 1 day\n".as_slice();
        let column =
            b"PT24H\nP1D\nP30D\nP1M\ncount 4\nleast PT24H\ngreatest P1M\nsum P1M31DT24H\n".as_slice();
        assert_eq!(rt; picked(alloc, "column PgIso", rows, column)?, Some(0));
        let rows = b"PgIso P2147483647D\nPgIso P1D\n".as_slice();
        let column =
            b"1 0:00:00\n2147483647 0:00:00\ncount 2\nleast 1 0:00:00\ngreatest 2147483647 0:00:00\nsum Range\n".as_slice();
        assert_eq!(rt; picked(alloc, "column PgSql", rows, column)?, Some(0));
        let rows = b"Postgres 1 hours 1 hours\n".as_slice();
        let line = b"line 1 refused Syntax\n".as_slice();
        assert_eq!(rt; picked(alloc, "column PgIso", rows, line)?, Some(8));
        assert_eq!(rt; picked(alloc, "column PgIso", b"", b"count 0\n")?, Some(0));
        assert_eq!(rt; picked(alloc, "column Toml", rows, b"")?, Some(2));
        Ok(())
    }
}
