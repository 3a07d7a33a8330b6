//! Inputs that come in pieces: a line is answered once its line feed was taken, and no part of a line before its end.
use forms::{MemSink, MemSource, RunEnd, run};
use std::test::Fail;

/// A whole line of 16 bytes, and a part of one.
const LINE_AND_PART: &[u8] = b"PgIso PgIso P1D\nPgIso";

/// Two lines of 16 bytes each.
const TWO_LINES: &[u8] = b"PgIso PgIso P1D\nPgIso PgIso P2D\n";

/// Three lines in 60 bytes, the last without its line feed.
const THREE_LINES: &[u8] = b"PgIso Postgres P1Y2M3DT4H5M6S\nx\nPostgres PgIso 1 day 2 hours";

/// No call has this number.
const NEVER: u64 = 1_000_000;

#[test]
fn lines_are_answered_when_they_end(rt: HostRuntime) -> Result<(), Fail> {
    let alloc = rt.alloc();
    let one: &[u8] = b"P1D\n";
    for (input, limit, source_fails, sink_fails, end, held, left) in [
        (
            LINE_AND_PART,
            100_u8,
            16,
            NEVER,
            RunEnd::ReadFault,
            one,
            5_usize,
        ),
        (LINE_AND_PART, 100, 15, NEVER, RunEnd::ReadFault, b"", 6),
        (LINE_AND_PART, 100, NEVER, 0, RunEnd::WriteFault, b"", 5),
        (TWO_LINES, 20, NEVER, NEVER, RunEnd::TooLong, one, 11),
        (TWO_LINES, 31, NEVER, NEVER, RunEnd::TooLong, one, 0),
        (TWO_LINES, 32, NEVER, NEVER, RunEnd::Done, b"P1D\nP2D\n", 0),
        // The byte past the limit ends no line, also where it is a line feed.
        (TWO_LINES, 15, NEVER, NEVER, RunEnd::TooLong, b"", 16),
        (
            b"\n\n",
            1,
            NEVER,
            NEVER,
            RunEnd::TooLong,
            b"refused Line\n",
            0,
        ),
        (b"\n", 0, NEVER, NEVER, RunEnd::TooLong, b"", 0),
        // At the end the last line is answered, and its reply may fail.
        (LINE_AND_PART, 100, NEVER, 4, RunEnd::WriteFault, one, 0),
    ] {
        let mut source = MemSource::new(alloc, input, 1, &[source_fails])?;
        let mut sink = MemSink::new(alloc, 100, 1, &[sink_fails])?;
        let ended = run(alloc, &mut source, &mut sink, u64::from(limit));
        assert_eq!(rt; ended, end, "at {input:?} and {limit}");
        assert_eq!(rt; sink.held(), held, "at {input:?} and {limit}");
        assert_eq!(rt; source.left().len(), left, "at {input:?} and {limit}");
    }
    Ok(())
}

/// Reads and writes of each size, to one more than there is to read and to write.
#[test]
fn cuts_change_nothing(rt: HostRuntime) -> Result<(), Fail> {
    let alloc = rt.alloc();
    let replies: &[u8] = b"1 year 2 mons 3 days 04:05:06\nrefused Line\nP1DT2H\n";
    for given in 1..62_usize {
        for taken in 1..52_usize {
            let mut source = MemSource::new(alloc, THREE_LINES, given, &[])?;
            let mut sink = MemSink::new(alloc, 100, taken, &[])?;
            let ended = run(alloc, &mut source, &mut sink, 1_000);
            assert_eq!(rt; ended, RunEnd::Done, "at cuts {given} and {taken}");
            assert_eq!(rt; sink.held(), replies, "at cuts {given} and {taken}");
        }
    }
    Ok(())
}

#[test]
fn one_write_for_a_piece(rt: HostRuntime) -> Result<(), Fail> {
    let alloc = rt.alloc();
    for (input, given, writes, held) in [
        // All whole lines of one read go out in one write, and a last line without line feed in a second one.
        (
            &b"x\ny\nPgIso PgIso P1D\n"[..],
            100_usize,
            1_u64,
            &b"refused Line\nrefused Line\nP1D\n"[..],
        ),
        (
            b"x\ny\nPgIso PgIso P1D",
            100,
            2,
            b"refused Line\nrefused Line\nP1D\n",
        ),
        // Where no line ends, nothing is written, and no empty piece either.
        (b"PgIso PgIso P1D\n", 1, 1, b"P1D\n"),
        (b"", 1, 0, b""),
    ] {
        let mut source = MemSource::new(alloc, input, given, &[])?;
        let mut sink = MemSink::new(alloc, 100, 100, &[writes])?;
        let ended = run(alloc, &mut source, &mut sink, 1_000);
        assert_eq!(rt; ended, RunEnd::Done, "at {input:?}");
        assert_eq!(rt; sink.held(), held, "at {input:?}");
        if writes > 0 {
            let mut source = MemSource::new(alloc, input, given, &[])?;
            let mut sink = MemSink::new(alloc, 100, 100, &[writes - 1])?;
            let ended = run(alloc, &mut source, &mut sink, 1_000);
            assert_eq!(rt; ended, RunEnd::WriteFault, "at {input:?}");
        }
    }
    Ok(())
}

#[test]
fn line_feeds_alone(rt: HostRuntime) -> Result<(), Fail> {
    let alloc = rt.alloc();
    let refused = b"refused Line\n";
    let mut input = Vec::new(alloc);
    let mut replies = Vec::new(alloc);
    for _ in 0..20_000_u32 {
        input.push(b'\n')?;
        replies.extend_from_slice(refused)?;
    }
    for (cut, sink_fails, end, held) in [
        (100_000_usize, NEVER, RunEnd::Done, 260_000_usize),
        (1, NEVER, RunEnd::Done, 260_000),
        // The second write fails: of one batch, or of the second batch. The first has the 5,034 replies after which
        // there may be no room for one of 97 bytes.
        (50_000, 1, RunEnd::WriteFault, 50_000),
        (65_536, 1, RunEnd::WriteFault, 65_442),
    ] {
        let mut source = MemSource::new(alloc, &input, cut, &[])?;
        let mut sink = MemSink::new(alloc, 260_000, cut, &[sink_fails])?;
        let ended = run(alloc, &mut source, &mut sink, 1_000_000);
        assert_eq!(rt; ended, end, "at {cut}");
        assert_eq!(rt; sink.held().len(), held, "at {cut}");
        assert!(rt; replies.starts_with(sink.held()), "at {cut}");
    }
    Ok(())
}

#[test]
fn line_as_long_as_the_limit(rt: HostRuntime) -> Result<(), Fail> {
    let alloc = rt.alloc();
    let mut input = Vec::new(alloc);
    for _ in 0..1_000_000_u32 {
        input.push(b'x')?;
    }
    for (limit, end, held) in [
        (1_000_000_u64, RunEnd::Done, &b"refused Line\n"[..]),
        (999_999, RunEnd::TooLong, b""),
    ] {
        let mut source = MemSource::new(alloc, &input, 10_007, &[])?;
        let mut sink = MemSink::new(alloc, 100, 100, &[])?;
        let ended = run(alloc, &mut source, &mut sink, limit);
        assert_eq!(rt; ended, end, "at {limit}");
        assert_eq!(rt; sink.held(), held, "at {limit}");
    }
    Ok(())
}
