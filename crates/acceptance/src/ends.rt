//! The ends of a run: sources that fail, sinks that fail or are full, and inputs beyond the limit.
use forms::{MemSink, MemSource, RunEnd, run, top};
use std::test::Fail;

/// Two lines in 20 bytes, and their replies in 17.
const INPUT: &[u8] = b"PgIso PgIso P1Y1Y\nx\n";

const REPLIES: &[u8] = b"P2Y\nrefused Line\n";

/// No call has this number.
const NEVER: u64 = 1_000_000;

#[test]
fn ends_of_runs(rt: HostRuntime) -> Result<(), Fail> {
    let alloc = rt.alloc();
    let nine: &[u8] = b"PgIso PgI";
    let lines: &[u8] = b"\nPgIso\nPgIso PgIso \xFF\nPgIso PgIso P1D";
    let replies: &[u8] = b"refused Line\nrefused Line\nrefused Line\nP1D\n";
    for (input, limit, source_fails, room, sink_fails, end, held) in [
        (lines, 100_u8, NEVER, 100, NEVER, RunEnd::Done, replies),
        (
            nine,
            9,
            NEVER,
            100,
            NEVER,
            RunEnd::Done,
            &b"refused Line\n"[..],
        ),
        (nine, 8, NEVER, 100, NEVER, RunEnd::TooLong, &b""[..]),
        (nine, 100, 1, 100, NEVER, RunEnd::ReadFault, &b""[..]),
        (b"x", 100, NEVER, 0, NEVER, RunEnd::WriteFault, &b""[..]),
        (INPUT, 20, NEVER, 17, NEVER, RunEnd::Done, REPLIES),
        (INPUT, 20, 20, 17, NEVER, RunEnd::ReadFault, REPLIES),
        (INPUT, 20, NEVER, 17, 4, RunEnd::WriteFault, &b"P2Y\n"[..]),
        (
            INPUT,
            20,
            NEVER,
            16,
            NEVER,
            RunEnd::WriteFault,
            &REPLIES[..16],
        ),
        (b"", 0, NEVER, 0, NEVER, RunEnd::Done, &b""[..]),
    ] {
        let mut source = MemSource::new(alloc, input, 1, &[source_fails])?;
        let mut sink = MemSink::new(alloc, room, 1, &[sink_fails])?;
        let ended = run(alloc, &mut source, &mut sink, u64::from(limit));
        assert_eq!(rt; ended, end, "at {input:?} and {limit}");
        assert_eq!(rt; sink.held(), held, "at {input:?} and {limit}");
        assert_eq!(rt; source.faults(), u64::from(end == RunEnd::ReadFault));
        assert_eq!(rt; sink.faults(), u64::from(end == RunEnd::WriteFault));
    }
    Ok(())
}

/// Each of the 21 reads fails in turn: the replies to the lines taken before it are held.
#[test]
fn each_read_fails(rt: HostRuntime) -> Result<(), Fail> {
    let alloc = rt.alloc();
    for call in 0..21_u64 {
        let mut source = MemSource::new(alloc, INPUT, 1, &[call])?;
        let mut sink = MemSink::new(alloc, 100, 1, &[])?;
        let ended = run(alloc, &mut source, &mut sink, 100);
        let held = match call {
            0..=17 => &b""[..],
            18 | 19 => &b"P2Y\n"[..],
            _ => REPLIES,
        };
        assert_eq!(rt; ended, RunEnd::ReadFault, "at read {call}");
        assert_eq!(rt; sink.held(), held, "at read {call}");
        assert_eq!(rt; (source.faults(), sink.faults()), (1, 0), "at read {call}");
    }
    Ok(())
}

/// Each of the 17 writes fails in turn: the bytes written before it are held.
#[test]
fn each_write_fails(rt: HostRuntime) -> Result<(), Fail> {
    let alloc = rt.alloc();
    let mut written = 0_usize;
    for call in 0..17_u64 {
        let mut source = MemSource::new(alloc, INPUT, 1, &[])?;
        let mut sink = MemSink::new(alloc, 100, 1, &[call])?;
        let ended = run(alloc, &mut source, &mut sink, 100);
        assert_eq!(rt; ended, RunEnd::WriteFault, "at write {call}");
        assert_eq!(rt; sink.held().len(), written, "at write {call}");
        assert!(rt; REPLIES.starts_with(sink.held()), "at write {call}");
        assert_eq!(rt; (source.faults(), sink.faults()), (0, 1), "at write {call}");
        written = written.saturating_add(1);
    }
    Ok(())
}

/// A source that fails, and a sink without room, at the first call.
#[test]
fn statuses(rt: HostRuntime) -> Result<(), Fail> {
    let alloc = rt.alloc();
    for (source_fails, room, status, left) in [
        (NEVER, 100, 0, 0),
        (0, 100, 3, 20),
        (NEVER, 3, 4, 0),
    ] {
        let mut source = MemSource::new(alloc, INPUT, 64, &[source_fails])?;
        let mut sink = MemSink::new(alloc, room, 64, &[])?;
        let ended = top(alloc, "", &mut source, &mut sink);
        assert_eq!(rt; ended, status, "at {room}");
        assert_eq!(rt; source.left().len(), left, "at {room}");
    }
    Ok(())
}
