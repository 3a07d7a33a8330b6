//! Each call by its numbers and codes as `include/timeforms.h` has them, at its bounds, and with rooms that are too small. The values are
//! of README.md and of the documents of the crates below, and by hand.
mod instants;
mod intervals;
mod schedule;

use crate::column::timeforms_convert_column;
use crate::form::{timeforms_form_by_name, timeforms_form_name};
use crate::interval::TimeformsInterval;
use crate::reply::{timeforms_replies, timeforms_reply, timeforms_reply_by_name};
use crate::version::timeforms_version;
use std::test::Fail;

/// Whether the text stands at the front of a room of `#`, and all behind it is as it was.
fn is_left(text: &str, room: &[u8]) -> bool {
    room.get(..text.len()) == Some(text.as_bytes())
        && room.iter().skip(text.len()).all(|byte| *byte == b'#')
}

/// The interval of months, days and microseconds.
fn interval(months: i32, days: i32, microseconds: i64) -> TimeformsInterval {
    TimeformsInterval {
        months,
        days,
        microseconds,
    }
}

#[test]
fn forms_by_number_and_by_name(rt: HostRuntime) -> Result<(), Fail> {
    for (number, name) in [
        (0, "FileTime"),
        (1, "IsoDateTime"),
        (2, "IsoDate"),
        (3, "IsoDuration"),
        (4, "Toml"),
        (5, "Fancy"),
        (6, "PgIso"),
        (7, "Postgres"),
        (8, "PgVerbose"),
        (9, "PgSql"),
        (10, "IsoStrict"),
        (11, "Unix"),
        (12, "PgTimestamp"),
        (13, "HttpDate"),
        (14, "MailDate"),
        (15, "XsdDuration"),
    ] {
        let mut room = [b'#'; 16];
        assert_eq!(rt; timeforms_form_by_name(name.as_bytes()), number);
        assert_eq!(rt; timeforms_form_name(number, &mut room), name.len() as i32);
        assert!(rt; is_left(name, &room), "at {name}");
    }
    for number in [-1, 1000, i32::MIN, i32::MAX] {
        let mut room = [b'#'; 16];
        assert_eq!(rt; timeforms_form_name(number, &mut room), -101);
        assert!(rt; is_left("", &room));
    }
    assert_eq!(rt; timeforms_form_by_name(b"pgiso"), -101);
    assert_eq!(rt; timeforms_form_by_name(b"PgIso\0"), -101);
    assert_eq!(rt; timeforms_form_by_name(b"\xFF"), -101);
    assert_eq!(rt; timeforms_form_by_name(b""), -101);
    Ok(())
}

#[test]
fn answers_and_codes(rt: HostRuntime) -> Result<(), Fail> {
    for (from, to, text, answer, left) in [
        (6, 6, "P1Y1Y", 3, "P2Y"),
        (
            0,
            1,
            "125962560000000000",
            29,
            "2000-02-29T00:00:00.000+00:00",
        ),
        (5, 7, "36h", 14, "1 day 12:00:00"),
        (1, 1, "2015-06-26 00:00:00Z", -1, ""),
        (2, 2, "2015-09-31", -2, ""),
        (0, 0, "18446744073709551616", -3, ""),
        (4, 0, "12:00:00", -4, ""),
        (5, 6, "1ns", -5, ""),
        (5, 5, "30d", -6, ""),
        (1000, 6, "P1D", -101, ""),
        (6, -1, "P1D", -101, ""),
    ] {
        let mut room = [b'#'; 32];
        assert_eq!(rt;
            timeforms_reply(from, to, text.as_bytes(), &mut room),
            answer,
            "at {text}"
        );
        assert!(rt; is_left(left, &room), "at {text}");
    }
    Ok(())
}

#[test]
fn answers_in_rooms_of_their_size(rt: HostRuntime) -> Result<(), Fail> {
    let (mut short, mut just) = ([b'#'; 12], [b'#'; 13]);
    assert_eq!(rt; timeforms_reply(6, 7, b"P1Y2M", &mut short), -103);
    assert!(rt; is_left("", &short));
    assert_eq!(rt; timeforms_reply(6, 7, b"P1Y2M", &mut just), 13);
    assert!(rt; is_left("1 year 2 mons", &just));
    Ok(())
}

#[test]
fn answers_by_name(rt: HostRuntime) -> Result<(), Fail> {
    let mut room = [b'#'; 16];
    assert_eq!(rt;
        timeforms_reply_by_name(b"PgIsoo", b"PgIso", b"P1D", &mut room),
        -101
    );
    assert_eq!(rt;
        timeforms_reply_by_name(b"PgIso", b"", b"P1D", &mut room),
        -101
    );
    assert_eq!(rt;
        timeforms_reply_by_name(b"PgIso", b"PgSql", b"P", &mut room),
        -1
    );
    assert!(rt; is_left("", &room));
    assert_eq!(rt;
        timeforms_reply_by_name(b"PgIso", b"PgSql", b"P1Y2M", &mut room),
        3
    );
    assert!(rt; is_left("1-2", &room));
    Ok(())
}

#[test]
fn bytes_that_are_not_utf8(rt: HostRuntime) -> Result<(), Fail> {
    let mut room = [b'#'; 16];
    assert_eq!(rt; timeforms_reply(6, 6, b"\xFF", &mut room), -102);
    assert_eq!(rt;
        timeforms_reply_by_name(b"PgIso", b"PgIso", b"\xFF", &mut room),
        -102
    );
    assert_eq!(rt; timeforms_reply(6, 1000, b"\xFF", &mut room), -101);
    assert!(rt; is_left("", &room));
    Ok(())
}

#[test]
fn replies_to_whole_lines(rt: HostRuntime) -> Result<(), Fail> {
    let lines = b"PgIso PgIso P1Y1Y\nFileTime\nPgIso PgIso P1D";
    let (mut room, mut used) = ([b'#'; 32], 99);
    assert_eq!(rt; timeforms_replies(lines, &mut room, &mut used), 17);
    assert_eq!(rt; used, 27);
    assert!(rt; is_left("P2Y\nrefused Line\n", &room));
    let mut room = [b'#'; 16];
    assert_eq!(rt; timeforms_replies(lines, &mut room, &mut used), 4);
    assert_eq!(rt; used, 18);
    assert!(rt; is_left("P2Y\n", &room));
    Ok(())
}

#[test]
fn columns_of_texts(rt: HostRuntime) -> Result<(), Fail> {
    let (mut room, mut done) = ([b'#'; 16], 77);
    let (mut offsets, mut codes) = ([7; 7], [7; 6]);
    let status = timeforms_convert_column(
        6,
        7,
        b"P1Y1YP1D\n\xFFP3W",
        &[0, 5, 5, 9, 10, 13],
        &mut room,
        &mut offsets,
        &mut codes,
        &mut done,
    );
    assert_eq!(rt; (status, done), (0, 5));
    assert!(rt; is_left("2 years21 days", &room));
    assert_eq!(rt; offsets, [0, 7, 7, 7, 7, 14, 7]);
    assert_eq!(rt; codes, [0, -1, -1, -102, 0, 7]);
    Ok(())
}

#[test]
fn columns_of_bad_offsets(rt: HostRuntime) -> Result<(), Fail> {
    let (mut room, mut done) = ([b'#'; 5], 77);
    let (mut offsets, mut codes) = ([7; 6], [7; 5]);
    let given = [3, 0, 3, 4, u32::MAX, 3];
    let status = timeforms_convert_column(
        6,
        6,
        b"P1D",
        &given,
        &mut room,
        &mut offsets,
        &mut codes,
        &mut done,
    );
    assert_eq!(rt; (status, done), (0, 5));
    assert!(rt; is_left("P1D", &room));
    assert_eq!(rt; offsets, [0, 0, 3, 3, 3, 3]);
    assert_eq!(rt; codes, [-104, 0, -104, -104, -104]);
    Ok(())
}

#[test]
fn columns_in_rooms_of_their_size(rt: HostRuntime) -> Result<(), Fail> {
    let (mut room, mut done) = ([b'#'; 5], 77);
    let (mut offsets, mut codes) = ([7; 3], [7; 2]);
    let cells = [0, 3, 6];
    assert_eq!(rt;
        timeforms_convert_column(
            6,
            6,
            b"P1DP2D",
            &cells,
            &mut room,
            &mut offsets,
            &mut codes,
            &mut done
        ),
        0
    );
    assert_eq!(rt; done, 1);
    assert!(rt; is_left("P1D", &room));
    assert_eq!(rt; offsets, [0, 3, 7]);
    assert_eq!(rt;
        timeforms_convert_column(
            6,
            6,
            b"P1D",
            &cells,
            &mut room,
            &mut [],
            &mut codes,
            &mut done
        ),
        -103
    );
    assert_eq!(rt;
        timeforms_convert_column(
            6,
            1000,
            b"P1D",
            &cells,
            &mut room,
            &mut [],
            &mut codes,
            &mut done
        ),
        -101
    );
    assert_eq!(rt; done, 1);
    Ok(())
}

#[test]
fn version(rt: HostRuntime) -> Result<(), Fail> {
    let mut room = [b'#'; 8];
    assert_eq!(rt; timeforms_version(&mut room), 5);
    assert!(rt; is_left("1.1.0", &room));
    Ok(())
}
