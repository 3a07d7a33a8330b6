//! The check of a schedule by its codes as `include/timeforms.h` has them. The rows are those of docs/COMMANDS.md and of the table of the
//! command `schedule`, crates/conformance/data/schedule.tsv.
use crate::schedule::timeforms_schedule_check;
use schedule_check::Slot;
use std::test::Fail;

/// The slot that stands in each place before a call.
const UNTOUCHED: Slot = Slot {
    start: 7,
    end: 7,
    line: 7,
};

/// What the call answers, and the three numbers behind it, which are 7 before.
fn checked(text: &[u8], slots: &mut [Slot]) -> (i32, usize, u64, u64) {
    let (mut count, mut first, mut second) = (7, 7, 7);
    let code = timeforms_schedule_check(text, slots, &mut count, &mut first, &mut second);
    (code, count, first, second)
}

/// The start, the end and the line of a slot.
fn parts(slot: Slot) -> (u64, u64, u64) {
    (slot.start, slot.end, slot.line)
}

#[test]
fn slots_in_order(rt: HostRuntime) -> Result<(), Fail> {
    let text =
        b"2026-03-30T06:00:00+02:00\t8h\n2026-03-30T22:00:00+02:00\t8h\n2026-03-30T14:00:00+02:00\t8h\n";
    let mut slots = [UNTOUCHED; 4];
    assert_eq!(rt; checked(text, &mut slots), (0, 3, 7, 7));
    let [a, b, c, d] = slots;
    assert_eq!(rt;
        parts(a),
        (134_193_168_000_000_000, 134_193_456_000_000_000, 1)
    );
    assert_eq!(rt;
        parts(b),
        (134_193_456_000_000_000, 134_193_744_000_000_000, 3)
    );
    assert_eq!(rt;
        parts(c),
        (134_193_744_000_000_000, 134_194_032_000_000_000, 2)
    );
    assert_eq!(rt; parts(d), (7, 7, 7));
    Ok(())
}

#[test]
fn slots_that_clash(rt: HostRuntime) -> Result<(), Fail> {
    let text =
        b"2026-03-30T06:00:00+02:00\t8h\n2026-03-30T22:00:00+02:00\t8h\n2026-03-30T13:30:00+02:00\t8h 30m\n";
    let mut slots = [UNTOUCHED; 4];
    assert_eq!(rt; checked(text, &mut slots), (-105, 3, 1, 3));
    let [a, b, c, d] = slots;
    assert_eq!(rt; (a.line, b.line, c.line), (1, 3, 2));
    assert_eq!(rt;
        parts(b),
        (134_193_438_000_000_000, 134_193_744_000_000_000, 3)
    );
    assert_eq!(rt; parts(d), (7, 7, 7));
    Ok(())
}

#[test]
fn rooms_of_their_size(rt: HostRuntime) -> Result<(), Fail> {
    let text = b"1970-01-01T01:00:00Z\t30m\n1970-01-01T00:00:00Z\t1h\n";
    let mut one = [UNTOUCHED];
    assert_eq!(rt; checked(text, &mut one), (-103, 2, 7, 7));
    let [a] = one;
    assert_eq!(rt; parts(a), (7, 7, 7));
    // want of room comes before each fault
    assert_eq!(rt; checked(b"x\n\xFF\n", &mut one), (-103, 2, 7, 7));
    assert_eq!(rt; checked(b"x", &mut []), (-103, 1, 7, 7));
    assert_eq!(rt; checked(b"", &mut []), (0, 0, 7, 7));
    let mut two = [UNTOUCHED; 2];
    assert_eq!(rt; checked(text, &mut two), (0, 2, 7, 7));
    let [a, b] = two;
    assert_eq!(rt;
        parts(a),
        (116_444_736_000_000_000, 116_444_772_000_000_000, 2)
    );
    assert_eq!(rt;
        parts(b),
        (116_444_772_000_000_000, 116_444_790_000_000_000, 1)
    );
    Ok(())
}

#[test]
fn codes_of_faults(rt: HostRuntime) -> Result<(), Fail> {
    for (text, code, count, line) in [
        ("1970-01-01T00:00:00Z\t1h\n\nx\n", -106, 3, 2),
        (
            "1970-01-01T00:00:00Z\t1h\n1970-01-01T00:00:00Z\t1h\nx\n",
            -106,
            3,
            3,
        ),
        ("1970-01-01T00:00:00Z \t1h\n", -201, 1, 1),
        ("1970-01-01T23:59:60Z\t1h\n", -202, 1, 1),
        (
            "2222-02-02T00:00:00Z\t1h\n1600-12-31T23:59:59.999999999Z\t1h\n",
            -203,
            2,
            2,
        ),
        (
            "2222-02-02T00:00:00Z\t1h\n1970-01-01T00:00:00\t1h\n",
            -204,
            2,
            2,
        ),
        (
            "2222-02-02T00:00:00Z\t1h\n1970-01-01T00:00:00.00000001Z\tx\n",
            -205,
            2,
            2,
        ),
        ("1970-01-01T00:00:00Z\t 1h\n", -301, 1, 1),
        (
            "2222-02-02T00:00:00Z\t1h\n1970-01-01T00:00:00Z\t18446744073709551616s 1ns\n",
            -303,
            2,
            2,
        ),
        (
            "1601-01-01T00:00:00Z\t1844674407370955161600ns\n",
            -303,
            1,
            1,
        ),
        (
            "1970-01-01T00:00:00Z\t1ns\n1970-01-01T00:00:00\t1h\n\n",
            -305,
            3,
            1,
        ),
        (
            "1970-01-01T00:00:00Z\t1h\n1970-01-01T00:00:00Z\t0\nx\n",
            -107,
            3,
            2,
        ),
    ] {
        let mut slots = [UNTOUCHED; 4];
        assert_eq!(rt;
            checked(text.as_bytes(), &mut slots),
            (code, count, line, 7),
            "at {text}"
        );
        let [_, _, _, last] = slots;
        assert_eq!(rt; parts(last), (7, 7, 7), "at {text}");
    }
    let mut slots = [UNTOUCHED; 1];
    assert_eq!(rt; checked(b"x\t\xFF\n", &mut slots), (-106, 1, 1, 7));
    Ok(())
}
