//! What no row of a command can say: how much of an input that is too long is taken, and instants between two microseconds.
use forms::MemSource;
use pg_interval_2::Interval;
use recurrence::at;
use std::test::Fail;
use whole_input::{Taken, take_all};

/// Ten bytes.
const INPUT: &[u8] = b"0123456789";

/// Of an input beyond the limit one byte more than the limit is taken, however the source cuts it.
#[test]
fn inputs_are_taken_to_one_byte_past_the_limit(rt: HostRuntime) -> Result<(), Fail> {
    let alloc = rt.alloc();
    for (limit, cut, end, held) in [
        (0_u8, 100_u8, Taken::TooLong, &b"0"[..]),
        (8, 100, Taken::TooLong, b"012345678"),
        (8, 1, Taken::TooLong, b"012345678"),
        (8, 4, Taken::TooLong, b"012345678"),
        (9, 100, Taken::TooLong, INPUT),
        (9, 4, Taken::TooLong, INPUT),
        (10, 100, Taken::All, INPUT),
        (10, 1, Taken::All, INPUT),
    ] {
        let limit = usize::from(limit);
        let mut source = MemSource::new(alloc, INPUT, usize::from(cut).max(1), &[])?;
        let mut taken = Vec::with_capacity(alloc, limit + 1)?;
        let ended = take_all(&mut source, &mut taken, limit);
        assert_eq!(rt; ended, end, "at {limit} and {cut}");
        assert_eq!(rt; taken.as_slice(), held, "at {limit} and {cut}");
        assert_eq!(rt;
            source.left(),
            &INPUT[held.len().min(10)..],
            "at {limit} and {cut}"
        );
    }
    Ok(())
}

/// The first instant is that of -9999-01-01T00:00:00Z, 4,371,587 days before 1970, and the last one a nanosecond before the year 10000,
/// 2,932,897 days after: a microsecond more or less leads to each of them, and a nanosecond beyond it there is none.
#[test]
fn instants_end_at_a_nanosecond(rt: HostRuntime) -> Result<(), Fail> {
    for (start, microseconds, instant) in [
        (
            -377_705_116_799_999_999_000_i128,
            -1_i8,
            Some(-377_705_116_800_000_000_000_i128),
        ),
        (-377_705_116_799_999_999_001, -1, None),
        (
            253_402_300_799_999_998_999,
            1,
            Some(253_402_300_799_999_999_999),
        ),
        (253_402_300_799_999_999_000, 1, None),
    ] {
        let step = Interval {
            months: 0,
            days: 0,
            microseconds: i64::from(microseconds),
        };
        assert_eq!(rt; at(start, step, 1), instant, "from {start}");
    }
    Ok(())
}
