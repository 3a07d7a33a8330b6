//! Intervals from C: texts and columns of them, their sums and their order.
use super::{interval, is_left};
use crate::arithmetic::{
    timeforms_interval_add, timeforms_interval_compare, timeforms_interval_from_seconds,
    timeforms_interval_negate, timeforms_interval_subtract,
};
use crate::interval::{timeforms_interval_from_text, timeforms_interval_to_text};
use crate::interval_cells::timeforms_intervals_from_column;
use std::test::Fail;

#[test]
fn intervals_of_texts(rt: HostRuntime) -> Result<(), Fail> {
    for (form, text, answer, months, days, microseconds) in [
        (6, "P1Y2M-3DT4H5M6.000007S", 0, 14, -3, 14_706_000_007),
        (
            7,
            "1 year 2 mons -3 days 04:05:06.000007",
            0,
            14,
            -3,
            14_706_000_007,
        ),
        (8, "@ 1 year 2 mons 3 days ago", 0, -14, -3, 0),
        (9, "1-2 -3 4:00", 0, 14, -3, 14_400_000_000),
        (10, "P1W", 0, 0, 7, 0),
        (6, "P", -1, 1, 2, 3),
        (6, "P178956971Y", -3, 1, 2, 3),
        (5, "1d", -101, 1, 2, 3),
        (1000, "P1D", -101, 1, 2, 3),
    ] {
        let mut read = interval(1, 2, 3);
        assert_eq!(rt;
            timeforms_interval_from_text(form, text.as_bytes(), &mut read),
            answer
        );
        assert_eq!(rt; read.months, months, "at {text}");
        assert_eq!(rt; read.days, days, "at {text}");
        assert_eq!(rt; read.microseconds, microseconds, "at {text}");
    }
    let mut read = interval(1, 2, 3);
    assert_eq!(rt; timeforms_interval_from_text(6, b"\xFF", &mut read), -102);
    assert_eq!(rt; read.months, 1);
    Ok(())
}

#[test]
fn texts_of_intervals(rt: HostRuntime) -> Result<(), Fail> {
    let written = interval(14, -3, 14_706_000_007);
    for (form, answer, left) in [
        (6, 22, "P1Y2M-3DT4H5M6.000007S"),
        (7, 37, "1 year 2 mons -3 days 04:05:06.000007"),
        (
            8,
            52,
            "@ 1 year 2 mons -3 days 4 hours 5 mins 6.000007 secs",
        ),
        (9, 23, "+1-2 -3 +4:05:06.000007"),
        (10, 22, "P1Y2M-3DT4H5M6.000007S"),
        (5, -101, ""),
        (1000, -101, ""),
    ] {
        let mut room = [b'#'; 64];
        assert_eq!(rt;
            timeforms_interval_to_text(form, &written, &mut room),
            answer,
            "at {left}"
        );
        assert!(rt; is_left(left, &room), "at {left}");
    }
    let mut room = [b'#'; 21];
    assert_eq!(rt; timeforms_interval_to_text(6, &written, &mut room), -103);
    assert!(rt; is_left("", &room));
    Ok(())
}

#[test]
fn intervals_of_columns(rt: HostRuntime) -> Result<(), Fail> {
    let (mut months, mut days, mut micros) = ([7; 4], [7; 4], [7; 5]);
    let (mut codes, mut done) = ([7; 4], 77);
    let status = timeforms_intervals_from_column(
        6,
        b"P1Y2M-3DT4HP1",
        &[0, 11, 13, 12, 12],
        &mut months,
        &mut days,
        &mut micros,
        &mut codes,
        &mut done,
    );
    assert_eq!(rt; (status, done), (0, 4));
    assert_eq!(rt; months, [14, 0, 0, 0]);
    assert_eq!(rt; days, [-3, 0, 0, 0]);
    assert_eq!(rt; micros, [14_400_000_000, 0, 0, 0, 7]);
    assert_eq!(rt; codes, [0, -1, -104, -1]);
    Ok(())
}

#[test]
fn sums_and_differences(rt: HostRuntime) -> Result<(), Fail> {
    let mut found = interval(7, 8, 9);
    let most = interval(i32::MAX, i32::MAX, i64::MAX);
    let least = interval(i32::MIN, i32::MIN, i64::MIN);
    for more in [interval(1, 0, 0), interval(0, 1, 0), interval(0, 0, 1)] {
        assert_eq!(rt; timeforms_interval_add(most, more, &mut found), -3);
        assert_eq!(rt; timeforms_interval_subtract(least, more, &mut found), -3);
    }
    assert_eq!(rt; timeforms_interval_negate(least, &mut found), -3);
    assert_eq!(rt; (found.months, found.days, found.microseconds), (7, 8, 9));
    let answer = timeforms_interval_add(interval(1, -2, 3), interval(4, 5, -6), &mut found);
    assert_eq!(rt;
        (answer, found.months, found.days, found.microseconds),
        (0, 5, 3, -3)
    );
    let answer = timeforms_interval_subtract(interval(1, -2, 3), interval(4, 5, -6), &mut found);
    assert_eq!(rt;
        (answer, found.months, found.days, found.microseconds),
        (0, -3, -7, 9)
    );
    let answer = timeforms_interval_negate(interval(1, -2, 3), &mut found);
    assert_eq!(rt;
        (answer, found.months, found.days, found.microseconds),
        (0, -1, 2, -3)
    );
    Ok(())
}

#[test]
fn intervals_in_order(rt: HostRuntime) -> Result<(), Fail> {
    let (hours, days) = (interval(0, 0, 2_592_000_000_000), interval(0, 30, 0));
    let (month, more) = (interval(1, 0, 0), interval(0, 0, 2_592_000_000_001));
    assert_eq!(rt; timeforms_interval_compare(hours, days), -1);
    assert_eq!(rt; timeforms_interval_compare(days, month), -1);
    assert_eq!(rt; timeforms_interval_compare(month, month), 0);
    assert_eq!(rt; timeforms_interval_compare(more, month), 1);
    Ok(())
}

#[test]
fn intervals_of_seconds(rt: HostRuntime) -> Result<(), Fail> {
    for (seconds, nanoseconds, answer, days, microseconds) in [
        (129_600, 1_999, 0, 1, 43_200_000_001),
        (-129_600, 0, 0, -1, -43_200_000_000),
        (-1, 500_000_000, 0, 0, -500_000),
        (-1, 999_999_999, 0, 0, 0),
        (0, 1_000_000_000, -3, 8, 9),
        (i64::MAX, 0, -3, 8, 9),
        (i64::MIN, 0, -3, 8, 9),
    ] {
        let mut found = interval(0, 8, 9);
        let said = timeforms_interval_from_seconds(seconds, nanoseconds, &mut found);
        assert_eq!(rt;
            (said, found.days, found.microseconds),
            (answer, days, microseconds)
        );
    }
    Ok(())
}
