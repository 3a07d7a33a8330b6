//! Instants, file times, lengths and recurrences from C.
use super::{interval, is_left};
use crate::duration::{timeforms_duration_from_text, timeforms_duration_to_text};
use crate::file_time::{
    timeforms_file_time_from_nanoseconds, timeforms_file_time_from_unix_time,
    timeforms_file_time_to_nanoseconds, timeforms_file_time_to_unix_time,
};
use crate::instants::{
    timeforms_instant_from_text, timeforms_instant_to_text, timeforms_recurrence_at,
};
use std::test::Fail;

#[test]
fn file_times_and_unix_times(rt: HostRuntime) -> Result<(), Fail> {
    for (ticks, whole, beyond) in [
        (0, -11_644_473_600, 0),
        (116_444_735_999_999_999, -1, 999_999_900),
        (116_444_736_000_000_000, 0, 0),
        (u64::MAX, 1_833_029_933_770, 955_161_500),
    ] {
        let (mut seconds, mut nanoseconds, mut back) = (7, 7, 7);
        let answer = timeforms_file_time_to_unix_time(ticks, &mut seconds, &mut nanoseconds);
        assert_eq!(rt; (answer, seconds, nanoseconds), (0, whole, beyond));
        assert_eq!(rt;
            timeforms_file_time_from_unix_time(whole, beyond + 99, &mut back),
            0
        );
        assert_eq!(rt; back, ticks);
    }
    let mut ticks = 7;
    let before = timeforms_file_time_from_unix_time(-11_644_473_601, u32::MAX, &mut ticks);
    let after = timeforms_file_time_from_unix_time(1_833_029_933_770, 955_161_600, &mut ticks);
    assert_eq!(rt; (before, after, ticks), (-3, -3, 7));
    Ok(())
}

#[test]
fn file_times_and_nanoseconds(rt: HostRuntime) -> Result<(), Fail> {
    for (ticks, answer, nanos) in [
        (24_211_015_631_452_241, -3, 7),
        (24_211_015_631_452_242, 0, -9_223_372_036_854_775_800),
        (116_444_736_000_000_001, 0, 100),
        (208_678_456_368_547_758, 0, 9_223_372_036_854_775_800),
        (208_678_456_368_547_759, -3, 7),
    ] {
        let mut found = 7;
        assert_eq!(rt;
            timeforms_file_time_to_nanoseconds(ticks, &mut found),
            answer
        );
        assert_eq!(rt; found, nanos);
    }
    for (nanos, ticks) in [
        (i64::MIN, 24_211_015_631_452_241),
        (-1, 116_444_735_999_999_999),
        (199, 116_444_736_000_000_001),
        (i64::MAX, 208_678_456_368_547_758),
    ] {
        let mut found = 7;
        assert_eq!(rt; timeforms_file_time_from_nanoseconds(nanos, &mut found), 0);
        assert_eq!(rt; found, ticks);
    }
    Ok(())
}

#[test]
fn instants_of_texts(rt: HostRuntime) -> Result<(), Fail> {
    for (form, text, answer, whole, beyond) in [
        (0, "116444735999999999", 0, -1, 999_999_900),
        (1, "2024-01-31T12:00:00Z", 0, 1_706_702_400, 0),
        (4, "2015-06-26", -4, 7, 7),
        (6, "P1D", -4, 7, 7),
        (1, "2015-09-31T00:00:00Z", -2, 7, 7),
        (1, "", -1, 7, 7),
        (1000, "", -101, 7, 7),
    ] {
        let (mut seconds, mut nanoseconds) = (7, 7);
        let found = timeforms_instant_from_text(
            form,
            text.as_bytes(),
            &mut seconds,
            &mut nanoseconds,
        );
        assert_eq!(rt;
            (found, seconds, nanoseconds),
            (answer, whole, beyond),
            "at {text}"
        );
    }
    Ok(())
}

#[test]
fn texts_of_instants(rt: HostRuntime) -> Result<(), Fail> {
    for (form, seconds, nanoseconds, answer, left) in [
        (0, -1, 999_999_900, 18, "116444735999999999"),
        (0, 0, 1, -5, ""),
        (0, 0, 1_000_000_000, -3, ""),
        (1, i64::MAX, 0, -3, ""),
        (6, 0, 0, -4, ""),
        (1000, 0, 0, -101, ""),
    ] {
        let mut room = [b'#'; 32];
        let found = timeforms_instant_to_text(form, seconds, nanoseconds, &mut room);
        assert_eq!(rt; found, answer);
        assert!(rt; is_left(left, &room), "at {left}");
    }
    Ok(())
}

#[test]
fn instants_of_a_recurrence(rt: HostRuntime) -> Result<(), Fail> {
    // from 2024-01-31: February 29th, March 31st, and February 28th of the next year
    for (steps, answer, whole) in [
        (0, 0, 1_706_702_400),
        (1, 0, 1_709_208_000),
        (2, 0, 1_711_886_400),
        (13, 0, 1_740_744_000),
        (u32::MAX, -3, 7),
    ] {
        let (mut seconds, mut nanoseconds) = (7, 7);
        let found = timeforms_recurrence_at(
            1_706_702_400,
            0,
            interval(1, 0, 0),
            steps,
            &mut seconds,
            &mut nanoseconds,
        );
        assert_eq!(rt; (found, seconds), (answer, whole));
    }
    Ok(())
}

#[test]
fn durations_of_texts(rt: HostRuntime) -> Result<(), Fail> {
    for (text, answer, whole, beyond) in [
        ("1h 20m 30s", 0, 4830, 0),
        ("5001ms", 0, 5, 1_000_000),
        (
            "18446744073709551615s 999999999ns",
            0,
            u64::MAX,
            999_999_999,
        ),
        ("18446744073709551615s 1000ms", -3, 7, 7),
        ("1 hour", -1, 7, 7),
    ] {
        let (mut seconds, mut nanoseconds) = (7, 7);
        let found = timeforms_duration_from_text(text.as_bytes(), &mut seconds, &mut nanoseconds);
        assert_eq!(rt;
            (found, seconds, nanoseconds),
            (answer, whole, beyond),
            "at {text}"
        );
    }
    let (mut seconds, mut nanoseconds) = (7, 7);
    assert_eq!(rt;
        timeforms_duration_from_text(b"\xFF", &mut seconds, &mut nanoseconds),
        -102
    );
    assert_eq!(rt; (seconds, nanoseconds), (7, 7));
    Ok(())
}

#[test]
fn texts_of_durations(rt: HostRuntime) -> Result<(), Fail> {
    for (seconds, nanoseconds, answer, left) in [
        (4830, 0, 10, "1h 20m 30s"),
        (0, 999_999_999, 17, "999ms 999us 999ns"),
        (0, 1_000_000_000, -3, ""),
        (2_592_000, 0, -6, ""),
    ] {
        let mut room = [b'#'; 32];
        let found = timeforms_duration_to_text(seconds, nanoseconds, &mut room);
        assert_eq!(rt; found, answer);
        assert!(rt; is_left(left, &room), "at {left}");
    }
    let mut room = [b'#'; 9];
    assert_eq!(rt; timeforms_duration_to_text(4830, 0, &mut room), -103);
    assert!(rt; is_left("", &room));
    Ok(())
}
