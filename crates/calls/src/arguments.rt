//! Arguments as a table has them: words with a space between, and a text behind them.
use std::time::Duration;

/// So many numbers, with a space between.
pub fn numbers<const N: usize>(text: &str) -> Option<[i128; N]> {
    let mut out = [0; N];
    let mut words = text.split(' ');
    for slot in 0..N {
        out[slot] = words.next()?.parse::<i128>().ok()?;
    }
    if words.next().is_none() {
        Some(out)
    } else {
        None
    }
}

/// A word, and the text behind the space that follows it.
pub fn word_and_text(text: &str) -> Option<(&str, &str)> {
    text.split_once(' ')
}

/// The length of seconds and nanoseconds, which are fewer than a second.
pub fn length_of(secs: i128, nanos: i128) -> Option<Duration> {
    let nanos = u32::try_from(nanos).ok()?;
    if nanos < 1_000_000_000 {
        Some(Duration::new(u64::try_from(secs).ok()?, nanos))
    } else {
        None
    }
}
