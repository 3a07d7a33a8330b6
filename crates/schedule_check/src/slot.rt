//! Slots.

/// The time that a line takes: of `1970-01-01T00:00:00Z`, a tab and `1h` in the first line that from 116_444_736_000_000_000 to
/// 116_444_772_000_000_000.
#[repr(C)]
#[derive(Clone, Copy, Debug, PartialEq, Eq)]
pub struct Slot {
    /// When it starts, in ticks of 100 nanoseconds since 1601-01-01 00:00:00 UTC.
    pub start: u64,
    /// When it ends, in the same ticks and later than the start. That tick is no more part of it.
    pub end: u64,
    /// The number of its line, from 1 on.
    pub line: u64,
}
