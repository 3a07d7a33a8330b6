//! Why a line has no slot.
use forms::Cause;

/// Why a line has no slot: the first of these that holds, but that `Length` is judged in two places around `Empty`.
#[derive(Clone, Copy, Debug, PartialEq, Eq)]
pub enum Fault {
    /// The line isn't UTF-8, or has no tab.
    Line,
    /// The start isn't a TOML date-time with an offset (`Syntax`, `NoSuchMoment`, `Range`, `Kind`), or has no file time (`Range`, `Precision`).
    Start(Cause),
    /// The length isn't a strict short duration (`Syntax`, `Range`); or, where it isn't 0, it isn't a whole number of ticks (`Precision`), or
    /// ends behind the last tick of 64 bits (`Range`).
    Length(Cause),
    /// The length is 0.
    Empty,
}
