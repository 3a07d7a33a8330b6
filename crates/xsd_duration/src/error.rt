//! Why a text is read as no interval.

use thiserror::Error;

/// Why a text is read as no interval.
#[derive(Clone, Copy, Debug, PartialEq, Eq, Error)]
pub enum DurationError {
    /// The text isn't a duration: `P`, `PT`, `P1W`, `P1.5D`, `PT1.S`.
    #[error("no duration")]
    Syntax,
    /// The months or the days leave `i32`, or the microseconds, once they are rounded, leave `i64`: `P2147483648D`.
    #[error("duration out of range")]
    Range,
}
