//! Why a text is no moment.

use thiserror::Error;

/// Why a text is not read as a moment.
#[derive(Clone, Copy, Debug, PartialEq, Eq, Error)]
pub enum DateError {
    /// The text isn't in the grammar, or a field is out of its own range: a day 32, a minute 60.
    #[error("no date")]
    Syntax,
    /// The fields name no moment: 31 November, the name of another day, 24:00, a second 60, an offset of a day.
    #[error("no such moment")]
    NoSuchMoment,
    /// There is such a moment, and its year is before the first one.
    #[error("year out of range")]
    Range,
}
