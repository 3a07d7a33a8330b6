//! Why a text gives no length.
use thiserror::Error;

/// Why a text gives no duration of a type.
#[derive(Clone, Copy, Debug, PartialEq, Eq, Error)]
pub enum FancyError {
    /// The sum of the text's items has more than `u64::MAX` whole seconds.
    #[error("duration is too big")]
    TooBig,
    /// The type doesn't hold the seconds and nanoseconds that the text gives.
    #[error("duration is not held by this type")]
    NotHeld,
}

/// Why a text isn't read as a strict one.
#[derive(Clone, Copy, Debug, PartialEq, Eq, Error)]
pub enum StrictError {
    /// The text isn't a strict one.
    #[error("text is not counts and their units alone")]
    NotStrict,
    /// The sum of the text's counts has more than `u64::MAX` whole seconds.
    #[error("duration is too big")]
    TooBig,
}
