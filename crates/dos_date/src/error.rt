//! Why a civil date-time has no words.
ghost use Rattle.std.specs.Prelude.{◌≡◌};

use std::marker::Model;
use thiserror::Error;

/// The bound of the DOS years that a civil date-time passes.
#[derive(Clone, Copy, Debug, PartialEq, Eq, Error)]
pub enum DosRangeErrorKind {
    /// The year is before 1980.
    #[error("date and time is before 1980")]
    Negative,
    /// The year is after 2107.
    #[error("date and time is after 2107")]
    Overflow,
}

/// A civil date-time has no DOS words. It prints as its kind.
#[derive(Clone, Copy, Debug, PartialEq, Eq, Error)]
#[error("{kind}")]
pub struct DosRangeError {
    kind: DosRangeErrorKind,
}

impl Model for DosRangeError {
    ghost use Rattle.dos_date.specs.declared.error.DosRangeErrorKind.{DosRangeErrorKind};

    ghost Value = { DosRangeErrorKind };

    ghost view = { λ e. e.kind };

    ghost inverse = { λ k. record { kind = k } };
}

impl DosRangeError {
    /// Which bound was passed.
    pub fn kind(self) -> DosRangeErrorKind
        ensures { result ≡ self }
    {
        self.kind
    }
}

/// The error of that kind.
impl From<DosRangeErrorKind> for DosRangeError {
    ghost from_gives = { λ kind error. error ≡ kind };

    fn from(kind: DosRangeErrorKind) -> DosRangeError {
        DosRangeError { kind }
    }
}
