//! The errors of file times.
ghost use Rattle.std.specs.Prelude.{◌≡◌};

use std::marker::Model;
use thiserror::Error;

/// The bound of the file times that a moment passes.
#[derive(Clone, Copy, Debug, PartialEq, Eq, Error)]
pub enum FileTimeRangeErrorKind {
    /// The moment is before the first tick.
    #[error("file time is before `1601-01-01 00:00:00 UTC`")]
    Negative,
    /// The moment is after the last tick.
    #[error("file time is after `+60056-05-28 05:36:10.955161500 UTC`")]
    Overflow,
}

/// A moment has no file time. It prints as its kind.
#[derive(Clone, Copy, Debug, PartialEq, Eq, Error)]
#[error("{kind}")]
pub struct FileTimeRangeError {
    kind: FileTimeRangeErrorKind,
}

impl Model for FileTimeRangeError {
    ghost use Rattle.nt_time.specs.declared.error.FileTimeRangeErrorKind.{FileTimeRangeErrorKind};

    ghost Value = { FileTimeRangeErrorKind };

    ghost view = { λ e. e.kind };

    ghost inverse = { λ k. record { kind = k } };
}

impl FileTimeRangeError {
    /// Which bound was passed.
    pub fn kind(self) -> FileTimeRangeErrorKind
        ensures { result ≡ self }
    {
        self.kind
    }
}

/// The error of that kind.
impl From<FileTimeRangeErrorKind> for FileTimeRangeError {
    ghost from_gives = { λ kind error. error ≡ kind };

    fn from(kind: FileTimeRangeErrorKind) -> FileTimeRangeError {
        FileTimeRangeError { kind }
    }
}

/// Why a text is no file time.
#[derive(Clone, Copy, Debug, PartialEq, Eq, Error)]
pub enum ParseFileTimeCause {
    /// The text is empty.
    #[error("cannot parse integer from empty string")]
    Empty,
    /// The text is not empty and is not decimal digits, with a `+` before them or without.
    #[error("invalid digit found in string")]
    InvalidDigit,
    /// The digits write a number above `u64::MAX`.
    #[error("file time is after `+60056-05-28 05:36:10.955161500 UTC`")]
    Overflow,
}

/// A text is no file time. It prints as its cause.
#[derive(Clone, Copy, Debug, PartialEq, Eq, Error)]
#[error("{cause}")]
pub struct ParseFileTimeError {
    cause: ParseFileTimeCause,
}

impl Model for ParseFileTimeError {
    ghost use Rattle.nt_time.specs.declared.error.ParseFileTimeCause.{ParseFileTimeCause};

    ghost Value = { ParseFileTimeCause };

    ghost view = { λ e. e.cause };

    ghost inverse = { λ k. record { cause = k } };
}

impl ParseFileTimeError {
    /// The error of that cause.
    pub(crate) fn new(cause: ParseFileTimeCause) -> ParseFileTimeError
        ensures { result ≡ cause }
    {
        ParseFileTimeError { cause }
    }

    /// What is wrong with the text.
    pub fn cause(&self) -> ParseFileTimeCause
        ensures { result ≡ self.now }
    {
        self.cause
    }
}

/// A file time is after the last civil date-time of its target.
#[derive(Clone, Copy, Debug, PartialEq, Eq, Error)]
#[error("file time is after the civil years")]
pub struct OutOfCivil;
