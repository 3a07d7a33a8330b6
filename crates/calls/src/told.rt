//! Answers as text.
use std::alloc::{AllocError, Global};
use std::fmt::{Debug, Display};

/// What a call answers as a table has it, or None where no call has the name or the arguments don't fit it.
pub type Answer = Option<Result<String, AllocError>>;

/// The value as `Debug` prints it.
pub fn told<T: Debug>(alloc: Global, value: &T) -> Answer {
    Some(format!(in alloc; "{value:?}"))
}

/// The value as it prints.
pub fn printed<T: Display>(alloc: Global, value: &T) -> Answer {
    Some(format!(in alloc; "{value}"))
}

/// The text itself.
pub fn text(alloc: Global, text: &str) -> Answer {
    Some(String::from_str(alloc, text))
}
