//! Durations of XML Schema (W3C XML Schema 1.1 part 2, section 3.3.6), read as intervals and written of them: `P1Y2M3DT4H5M6.5S`
//! and `-P1D`.
//!
//! Seconds with a fraction of any length are rounded once to microseconds, half away from zero. No call takes memory.
#![tactic(auto)]

mod error;
mod front;
pub mod laws;
mod reading;
mod sums;
mod writing;

pub use error::DurationError;
pub use reading::read;
pub use writing::{has_one_sign, push_text};
