//! Dates of HTTP and of mail: `Sun, 06 Nov 1994 08:49:37 GMT` (RFC 9110, section 5.6.7) and `Sun, 6 Nov 1994 08:49 +0000`
//! (RFC 5322, section 3.3).
//!
//! A text is read as its fields, whether or not there is such a moment; `DateTime::seconds` judges them. No call takes memory.
#![tactic(auto)]

mod date_time;
mod error;
mod fields;
pub mod http_date;
pub mod laws;
pub mod mail_date;
mod names;
mod written;

pub use date_time::DateTime;
pub use error::DateError;
