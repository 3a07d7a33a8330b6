//! Digits, exact decimals, shares of time units, exact sums and short texts: what the readers and writers
//! of this repository have in common.
//!
//! A count such as `1.99 years` has a share: 23.88 months, rounded half away from zero to 24. The rounding is
//! exact for any number of digits. No float and no memory is used anywhere.
#![tactic(auto)]

mod blank;
mod digits;
mod front;
pub mod laws;
mod looked;
mod looked_digits;
mod rounding;
mod runs;
mod scan;
mod scanned;
mod share;
mod steps;
mod text;
mod totals;

pub use blank::is_blank;
pub use digits::{digits_u32, digits_u64, n_digits_in};
pub use front::split_digits;
pub use looked::Looked;
pub use looked_digits::looked_share;
pub use runs::{Run, Word};
pub use scan::Scan;
pub use scanned::add_scanned;
pub use share::{Part, Share, Unit, count_share};
pub use steps::Steps;
pub use text::{Short, push_num, push_padded, push_text, push_trimmed, push_two};
pub use totals::Totals;
