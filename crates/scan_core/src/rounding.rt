//! A fraction in the next smaller unit, rounded.
ghost use Rattle.std.specs.Prelude.{◌≡◌, ◌+◌, ◌*◌, ◌^◌, ◌<◌, ◌≤◌};
ghost use Rattle.std.specs.Char.{digit_value};
ghost use Rattle.scan_core.specs.Digits.{AreDigits};
ghost use Rattle.scan_core.specs.Shares.{rounded};

use crate::looked::Looked;
use crate::looked_digits::looked_fraction;
use crate::steps::Steps;
use std::marker::Brand;
use std::sync::ledger::{Blank, Ledger};

/// The fraction of a unit that the digits behind the point write, in the next smaller unit, of which `scale` make
/// one, rounded half away from zero: `25` of 60 is 15.
pub(crate) fn rounded_fraction(fraction: &[u8], scale: u64) -> u64
    requires digits { AreDigits fraction.now }
    requires scale { scale ≤ 1_000_000 }
    ensures { result ≡ rounded scale fraction.now }
{
    rounded_alone::<Brand>(fraction, scale, Blank::new(1))
}

/// The same with a counter of its own.
fn rounded_alone<L: Ledger>(fraction: &[u8], scale: u64, blank: Blank) -> u64
    requires name { blank.name ≡ L.name }
    requires parts { blank.parts ≡ L.parts }
    requires some { 0 < L.parts }
    requires digits { AreDigits fraction.now }
    requires scale { scale ≤ 1_000_000 }
    ensures { result ≡ rounded scale fraction.now }
{
    let text = Looked::of_bytes(fraction);
    looked_fraction(&text, 0, text.len(), scale, &mut Steps::<L>::new(blank))
}

/// A digit in the next smaller unit, before the quotient by ten, with the carry of the digits behind it.
#[inline(always)]
pub(crate) fn weighed_digit(digit: u8, scale: u64, carry: u64) -> u64
    requires digit { digit_value digit < 10 }
    requires scale { scale ≤ 1_000_000 }
    requires carry { carry ≤ scale }
    ensures value { result ≡ digit_value digit * scale + carry }
    ensures small { result < 2 ^ 63 }
{
    u64::from(digit - b'0') * scale + carry
}
