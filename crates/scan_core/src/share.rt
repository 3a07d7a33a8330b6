//! Units of time, and the share of an interval that a count of one has.
ghost use Rattle.std.specs.Prelude.{◌≡◌, ◌+◌, ◌*◌, ◌<◌, ◌≤◌, ◌^◌, ◌↔◌, IsTrue, IsSome, IfSome};
ghost use Rattle.scan_core.specs.Digits.{AreDigits};
ghost use Rattle.scan_core.specs.Count.{count_of};
ghost use Rattle.scan_core.specs.Shares.{has_share, share, fits_type, main_part, signed, is_within};
ghost use Rattle.scan_core.specs.ShareSteps.{magnitude, scale_of};
ghost use Rattle.scan_core.specs.declared.share.Part.TheVariants.{Months, Days, Micros};

use crate::digits::digits_u64;
use crate::rounding::rounded_fraction;

/// A unit of time that a text counts. Its fraction is counted in the next smaller unit.
#[derive(Clone, Copy, Debug, PartialEq, Eq)]
pub enum Unit {
    /// 12 months.
    Year,
    /// A month, and 30 days for its fraction.
    Month,
    /// 7 days.
    Week,
    /// A day, and 24 hours for its fraction.
    Day,
    /// 60 minutes.
    Hour,
    /// 60 seconds.
    Minute,
    /// 1_000_000 microseconds.
    Second,
}

/// What a count adds to an interval.
#[derive(Clone, Copy, Debug, PartialEq, Eq)]
pub struct Share {
    /// Whole months, 12 a year.
    pub months: i32,
    /// Whole days.
    pub days: i32,
    /// Microseconds, 3_600_000_000 an hour.
    pub micros: i64,
}

/// One of the three parts of an interval.
#[derive(Clone, Copy, Debug, PartialEq, Eq)]
pub enum Part {
    Months,
    Days,
    Micros,
}

/// The share of the count of a unit that is written with the digits `whole` before the point and `fraction`
/// behind it, either of any length and perhaps empty: its whole units, and its fraction in the next smaller
/// unit, rounded half away from zero. `1.99` of `Unit::Year` is 24 months, `0.5` of `Unit::Day` is 12 hours
/// in microseconds.
///
/// None exactly where a part leaves its type. That part is months for years and months, days for weeks and days,
/// and microseconds for hours, minutes and seconds; the others always fit.
pub fn count_share(whole: &[u8], fraction: &[u8], negative: bool, unit: Unit) -> Option<Share>
    requires whole { AreDigits whole.now }
    requires fraction { AreDigits fraction.now }
    ensures fits { IsSome result
        ↔ IsTrue (has_share (count_of negative whole.now fraction.now unit)) }
    ensures months { IfSome result (λ given.
        given.months ≡ share Months (count_of negative whole.now fraction.now unit)) }
    ensures days { IfSome result (λ given.
        given.days ≡ share Days (count_of negative whole.now fraction.now unit)) }
    ensures micros { IfSome result (λ given.
        given.micros ≡ share Micros (count_of negative whole.now fraction.now unit)) }
{
    let whole = digits_u64(whole)?;
    let next = rounded_fraction(fraction, unit.scale());
    share_of(negative, whole, next, unit)
}

/// The share of so many whole units and so many of the next smaller one, or None exactly where the main part leaves its
/// type. A magnitude beyond 64 bits is cut to their end, which every type leaves too. Few texts need it, so it is no part of
/// the loops that do.
#[inline(never)]
pub(crate) fn share_of(negative: bool, whole: u64, next: u64, unit: Unit) -> Option<Share>
    requires { next ≤ scale_of unit }
    ensures fits { IsSome result
        ↔ IsTrue (fits_type (main_part unit)
        (signed negative (magnitude (main_part unit) unit whole next))) }
    ensures months { IfSome result
        (λ given. given.months ≡ signed negative (magnitude Months unit whole next)) }
    ensures days { IfSome result
        (λ given. given.days ≡ signed negative (magnitude Days unit whole next)) }
    ensures micros { IfSome result
        (λ given. given.micros ≡ signed negative (magnitude Micros unit whole next)) }
{
    let mut share = Share {
        months: 0,
        days: 0,
        micros: 0,
    };
    match unit {
        Unit::Year => share.months = signed_i32(negative, whole, 12, next)?,
        Unit::Month => {
            share.months = signed_i32(negative, whole, 1, 0)?;
            share.days = turned(negative, next) as i32;
        }
        Unit::Week => share.days = signed_i32(negative, whole, 7, next)?,
        Unit::Day => {
            share.days = signed_i32(negative, whole, 1, 0)?;
            share.micros = turned(negative, next * 3_600_000_000);
        }
        Unit::Hour => {
            share.micros = signed_i64(negative, whole, 3_600_000_000, next * 60_000_000)?;
        }
        Unit::Minute => {
            share.micros = signed_i64(negative, whole, 60_000_000, next * 1_000_000)?;
        }
        Unit::Second => share.micros = signed_i64(negative, whole, 1_000_000, next)?,
    }
    Some(share)
}

/// So many units of any kind are few: no part of their share leaves its type.
pub(crate) const FEW: u64 = 100_000_000;

/// The share of few whole units and so many of the next smaller one, which nothing tests.
#[inline(always)]
pub(crate) fn share_of_few(negative: bool, whole: u64, next: u64, unit: Unit) -> Share
    requires few { whole < 100_000_000 }
    requires next { next ≤ scale_of unit }
    ensures months { result.months ≡ signed negative (magnitude Months unit whole next) }
    ensures days { result.days ≡ signed negative (magnitude Days unit whole next) }
    ensures micros { result.micros ≡ signed negative (magnitude Micros unit whole next) }
{
    let mut share = Share {
        months: 0,
        days: 0,
        micros: 0,
    };
    match unit {
        Unit::Year => share.months = turned(negative, whole * 12 + next) as i32,
        Unit::Month => {
            share.months = turned(negative, whole) as i32;
            share.days = turned(negative, next) as i32;
        }
        Unit::Week => share.days = turned(negative, whole * 7 + next) as i32,
        Unit::Day => {
            share.days = turned(negative, whole) as i32;
            share.micros = turned(negative, next * 3_600_000_000);
        }
        Unit::Hour => share.micros = turned(negative, whole * 3_600_000_000 + next * 60_000_000),
        Unit::Minute => share.micros = turned(negative, whole * 60_000_000 + next * 1_000_000),
        Unit::Second => share.micros = turned(negative, whole * 1_000_000 + next),
    }
    share
}

impl Unit {
    /// How many of the next smaller unit make one.
    #[inline(always)]
    pub(crate) fn scale(self) -> u64
        ensures { result ≡ scale_of self }
    {
        match self {
            Unit::Year => 12,
            Unit::Month => 30,
            Unit::Week => 7,
            Unit::Day => 24,
            Unit::Hour | Unit::Minute => 60,
            Unit::Second => 1_000_000,
        }
    }
}

/// A magnitude with its sign.
#[inline(always)]
fn turned(negative: bool, magnitude: u64) -> i64
    requires { magnitude < 2 ^ 63 }
    ensures { result ≡ signed negative magnitude }
{
    let value = magnitude as i64;
    if negative { -value } else { value }
}

/// So many units of this scale and so many of the smaller one, with their sign, or None exactly where they leave `i32`.
#[inline(always)]
fn signed_i32(negative: bool, whole: u64, scale: u64, next: u64) -> Option<i32>
    requires scale { scale < 2 ^ 32 }
    requires next { next < 2 ^ 32 }
    ensures fits { IsSome result ↔ IsTrue (is_within 32 (signed negative (whole * scale + next))) }
    ensures value { IfSome result (λ value. value ≡ signed negative (whole * scale + next)) }
{
    i32::try_from(signed_i64(negative, whole, scale, next)?).ok()
}

/// So many units of this scale and so many of the smaller one, with their sign, or None exactly where they leave `i64`.
#[inline(always)]
fn signed_i64(negative: bool, whole: u64, scale: u64, next: u64) -> Option<i64>
    requires scale { scale < 2 ^ 32 }
    requires next { next < 2 ^ 32 }
    ensures fits { IsSome result ↔ IsTrue (is_within 64 (signed negative (whole * scale + next))) }
    ensures value { IfSome result (λ value. value ≡ signed negative (whole * scale + next)) }
{
    let magnitude = whole.saturating_mul(scale).saturating_add(next);
    if magnitude < 9_223_372_036_854_775_808 {
        Some(turned(negative, magnitude))
    } else if negative && magnitude == 9_223_372_036_854_775_808 {
        Some(i64::MIN)
    } else {
        None
    }
}
