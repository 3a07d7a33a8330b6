//! Sums of shares, which are judged at the end.
ghost use Rattle.std.specs.Prelude.{◌≡◌, ◌+◌, ◌+ℤ◌, ◌<◌, ◌≤◌, ◌^◌, ◌↔◌, pos, false, IsTrue, IsSome, IfSome, IfNone, IsNone};
ghost use Rattle.scan_core.specs.inside.Bounds.{IsBounded};
ghost use Rattle.scan_core.specs.Shares.{fits_type, main_part, signed};
ghost use Rattle.scan_core.specs.ShareSteps.{magnitude, scale_of};
ghost use Rattle.scan_core.specs.Sums.{Added, first_sum_out};
ghost use Rattle.scan_core.specs.declared.share.Part.TheVariants.{Months, Days, Micros};

use crate::share::{FEW, Part, Share, Unit, share_of, share_of_few};
use std::marker::Model;

/// The exact sums of the months, days and microseconds of shares. A sum may leave its part's type on the way and
/// come back: only the final sums are tested.
#[derive(Clone, Copy, Debug)]
pub struct Totals {
    months: i128,
    days: i128,
    micros: i128,
    adds: u64,
}

impl Model for Totals {
    ghost Value = { Added };

    ghost view = { λ sums. record {
      months = sums.months;
      days = sums.days;
      micros = sums.micros;
      adds = sums.adds;
    } };

    ghost inverse = { λ sums. record {
      months = sums.months;
      days = sums.days;
      micros = sums.micros;
      adds = sums.adds;
    } };

    ghost invariant = { λ sums. IsBounded sums.adds sums.months
        × IsBounded sums.adds sums.days
        × IsBounded sums.adds sums.micros };
}

impl Totals {
    /// Three sums of 0, and no adds.
    pub fn new() -> Totals
        ensures { result ≡ record { months = pos 0; days = pos 0; micros = pos 0; adds = 0 } }
    {
        Totals {
            months: 0,
            days: 0,
            micros: 0,
            adds: 0,
        }
    }

    /// Adds the three parts of the share, exactly. There are fewer than 2^63 adds before.
    #[inline(always)]
    pub fn add(&mut self, share: Share)
        requires { self.old.adds < 2 ^ 63 }
        ensures months { self.new.months ≡ self.old.months +ℤ share.months }
        ensures days { self.new.days ≡ self.old.days +ℤ share.days }
        ensures micros { self.new.micros ≡ self.old.micros +ℤ share.micros }
        ensures adds { self.new.adds ≡ self.old.adds + 1 }
    {
        self.months += i128::from(share.months);
        self.days += i128::from(share.days);
        self.micros += i128::from(share.micros);
        self.adds += 1;
    }

    /// Adds the share of so many whole units and so many of the next smaller one, and answers whether it has one; without
    /// one nothing changes. Few units of each kind have a call of their own, so that only the sums of its parts are touched.
    #[inline(always)]
    pub(crate) fn add_count(&mut self, negative: bool, whole: u64, next: u64, unit: Unit) -> bool
        requires room { self.old.adds < 2 ^ 63 }
        requires next { next ≤ scale_of unit }
        ensures fits { IsTrue result
            ↔ IsTrue (fits_type (main_part unit)
            (signed negative (magnitude (main_part unit) unit whole next))) }
        ensures months { IsTrue result →
            self.new.months ≡ self.old.months
            +ℤ signed negative (magnitude Months unit whole next) }
        ensures days { IsTrue result →
            self.new.days ≡ self.old.days +ℤ signed negative (magnitude Days unit whole next) }
        ensures micros { IsTrue result →
            self.new.micros ≡ self.old.micros
            +ℤ signed negative (magnitude Micros unit whole next) }
        ensures adds { IsTrue result → self.new.adds ≡ self.old.adds + 1 }
        ensures kept { result ≡ false → self.new ≡ self.old }
    {
        if whole >= FEW {
            return self.add_many(negative, whole, next, unit);
        }
        match unit {
            Unit::Year => self.add(share_of_few(negative, whole, next, Unit::Year)),
            Unit::Month => self.add(share_of_few(negative, whole, next, Unit::Month)),
            Unit::Week => self.add(share_of_few(negative, whole, next, Unit::Week)),
            Unit::Day => self.add(share_of_few(negative, whole, next, Unit::Day)),
            Unit::Hour => self.add(share_of_few(negative, whole, next, Unit::Hour)),
            Unit::Minute => self.add(share_of_few(negative, whole, next, Unit::Minute)),
            Unit::Second => self.add(share_of_few(negative, whole, next, Unit::Second)),
        }
        true
    }

    /// The same of any number of units.
    // out of line, so that no count of few units sets up a place for the share that this one answers
    #[inline(never)]
    fn add_many(&mut self, negative: bool, whole: u64, next: u64, unit: Unit) -> bool
        requires room { self.old.adds < 2 ^ 63 }
        requires next { next ≤ scale_of unit }
        ensures fits { IsTrue result
            ↔ IsTrue (fits_type (main_part unit)
            (signed negative (magnitude (main_part unit) unit whole next))) }
        ensures months { IsTrue result →
            self.new.months ≡ self.old.months
            +ℤ signed negative (magnitude Months unit whole next) }
        ensures days { IsTrue result →
            self.new.days ≡ self.old.days +ℤ signed negative (magnitude Days unit whole next) }
        ensures micros { IsTrue result →
            self.new.micros ≡ self.old.micros
            +ℤ signed negative (magnitude Micros unit whole next) }
        ensures adds { IsTrue result → self.new.adds ≡ self.old.adds + 1 }
        ensures kept { result ≡ false → self.new ≡ self.old }
    {
        self.add_some(share_of(negative, whole, next, unit))
    }

    /// Adds the share, if any, and answers whether one is there.
    #[inline(always)]
    fn add_some(&mut self, share: Option<Share>) -> bool
        requires { self.old.adds < 2 ^ 63 }
        ensures some { IsTrue result ↔ IsSome share }
        ensures added { IfSome share (λ share. (self.new.months ≡ self.old.months +ℤ share.months)
            × (self.new.days ≡ self.old.days +ℤ share.days)
            × (self.new.micros ≡ self.old.micros +ℤ share.micros)
            × (self.new.adds ≡ self.old.adds + 1)) }
        ensures kept { IfNone share (self.new ≡ self.old) }
    {
        match share {
            Some(share) => {
                self.add(share);
                true
            }
            None => false,
        }
    }

    /// The three sums, or None exactly where one leaves its type.
    pub fn fits(&self) -> Option<(i32, i32, i64)>
        ensures fits { IsSome result
            ↔ (IsTrue (fits_type Months self.now.months)
            × IsTrue (fits_type Days self.now.days)
            × IsTrue (fits_type Micros self.now.micros)) }
        ensures months { IfSome result (λ sums. sums.0 ≡ self.now.months) }
        ensures days { IfSome result (λ sums. sums.1 ≡ self.now.days) }
        ensures micros { IfSome result (λ sums. sums.2 ≡ self.now.micros) }
    {
        let months = i32::try_from(self.months).ok()?;
        let days = i32::try_from(self.days).ok()?;
        let micros = i64::try_from(self.micros).ok()?;
        Some((months, days, micros))
    }

    /// The first of months, days and microseconds whose sum leaves its type, or None exactly where all three fit.
    pub fn first_out(&self) -> Option<Part>
        ensures part { result ≡ first_sum_out self.now }
        ensures none { IsNone result
            ↔ (IsTrue (fits_type Months self.now.months)
            × IsTrue (fits_type Days self.now.days)
            × IsTrue (fits_type Micros self.now.micros)) }
    {
        if i32::try_from(self.months).is_err() {
            Some(Part::Months)
        } else if i32::try_from(self.days).is_err() {
            Some(Part::Days)
        } else if i64::try_from(self.micros).is_err() {
            Some(Part::Micros)
        } else {
            None
        }
    }
}
