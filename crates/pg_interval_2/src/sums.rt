//! Sums and differences of intervals. The parts stand beside each other, so nothing is carried from one to another.
ghost use Rattle.std.specs.Prelude.{◌≡◌, pos, ◌+ℤ◌, ◌-ℤ◌, ◌*ℤ◌, int_div, FitsSigned};
ghost use Rattle.std.specs.Int.{w32, w64};
ghost use Rattle.std.specs.Option.{SomeIff};
ghost use Rattle.jiff.specs.Words.{IsWithin};
ghost use Rattle.pg_interval_2.specs.Ranges.{IsInRange};
ghost use Rattle.pg_interval_2.specs.Sums.{plus, less, micros_of, day_time, months_in, year_month};

use crate::interval::Interval;
use std::ops::{Add, Sub};

impl Interval {
    /// The sum, part by part. `None` exactly where a part leaves its type.
    pub fn checked_add(self, other: Interval) -> Option<Interval>
        ensures { SomeIff result (IsInRange (plus self other)) (plus self other) }
    {
        joined(
            self.months.checked_add(other.months),
            self.days.checked_add(other.days),
            self.microseconds.checked_add(other.microseconds),
        )
    }

    /// The difference, part by part. `None` exactly where a part leaves its type.
    pub fn checked_sub(self, other: Interval) -> Option<Interval>
        ensures { SomeIff result (IsInRange (less self other)) (less self other) }
    {
        joined(
            self.months.checked_sub(other.months),
            self.days.checked_sub(other.days),
            self.microseconds.checked_sub(other.microseconds),
        )
    }

    /// The interval with these days more, and with these hours, minutes and nanoseconds as more microseconds. Nanoseconds
    /// beyond a whole microsecond are cut toward zero. `None` exactly where a result leaves its type: amounts that leave it
    /// and cancel each other are added.
    ///
    /// `Interval::new(13, 0, 0).checked_add_day_time(2, 0, 0, 2_123_456_789)` has 2 days and 2_123_456 microseconds.
    pub fn checked_add_day_time(
        self,
        days: i32,
        hours: i64,
        minutes: i64,
        nanos: i128,
    ) -> Option<Interval>
        ensures { SomeIff result (IsInRange (plus self (day_time days hours minutes nanos)))
            (plus self (day_time days hours minutes nanos)) }
    {
        joined(
            self.months.checked_add(0),
            self.days.checked_add(days),
            add_micros(self.microseconds, micros_of(hours, minutes, nanos)),
        )
    }

    /// The interval with the amounts of [`Interval::checked_add_day_time`] less. `None` exactly where a result leaves its
    /// type.
    pub fn checked_sub_day_time(
        self,
        days: i32,
        hours: i64,
        minutes: i64,
        nanos: i128,
    ) -> Option<Interval>
        ensures { SomeIff result (IsInRange (less self (day_time days hours minutes nanos)))
            (less self (day_time days hours minutes nanos)) }
    {
        joined(
            self.months.checked_sub(0),
            self.days.checked_sub(days),
            sub_micros(self.microseconds, micros_of(hours, minutes, nanos)),
        )
    }

    /// The interval with these years, of 12 months, and months more. `None` exactly where the months leave `i32`.
    pub fn checked_add_year_month(self, year: i32, months: i32) -> Option<Interval>
        ensures { SomeIff result (IsInRange (plus self (year_month year months)))
            (plus self (year_month year months)) }
    {
        joined(
            add_months(self.months, months_in(year, months)),
            self.days.checked_add(0),
            self.microseconds.checked_add(0),
        )
    }

    /// The interval with these years, of 12 months, and months less. `None` exactly where the months leave `i32`.
    pub fn checked_sub_year_month(self, year: i32, months: i32) -> Option<Interval>
        ensures { SomeIff result (IsInRange (less self (year_month year months)))
            (less self (year_month year months)) }
    {
        joined(
            sub_months(self.months, months_in(year, months)),
            self.days.checked_sub(0),
            self.microseconds.checked_sub(0),
        )
    }

    /// As [`Interval::checked_add_day_time`], which must be `Some`.
    pub fn add_day_time(self, days: i32, hours: i64, minutes: i64, nanos: i128) -> Interval
        requires { IsInRange (plus self (day_time days hours minutes nanos)) }
        ensures { result ≡ plus self (day_time days hours minutes nanos) }
    {
        self.checked_add_day_time(days, hours, minutes, nanos)
            .unwrap()
    }

    /// As [`Interval::checked_sub_day_time`], which must be `Some`.
    pub fn sub_day_time(self, days: i32, hours: i64, minutes: i64, nanos: i128) -> Interval
        requires { IsInRange (less self (day_time days hours minutes nanos)) }
        ensures { result ≡ less self (day_time days hours minutes nanos) }
    {
        self.checked_sub_day_time(days, hours, minutes, nanos)
            .unwrap()
    }

    /// As [`Interval::checked_add_year_month`], which must be `Some`.
    pub fn add_year_month(self, year: i32, months: i32) -> Interval
        requires { IsInRange (plus self (year_month year months)) }
        ensures { result ≡ plus self (year_month year months) }
    {
        self.checked_add_year_month(year, months).unwrap()
    }

    /// As [`Interval::checked_sub_year_month`], which must be `Some`.
    pub fn sub_year_month(self, year: i32, months: i32) -> Interval
        requires { IsInRange (less self (year_month year months)) }
        ensures { result ≡ less self (year_month year months) }
    {
        self.checked_sub_year_month(year, months).unwrap()
    }
}

/// The interval of three parts, where each is there.
fn joined(months: Option<i32>, days: Option<i32>, microseconds: Option<i64>) -> Option<Interval>
    ensures { (t : Interval)
        → SomeIff months (FitsSigned w32 t.months) t.months
        → SomeIff days (FitsSigned w32 t.days) t.days
        → SomeIff microseconds (FitsSigned w64 t.microseconds) t.microseconds
        → SomeIff result (IsInRange t) t }
{
    Some(Interval {
        months: months?,
        days: days?,
        microseconds: microseconds?,
    })
}

/// The microseconds of whole hours and minutes, which 128 bits hold.
fn clock_micros(hours: i64, minutes: i64) -> i128
    ensures value { result ≡ ((hours *ℤ pos 3_600_000_000) +ℤ (minutes *ℤ pos 60_000_000)) }
    ensures bound { IsWithin 40_000_000_000_000_000_000_000_000_000 result }
{
    hours as i128 * 3_600_000_000 + minutes as i128 * 60_000_000
}

/// The whole microseconds of nanoseconds, toward zero.
fn whole_micros(nanos: i128) -> i128
    ensures value { result ≡ int_div nanos (pos 1_000) }
    ensures bound { IsWithin 200_000_000_000_000_000_000_000_000_000_000_000 result }
{
    nanos / 1_000
}

/// The microseconds of hours, minutes and nanoseconds, which 128 bits hold.
fn micros_of(hours: i64, minutes: i64, nanos: i128) -> i128
    ensures value { result ≡ micros_of hours minutes nanos }
    ensures bound { IsWithin 300_000_000_000_000_000_000_000_000_000_000_000 result }
{
    clock_micros(hours, minutes) + whole_micros(nanos)
}

/// The months of years and months.
fn months_in(years: i32, months: i32) -> i64
    ensures value { result ≡ months_in years months }
    ensures bound { IsWithin 40_000_000_000 result }
{
    years as i64 * 12 + months as i64
}

/// The sum, where microseconds hold it.
fn add_micros(micros: i64, more: i128) -> Option<i64>
    requires { IsWithin 300_000_000_000_000_000_000_000_000_000_000_000 more }
    ensures { SomeIff result (FitsSigned w64 (micros +ℤ more)) (micros +ℤ more) }
{
    i64::try_from(micros as i128 + more).ok()
}

/// The difference, where microseconds hold it.
fn sub_micros(micros: i64, fewer: i128) -> Option<i64>
    requires { IsWithin 300_000_000_000_000_000_000_000_000_000_000_000 fewer }
    ensures { SomeIff result (FitsSigned w64 (micros -ℤ fewer)) (micros -ℤ fewer) }
{
    i64::try_from(micros as i128 - fewer).ok()
}

/// The sum, where months hold it.
fn add_months(months: i32, more: i64) -> Option<i32>
    requires { IsWithin 40_000_000_000 more }
    ensures { SomeIff result (FitsSigned w32 (months +ℤ more)) (months +ℤ more) }
{
    i32::try_from(months as i64 + more).ok()
}

/// The difference, where months hold it.
fn sub_months(months: i32, fewer: i64) -> Option<i32>
    requires { IsWithin 40_000_000_000 fewer }
    ensures { SomeIff result (FitsSigned w32 (months -ℤ fewer)) (months -ℤ fewer) }
{
    i32::try_from(months as i64 - fewer).ok()
}

/// As [`Interval::checked_add`], which must be `Some`.
impl Add for Interval {
    type Output = Interval;

    ghost can_add = { λ a b. IsInRange (plus a b) };

    ghost add_gives = { λ a b sum. sum ≡ plus a b };

    fn add(self, rhs: Interval) -> Interval {
        self.checked_add(rhs).unwrap()
    }
}

/// As [`Interval::checked_sub`], which must be `Some`.
impl Sub for Interval {
    type Output = Interval;

    ghost can_sub = { λ a b. IsInRange (less a b) };

    ghost sub_gives = { λ a b difference. difference ≡ less a b };

    fn sub(self, rhs: Interval) -> Interval {
        self.checked_sub(rhs).unwrap()
    }
}
