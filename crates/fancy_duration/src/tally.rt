//! The sum of items, read from left to right.
ghost use Rattle.std.specs.Prelude.{◌≡◌, ◌≢◌, ℕ, Bool, false, ◌||◌, ◌+◌, ◌*◌, IfSome};
ghost use Rattle.fancy_duration.specs.Parts.{weight_of};
ghost use Rattle.fancy_duration.specs.inside.Reading.{capped, sum_with, weight_if, is_long_part};

use crate::DurationPart;

/// A sum of items from left to right, held at `u128::MAX` where it is more. The last `m` is kept apart until a
/// later item tells whether it is months.
#[derive(Clone, Copy)]
pub(crate) struct Tally {
    /// Nanoseconds of all items but the last `m`.
    pub(crate) nanos: u128,
    /// The number of the last `m`, where no long unit followed it yet, and else 0.
    pub(crate) pending: u128,
}

impl Tally {
    /// A sum of no items.
    pub(crate) fn new() -> Tally
        ensures nanos { result.nanos ≡ 0 }
        ensures pending { result.pending ≡ 0 }
    {
        Tally {
            nanos: 0,
            pending: 0,
        }
    }

    /// Adds an item, where `Minutes` is any `m`.
    pub(crate) fn add(&mut self, number: u128, part: DurationPart)
        requires { part ≢ DurationPart.Months }
        ensures { (long : Bool) (later : ℕ)
            → capped (sum_with self.new.nanos self.new.pending long later)
            ≡ capped (sum_with self.old.nanos self.old.pending (is_long_part part || long)
            (number * weight_if part long + later)) }
    {
        match part {
            DurationPart::Minutes => {
                self.settle();
                self.pending = number;
            }
            DurationPart::Years
            | DurationPart::Months
            | DurationPart::Weeks
            | DurationPart::Days
            | DurationPart::Hours => {
                self.settle();
                self.count(number, part);
            }
            DurationPart::Seconds
            | DurationPart::Milliseconds
            | DurationPart::Microseconds
            | DurationPart::Nanoseconds => self.count(number, part),
        }
    }

    /// Reads the pending `m` as months.
    fn settle(&mut self)
        ensures nanos { self.new.nanos
            ≡ capped (self.old.nanos + capped (self.old.pending * weight_of DurationPart.Months)) }
        ensures pending { self.new.pending ≡ 0 }
    {
        self.count(self.pending, DurationPart::Months);
        self.pending = 0;
    }

    /// Counts a number of a part.
    fn count(&mut self, number: u128, part: DurationPart)
        ensures nanos { self.new.nanos
            ≡ capped (self.old.nanos + capped (number * weight_of part)) }
        ensures pending { self.new.pending ≡ self.old.pending }
    {
        self.nanos = self.nanos.saturating_add(product(number, part.nanos()));
    }

    /// The sum, with a pending `m` as minutes.
    pub(crate) fn sum(self) -> u128
        ensures { result ≡ capped (sum_with self.nanos self.pending false 0) }
    {
        let mut all = self;
        all.count(self.pending, DurationPart::Minutes);
        all.nanos
    }
}

/// A number times a weight, as `u128` holds it or `u128::MAX`.
#[inline(always)]
fn product(number: u128, weight: u64) -> u128
    ensures { result ≡ capped (number * weight) }
{
    // Nearly all numbers have 64 bits, whose product is one instruction without a test.
    match u64::try_from(number) {
        Ok(number) => u128::from(number) * u128::from(weight),
        Err(_) => number.saturating_mul(u128::from(weight)),
    }
}

/// A sum of items from left to right in 64 bits, where a [`Tally`] takes several instructions in place of one.
#[derive(Clone, Copy)]
pub(crate) struct FewTally {
    /// Nanoseconds of all items but the last `m`.
    pub(crate) nanos: u64,
    /// The number of the last `m`, where no long unit followed it yet, and else 0.
    pub(crate) pending: u64,
}

impl FewTally {
    /// A sum of no items.
    pub(crate) fn new() -> FewTally
        ensures nanos { result.nanos ≡ 0 }
        ensures pending { result.pending ≡ 0 }
    {
        FewTally {
            nanos: 0,
            pending: 0,
        }
    }

    /// The sum with an item more, where `Minutes` is any `m`, if 64 bits hold it.
    #[inline(always)]
    pub(crate) fn with(self, number: u64, part: DurationPart) -> Option<FewTally>
        requires { part ≢ DurationPart.Months }
        ensures { IfSome result (λ tally. (long : Bool) (later : ℕ)
            → sum_with tally.nanos tally.pending long later
            ≡ sum_with self.nanos self.pending (is_long_part part || long)
            (number * weight_if part long + later)) }
    {
        match part {
            DurationPart::Minutes => Some(FewTally {
                nanos: self.settled()?,
                pending: number,
            }),
            DurationPart::Years
            | DurationPart::Months
            | DurationPart::Weeks
            | DurationPart::Days
            | DurationPart::Hours => Some(FewTally {
                nanos: counted(self.settled()?, number, part)?,
                pending: 0,
            }),
            DurationPart::Seconds
            | DurationPart::Milliseconds
            | DurationPart::Microseconds
            | DurationPart::Nanoseconds => Some(FewTally {
                nanos: counted(self.nanos, number, part)?,
                pending: self.pending,
            }),
        }
    }

    /// The nanoseconds with the pending `m` as months.
    #[inline(always)]
    fn settled(self) -> Option<u64>
        ensures { IfSome result (λ nanos. nanos
            ≡ self.nanos + self.pending * weight_of DurationPart.Months) }
    {
        if self.pending == 0 {
            return Some(self.nanos);
        }
        counted(self.nanos, self.pending, DurationPart::Months)
    }

    /// The sum, with a pending `m` as minutes.
    #[inline(always)]
    pub(crate) fn sum(self) -> Option<u64>
        ensures { IfSome result (λ nanos. nanos ≡ sum_with self.nanos self.pending false 0) }
    {
        counted(self.nanos, self.pending, DurationPart::Minutes)
    }
}

/// Nanoseconds and a number of a part, if 64 bits hold them.
#[inline(always)]
fn counted(nanos: u64, number: u64, part: DurationPart) -> Option<u64>
    ensures { IfSome result (λ sum. sum ≡ nanos + number * weight_of part) }
{
    nanos.checked_add(number.checked_mul(part.nanos())?)
}
