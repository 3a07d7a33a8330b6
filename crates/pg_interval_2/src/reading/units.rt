//! The set of units that a text has counted.
ghost use Rattle.std.specs.Prelude.{◌≡◌};
ghost use Rattle.pg_interval_2.specs.inside.UnitPlaces.{place_of};

use scan_core::Unit;

/// A set of units, a bit for each.
#[derive(Clone, Copy)]
pub(crate) struct Units {
    bits: u8,
}

#[tactic(auto, unfolding(crate::specs::inside::UnitSets::holds_unit))]
impl Units {
    ghost use Rattle.std.specs.Prelude.{◌≡◌, ◌≢◌, true, false};
    ghost use Rattle.scan_core.specs.declared.share.Unit.{Unit as TimeUnit};
    ghost use Rattle.pg_interval_2.specs.inside.UnitPlaces.{place_of};
    ghost use Rattle.pg_interval_2.specs.inside.UnitSets.{holds_unit};

    /// No unit.
    pub(crate) fn new() -> Units
        ensures { (unit : TimeUnit) → holds_unit result unit ≡ false }
    {
        Units { bits: 0 }
    }

    /// Whether the unit is in the set.
    pub(crate) fn contains(&self, unit: Unit) -> bool
        ensures { result ≡ holds_unit self.now unit }
    {
        (self.bits >> place_of(unit)) & 1 == 1
    }

    /// Puts the unit into the set.
    pub(crate) fn insert(&mut self, unit: Unit)
        ensures same { holds_unit self.new unit ≡ true }
        ensures others { (other : TimeUnit) → place_of other ≢ place_of unit
            → holds_unit self.new other ≡ holds_unit self.old other }
    {
        self.bits |= 1 << place_of(unit);
    }
}

/// The place of a unit among the seven, the longest first.
pub(crate) fn place_of(unit: Unit) -> u8
    ensures { result ≡ place_of unit }
{
    match unit {
        Unit::Year => 0,
        Unit::Month => 1,
        Unit::Week => 2,
        Unit::Day => 3,
        Unit::Hour => 4,
        Unit::Minute => 5,
        Unit::Second => 6,
    }
}
