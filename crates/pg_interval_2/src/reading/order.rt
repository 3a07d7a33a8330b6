//! The order of units in a strict ISO text, kept beside its reader.
ghost use Rattle.std.specs.Prelude.{◌≡◌, ◌++◌, ◌∷◌, ◌&&◌, not, true, false, [], Bool, List};
ghost use Rattle.scan_core.specs.Count.{Count};
ghost use Rattle.pg_interval_2.specs.inside.Orders.{Orders, end_place, first_place, is_kept, place_behind};
ghost use Rattle.pg_interval_2.specs.inside.UnitPlaces.{place_of};

use crate::reading::units::place_of;
use scan_core::Unit;

/// The least place that the next unit may have: one behind the last unit's, or 8, which none has, where a unit didn't stand behind
/// the one before it.
#[derive(Clone, Copy)]
pub(crate) struct Order {
    least: u8,
}

impl Order {
    /// The order of no units, before the `T` or behind it.
    #[inline(always)]
    pub(crate) fn new(in_time: bool) -> Order
        ensures { Orders in_time result [] }
    {
        Order {
            least: first_place(in_time),
        }
    }

    /// Takes one more unit.
    #[inline(always)]
    pub(crate) fn take(&mut self, unit: Unit)
        ensures { (in_time : Bool) (counts : List Count) (c : Count) → c.unit ≡ unit
            → Orders in_time self.old counts → Orders in_time self.new (counts ++ c ∷ []) }
    {
        self.least = place_behind(self.least, unit);
    }

    /// Whether all units came in order, and the last of them may stand on this side of the `T`.
    #[inline(always)]
    pub(crate) fn is_kept(&self, in_time: bool) -> bool
        ensures { result ≡ is_kept in_time self.now }
    {
        self.least <= end_place(in_time)
    }
}

/// The least place behind this unit, where the unit comes in order, and else 8.
#[inline(always)]
fn place_behind(least: u8, unit: Unit) -> u8
    ensures { result ≡ place_behind least (place_of unit) }
{
    let place = place_of(unit);
    if least <= place { place + 1 } else { 8 }
}

/// Whether the units before a `T` and those behind it came in order, and the text behind it isn't bare.
#[inline(always)]
pub(crate) fn are_kept(dates: &Order, times: &Order, bare: bool) -> bool
    ensures { result ≡ ((is_kept false dates.now && is_kept true times.now) && not bare) }
{
    dates.is_kept(false) && times.is_kept(true) && !bare
}

/// The place of the first unit that may stand before the `T`, years, or behind it, hours.
#[inline(always)]
fn first_place(in_time: bool) -> u8
    ensures { result ≡ first_place in_time }
{
    if in_time { 4 } else { 0 }
}

/// The place behind that of the last such unit, days or seconds.
#[inline(always)]
fn end_place(in_time: bool) -> u8
    ensures { result ≡ end_place in_time }
{
    if in_time { 7 } else { 4 }
}
