//! Laws of the definitions, each the contract of a function with an empty body.
ghost use Rattle.std.specs.Prelude.{◌≡◌, ◌≢◌, ◌↔◌, true, IsTrue};
ghost use Rattle.scan_core.specs.Count.{Count};
ghost use Rattle.scan_core.specs.Digits.{AreDigits};
ghost use Rattle.scan_core.specs.Shares.{fits_type, main_part, share};
ghost use Rattle.scan_core.specs.declared.share.Part.{Part};
ghost use Rattle.scan_core.specs.declared.share.Share.{Share};
ghost use Rattle.scan_core.specs.declared.share.Unit.{Unit};

use crate::share;

/// Of a count's share only the part that the whole digits count can leave its type, since a fraction is at most one whole unit.
pub fn other_parts_fit()
    ensures { (part : Part) (c : Count) → AreDigits c.fraction → part ≢ main_part c.unit
        → fits_type part (share part c) ≡ true }
{}

/// Units and parts are equal where they are one, shares where all their fields are.
pub fn equality_is_that_of_the_fields()
    ensures units { (a b : Unit) → IsTrue (⟦<share::Unit as PartialEq>⟧.eq a b) ↔ (a ≡ b) }
    ensures parts { (a b : Part) → IsTrue (⟦<share::Part as PartialEq>⟧.eq a b) ↔ (a ≡ b) }
    ensures shares { (a b : Share) → IsTrue (⟦<share::Share as PartialEq>⟧.eq a b) ↔ (a ≡ b) }
{}
