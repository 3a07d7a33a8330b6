//! The slots of a schedule.
use crate::slot::Slot;
use std::marker::Model;

/// The slots of a schedule, in order, no two of which clash.
#[derive(Debug, Drop)]
pub struct Table {
    slots: Vec<Slot>,
}

impl Model for Table {
    ghost use Rattle.std.specs.Prelude.{List};
    ghost use Rattle.schedule_check.specs.declared.slot.Slot.{Slot as AnySlot};

    ghost Value = { List AnySlot };

    ghost view = { λ t. t.slots.items };
}

impl Table {
    ghost use Rattle.std.specs.Prelude.{◌≡◌};

    /// A table of these slots.
    pub(crate) fn new(slots: Vec<Slot>) -> Table
        ensures { result ≡ slots.items }
    {
        Table { slots }
    }

    /// The slots, by start and then by line; each ends before the next one starts, or as it starts.
    pub fn slots(&self) -> &[Slot]
        ensures { result.now ≡ self.now }
    {
        &self.slots
    }
}
