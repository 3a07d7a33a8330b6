//! Laws of the grammar, the table, the written texts and the order, each for every value: functions
//! that do nothing.
ghost use Rattle.std.specs.Prelude.{◌≡◌, ◌↔◌, ℕ, List, Result, Ok, IsTrue};
ghost use Rattle.std.specs.Ordering.{ordering_then};
ghost use Rattle.std.specs.Str.{IsAscii};
ghost use Rattle.port_toml_datetime.specs.Checks.{outcome};
ghost use Rattle.port_toml_datetime.specs.Datetimes.{IsDatetime};
ghost use Rattle.port_toml_datetime.specs.Faults.{Fault};
ghost use Rattle.port_toml_datetime.specs.Orders.{date_cmp, none_first, offset_cmp, time_cmp};
ghost use Rattle.port_toml_datetime.specs.Reading.{IsReadFrom};
ghost use Rattle.port_toml_datetime.specs.Texts.{text_of};
ghost use Rattle.port_toml_datetime.specs.WellFormed.{IsWellFormed};
ghost use Rattle.port_toml_datetime.specs.declared.date.Date.{Date as DateValue};
ghost use Rattle.port_toml_datetime.specs.declared.time.Time.{Time as TimeValue};
ghost use Rattle.port_toml_datetime.specs.declared.offset.Offset.{Offset as OffsetValue};
ghost use Rattle.port_toml_datetime.specs.declared.datetime.Datetime.{Datetime as DatetimeValue};

use crate::{Date, Datetime, DatetimeParseError, Offset, Time};

/// The checks answer a value exactly where the text spells it by the grammar.
pub fn checks_are_the_grammar()
    ensures { (text : List ℕ) (value : DatetimeValue)
        → (outcome text ≡ Ok value) ↔ IsDatetime text value }
{}

/// A text has one value at most.
pub fn one_value()
    ensures { (text : List ℕ) (a b : DatetimeValue)
        → IsDatetime text a → IsDatetime text b → a ≡ b }
{}

/// A text has one answer: a value, or a fault.
pub fn one_answer()
    ensures { (text : List ℕ) (a b : Result DatetimeValue Fault)
        → IsReadFrom text a → IsReadFrom text b → a ≡ b }
{}

/// What a text spells is well-formed: one of the four kinds, each part in its range.
pub fn values_are_well_formed()
    ensures { (text : List ℕ) (value : DatetimeValue) → IsDatetime text value → IsWellFormed value }
{}

/// The written text of a well-formed date-time spells this value.
pub fn texts_are_read_back()
    ensures { (value : DatetimeValue) → IsWellFormed value → IsDatetime (text_of value) value }
{}

/// Values are equal where all parts are.
pub fn equality_is_by_parts()
    ensures dates { (a b : DateValue) → IsTrue (⟦<Date as PartialEq>⟧.eq a b) ↔ (a ≡ b) }
    ensures times { (a b : TimeValue) → IsTrue (⟦<Time as PartialEq>⟧.eq a b) ↔ (a ≡ b) }
    ensures offsets { (a b : OffsetValue) → IsTrue (⟦<Offset as PartialEq>⟧.eq a b) ↔ (a ≡ b) }
    ensures datetimes { (a b : DatetimeValue)
        → IsTrue (⟦<Datetime as PartialEq>⟧.eq a b) ↔ (a ≡ b) }
{}

/// Errors are equal exactly where they say the same.
pub fn equal_errors_say_the_same()
    ensures { (a b : Fault) → IsTrue (⟦<DatetimeParseError as PartialEq>⟧.eq a b) ↔ (a ≡ b) }
{}

/// The order goes by the parts in turn. A part that isn't there comes before each that is, and `Z`
/// before each offset of minutes.
pub fn order_is_by_parts()
    ensures dates { (a b : DateValue) → ⟦<Date as Ord>⟧.cmp a b ≡ date_cmp a b }
    ensures times { (a b : TimeValue) → ⟦<Time as Ord>⟧.cmp a b ≡ time_cmp a b }
    ensures offsets { (a b : OffsetValue) → ⟦<Offset as Ord>⟧.cmp a b ≡ offset_cmp a b }
    ensures datetimes { (a b : DatetimeValue) → ⟦<Datetime as Ord>⟧.cmp a b
        ≡ ordering_then (none_first date_cmp a.date b.date)
        (ordering_then (none_first time_cmp a.time b.time)
        (none_first offset_cmp a.offset b.offset)) }
{}

/// A text that is a date-time, a date or a time is ASCII: the reader needs no test whether it is UTF-8.
pub fn texts_are_ascii()
    ensures { (text : List ℕ) (value : DatetimeValue) → IsDatetime text value → IsAscii text }
{}
