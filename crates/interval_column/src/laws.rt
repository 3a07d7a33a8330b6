//! Laws of the order of intervals, of lines, and of what is written of an input.
ghost use Rattle.std.specs.Prelude.{◌≡◌, ◌↔◌, ℕ, List, Result as AnyResult, IsTrue};
ghost use Rattle.std.specs.Cmp.{IsTotalOrder};
ghost use Rattle.std.specs.declared.cmp.Ordering.TheVariants.{Equal};
ghost use Rattle.pg_interval_2.specs.declared.interval.Interval.{Interval as AnyInterval};
ghost use Rattle.pg_interval_2.specs.declared.style.Style.{Style as AnyStyle};
ghost use Rattle.forms.specs.Lines.{lines};
ghost use Rattle.interval_column.specs.declared.fault.ColumnError.{ColumnError as AnyError};
ghost use Rattle.interval_column.specs.declared.fault.LineFault.{LineFault as AnyFault};
ghost use Rattle.interval_column.specs.Columns.{IsColumn};
ghost use Rattle.interval_column.specs.Lines.{HasFault, IsLineRead};
ghost use Rattle.interval_column.specs.Order.{order_of};
ghost use Rattle.interval_column.specs.Output.{Tells};
ghost use Rattle.interval_column.specs.Readings.{IsColumnOf, ReadsColumn};

use crate::fault::{ColumnError, LineFault};

/// The order is total: turned intervals have the turned answer, what is before the next but one is before it, and intervals that tie
/// stand alike to every other.
pub fn order_is_total()
    ensures { IsTotalOrder order_of }
{}

/// Only equal intervals tie, and an interval ties with itself.
pub fn only_equal_intervals_tie()
    ensures tie { (a b : AnyInterval) → order_of a b ≡ Equal → a ≡ b }
    ensures same { (a : AnyInterval) → order_of a a ≡ Equal }
{}

/// Intervals have one order: two columns of the same intervals are equal.
pub fn intervals_have_one_column()
    ensures { (denoted a b : List AnyInterval) → IsColumn denoted a → IsColumn denoted b → a ≡ b }
{}

/// A line denotes one interval or has one fault.
pub fn line_is_read_in_one_way()
    ensures { (line : List ℕ) (a b : AnyResult AnyInterval AnyFault)
        → IsLineRead line a → IsLineRead line b → a ≡ b }
{
    pg_interval_2::laws::text_has_one_list_of_counts();
}

/// An input has one column, or one first line with a fault.
pub fn input_has_one_column_or_fault()
    ensures { (input : List ℕ) (a b : AnyResult (List AnyInterval) AnyError)
        → ReadsColumn input a → ReadsColumn input b → a ≡ b }
{
    line_is_read_in_one_way();
}

/// An input in which a line has a fault has no column.
pub fn faulty_input_has_no_column()
    ensures { (input : List ℕ) (sorted : List AnyInterval)
        → HasFault (lines input) → IsColumnOf input sorted → ⊥ }
{
    line_is_read_in_one_way();
}

/// One output and one status are told of an input.
pub fn input_has_one_output()
    ensures output { (style : AnyStyle) (input a b : List ℕ) (s t : ℕ)
        → Tells style input a s → Tells style input b t → a ≡ b }
    ensures status { (style : AnyStyle) (input a b : List ℕ) (s t : ℕ)
        → Tells style input a s → Tells style input b t → s ≡ t }
{
    input_has_one_column_or_fault();
}

/// The status is 8 exactly where a line has a fault, and 0 otherwise.
pub fn status_tells_of_faults()
    ensures faulty { (style : AnyStyle) (input out : List ℕ) (status : ℕ)
        → Tells style input out status → (status ≡ 8) ↔ HasFault (lines input) }
    ensures sound { (style : AnyStyle) (input out : List ℕ) (status : ℕ)
        → Tells style input out status → (status ≡ 0) ↔ (HasFault (lines input) → ⊥) }
{
    faulty_input_has_no_column();
}

/// Faults are equal where they are one, refusals of a column where all their fields are.
pub fn equality_is_that_of_the_fields()
    ensures faults { (a b : AnyFault) → IsTrue (⟦<LineFault as PartialEq>⟧.eq a b) ↔ (a ≡ b) }
    ensures refusals { (a b : AnyError) → IsTrue (⟦<ColumnError as PartialEq>⟧.eq a b) ↔ (a ≡ b) }
{}
