//! A column of intervals in order.
ghost use Rattle.std.specs.Prelude.{◌≡◌, ◌⊎◌, ◌-◌, length, List, Err, IfOk, IsErr, slice_get, Result as AnyResult};
ghost use Rattle.std.specs.List.Sorted.{IsSorted};
ghost use Rattle.pg_interval_2.specs.declared.interval.Interval.{Interval as AnyInterval};
ghost use Rattle.forms.specs.Lines.{lines};
ghost use Rattle.interval_column.specs.declared.fault.ColumnError.{ColumnError as AnyError};
ghost use Rattle.interval_column.specs.Columns.{total_of};
ghost use Rattle.interval_column.specs.Lines.{HasFault};
ghost use Rattle.interval_column.specs.Order.{order_of};
ghost use Rattle.interval_column.specs.Readings.{ReadsColumn};
ghost use Rattle.interval_column.specs.inside.Ranks.{intervals_of};

use crate::fault::ColumnError;
use crate::laws;
use crate::ranked::Ranked;
use crate::reading::read_ranks;
use crate::sums::total_of;
use pg_interval_2::Interval;
use std::alloc::{AllocError, Global};
use std::marker::Model;

/// Intervals in order, each as often as it was read.
#[derive(Debug, Drop)]
pub struct Column {
    intervals: Vec<Interval>,
}

impl Model for Column {
    ghost use Rattle.std.specs.Prelude.{List};
    ghost use Rattle.std.specs.List.Sorted.{IsSorted};
    ghost use Rattle.pg_interval_2.specs.declared.interval.Interval.{Interval as AnyInterval};
    ghost use Rattle.interval_column.specs.Order.{order_of};

    ghost Value = { List AnyInterval };

    ghost view = { λ column. column.intervals.items };

    ghost invariant = { λ column. IsSorted order_of column.intervals.items };
}

impl Column {
    /// The column of the intervals that the lines of some bytes denote, or the first line with a fault. A line is an interval form's
    /// name, then the end or a space and a text: `PgIso P1M`. It may answer `NoMemory` in place of each.
    pub fn read(alloc: Global, bytes: &[u8]) -> Result<Column, ColumnError>
        ensures reads { (result ≡ Err ColumnError.NoMemory) ⊎ ReadsColumn bytes.now result }
        ensures exact { (answer : AnyResult (List AnyInterval) AnyError)
            → ReadsColumn bytes.now answer
            → (result ≡ Err ColumnError.NoMemory) ⊎ (result ≡ answer) }

        // A column is read only where no line has a fault.
        ensures faulty { HasFault (lines bytes.now) → IsErr result }
    {
        laws::input_has_one_column_or_fault();
        laws::faulty_input_has_no_column();
        Column::of_lines(alloc, bytes)
    }

    /// What `read` answers.
    fn of_lines(alloc: Global, bytes: &[u8]) -> Result<Column, ColumnError>
        ensures { (result ≡ Err ColumnError.NoMemory) ⊎ ReadsColumn bytes.now result }
    {
        match read_ranks(alloc, bytes) {
            Ok(ranks) => match without_keys(alloc, &ranks) {
                Ok(intervals) => Ok(Column { intervals }),
                Err(_) => Err(ColumnError::NoMemory),
            },
            Err(error) => Err(error),
        }
    }

    /// The intervals in order, each as often as it was read.
    pub fn sorted(&self) -> &[Interval]
        ensures all { result.now ≡ self.now }
        ensures order { IsSorted order_of result.now }
    {
        &self.intervals
    }

    /// The first of the intervals, or None exactly where there is none.
    pub fn least(&self) -> Option<Interval>
        ensures { result ≡ slice_get self.now 0 }
    {
        self.intervals.first().copied()
    }

    /// The last of the intervals, or None exactly where there is none.
    pub fn greatest(&self) -> Option<Interval>
        ensures { result ≡ slice_get self.now (length self.now - 1) }
    {
        self.intervals.last().copied()
    }

    /// The sum by part of all intervals, or None exactly where a part of it leaves its type. It is 0 where there is none. Sums may
    /// leave a type on the way and come back.
    pub fn total(&self) -> Option<Interval>
        ensures { result ≡ total_of self.now }
    {
        total_of(&self.intervals)
    }
}

/// The intervals without their keys.
fn without_keys(alloc: Global, ranks: &[Ranked]) -> Result<Vec<Interval>, AllocError>
    ensures { IfOk result (λ intervals. intervals.items ≡ intervals_of ranks.now) }
{
    let mut intervals = Vec::with_capacity(alloc, ranks.len())?;
    for ranked in ranks {
        intervals.push(ranked.interval)?;
    }
    Ok(intervals)
}
