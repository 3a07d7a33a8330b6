//! The lines of a column, read and sorted.
ghost use Rattle.std.specs.Prelude.{IfOk, IfErr};
ghost use Rattle.interval_column.specs.Readings.{IsColumnOf};
ghost use Rattle.interval_column.specs.inside.Ranks.{IsFaultOf, IsRankRead, intervals_of};

use crate::entry::read_line;
use crate::fault::{ColumnError, LineFault};
use crate::ranked::Ranked;
use crate::ranking::{ranked, sort_ranks};
use std::alloc::Global;
use whole_input::{LineError, ReadLine, read_lines};

/// Reads lines of a column.
struct ColumnLines;

impl ReadLine<Ranked, LineFault> for ColumnLines {
    ghost is_read = { λ _. IsRankRead };

    fn read_line(&self, line: &[u8], number: u64) -> Result<Ranked, LineFault> {
        let _ = number;
        match read_line(line) {
            Ok(interval) => Ok(ranked(interval)),
            Err(fault) => Err(fault),
        }
    }
}

/// The intervals of all lines in order, with their keys, or the first line with a fault. It may answer `NoMemory` in place of each.
pub fn read_ranks(alloc: Global, bytes: &[u8]) -> Result<Vec<Ranked>, ColumnError>
    ensures ok { IfOk result (λ ranks. IsColumnOf bytes.now (intervals_of ranks.items)) }
    ensures err { IfErr result (λ error. IsFaultOf bytes.now error) }
{
    match read_lines(alloc, &ColumnLines, bytes) {
        Ok(ranks) => {
            let mut ranks = ranks;
            sort_ranks(&mut ranks);
            Ok(ranks)
        }
        Err(LineError::Refused { line, fault }) => Err(ColumnError::Refused { line, fault }),
        Err(LineError::NoMemory) => Err(ColumnError::NoMemory),
    }
}
