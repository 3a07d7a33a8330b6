//! Why a line or a column isn't read.
ghost use Rattle.std.specs.Prelude.{◌≡◌, ◌≤◌, length};
ghost use Rattle.interval_column.specs.Output.{fault_name};

/// Why a line denotes no interval, in the order in which the faults are judged.
#[derive(Clone, Copy, Debug, PartialEq, Eq)]
pub enum LineFault {
    /// It isn't UTF-8, or isn't an interval form's name and then the end or a space and a text.
    Line,
    /// The text hasn't the form's shape.
    Syntax,
    /// The text has the shape, and its counts don't fit.
    Range,
}

impl LineFault {
    /// The fault's name: `LineFault::Range.name()` is `Range`.
    pub fn name(self) -> &'static str
        ensures name { result.now ≡ fault_name self }
        ensures len { length result.now ≤ 6 }
    {
        match self {
            LineFault::Line => "Line",
            LineFault::Syntax => "Syntax",
            LineFault::Range => "Range",
        }
    }
}

/// Why a column isn't read.
#[derive(Clone, Copy, Debug, PartialEq, Eq)]
pub enum ColumnError {
    /// The first line with a fault, counted from 1.
    Refused { line: u64, fault: LineFault },
    /// There is no memory for the intervals.
    NoMemory,
}
