//! How a run ends.
ghost use Rattle.std.specs.Prelude.{◌≡◌};
ghost use Rattle.forms.specs.Ends.{status_of};

/// How a run ended.
#[derive(Clone, Copy, Debug, PartialEq, Eq)]
pub enum RunEnd {
    /// The source's end came, and every line has its reply.
    Done,
    /// A read failed. The lines whose line feeds were taken have their replies.
    ReadFault,
    /// A write failed. A front of the replies was written.
    WriteFault,
    /// More bytes came than the limit allows. The whole lines within the limit have their replies.
    TooLong,
    /// There was no memory for the longest line that the limit allows. Nothing was taken.
    NoMemory,
}

impl RunEnd {
    /// The exit status of the program: `RunEnd::Done.status()` is 0.
    pub fn status(self) -> u8
        ensures { result ≡ status_of self }
    {
        match self {
            RunEnd::Done => 0,
            RunEnd::ReadFault => 3,
            RunEnd::WriteFault => 4,
            RunEnd::TooLong => 5,
            RunEnd::NoMemory => 6,
        }
    }
}
