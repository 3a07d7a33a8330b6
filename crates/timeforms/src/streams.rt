//! Standard input as a source and standard output as a sink. They tell no bytes, since nobody knows what a file or a
//! terminal holds; their counts are exact. A call that a signal interrupts is tried again, and is no fault.
ghost use Rattle.std.specs.Prelude.{None};
ghost use Rattle.std.specs.Io.{ReadsAtMost, WritesAtMost};
ghost use Rattle.std.specs.Io.KnownBytes.{ReadConsumes};

use forms::{Failed, Sink, Source};
use std::io::{self, ErrorKind, Read, Write};

/// A reader as a source.
#[derive(Drop)]
pub struct Input<R> {
    reader: R,
    taken: u64,
    faults: u64,
}

impl<R> Input<R> {
    /// The reader, of which nothing was taken yet.
    pub fn new(reader: R) -> Self {
        Input {
            reader,
            taken: 0,
            faults: 0,
        }
    }
}

impl<R: Read> Source for Input<R> {
    ghost left = { λ s. R.remaining s.reader };

    ghost taken = { λ s. s.taken };

    ghost faults = { λ s. s.faults };

    fn read(&mut self, buf: &mut [u8]) -> Result<usize, Failed> {
        match read_again(&mut self.reader, buf) {
            Ok(count) => {
                self.taken = self.taken.saturating_add(count as u64);
                Ok(count)
            }
            Err(_) => {
                self.faults = self.faults.saturating_add(1);
                Err(Failed)
            }
        }
    }
}

/// A writer as a sink. It is flushed after each piece, so that nothing is kept back.
#[derive(Drop)]
pub struct Output<W> {
    writer: W,
    faults: u64,
}

impl<W> Output<W> {
    /// The writer, none of whose writes failed yet.
    pub fn new(writer: W) -> Self {
        Output { writer, faults: 0 }
    }
}

impl<W: Write> Sink for Output<W> {
    ghost held = { λ _. None };

    ghost faults = { λ s. s.faults };

    fn write(&mut self, piece: &[u8]) -> Result<usize, Failed> {
        match write_through(&mut self.writer, piece) {
            Ok(count) if count > 0 || piece.is_empty() => Ok(count),
            _ => {
                self.faults = self.faults.saturating_add(1);
                Err(Failed)
            }
        }
    }
}

/// A read, tried again while a signal interrupts it.
fn read_again<R: Read>(reader: &mut R, buf: &mut [u8]) -> io::Result<usize>
    ensures bound { ReadsAtMost result buf.new }
    ensures bytes { ReadConsumes (R.remaining reader.old) (R.remaining reader.new) result buf.new }
{
    for _ in 0..u64::MAX {
        match reader.read(buf) {
            Err(error) if error.kind() == ErrorKind::Interrupted => {}
            result => return result,
        }
    }
    Err(io::Error::from(ErrorKind::Interrupted))
}

/// A write and a flush, each tried again while a signal interrupts it.
fn write_through<W: Write>(writer: &mut W, piece: &[u8]) -> io::Result<usize>
    ensures { WritesAtMost result piece.now }
{
    let count = write_again(writer, piece)?;
    flush_again(writer)?;
    Ok(count)
}

/// A write, tried again while a signal interrupts it.
fn write_again<W: Write>(writer: &mut W, piece: &[u8]) -> io::Result<usize>
    ensures { WritesAtMost result piece.now }
{
    for _ in 0..u64::MAX {
        match writer.write(piece) {
            Err(error) if error.kind() == ErrorKind::Interrupted => {}
            result => return result,
        }
    }
    Err(io::Error::from(ErrorKind::Interrupted))
}

/// A flush, tried again while a signal interrupts it.
fn flush_again<W: Write>(writer: &mut W) -> io::Result<()> {
    for _ in 0..u64::MAX {
        match writer.flush() {
            Err(error) if error.kind() == ErrorKind::Interrupted => {}
            result => return result,
        }
    }
    Err(io::Error::from(ErrorKind::Interrupted))
}

#[cfg(test)]
mod tests {
    use super::*;

    /// A stream that answers the next calls by these kinds of errors, and the others well.
    #[derive(Drop)]
    struct Shaky<'a> {
        errors: &'a [ErrorKind],
        calls: usize,
        flushes: usize,
    }

    impl<'a> Shaky<'a> {
        fn new(errors: &'a [ErrorKind]) -> Shaky<'a> {
            Shaky {
                errors,
                calls: 0,
                flushes: 0,
            }
        }

        fn next_call(&mut self) -> io::Result<()> {
            let call = self.calls;
            self.calls = call.saturating_add(1);
            match self.errors.get(call) {
                Some(kind) => Err(io::Error::from(*kind)),
                None => Ok(()),
            }
        }
    }

    impl<'a> Read for Shaky<'a> {
        fn read(&mut self, buf: &mut [u8]) -> io::Result<usize> {
            self.next_call()?;
            Ok(buf.len().min(2))
        }
    }

    impl<'a> Write for Shaky<'a> {
        fn write(&mut self, buf: &[u8]) -> io::Result<usize> {
            self.next_call()?;
            Ok(buf.len().min(2))
        }

        fn flush(&mut self) -> io::Result<()> {
            self.next_call()?;
            self.flushes = self.flushes.saturating_add(1);
            Ok(())
        }
    }

    #[test]
    fn streams_count(rt: HostRuntime) {
        let mut buf = [0; 4];
        let mut input = Input::new(&b"ab"[..]);
        assert_eq!(rt; input.read(&mut buf), Ok(2));
        assert_eq!(rt; input.read(&mut buf), Ok(0));
        assert_eq!(rt; (input.taken, input.faults), (2, 0));
        let mut output = Output::new(Vec::new(rt.alloc()));
        assert_eq!(rt; output.write(b"ab"), Ok(2));
        assert_eq!(rt; output.faults, 0);
    }

    #[test]
    fn faults_are_counted(rt: HostRuntime) {
        let mut buf = [0; 4];
        let broken = [ErrorKind::Other];
        let mut input = Input::new(Shaky::new(&broken));
        assert_eq!(rt; input.read(&mut buf), Err(Failed));
        assert_eq!(rt; (input.taken, input.faults), (0, 1));
        let mut output = Output::new(Shaky::new(&broken));
        assert_eq!(rt; output.write(b"ab"), Err(Failed));
        assert_eq!(rt; output.faults, 1);
        // A sink that takes nothing of a piece has failed.
        let mut output = Output::new(&mut [][..]);
        assert_eq!(rt; output.write(b"ab"), Err(Failed));
        assert_eq!(rt; output.faults, 1);
    }

    #[test]
    fn interrupted_calls_are_no_faults(rt: HostRuntime) {
        let mut buf = [0; 4];
        let interrupted = [ErrorKind::Interrupted, ErrorKind::Interrupted];
        let mut input = Input::new(Shaky::new(&interrupted));
        assert_eq!(rt; input.read(&mut buf), Ok(2));
        assert_eq!(rt; (input.reader.calls, input.faults), (3, 0));
        let mut output = Output::new(Shaky::new(&interrupted));
        assert_eq!(rt; output.write(b"ab"), Ok(2));
        assert_eq!(rt; (output.writer.calls, output.faults), (4, 0));
    }

    #[test]
    fn each_piece_is_flushed(rt: HostRuntime) {
        let mut output = Output::new(Shaky::new(&[]));
        assert_eq!(rt; output.write(b"abc"), Ok(2));
        assert_eq!(rt; output.write(b"c"), Ok(1));
        assert_eq!(rt; (output.writer.flushes, output.faults), (2, 0));
    }
}
