ghost use Rattle.std.specs.Prelude.{◌≡◌};
ghost use Rattle.lsvd_fault.specs.Adapter.{ReaderState, WriterState};

use crate::stream::{Failed, Sink, Source};
use std::io::{Read, Write};
use std::marker::Model;

/// A source over a real reader. It tells the bytes that its reader tells; a file and a pipe tell none.
#[derive(Drop)]
pub struct ReadSource<R: Read + Drop> {
    reader: R,
    faults: u64,
}

impl<R: Read + Drop> Model for ReadSource<R> {
    ghost use Rattle.lsvd_fault.specs.Adapter.{ReaderState};

    ghost Value = { ReaderState };

    ghost view = { λ s. record { left = R.remaining s.reader; faults = s.faults } };
}

impl<R: Read + Drop> ReadSource<R> {
    /// A source that reads from this reader, with no fault counted yet.
    pub fn new(reader: R) -> ReadSource<R>
        ensures left { result.left ≡ R.remaining reader }
        ensures faults { result.faults ≡ 0 }
    {
        ReadSource { reader, faults: 0 }
    }
}

impl<R: Read + Drop> Source for ReadSource<R> {
    ghost remaining = { λ s. s.left };

    ghost faults = { λ s. s.faults };

    // An interrupted read is a fault like any other, and is not tried again.
    fn read(&mut self, buf: &mut [u8]) -> Result<usize, Failed> {
        match self.reader.read(buf) {
            Ok(count) => Ok(count),
            Err(_) => {
                self.faults = self.faults.saturating_add(1);
                Err(Failed)
            }
        }
    }

    fn faults(&self) -> u64 {
        self.faults
    }
}

/// A sink over a real writer, to which each piece is passed at once. It tells the bytes that its writer
/// tells; a file and a pipe tell none. It never flushes, so give it a writer that does not buffer.
#[derive(Drop)]
pub struct WriteSink<W: Write + Drop> {
    writer: W,
    faults: u64,
}

impl<W: Write + Drop> Model for WriteSink<W> {
    ghost use Rattle.lsvd_fault.specs.Adapter.{WriterState};

    ghost Value = { WriterState };

    ghost view = { λ s. record { taken = W.contents s.writer; faults = s.faults } };
}

impl<W: Write + Drop> WriteSink<W> {
    /// A sink that writes to this writer, with no fault counted yet.
    pub fn new(writer: W) -> WriteSink<W>
        ensures taken { result.taken ≡ W.contents writer }
        ensures faults { result.faults ≡ 0 }
    {
        WriteSink { writer, faults: 0 }
    }
}

impl<W: Write + Drop> Sink for WriteSink<W> {
    ghost contents = { λ s. s.taken };

    ghost faults = { λ s. s.faults };

    // An interrupted write is a fault like any other, and is not tried again; so is a write that takes
    // nothing of a piece that has bytes.
    fn write(&mut self, piece: &[u8]) -> Result<usize, Failed> {
        match self.writer.write(piece) {
            Ok(count) if 0 < count || piece.is_empty() => Ok(count),
            _ => {
                self.faults = self.faults.saturating_add(1);
                Err(Failed)
            }
        }
    }

    fn faults(&self) -> u64 {
        self.faults
    }
}
