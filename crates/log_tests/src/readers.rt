ghost use Rattle.std.specs.Prelude.{◌≡◌, IfOk};

use crate::streams::{tell_reads, tell_write};
use crate::telling::{tell_faults, tell_text};
use lsvd_fault::{ReadSource, Sink, WriteSink};
use std::io;
use std::io::{ErrorKind, Read, Write};
use test_output::{TestError, head};

// A reader and a writer that a signal interrupts at each call, and a writer that takes nothing.
#[derive(Drop)]
struct Interrupted;

impl Read for Interrupted {
    fn read(&mut self, _: &mut [u8]) -> io::Result<usize> {
        Err(ErrorKind::Interrupted.into())
    }
}

impl Write for Interrupted {
    fn write(&mut self, _: &[u8]) -> io::Result<usize> {
        Err(ErrorKind::Interrupted.into())
    }

    fn flush(&mut self) -> io::Result<()> {
        Ok(())
    }
}

#[derive(Drop)]
struct Full;

impl Write for Full {
    fn write(&mut self, _: &[u8]) -> io::Result<usize> {
        Ok(0)
    }

    fn flush(&mut self) -> io::Result<()> {
        Ok(())
    }
}

// A reader and a writer whose first call is interrupted, and each later one takes all.
#[derive(Drop)]
struct InterruptedOnce {
    was_called: bool,
}

impl InterruptedOnce {
    const NEW: InterruptedOnce = InterruptedOnce { was_called: false };

    fn all_but_first(&mut self, count: usize) -> io::Result<usize>
        ensures { IfOk result (λ n. n ≡ count) }
    {
        if self.was_called {
            return Ok(count);
        }
        self.was_called = true;
        Err(ErrorKind::Interrupted.into())
    }
}

impl Read for InterruptedOnce {
    fn read(&mut self, buf: &mut [u8]) -> io::Result<usize> {
        buf.fill(b'x');
        self.all_but_first(buf.len())
    }
}

impl Write for InterruptedOnce {
    fn write(&mut self, piece: &[u8]) -> io::Result<usize> {
        self.all_but_first(piece.len())
    }

    fn flush(&mut self) -> io::Result<()> {
        Ok(())
    }
}

/// Tells what streams over readers and writers do: no call is made again, and each that fails is counted.
pub fn tell_all(rt: &HostRuntime) -> Result<(), TestError> {
    head(rt, "reads of at most 5 bytes from readers")?;
    tell_reads(rt, &mut ReadSource::new(b"12345678".as_slice()), 3)?;
    tell_reads(rt, &mut ReadSource::new(Interrupted), 2)?;
    tell_reads(rt, &mut ReadSource::new(InterruptedOnce::NEW), 2)?;
    head(rt, "writes of abcd and of nothing to writers")?;
    tell_vec(rt)?;
    tell_writes(rt, &mut WriteSink::new(Interrupted))?;
    tell_writes(rt, &mut WriteSink::new(Full))?;
    tell_writes(rt, &mut WriteSink::new(InterruptedOnce::NEW))
}

fn tell_writes<S: Sink>(rt: &HostRuntime, sink: &mut S) -> Result<(), TestError> {
    for piece in [b"abcd".as_slice(), b"abcd", b""] {
        tell_write(rt, sink, piece)?;
    }
    tell_faults(rt, sink.faults())
}

fn tell_vec(rt: &HostRuntime) -> Result<(), TestError> {
    let mut taken = Vec::new(rt.alloc());
    tell_writes(rt, &mut WriteSink::new(&mut taken))?;
    tell_text(rt, taken.as_slice())?;
    println!(rt)?;
    Ok(())
}
