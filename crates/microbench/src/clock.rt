use crate::error::BenchError;
use std::io;
use std::time::CpuClock;

/// A time from which others are counted: the processor time that the program has taken, so that other
/// programs count for little.
#[derive(Clone, Copy)]
pub struct Start {
    nanoseconds: u64,
}

impl Start {
    /// Now. The error is that of the clock.
    pub fn now(rt: &HostRuntime) -> io::Result<Start> {
        Ok(Start {
            nanoseconds: now(rt)?,
        })
    }

    /// How many nanoseconds went by since then. The error is that of the clock.
    pub fn elapsed(&self, rt: &HostRuntime) -> io::Result<u64> {
        Ok(now(rt)?.wrapping_sub(self.nanoseconds))
    }

    /// The same, and from here on times are counted from now.
    pub fn lap(&mut self, rt: &HostRuntime) -> io::Result<u64> {
        let end = Start::now(rt)?;
        let took = end.nanoseconds.wrapping_sub(self.nanoseconds);
        *self = end;
        Ok(took)
    }
}

// The nanoseconds that the program has taken.
fn now(rt: &HostRuntime) -> io::Result<u64> {
    let time = rt.thread_cpu_time()?;
    let seconds = time.as_secs().wrapping_mul(1_000_000_000);
    Ok(seconds.wrapping_add(u64::from(time.subsec_nanos())))
}

/// Tells what was made, and how long it took where times are told.
#[derive(Clone, Copy)]
pub struct Report {
    is_timed: bool,
}

impl Report {
    /// One that tells times, or none.
    pub fn new(is_timed: bool) -> Report {
        Report { is_timed }
    }

    /// Writes what calls were, and the nanoseconds of each of so many since a start.
    pub fn tell(
        &self,
        rt: &HostRuntime,
        start: Start,
        calls: u64,
        what: &str,
    ) -> Result<(), BenchError> {
        let took = start.elapsed(rt)? / calls.max(1);
        if self.is_timed {
            println!(rt; "{took:>12} ns: {what}").map_err(BenchError::from)
        } else {
            println!(rt; "{what}").map_err(BenchError::from)
        }
    }
}
