use crate::telling::{tell_faults, tell_text};
use lsvd_fault::{Failed, MemLink, MemSink, MemSource, Sink, Source, read_past_limit};
use std::alloc::{AllocError, Global};
use test_output::{TestError, head};

// What each source gives.
const BYTES: [u8; 8] = *b"12345678";

// The most bytes of a call of an end in memory, where there is a limit, and the call that fails, if one does.
type Calls = (Option<usize>, Option<u64>);

// The calls of a source, and how many are made.
const READS: &[(Calls, usize)] = &[
    ((None, None), 4),
    ((Some(3), None), 4),
    ((Some(9), None), 3),
    ((Some(3), Some(0)), 5),
    ((None, Some(1)), 5),
];

// The calls of a sink.
const WRITES: &[Calls] = &[
    (None, None),
    (Some(3), None),
    (Some(3), Some(1)),
    (None, Some(0)),
];

// The calls of a source, and the bytes after which reading stops.
const LIMITS: &[(Calls, usize)] = &[
    ((Some(3), None), 9),
    ((Some(3), None), 8),
    ((Some(3), None), 7),
    ((Some(3), None), 5),
    ((Some(3), None), 0),
    ((Some(3), Some(1)), 9),
    ((Some(3), Some(1)), 2),
];

/// Tells what ends in memory do that give less than they are asked for, or fail.
pub fn tell_all(rt: &HostRuntime) -> Result<(), TestError> {
    head(rt, "reads of at most 5 bytes from memory")?;
    for (calls, count) in READS {
        tell_source(rt, *calls, *count)?;
    }
    head(rt, "writes of abcd to memory")?;
    for calls in WRITES {
        tell_sink(rt, *calls)?;
    }
    head(
        rt,
        "a link in memory, one of whose writes and one of whose reads fail",
    )?;
    tell_link(rt)?;
    head(rt, "reading in pieces of 3 up to a limit")?;
    for (calls, limit) in LIMITS {
        tell_limit(rt, *calls, *limit)?;
    }
    Ok(())
}

fn tell_source(rt: &HostRuntime, calls: Calls, count: usize) -> Result<(), TestError> {
    let mut source = source(rt.alloc(), calls)?;
    let told = tell_reads(rt, &mut source, count);
    drop(source);
    told
}

fn source(alloc: Global, (most, failing): Calls) -> Result<MemSource, AllocError> {
    let mut source = MemSource::new(BYTES.to_vec(alloc)?);
    if let Some(most) = most {
        if 0 < most {
            source = source.in_pieces(most);
        }
    }
    Ok(match failing {
        Some(call) => source.failing_at(call),
        None => source,
    })
}

fn sink(alloc: Global, (most, failing): Calls) -> MemSink {
    let mut sink = MemSink::new(alloc);
    if let Some(most) = most {
        if 0 < most {
            sink = sink.in_pieces(most);
        }
    }
    match failing {
        Some(call) => sink.failing_at(call),
        None => sink,
    }
}

/// Tells what each of so many reads of at most five bytes gives, and the count of faults then.
pub fn tell_reads<S: Source>(
    rt: &HostRuntime,
    source: &mut S,
    calls: usize,
) -> Result<(), TestError> {
    for _ in 0..calls {
        let mut buffer = [0; 5];
        match source.read(&mut buffer) {
            Ok(count) => tell_text(rt, &buffer[..count])?,
            Err(Failed) => print!(rt; " failed")?,
        }
    }
    tell_faults(rt, source.faults())
}

/// Tells what a write answers.
pub fn tell_write<S: Sink>(rt: &HostRuntime, sink: &mut S, piece: &[u8]) -> Result<(), TestError> {
    match sink.write(piece) {
        Ok(count) => print!(rt; " {count}")?,
        Err(Failed) => print!(rt; " failed")?,
    }
    Ok(())
}

// Tells what three writes and one of nothing answer, and the bytes and the count of faults then.
fn tell_sink(rt: &HostRuntime, calls: Calls) -> Result<(), TestError> {
    let mut sink = sink(rt.alloc(), calls);
    let told = tell_writes(rt, &mut sink);
    drop(sink);
    told
}

fn tell_writes(rt: &HostRuntime, sink: &mut MemSink) -> Result<(), TestError> {
    for piece in [b"abcd".as_slice(), b"abcd", b"abcd", b""] {
        tell_write(rt, sink, piece)?;
    }
    tell_text(rt, sink.bytes())?;
    tell_faults(rt, sink.faults())
}

fn tell_link(rt: &HostRuntime) -> Result<(), TestError> {
    let incoming = source(rt.alloc(), (Some(4), Some(1)))?;
    let mut link = MemLink::new(incoming, sink(rt.alloc(), (Some(2), Some(0))));
    let told = tell_calls(rt, &mut link);
    drop(link);
    told
}

fn tell_calls(rt: &HostRuntime, link: &mut MemLink) -> Result<(), TestError> {
    tell_write(rt, link, b"abc")?;
    tell_faults(rt, Sink::faults(link))?;
    tell_reads(rt, link, 4)?;
    tell_write(rt, link, b"abc")?;
    tell_text(rt, link.bytes())?;
    tell_faults(rt, Source::faults(link))
}

fn tell_limit(rt: &HostRuntime, calls: Calls, limit: usize) -> Result<(), TestError> {
    print!(rt; " {limit}:")?;
    let mut source = source(rt.alloc(), calls)?;
    let outcome = read_past_limit(rt.alloc(), &mut source, limit);
    let faults = source.faults();
    drop(source);
    match outcome {
        Ok(bytes) => tell_read(rt, bytes)?,
        Err(error) => print!(rt; " {error}")?,
    }
    tell_faults(rt, faults)
}

fn tell_read(rt: &HostRuntime, bytes: Vec<u8>) -> Result<(), TestError> {
    let told = tell_text(rt, bytes.as_slice());
    drop(bytes);
    told
}
