// Sessions whose input or link breaks off.
use crate::greeting::input_of;
use crate::requests::ASKINGS;
use crate::volume::{link_of, serve};
use lsvd_fault::{MemLink, MemSink, MemSource};
use nbd_session::SessionEnd;
use std::alloc::Global;
use test_output::TestError;

// The input is cut inside these messages, and between them: the flags, the option, two requests, of which the
// second writes, and its data.
const CUTS: &[usize] = &[0, 3, 4, 5, 25, 26, 27, 53, 54, 82, 593, 594];

/// Tells how a session ends of whose input only the first bytes come, and how many bytes are sent.
pub fn tell_cuts(rt: &HostRuntime) -> Result<(), TestError> {
    let input = input_of(rt.alloc(), &ASKINGS)?;
    let told = tell_fronts(rt, input.as_slice());
    drop(input);
    told
}

fn tell_fronts(rt: &HostRuntime, input: &[u8]) -> Result<(), TestError> {
    for size in CUTS {
        let front = input.get(..*size).unwrap_or(b"");
        let (end, sent) = served(rt.alloc(), front)?;
        println!(rt; "{size} bytes: {end:?}, {sent} sent")?;
    }
    Ok(())
}

// How a session on this input ends, and how many bytes are sent.
fn served(alloc: Global, input: &[u8]) -> Result<(SessionEnd, usize), TestError> {
    let mut link = link_of(alloc, input)?;
    let end = serve(alloc, &mut link, None);
    let sent = link.bytes().len();
    drop(link);
    Ok((end?, sent))
}

// How many calls fail.
const CALLS: u64 = 20;

/// Tells how many sessions are ended by the link where a read fails, or a write, and sent a front of what a
/// whole session sends.
pub fn tell_faults(rt: &HostRuntime) -> Result<(), TestError> {
    let input = input_of(rt.alloc(), &ASKINGS)?;
    let told = tell_faults_on(rt, input.as_slice());
    drop(input);
    told
}

fn tell_faults_on(rt: &HostRuntime, input: &[u8]) -> Result<(), TestError> {
    let mut whole = link_of(rt.alloc(), input)?;
    let told = tell_fronts_of(rt, input, &mut whole);
    drop(whole);
    told
}

fn tell_fronts_of(rt: &HostRuntime, input: &[u8], whole: &mut MemLink) -> Result<(), TestError> {
    serve(rt.alloc(), whole, None)?;
    for is_read in [true, false] {
        let count = ended_by_link(rt.alloc(), input, whole.bytes(), is_read)?;
        println!(rt; "a read: {is_read}, {count} of {CALLS} sessions end by the link")?;
    }
    Ok(())
}

fn ended_by_link(
    alloc: Global,
    input: &[u8],
    output: &[u8],
    is_read: bool,
) -> Result<u64, TestError> {
    let mut count: u64 = 0;
    for call in 0..CALLS {
        if ends_by_link(alloc, failing_link(alloc, input, call, is_read)?, output)? {
            count = count.saturating_add(1);
        }
    }
    Ok(count)
}

fn ends_by_link(alloc: Global, mut link: MemLink, output: &[u8]) -> Result<bool, TestError> {
    let end = serve(alloc, &mut link, None);
    let is_front = output.starts_with(link.bytes());
    drop(link);
    Ok(end? == SessionEnd::LinkFault && is_front)
}

fn failing_link(
    alloc: Global,
    input: &[u8],
    call: u64,
    is_read: bool,
) -> Result<MemLink, TestError> {
    let source = MemSource::new(input.to_vec(alloc)?);
    let sink = MemSink::new(alloc);
    Ok(if is_read {
        MemLink::new(source.failing_at(call), sink)
    } else {
        MemLink::new(source, sink.failing_at(call))
    })
}
