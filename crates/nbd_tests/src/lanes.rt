// Clients of a listener in memory, of which one writes a sector, and the next one reads it.
ghost use Rattle.std.specs.Prelude.{◌≡◌, [], All, OnOk};

use crate::dump::tell_bytes;
use crate::greeting::{Asking, ENTERED_BYTES};
use crate::volume::{TestDevice, cache_of, device_of, link_with};
use lsvd_fault::MemLink;
use lsvd_listen::MemListener;
use lsvd_objstore::MemStore;
use nbd_session::SessionEnd;
use std::alloc::{AllocError, Global};
use test_output::{TestError, head};
use volume_server::{Lane, NextClient, serve_next, serve_volume};

static WRITING: [Asking; 1] = [Asking {
    flags: 1,
    kind: 1,
    offset: 0,
    length: 512,
    byte: 0x41,
}];

static READING: [Asking; 1] = [Asking {
    flags: 0,
    kind: 0,
    offset: 0,
    length: 512,
    byte: 0,
}];

fn listener_of(alloc: Global) -> Result<MemListener, AllocError> {
    let mut links = Vec::new(alloc);
    add_link(alloc, &mut links, &WRITING)?;
    add_link(alloc, &mut links, &READING)?;
    Ok(MemListener::new(links))
}

// Adds a link on which a client makes these requests.
fn add_link(alloc: Global, links: &mut Vec<MemLink>, askings: &[Asking]) -> Result<(), AllocError>
    requires { All (λ link. link.taken ≡ []) links.old.items }
    ensures { OnOk result (All (λ link. link.taken ≡ []) links.new.items) }
{
    links.push(link_with(alloc, askings)?)?;
    Ok(())
}

/// Tells what is sent to each, and that no third one comes.
pub fn tell_clients(rt: &HostRuntime) -> Result<(), TestError> {
    let mut listener = listener_of(rt.alloc())?;
    let mut store = MemStore::new(rt.alloc());
    let mut device = device_of(rt.alloc(), None, &mut store)?;
    let told = tell_three(rt, &mut device, &mut listener, &mut store);
    drop(device);
    drop(store);
    drop(listener);
    told
}

fn tell_three(
    rt: &HostRuntime,
    device: &mut TestDevice,
    listener: &mut MemListener,
    store: &mut MemStore,
) -> Result<(), TestError> {
    for _ in 0..3 {
        tell_client(rt, device, listener, store)?;
    }
    Ok(())
}

fn tell_client(
    rt: &HostRuntime,
    device: &mut TestDevice,
    listener: &mut MemListener,
    store: &mut MemStore,
) -> Result<(), TestError> {
    match serve_next(rt.alloc(), device, listener, store) {
        NextClient::Served(link, end) => tell_served(rt, link, end),
        NextClient::NoLink => head(rt, "no link"),
        NextClient::Failed => head(rt, "failed"),
    }
}

fn tell_served(rt: &HostRuntime, link: MemLink, end: SessionEnd) -> Result<(), TestError> {
    let told = tell_sent(rt, &link, end);
    drop(link);
    told
}

fn tell_sent(rt: &HostRuntime, link: &MemLink, end: SessionEnd) -> Result<(), TestError> {
    println!(rt; "served: {end:?}")?;
    tell_bytes(rt, link.bytes().get(ENTERED_BYTES..).unwrap_or(b""))
}

// How many clients are to be served, and the accept that fails.
const LANES: &[(u64, u64)] = &[(0, 9), (1, 9), (2, 9), (3, 9), (3, 1)];

/// Tells what a server has done that is to serve so many of them.
pub fn tell_lanes(rt: &HostRuntime) -> Result<(), TestError> {
    for (share, failing) in LANES {
        let lane = lane_of(rt.alloc(), *share, *failing)?;
        println!(rt; "{share} clients, the accept {failing} fails: {lane:?}")?;
    }
    Ok(())
}

fn lane_of(alloc: Global, share: u64, failing: u64) -> Result<Lane, TestError> {
    let mut store = MemStore::new(alloc);
    let volume = device_of(alloc, None, &mut store)?.into_volume();
    let mut listener = listener_of(alloc)?.failing_at(failing);
    let cache = cache_of(alloc)?;
    let closing = serve_volume(alloc, volume, cache, &mut listener, &mut store, share);
    drop(listener);
    drop(store);
    let lane = closing.lane;
    drop(closing);
    Ok(lane)
}
