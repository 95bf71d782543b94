// Mounts with the cache whose device stops in the midst.
use crate::answer::{Answer, kept};
use crate::cache::{LEFT, SIZE, device};
use crate::store::put_volume;
use crate::telling::tell_counted;
use lsvd_device::{Disk, Fate, FuseDisk, MemDisk, StoppedDisk};
use lsvd_objstore::MemStore;
use std::alloc::{AllocError, Global};
use test_output::TestError;

// The calls that a mount makes of its device, and one more, after which it is done.
const CALLS: u64 = 17;

// What the stops leave of each write that was not synced.
const FATES: [Fate; 4] = [Fate::Kept, Fate::Old, Fate::Zeros, Fate::Torn];

/// Tells how many mounts were made after two that were stopped, and what each of them answers.
pub fn tell_all(rt: &HostRuntime) -> Result<(), TestError> {
    for fate in FATES {
        tell_fate(rt, fate)?;
    }
    Ok(())
}

fn tell_fate(rt: &HostRuntime, fate: Fate) -> Result<(), TestError> {
    print!(rt; "{fate:?}: ")?;
    tell_counted(rt, "mounts", stopped_mounts(rt.alloc(), fate))
}

// The first answer, and how many mounts have the same. The first one stops after each number of calls, and so
// does the second.
fn stopped_mounts(alloc: Global, fate: Fate) -> Result<(u64, Answer), TestError> {
    let wanted = stopped_twice(alloc, fate, 0, 0)?;
    let mut count: u64 = 0;
    for calls in 0..CALLS {
        if stopped_twice(alloc, fate, calls, calls.wrapping_mul(5) % CALLS)? == wanted {
            count = count.saturating_add(1);
        }
    }
    Ok((count, wanted))
}

// What a mount answers after two whose device stopped after so many calls.
fn stopped_twice(alloc: Global, fate: Fate, first: u64, second: u64) -> Result<Answer, TestError> {
    let mut store = MemStore::new(alloc);
    let answer = stopped_twice_in(alloc, &mut store, fate, first, second);
    drop(store);
    answer
}

// The same, in a store where nothing is yet.
fn stopped_twice_in(
    alloc: Global,
    store: &mut MemStore,
    fate: Fate,
    first: u64,
    second: u64,
) -> Result<Answer, TestError> {
    put_volume(alloc, store)?;
    let disk = device(alloc, SIZE, Some(LEFT))?;
    let disk = stopped_mount(alloc, fate, first, disk, store)?;
    let disk = stopped_mount(alloc, fate, second, disk, store)?;
    let (disk, answer) = kept(alloc, disk, store);
    drop(disk);
    Ok(answer)
}

// What a stop leaves of the device after a mount on it that is to stop after so many calls.
fn stopped_mount(
    alloc: Global,
    fate: Fate,
    calls: u64,
    disk: MemDisk,
    store: &mut MemStore,
) -> Result<MemDisk, AllocError> {
    let _is_disk = disk.len();
    let (disk, _answer) = kept(alloc, FuseDisk::new(disk, Some(calls)), store);
    let fates = vec![in alloc; fate; disk.pending()]?;
    disk.stopped(alloc, fates.as_slice())
}
