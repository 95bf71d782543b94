// Creations and mounts one after the other.
use crate::answer::{Answer, created, kept, lost};
use crate::cache::{SIZE, device};
use lsvd_device::MemDisk;
use lsvd_objstore::{FaultStore, MemStore, PlannedFault, Store};
use std::alloc::Global;
use test_output::TestError;

#[derive(Clone, Copy, Debug)]
enum Call {
    // Creates the volume on the device.
    Create,
    // Mounts it with the device.
    Kept,
    // Mounts it without its cache, on a new device, which is let go.
    Lost,
}

const CALLS: &[Call] = &[
    Call::Kept,
    Call::Lost,
    Call::Create,
    Call::Kept,
    Call::Create,
    Call::Kept,
    Call::Lost,
    Call::Lost,
    Call::Kept,
];

/// Tells what calls answer, one after the other.
pub fn tell_calls(rt: &HostRuntime) -> Result<(), TestError> {
    let mut store = MemStore::new(rt.alloc());
    let told = tell_in(rt, &mut store, CALLS);
    drop(store);
    told
}

// Makes calls on one store and one device.
fn tell_in<S: Store>(rt: &HostRuntime, store: &mut S, calls: &[Call]) -> Result<(), TestError> {
    let mut disk = device(rt.alloc(), SIZE, None)?;
    for call in calls {
        disk = tell_on(rt, store, *call, disk)?;
    }
    drop(disk);
    Ok(())
}

// Makes a call on a device, which is given back.
fn tell_on<S: Store>(
    rt: &HostRuntime,
    store: &mut S,
    call: Call,
    disk: MemDisk,
) -> Result<MemDisk, TestError> {
    let (left, answer) = answered(rt.alloc(), call, disk, store)?;
    tell_call(rt, call, answer)?;
    Ok(left)
}

fn tell_call(rt: &HostRuntime, call: Call, answer: Answer) -> Result<(), TestError> {
    println!(rt; "{call:?}: {answer:?}")?;
    Ok(())
}

// What a call answers, and the device after it.
fn answered<S: Store>(
    alloc: Global,
    call: Call,
    disk: MemDisk,
    store: &mut S,
) -> Result<(MemDisk, Answer), TestError> {
    match call {
        Call::Create => Ok(created(alloc, disk, store)),
        Call::Kept => Ok(kept(alloc, disk, store)),
        Call::Lost => {
            let (new, answer) = lost(alloc, device(alloc, SIZE, None)?, store);
            drop(new);
            Ok((disk, answer))
        }
    }
}

// Which call of a creation fails, and whether it lands all the same. The calls are whether there is a super
// object, and three puts, of which that of the super object is the last.
const BROKEN: &[(u64, bool)] = &[
    (1, false),
    (2, false),
    (2, true),
    (3, true),
    (4, false),
    (4, true),
];

// What is done after it.
const AFTER: &[Call] = &[Call::Create, Call::Kept, Call::Create, Call::Kept];

/// Tells what comes of a creation that fails.
pub fn tell_broken_creations(rt: &HostRuntime) -> Result<(), TestError> {
    for (call, lands) in BROKEN {
        println!(rt; "call {call}, which lands: {lands}")?;
        tell_broken(
            rt,
            PlannedFault {
                call: *call,
                lands: *lands,
            },
        )?;
    }
    Ok(())
}

fn tell_broken(rt: &HostRuntime, fault: PlannedFault) -> Result<(), TestError> {
    let mut store = FaultStore::new(rt.alloc(), MemStore::new(rt.alloc()), &[fault])?;
    let told = tell_in(rt, &mut store, AFTER);
    drop(store);
    told
}
