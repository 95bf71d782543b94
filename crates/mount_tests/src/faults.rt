// Mounts in which a call fails.
use crate::answer::Answer;
use crate::cache::{LEFT, SIZE, device};
use crate::scene::{Mount, mounted};
use crate::store::{Change, Stored, change_all, put_volume};
use crate::telling::tell_counted;
use lsvd_device::{Disk, FuseDisk, MemDisk};
use lsvd_objstore::{FaultStore, MemStore, PlannedFault};
use std::alloc::Global;
use test_output::TestError;
use vol_mount::MountError;

// A hold, which a mount reads, and an object past the first missing number, so that a mount removes one.
const PAST: &[Change] = &[Change::Hold(1, 1), Change::Object(4, Stored::Data(9, 10))];

// More calls than a mount makes.
const MOST: u64 = 100;

// What fails.
#[derive(Clone, Copy)]
enum Failing {
    // A call of the store, which lands all the same where it is a put or a removal, or does not.
    Store { lands: bool },
    // A call of the device, and each after it.
    Device,
}

const CASES: &[(&str, Mount, Failing)] = &[
    (
        "the store, with the cache",
        Mount::Kept,
        Failing::Store { lands: false },
    ),
    (
        "the store, with the cache, and the call lands",
        Mount::Kept,
        Failing::Store { lands: true },
    ),
    (
        "the store, without the cache",
        Mount::Lost,
        Failing::Store { lands: false },
    ),
    (
        "the store, without the cache, and the call lands",
        Mount::Lost,
        Failing::Store { lands: true },
    ),
    ("the device, with the cache", Mount::Kept, Failing::Device),
    (
        "the device, without the cache",
        Mount::Lost,
        Failing::Device,
    ),
];

/// Tells for how many calls a mount was refused by the fault and the next one was made, and what the mount
/// answers in which none fails.
pub fn tell_all(rt: &HostRuntime) -> Result<(), TestError> {
    for (what, mount, failing) in CASES {
        tell_case(rt, what, *mount, *failing)?;
    }
    Ok(())
}

fn tell_case(
    rt: &HostRuntime,
    what: &str,
    mount: Mount,
    failing: Failing,
) -> Result<(), TestError> {
    print!(rt; "{what}: ")?;
    tell_counted(rt, "calls", failing_calls(rt.alloc(), mount, failing))
}

// The calls that fail a mount, up to the first that does not, and what is answered there. A mount after a
// fault is to answer the same.
fn failing_calls(
    alloc: Global,
    mount: Mount,
    failing: Failing,
) -> Result<(u64, Answer), TestError> {
    let mut count = 0;
    let mut agree = true;
    let mut after = None;
    for call in 0..MOST {
        let (first, second) = mounted_twice(alloc, mount, failing, call)?;
        if !is_fault(failing, &first) {
            agree &= agrees(&after, &first);
            return Ok((count, if agree { first } else { Answer::NotAsked }));
        }
        agree &= agrees(&after, &second);
        after = Some(second);
        count = call.saturating_add(1);
    }
    Ok((count, Answer::NotAsked))
}

// Whether the answer is the one before it, if any.
fn agrees(before: &Option<Answer>, answer: &Answer) -> bool {
    match before {
        Some(other) => other == answer,
        None => true,
    }
}

fn is_fault(failing: Failing, answer: &Answer) -> bool {
    match failing {
        Failing::Store { .. } => *answer == Answer::NotMounted(MountError::StoreFault),
        Failing::Device => *answer == Answer::NotMounted(MountError::DeviceFault),
    }
}

// What a mount answers in which this call fails, and the one after it on what is left.
fn mounted_twice(
    alloc: Global,
    mount: Mount,
    failing: Failing,
    call: u64,
) -> Result<(Answer, Answer), TestError> {
    let disk = device_for(alloc, mount)?;
    let mut store = store_of(alloc)?;
    match failing {
        Failing::Store { lands } => {
            let call = call.saturating_add(1);
            store_fails(alloc, mount, PlannedFault { call, lands }, disk, store)
        }
        Failing::Device => {
            let answers = device_fails(alloc, mount, call, disk, &mut store);
            drop(store);
            Ok(answers)
        }
    }
}

fn store_of(alloc: Global) -> Result<MemStore, TestError> {
    let mut store = MemStore::new(alloc);
    put_more(alloc, &mut store)?;
    Ok(store)
}

fn put_more(alloc: Global, store: &mut MemStore) -> Result<(), TestError> {
    put_volume(alloc, store)?;
    change_all(alloc, store, PAST)
}

fn device_for(alloc: Global, mount: Mount) -> Result<MemDisk, TestError> {
    match mount {
        Mount::Kept => device(alloc, SIZE, Some(LEFT)),
        Mount::Lost => device(alloc, SIZE, None),
    }
}

fn store_fails(
    alloc: Global,
    mount: Mount,
    fault: PlannedFault,
    disk: MemDisk,
    store: MemStore,
) -> Result<(Answer, Answer), TestError> {
    let mut store = FaultStore::new(alloc, store, &[fault])?;
    let (disk, first) = mounted(alloc, mount, disk, &mut store);
    let (disk, second) = mounted(alloc, mount, disk, &mut store);
    drop(disk);
    drop(store);
    Ok((first, second))
}

fn device_fails(
    alloc: Global,
    mount: Mount,
    call: u64,
    disk: MemDisk,
    store: &mut MemStore,
) -> (Answer, Answer) {
    let _is_disk = disk.len();
    let (disk, first) = mounted(alloc, mount, FuseDisk::new(disk, Some(call)), store);
    let (disk, second) = mounted(alloc, mount, disk.into_disk(), store);
    drop(disk);
    (first, second)
}
