use crate::answer::filled_with;
use crate::creating::created;
use crate::step::Byte;
use lsvd_base::{Body, Geometry};
use lsvd_device::MemDisk;
use lsvd_objstore::{FaultStore, MemReceipt, MemStore, PlannedFault, Store};
use read_cache::ReadCache;
use std::alloc::{AllocError, Global};
use test_output::{TestError, head};
use volume_owner::{Owner, OwnerError};

// The volume: a batch has two writes of eight sectors, and the log four.
const GEOMETRY: Geometry = Geometry {
    sectors: 64,
    max_write: 8,
    batch: 16,
    log: 40,
};

/// No run makes as many steps.
pub const MOST: u64 = 1_000;

/// An owner of a volume whose disk is in memory, and its store.
pub type MemOwner = Owner<MemDisk, MemReceipt>;

pub type Faulty = FaultStore<MemStore>;

// The calls of the store that fail, of which two are done all the same.
const FAULTS: [PlannedFault; 3] = [
    PlannedFault {
        call: 1,
        lands: false,
    },
    PlannedFault {
        call: 3,
        lands: true,
    },
    PlannedFault {
        call: 4,
        lands: true,
    },
];

/// Shows an owner whose batch and log are full time and again, over a store of which calls fail.
pub fn tell_owner(rt: &HostRuntime) -> Result<(), TestError> {
    head(rt, "# An owner of a small log, over a store that fails")?;
    let (mut owner, mut store) = new_owner(rt.alloc(), &FAULTS)?;
    let told = tell_requests(rt, &mut owner, &mut store);
    drop(owner);
    drop(store);
    told
}

/// The owner of a new volume, over a store of which these calls fail from then on.
pub fn new_owner(alloc: Global, faults: &[PlannedFault]) -> Result<(MemOwner, Faulty), TestError> {
    let mut store = MemStore::new(alloc);
    let owner = Owner::new(created(alloc, &mut store, GEOMETRY)?);
    match FaultStore::new(alloc, store, faults) {
        Ok(store) => Ok((owner, store)),
        Err(AllocError) => {
            drop(owner);
            Err(TestError::Memory)
        }
    }
}

fn tell_requests(
    rt: &HostRuntime,
    owner: &mut MemOwner,
    store: &mut Faulty,
) -> Result<(), TestError> {
    for number in 1..13 {
        let answer = write(rt.alloc(), owner, store, number)?;
        println!(rt; "write {number:>2}: {answer:?}")?;
    }
    println!(rt; "the store counted {} faults", store.faults())?;
    tell_drains(rt, owner, store)?;
    tell_image(rt, owner, store)
}

/// Writes a number in eight sectors, the next ones for each, and from the ninth on again.
pub fn write(
    alloc: Global,
    owner: &mut MemOwner,
    store: &mut Faulty,
    number: u8,
) -> Result<Result<u64, OwnerError>, TestError> {
    if MOST < owner.steps() {
        return Err(TestError::Refused);
    }
    let body = Body::filled(alloc, 8, number)?;
    let lba = 8 * u64::from(number.wrapping_sub(1) % 8);
    match owner.write(alloc, store, lba, body) {
        Err(OwnerError::OutOfMemory) => Err(TestError::Memory),
        answer => Ok(answer),
    }
}

/// What a request is to these tests that is not carried out.
pub fn error_of(error: OwnerError) -> TestError {
    match error {
        OwnerError::Range | OwnerError::Eio => TestError::Failed,
        OwnerError::OutOfMemory => TestError::Memory,
    }
}

// Zeroes eight sectors.
fn zero(alloc: Global, owner: &mut MemOwner, store: &mut Faulty) -> Result<u64, TestError> {
    if MOST < owner.steps() {
        return Err(TestError::Refused);
    }
    owner.zero(alloc, store, 8, 8).map_err(error_of)
}

// Drains: what is left is put, with a checkpoint behind it, what no mount needs is removed, and no more than
// that.
fn tell_drains(
    rt: &HostRuntime,
    owner: &mut MemOwner,
    store: &mut Faulty,
) -> Result<(), TestError> {
    tell_drain(rt, owner, store)?;
    tell_drain(rt, owner, store)?;
    zero(rt.alloc(), owner, store)?;
    head(rt, "a zeroing")?;
    tell_drain(rt, owner, store)
}

fn tell_drain(rt: &HostRuntime, owner: &mut MemOwner, store: &mut Faulty) -> Result<(), TestError> {
    let (count, objects) = drain(rt.alloc(), owner, store)?;
    println!(rt; "drained: {count} entries, {objects} objects in the store")?;
    Ok(())
}

/// How many entries the history has after a drain, and how many objects the store.
pub fn drain(
    alloc: Global,
    owner: &mut MemOwner,
    store: &mut Faulty,
) -> Result<(u64, usize), TestError> {
    if MOST < owner.steps() {
        return Err(TestError::Refused);
    }
    let drained = owner.drain(alloc, store).map_err(error_of)?;
    let names = store.list(alloc, owner.uuid())?;
    Ok((drained.entries, names.as_slice().len()))
}

fn tell_image(rt: &HostRuntime, owner: &mut MemOwner, store: &mut Faulty) -> Result<(), TestError> {
    for part in 0..8u8 {
        let lba = 8 * u64::from(part);
        let byte = read(rt.alloc(), owner, store, lba)?;
        println!(rt; "eight sectors from {lba:>2} on: {byte:?}")?;
    }
    Ok(())
}

/// The byte that eight sectors are filled with.
pub fn read(
    alloc: Global,
    owner: &mut MemOwner,
    store: &mut Faulty,
    lba: u64,
) -> Result<Byte, TestError> {
    if MOST < owner.steps() {
        return Err(TestError::Refused);
    }
    let mut cache = ReadCache::new(alloc, 0)?;
    let outcome = owner.read(alloc, store, &mut cache, lba, 8);
    drop(cache);
    let read = outcome.map_err(error_of)?;
    Ok(Byte(filled_with(read.body.as_bytes())))
}
