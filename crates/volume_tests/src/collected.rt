use crate::answer::Objects;
use crate::owned::{Faulty, MOST, MemOwner, drain, error_of, new_owner, read, write};
use crate::step::Byte;
use lsvd_names::{NameKind, ObjName};
use lsvd_objstore::{MemReceipt, PlannedFault, Receipt, Store};
use std::alloc::Global;
use test_output::{TestError, head};
use volume_owner::{OwnerError, Turn};

// The writes before a collection: two objects have two each, and a third one has half of both again.
const WRITES: [u8; 6] = [1, 2, 3, 4, 9, 11];

// The number of the copy: those of the three objects and of their checkpoint come before.
const COPY: u64 = 6;

// How many objects may be on their way to the store.
const MOST_ON_WAY: u64 = 16;

// The calls of the store that fail. Seven come before the collection, which makes two gets, one from each
// source.
const RUNS: [(&str, PlannedFault); 2] = [
    (
        "the first get fails",
        PlannedFault {
            call: 8,
            lands: false,
        },
    ),
    (
        "the second get fails",
        PlannedFault {
            call: 9,
            lands: false,
        },
    ),
];

/// Shows that a collection of which a get failed leaves all as it was, so that the next one makes the same
/// copy; and how many copies wait for their puts.
pub fn tell_collections(rt: &HostRuntime) -> Result<(), TestError> {
    head(rt, "# Collections over a store that fails")?;
    let wanted = tell_run(rt, "no call fails", &[])?;
    let told = tell_failing_runs(rt, &wanted);
    drop(wanted);
    told?;
    tell_full(rt)?;
    tell_whole(rt)
}

// Makes the runs of which a call fails, after which the same copy is wanted.
fn tell_failing_runs(rt: &HostRuntime, wanted: &[u8]) -> Result<(), TestError> {
    for (name, fault) in &RUNS {
        let copy = tell_run(rt, name, &[*fault])?;
        let is_same = copy.as_slice() == wanted;
        drop(copy);
        println!(rt; "it is the same copy: {is_same}")?;
    }
    Ok(())
}

// Makes one run, and gives the bytes of its copy.
fn tell_run(rt: &HostRuntime, name: &str, faults: &[PlannedFault]) -> Result<Vec<u8>, TestError> {
    head(rt, name)?;
    let (mut owner, mut store) = new_owner(rt.alloc(), faults)?;
    let told = tell_collection(rt, &mut owner, &mut store);
    drop(owner);
    drop(store);
    told
}

// Collects before there is anything to copy, then until a copy is sealed, and once more when that is settled.
fn tell_collection(
    rt: &HostRuntime,
    owner: &mut MemOwner,
    store: &mut Faulty,
) -> Result<Vec<u8>, TestError> {
    tell_turn(rt, owner, store)?;
    fill(rt.alloc(), owner, store)?;
    tell_drain(rt, owner, store)?;
    if tell_turn(rt, owner, store)? {
        tell_image(rt, owner, store)?;
        tell_turn(rt, owner, store)?;
    }
    tell_image(rt, owner, store)?;
    tell_drain(rt, owner, store)?;
    tell_image(rt, owner, store)?;
    tell_turn(rt, owner, store)?;
    copy_bytes(rt.alloc(), owner, store)
}

// Makes a run in which no copy is put before as many wait as may.
fn tell_full(rt: &HostRuntime) -> Result<(), TestError> {
    head(rt, "# Collections without puts")?;
    let (mut owner, mut store) = new_owner(rt.alloc(), &[])?;
    let told = tell_waiting(rt, &mut owner, &mut store);
    drop(owner);
    drop(store);
    told
}

// Collects as often as copies may wait, and once more, and then puts them all.
fn tell_waiting(
    rt: &HostRuntime,
    owner: &mut MemOwner,
    store: &mut Faulty,
) -> Result<(), TestError> {
    fill(rt.alloc(), owner, store)?;
    tell_drain(rt, owner, store)?;
    for _ in 0..MOST_ON_WAY {
        let Ok(Turn::Did { .. }) = turn(rt.alloc(), owner, store)? else {
            return Err(TestError::Refused);
        };
    }
    println!(rt; "{MOST_ON_WAY} copies were sealed")?;
    tell_turn(rt, owner, store)?;
    tell_image(rt, owner, store)?;
    tell_drain(rt, owner, store)?;
    tell_image(rt, owner, store)
}

// Makes two whole collections, of which the second finds nothing to copy.
fn tell_whole(rt: &HostRuntime) -> Result<(), TestError> {
    head(rt, "# Whole collections")?;
    let (mut owner, mut store) = new_owner(rt.alloc(), &[])?;
    let told = tell_collected(rt, &mut owner, &mut store);
    drop(owner);
    drop(store);
    told
}

fn tell_collected(
    rt: &HostRuntime,
    owner: &mut MemOwner,
    store: &mut Faulty,
) -> Result<(), TestError> {
    fill(rt.alloc(), owner, store)?;
    for _ in 0..2 {
        if MOST < owner.steps() {
            return Err(TestError::Refused);
        }
        let collected = owner.collect_all(rt.alloc(), store).map_err(error_of)?;
        println!(rt; "collected: {collected:?}")?;
        tell_image(rt, owner, store)?;
    }
    tell_drain(rt, owner, store)
}

fn fill(alloc: Global, owner: &mut MemOwner, store: &mut Faulty) -> Result<(), TestError> {
    for number in WRITES {
        write(alloc, owner, store, number)?.map_err(error_of)?;
    }
    Ok(())
}

// One turn of a collection.
fn turn(
    alloc: Global,
    owner: &mut MemOwner,
    store: &mut Faulty,
) -> Result<Result<Turn, OwnerError>, TestError> {
    if MOST < owner.steps() {
        return Err(TestError::Refused);
    }
    match owner.collect(alloc, store) {
        Err(OwnerError::OutOfMemory) => Err(TestError::Memory),
        answer => Ok(answer),
    }
}

// Tells what a turn answers, and answers itself whether it failed.
fn tell_turn(
    rt: &HostRuntime,
    owner: &mut MemOwner,
    store: &mut Faulty,
) -> Result<bool, TestError> {
    let answer = turn(rt.alloc(), owner, store)?;
    println!(rt; "collect: {answer:?}, {} faults so far", store.faults())?;
    Ok(answer.is_err())
}

// Drains, and tells which objects of the stream the store has then.
fn tell_drain(rt: &HostRuntime, owner: &mut MemOwner, store: &mut Faulty) -> Result<(), TestError> {
    drain(rt.alloc(), owner, store)?;
    let numbers = numbers_of(rt.alloc(), owner, store)?;
    let told = println!(rt; "drained: {:?} in the store", Objects::of(&numbers));
    drop(numbers);
    told.map_err(TestError::from)
}

// The numbers of the objects of the stream that the store has.
fn numbers_of(alloc: Global, owner: &MemOwner, store: &mut Faulty) -> Result<Vec<u64>, TestError> {
    let names = store.list(alloc, owner.uuid())?;
    let numbers = names
        .as_slice()
        .iter()
        .filter(|name| name.kind == NameKind::Object)
        .map(|name| name.number)
        .collect(alloc);
    drop(names);
    Ok(numbers?)
}

// The byte of each eight sectors.
fn tell_image(rt: &HostRuntime, owner: &mut MemOwner, store: &mut Faulty) -> Result<(), TestError> {
    let mut bytes = [Byte(0xee); 8];
    for (part, byte) in bytes.iter_mut().enumerate() {
        *byte = read(rt.alloc(), owner, store, (part as u64).wrapping_mul(8))?;
    }
    println!(rt; "read: {bytes:?}")?;
    Ok(())
}

// The bytes of the copy in the store.
fn copy_bytes(alloc: Global, owner: &MemOwner, store: &mut Faulty) -> Result<Vec<u8>, TestError> {
    let name = ObjName::object(owner.uuid(), COPY);
    match store.find(alloc, &name)? {
        Some(receipt) => bytes_of(alloc, store, &receipt),
        None => Err(TestError::Refused),
    }
}

// The bytes of the object that a receipt stands for.
fn bytes_of(alloc: Global, store: &mut Faulty, receipt: &MemReceipt) -> Result<Vec<u8>, TestError> {
    let mut bytes = vec![in alloc; 0u8; receipt.len() as usize]?;
    store.get(receipt, 0, bytes.as_mut_slice())?;
    Ok(bytes)
}
