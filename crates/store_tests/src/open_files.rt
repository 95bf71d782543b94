use crate::names::{OBJECT, numbered};
use crate::objects::{is_held, object, part, put};
use lsvd_objstore::{DirStore, Store};
use std::alloc::{AllocError, Global};
use std::fs;
use test_output::{TestError, head, tell};

const LAST_FILE: &str = "store/00000000-0000-4000-8000-000000000001.obj.0000000000000027";

// More than as many files as stay open.
const OBJECTS: u64 = 40;

/// Writes what is read of more objects than files stay open, and of a long one.
pub fn tell_all(rt: &HostRuntime, store: &mut DirStore) -> Result<(), TestError> {
    head(rt, "Forty objects, each read twice")?;
    put_many(rt, store)?;
    let first = count_read(rt, store)?;
    let second = count_read(rt, store)?;
    println!(rt; "  {first} and {second} have their bytes")?;
    tell_removed(rt, store)?;
    tell_long(rt, store)?;
    tell(rt, "faults", &store.faults())
}

fn put_many(rt: &HostRuntime, store: &mut DirStore) -> Result<(), TestError> {
    for number in 0..OBJECTS {
        put_number(rt.alloc(), store, number)?;
    }
    Ok(())
}

fn put_number(alloc: Global, store: &mut DirStore, number: u64) -> Result<(), TestError> {
    let name = numbered(number)?;
    let bytes = object(alloc, &number.to_be_bytes())?;
    let outcome = store.put(alloc, &name, &bytes);
    drop(bytes);
    drop(outcome?);
    Ok(())
}

// How many objects have the bytes of their numbers.
fn count_read(rt: &HostRuntime, store: &mut DirStore) -> Result<u64, TestError> {
    let mut count: u64 = 0;
    for number in 0..OBJECTS {
        if is_number(rt.alloc(), store, number)? {
            count = count.saturating_add(1);
        }
    }
    Ok(count)
}

fn is_number(alloc: Global, store: &mut DirStore, number: u64) -> Result<bool, TestError> {
    let Some(receipt) = store.find(alloc, &numbered(number)?)? else {
        return Ok(false);
    };
    let bytes = part(alloc, store, &receipt, 0, 8)?;
    Ok(is_equal(bytes, &number.to_be_bytes()))
}

fn is_equal(bytes: Vec<u8>, others: &[u8]) -> bool {
    bytes.as_slice() == others
}

// The file of the object that was read last is removed, and its bytes are read from the one that stayed open.
fn tell_removed(rt: &HostRuntime, store: &mut DirStore) -> Result<(), TestError> {
    let Some(last) = store.find(rt.alloc(), &numbered(39)?)? else {
        return Err(TestError::Refused);
    };
    fs::remove_file(rt, LAST_FILE)?;
    tell_end(rt, part(rt.alloc(), store, &last, 6, 2)?)
}

fn tell_end(rt: &HostRuntime, end: Vec<u8>) -> Result<(), TestError> {
    let told = tell(
        rt,
        "the end of the last, whose file is removed",
        &end.as_slice(),
    );
    drop(end);
    told
}

// An object that is written in two whole pieces and a part of one.
fn tell_long(rt: &HostRuntime, store: &mut DirStore) -> Result<(), TestError> {
    let bytes = long(rt.alloc())?;
    let is_same = is_put(rt.alloc(), store, bytes.as_slice());
    drop(bytes);
    tell(rt, "an object of 2,097,157 bytes has its bytes", &is_same?)
}

fn long(alloc: Global) -> Result<Vec<u8>, AllocError> {
    let mut bytes = vec![in alloc; 0x41; 1 << 20]?;
    bytes.resize(2 << 20, 0x42)?;
    bytes.resize((2 << 20) + 5, 0x43)?;
    Ok(bytes)
}

// Puts an object of these bytes, and sees whether it has them.
fn is_put(alloc: Global, store: &mut DirStore, bytes: &[u8]) -> Result<bool, TestError> {
    drop(put(alloc, store, OBJECT, bytes)?);
    is_held(alloc, store, OBJECT, bytes)
}
