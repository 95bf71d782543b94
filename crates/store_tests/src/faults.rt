use crate::directories::PATH;
use crate::names::{EPOCH, HOLD, OBJECT, name};
use crate::objects::put;
use lsvd_objstore::{DirReceipt, DirStore, Receipt, Store, StoreError};
use std::fs;
use test_output::{TestError, head, tell};

const EPOCH_FILE: &str = "store/00000000-0000-4000-8000-000000000001.epoch.0000000000000001";

const MOVED: &str = "moved";

/// Writes which calls of a store over a directory fail.
pub fn tell_all(rt: &HostRuntime, store: &mut DirStore) -> Result<(), TestError> {
    tell_replaced(rt, store)?;
    tell_no_file(rt, store)?;
    let held = put(rt.alloc(), store, HOLD, b"held")?;
    fs::rename(rt, PATH, MOVED)?;
    head(
        rt,
        "The directory has another name: what is found, listed, put, removed and cleared, and the faults",
    )?;
    tell_moved(rt, store, &held)?;
    fs::create_dir(rt, PATH)?;
    head(rt, "Another directory has its name")?;
    tell_moved(rt, store, &held)?;
    let kind = store.last_error().map(|error| error.kind());
    tell(rt, "the last error", &kind)?;
    fs::remove_dir_all(rt, MOVED)?;
    fs::remove_dir_all(rt, PATH)?;
    Ok(())
}

// What was put is read in place of what was there, and what was there cannot be read any more.
fn tell_replaced(rt: &HostRuntime, store: &mut DirStore) -> Result<(), TestError> {
    head(
        rt,
        "An object that is replaced by one of another length, and is removed: is it read",
    )?;
    let old = put(rt.alloc(), store, OBJECT, b"old")?;
    tell(rt, "the old one", &is_read(store, &old))?;
    let newer = put(rt.alloc(), store, OBJECT, b"newer")?;
    tell(rt, "the new one", &is_read(store, &newer))?;
    tell(rt, "the old one then", &is_read(store, &old))?;
    store.remove(&newer)?;
    tell(
        rt,
        "the new one when it is removed",
        &is_read(store, &newer),
    )?;
    tell(rt, "faults", &store.faults())
}

// Whether the first three bytes of a receipt can be read.
fn is_read(store: &mut DirStore, receipt: &DirReceipt) -> bool {
    3 <= receipt.len() && store.get(receipt, 0, &mut [0xff; 3]).is_ok()
}

fn tell_no_file(rt: &HostRuntime, store: &mut DirStore) -> Result<(), TestError> {
    head(
        rt,
        "A directory has the name of an epoch: is a name looked for",
    )?;
    fs::create_dir(rt, EPOCH_FILE)?;
    tell(rt, "that epoch's", &is_asked(rt, store, EPOCH)?)?;
    tell(rt, "a hold's", &is_asked(rt, store, HOLD)?)?;
    tell(rt, "faults", &store.faults())
}

// Whether a search is answered, and is no fault.
fn is_asked(rt: &HostRuntime, store: &mut DirStore, text: &str) -> Result<bool, TestError> {
    match store.find(rt.alloc(), &name(text)?) {
        Ok(_) => Ok(true),
        Err(StoreError::Failed) => Ok(false),
        Err(StoreError::OutOfMemory) => Err(TestError::Memory),
    }
}

fn tell_moved(rt: &HostRuntime, store: &mut DirStore, held: &DirReceipt) -> Result<(), TestError> {
    let is_asked = is_asked(rt, store, HOLD)?;
    let is_listed = store.list(rt.alloc(), name(HOLD)?.uuid).is_ok();
    let is_put = put(rt.alloc(), store, HOLD, b"another").is_ok();
    let is_removed = store.remove(held).is_ok();
    let is_cleared = store.clear().is_ok();
    let faults = store.faults();
    println!(rt; "  {is_asked} {is_listed} {is_put} {is_removed} {is_cleared} {faults}")?;
    Ok(())
}
