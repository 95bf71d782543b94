use crate::directories::PATH;
use crate::names::{OBJECT, OTHER_SUPER, SUPER, THIRD_SUPER};
use crate::objects::is_held;
use crate::walk::tell_list;
use lsvd_objstore::DirStore;
use std::fs;
use std::fs::File;
use test_output::{TestError, head, tell};

// Files that are no objects' and were left by no put.
const OTHERS: &[&str] = &[
    "store/notes",
    "store/00000000-0000-4000-8000-000000000001.obj.2",
    "store/00000000-0000-4000-8000-000000000001.super.backup",
    "store/00000000-0000-4000-8000-000000000001.super.0123456789abcdeg.put",
];

// A file that a put left which was stopped.
const LEFT: &str =
    "store/00000000-0000-4000-8000-000000000001.obj.0000000000000002.0000000000000001.put";

// A file that a put is writing.
const GROWING: &str =
    "store/00000000-0000-4000-8000-000000000001.epoch.0000000000000001.ffffffffffffffff.put";

/// Opens the store again, and writes what it holds and what is cleared beside other files.
pub fn tell_all(rt: &HostRuntime) -> Result<(), TestError> {
    for file in OTHERS {
        fs::write(rt, file, b"1".as_slice())?;
    }
    fs::write(rt, LEFT, b"half".as_slice())?;
    let writer = File::create(rt, GROWING)?;
    let told = tell_opened(rt, &writer);
    drop(writer);
    told
}

fn tell_opened(rt: &HostRuntime, writer: &File) -> Result<(), TestError> {
    let is_locked = writer.try_lock().is_ok();
    let mut store = DirStore::open(rt, PATH)?;
    let told = tell_store(rt, &mut store, writer, is_locked);
    drop(store);
    told
}

fn tell_store(
    rt: &HostRuntime,
    store: &mut DirStore,
    writer: &File,
    is_locked: bool,
) -> Result<(), TestError> {
    head(rt, "That directory with other files, opened again")?;
    tell_held(rt, store)?;
    tell_locked(rt, store, is_locked)?;
    writer.unlock()?;
    store.clear()?;
    tell_cleared(rt, store)
}

fn tell_locked(rt: &HostRuntime, store: &mut DirStore, is_locked: bool) -> Result<(), TestError> {
    head(
        rt,
        "It is cleared while a put is under way: is the lock had, and what is there of the two puts",
    )?;
    store.clear()?;
    println!(rt;
        "  {is_locked} {} {}",
        fs::exists(rt, LEFT)?,
        fs::exists(rt, GROWING)?
    )?;
    Ok(())
}

fn tell_held(rt: &HostRuntime, store: &mut DirStore) -> Result<(), TestError> {
    for volume in [SUPER, OTHER_SUPER, THIRD_SUPER] {
        tell_list(rt, store, volume)?;
    }
    let is_whole = is_held(rt.alloc(), store, OBJECT, OBJECT.as_bytes())?;
    tell(rt, "an object has its bytes", &is_whole)
}

fn tell_cleared(rt: &HostRuntime, store: &mut DirStore) -> Result<(), TestError> {
    head(rt, "It is cleared again, after that put")?;
    tell(rt, "the put's file", &fs::exists(rt, GROWING)?)?;
    for file in OTHERS {
        println!(rt; "  {file}: {}", fs::exists(rt, file)?)?;
    }
    tell_held(rt, store)
}
