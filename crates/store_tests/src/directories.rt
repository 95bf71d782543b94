use crate::names::{EPOCH, HOLD, LAST, LATER, OBJECT, OTHER_HOLD, OTHER_SUPER, SUPER};
use crate::objects::put;
use crate::walk::walk;
use crate::{faults, leftovers, open_files};
use lsvd_objstore::{DirStore, DirectoryError, Store};
use std::alloc::Global;
use std::fs;
use std::io::ErrorKind;
use test_output::{TestError, head, tell};

/// The directory of the store.
pub const PATH: &str = "store";

const FILE: &str = "a file";

/// Writes what a store over a directory holds.
pub fn tell_all(rt: &HostRuntime) -> Result<(), TestError> {
    fs::write(rt, FILE, b"1".as_slice())?;
    tell_none(rt)?;
    fs::remove_file(rt, FILE)?;
    tell_first_use(rt)?;
    leftovers::tell_all(rt)?;
    fs::remove_dir_all(rt, PATH)?;
    tell_second_use(rt)
}

fn tell_none(rt: &HostRuntime) -> Result<(), TestError> {
    head(rt, "A directory that is no store, and why")?;
    tell(
        rt,
        "opened where none is",
        &refused(DirStore::open(rt, PATH)),
    )?;
    tell(rt, "opened at a file", &refused(DirStore::open(rt, FILE)))?;
    tell(rt, "made at a file", &refused(DirStore::create(rt, FILE)))?;
    tell(
        rt,
        "made where nothing is above it",
        &refused(DirStore::create(rt, "none/store")),
    )
}

// Why a directory is no store.
fn refused(outcome: Result<DirStore, DirectoryError>) -> Option<ErrorKind> {
    match outcome {
        Err(DirectoryError::System(error)) => Some(error.kind()),
        Err(DirectoryError::OutOfMemory) => None,
        Ok(store) => {
            drop(store);
            None
        }
    }
}

// Makes the store, and puts objects.
fn tell_first_use(rt: &HostRuntime) -> Result<(), TestError> {
    head(
        rt,
        "A store over a directory: after each put or removal what an object and an epoch have",
    )?;
    let mut store = DirStore::create(rt, PATH)?;
    let told = tell_puts(rt, &mut store);
    drop(store);
    told
}

fn tell_puts(rt: &HostRuntime, store: &mut DirStore) -> Result<(), TestError> {
    walk(rt, store)?;
    put_all(rt.alloc(), store)?;
    tell(rt, "faults", &store.faults())?;
    tell(rt, "an error", &store.last_error().is_some())
}

const NAMES: &[&str] = &[
    LAST,
    OTHER_HOLD,
    HOLD,
    SUPER,
    LATER,
    EPOCH,
    OTHER_SUPER,
    OBJECT,
    EPOCH,
];

fn put_all(alloc: Global, store: &mut DirStore) -> Result<(), TestError> {
    for text in NAMES {
        drop(put(alloc, store, text, text.as_bytes())?);
    }
    Ok(())
}

// Makes the store anew: which files stay open, and which calls are faults.
fn tell_second_use(rt: &HostRuntime) -> Result<(), TestError> {
    let mut store = DirStore::create(rt, PATH)?;
    let told = tell_files_and_faults(rt, &mut store);
    drop(store);
    told
}

fn tell_files_and_faults(rt: &HostRuntime, store: &mut DirStore) -> Result<(), TestError> {
    open_files::tell_all(rt, store)?;
    faults::tell_all(rt, store)
}
