// Cache devices that are not as the program leaves them.
use crate::bytes::{UUID, add_commit, add_record};
use lsvd_device::{Disk, MemDisk};
use std::alloc::{AllocError, Global};
use test_output::TestError;

/// The bytes of the device: a log of 64 sectors.
pub const SIZE: u64 = 4_096 + 512 * 64;

/// Those of a device whose log is a sector too short for the volume.
pub const SHORT: u64 = 4_096 + 512 * 17;

/// What the device has: a commit, and one record, from the first sector of the log to its head.
#[derive(Clone, Copy)]
pub struct Cache {
    pub uuid: [u8; 16],
    pub epoch: u64,
    /// The number of the commit, in whose slot it stands.
    pub commit: u64,
    /// The kind that the record says, which is 1.
    pub kind: u32,
    /// The seq that it says, which is 2.
    pub seq: u64,
}

/// That of the volume, with the third of its entries.
pub const LEFT: Cache = Cache {
    uuid: UUID,
    epoch: 0,
    commit: 0,
    kind: 1,
    seq: 2,
};

/// A device of this size that has this, or nothing.
pub fn device(alloc: Global, size: u64, cache: Option<Cache>) -> Result<MemDisk, TestError> {
    let mut disk = MemDisk::new(alloc, size)?;
    if let Some(cache) = cache {
        fill(alloc, &mut disk, &cache)?;
    }
    Ok(disk)
}

fn fill(alloc: Global, disk: &mut MemDisk, cache: &Cache) -> Result<(), TestError> {
    write(disk, 1_024 * (cache.commit % 3), commit_of(alloc, cache)?)?;
    write(disk, 4_096, record_of(alloc, cache)?)?;
    disk.sync()?;
    Ok(())
}

// The tail is at the first sector and has the seq 2, and the head is behind a record of two sectors.
fn commit_of(alloc: Global, cache: &Cache) -> Result<Vec<u8>, AllocError> {
    let mut bytes = Vec::new(alloc);
    let numbers = [cache.epoch, cache.commit, 0, 2, 2, 3];
    add_commit(&mut bytes, &cache.uuid, &numbers)?;
    Ok(bytes)
}

fn record_of(alloc: Global, cache: &Cache) -> Result<Vec<u8>, AllocError> {
    let mut bytes = Vec::new(alloc);
    add_record(&mut bytes, cache.kind, cache.seq)?;
    Ok(bytes)
}

fn write(disk: &mut MemDisk, at: u64, bytes: Vec<u8>) -> Result<(), TestError> {
    let written = write_slice(disk, at, bytes.as_slice());
    drop(bytes);
    written
}

fn write_slice(disk: &mut MemDisk, at: u64, bytes: &[u8]) -> Result<(), TestError> {
    let size = bytes.len() as u64;
    if disk.len() < size || disk.len() - size < at {
        return Err(TestError::Failed);
    }
    disk.write(at, bytes)?;
    Ok(())
}
