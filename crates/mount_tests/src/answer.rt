use crate::bytes::UUID;
use crate::cache::SIZE;
use lsvd_base::Geometry;
use lsvd_device::Disk;
use lsvd_objstore::Store;
use std::alloc::Global;
use uuid::Uuid;
use vol_mount::MountError;
use vol_recover::{CreateError, create, mount_kept, mount_lost};

/// What a creation or a mount answers.
#[derive(Clone, Copy, Debug, PartialEq, Eq)]
pub enum Answer {
    Created,
    NotCreated(CreateError),
    /// With so many entries, and its objects up to that number.
    Mounted { entries: u64, number: u64 },
    NotMounted(MountError),
    /// The sizes do not fit, so nothing was asked.
    NotAsked,
}

// The sizes of the volume.
const GEOMETRY: Geometry = Geometry {
    sectors: 64,
    max_write: 8,
    batch: 16,
    log: 64,
};

/// Creates the volume. The device is given back.
pub fn created<D: Disk + Drop, S: Store>(alloc: Global, disk: D, store: &mut S) -> (D, Answer) {
    if disk.len() == SIZE && GEOMETRY.is_within_limits() {
        match create(alloc, disk, store, Uuid::from_bytes(UUID), GEOMETRY) {
            Ok(volume) => (volume.into_disk(), Answer::Created),
            Err((disk, error)) => (disk, Answer::NotCreated(error)),
        }
    } else {
        (disk, Answer::NotAsked)
    }
}

/// Mounts the volume with this device as its cache. The device is given back.
pub fn kept<D: Disk + Drop, S: Store>(alloc: Global, disk: D, store: &mut S) -> (D, Answer) {
    let _is_disk = disk.len();
    match mount_kept(alloc, disk, store, Uuid::from_bytes(UUID)) {
        Ok(mounted) => {
            let answer = mounted_as(mounted.entries, mounted.number);
            (mounted.volume.into_disk(), answer)
        }
        Err((disk, error)) => (disk, Answer::NotMounted(error)),
    }
}

/// Mounts the volume without its cache, on this device, which is given back.
pub fn lost<D: Disk + Drop, S: Store>(alloc: Global, disk: D, store: &mut S) -> (D, Answer) {
    let _is_disk = disk.len();
    match mount_lost(alloc, disk, store, Uuid::from_bytes(UUID)) {
        Ok(mounted) => {
            let answer = mounted_as(mounted.entries, mounted.number);
            (mounted.volume.into_disk(), answer)
        }
        Err((disk, error)) => (disk, Answer::NotMounted(error)),
    }
}

fn mounted_as(entries: u64, number: u64) -> Answer {
    Answer::Mounted { entries, number }
}
