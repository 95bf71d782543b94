use crate::answer::{Answer, kept, lost};
use lsvd_device::Disk;
use lsvd_objstore::Store;
use std::alloc::Global;

/// How a volume is mounted.
#[derive(Clone, Copy)]
pub enum Mount {
    /// With its cache.
    Kept,
    /// Without it.
    Lost,
}

/// What a mount on this device answers. The device is given back.
pub fn mounted<D: Disk + Drop, S: Store>(
    alloc: Global,
    mount: Mount,
    disk: D,
    store: &mut S,
) -> (D, Answer) {
    match mount {
        Mount::Kept => kept(alloc, disk, store),
        Mount::Lost => lost(alloc, disk, store),
    }
}
