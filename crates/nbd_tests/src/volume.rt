ghost use Rattle.std.specs.Prelude.{◌≡◌, [], IfOk};

use crate::greeting::{Asking, input_of};
use lsvd_base::Geometry;
use lsvd_device::{Disk, FuseDisk, MemDisk};
use lsvd_fault::{MemLink, MemSink, MemSource};
use lsvd_objstore::{MemReceipt, MemStore};
use nbd_session::{SessionEnd, serve_session};
use read_cache::ReadCache;
use std::alloc::{AllocError, Global};
use test_output::TestError;
use uuid::Uuid;
use vol_recover::{CreateError, create};
use volume_owner::a_new_volume_is_idle;
use volume_server::OwnerDevice;

// The volume, of 32,768 bytes, whose requests have at most 4,096.
const GEOMETRY: Geometry = Geometry {
    sectors: 64,
    max_write: 8,
    batch: 16,
    log: 64,
};

const UUID: [u8; 16] = [0, 0, 0, 0, 0, 0, 0x40, 0, 0x80, 0, 0, 0, 0, 0, 0, 1];

// The bytes of its device.
const SIZE: u64 = 4_096 + 512 * 64;

/// The volume as the block device of sessions.
pub type TestDevice = OwnerDevice<FuseDisk<MemDisk>, MemReceipt>;

/// A cache of a few blocks of objects.
pub fn cache_of(alloc: Global) -> Result<ReadCache<MemReceipt>, AllocError> {
    ReadCache::new(alloc, 4)
}

/// That of a new volume with this store, on a disk that passes so many calls, or all.
pub fn device_of(
    alloc: Global,
    fuse: Option<u64>,
    store: &mut MemStore,
) -> Result<TestDevice, TestError> {
    let cache = cache_of(alloc)?;
    let disk = MemDisk::new(alloc, SIZE)?;
    let _is_disk = disk.len();
    let disk = FuseDisk::new(disk, fuse);
    match create(alloc, disk, store, Uuid::from_bytes(UUID), GEOMETRY) {
        Ok(volume) => {
            a_new_volume_is_idle();
            let device = OwnerDevice::new(volume, cache);
            Ok(device)
        }
        Err((disk, error)) => {
            drop(disk);
            drop(cache);
            Err(error_of(error))
        }
    }
}

// What a creation that fails is to these tests.
fn error_of(error: CreateError) -> TestError {
    match error {
        CreateError::OutOfMemory => TestError::Memory,
        CreateError::Exists | CreateError::StoreFault | CreateError::DeviceFault => {
            TestError::Failed
        }
    }
}

/// Serves a new volume on the link.
pub fn serve(
    alloc: Global,
    link: &mut MemLink,
    fuse: Option<u64>,
) -> Result<SessionEnd, TestError> {
    let mut store = MemStore::new(alloc);
    let mut device = device_of(alloc, fuse, &mut store)?;
    let end = serve_session(alloc, &mut device, link, &mut store);
    drop(device);
    drop(store);
    Ok(end)
}

/// A link on which a client sends these bytes.
pub fn link_of(alloc: Global, input: &[u8]) -> Result<MemLink, AllocError>
    ensures { IfOk result (λ link. link.taken ≡ []) }
{
    let source = MemSource::new(input.to_vec(alloc)?);
    Ok(MemLink::new(source, MemSink::new(alloc)))
}

/// A link on which a client makes these requests.
pub fn link_with(alloc: Global, askings: &[Asking]) -> Result<MemLink, AllocError>
    ensures { IfOk result (λ link. link.taken ≡ []) }
{
    let input = input_of(alloc, askings)?;
    let link = link_of(alloc, input.as_slice());
    drop(input);
    link
}
