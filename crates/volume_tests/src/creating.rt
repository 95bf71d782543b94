ghost use Rattle.std.specs.Prelude.{IfOk};
ghost use Rattle.volume_owner.specs.Owner.{IsIdle};

use lsvd_base::Geometry;
use lsvd_device::MemDisk;
use lsvd_objstore::{MemReceipt, MemStore};
use std::alloc::Global;
use test_output::TestError;
use uuid::Uuid;
use vol_core::Volume;
use vol_recover::{CreateError, create};
use volume_owner::a_new_volume_is_idle;

/// A volume whose disk and store are in memory.
pub type MemVolume = Volume<MemDisk, MemReceipt>;

const UUID: [u8; 16] = [1; 16];

/// A new one of these sizes, of which the store then has three objects: the super object, the epoch and the
/// first checkpoint.
pub fn created(
    alloc: Global,
    store: &mut MemStore,
    geometry: Geometry,
) -> Result<MemVolume, TestError>
    ensures { IfOk result (λ stepped. IsIdle stepped.volume) }
{
    if !geometry.is_within_limits() {
        return Err(TestError::Refused);
    }
    let mut disk = MemDisk::new(alloc, 4_096 + 512 * geometry.log)?;
    disk.reserve(200, 100_000)?;
    a_new_volume_is_idle();
    match create(alloc, disk, store, Uuid::from_bytes(UUID), geometry) {
        Ok(volume) => Ok(volume),
        Err((disk, error)) => {
            drop(disk);
            Err(error_of(error))
        }
    }
}

// What a creation that fails is to these tests.
fn error_of(error: CreateError) -> TestError {
    match error {
        CreateError::OutOfMemory => TestError::Memory,
        CreateError::Exists | CreateError::StoreFault | CreateError::DeviceFault => {
            TestError::Failed
        }
    }
}
