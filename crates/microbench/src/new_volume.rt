ghost use Rattle.std.specs.Prelude.{IfOk};
ghost use Rattle.volume_owner.specs.Owner.{IsIdle};

use crate::disk::PlainBytes;
use crate::error::BenchError;
use crate::receipt::PlainReceipt;
use commit_slot::LOG_START;
use lsvd_base::{Geometry, SECTOR_BYTES};
use lsvd_names::ObjName;
use std::alloc::Global;
use uuid::Uuid;
use vol_core::{Volume, create, new_list};
use volume_owner::a_new_volume_is_idle;

// The uuid of the volume.
const UUID: [u8; 16] = [1; 16];

/// A volume without entries, on a disk in memory. No store has its first object, which is a checkpoint
/// without rows, so that no one looks for it. `Refused` comes for a geometry that is not within the limits,
/// and out of memory.
pub fn new_volume(
    alloc: Global,
    geometry: Geometry,
) -> Result<Volume<PlainBytes, PlainReceipt>, BenchError>
    ensures { IfOk result (λ stepped. IsIdle stepped.volume) }
{
    if !geometry.is_within_limits() {
        return Err(BenchError::Refused);
    }
    let disk = PlainBytes::new(alloc, LOG_START + SECTOR_BYTES * geometry.log)?;
    let uuid = Uuid::from_bytes(UUID);
    let first = PlainReceipt::new(ObjName::object(uuid, 1), 0);
    let objects = new_list(alloc, uuid, geometry, first)?;
    a_new_volume_is_idle();
    match create(alloc, disk, objects) {
        Ok(volume) => Ok(volume),
        Err((disk, failed)) => {
            drop(disk);
            Err(failed.into())
        }
    }
}
