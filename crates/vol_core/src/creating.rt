ghost use Rattle.std.specs.Prelude.{◌≡◌, ℕ, IsTrue, IfOk};
ghost use Rattle.lsvd_base.specs.Limits.{is_within_limits};
ghost use Rattle.lsvd_device.specs.Device.{IsDisk};
ghost use Rattle.lsvd_names.specs.Names.{numbered_name};
ghost use Rattle.commit_slot.specs.Slots.{log_of};
ghost use Rattle.vol_core.specs.Creating.{IsNewList, CreateOf};

use crate::volume::Volume;
use cache_log::CacheLog;
use lsvd_base::Geometry;
use lsvd_device::Disk;
use lsvd_fault::Failed;
use lsvd_objstore::Receipt;
use obj_log::ObjLog;
use std::alloc::{AllocError, Global};
use uuid::Uuid;

// The number of the first object, a checkpoint without rows.
const FIRST_OBJECT: u64 = 1;

/// The list of a volume that is created, which begins with its first object, a checkpoint of no sectors, and
/// has no ancestors. The geometry is within the limits, and the receipt has the name of that object
/// (conditions). The one error is that memory ran out.
pub fn new_list<R: Receipt>(
    alloc: Global,
    uuid: Uuid,
    geometry: Geometry,
    receipt: R,
) -> Result<ObjLog<R>, AllocError>
    requires limits { IsTrue (is_within_limits geometry) }
    requires named { (R.state receipt).name ≡ numbered_name uuid FIRST_OBJECT }
    ensures { IfOk result (IsNewList uuid geometry) }
{
    let mut objects = ObjLog::new(alloc, uuid, geometry, 0, FIRST_OBJECT, 0);
    objects.uploads_mut().begin(receipt)?;
    Ok(objects)
}

/// Creates a volume with this list on its cache device, which is formatted. The volume has no entries, and
/// its one object is the one with the number 1, a checkpoint of no sectors, which the caller has put into the
/// store.
///
/// The list is that of a new volume, whose geometry is within the limits, and its log has just the sectors of
/// the device past byte 4,096 (conditions). `Failed` comes with the device where a call of it failed; it is
/// to be formatted again. The device is asked for the calls of formatting alone, of which those are made that
/// its fuse passes, where it has room for them; and where it tells what it holds too, nothing is pending
/// then.
pub fn create<D: Disk, R: Receipt>(
    alloc: Global,
    disk: D,
    objects: ObjLog<R>,
) -> Result<Volume<D, R>, (D, Failed)>
    requires list { IsNewList objects.uploads.uuid objects.batch.geometry objects }
    requires limits { IsTrue (is_within_limits objects.batch.geometry) }
    requires log { objects.batch.geometry.log ≡ log_of (D.state disk).size }
    requires is_disk { IsDisk (D.state disk) }
    ensures { CreateOf D.state objects.uploads.uuid objects.batch.geometry (D.state disk) result }
{
    let uuid = objects.uploads().uuid();
    let log = match CacheLog::format(alloc, disk, uuid.into_bytes(), 0, 0) {
        Ok(log) => log,
        Err(failed) => {
            drop(objects);
            return Err(failed);
        }
    };
    Ok(Volume::new(alloc, objects, log))
}
