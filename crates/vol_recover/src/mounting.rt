ghost use Rattle.std.specs.Prelude.{◌≡◌};
ghost use Rattle.lsvd_device.specs.Device.{IsDisk};
ghost use Rattle.commit_slot.specs.Slots.{log_of};
ghost use Rattle.stopped_volume.specs.Store.{TellsBytes};
ghost use Rattle.vol_recover.specs.Mounting.{MountsKept, MountsLost};

use crate::describing::describe;
use commit_slot::LOG_START;
use lsvd_base::SECTOR_BYTES;
use lsvd_device::Disk;
use lsvd_objstore::{Receipt, Store};
use std::alloc::Global;
use uuid::Uuid;
use vol_mount::{MountError, Mounted, mount_with_cache, mount_without_cache, refuse_log};

/// Mounts the volume with this uuid with the cache that it had: finds it in the store, recovers the list of
/// its objects, opens the log up to the head of the commit that the device reads as, takes the entries past
/// the objects' end from it, removes the objects past the first missing number, and makes one commit, whose
/// tail is at that end.
///
/// The device is a disk (a condition). The volume that the store has is mounted only where its objects and
/// the device pass all tests. Of each plain volume that they have it makes what such a mount is to make.
/// Where nothing was pending on the device, whatever a stop leaves of it meanwhile reads as the commit that
/// was found, or as that of the volume which is made, and so does what an error leaves. An error comes with
/// the device, which is a disk still. What is tested comes in this order, and each error says that the tests
/// before it were passed:
///
/// - `NoVolume`, `BadSuper`, `BaseMissing`: the volume as a whole is refused, or an ancestor of it. The
///   device is as it was.
/// - `NoCheckpoint`, `BadObject`, `MissingObject`, `BaseMissing`: its objects, or those of its ancestors, are
///   refused. The device is as it was.
/// - `NoSlot`: the log of the device does not fit the volume, or no slot of the device is open; it was but
///   synced then. After the others that refuse the device it keeps the commit that it reads as.
/// - `WrongVolume`: the commit is of a volume with another uuid.
/// - `StaleCache`: the commit is of another epoch.
/// - `BadRecord`: the log begins past the end of the objects, or has no list of records up to the head.
/// - `Worn`: the number of the commit, the epoch, the greatest number of an object, or the count of entries
///   is 2^60 or more.
/// - `StoreFault`, `DeviceFault`: a call of the store, or of the device, failed, which ended the mount.
/// - `OutOfMemory`: memory ran out.
pub fn mount_kept<D: Disk, S: Store>(
    alloc: Global,
    disk: D,
    store: &mut S,
    uuid: Uuid,
) -> Result<Mounted<D, S::Receipt>, (D, MountError)>
    requires is_disk { IsDisk (D.state disk) }
    ensures { MountsKept D.state (TellsBytes S.Receipt.state) uuid (D.state disk) (S.state store.old)
        (S.state store.new) result }
{
    let described = match describe(alloc, store, uuid, log_sectors(&disk)) {
        Ok(described) => described,
        Err(error) => return Err((disk, error)),
    };
    if !described.geometry.is_within_limits() {
        let error = refuse_log(alloc, store, described);
        return Err((disk, error));
    }
    mount_with_cache(alloc, disk, store, described)
}

/// Mounts the volume with this uuid without its cache, on a device that is formatted anew: finds it in the
/// store, recovers the list of its objects, removes the objects past the first missing number, puts the next
/// epoch, and formats the device in that. The history has the entries of the objects.
///
/// The device is a disk (a condition), whose log may be of another length than the volume's was. The volume
/// that the store has is mounted only where its objects pass all tests. Of each plain volume that it has it
/// makes what such a mount is to make. An error comes with the device, which is a disk still. What is tested
/// comes in this order, and each error says that the tests before it were passed:
///
/// - `NoVolume`, `BadSuper`, `BaseMissing`: the volume as a whole is refused, or an ancestor of it.
/// - `NoCheckpoint`, `BadObject`, `MissingObject`, `BaseMissing`: its objects, or those of its ancestors, are
///   refused.
/// - `NoSlot`: the log of the device does not fit the volume.
/// - `Worn`: the epoch, the greatest number of an object, or the count of entries is 2^60 or more.
/// - `StoreFault`, `DeviceFault`: a call of the store, or of the device, failed, which ended the mount. The
///   store has what it had, perhaps without objects past the first missing number, and perhaps with the next
///   epoch.
/// - `OutOfMemory`: memory ran out.
pub fn mount_lost<D: Disk, S: Store>(
    alloc: Global,
    disk: D,
    store: &mut S,
    uuid: Uuid,
) -> Result<Mounted<D, S::Receipt>, (D, MountError)>
    requires is_disk { IsDisk (D.state disk) }
    ensures { MountsLost D.state (TellsBytes S.Receipt.state) uuid (D.state disk) (S.state store.old)
        (S.state store.new) result }
{
    let described = match describe(alloc, store, uuid, log_sectors(&disk)) {
        Ok(described) => described,
        Err(error) => return Err((disk, error)),
    };
    if !described.geometry.is_within_limits() {
        let error = refuse_log(alloc, store, described);
        return Err((disk, error));
    }
    mount_without_cache(alloc, disk, store, described)
}

// How many sectors the log of a device has: those whole past byte 4,096.
fn log_sectors<D: Disk>(disk: &D) -> u64
    ensures { result ≡ log_of (D.state disk.now).size }
{
    disk.len().saturating_sub(LOG_START) / SECTOR_BYTES
}
