ghost use Rattle.std.specs.Prelude.{◌≡◌, ◌+◌, IsTrue, IfOk, IfErr, IfSome, length};
ghost use Rattle.lsvd_base.specs.Limits.{is_within_limits};
ghost use Rattle.lsvd_fault.specs.Faults.{Counts};
ghost use Rattle.lsvd_device.specs.Device.{IsDisk};
ghost use Rattle.lsvd_objstore.specs.Objects.{AreNamesOf, Lists};
ghost use Rattle.lsvd_objstore.specs.Store.{Becomes};
ghost use Rattle.commit_slot.specs.Slots.{log_of};
ghost use Rattle.stopped_volume.specs.Store.{TellsBytes};
ghost use Rattle.object_recovery.specs.Checkpoints.{expected_of};
ghost use Rattle.object_recovery.specs.Recovery.{RemovesAllPast, MayRemovePast};
ghost use Rattle.vol_mount.specs.Epochs.{BeginsEpoch, MayBeginEpoch};
ghost use Rattle.vol_mount.specs.Mounts.{MountsWithoutCache};
ghost use Rattle.vol_mount.specs.Steps.{RecoversAlone, RefusesAlone, ends_by_store};

use crate::error::MountError;
use crate::mounted::{Mounted, assemble};
use crate::recovery::recover_list;
use crate::stored::StoredVolume;
use crate::worn::worn_number;
use cache_log::CacheLog;
use lsvd_device::Disk;
use lsvd_objstore::Store;
use obj_log::ObjLog;
use refusals::Refusal;
use std::alloc::Global;
use super_recovery::put_epoch;

/// Mounts a volume without its cache, on a device that is formatted anew: recovers the list of its objects,
/// removes the objects past the first missing number, puts the next epoch, and formats the device in that.
/// The history has the entries of the objects.
///
/// The store has the volume with these sizes, this is its newest epoch, and these are the names of all that
/// it has of it. The geometry is within the limits, its log has just the sectors of the device past byte
/// 4,096, and the device is a disk (conditions). The log may be of another length than the volume's was. A
/// volume is mounted only where the store passes all tests. Of each plain volume that it has it makes what
/// such a mount is to make. An error comes with the device, which is a disk still. What is tested comes in
/// this order, and each error says that the tests before it were passed:
///
/// - `NoCheckpoint`, `BadObject`, `MissingObject`: the objects are refused.
/// - `Worn`: the epoch, the greatest number of an object, or the count of entries is 2^60 or more.
/// - `StoreFault`, `DeviceFault`: a call of the store, or of the device, failed, which ended the mount. The
///   store has what it had, perhaps without objects past the first missing number, and perhaps with the next
///   epoch, where none of these is left.
/// - `OutOfMemory`: memory ran out.
pub fn mount_without_cache<D: Disk, S: Store>(
    alloc: Global,
    disk: D,
    store: &mut S,
    volume: StoredVolume,
) -> Result<Mounted<D, S::Receipt>, (D, MountError)>
    requires limits { IsTrue (is_within_limits volume.geometry) }
    requires names { AreNamesOf volume.uuid volume.names }
    requires listed { IfSome (S.state store.old).objects (λ objects. Lists volume.uuid objects volume.names) }
    requires is_disk { IsDisk (D.state disk) }
    requires log { volume.geometry.log ≡ log_of (D.state disk).size }
    ensures { MountsWithoutCache D.state (TellsBytes S.Receipt.state) volume.uuid volume.geometry volume.chain
        volume.epoch (D.state disk) (S.state store.old) (S.state store.new) result }
{
    let (uuid, epoch) = (volume.uuid, volume.epoch);
    let objects = match begin_epoch(alloc, store, volume) {
        Ok(objects) => objects,
        Err(error) => return Err((disk, error)),
    };
    let end = objects.uploads().end();
    match CacheLog::format(alloc, disk, uuid.into_bytes(), epoch + 1, end) {
        Ok(log) => Ok(assemble(alloc, objects, log)),
        Err((disk, failed)) => {
            drop(objects);
            Err((disk, failed.into()))
        }
    }
}

// The list of a volume. The objects past the first missing number are removed, and the next epoch is put. The
// geometry is within the limits, and the names are those of all that the store has of it (conditions).
fn begin_epoch<S: Store>(
    alloc: Global,
    store: &mut S,
    volume: StoredVolume,
) -> Result<ObjLog<S::Receipt>, MountError>
    requires limits { IsTrue (is_within_limits volume.geometry) }
    requires names { AreNamesOf volume.uuid volume.names }
    requires listed { IfSome (S.state store.old).objects (λ objects. Lists volume.uuid objects volume.names) }
    ensures ok { IfOk result (RecoversAlone (TellsBytes S.Receipt.state) volume.uuid volume.geometry
        volume.chain volume.epoch (S.state store.old).objects) }
    ensures begun { IfOk result (λ log.
        Becomes (BeginsEpoch volume.uuid log.uploads.window.last (volume.epoch + 1))
        (S.state store.old).objects (S.state store.new).objects) }
    ensures err { IfErr result (RefusesAlone (TellsBytes S.Receipt.state) volume.uuid volume.geometry
        volume.chain volume.epoch (MayBeginEpoch (TellsBytes S.Receipt.state)
        (expected_of volume.uuid volume.geometry (length volume.chain)) (volume.epoch + 1))
        (S.state store.old).objects (S.state store.new).objects) }
    ensures faults { Counts (ends_by_store result) (S.state store.old).faults (S.state store.new).faults }
{
    let (uuid, epoch) = (volume.uuid, volume.epoch);
    let objects = recover_alone(alloc, store, volume)?;
    if let Err(error) = put_epoch(alloc, store, uuid, epoch + 1) {
        drop(objects);
        return Err(error.into());
    }
    Ok(objects)
}

// The list of a volume, where neither its epoch, nor a number of its objects, nor the count of its entries is
// too great. The objects past the first missing number are removed. The geometry is within the limits, and
// the names are those of all that the store has of it (conditions).
fn recover_alone<S: Store>(
    alloc: Global,
    store: &mut S,
    volume: StoredVolume,
) -> Result<ObjLog<S::Receipt>, MountError>
    requires limits { IsTrue (is_within_limits volume.geometry) }
    requires names { AreNamesOf volume.uuid volume.names }
    requires listed { IfSome (S.state store.old).objects (λ objects. Lists volume.uuid objects volume.names) }
    ensures ok { IfOk result (RecoversAlone (TellsBytes S.Receipt.state) volume.uuid volume.geometry
        volume.chain volume.epoch (S.state store.old).objects) }
    ensures removed { IfOk result (λ log. Becomes (RemovesAllPast volume.uuid log.uploads.window.last)
        (S.state store.old).objects (S.state store.new).objects) }
    ensures err { IfErr result (RefusesAlone (TellsBytes S.Receipt.state) volume.uuid volume.geometry
        volume.chain volume.epoch (MayRemovePast (TellsBytes S.Receipt.state)
        (expected_of volume.uuid volume.geometry (length volume.chain)))
        (S.state store.old).objects (S.state store.new).objects) }
    ensures faults { Counts (ends_by_store result) (S.state store.old).faults (S.state store.new).faults }
{
    let StoredVolume {
        uuid,
        geometry,
        chain,
        epoch,
        names,
    } = volume;
    let recovered = recover_list(alloc, store, uuid, geometry, &chain, names)?;
    let end = recovered.log().uploads().end();
    let numbers = [epoch, recovered.greatest_number(), end];
    if let Some(value) = worn_number(&numbers) {
        drop(recovered);
        return Err(MountError::Refused(Refusal::Worn { value }));
    }
    if let Err(error) = recovered.remove_past(alloc, store) {
        drop(recovered);
        return Err(error.into());
    }
    Ok(recovered.into_log())
}
