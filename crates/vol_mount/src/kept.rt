ghost use Rattle.std.specs.Prelude.{◌≡◌, ◌≤◌, IsTrue, IfOk, IfErr, IfSome, OnOk, length};
ghost use Rattle.lsvd_base.specs.Limits.{is_within_limits};
ghost use Rattle.lsvd_fault.specs.Faults.{Counts};
ghost use Rattle.lsvd_device.specs.Device.{IsDisk};
ghost use Rattle.lsvd_objstore.specs.Objects.{AreNamesOf, Lists};
ghost use Rattle.lsvd_objstore.specs.Store.{Becomes};
ghost use Rattle.commit_slot.specs.Slots.{log_of};
ghost use Rattle.commit_slot.specs.Commits.{CommitsState};
ghost use Rattle.commit_slot.specs.Loading.{MakesAtMost};
ghost use Rattle.stopped_volume.specs.Device.{owner_with};
ghost use Rattle.stopped_volume.specs.Store.{TellsBytes};
ghost use Rattle.object_recovery.specs.Recovery.{IsPastOf, RemovesAllPast};
ghost use Rattle.object_recovery.specs.Removal.{Removes};
ghost use Rattle.object_recovery.specs.State.{HasAllNames};
ghost use Rattle.vol_mount.specs.Mounts.{MountsWithCache};
ghost use Rattle.vol_mount.specs.Refusals.{IsFault};
ghost use Rattle.vol_mount.specs.Costs.{again_cost};
ghost use Rattle.vol_mount.specs.Steps.{IsRecovered, IsOpenedUpTo, IsCompleted, LeavesFrom};
ghost use Rattle.vol_mount.specs.Steps.{passes_device, ends_by_store};

use crate::adding::add_all;
use crate::error::MountError;
use crate::mounted::{Mounted, assemble};
use crate::opening::{Known, open_log};
use crate::recovery::recover_list;
use crate::stored::StoredVolume;
use cache_log::CacheLog;
use lsvd_device::Disk;
use lsvd_objstore::Store;
use obj_log::ObjLog;
use object_recovery::Recovered;
use std::alloc::Global;

/// Mounts a volume with the cache that it had: recovers the list of its objects, opens the log up to the head
/// of the commit that the device reads as, takes the entries past the objects' end from it, removes the
/// objects past the first missing number, and makes one commit, whose tail is at that end.
///
/// The store has the volume with these sizes, this is its newest epoch, and these are the names of all that
/// it has of it. The geometry is within the limits, its log has just the sectors of the device past byte
/// 4,096, and the device is a disk of at least 4,096 bytes (conditions). Objects and device are tested before
/// anything is changed, but that loading mends the slots of the device.
///
/// A volume is mounted only where device and store pass all tests. Of each plain volume that they have it
/// makes what such a mount is to make. Where nothing was pending on the device, whatever a stop leaves of it
/// meanwhile reads as the commit that was found, or as that of the volume which is made, and so does what an
/// error leaves. An error comes with the device, which is a disk still. What is tested comes in this order,
/// and each error says that the tests before it were passed:
///
/// - `NoCheckpoint`, `BadObject`, `MissingObject`: the objects are refused. The device is as it was.
/// - `NoSlot`: no slot of the device is open; it was but synced then. After the others that refuse the device
///   it keeps the commit that it reads as.
/// - `WrongVolume`: the commit is of a volume with another uuid.
/// - `StaleCache`: the commit is of another epoch.
/// - `BadRecord`: the log begins past the end of the objects, or has no list of records up to the head.
/// - `Worn`: the number of the commit, the epoch, the greatest number of an object, or the count of entries
///   is 2^60 or more.
/// - `StoreFault`, `DeviceFault`: a call of the store, or of the device, failed, which ended the mount.
/// - `OutOfMemory`: memory ran out.
pub fn mount_with_cache<D: Disk, S: Store>(
    alloc: Global,
    disk: D,
    store: &mut S,
    volume: StoredVolume,
) -> Result<Mounted<D, S::Receipt>, (D, MountError)>
    requires limits { IsTrue (is_within_limits volume.geometry) }
    requires names { AreNamesOf volume.uuid volume.names }
    requires listed { IfSome (S.state store.old).objects (λ objects. Lists volume.uuid objects volume.names) }
    requires is_disk { IsDisk (D.state disk) }
    requires size { 4096 ≤ (D.state disk).size }
    requires log { volume.geometry.log ≡ log_of (D.state disk).size }
    ensures { MountsWithCache D.state (TellsBytes S.Receipt.state) (owner_with volume.uuid volume.epoch)
        volume.geometry volume.chain (D.state disk) (S.state store.old) (S.state store.new) result }
{
    let StoredVolume {
        uuid,
        geometry,
        chain,
        epoch,
        names,
    } = volume;
    let recovered = match recover_list(alloc, store, uuid, geometry, &chain, names) {
        Ok(recovered) => recovered,
        Err(error) => return Err((disk, error)),
    };
    let known = Known {
        uuid,
        geometry,
        epoch,
        end: recovered.log().uploads().end(),
        greatest: recovered.greatest_number(),
    };
    let mut log = match open_log(alloc, disk, &known) {
        Ok(log) => log,
        Err(refused) => {
            drop(recovered);
            return Err(refused);
        }
    };
    match complete(alloc, store, recovered, &mut log) {
        Ok(objects) => Ok(assemble(alloc, objects, log)),
        Err(error) => Err((log.into_disk(), error)),
    }
}

// Completes a list that was recovered by the entries that the log has past the objects' end. The objects past
// the first missing number are removed, and the log is committed with its tail at that end. The geometry is
// within the limits, the log was opened for the list, and the store has the same objects as when the list was
// recovered (conditions).
fn complete<D: Disk, S: Store>(
    alloc: Global,
    store: &mut S,
    recovered: Recovered<S::Receipt>,
    log: &mut CacheLog<D>,
) -> Result<ObjLog<S::Receipt>, MountError>
    requires limits { IsTrue (is_within_limits recovered.log.batch.geometry) }
    requires list { IsRecovered recovered.log.uploads.uuid recovered.log.batch.geometry
        recovered.log.uploads.ancestors recovered.log recovered.checkpoint }
    requires names { HasAllNames (S.state store.old).objects recovered }
    requires opened { (commits : CommitsState)
        × IsOpenedUpTo recovered.log.batch.geometry recovered.log.uploads.queue.end commits log.old }
    ensures ok { IfOk result (IsCompleted recovered.log log.old log.new) }
    ensures stops { LeavesFrom recovered.log.uploads.queue.end log.old log.new.commits.disk }
    ensures calls { MakesAtMost (again_cost (length log.old.rows)) (passes_device result)
        log.old.commits.disk log.new.commits.disk }
    ensures removed { OnOk result (Becomes
        (RemovesAllPast recovered.log.uploads.uuid recovered.log.uploads.window.last)
        (S.state store.old).objects (S.state store.new).objects) }
    ensures some { Becomes (Removes (IsPastOf recovered.log.uploads.uuid recovered.log.uploads.window.last))
        (S.state store.old).objects (S.state store.new).objects }
    ensures err { IfErr result IsFault }
    ensures faults { Counts (ends_by_store result) (S.state store.old).faults (S.state store.new).faults }
{
    let end = recovered.log().uploads().end();
    log.trim_to(end);
    let entries = match log.entries_from(alloc, end) {
        Ok(entries) => entries,
        Err(error) => {
            drop(recovered);
            return Err(error.into());
        }
    };
    if let Err(error) = recovered.remove_past(alloc, store) {
        drop(entries);
        drop(recovered);
        return Err(error.into());
    }
    let mut objects = recovered.into_log();
    if let Err(error) = add_all(&mut objects, log, entries) {
        drop(objects);
        return Err(error);
    }
    if let Err(failed) = log.commit() {
        drop(objects);
        return Err(failed.into());
    }
    Ok(objects)
}
