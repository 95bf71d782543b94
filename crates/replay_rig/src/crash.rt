ghost use Rattle.std.specs.Prelude.{◌≡◌, ◌+◌, ◌==◌, [], IsTrue, IfOk, OnOk, OnErr, Some, length};
ghost use Rattle.lsvd_base.specs.Limits.{is_within_limits};
ghost use Rattle.lsvd_names.specs.Names.{numbered_name};
ghost use Rattle.lsvd_device.specs.Device.{HoldsNow};
ghost use Rattle.lsvd_objstore.specs.Objects.{IsPut, IsRemoved};
ghost use Rattle.commit_slot.specs.Slots.{log_of};
ghost use Rattle.commit_slot.specs.Formatting.{format_cost};
ghost use Rattle.vol_mount.specs.Costs.{mount_cost};
ghost use Rattle.vol_mount.specs.Mounted.{NumbersNextCommit};
ghost use Rattle.vol_mount.specs.Mounting.{MountsStored, MountsLeft};
ghost use Rattle.vol_recover.specs.Describing.{OfVolume};
ghost use Rattle.replay_rig.specs.Crash.{FailsNone, IsBlankDisk, IsLeftBy};
ghost use Rattle.replay_rig.specs.Crash.{IsNewVolume, MayMountStored, MayMountLeft, IsMountedVolume};
ghost use Rattle.replay_rig.specs.Rig.{script_uuid, owner_at, LandsAs, Lands};
ghost use Rattle.vol_core.specs.View.{last_commit, volume_disk};

use crate::puts::Put;
use lsvd_base::{Geometry, ObjectBytes};
use lsvd_device::{Disk, Fate, FuseDisk, MemDisk, StoppedDisk};
use lsvd_names::ObjName;
use lsvd_objstore::{MemReceipt, MemStore, Store, StoreError};
use std::alloc::{AllocError, Global};
use uuid::Uuid;
use vol_core::Volume;
use vol_recover::{CreateError, MountError, Mounted, create, mount_kept, mount_lost};

/// A volume on a disk in memory with a fuse before it.
pub(crate) type ScriptVolume = Volume<FuseDisk<MemDisk>, MemReceipt>;

/// One that was mounted.
pub(crate) type MountedVolume = Mounted<FuseDisk<MemDisk>, MemReceipt>;

// The uuid of the volume of a script.
const UUID: [u8; 16] = [0, 0, 0, 0, 0, 0, 0x40, 0, 0x80, 0, 0, 0, 0, 0, 0, 1];

// The writes and syncs of formatting, and the bytes that they write.
const FORMAT_CALLS: u64 = 7;

const FORMAT_BYTES: u64 = 3_072 + 512 + 3;

// The writes and syncs of a mount at most, and the bytes that they write.
const MOUNT_CALLS: u64 = 9;

const MOUNT_BYTES: u64 = 1_027;

/// A disk of `len` bytes, all of them zeros, without a limit of its calls and with room for formatting.
pub(crate) fn blank_disk(alloc: Global, len: u64) -> Result<FuseDisk<MemDisk>, AllocError>
    ensures blank { IfOk result (IsBlankDisk len) }
    ensures fails_none { IfOk result (FailsNone format_cost) }
{
    let disk = MemDisk::new(alloc, len)?;
    let _ = disk.len();
    let mut disk = FuseDisk::new(disk, None);
    disk.reserve(FORMAT_CALLS, FORMAT_BYTES)?;
    let _ = disk.len();
    Ok(disk)
}

// What a stop of the machine leaves of a disk.
fn stopped_disk(
    alloc: Global,
    disk: &FuseDisk<MemDisk>,
    fates: &[Fate],
) -> Result<FuseDisk<MemDisk>, AllocError>
    requires { HoldsNow (λ now. length fates.now ≡ length now.pending) disk.now.moments }
    ensures left { IfOk result (IsLeftBy fates.now disk.now) }
    ensures fails_none { IfOk result (FailsNone (mount_cost 0)) }
{
    let left = disk.stopped(alloc, fates)?;
    let _ = left.len();
    let mut left = FuseDisk::new(left, None);
    left.reserve(MOUNT_CALLS, MOUNT_BYTES)?;
    let _ = left.len();
    Ok(left)
}

/// What a stop of the machine leaves of the device of a volume, which is let go: each write that was not
/// synced has met its fate, and the device has no fuse, and room for a mount. The fates are as many as
/// `pending` says (a condition).
pub(crate) fn stopped_device(
    alloc: Global,
    volume: ScriptVolume,
    fates: &[Fate],
) -> Result<FuseDisk<MemDisk>, AllocError>
    requires { HoldsNow (λ now. length fates.now ≡ length now.pending)
        (volume_disk volume.volume).moments }
    ensures left { IfOk result (IsLeftBy fates.now (volume_disk volume.volume)) }
    ensures fails_none { IfOk result (FailsNone (mount_cost 0)) }
{
    let left = stopped_disk(alloc, volume.disk(), fates);
    drop(volume);
    left
}

/// The volume of a script that is just created, on a blank disk (a condition), in an empty store (a
/// condition). The geometry is within the limits, and its log is the disk's (conditions). The one error is
/// out of memory.
pub(crate) fn create_volume(
    alloc: Global,
    disk: FuseDisk<MemDisk>,
    store: &mut MemStore,
    geometry: Geometry,
) -> Result<ScriptVolume, AllocError>
    requires limits { IsTrue (is_within_limits geometry) }
    requires log { geometry.log ≡ log_of disk.size }
    requires blank { IsBlankDisk disk.size disk }
    requires fails_none { FailsNone format_cost disk }
    requires empty { store.old ≡ [] }
    ensures { IfOk result (λ volume. IsNewVolume geometry volume store.new) }
{
    match create(alloc, disk, store, Uuid::from_bytes(UUID), geometry) {
        Ok(volume) => Ok(volume),
        Err(failed) => {
            // Within the room that was made the disk fails no call, and a store in memory fails none.
            let lacks = matches!(failed.1, CreateError::OutOfMemory);
            prove!(lacks);
            Err(AllocError)
        }
    }
}

/// Mounts the volume of a script with its cache, which device and store have (a condition), on a device that
/// fails no call (a condition). The one error is out of memory.
pub(crate) fn mount_again(
    alloc: Global,
    disk: FuseDisk<MemDisk>,
    store: &mut MemStore,
) -> Result<MountedVolume, AllocError>
    requires fails_none { FailsNone (mount_cost 0) disk }
    requires may { (geometry : Geometry) × MayMountLeft geometry store.old disk }
    ensures ok { IfOk result (λ mounted. OfVolume script_uuid (log_of disk.size) (Some store.old)
        (λ geometry chain epoch.
        IsMountedVolume geometry chain epoch store.old mounted store.new)) }
    ensures mounts { IfOk result (λ mounted. OfVolume script_uuid (log_of disk.size) (Some store.old)
        (λ geometry chain epoch.
        MountsLeft (owner_at epoch) geometry chain (Some store.old) disk mounted)) }
    ensures number { IfOk result (NumbersNextCommit (log_of disk.size) disk) }
{
    match mount_kept(alloc, disk, store, Uuid::from_bytes(UUID)) {
        Ok(mounted) => Ok(mounted),
        Err(failed) => {
            // What a stop leaves of a volume is not refused.
            let lacks = matches!(failed.1, MountError::OutOfMemory);
            prove!(lacks);
            Err(AllocError)
        }
    }
}

/// Mounts the volume of a script without its cache, which the store has (a condition), on a blank disk whose
/// log is the volume's (conditions). The one error is out of memory.
pub(crate) fn mount_anew(
    alloc: Global,
    disk: FuseDisk<MemDisk>,
    store: &mut MemStore,
) -> Result<MountedVolume, AllocError>
    requires blank { IsBlankDisk disk.size disk }
    requires fails_none { FailsNone format_cost disk }
    requires may { (geometry : Geometry) × (geometry.log ≡ log_of disk.size)
        × MayMountStored geometry store.old }
    ensures ok { IfOk result (λ mounted. OfVolume script_uuid (log_of disk.size) (Some store.old)
        (λ geometry chain epoch.
        IsMountedVolume geometry chain (epoch + 1) store.old mounted store.new)) }
    ensures mounts { IfOk result (λ mounted. OfVolume script_uuid (log_of disk.size) (Some store.old)
        (λ geometry chain epoch.
        MountsStored script_uuid geometry chain (Some store.old) mounted)) }
    ensures number { IfOk result (λ mounted. last_commit mounted.volume.volume ≡ 0) }
{
    match mount_lost(alloc, disk, store, Uuid::from_bytes(UUID)) {
        Ok(mounted) => Ok(mounted),
        Err(failed) => {
            let lacks = matches!(failed.1, MountError::OutOfMemory);
            prove!(lacks);
            Err(AllocError)
        }
    }
}

/// Puts those of the objects under way that have the letter `y` into the store.
pub(crate) fn land(
    alloc: Global,
    store: &mut MemStore,
    puts: &[Put],
    letters: &[u8],
) -> Result<(), AllocError>
    ensures { OnOk result (Lands puts.now letters.now store.old store.new) }
{
    for (put, letter) in puts.iter().zip(letters) {
        land_as(alloc, store, put, *letter)?;
    }
    Ok(())
}

// Puts an object under way into the store if its letter is `y`.
fn land_as(alloc: Global, store: &mut MemStore, put: &Put, letter: u8) -> Result<(), AllocError>
    ensures { OnOk result (LandsAs (letter == 121) put.now store.old store.new) }
{
    if letter == b'y' {
        put_object(alloc, store, put.number(), put.object())?;
    }
    Ok(())
}

/// Puts the object of a number into the store. The one error is out of memory, after which nothing changed.
pub(crate) fn put_object(
    alloc: Global,
    store: &mut MemStore,
    number: u64,
    object: &ObjectBytes,
) -> Result<MemReceipt, AllocError>
    ensures put { OnOk result (IsPut (numbered_name script_uuid number) object.now store.old store.new) }
    ensures receipt { IfOk result (λ receipt. (receipt.name ≡ numbered_name script_uuid number)
        × (receipt.bytes ≡ object.now)) }
    ensures err { OnErr result (store.new ≡ store.old) }
{
    let name = ObjName::object(Uuid::from_bytes(UUID), number);
    match store.put(alloc, &name, object) {
        Ok(receipt) => Ok(receipt),
        Err(error) => {
            // A store in memory fails no call.
            let lacks = matches!(error, StoreError::OutOfMemory);
            prove!(lacks);
            Err(AllocError)
        }
    }
}

/// Removes an object that the store gave this receipt for.
pub(crate) fn remove_object(store: &mut MemStore, receipt: &MemReceipt)
    ensures { IsRemoved receipt.now.name store.old store.new }
{
    // A store in memory fails no call.
    let _ = store.remove(receipt);
}
