ghost use Rattle.std.specs.Prelude.{◌≡◌, IsTrue, IfOk, IfErr, OnOk, OnErr};
ghost use Rattle.lsvd_base.specs.Limits.{is_within_limits};
ghost use Rattle.lsvd_fault.specs.Faults.{Counts};
ghost use Rattle.lsvd_names.specs.Names.{numbered_name};
ghost use Rattle.lsvd_device.specs.Device.{IsDisk};
ghost use Rattle.lsvd_names.specs.Spelling.{IsName};
ghost use Rattle.lsvd_objstore.specs.Store.{Becomes};
ghost use Rattle.commit_slot.specs.Slots.{log_of};
ghost use Rattle.super_recovery.specs.Put.{PutsSuper, MayBecome};
ghost use Rattle.vol_recover.specs.declared.creating.CreateError.TheVariants as create_errors;
ghost use Rattle.vol_recover.specs.Creating.{IsFirstObject, PutsFirst, PrepareOf, CreationOf, IsOfStore};
ghost use Rattle.vol_recover.specs.Creating.{super_of, of_put, of_super, ends_by_put};

use clone_chain::Chain;
use lsvd_base::{Geometry, ObjectBytes};
use lsvd_device::Disk;
use lsvd_fault::Failed;
use lsvd_names::ObjName;
use lsvd_objstore::{Store, StoreError};
use obj_log::ObjLog;
use object_format::{Expected, ObjectWriter, Rows};
use std::alloc::{AllocError, Global};
use super_format::Super;
use super_recovery::{SuperError, has_super, put_epoch, put_super};
use thiserror::Error;
use uuid::Uuid;
use vol_core::{Volume, create as create_cache, new_list};

/// Why a volume was not created.
#[derive(Clone, Copy, Debug, PartialEq, Eq, Error)]
pub enum CreateError {
    /// The store has a super object of the volume: there is one.
    #[error("the volume exists")]
    Exists,
    /// A call of the store failed, and was counted by it.
    #[error("the store failed")]
    StoreFault,
    /// A call of the device failed, and was counted by it.
    #[error("the device failed")]
    DeviceFault,
    /// Memory ran out.
    #[error("out of memory")]
    OutOfMemory,
}

impl From<StoreError> for CreateError {
    ghost from_gives = { λ error e. e ≡ of_put error };

    fn from(error: StoreError) -> CreateError {
        match error {
            StoreError::Failed => CreateError::StoreFault,
            StoreError::OutOfMemory => CreateError::OutOfMemory,
        }
    }
}

impl From<SuperError> for CreateError {
    ghost from_gives = { λ error e. e ≡ of_super error };

    // Nothing is read of a volume here, so that none is refused.
    fn from(error: SuperError) -> CreateError {
        match error {
            SuperError::OutOfMemory => CreateError::OutOfMemory,
            _ => CreateError::StoreFault,
        }
    }
}

impl From<AllocError> for CreateError {
    ghost from_gives = { λ _ e. e ≡ create_errors.OutOfMemory };

    fn from(_: AllocError) -> CreateError {
        CreateError::OutOfMemory
    }
}

impl From<Failed> for CreateError {
    ghost from_gives = { λ _ e. e ≡ create_errors.DeviceFault };

    fn from(_: Failed) -> CreateError {
        CreateError::DeviceFault
    }
}

/// Creates a volume: puts its first object, a checkpoint without rows, and its epoch 0, formats its cache
/// device, and puts its super object last.
///
/// The geometry is within the limits, its log has just the sectors of the device past byte 4,096, and the
/// device is a disk (conditions). Where the store has no more of the volume than a creation leaves that was
/// stopped, it has no volume until the super object is put, and then the whole one, with no entries, for
/// which it stands. The device is asked for the calls of formatting alone, of which those are made that its
/// fuse passes, where it has room for them; and where it tells what it holds too, nothing is pending then. An
/// error comes with the device, which is a disk still:
///
/// - `Exists`: the store has a super object of the volume. Nothing was changed.
/// - `StoreFault`: a call of the store failed, which the store counted. Some of the puts were made, in their
///   order.
/// - `DeviceFault`: a call of the device failed. All but the super object was put.
/// - `OutOfMemory`: memory ran out. Some of the puts were made, in their order.
pub fn create<D: Disk, S: Store>(
    alloc: Global,
    disk: D,
    store: &mut S,
    uuid: Uuid,
    geometry: Geometry,
) -> Result<Volume<D, S::Receipt>, (D, CreateError)>
    requires limits { IsTrue (is_within_limits geometry) }
    requires log { geometry.log ≡ log_of (D.state disk).size }
    requires is_disk { IsDisk (D.state disk) }
    ensures { CreationOf D.state uuid geometry (D.state disk) (S.state store.old) (S.state store.new) result }
{
    let objects = match prepare(alloc, store, uuid, &geometry) {
        Ok(objects) => objects,
        Err(error) => return Err((disk, error)),
    };
    let volume = match create_cache(alloc, disk, objects) {
        Ok(volume) => volume,
        Err((disk, failed)) => return Err((disk, failed.into())),
    };
    match complete(alloc, store, uuid, &geometry) {
        Ok(()) => Ok(volume),
        Err(error) => Err((volume.into_disk(), error)),
    }
}

// Refuses a volume that there is, and else puts all of a new one but its super object. Answers the list of
// the volume, which begins with its first object. The geometry is within the limits (a condition).
fn prepare<S: Store>(
    alloc: Global,
    store: &mut S,
    uuid: Uuid,
    geometry: &Geometry,
) -> Result<ObjLog<S::Receipt>, CreateError>
    requires { IsTrue (is_within_limits geometry.now) }
    ensures { PrepareOf uuid geometry.now (S.state store.old) (S.state store.new) result }
{
    if has_super(alloc, store, uuid)? {
        return Err(CreateError::Exists);
    }
    let receipt = put_first(alloc, store, uuid, geometry)?;
    if let Err(error) = put_epoch(alloc, store, uuid, 0) {
        drop(receipt);
        return Err(error.into());
    }
    Ok(new_list(alloc, uuid, *geometry, receipt)?)
}

// Puts the super object of a volume.
fn complete<S: Store>(
    alloc: Global,
    store: &mut S,
    uuid: Uuid,
    geometry: &Geometry,
) -> Result<(), CreateError>
    requires { IsTrue (is_within_limits geometry.now) }
    ensures ok { OnOk result (Becomes (PutsSuper (super_of uuid geometry.now)) (S.state store.old).objects
        (S.state store.new).objects) }
    ensures err { OnErr result (Becomes (MayBecome (PutsSuper (super_of uuid geometry.now)))
        (S.state store.old).objects (S.state store.new).objects) }
    ensures why { IfErr result IsOfStore }
    ensures faults { Counts (ends_by_put result) (S.state store.old).faults (S.state store.new).faults }
{
    let volume = Super {
        uuid,
        sectors: geometry.sectors,
        max_write: geometry.max_write,
        batch: geometry.batch,
        chain: Chain::new(alloc),
    };
    put_super(alloc, store, &volume)?;
    Ok(())
}

// Puts the first object of a volume. Answers what the store gave for it.
fn put_first<S: Store>(
    alloc: Global,
    store: &mut S,
    uuid: Uuid,
    geometry: &Geometry,
) -> Result<S::Receipt, CreateError>
    ensures named { IfOk result (λ receipt. (S.Receipt.state receipt).name ≡ numbered_name uuid 1) }
    ensures ok { OnOk result (Becomes (PutsFirst uuid geometry.now) (S.state store.old).objects
        (S.state store.new).objects) }
    ensures err { OnErr result (Becomes (MayBecome (PutsFirst uuid geometry.now)) (S.state store.old).objects
        (S.state store.new).objects) }
    ensures why { IfErr result IsOfStore }
    ensures faults { Counts (ends_by_put result) (S.state store.old).faults (S.state store.new).faults }
{
    let object = first_object(alloc, uuid, geometry)?;
    Ok(store.put(alloc, &first_name(uuid), &object)?)
}

// The name of the first object of a volume.
fn first_name(uuid: Uuid) -> ObjName
    ensures is { result ≡ numbered_name uuid 1 }
    ensures named { IsName result }
{
    ObjName::object(uuid, FIRST)
}

// The number of the first object.
const FIRST: u64 = 1;

// The first object of a volume: a checkpoint without rows, and without entries before it.
fn first_object(alloc: Global, uuid: Uuid, geometry: &Geometry) -> Result<ObjectBytes, AllocError>
    ensures { IfOk result (IsFirstObject uuid geometry.now) }
{
    let expected = Expected {
        uuid: uuid.into_bytes(),
        number: FIRST,
        sectors: geometry.sectors,
        ancestors: 0,
        end_before: None,
    };
    ObjectWriter::new(alloc, &expected, 0, 0, &Rows::Checkpoint)?.finish()
}
