ghost use Rattle.std.specs.Prelude.{◌≡◌, IfErr, OnOk, IsErrOf};
ghost use Rattle.lsvd_fault.specs.Faults.{Counts};
ghost use Rattle.lsvd_objstore.specs.Store.{StoreState, Becomes};
ghost use Rattle.super_format.specs.Super.{MayBeSuper};
ghost use Rattle.super_recovery.specs.Faults.{ends_by_fault, IsNoAnswer};
ghost use Rattle.super_recovery.specs.Put.{PutsSuper, PutsEpoch, MayBecome};

use crate::error::SuperError;
use lsvd_names::ObjName;
use lsvd_objstore::Store;
use std::alloc::Global;
use super_format::{Epoch, Super};
use uuid::Uuid;

/// Puts the super object of a volume, in place of one that is there. It may stand in one (a condition, that
/// `Super::may_stand` tests).
///
/// - `StoreFault`: the put was not acknowledged, and the store counted that. What was there stands, or the
///   super object.
/// - `OutOfMemory`: memory ran out. Nothing changed.
pub fn put_super<S: Store>(alloc: Global, store: &mut S, volume: &Super) -> Result<(), SuperError>
    requires { MayBeSuper volume.now }
    ensures ok { OnOk result (Becomes (PutsSuper volume.now) (S.state store.old).objects
        (S.state store.new).objects) }
    ensures failed { IsErrOf result SuperError.StoreFault
        → Becomes (MayBecome (PutsSuper volume.now)) (S.state store.old).objects (S.state store.new).objects }
    ensures unchanged { IsErrOf result SuperError.OutOfMemory → S.state store.new ≡ S.state store.old }
    ensures answer { IfErr result IsNoAnswer }
    ensures faults { Counts (ends_by_fault result) (S.state store.old).faults (S.state store.new).faults }
{
    let bytes = volume.write(alloc)?;
    store.put(alloc, &ObjName::super_of(volume.uuid), &bytes)?;
    Ok(())
}

/// Puts the epoch of this number of a volume, in place of one that is there.
///
/// - `StoreFault`: the put was not acknowledged, and the store counted that. What was there stands, or the
///   epoch.
/// - `OutOfMemory`: memory ran out. Nothing changed.
pub fn put_epoch<S: Store>(
    alloc: Global,
    store: &mut S,
    uuid: Uuid,
    number: u64,
) -> Result<(), SuperError>
    ensures ok { OnOk result (Becomes (PutsEpoch uuid number) (S.state store.old).objects
        (S.state store.new).objects) }
    ensures failed { IsErrOf result SuperError.StoreFault
        → Becomes (MayBecome (PutsEpoch uuid number)) (S.state store.old).objects
        (S.state store.new).objects }
    ensures unchanged { IsErrOf result SuperError.OutOfMemory → S.state store.new ≡ S.state store.old }
    ensures answer { IfErr result IsNoAnswer }
    ensures faults { Counts (ends_by_fault result) (S.state store.old).faults (S.state store.new).faults }
{
    let bytes = Epoch { uuid, number }.write(alloc)?;
    store.put(alloc, &ObjName::epoch(uuid, number), &bytes)?;
    Ok(())
}
