ghost use Rattle.std.specs.Prelude.{IsTrue, IfOk, IfErr, IfSome, ◌≡◌, false, length};
ghost use Rattle.lsvd_base.specs.Limits.{is_within_limits};
ghost use Rattle.lsvd_fault.specs.Faults.{Counts};
ghost use Rattle.lsvd_objstore.specs.Objects.{AreNamesOf, Lists};
ghost use Rattle.lsvd_objstore.specs.Store.{OnlyCounts};
ghost use Rattle.stopped_volume.specs.Store.{TellsBytes};
ghost use Rattle.object_recovery.specs.State.{HasAllNames};
ghost use Rattle.vol_mount.specs.Mounting.{RefusesNoneStored};
ghost use Rattle.vol_mount.specs.Refusals.{IsWhyNotStored, is_device_fault};
ghost use Rattle.vol_mount.specs.Steps.{IsRecovered, IsRecoveredFrom, ends_by_store};

use crate::error::MountError;
use clone_chain::Chain;
use lsvd_base::Geometry;
use lsvd_objstore::{Names, Store};
use object_recovery::{Recovered, recover};
use refusals::Refusal;
use std::alloc::Global;
use uuid::Uuid;

/// Recovers the list of a volume with these ancestors, whose sizes are within the limits, by the names of all
/// that the store has of it (conditions). The store is only read. An object of number 0 is none of a
/// volume's, and so no checkpoint of it.
pub(crate) fn recover_list<S: Store>(
    alloc: Global,
    store: &mut S,
    uuid: Uuid,
    geometry: Geometry,
    chain: &Chain,
    names: Names,
) -> Result<Recovered<S::Receipt>, MountError>
    requires limits { IsTrue (is_within_limits geometry) }
    requires names { AreNamesOf uuid names }
    requires listed { IfSome (S.state store.old).objects (λ objects. Lists uuid objects names) }
    ensures list { IfOk result (λ recovered. IsRecovered uuid geometry (length chain.now)
        recovered.log recovered.checkpoint) }
    ensures has_names { IfOk result (HasAllNames (S.state store.old).objects) }
    ensures told { TellsBytes S.Receipt.state
        → IfOk result (λ recovered. IfSome (S.state store.old).objects (λ objects.
        IsRecoveredFrom uuid geometry chain.now objects recovered.log recovered.checkpoint)) }
    ensures why { TellsBytes S.Receipt.state
        → IfErr result (IsWhyNotStored uuid geometry chain.now (S.state store.old).objects) }
    ensures no_refusal { TellsBytes S.Receipt.state
        → IfErr result (RefusesNoneStored uuid geometry chain.now (S.state store.old).objects) }
    ensures no_fault { IfErr result (λ error. is_device_fault error ≡ false) }
    ensures unchanged { OnlyCounts (S.state store.old) (S.state store.new) }
    ensures faults { Counts (ends_by_store result) (S.state store.old).faults (S.state store.new).faults }
{
    let recovered = recover(alloc, store, uuid, geometry, chain, names)?;
    if recovered.checkpoint() == 0 {
        drop(recovered);
        return Err(MountError::Refused(Refusal::NoCheckpoint));
    }
    Ok(recovered)
}
