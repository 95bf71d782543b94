ghost use Rattle.std.specs.Prelude.{◌≡◌, false, IfOk, IfErr, IfSome, IsTrue};
ghost use Rattle.lsvd_base.specs.Limits.{is_within_limits};
ghost use Rattle.log_room.specs.Room.{max_log};
ghost use Rattle.lsvd_fault.specs.Faults.{Counts};
ghost use Rattle.lsvd_objstore.specs.Objects.{AreNamesOf, Lists};
ghost use Rattle.lsvd_objstore.specs.Store.{StoreState, ReceiptState, OnlyCounts};
ghost use Rattle.stopped_volume.specs.Store.{TellsBytes};
ghost use Rattle.vol_mount.specs.Refusals.{refuses, is_device_fault};
ghost use Rattle.vol_mount.specs.Steps.{ends_by_store};
ghost use Rattle.vol_recover.specs.Describing.{OfVolume, IsTheVolume, SaysVolume};
ghost use Rattle.vol_recover.specs.Describing.{IsWhyNotDescribed};

use lsvd_objstore::{Receipt, Store};
use refusals::Refusal;
use std::alloc::Global;
use super_recovery::{find_volume, missing_ancestor};
use uuid::Uuid;
use vol_mount::{MountError, StoredVolume};

/// Finds the volume with this uuid, for a device whose log has so many sectors, and each of its ancestors.
/// The store is only read, and listed once. The sizes keep their limits, but the log, which is not judged.
pub(crate) fn describe<S: Store>(
    alloc: Global,
    store: &mut S,
    uuid: Uuid,
    log: u64,
) -> Result<StoredVolume, MountError>
    ensures uuid { IfOk result (λ described. described.uuid ≡ uuid) }
    ensures names { IfOk result (λ described. AreNamesOf uuid described.names) }
    ensures listed { IfOk result (λ described.
        IfSome (S.state store.old).objects (λ objects. Lists uuid objects described.names)) }
    ensures log { IfOk result (λ described. described.geometry.log ≡ log) }
    ensures sizes { IfOk result (λ described.
        IsTrue (is_within_limits (record described.geometry { log = max_log }))) }
    ensures told { TellsBytes S.Receipt.state → IfOk result (λ described. IfSome (S.state store.old).objects
        (SaysVolume uuid described.geometry described.chain described.epoch)) }
    ensures same { TellsBytes S.Receipt.state
        → IfOk result (λ described. IsTheVolume uuid log (S.state store.old).objects described.geometry
        described.chain described.epoch) }
    ensures why { TellsBytes S.Receipt.state
        → IfErr result (IsWhyNotDescribed uuid (S.state store.old).objects) }
    ensures no_refusal { TellsBytes S.Receipt.state → IfErr result (λ error.
        OfVolume uuid log (S.state store.old).objects (λ geometry chain epoch. refuses error ≡ false)) }
    ensures no_fault { IfErr result (λ error. is_device_fault error ≡ false) }
    ensures unchanged { OnlyCounts (S.state store.old) (S.state store.new) }
    ensures faults { Counts (ends_by_store result) (S.state store.old).faults (S.state store.new).faults }
{
    let found = find_volume(alloc, store, uuid)?;
    if let Some(ancestor) = missing_ancestor(alloc, store, &found.volume.chain)? {
        return Err(MountError::Refused(Refusal::BaseMissing { ancestor }));
    }
    Ok(StoredVolume {
        uuid,
        geometry: found.volume.geometry(log),
        chain: found.volume.chain,
        epoch: found.epoch,
        names: found.names,
    })
}
