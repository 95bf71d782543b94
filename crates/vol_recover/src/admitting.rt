ghost use Rattle.std.specs.Prelude.{◌≡◌, false, IfErr, IfSome, OnOk};
ghost use Rattle.lsvd_fault.specs.Faults.{Counts};
ghost use Rattle.lsvd_objstore.specs.Store.{StoreState, ReceiptState, OnlyCounts};
ghost use Rattle.stopped_volume.specs.Store.{TellsBytes};
ghost use Rattle.vol_mount.specs.Refusals.{is_device_fault};
ghost use Rattle.vol_mount.specs.Steps.{ends_by_store};
ghost use Rattle.vol_recover.specs.Admitting.{IsAdmitted, IsWhyNotAdmitted};

use crate::describing::describe;
use lsvd_objstore::{Receipt, Store};
use std::alloc::Global;
use uuid::Uuid;
use vol_mount::{MountError, refuse_log};

/// Whether the volume with this uuid takes a log of so many sectors. Who makes its cache anew asks before,
/// since what a cache held is lost then. The store is only read.
///
/// An error is that of a mount without the cache on each device whose log has so many sectors. They are
/// tested in this order:
///
/// - `NoVolume`, `BadSuper`, `BaseMissing`: the volume as a whole is refused, or an ancestor of it.
/// - `NoCheckpoint`, `BadObject`, `MissingObject`: the log does not fit the volume, and its objects are
///   refused.
/// - `NoSlot`: the log does not fit the volume.
/// - `StoreFault`: a call of the store failed.
/// - `OutOfMemory`: memory ran out.
pub fn admit_log<S: Store>(
    alloc: Global,
    store: &mut S,
    uuid: Uuid,
    log: u64,
) -> Result<(), MountError>
    ensures admitted { TellsBytes S.Receipt.state
        → OnOk result (IfSome (S.state store.old).objects (IsAdmitted uuid log)) }
    ensures why { TellsBytes S.Receipt.state
        → IfErr result (IsWhyNotAdmitted uuid log (S.state store.old).objects) }
    ensures no_fault { IfErr result (λ error. is_device_fault error ≡ false) }
    ensures unchanged { OnlyCounts (S.state store.old) (S.state store.new) }
    ensures faults { Counts (ends_by_store result) (S.state store.old).faults (S.state store.new).faults }
{
    let described = match describe(alloc, store, uuid, log) {
        Ok(described) => described,
        Err(error) => return Err(error),
    };
    if !described.geometry.is_within_limits() {
        return Err(refuse_log(alloc, store, described));
    }
    Ok(())
}
