ghost use Rattle.std.specs.Prelude.{◌≡◌, ◌⊎◌, false, IsTrue, IfSome};
ghost use Rattle.lsvd_base.specs.Limits.{is_within_limits};
ghost use Rattle.log_room.specs.Room.{max_log};
ghost use Rattle.lsvd_fault.specs.Faults.{Counts};
ghost use Rattle.lsvd_objstore.specs.Objects.{AreNamesOf, Lists};
ghost use Rattle.lsvd_objstore.specs.Store.{StoreState, ReceiptState, OnlyCounts};
ghost use Rattle.stopped_volume.specs.Store.{TellsBytes};
ghost use Rattle.vol_mount.specs.Refusals.{IsUnfitting, IsWhyNotStored, is_device_fault, is_store_fault_of};

use crate::error::MountError;
use crate::recovery::recover_list;
use crate::stored::StoredVolume;
use lsvd_base::Geometry;
use lsvd_objstore::{Receipt, Store};
use refusals::Refusal;
use std::alloc::Global;

/// Why a volume is refused on a device whose log is too short or too long for it: by its objects, which are
/// judged before, or for that. Its other sizes keep their limits, and the names are those of all that the
/// store has of it (conditions). The store is only read.
pub fn refuse_log<S: Store>(alloc: Global, store: &mut S, volume: StoredVolume) -> MountError
    requires limits { IsTrue (is_within_limits (record volume.geometry { log = max_log })) }
    requires names { AreNamesOf volume.uuid volume.names }
    requires listed { IfSome (S.state store.old).objects (λ objects. Lists volume.uuid objects volume.names) }
    ensures why { TellsBytes S.Receipt.state
        → IsUnfitting volume.uuid volume.geometry volume.chain (S.state store.old).objects result
        ⊎ IsWhyNotStored volume.uuid volume.geometry volume.chain (S.state store.old).objects result }
    ensures no_fault { is_device_fault result ≡ false }
    ensures unchanged { OnlyCounts (S.state store.old) (S.state store.new) }
    ensures faults { Counts (is_store_fault_of result) (S.state store.old).faults (S.state store.new).faults }
{
    let StoredVolume {
        uuid,
        geometry,
        chain,
        names,
        ..
    } = volume;
    let widest = Geometry {
        log: Geometry::MAX_LOG,
        ..geometry
    };
    match recover_list(alloc, store, uuid, widest, &chain, names) {
        Ok(recovered) => {
            drop(recovered);
            MountError::Refused(Refusal::NoSlot { log: geometry.log })
        }
        Err(error) => error,
    }
}
