ghost use Rattle.std.specs.Prelude.{◌≡◌, ℕ, ◌≤◌, None, List, [], false, length};
ghost use Rattle.std.specs.List.{list_any};
ghost use Rattle.lsvd_base.specs.declared.geometry.Geometry.{Geometry};
ghost use Rattle.plain_disk.specs.State.{PlainState};
ghost use Rattle.vol_core.specs.Creating.{IsCreated};
ghost use Rattle.vol_core.specs.Shows.{Shows};
ghost use Rattle.vol_core.specs.Volume.{VolumeState, SteppedVolume};
ghost use Rattle.volume_owner.specs.Owner.{IsIdle};
ghost use Rattle.volume_owner.specs.Standing.{ActsKeepStore, StopsKeepStore};

use lsvd_objstore::Receipt;

/// A law: a volume may have an owner where no put is under way, at most 16 objects are on their way, no plan
/// is out and no removal in a plain volume that it shows. So it is of one that was just created.
pub fn a_new_volume_is_idle()
    ensures shown { (volume : VolumeState) (plain : PlainState) → Shows volume plain
        → list_any (λ object. object.is_started) plain.window.objects ≡ false
        → length plain.window.objects ≤ 16 → plain.pins ≡ [] → plain.removal ≡ None → IsIdle volume }
    ensures created { (uuid : List ℕ) (geometry : Geometry) (stepped : SteppedVolume)
        → IsCreated uuid geometry stepped → IsIdle stepped.volume }
{}

/// A law: where the store stands for what the volume shows, it stands after each act of a call, and so at
/// each moment between them, if all receipts tell their bytes; and whatever a stop inside an act leaves of it
/// stands for what was shown before.
pub fn acts_keep_the_store<R: Receipt>()
    ensures acts { ActsKeepStore R.state }
    ensures stops { StopsKeepStore R.state }
{}
