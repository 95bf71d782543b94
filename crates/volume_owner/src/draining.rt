ghost use Rattle.std.specs.Prelude.{◌≡◌, ◌+◌, ◌<◌, [], OnOk, IsErrOf};
ghost use Rattle.vol_core.specs.Shows.{max_number};
ghost use Rattle.volume_owner.specs.Owner.{IsIdle, most_of_call};
ghost use Rattle.volume_owner.specs.Acts.{moment_of};
ghost use Rattle.volume_owner.specs.Tally.{IsTally};
ghost use Rattle.volume_owner.specs.Calls.{DrainOf, IsCall};
ghost use Rattle.volume_owner.specs.Clearing.{most_of_helps};
ghost use Rattle.volume_owner.specs.Collecting.{NeedsNoCopy};
ghost use Rattle.volume_owner.specs.Errors.{is_eio};
ghost use Rattle.volume_owner.specs.Helping.{work_of};

use crate::clearing::{put_checkpoint, remove_all};
use crate::error::OwnerError;
use crate::helping::help;
use crate::reading::flush;
use lsvd_device::Disk;
use lsvd_objstore::{Receipt, Store};
use std::alloc::Global;
use vol_core::Volume;

/// What a drain found.
#[derive(Clone, Copy, Debug, PartialEq, Eq)]
pub struct Drained {
    /// How many entries the history has.
    pub entries: u64,
    /// How many objects were removed.
    pub removed: u64,
}

/// Helps until nothing is left to help with, puts a checkpoint where the newest object is none, removes each
/// object that no mount needs, and then commits each entry.
pub(crate) fn drain<D: Disk, R: Receipt, S: Store<Receipt = R>>(
    alloc: Global,
    volume: &mut Volume<D, R>,
    store: &mut S,
) -> Result<Drained, OwnerError>
    requires steps { volume.old.steps + most_of_call < max_number }
    requires idle { IsIdle volume.old.volume }
    ensures drain { DrainOf R.state result volume.old volume.new (S.state store.old) (S.state store.new) }
    ensures victims { OnOk result (work_of volume.old.volume ≡ 0 → NeedsNoCopy volume.old.volume
        → NeedsNoCopy volume.new.volume) }
    ensures idle { IsIdle volume.new.volume }
{
    help_all(alloc, volume, store)?;
    put_checkpoint(alloc, volume, store)?;
    let removed = remove_all(volume, store)?;
    let entries = flush(volume)?;
    Ok(Drained { entries, removed })
}

// Helps until no entry is unsealed and each object is acknowledged. The errors are those of `help`.
fn help_all<D: Disk, R: Receipt, S: Store<Receipt = R>>(
    alloc: Global,
    volume: &mut Volume<D, R>,
    store: &mut S,
) -> Result<(), OwnerError>
    requires steps { volume.old.steps + most_of_helps < max_number }
    requires idle { IsIdle volume.old.volume }
    ensures call { IsCall R.state most_of_helps [] (is_eio result) volume.old volume.new (S.state store.old)
        (S.state store.new) }
    ensures tally { OnOk result (IsTally R.state 0 0 (moment_of volume.old (S.state store.old))
        (moment_of volume.new (S.state store.new))) }
    ensures victims { OnOk result (work_of volume.old.volume ≡ 0 → NeedsNoCopy volume.old.volume
        → NeedsNoCopy volume.new.volume) }
    ensures none { OnOk result (work_of volume.new.volume ≡ 0) }
    ensures error { IsErrOf result OwnerError.Range → ⊥ }
    ensures idle { IsIdle volume.new.volume }
{
    while help(alloc, volume, store)? {}
    Ok(())
}
