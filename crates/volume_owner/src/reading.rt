ghost use Rattle.std.specs.Prelude.{◌≡◌, ◌<◌, ◌≤◌};
ghost use Rattle.vol_core.specs.declared.event.Event.TheVariants as events;
ghost use Rattle.vol_core.specs.Shows.{max_number};
ghost use Rattle.volume_owner.specs.Owner.{IsIdle, max_steps};
ghost use Rattle.volume_owner.specs.Calls.{FlushOf, HasNoneToRemove, ReadOf};
ghost use Rattle.volume_owner.specs.Clearing.{HasAllPut};
ghost use Rattle.volume_owner.specs.Collecting.{NeedsNoCopy};
ghost use Rattle.volume_owner.specs.Helping.{work_of};

use crate::error::OwnerError;
use crate::replies::{count_of, plan_of};
use lsvd_base::Body;
use lsvd_device::Disk;
use lsvd_fault::Failed;
use lsvd_objstore::{Receipt, Store};
use read_cache::ReadCache;
use std::alloc::Global;
use vol_core::{Event, Volume};

/// What a read gives.
#[derive(Debug, Drop)]
pub struct SectorsRead {
    /// How many entries the history has that the sectors are those of.
    pub history_length: u64,
    /// The sectors.
    pub body: Body,
}

/// Reads `sectors` sectors from `lba` on: plans the read, fetches it through a cache, and gives the plan
/// back, whatever the fetch answered.
pub(crate) fn read<D: Disk, R: Receipt, S: Store<Receipt = R>>(
    alloc: Global,
    volume: &mut Volume<D, R>,
    store: &mut S,
    cache: &mut ReadCache<R>,
    lba: u64,
    sectors: u64,
) -> Result<SectorsRead, OwnerError>
    requires steps { volume.old.steps ≤ max_steps }
    requires idle { IsIdle volume.old.volume }
    ensures read { ReadOf R.state lba sectors result volume.old volume.new (S.state store.old)
        (S.state store.new) }
    ensures idle { IsIdle volume.new.volume }
{
    if !volume.geometry().may_transfer(lba, sectors) {
        return Err(OwnerError::Range);
    }
    let mut plan = plan_of(volume.step(Event::Look { lba, sectors }))?;
    let history_length = plan.history_length();
    let fetched = plan.fetch(alloc, store, cache);
    drop(volume.step(Event::Release(plan)));
    let body = Body::from_bytes(fetched?);
    Ok(SectorsRead {
        history_length,
        body,
    })
}

/// Commits each entry so far, and answers the length of the history. `Failed` comes where a call of the disk
/// failed.
pub(crate) fn flush<D: Disk, R: Receipt>(volume: &mut Volume<D, R>) -> Result<u64, Failed>
    requires steps { volume.old.steps < max_number }
    requires idle { IsIdle volume.old.volume }
    ensures flush { FlushOf R.state result volume.old volume.new }
    ensures work { work_of volume.new.volume ≡ work_of volume.old.volume }
    ensures put { HasAllPut volume.old.volume → HasAllPut volume.new.volume }
    ensures none { HasNoneToRemove volume.old.volume → HasNoneToRemove volume.new.volume }
    ensures victims { NeedsNoCopy volume.old.volume → NeedsNoCopy volume.new.volume }
    ensures idle { IsIdle volume.new.volume }
{
    let count = count_of(volume.step(Event::Flush));
    volume.is_volume();
    match count {
        Some(count) => Ok(count),
        None => Err(Failed),
    }
}
