ghost use Rattle.std.specs.Prelude.{◌≡◌, ◌+◌, ◌^◌, ◌<◌, ◌≤◌, false, [], IfOk, OnOk, IsErrOf, IsOkUnless};
ghost use Rattle.lsvd_objstore.specs.Store.{StoreState};
ghost use Rattle.vol_core.specs.Shows.{max_number};
ghost use Rattle.vol_core.specs.View.{objects_on_way, unsealed_entries, volume_disk};
ghost use Rattle.volume_owner.specs.Owner.{IsIdle};
ghost use Rattle.volume_owner.specs.Acts.{moment_of, IsMadeOfActs};
ghost use Rattle.volume_owner.specs.Tally.{IsTally};
ghost use Rattle.volume_owner.specs.Calls.{HasNoneToRemove, MakesSteps, IsCall};
ghost use Rattle.volume_owner.specs.Clearing.{HasAllPut, IsSealedUp, NoneIfNot, count_of_removed};
ghost use Rattle.volume_owner.specs.Clearing.{most_of_removals};
ghost use Rattle.volume_owner.specs.Collecting.{NeedsNoCopy};
ghost use Rattle.volume_owner.specs.Errors.{is_eio};

use crate::error::OwnerError;
use crate::helping::help;
use crate::replies::{is_newest_checkpoint, receipt_of, seal_of};
use lsvd_device::Disk;
use lsvd_objstore::{Receipt, Store};
use std::alloc::Global;
use vol_core::{Event, Volume};

// How many objects are removed at once at most. No table has room for as many.
const MOST_REMOVALS: u64 = 1 << 37;

/// Seals a checkpoint and puts it, where the newest object is none. No entry is unsealed, and no object is on
/// its way (conditions).
///
/// `Eio` comes where the put failed, and `OutOfMemory` where memory ran out.
pub(crate) fn put_checkpoint<D: Disk, R: Receipt, S: Store<Receipt = R>>(
    alloc: Global,
    volume: &mut Volume<D, R>,
    store: &mut S,
) -> Result<(), OwnerError>
    requires steps { volume.old.steps + 3 < max_number }
    requires idle { IsIdle volume.old.volume }
    requires unsealed { unsealed_entries volume.old.volume ≡ [] }
    requires none { objects_on_way volume.old.volume ≡ [] }
    ensures call { IsCall R.state 4 [] (is_eio result) volume.old volume.new (S.state store.old)
        (S.state store.new) }
    ensures tally { OnOk result (IsTally R.state 0 0 (moment_of volume.old (S.state store.old))
        (moment_of volume.new (S.state store.new))) }
    ensures put { OnOk result (HasAllPut volume.new.volume) }
    ensures victims { NeedsNoCopy volume.old.volume → NeedsNoCopy volume.new.volume }
    ensures error { IsErrOf result OwnerError.Range → ⊥ }
    ensures idle { IsIdle volume.new.volume }
{
    if seal_checkpoint(volume)? {
        help(alloc, volume, store)?;
    }
    Ok(())
}

// Seals a checkpoint where the newest object is none. No entry is unsealed, and no object is on its way
// (conditions). Answers whether one was sealed; the one error is that memory ran out.
fn seal_checkpoint<D: Disk, R: Receipt>(volume: &mut Volume<D, R>) -> Result<bool, OwnerError>
    requires steps { volume.old.steps + 1 < max_number }
    requires idle { IsIdle volume.old.volume }
    requires unsealed { unsealed_entries volume.old.volume ≡ [] }
    requires none { objects_on_way volume.old.volume ≡ [] }
    ensures acts { (store : StoreState)
        → IsMadeOfActs R.state [] (moment_of volume.old store) (moment_of volume.new store) }
    ensures steps { MakesSteps 2 [] volume.old volume.new }
    ensures tally { (store : StoreState)
        → IsTally R.state 0 0 (moment_of volume.old store) (moment_of volume.new store) }
    ensures sealed { IfOk result (λ has_sealed. IsSealedUp has_sealed volume.new.volume) }
    ensures victims { NeedsNoCopy volume.old.volume → NeedsNoCopy volume.new.volume }
    ensures error { IsOkUnless result OwnerError.OutOfMemory }
    ensures faults { (volume_disk volume.new.volume).faults ≡ (volume_disk volume.old.volume).faults }
    ensures idle { IsIdle volume.new.volume }
{
    if is_newest_checkpoint(volume.step(Event::Status)) {
        return Ok(false);
    }
    seal_of(volume.step(Event::SealCheckpoint))
}

/// Removes each object that may be removed from the store, and answers how many were. Each object is put, and
/// the newest is a checkpoint (a condition).
///
/// `Eio` comes where the store did not acknowledge a removal; the object may be removed again then.
/// `OutOfMemory` comes where 2^37 objects were removed, and there may be more.
pub(crate) fn remove_all<D: Disk, R: Receipt, S: Store<Receipt = R>>(
    volume: &mut Volume<D, R>,
    store: &mut S,
) -> Result<u64, OwnerError>
    requires steps { volume.old.steps + most_of_removals < max_number }
    requires idle { IsIdle volume.old.volume }
    requires put { HasAllPut volume.old.volume }
    ensures call { IsCall R.state most_of_removals [] (is_eio result) volume.old volume.new
        (S.state store.old) (S.state store.new) }
    ensures removed { IfOk result (λ removed. IsTally R.state 0 removed
        (moment_of volume.old (S.state store.old)) (moment_of volume.new (S.state store.new))) }
    ensures few { IfOk result (λ removed. removed ≤ 2 ^ 37) }
    ensures put { HasAllPut volume.new.volume }
    ensures victims { NeedsNoCopy volume.old.volume → NeedsNoCopy volume.new.volume }
    ensures none { OnOk result (HasNoneToRemove volume.new.volume) }
    ensures error { IsErrOf result OwnerError.Range → ⊥ }
    ensures idle { IsIdle volume.new.volume }
{
    for removed in 0..MOST_REMOVALS {
        if !remove_next(volume, store)? {
            return Ok(removed);
        }
    }
    Err(OwnerError::OutOfMemory)
}

// Removes the lowest object that may be removed from the store. Answers whether there was one.
//
// `Eio` comes where the store did not acknowledge the removal, which it counted. The object may be removed
// again then.
fn remove_next<D: Disk, R: Receipt, S: Store<Receipt = R>>(
    volume: &mut Volume<D, R>,
    store: &mut S,
) -> Result<bool, OwnerError>
    requires steps { volume.old.steps + 1 < max_number }
    requires idle { IsIdle volume.old.volume }
    requires put { HasAllPut volume.old.volume }
    ensures call { IsCall R.state 2 [] (is_eio result) volume.old volume.new (S.state store.old)
        (S.state store.new) }
    ensures removed { IfOk result (λ has_removed. IsTally R.state 0 (count_of_removed has_removed)
        (moment_of volume.old (S.state store.old)) (moment_of volume.new (S.state store.new))) }
    ensures put { HasAllPut volume.new.volume }
    ensures victims { NeedsNoCopy volume.old.volume → NeedsNoCopy volume.new.volume }
    ensures none { IfOk result (λ has_removed. NoneIfNot has_removed volume.new.volume) }
    ensures error { IsErrOf result OwnerError.Range → ⊥ }
    ensures idle { IsIdle volume.new.volume }
{
    let Some(receipt) = receipt_of(volume.step(Event::TakeRemove)) else {
        volume.is_volume();
        return Ok(false);
    };
    let number = receipt.name().number;
    match store.remove(&receipt) {
        Ok(()) => {
            drop(volume.step(Event::RemoveDone { number }));
            Ok(true)
        }
        Err(failed) => {
            drop(volume.step(Event::RemoveFailed(receipt)));
            Err(failed.into())
        }
    }
}
