ghost use Rattle.std.specs.Prelude.{◌≡◌, ◌+◌, ◌<◌, ◌≤◌, [], IfOk, OnOk, IsErrOf, IsOkUnless};
ghost use Rattle.vol_core.specs.declared.event.Event.TheVariants as events;
ghost use Rattle.vol_core.specs.Shows.{max_number};
ghost use Rattle.vol_core.specs.View.{objects_on_way, unsealed_entries, volume_disk};
ghost use Rattle.volume_owner.specs.Owner.{IsIdle};
ghost use Rattle.volume_owner.specs.Acts.{moment_of, MakesStep};
ghost use Rattle.volume_owner.specs.Tally.{IsTally};
ghost use Rattle.volume_owner.specs.Calls.{MakesSteps, IsCall};
ghost use Rattle.volume_owner.specs.Clearing.{AwaitsCheckpoint, HasAllPut};
ghost use Rattle.volume_owner.specs.Collecting.{NeedsNoCopy};
ghost use Rattle.volume_owner.specs.Errors.{is_eio};
ghost use Rattle.volume_owner.specs.Helping.{work_of, most_work, HasHelped, IsTaken};

use crate::error::OwnerError;
use crate::replies::{job_of, seal_of};
use lsvd_device::Disk;
use lsvd_objstore::{Receipt, Store};
use std::alloc::Global;
use vol_core::{Event, Job, Volume};

/// Puts the lowest object that waits for its put; where none does, seals the next one. Answers whether there
/// was one, or were entries for one.
///
/// `Eio` comes where the put failed, and `OutOfMemory` where memory ran out. The object then waits again.
pub(crate) fn help<D: Disk, R: Receipt, S: Store<Receipt = R>>(
    alloc: Global,
    volume: &mut Volume<D, R>,
    store: &mut S,
) -> Result<bool, OwnerError>
    requires steps { volume.old.steps + 1 < max_number }
    requires idle { IsIdle volume.old.volume }
    ensures help { IsCall R.state 2 [] (is_eio result) volume.old volume.new (S.state store.old)
        (S.state store.new) }
    ensures tally { OnOk result (IsTally R.state 0 0 (moment_of volume.old (S.state store.old))
        (moment_of volume.new (S.state store.new))) }
    ensures less { IfOk result (λ has_helped. HasHelped has_helped volume.old.volume volume.new.volume) }
    ensures put { AwaitsCheckpoint volume.old.volume → OnOk result (HasAllPut volume.new.volume) }
    ensures victims { unsealed_entries volume.old.volume ≡ [] → NeedsNoCopy volume.old.volume
        → NeedsNoCopy volume.new.volume }
    ensures work { work_of volume.old.volume ≤ most_work }
    ensures error { IsErrOf result OwnerError.Range → ⊥ }
    ensures idle { IsIdle volume.new.volume }
{
    match job_of(volume.step(Event::TakeJob)) {
        Some(job) => {
            put(alloc, volume, store, job)?;
            Ok(true)
        }
        None => seal(volume),
    }
}

// Puts the object of the one job that is out (a condition). The errors are those of `help`.
fn put<D: Disk, R: Receipt, S: Store<Receipt = R>>(
    alloc: Global,
    volume: &mut Volume<D, R>,
    store: &mut S,
    job: Job,
) -> Result<(), OwnerError>
    requires steps { volume.old.steps < max_number }
    requires job { IsTaken job volume.old.volume }
    ensures call { IsCall R.state 1 [] (is_eio result) volume.old volume.new (S.state store.old)
        (S.state store.new) }
    ensures tally { OnOk result (IsTally R.state 0 0 (moment_of volume.old (S.state store.old))
        (moment_of volume.new (S.state store.new))) }
    ensures less { OnOk result (work_of volume.new.volume < work_of volume.old.volume) }
    ensures put { AwaitsCheckpoint volume.old.volume → OnOk result (HasAllPut volume.new.volume) }
    ensures victims { NeedsNoCopy volume.old.volume → NeedsNoCopy volume.new.volume }
    ensures error { IsErrOf result OwnerError.Range → ⊥ }
    ensures idle { IsIdle volume.new.volume }
{
    match job.put(alloc, store) {
        Ok(receipt) => {
            drop(volume.step(Event::JobDone { job, receipt }));
            Ok(())
        }
        Err(error) => {
            drop(volume.step(Event::JobFailed(job)));
            Err(error.into())
        }
    }
}

// Seals the next object. No object is on its way (a condition). Answers whether there were entries for one;
// the one error is that memory ran out.
fn seal<D: Disk, R: Receipt>(volume: &mut Volume<D, R>) -> Result<bool, OwnerError>
    requires steps { volume.old.steps < max_number }
    requires idle { IsIdle volume.old.volume }
    requires none { objects_on_way volume.old.volume ≡ [] }
    ensures step { MakesStep R.state events.Seal [] volume.old volume.new }
    ensures steps { MakesSteps 1 [] volume.old volume.new }
    ensures victims { unsealed_entries volume.old.volume ≡ [] → NeedsNoCopy volume.old.volume
        → NeedsNoCopy volume.new.volume }
    ensures less { IfOk result (λ has_sealed. HasHelped has_sealed volume.old.volume volume.new.volume) }
    ensures error { IsOkUnless result OwnerError.OutOfMemory }
    ensures faults { (volume_disk volume.new.volume).faults ≡ (volume_disk volume.old.volume).faults }
    ensures idle { IsIdle volume.new.volume }
{
    seal_of(volume.step(Event::Seal))
}
