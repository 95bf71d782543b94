ghost use Rattle.std.specs.Prelude.{◌≡◌, ℕ, ◌<◌, ◌≤◌, true};
ghost use Rattle.lsvd_base.specs.Range.{is_in_range};
ghost use Rattle.lsvd_fault.specs.Faults.{Counts};
ghost use Rattle.vol_core.specs.Calls.{event_of};
ghost use Rattle.vol_core.specs.Shows.{max_number};
ghost use Rattle.vol_core.specs.View.{volume_disk, volume_geometry};
ghost use Rattle.volume_owner.specs.Owner.{IsIdle, max_steps};
ghost use Rattle.volume_owner.specs.Acts.{MakesStep};
ghost use Rattle.volume_owner.specs.Calls.{MakesSteps, IsLengthOf, EnterOf};
ghost use Rattle.volume_owner.specs.Helping.{work_of, most_work, entered_by, attempt_failed, MayTryAgain};

use crate::error::OwnerError;
use crate::helping::help;
use crate::replies::{Attempt, attempt_of};
use lsvd_base::{Entry, in_range};
use lsvd_device::Disk;
use lsvd_objstore::{Receipt, Store};
use std::alloc::Global;
use vol_core::{Event, Volume};

/// Enters an entry. Where the volume has no room for it, objects are sealed and put until it has.
pub(crate) fn enter<D: Disk, R: Receipt, S: Store<Receipt = R>>(
    alloc: Global,
    volume: &mut Volume<D, R>,
    store: &mut S,
    entry: Entry,
) -> Result<u64, OwnerError>
    requires steps { volume.old.steps ≤ max_steps }
    requires idle { IsIdle volume.old.volume }
    ensures enter { EnterOf R.state entry result volume.old volume.new (S.state store.old)
        (S.state store.new) }
    ensures idle { IsIdle volume.new.volume }
{
    if !in_range(&entry, &volume.geometry()) {
        return Err(OwnerError::Range);
    }
    let mut left = entry;
    loop {
        left = match try_entry(volume, left) {
            Attempt::Entered(count) => return Ok(count),
            Attempt::Again(back) => back,
            Attempt::Failed => return Err(OwnerError::Eio),
            Attempt::OutOfMemory => return Err(OwnerError::OutOfMemory),
        };
        help(alloc, volume, store)?;
    }
}

// Tries to enter an entry, which is in range (a condition), by one step.
fn try_entry<D: Disk, R: Receipt>(volume: &mut Volume<D, R>, entry: Entry) -> Attempt
    requires steps { volume.old.steps < max_number }
    requires idle { IsIdle volume.old.volume }
    requires range { is_in_range (volume_geometry volume.old.volume) entry ≡ true }
    ensures step { MakesStep R.state (event_of entry) (entered_by entry result) volume.old volume.new }
    ensures steps { MakesSteps 1 (entered_by entry result) volume.old volume.new }
    ensures count { (count : ℕ) → result ≡ Attempt.Entered count → IsLengthOf count volume.new.volume }
    ensures back { MayTryAgain entry result volume.old.volume volume.new.volume }
    ensures work { work_of volume.old.volume ≤ most_work }
    ensures faults { Counts (attempt_failed result) (volume_disk volume.old.volume).faults
        (volume_disk volume.new.volume).faults }
    ensures idle { IsIdle volume.new.volume }
{
    attempt_of(volume.step(event_for(entry)))
}

// The event of an entry.
fn event_for<R: Receipt>(entry: Entry) -> Event<R>
    ensures { result ≡ event_of entry }
{
    match entry {
        Entry::Write { lba, body } => Event::Write { lba, body },
        Entry::Zero { lba, sectors } => Event::Zero { lba, sectors },
    }
}
