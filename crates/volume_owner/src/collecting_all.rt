ghost use Rattle.std.specs.Prelude.{◌≡◌, ◌+◌, ◌^◌, ◌<◌, ◌≤◌, [], None, IfOk, OnOk, IsErrOf};
ghost use Rattle.vol_core.specs.Shows.{max_number};
ghost use Rattle.vol_core.specs.View.{plan_out};
ghost use Rattle.volume_owner.specs.Owner.{IsIdle, max_steps};
ghost use Rattle.volume_owner.specs.Acts.{moment_of};
ghost use Rattle.volume_owner.specs.Tally.{IsTally};
ghost use Rattle.volume_owner.specs.Calls.{IsCall};
ghost use Rattle.volume_owner.specs.Collecting.{CollectAllOf, NeedsNoCopy, NoneIfIdle, copied_in};
ghost use Rattle.volume_owner.specs.Collecting.{most_of_copies};
ghost use Rattle.volume_owner.specs.Errors.{is_eio};
ghost use Rattle.volume_owner.specs.Helping.{work_of};

use crate::collecting::{Turn, collect, give_up};
use crate::draining::drain;
use crate::error::OwnerError;
use crate::helping::help;
use lsvd_device::Disk;
use lsvd_objstore::{Receipt, Store};
use std::alloc::Global;
use vol_core::Volume;

/// What a whole collection did.
#[derive(Clone, Copy, Debug, PartialEq, Eq)]
pub struct Collected {
    /// How many sectors were copied.
    pub copied: u64,
    /// How many objects were removed.
    pub removed: u64,
}

// How many copies are made at once at most. Each is an object of its own, and no table has room for as many.
const MOST_COPIES: u64 = 1 << 36;

/// A whole collection: drains, copies live sectors out of victims until none is left, and drains again, which
/// removes what is not needed any more. A plan of a copy that is out it gives up first.
pub(crate) fn collect_all<D: Disk, R: Receipt, S: Store<Receipt = R>>(
    alloc: Global,
    volume: &mut Volume<D, R>,
    store: &mut S,
) -> Result<Collected, OwnerError>
    requires steps { volume.old.steps ≤ max_steps }
    requires idle { IsIdle volume.old.volume }
    ensures collect { CollectAllOf R.state result volume.old volume.new (S.state store.old)
        (S.state store.new) }
    ensures idle { IsIdle volume.new.volume }
{
    give_up(volume);
    let before = drain(alloc, volume, store)?;
    let copied = copy_victims(alloc, volume, store)?;
    let after = drain(alloc, volume, store)?;
    volume.is_volume();
    Ok(Collected {
        copied,
        removed: before.removed + after.removed,
    })
}

// Copies live sectors out of victims until there is none, and puts each copy. Nothing is unsealed or on its
// way, and no plan of a copy is out (conditions). Answers how many sectors were copied.
//
// `OutOfMemory` comes also where 2^36 copies were made, and there may be more.
fn copy_victims<D: Disk, R: Receipt, S: Store<Receipt = R>>(
    alloc: Global,
    volume: &mut Volume<D, R>,
    store: &mut S,
) -> Result<u64, OwnerError>
    requires steps { volume.old.steps + most_of_copies < max_number }
    requires idle { IsIdle volume.old.volume }
    requires work { work_of volume.old.volume ≡ 0 }
    requires plan { plan_out volume.old.volume ≡ None }
    ensures call { IsCall R.state most_of_copies [] (is_eio result) volume.old volume.new
        (S.state store.old) (S.state store.new) }
    ensures tally { IfOk result (λ copied. IsTally R.state copied 0
        (moment_of volume.old (S.state store.old)) (moment_of volume.new (S.state store.new))) }
    ensures work { OnOk result (work_of volume.new.volume ≡ 0) }
    ensures victims { OnOk result (NeedsNoCopy volume.new.volume) }
    ensures error { IsErrOf result OwnerError.Range → ⊥ }
    ensures idle { IsIdle volume.new.volume }
{
    let mut copied = 0;
    for _ in 0..MOST_COPIES {
        match copy_next(alloc, volume, store)? {
            Turn::Did { sectors } => copied += sectors,
            Turn::Idle => return Ok(copied),
        }
    }
    Err(OwnerError::OutOfMemory)
}

// One turn, whose copy is put. The conditions are those of `copy_victims`.
fn copy_next<D: Disk, R: Receipt, S: Store<Receipt = R>>(
    alloc: Global,
    volume: &mut Volume<D, R>,
    store: &mut S,
) -> Result<Turn, OwnerError>
    requires steps { volume.old.steps + 4 < max_number }
    requires idle { IsIdle volume.old.volume }
    requires work { work_of volume.old.volume ≡ 0 }
    requires plan { plan_out volume.old.volume ≡ None }
    ensures call { IsCall R.state 5 [] (is_eio result) volume.old volume.new (S.state store.old)
        (S.state store.new) }
    ensures tally { IfOk result (λ turn. IsTally R.state (copied_in turn) 0
        (moment_of volume.old (S.state store.old)) (moment_of volume.new (S.state store.new))) }
    ensures work { OnOk result (work_of volume.new.volume ≡ 0) }
    ensures victims { IfOk result (λ turn. NoneIfIdle turn volume.new.volume) }
    ensures error { IsErrOf result OwnerError.Range → ⊥ }
    ensures idle { IsIdle volume.new.volume }
{
    volume.is_volume();
    match collect(alloc, volume, store)? {
        Turn::Did { sectors } => {
            help(alloc, volume, store)?;
            Ok(Turn::Did { sectors })
        }
        Turn::Idle => Ok(Turn::Idle),
    }
}
