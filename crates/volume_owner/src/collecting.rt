ghost use Rattle.std.specs.Prelude.{◌≡◌, ◌+◌, ◌<◌, [], Some, None, IfOk, IsErrOf, IsOkUnless};
ghost use Rattle.lsvd_objstore.specs.Store.{StoreState};
ghost use Rattle.vol_core.specs.Events.{IsPlanned};
ghost use Rattle.vol_core.specs.Shows.{max_number};
ghost use Rattle.vol_core.specs.View.{plan_out, volume_disk};
ghost use Rattle.volume_owner.specs.Owner.{IsIdle};
ghost use Rattle.volume_owner.specs.Acts.{moment_of, IsMadeOfActs};
ghost use Rattle.volume_owner.specs.Tally.{IsTally};
ghost use Rattle.volume_owner.specs.Calls.{MakesSteps, IsCall};
ghost use Rattle.volume_owner.specs.Collecting.{CollectOf, EndsPlan, GivesUp, copied_in};
ghost use Rattle.volume_owner.specs.Errors.{is_eio};

use crate::error::OwnerError;
use crate::replies::{copying_of, turn_of};
use gc_copier::{Copied, GcPlan, copy};
use lsvd_device::Disk;
use lsvd_objstore::{Receipt, Store};
use std::alloc::Global;
use vol_core::{Event, Volume};

/// What a turn of a collection did.
#[derive(Clone, Copy, Debug, PartialEq, Eq)]
pub enum Turn {
    /// So many sectors were copied, and are sealed as the next object, which waits for its put.
    Did { sectors: u64 },
    /// Nothing: there is no victim, a plan is out, or 16 objects are on their way.
    Idle,
}

/// One turn of a collection: plans a copy of live sectors, reads them out of the store, and seals them as the
/// next object. A plan that it does not seal it gives up.
///
/// `Eio` comes where a get failed, which the store counted, and `OutOfMemory` where memory ran out. Then
/// nothing has changed.
pub(crate) fn collect<D: Disk, R: Receipt, S: Store<Receipt = R>>(
    alloc: Global,
    volume: &mut Volume<D, R>,
    store: &mut S,
) -> Result<Turn, OwnerError>
    requires steps { volume.old.steps + 2 < max_number }
    requires idle { IsIdle volume.old.volume }
    ensures collect { CollectOf R.state result volume.old volume.new (S.state store.old)
        (S.state store.new) }
    ensures idle { IsIdle volume.new.volume }
{
    match copying_of(volume.step(Event::PlanCopy))? {
        Some(plan) => copy_planned(alloc, volume, store, plan),
        None => Ok(Turn::Idle),
    }
}

// Copies by the plan that is out (a condition), and seals what was copied, or gives the plan up. The errors
// are those of `collect`.
fn copy_planned<D: Disk, R: Receipt, S: Store<Receipt = R>>(
    alloc: Global,
    volume: &mut Volume<D, R>,
    store: &mut S,
    plan: GcPlan<R>,
) -> Result<Turn, OwnerError>
    requires steps { volume.old.steps + 1 < max_number }
    requires idle { IsIdle volume.old.volume }
    requires planned { plan_out volume.old.volume ≡ Some plan }
    ensures call { IsCall R.state 2 [] (is_eio result) volume.old volume.new (S.state store.old)
        (S.state store.new) }
    ensures tally { IfOk result (λ turn. IsTally R.state (copied_in turn) 0
        (moment_of volume.old (S.state store.old)) (moment_of volume.new (S.state store.new))) }
    ensures none { plan_out volume.new.volume ≡ None }
    ensures ends { EndsPlan result volume.old.volume volume.new.volume }
    ensures error { IsErrOf result OwnerError.Range → ⊥ }
    ensures idle { IsIdle volume.new.volume }
{
    let result = copy(alloc, &plan, store);
    drop(plan);
    match result {
        Ok(copied) => seal_copied(volume, copied),
        Err(error) => {
            give_up(volume);
            Err(error.into())
        }
    }
}

// Seals what was copied by the plan that is out (a condition), or gives that up. The one error is that memory
// ran out.
fn seal_copied<D: Disk, R: Receipt>(
    volume: &mut Volume<D, R>,
    copied: Copied<R>,
) -> Result<Turn, OwnerError>
    requires steps { volume.old.steps + 1 < max_number }
    requires idle { IsIdle volume.old.volume }
    requires planned { IsPlanned (plan_out volume.old.volume) copied }
    ensures acts { (store : StoreState)
        → IsMadeOfActs R.state [] (moment_of volume.old store) (moment_of volume.new store) }
    ensures steps { MakesSteps 2 [] volume.old volume.new }
    ensures tally { IfOk result (λ turn. (store : StoreState) → IsTally R.state (copied_in turn) 0
        (moment_of volume.old store) (moment_of volume.new store)) }
    ensures none { plan_out volume.new.volume ≡ None }
    ensures ends { EndsPlan result volume.old.volume volume.new.volume }
    ensures error { IsOkUnless result OwnerError.OutOfMemory }
    ensures faults { (volume_disk volume.new.volume).faults ≡ (volume_disk volume.old.volume).faults }
    ensures idle { IsIdle volume.new.volume }
{
    let sectors = copied.sectors();
    let turn = turn_of(sectors, volume.step(Event::SealCopy(copied)));
    // Once the copy is sealed no plan is out, so this does nothing then.
    give_up(volume);
    turn
}

/// Gives up the plan that is out, if one is.
pub(crate) fn give_up<D: Disk, R: Receipt>(volume: &mut Volume<D, R>)
    requires steps { volume.old.steps < max_number }
    requires idle { IsIdle volume.old.volume }
    ensures acts { (store : StoreState)
        → IsMadeOfActs R.state [] (moment_of volume.old store) (moment_of volume.new store) }
    ensures steps { MakesSteps 1 [] volume.old volume.new }
    ensures tally { (store : StoreState)
        → IsTally R.state 0 0 (moment_of volume.old store) (moment_of volume.new store) }
    ensures none { plan_out volume.new.volume ≡ None }
    ensures gives_up { GivesUp volume.old.volume volume.new.volume }
    ensures faults { (volume_disk volume.new.volume).faults ≡ (volume_disk volume.old.volume).faults }
    ensures idle { IsIdle volume.new.volume }
{
    drop(volume.step(Event::DropPlan));
}
