ghost use Rattle.vol_recover.specs.Standing.{CreatedStands, MountedWithStands, MountedWithoutStands};
ghost use Rattle.vol_recover.specs.Standing.{StopLeavesStore, StopLeavesBoth, StepLeavesBoth};
ghost use Rattle.vol_recover.specs.Standing.{StoppedWithCache, StoppedWithoutCache};

use lsvd_objstore::Receipt;

/// A law: a volume that was created shows a plain volume for which its store stands, in epoch 0. So does one
/// that was mounted of what a mount asks for: with its cache in the epoch that there was, and without it in
/// the next one.
pub fn a_made_volume_stands_with_its_store()
    ensures created { CreatedStands }
    ensures with_cache { MountedWithStands }
    ensures without { MountedWithoutStands }
{}

/// A law: where a volume stands with its store, what a stop leaves of the two is what a mount asks for, with
/// the objects up to the one before the first missing number: of the store for one without the cache; and of
/// both for one with it, now, and at each moment of a step.
pub fn a_stop_leaves_what_a_mount_asks_for<R: Receipt>()
    ensures store { StopLeavesStore }
    ensures both { StopLeavesBoth }
    ensures step { StepLeavesBoth R.state }
{}

/// A law: what is left where a mount failed or was stopped is what such a mount asks for, of the same plain
/// volume or of the one that it was to make: of the store what a mount that fails may leave, and of the
/// device what a stop leaves at any moment of it.
pub fn a_stopped_mount_may_be_made_again()
    ensures with_cache { StoppedWithCache }
    ensures without { StoppedWithoutCache }
{}
