ghost use Rattle.std.specs.Prelude.{◌≡◌, ◌+◌, ◌-◌, ◌^◌, ◌<◌, ◌≤◌, IfOk, IfErr, IfSome, option_map};
ghost use Rattle.object_uploads.specs.Collection.{ArePlacesInside, HasPlanned};
ghost use Rattle.vol_core.specs.Calls.{Plans, MayStandNext, SealsCopy, SealsPlanned, RefusesCopy, Drops};

use crate::reply::{Reply, SealRefusal};
use gc_copier::{Copied, GcPlan};
use lsvd_objstore::Receipt;
use obj_log::ObjLog;
use std::alloc::{AllocError, Global};

/// Plans a copy of as many sectors as fill a batch, where no plan is out. A batch is small enough for a copy,
/// and all places in the map are inside objects that are in the store (conditions).
pub(crate) fn plan_copy<R: Receipt>(
    alloc: Global,
    objects: &mut ObjLog<R>,
    out: &mut Option<GcPlan<R>>,
) -> Reply<R>
    requires most { objects.old.batch.geometry.batch ≤ 131071 }
    requires inside { ArePlacesInside objects.old.uploads.queue }
    ensures { Plans result out.old out.new objects.old objects.new }
{
    if out.is_some() {
        return Reply::Busy;
    }
    if !objects.uploads().has_victims() {
        return Reply::Nothing;
    }
    match planned(alloc, objects) {
        Ok(Some((plan, copy))) => {
            objects.uploads_mut().begin_plan(&plan);
            *out = Some(plan);
            Reply::Copying(copy)
        }
        Ok(None) => Reply::Nothing,
        Err(AllocError) => Reply::OutOfMemory,
    }
}

// The next plan of a copy, twice. The conditions are those of `plan_copy`, and the one error is out of
// memory.
fn planned<R: Receipt>(
    alloc: Global,
    objects: &ObjLog<R>,
) -> Result<Option<(GcPlan<R>, GcPlan<R>)>, AllocError>
    requires most { objects.now.batch.geometry.batch ≤ 131071 }
    requires inside { ArePlacesInside objects.now.uploads.queue }
    ensures planned { IfOk result (λ plans. HasPlanned objects.now.batch.geometry.batch objects.now.uploads
        (option_map (λ both. both.0) plans)) }
    ensures twice { IfOk result (λ plans. IfSome plans (λ both. both.1 ≡ both.0)) }
{
    let most = objects.batch().geometry().batch;
    let Some(plan) = objects.uploads().plan_copy(alloc, most)? else {
        return Ok(None);
    };
    let copy = plan.copy(alloc)?;
    Ok(Some((plan, copy)))
}

/// Seals what was copied by the plan that is out, which ends. The numbers go on below 2^64 - 1, the objects
/// are of a volume as large as the batch's, and the rows of the plan that is out are 65,536 at most, and may
/// stand in the next object (conditions).
pub(crate) fn seal_copy<R: Receipt>(
    alloc: Global,
    objects: &mut ObjLog<R>,
    out: &mut Option<GcPlan<R>>,
    copied: Copied<R>,
) -> Reply<R>
    requires numbers { objects.old.uploads.window.last + 1 < 2 ^ 64 - 1 }
    requires sectors { objects.old.uploads.sectors ≡ objects.old.batch.geometry.sectors }
    requires rows { MayStandNext out.old objects.old }
    ensures { SealsCopy copied result out.old out.new objects.old objects.new }
{
    match seal_planned(alloc, objects, out, &copied) {
        Ok(number) => Reply::Sealed(number),
        Err(why) => Reply::NotSealed { copied, why },
    }
}

// Seals it, and answers the number of its object, or why not. The conditions are those of `seal_copy`.
fn seal_planned<R: Receipt>(
    alloc: Global,
    objects: &mut ObjLog<R>,
    out: &mut Option<GcPlan<R>>,
    copied: &Copied<R>,
) -> Result<u64, SealRefusal>
    requires numbers { objects.old.uploads.window.last + 1 < 2 ^ 64 - 1 }
    requires sectors { objects.old.uploads.sectors ≡ objects.old.batch.geometry.sectors }
    requires rows { MayStandNext out.old objects.old }
    ensures ok { IfOk result (λ number. SealsPlanned copied.now number out.old out.new objects.old
        objects.new) }
    ensures err { IfErr result (λ why. RefusesCopy why copied.now out.old out.new objects.old objects.new) }
{
    let Some(plan) = out.as_ref() else {
        return Err(SealRefusal::NotPlanned);
    };
    if !copied.is_of(plan) {
        return Err(SealRefusal::NotPlanned);
    }
    if objects.uploads().window().is_full() {
        return Err(SealRefusal::Busy);
    }
    // What was copied is a fact for the proof.
    copied.rows();
    let Ok(number) = objects.seal_copy(alloc, copied) else {
        return Err(SealRefusal::OutOfMemory);
    };
    objects.uploads_mut().end_plan(plan);
    *out = None;
    Ok(number)
}

/// Gives up the plan that is out.
pub(crate) fn drop_plan<R: Receipt>(
    objects: &mut ObjLog<R>,
    out: &mut Option<GcPlan<R>>,
) -> Reply<R>
    ensures { Drops result out.old out.new objects.old objects.new }
{
    match out.take() {
        Some(plan) => {
            objects.uploads_mut().end_plan(&plan);
            Reply::Dropped
        }
        None => Reply::Nothing,
    }
}
