ghost use Rattle.std.specs.Prelude.{◌≡◌, ◌+◌, ◌-◌, ◌^◌, ◌<◌};
ghost use Rattle.object_uploads.specs.Order.{IsUploads};
ghost use Rattle.object_uploads.specs.Image.{TellAlike};
ghost use Rattle.vol_core.specs.Calls.{Seals, SealsCheckpoint, TakesLowestReady, Finishes, Returns};

use crate::reply::Reply;
use lsvd_objstore::Receipt;
use obj_log::{ObjLog, SealError};
use object_uploads::Job;
use std::alloc::{AllocError, Global};

/// Seals the next data object. The objects are of a volume as large as the batch's, and the numbers go on
/// below 2^64 - 1 (conditions).
pub(crate) fn seal<R: Receipt>(alloc: Global, objects: &mut ObjLog<R>) -> Reply<R>
    requires sectors { objects.old.uploads.sectors ≡ objects.old.batch.geometry.sectors }
    requires numbers { objects.old.uploads.window.last + 1 < 2 ^ 64 - 1 }
    ensures { Seals result objects.old objects.new }
{
    match objects.seal_data(alloc) {
        Ok(number) => Reply::Sealed(number),
        Err(SealError::Nothing) => Reply::Nothing,
        Err(SealError::Busy) => Reply::Busy,
        Err(SealError::OutOfMemory) => Reply::OutOfMemory,
    }
}

/// Seals a checkpoint. The numbers go on below 2^64 - 1 (a condition).
pub(crate) fn seal_checkpoint<R: Receipt>(alloc: Global, objects: &mut ObjLog<R>) -> Reply<R>
    requires { objects.old.uploads.window.last + 1 < 2 ^ 64 - 1 }
    ensures { SealsCheckpoint result objects.old objects.new }
{
    if objects.uploads().window().is_full() {
        return Reply::Busy;
    }
    match objects.uploads_mut().seal_checkpoint(alloc) {
        Ok(number) => Reply::Sealed(number),
        Err(AllocError) => Reply::OutOfMemory,
    }
}

/// Begins the put of the lowest ready object.
pub(crate) fn take_job<R: Receipt>(objects: &mut ObjLog<R>) -> Reply<R>
    ensures { TakesLowestReady result objects.old objects.new }
{
    match objects.uploads_mut().take_job() {
        Some(job) => Reply::Taken(job),
        None => Reply::Nothing,
    }
}

/// A put is done.
pub(crate) fn job_done<R: Receipt>(objects: &mut ObjLog<R>, job: Job, receipt: R) -> Reply<R>
    ensures done { Finishes R.state job receipt result objects.old objects.new }
    ensures order { IsUploads objects.new.uploads }
    ensures alike { TellAlike R.tells objects.new.uploads.queue }
{
    let reply = match objects.uploads_mut().job_done(&job, receipt) {
        Ok(frontier) => Reply::Done(frontier),
        Err(receipt) => Reply::NotDone { job, receipt },
    };
    objects.uploads().tell_alike();
    reply
}

/// A put failed.
pub(crate) fn job_failed<R: Receipt>(objects: &mut ObjLog<R>, job: Job) -> Reply<R>
    ensures { Returns job result objects.old objects.new }
{
    match objects.uploads_mut().job_failed(job) {
        Ok(()) => Reply::Returned,
        Err(job) => Reply::NotReturned(job),
    }
}
