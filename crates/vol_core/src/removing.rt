ghost use Rattle.object_uploads.specs.Order.{IsUploads};
ghost use Rattle.object_uploads.specs.Image.{TellAlike};
ghost use Rattle.vol_core.specs.Calls.{TakesLowestRemovable, FinishesRemoving, GivesBackRemoval};

use crate::reply::Reply;
use lsvd_objstore::Receipt;
use obj_log::ObjLog;

/// Begins the removal of the lowest object that may be removed.
pub(crate) fn take_remove<R: Receipt>(objects: &mut ObjLog<R>) -> Reply<R>
    ensures begun { TakesLowestRemovable R.state result objects.old objects.new }
    ensures order { IsUploads objects.new.uploads }
    ensures alike { TellAlike R.tells objects.old.uploads.queue }
{
    objects.uploads().tell_alike();
    match objects.uploads_mut().take_remove() {
        Some(receipt) => Reply::Removing(receipt),
        None => Reply::Nothing,
    }
}

/// The removal of the object of a number is done.
pub(crate) fn remove_done<R: Receipt>(objects: &mut ObjLog<R>, number: u64) -> Reply<R>
    ensures done { FinishesRemoving number result objects.old objects.new }
    ensures order { IsUploads objects.new.uploads }
{
    if objects.uploads_mut().remove_done(number) {
        Reply::Removed
    } else {
        Reply::Nothing
    }
}

/// The removal of the object that the receipt names failed.
pub(crate) fn remove_failed<R: Receipt>(objects: &mut ObjLog<R>, receipt: R) -> Reply<R>
    ensures given_back { GivesBackRemoval R.state receipt result objects.old objects.new }
    ensures order { IsUploads objects.new.uploads }
{
    match objects.uploads_mut().remove_failed(receipt) {
        Ok(()) => Reply::GivenBack,
        Err(receipt) => Reply::NotGivenBack(receipt),
    }
}
