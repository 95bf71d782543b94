ghost use Rattle.std.specs.Prelude.{◌≡◌, ◌<◌, ◌↔◌, IsOk, OnOk, OnErr, IfErr};
ghost use Rattle.std.specs.List.{All};
ghost use Rattle.std.specs.List.Sorted.{IsStrictlyIncreasing};
ghost use Rattle.object_table.specs.Table.{row_of};
ghost use Rattle.object_uploads.specs.Queue.{pins_of};
ghost use Rattle.object_uploads.specs.Removal.{UnpinsEach};

use crate::pinning::{are_pinned, unpin_each};
use crate::plan::Plan;
use lsvd_objstore::Receipt;
use obj_log::ObjLog;

/// Gives one pin of each of a plan's objects back, after the read was fetched or given up. The plan comes
/// back where one of its objects is not pinned, as it is another list's; then nothing changes. It takes no
/// memory.
pub fn release<R: Receipt>(objects: &mut ObjLog<R>, plan: Plan<R>) -> Result<(), Plan<R>>
    ensures out { IsOk result ↔ All (λ number. 0 < pins_of
        (row_of number objects.old.uploads.queue.maps.objects.rows)) plan.objects }
    ensures ascending { IsStrictlyIncreasing plan.objects }
    ensures unpinned { OnOk result (UnpinsEach plan.objects objects.old.uploads objects.new.uploads) }
    ensures batch { objects.new.batch ≡ objects.old.batch }
    ensures back { IfErr result (λ back. back ≡ plan) }
    ensures same { OnErr result (objects.new ≡ objects.old) }
{
    if !are_pinned(objects.uploads(), plan.objects()) {
        return Err(plan);
    }
    unpin_each(objects.uploads_mut(), plan.objects());
    Ok(())
}
