ghost use Rattle.std.specs.Prelude.{◌≡◌, ℕ, ◌+◌, ◌*◌, ◌<◌, ◌^◌, IfOk, OnErr, IsErrOf, is_ok, length};
ghost use Rattle.std.specs.List.{All};
ghost use Rattle.extent_map.specs.Extents.{AllFit};
ghost use Rattle.object_table.specs.Table.{row_of};
ghost use Rattle.volume_maps.specs.Places.{volume_number};
ghost use Rattle.object_uploads.specs.Queue.{pins_of};
ghost use Rattle.object_uploads.specs.Order.{IsUploads};
ghost use Rattle.object_uploads.specs.Removal.{PinsEach};
ghost use Rattle.read_plan.specs.declared.error.LookError.TheVariants as errors;
ghost use Rattle.read_plan.specs.Plan.{TellsWhole};
ghost use Rattle.read_plan.specs.Places.{LogHasPlaces, ObjectsHavePlaces};
ghost use Rattle.read_plan.specs.Look.{MayLook, IsReadPlan, ReadsRange};

use crate::error::LookError;
use crate::objects::{numbers_of, pieces_of};
use crate::pinning::pin_each;
use crate::plan::Plan;
use crate::rows::read_rows;
use cache_log::CacheLog;
use lsvd_base::SECTOR_BYTES;
use lsvd_device::Disk;
use lsvd_objstore::Receipt;
use obj_log::ObjLog;
use std::alloc::Global;

/// Plans a read of `sectors` sectors from `lba` on: 1 to 65,536 of them, below 2^31 (a condition). What the
/// log has of them is read at once, by one read of the device for each row of data in it; where objects have
/// the others is noted with the receipts, and then each of these objects that is the volume's own is pinned
/// once more: those of ancestors are never removed. The log has the data of the places that its map gives,
/// and the objects those of the places that theirs does; each object has fewer than 2^64 - 1 pins
/// (conditions).
///
/// `Fault` comes where a read failed, which was the last that was made, and `OutOfMemory` where memory ran
/// out: all memory is taken before the first read. After an error the objects are as before.
pub fn look<D: Disk, R: Receipt>(
    alloc: Global,
    objects: &mut ObjLog<R>,
    log: &mut CacheLog<D>,
    lba: u64,
    sectors: u64,
) -> Result<Plan<R>, LookError>
    requires range { MayLook lba sectors }
    requires log { LogHasPlaces lba sectors objects.old.uploads.queue.maps log.old }
    requires objects { ObjectsHavePlaces lba sectors objects.old.uploads.queue }
    requires pins { (number : ℕ) → pins_of (row_of number objects.old.uploads.queue.maps.objects.rows) + 1
        < 2 ^ 64 }
    ensures plan { IfOk result (IsReadPlan lba sectors objects.old log.old) }
    ensures whole { IfOk result (λ plan. All (λ piece. TellsWhole piece.receipt) plan.pieces) }
    ensures pinned { IfOk result (λ plan. PinsEach plan.objects objects.old.uploads objects.new.uploads) }
    ensures batch { objects.new.batch ≡ objects.old.batch }
    ensures same { OnErr result (objects.new ≡ objects.old) }
    ensures order { IsUploads objects.old.uploads }
    ensures reads { (IsErrOf result errors.OutOfMemory → ⊥)
        → ReadsRange lba sectors objects.old.uploads.queue.maps (is_ok result) log.old log.new }
    ensures memory { IsErrOf result errors.OutOfMemory → log.new ≡ log.old }
{
    let rows = objects.uploads().look(alloc, lba, sectors)?;
    let pieces = pieces_of(alloc, objects, &rows, lba)?;
    let numbers = numbers_of(alloc, &rows)?;
    let bytes = vec![in alloc; 0; (SECTOR_BYTES * sectors) as usize]?;
    let bytes = read_rows(log, &rows, lba, bytes)?;
    pin_each(objects.uploads_mut(), &numbers);
    Ok(Plan {
        history_length: objects.batch().next_seq(),
        bytes,
        pieces,
        objects: numbers,
    })
}
