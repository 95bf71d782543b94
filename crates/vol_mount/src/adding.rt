ghost use Rattle.std.specs.Prelude.{◌≡◌, ◌+◌, ◌^◌, ◌<◌, ◌≤◌, [], IsTrue, OnOk, IfErr, length};
ghost use Rattle.std.specs.List.{sum_by};
ghost use Rattle.lsvd_base.specs.Limits.{is_within_limits};
ghost use Rattle.log_room.specs.Room.{max_log};
ghost use Rattle.cache_log.specs.declared.row.Row.{Row as RowValue};
ghost use Rattle.cache_log.specs.Rows.{record_size};
ghost use Rattle.cache_log.specs.Log.{AreRowsOf};
ghost use Rattle.cache_log.specs.Opening.{AreRowsInRange};
ghost use Rattle.refine_mount.specs.Mounted.{data_in, AddsEntries};
ghost use Rattle.vol_mount.specs.declared.error.MountError.TheVariants.{OutOfMemory};

use crate::error::MountError;
use cache_log::CacheLog;
use lsvd_base::Entry;
use lsvd_device::Disk;
use lsvd_objstore::Receipt;
use obj_log::ObjLog;

/// Adds entries to the list of a volume, which has none in its batch, and whose next seq is that of the log's
/// first entry. Their records stand at the rows of the log's list, in range, and in the room of a log
/// (conditions). The one error is that memory ran out.
pub(crate) fn add_all<D: Disk, R: Receipt>(
    objects: &mut ObjLog<R>,
    log: &CacheLog<D>,
    entries: Vec<Entry>,
) -> Result<(), MountError>
    requires limits { IsTrue (is_within_limits objects.old.batch.geometry) }
    requires empty { objects.old.batch.entries ≡ [] }
    requires first { objects.old.batch.first ≡ log.now.first }
    requires seqs { log.now.first + length log.now.rows < 2 ^ 63 }
    requires rows { AreRowsOf log.now.rows entries.items }
    requires in_range { AreRowsInRange objects.old.batch.geometry log.now.rows }
    requires room { sum_by record_size log.now.rows ≤ max_log }
    ensures added { OnOk result ((row_of_none : RowValue)
        → AddsEntries (data_in log.now row_of_none) entries.items objects.old objects.new) }
    ensures memory { IfErr result (λ error. error ≡ OutOfMemory) }
{
    for (index, entry) in entries.into_iter().enumerate() {
        objects.reserve()?;
        objects.add(entry, log.row(index).position() + 1);
    }
    Ok(())
}
