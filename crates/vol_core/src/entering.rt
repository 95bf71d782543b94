ghost use Rattle.std.specs.Prelude.{◌-◌, ◌^◌, ◌<◌, ◌≤◌, IfOk, IfErr, OnOk, Ok};
ghost use Rattle.log_room.specs.Room.{max_log, record_sectors};
ghost use Rattle.cache_log.specs.Log.{next_seq};
ghost use Rattle.obj_log.specs.Changes.{HasRoomToAdd};
ghost use Rattle.vol_core.specs.Calls.{EntersLog, MayEnter, ComesToLog, IsRefusedEntry, Enters};

use crate::committing::commit;
use crate::reply::{EntryRefusal, Reply};
use cache_log::{AppendError, CacheLog};
use lsvd_base::{Entry, in_range};
use lsvd_device::Disk;
use lsvd_objstore::Receipt;
use obj_log::ObjLog;

/// Enters an entry: its record is appended to the log, and it joins the batch. All memory is taken first.
pub(crate) fn enter<D: Disk, R: Receipt>(
    objects: &mut ObjLog<R>,
    log: &mut CacheLog<D>,
    entry: Entry,
) -> Reply<R>
    requires { MayEnter objects.old log.old }
    ensures { Enters entry result objects.old objects.new log.old log.new }
{
    match append_record(objects, log, &entry) {
        Ok(at) => {
            objects.add(entry, at + 1);
            Reply::Entered(objects.batch().next_seq())
        }
        Err(why) => Reply::NotEntered { entry, why },
    }
}

// Appends the record of an entry that the batch takes, and answers the sector at which it stands. Memory for
// the batch is taken, too.
fn append_record<D: Disk, R: Receipt>(
    objects: &mut ObjLog<R>,
    log: &mut CacheLog<D>,
    entry: &Entry,
) -> Result<u64, EntryRefusal>
    requires { MayEnter objects.old log.old }
    ensures ok { IfOk result (λ at. ComesToLog entry.now (Ok at) objects.old objects.new log.old log.new) }
    ensures err { IfErr result (λ why. IsRefusedEntry entry.now why objects.old objects.new log.old log.new) }
    ensures place { IfOk result (λ at. at ≤ max_log) }
    ensures room { OnOk result (HasRoomToAdd objects.new) }
{
    let batch = objects.batch();
    if !in_range(entry, &batch.geometry()) {
        return Err(EntryRefusal::Range);
    }
    if let Some(full) = batch.full() {
        return Err(EntryRefusal::Full(full));
    }
    objects.reserve()?;
    log.reserve(entry)?;
    Ok(append_or_commit(log, entry, objects.uploads().end())?)
}

// Appends an entry's record, which memory was reserved for, and answers the sector at which it stands. Where
// it has no room, and a commit with its tail at the entry with the seq `end` releases records, that commit is
// made once, and it is tried again.
//
// The seq of the entry is below 2^64 - 1, and the number of the last commit below 2^64 - 2 (conditions).
// `NoRoom` and `DeviceFault` are those of `CacheLog::append`; `DeviceFault` comes too where the commit
// failed.
fn append_or_commit<D: Disk>(
    log: &mut CacheLog<D>,
    entry: &Entry,
    end: u64,
) -> Result<u64, AppendError>
    requires reserved { record_sectors entry.now ≤ log.old.reserved }
    requires seq { next_seq log.old < 2 ^ 64 - 1 }
    requires end { end < 2 ^ 64 - 1 }
    requires number { log.old.commits.number < 2 ^ 64 - 2 }
    ensures { EntersLog entry.now end result log.old log.new }
{
    match log.append(entry) {
        Err(AppendError::NoRoom { .. }) if log.committed_tail() < end => {
            if commit(log, end).is_err() {
                return Err(AppendError::DeviceFault);
            }
            log.append(entry)
        }
        answer => answer,
    }
}
