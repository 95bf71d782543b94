ghost use Rattle.std.specs.Prelude.{◌-◌, ◌^◌, ◌<◌, is_ok};
ghost use Rattle.vol_core.specs.Calls.{CommitsFrom};

use cache_log::CacheLog;
use lsvd_device::Disk;
use lsvd_fault::Failed;

/// Commits all entries, with the log's tail at the entry with this seq: the records before it are released.
/// The number of the last commit is below 2^64 - 2 (a condition). `Failed` comes where a call of the device
/// failed.
pub(crate) fn commit<D: Disk>(log: &mut CacheLog<D>, end: u64) -> Result<(), Failed>
    requires { log.old.commits.number < 2 ^ 64 - 2 }
    ensures { CommitsFrom end (is_ok result) log.old log.new }
{
    log.trim_to(end);
    log.commit()
}
