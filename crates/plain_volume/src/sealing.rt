ghost use Rattle.std.specs.Prelude.{◌≡◌, ◌<◌, ◌≤◌, false, is_some};
ghost use Rattle.batcher.specs.Batch.{fullness};
ghost use Rattle.plain_disk.specs.Objects.{sealed_count};

use crate::history::{MAX_ENTRIES, data_sectors};
use lsvd_base::Entry;

/// How many of the entries the next object takes: the fewest first ones that fill a batch, or all where they
/// do not.
pub(crate) fn sealed_count(batch: u64, entries: &[Entry]) -> u64
    requires { batch ≤ 65536 }
    ensures { result ≡ sealed_count batch entries.now }
{
    let mut sectors = 0;
    for (count, entry) in entries.iter().enumerate() {
        if is_full(batch, sectors, count as u64) {
            return count as u64;
        }
        sectors += data_sectors(entry);
    }
    entries.len() as u64
}

// Whether so many entries with so many sectors of data fill a batch.
fn is_full(batch: u64, sectors: u64, entries: u64) -> bool
    ensures full { result ≡ is_some (fullness batch sectors entries) }
    ensures sectors { result ≡ false → sectors < batch }
{
    sectors >= batch || entries >= MAX_ENTRIES
}
