ghost use Rattle.std.specs.Prelude.{◌≡◌, ◌^◌, ◌<◌, IsTrue, IfOk, IfSome};
ghost use Rattle.std.specs.List.{sum_by};
ghost use Rattle.lsvd_base.specs.Limits.{is_within_limits};
ghost use Rattle.plain_disk.specs.Sectors.{AllInRange, read_of};
ghost use Rattle.batcher.specs.Batch.{data_sectors};

use crate::window::overlay;
use lsvd_base::{Body, Entry, Geometry, SECTOR_BYTES};
use std::alloc::{AllocError, Global};

/// The most entries of a batch.
pub(crate) const MAX_ENTRIES: u64 = 16_384;

/// The data that a volume of this geometry which took these entries has in `sectors` sectors from `lba` on.
/// None is where no read may cover them. The one error is that memory ran out. A read costs as much as the
/// history is long.
pub(crate) fn read_history(
    alloc: Global,
    geometry: &Geometry,
    history: &[Entry],
    lba: u64,
    sectors: u64,
) -> Result<Option<Body>, AllocError>
    requires limits { IsTrue (is_within_limits geometry.now) }
    requires in_range { AllInRange geometry.now history.now }
    ensures { IfOk result (λ sectors_read. sectors_read ≡ read_of geometry.now history.now lba sectors) }
{
    if !geometry.may_transfer(lba, sectors) {
        return Ok(None);
    }
    let Some(count) = sectors.checked_mul(SECTOR_BYTES) else {
        return Err(AllocError);
    };
    let mut window = vec![in alloc; 0; count as usize]?;
    for entry in history {
        overlay(window.as_mut_slice(), lba, entry);
    }
    Ok(Some(Body::from_bytes(window)))
}

/// How many sectors of data the entry carries: a zeroing carries none.
pub(crate) fn data_sectors(entry: &Entry) -> u64
    ensures sectors { result ≡ data_sectors entry.now }
    ensures small { result < 2 ^ 63 }
{
    match entry {
        Entry::Write { body, .. } => body.as_bytes().len() as u64 / SECTOR_BYTES,
        Entry::Zero { .. } => 0,
    }
}

/// How many sectors of data these entries carry; None where their number does not fit, as that of no entries
/// in memory does not.
pub(crate) fn count_data_sectors(entries: &[Entry]) -> Option<u64>
    ensures { IfSome result (λ sectors. sectors ≡ sum_by data_sectors entries.now) }
{
    let mut sum = 0u64;
    for entry in entries {
        sum = sum.checked_add(data_sectors(entry))?;
    }
    Some(sum)
}
