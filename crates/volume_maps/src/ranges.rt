ghost use Rattle.std.specs.Prelude.{◌≡◌, ◌+◌, ◌≤◌, IfOk};
ghost use Rattle.std.specs.List.{All};
ghost use Rattle.volume_maps.specs.Covered.{CoverRows, CoverCopyRows};

use object_format::{CopyRow, DataRow};
use reverse_map::SectorRange;
use std::alloc::{AllocError, Global};

/// The ranges of the sectors that the rows of a data object put. The rows end at 2^31 at most (a condition).
/// The one error is out of memory.
pub fn put_ranges(alloc: Global, rows: &[DataRow]) -> Result<Vec<SectorRange>, AllocError>
    requires { All (λ row. row.lba + row.sectors ≤ 2147483648) rows.now }
    ensures { IfOk result (λ ranges. CoverRows ranges.items rows.now) }
{
    let mut ranges = Vec::new(alloc);
    ranges.reserve(rows.len())?;
    for row in rows {
        if row.place.is_some() {
            ranges.push_reserved(range_of(row.lba, row.sectors));
        }
    }
    Ok(ranges)
}

/// The ranges of the sectors of the rows of a copy. The rows end at 2^31 at most (a condition). The one error
/// is out of memory.
pub fn copied_ranges(alloc: Global, rows: &[CopyRow]) -> Result<Vec<SectorRange>, AllocError>
    requires { All (λ row. row.lba + row.sectors ≤ 2147483648) rows.now }
    ensures { IfOk result (λ ranges. CoverCopyRows ranges.items rows.now) }
{
    let mut ranges = Vec::new(alloc);
    ranges.reserve(rows.len())?;
    for row in rows {
        ranges.push_reserved(range_of(row.lba, row.sectors));
    }
    Ok(ranges)
}

// A range of sectors, which end at 2^31 at most.
pub(crate) fn range_of(lba: u64, sectors: u64) -> SectorRange
    requires { lba + sectors ≤ 2147483648 }
    ensures { result ≡ record { lba = lba; sectors = sectors } }
{
    SectorRange {
        lba: lba as u32,
        sectors: sectors as u32,
    }
}
