ghost use Rattle.std.specs.Prelude.{◌≡◌, ◌-◌, ◌^◌, ◌<◌, ◌≤◌, Some, IfOk};
ghost use Rattle.extent_map.specs.Extents.{place_at};
ghost use Rattle.volume_maps.specs.Places.{object_on};
ghost use Rattle.object_uploads.specs.Checkpoint.{HoldsPlaces};
ghost use Rattle.object_uploads.specs.Invariant.{stored_row, IsPlaceWide};
ghost use Rattle.object_uploads.specs.Order.{PlacesFitIn};

use ckpt_format::{CheckpointWriter, StoredPlace};
use extent_map::{Extent, ExtentMap};
use lsvd_base::ObjectBytes;
use object_format::Expected;
use std::alloc::{AllocError, Global};
use volume_maps::ObjectPlace;

// The checkpoint under the expected number, with this end, of a map whose places fit the volume. The one
// error is out of memory. The rows are written one by one, and the map is not copied.
pub(crate) fn write_map(
    alloc: Global,
    expected: &Expected,
    end: u64,
    map: &ExtentMap<ObjectPlace>,
) -> Result<ObjectBytes, AllocError>
    requires number { 0 < expected.now.number }
    requires limit { expected.now.number < 2 ^ 64 }
    requires ends { expected.now.end_before ≡ Some end }
    requires sectors { expected.now.sectors ≤ 2147483648 }
    requires fit { PlacesFitIn expected.now.sectors expected.now.ancestors (expected.now.number - 1)
        (place_at object_on map.now.rows) }
    ensures { IfOk result (λ bytes. HoldsPlaces bytes expected.now end (place_at object_on map.now.rows)) }
{
    let mut rows = map.in_order();
    let count = map.len() as u32;
    let mut writer = CheckpointWriter::new(alloc, expected, end, count)?;
    while let Some(row) = rows.next() {
        writer.push(&stored_row(&row));
    }
    ObjectBytes::from_bytes(writer.finish())
}

// A row of the map as one of a checkpoint.
fn stored_row(row: &Extent<ObjectPlace>) -> Extent<StoredPlace>
    ensures is { result ≡ stored_row row.now }
    ensures wide { IsPlaceWide result }
{
    Extent {
        lba: row.lba,
        sectors: row.sectors,
        place: stored_place(row.place.level, row.place.number, row.place.sector),
    }
}

// A place of the map as one of a checkpoint. Its numbers are passed one by one, which shows their widths.
fn stored_place(level: u32, number: u64, sector: u32) -> StoredPlace
    ensures is { result ≡ record { level = level; number = number; place = sector } }
    ensures level { level < 2 ^ 32 }
    ensures number { number < 2 ^ 64 }
{
    StoredPlace {
        level,
        number,
        place: sector as u64,
    }
}
