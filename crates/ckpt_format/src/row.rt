ghost use Rattle.std.specs.Prelude.{◌≡◌, ◌+◌, ◌^◌, ◌<◌, ◌≤◌, ◌++◌, ◌↔◌, IsTrue, IfSome, length, nat_le};
ghost use Rattle.std.specs.Prelude.{vec_capacity};
ghost use Rattle.object_format.specs.Rows.{is_inside};
ghost use Rattle.extent_map.specs.Extents.{ComesBefore};
ghost use Rattle.ckpt_format.specs.Places.{stored_on};
ghost use Rattle.ckpt_format.specs.Rows.{row_bytes, row_in, HasRowWidths, may_stand, MayComeAfter};

use crate::MAX_PAYLOAD;
use crate::place::StoredPlace;
use extent_map::{Extent, Place};
use lsvd_bytes::{read_u32, read_u64};
use object_format::Expected;

// Where the count of sectors stands in a row, in 8 bytes, as all numbers highest byte first. The first sector
// of the volume stands before it.
const SECTORS_AT: usize = 8;

// Where the level stands, in 4 bytes.
const LEVEL_AT: usize = 16;

// Where the number of the object stands, in 8 bytes.
const NUMBER_AT: usize = 20;

// Where the place in its payload stands, in 8 bytes.
const PLACE_AT: usize = 28;

/// The row that the bytes begin with.
pub(crate) fn read_row(bytes: &[u8]) -> Extent<StoredPlace>
    requires { 36 ≤ length bytes.now }
    ensures { result ≡ row_in bytes.now }
{
    Extent {
        lba: read_u64(bytes, 0),
        sectors: read_u64(bytes, SECTORS_AT),
        place: StoredPlace {
            level: read_u32(bytes, LEVEL_AT),
            number: read_u64(bytes, NUMBER_AT),
            place: read_u64(bytes, PLACE_AT),
        },
    }
}

/// Appends the bytes of a row, for which there is room (a condition).
pub(crate) fn append_row(bytes: &mut Vec<u8>, row: &Extent<StoredPlace>)
    requires { length bytes.old.items + 36 ≤ vec_capacity bytes.old }
    ensures items { bytes.new.items ≡ bytes.old.items ++ row_bytes row.now }
    ensures widths { HasRowWidths row.now }
    ensures room { vec_capacity bytes.old ≤ vec_capacity bytes.new }
{
    append(bytes, row.lba.to_be_bytes().as_slice());
    append(bytes, row.sectors.to_be_bytes().as_slice());
    append(bytes, row.place.level.to_be_bytes().as_slice());
    append(bytes, row.place.number.to_be_bytes().as_slice());
    append(bytes, row.place.place.to_be_bytes().as_slice());
}

/// Appends bytes for which there is room (a condition), so that no memory is asked for.
pub(crate) fn append(bytes: &mut Vec<u8>, piece: &[u8])
    requires { length bytes.old.items + length piece.now ≤ vec_capacity bytes.old }
    ensures items { bytes.new.items ≡ bytes.old.items ++ piece.now }
    ensures room { vec_capacity bytes.old ≤ vec_capacity bytes.new }
{
    bytes.extend_from_slice(piece).unwrap();
}

/// Whether a row may stand in the expected checkpoint, and that after the row before it, or as the first. The
/// row before may stand there (a condition).
pub(crate) fn may_come_after(
    row: &Extent<StoredPlace>,
    before: Option<Extent<StoredPlace>>,
    expected: &Expected,
) -> bool
    requires { IfSome before (λ row. IsTrue (may_stand expected.now row)) }
    ensures { IsTrue result ↔ MayComeAfter expected.now before row.now }
{
    if !may_stand(row, expected) {
        return false;
    }
    match before {
        Some(before) => comes_before(&before, row),
        None => true,
    }
}

// Whether a row may stand in the expected checkpoint, whatever stands before it.
fn may_stand(row: &Extent<StoredPlace>, expected: &Expected) -> bool
    ensures { result ≡ may_stand expected.now row.now }
{
    is_inside(row, expected.sectors)
        && row.place.level <= expected.ancestors
        && (0 < row.place.level || row.place.number < expected.number)
        && is_in_payload(row)
}

// Whether it has sectors, and all of them are inside a volume of this many.
fn is_inside(row: &Extent<StoredPlace>, volume: u64) -> bool
    ensures { result ≡ is_inside volume row.now.lba row.now.sectors }
{
    0 < row.sectors && row.sectors <= volume && row.lba <= volume - row.sectors
}

// Whether a payload may have the places of all of its sectors.
fn is_in_payload(row: &Extent<StoredPlace>) -> bool
    ensures { result ≡ nat_le (row.now.place.place + row.now.sectors) 131071 }
{
    row.place.place <= MAX_PAYLOAD && row.sectors <= MAX_PAYLOAD - row.place.place
}

// Whether a row ends before the next one begins, or where they touch, the two are not one row.
fn comes_before(row: &Extent<StoredPlace>, next: &Extent<StoredPlace>) -> bool
    requires { row.now.place.place + row.now.sectors < 2 ^ 63 }
    ensures { IsTrue result ↔ ComesBefore stored_on row.now next.now }
{
    let Some(gap) = next.lba.checked_sub(row.lba) else {
        return false;
    };
    if gap != row.sectors {
        return row.sectors < gap;
    }
    !row.place.on(row.sectors).is_same(&next.place)
}
