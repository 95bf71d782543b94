ghost use Rattle.std.specs.Prelude.{◌≡◌, ◌+◌, ◌-◌, ◌*◌, ◌<◌, ◌≤◌, ◌^◌, ◌↔◌, ℕ, IfOk, IfSome, option_to_list};
ghost use Rattle.std.specs.Prelude.{option_map};
ghost use Rattle.std.specs.List.{All, Contains};
ghost use Rattle.std.specs.List.Sorted.{IsStrictlyIncreasing};
ghost use Rattle.read_plan.specs.Plan.{TellsWhole};
ghost use Rattle.read_plan.specs.Rows.{IsFetchable, row_piece, row_pieces, named_object, named_objects};

use crate::piece::Piece;
use extent_map::Extent;
use lsvd_base::SECTOR_BYTES;
use lsvd_objstore::Receipt;
use obj_log::ObjLog;
use std::alloc::{AllocError, Global};
use volume_maps::VolumePlace;

/// The pieces of rows that objects have, in a read from `lba` on. The one error is out of memory.
pub(crate) fn pieces_of<R: Receipt>(
    alloc: Global,
    objects: &ObjLog<R>,
    rows: &[Extent<VolumePlace>],
    lba: u64,
) -> Result<Vec<Piece<R>>, AllocError>
    requires { All (IsFetchable lba objects.now.uploads.queue) rows.now }
    ensures pieces { IfOk result (λ pieces. pieces.items ≡ row_pieces objects.now.uploads.queue lba
        rows.now) }
    ensures whole { IfOk result (λ pieces. All (λ piece. TellsWhole piece.receipt) pieces.items) }
{
    let mut pieces = Vec::new(alloc);
    for row in rows {
        if let Some(piece) = piece_of(alloc, objects, row, lba)? {
            pieces.push(piece)?;
        }
    }
    Ok(pieces)
}

// The piece of a row, where an object has it.
fn piece_of<R: Receipt>(
    alloc: Global,
    objects: &ObjLog<R>,
    row: &Extent<VolumePlace>,
    lba: u64,
) -> Result<Option<Piece<R>>, AllocError>
    requires { IsFetchable lba objects.now.uploads.queue row.now }
    ensures piece { IfOk result (λ piece. option_to_list piece ≡ row_piece objects.now.uploads.queue
        lba row.now) }
    ensures whole { IfOk result (λ piece. IfSome piece (λ piece. TellsWhole piece.receipt)) }
{
    let VolumePlace::Object(place) = row.place else {
        return Ok(None);
    };
    let uploads = objects.uploads();
    let receipt = uploads.receipt(&place).unwrap().copy(alloc)?;
    // The object has the place's sector, so that its length bounds the byte where that stands.
    let _size = receipt.len();
    let front = uploads.front(&place);
    Ok(Some(Piece {
        at: (SECTOR_BYTES * (row.lba - lba)) as usize,
        count: (SECTOR_BYTES * row.sectors) as usize,
        receipt,
        from: SECTOR_BYTES * (front + place.sector as u64),
    }))
}

/// The numbers of the volume's own objects that have rows, in ascending order, each once. Those of ancestors
/// are left out: they are never removed. The one error is out of memory.
pub(crate) fn numbers_of(
    alloc: Global,
    rows: &[Extent<VolumePlace>],
) -> Result<Vec<u64>, AllocError>
    ensures ascending { IfOk result (λ numbers. IsStrictlyIncreasing numbers.items) }
    ensures same { IfOk result (λ numbers. (number : ℕ)
        → Contains numbers.items number ↔ Contains (named_objects rows.now) number) }
{
    let mut numbers = collected(alloc, rows)?;
    numbers.sort_unstable();
    numbers.dedup();
    Ok(numbers)
}

// The numbers of the volume's own objects that have rows, in the order of these.
fn collected(alloc: Global, rows: &[Extent<VolumePlace>]) -> Result<Vec<u64>, AllocError>
    ensures { IfOk result (λ numbers. numbers.items ≡ named_objects rows.now) }
{
    rows.iter()
        .filter_map(|row| named_object(&row.place))
        .collect(alloc)
}

// The number of the volume's own object that a place is in, where it is in one.
fn named_object(place: &VolumePlace) -> Option<u64>
    ensures { result ≡ named_object place.now }
{
    match place {
        VolumePlace::Object(place) if place.level == 0 => Some(place.number),
        VolumePlace::Object(_) | VolumePlace::Log(_) => None,
    }
}
