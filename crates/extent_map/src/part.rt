ghost use Rattle.std.specs.Prelude.{◌≡◌, ◌+◌, ◌<◌, ◌≤◌, [], slice_get};
ghost use Rattle.extent_map.specs.Cut.{part_before, part_from, rest_of};
ghost use Rattle.extent_map.specs.Extents.{Fits};

use crate::extent::Extent;
use crate::place::Place;

// The part of a row before a sector, if it has one.
pub(crate) fn before<P: Place>(row: Extent<P>, at: u64) -> Option<Extent<P>>
    requires { Fits P.number row }
    ensures { result ≡ slice_get (part_before at row []) 0 }
{
    if row.lba + row.sectors <= at {
        Some(row)
    } else if row.lba < at {
        let kept = at - row.lba;
        Some(Extent {
            sectors: kept,
            ..row
        })
    } else {
        None
    }
}

// The part of a row from a sector on, if it has one.
pub(crate) fn after<P: Place>(row: Extent<P>, at: u64) -> Option<Extent<P>>
    requires { Fits P.number row }
    ensures { result ≡ slice_get (part_from P.on at row []) 0 }
{
    if at <= row.lba {
        Some(row)
    } else if at < row.lba + row.sectors {
        Some(rest(row, at))
    } else {
        None
    }
}

// The rest of a row from a sector of it on.
pub(crate) fn rest<P: Place>(row: Extent<P>, at: u64) -> Extent<P>
    requires fits { Fits P.number row }
    requires from { row.lba ≤ at }
    requires inside { at < row.lba + row.sectors }
    ensures { result ≡ rest_of P.on at row }
{
    Extent {
        lba: at,
        sectors: row.lba + row.sectors - at,
        place: row.place.on(at - row.lba),
    }
}
