ghost use Rattle.std.specs.Prelude.{◌≡◌, ◌<◌, slice_get};
ghost use Rattle.extent_map.specs.Cut.{rows_before, rows_from};
ghost use Rattle.extent_map.specs.Extents.{IsShortest, AllFit};

use crate::cut::first_from;
use crate::extent::Extent;
use crate::part::{before, rest};
use crate::place::Place;
use page_list::{PageList, Steps};
use std::sync::ledger::{Blank, Ledger};

// The first of the rows between two sectors, cut at both. No search is made where there are none between
// them. The steps are counted in a ledger that nothing reads.
pub(crate) fn first_between<P: Place, L: Ledger>(
    rows: &PageList<Extent<P>>,
    lba: u64,
    end: u64,
    blank: Blank,
) -> Option<Extent<P>>
    requires name { blank.name ≡ L.name }
    requires parts { blank.parts ≡ L.parts }
    requires counts { 0 < blank.parts }
    requires shortest { IsShortest P.on rows.now.items }
    requires fits { AllFit P.number rows.now.items }
    ensures { result ≡ slice_get (rows_before end (rows_from P.on lba rows.now.items)) 0 }
{
    if end <= lba {
        return None;
    }
    let mut steps: Steps<L> = Steps::new(blank);
    let row = first_past(rows, lba, &mut steps)?;
    before(row, end)
}

// The first of the rows from a sector on, cut there. Only the last row that begins before the sector may
// reach over it.
fn first_past<P: Place, L: Ledger>(
    rows: &PageList<Extent<P>>,
    lba: u64,
    steps: &mut Steps<L>,
) -> Option<Extent<P>>
    requires shortest { IsShortest P.on rows.now.items }
    requires fits { AllFit P.number rows.now.items }
    ensures { result ≡ slice_get (rows_from P.on lba rows.now.items) 0 }
{
    let next = first_from(rows, lba, steps);
    let Some((_, row)) = rows.before(next) else {
        return rows.get(next);
    };
    if row.lba + row.sectors <= lba {
        return rows.get(next);
    }
    Some(rest(row, lba))
}
