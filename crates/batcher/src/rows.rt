ghost use Rattle.std.specs.Prelude.{◌≡◌, ◌+◌, ◌^◌, ◌<◌, ◌≤◌, ◌∷◌, [], List, IfOk, OnOk};
ghost use Rattle.std.specs.List.{sum_by};
ghost use Rattle.extent_map.specs.declared.extent.Extent.{Extent};
ghost use Rattle.extent_map.specs.Extents.{AllFit};
ghost use Rattle.object_format.specs.Rows.{data_payload};
ghost use Rattle.batcher.specs.declared.place.BatchPlace.{BatchPlace};
ghost use Rattle.batcher.specs.Places.{batch_place_number};
ghost use Rattle.batcher.specs.Rows.{extent_row, joins, joined, rows_of, rows_with, EndsInTime};
ghost use Rattle.batcher.specs.Rows.{extent_payload};

use crate::place::BatchPlace;
use extent_map::Extent;
use object_format::DataRow;
use std::alloc::{AllocError, Global};

// The rows of a data object, made one after the other.
#[derive(Drop)]
struct RowMaker {
    rows: Vec<DataRow>,
    // The last one, which the next extent may go on with.
    last: Option<DataRow>,
    // The sectors of payload by now.
    payload: u64,
}

impl RowMaker {
    // Takes the extent after those before, whose sectors are past theirs.
    fn add(&mut self, extent: &Extent<BatchPlace>) -> Result<(), AllocError>
        requires last { EndsInTime self.old.last }
        requires extent { extent.now.lba + extent.now.sectors < 2 ^ 63 }
        requires payload { self.old.payload + extent.now.sectors < 2 ^ 64 }
        ensures rows { OnOk result ((more : List (Extent BatchPlace))
            → rows_with self.new more ≡ rows_with self.old (extent.now ∷ more)) }
        ensures last { OnOk result (EndsInTime self.new.last) }
        ensures payload { OnOk result (self.new.payload ≡ self.old.payload + extent_payload extent.now) }
    {
        let row = extent_row(self.payload, extent);
        self.payload += row.payload_sectors();
        let Some(last) = self.last else {
            self.last = Some(row);
            return Ok(());
        };
        if joins(&last, &row) {
            self.last = Some(DataRow {
                sectors: last.sectors + row.sectors,
                ..last
            });
            return Ok(());
        }
        self.last = Some(row);
        self.rows.push(last)?;
        Ok(())
    }

    // All rows.
    fn finish(self) -> Result<Vec<DataRow>, AllocError>
        ensures { IfOk result (λ rows. rows.items ≡ rows_with self []) }
    {
        let mut rows = self.rows;
        if let Some(last) = self.last {
            rows.push(last)?;
        }
        Ok(rows)
    }
}

// The row for an extent, with its data at a sector of the payload.
fn extent_row(payload: u64, extent: &Extent<BatchPlace>) -> DataRow
    ensures { result ≡ extent_row payload extent.now }
{
    let place = match extent.place {
        BatchPlace::Data { .. } => Some(payload),
        BatchPlace::Zeros => None,
    };
    DataRow {
        lba: extent.lba,
        sectors: extent.sectors,
        place,
    }
}

// Whether the next row touches a row, and both have data.
fn joins(row: &DataRow, next: &DataRow) -> bool
    requires { row.now.lba + row.now.sectors < 2 ^ 63 }
    ensures { result ≡ joins row.now next.now }
{
    row.lba + row.sectors == next.lba && row.place.is_some() && next.place.is_some()
}

/// The rows of a data object that makes these changes, which have fewer than 2^63 sectors of data (a
/// condition). The one error is that memory ran out.
pub(crate) fn data_rows(
    alloc: Global,
    extents: &[Extent<BatchPlace>],
) -> Result<Vec<DataRow>, AllocError>
    requires fits { AllFit batch_place_number extents.now }
    requires payload { sum_by extent_payload extents.now < 2 ^ 63 }
    ensures { IfOk result (λ rows. rows.items ≡ rows_of extents.now) }
{
    let mut maker = RowMaker {
        rows: Vec::with_capacity(alloc, extents.len())?,
        last: None,
        payload: 0,
    };
    for extent in extents {
        maker.add(extent)?;
    }
    maker.finish()
}
