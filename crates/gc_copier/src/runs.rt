ghost use Rattle.std.specs.Prelude.{◌≡◌, IfOk, IfSome};
ghost use Rattle.std.specs.List.Sorted.{IsPermutation};
ghost use Rattle.gc_copier.specs.Runs.{IsRun, IsLonger};

use object_format::{CopyRow, Source};
use std::alloc::{AllocError, Global};

/// The most sectors of a run.
pub(crate) const MAX_SECTORS: u64 = 2_048;

// The most sectors between two rows that are read together, which are read in vain.
const MAX_GAP: u64 = 64;

/// Rows that are read together, by one get.
#[derive(Clone, Copy)]
pub(crate) struct Run {
    /// How many rows they are.
    pub(crate) rows: usize,
    /// How many sectors of the source are read.
    pub(crate) sectors: u64,
}

/// The rows in the order of their data: by the number of the source, and by the place there. The one error
/// is that memory ran out.
pub(crate) fn by_source(alloc: Global, rows: &[CopyRow]) -> Result<Vec<CopyRow>, AllocError>
    ensures { IfOk result (λ sorted. IsPermutation rows.now sorted.items) }
{
    let mut sorted = Vec::from_slice(alloc, rows)?;
    sorted.sort_unstable_by_key(|row| (row.source.number, row.source.place));
    Ok(sorted)
}

/// The run of the first of these rows that begins at a sector of a source. It has no row where the first one
/// is of another source, is not near that sector, or has more sectors than a run.
pub(crate) fn run_from(first: &Source, rows: &[CopyRow]) -> Run
    ensures { IsRun first.now rows.now result }
{
    let mut run = Run {
        rows: 0,
        sectors: 0,
    };
    for row in rows {
        let Some(sectors) = longer(first, run.sectors, row) else {
            return run;
        };
        run = Run {
            rows: run.rows + 1,
            sectors,
        };
    }
    run
}

// How many sectors a run has with one more row, where that may be read with it.
fn longer(first: &Source, sectors: u64, row: &CopyRow) -> Option<u64>
    ensures { IfSome result (IsLonger first.now sectors row.now) }
{
    if row.source.number != first.number {
        return None;
    }
    let at = row.source.place.checked_sub(first.place)?;
    let end = at.checked_add(row.sectors)?;
    let longer = sectors.max(end);
    let is_near = at.saturating_sub(sectors) <= MAX_GAP;
    (is_near && longer <= MAX_SECTORS).then_some(longer)
}
