ghost use Rattle.std.specs.Prelude.{◌≡◌, ◌+◌, ◌*◌, ◌^◌, ◌<◌, ◌≤◌, ◌++◌, ℕ, length, drop, option_to_list};
ghost use Rattle.std.specs.Prelude.{IfOk};
ghost use Rattle.page_list.specs.Items.{IsIn, cursor_index};
ghost use Rattle.extent_map.specs.Cut.{rows_before, rows_from, before_count};
ghost use Rattle.extent_map.specs.Extents.{IsShortest, AllFit};

use crate::cut::first_from;
use crate::extent::Extent;
use crate::part::{before, rest};
use crate::place::Place;
use page_list::{Cursor, PageList, Steps};
use std::alloc::{AllocError, Global};
use std::sync::ledger::Ledger;

// The rows between two sectors, cut at both. The one error is out of memory. Each comparison with a row is a
// step. Beside the rows that are given at most two are compared with: the one before them and the one after
// them.
pub(crate) fn look<P: Place, L: Ledger>(
    alloc: Global,
    rows: &PageList<Extent<P>>,
    lba: u64,
    end: u64,
    steps: &mut Steps<L>,
) -> Result<Vec<Extent<P>>, AllocError>
    requires order { lba ≤ end }
    requires shortest { IsShortest P.on rows.now.items }
    requires fits { AllFit P.number rows.now.items }
    ensures rows { IfOk result (λ found. found.items ≡ rows_before end (rows_from P.on lba rows.now.items)) }
    ensures steps { IfOk result (λ found. (k : ℕ) → length rows.now.items < 2 ^ k
        → steps.new ≤ steps.old + k + 14 + 2 * length found.items) }
    ensures rises { steps.old ≤ steps.new }
{
    let mut at = first_from(rows, lba, steps);
    let mut found = Vec::new(alloc);
    if let Some(part) = part_over(rows, at, lba, end, steps) {
        found.push(part)?;
    }
    while let Some(row) = rows.get(at) {
        // As many comparisons as `before` makes at most.
        steps.count(2);
        let Some(part) = before(row, end) else {
            break;
        };
        found.push(part)?;
        at = rows.next(at);
    }
    Ok(found)
}

// Of the row before a place, the part between two sectors, if it reaches over the first. The place is that of
// the first row which begins from that sector on.
fn part_over<P: Place, L: Ledger>(
    rows: &PageList<Extent<P>>,
    next: Cursor,
    lba: u64,
    end: u64,
    steps: &mut Steps<L>,
) -> Option<Extent<P>>
    requires place { IsIn rows.now.lengths next }
    requires index { cursor_index rows.now.lengths next ≡ before_count lba rows.now.items }
    requires shortest { IsShortest P.on rows.now.items }
    requires fits { AllFit P.number rows.now.items }
    ensures part { option_to_list result ++ rows_before end
        (drop (cursor_index rows.now.lengths next) rows.now.items)
        ≡ rows_before end (rows_from P.on lba rows.now.items) }
    ensures steps { steps.new ≤ steps.old + 3 }
    ensures rises { steps.old ≤ steps.new }
{
    let (_, row) = rows.before(next)?;
    // One comparison, and as many as `before` makes at most.
    steps.count(3);
    if row.lba + row.sectors <= lba {
        return None;
    }
    before(rest(row, lba), end)
}
