ghost use Rattle.std.specs.Prelude.{◌≡◌, ◌+◌, ◌<◌, ◌≤◌, ◌↔◌, ◌++◌, ◌∷◌, ℕ, length, take, drop, IsTrue};
ghost use Rattle.page_list.specs.Items.{IsIn, cursor_index, insert_room};
ghost use Rattle.extent_map.specs.Extents.{place_at, IsShortest, Fits, AllFit};
ghost use Rattle.extent_map.specs.Join.{GoesOn, TakesNext, IsPutAfter};
ghost use Rattle.extent_map.specs.Laws.{StartsFrom};
ghost use Rattle.extent_map.specs.Join.{EndBy};

use crate::extent::Extent;
use crate::place::Place;
use page_list::{Cursor, PageList, Steps};
use std::sync::ledger::Ledger;

// Puts a row at a place, joined with the row there and with the one before it where they go on. There is room
// for a row.
pub(crate) fn put<P: Place, L: Ledger>(
    rows: &mut PageList<Extent<P>>,
    at: Cursor,
    row: Extent<P>,
    steps: &mut Steps<L>,
)
    requires place { IsIn rows.old.lengths at }
    requires room { 1 ≤ insert_room rows.old }
    requires some { 0 < row.sectors }
    requires front { IsShortest P.on (take (cursor_index rows.old.lengths at) rows.old.items) }
    requires before { EndBy row.lba (take (cursor_index rows.old.lengths at) rows.old.items) }
    requires back { IsShortest P.on (drop (cursor_index rows.old.lengths at) rows.old.items) }
    requires after { StartsFrom (row.lba + row.sectors)
        (drop (cursor_index rows.old.lengths at) rows.old.items) }
    requires fits { AllFit P.number rows.old.items }
    requires row_fits { Fits P.number row }
    ensures places { (k : ℕ) → place_at P.on rows.new.items k
        ≡ place_at P.on (take (cursor_index rows.old.lengths at) rows.old.items ++ row ∷ drop
        (cursor_index rows.old.lengths at) rows.old.items) k }
    ensures shortest { IsShortest P.on rows.new.items }
    ensures fits { AllFit P.number rows.new.items }
    ensures length { length rows.new.items ≤ length rows.old.items + 1 }
    ensures room { insert_room rows.old ≤ insert_room rows.new + 1 }
    ensures steps { steps.new ≤ steps.old + 257 }
    ensures rises { steps.old ≤ steps.new }
{
    let (at, row) = take_next(rows, at, row, steps);
    put_after(rows, at, row, steps);
}

// Takes the row at a place out where it goes on with this row, and answers its place, and both as one.
fn take_next<P: Place, L: Ledger>(
    rows: &mut PageList<Extent<P>>,
    at: Cursor,
    row: Extent<P>,
    steps: &mut Steps<L>,
) -> (Cursor, Extent<P>)
    requires place { IsIn rows.old.lengths at }
    requires fits { AllFit P.number rows.old.items }
    requires row_fits { Fits P.number row }
    ensures taken { let n = cursor_index rows.old.lengths at in
        TakesNext P.on row (drop n rows.old.items) result.1 (drop n rows.new.items) }
    ensures front { take (cursor_index rows.old.lengths at) rows.new.items
        ≡ take (cursor_index rows.old.lengths at) rows.old.items }
    ensures place { IsIn rows.new.lengths result.0 }
    ensures index { cursor_index rows.new.lengths result.0 ≡ cursor_index rows.old.lengths at }
    ensures length { length rows.new.items ≤ length rows.old.items }
    ensures room { insert_room rows.old ≤ insert_room rows.new }
    ensures steps { steps.new ≤ steps.old + 129 }
    ensures rises { steps.old ≤ steps.new }
{
    let Some(next) = rows.get(at) else {
        return (at, row);
    };
    if !goes_on(&row, &next) {
        return (at, row);
    }
    let to = rows.next(at);
    let at = rows.remove(at, to, steps);
    (
        at,
        Extent {
            sectors: row.sectors + next.sectors,
            ..row
        },
    )
}

// Puts a row at a place, joined with the one before it where it goes on with that. There is room for a row.
fn put_after<P: Place, L: Ledger>(
    rows: &mut PageList<Extent<P>>,
    at: Cursor,
    row: Extent<P>,
    steps: &mut Steps<L>,
)
    requires place { IsIn rows.old.lengths at }
    requires room { 1 ≤ insert_room rows.old }
    requires fits { AllFit P.number rows.old.items }
    requires row_fits { Fits P.number row }
    ensures rows { let n = cursor_index rows.old.lengths at in
        IsPutAfter P.on (take n rows.old.items) row (drop n rows.old.items) rows.new.items }
    ensures length { length rows.new.items ≤ length rows.old.items + 1 }
    ensures room { insert_room rows.old ≤ insert_room rows.new + 1 }
    ensures steps { steps.new ≤ steps.old + 128 }
    ensures rises { steps.old ≤ steps.new }
{
    let Some((last_at, last)) = rows.before(at) else {
        rows.insert(at, row, steps);
        return;
    };
    if !goes_on(&last, &row) {
        rows.insert(at, row, steps);
        return;
    }
    rows.replace(
        last_at,
        Extent {
            sectors: last.sectors + row.sectors,
            ..last
        },
    );
}

// Whether the next row touches a row and goes on with its places.
fn goes_on<P: Place>(row: &Extent<P>, next: &Extent<P>) -> bool
    requires { Fits P.number row.now }
    ensures { IsTrue result ↔ GoesOn P.on row.now next.now }
{
    row.lba + row.sectors == next.lba && row.place.on(row.sectors).is_same(&next.place)
}
