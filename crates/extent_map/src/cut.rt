ghost use Rattle.std.specs.Prelude.{◌≡◌, ◌+◌, ◌-◌, ◌^◌, ◌<◌, ◌≤◌, ◌++◌, ◌↔◌, ℕ, false, length, take, drop};
ghost use Rattle.std.specs.Prelude.{IsTrue, MatchOption};
ghost use Rattle.page_list.specs.Items.{IsIn, cursor_index, insert_room};
ghost use Rattle.extent_map.specs.Changes.{MayGrow, IsTakenOut};
ghost use Rattle.extent_map.specs.Cut.{rows_before, rows_from, before_count};
ghost use Rattle.extent_map.specs.Extents.{IsShortest, AllFit};

use crate::extent::Extent;
use crate::part::rest;
use crate::place::Place;
use page_list::{Cursor, PageList, Steps};
use std::sync::ledger::Ledger;

// The place of the first row that begins from a sector on.
pub(crate) fn first_from<P: Place, L: Ledger>(
    rows: &PageList<Extent<P>>,
    at: u64,
    steps: &mut Steps<L>,
) -> Cursor
    requires { IsShortest P.on rows.now.items }
    ensures place { IsIn rows.now.lengths result }
    ensures index { cursor_index rows.now.lengths result ≡ before_count at rows.now.items }
    ensures steps { (k : ℕ) → length rows.now.items < 2 ^ k → steps.new ≤ steps.old + k + 9 }
    ensures bound { steps.new ≤ steps.old + 57 }
    ensures rises { steps.old ≤ steps.new }
{
    rows.partition_point(|row| row.lba < at, steps)
}

// Takes what rows are between two sectors out, and answers the place where they stood. There is room for a
// row. Rows are replaced up to one insert or one removal, so that places stay good until then. It takes a
// search, one more where several rows begin between both, and an insert or a removal of these.
pub(crate) fn take_out<P: Place, L: Ledger>(
    rows: &mut PageList<Extent<P>>,
    lba: u64,
    end: u64,
    steps: &mut Steps<L>,
) -> Cursor
    requires order { lba < end }
    requires rows { MayGrow P.on P.number 1 rows.old }
    ensures taken { IsTakenOut P.on lba end rows.old rows.new }
    ensures place { IsIn rows.new.lengths result }
    ensures index { cursor_index rows.new.lengths result ≡ length (rows_before lba rows.old.items) }
    ensures steps { steps.new ≤ steps.old + 254 + (before_count end rows.old.items - before_count lba
        rows.old.items) }
    ensures rises { steps.old ≤ steps.new }
{
    let first = first_from(rows, lba, steps);
    if !begins_before(rows.get(first), end) {
        return cut_one(rows, first, lba, end, steps);
    }
    let last = first_after(rows, first, end, steps);
    let last = cut_front(rows, last, end);
    cut_back(rows, first, lba);
    rows.remove(first, last, steps)
}

// The place of the first row that begins from a sector on, where the row at a place begins before it. Mostly
// it is the next place, which takes no search.
fn first_after<P: Place, L: Ledger>(
    rows: &PageList<Extent<P>>,
    early: Cursor,
    at: u64,
    steps: &mut Steps<L>,
) -> Cursor
    requires place { IsIn rows.now.lengths early }
    requires early { cursor_index rows.now.lengths early < before_count at rows.now.items }
    requires shortest { IsShortest P.on rows.now.items }
    ensures place { IsIn rows.now.lengths result }
    ensures index { cursor_index rows.now.lengths result ≡ before_count at rows.now.items }
    ensures bound { steps.new ≤ steps.old + 57 }
    ensures rises { steps.old ≤ steps.new }
{
    let next = rows.next(early);
    if begins_before(rows.get(next), at) {
        return first_from(rows, at, steps);
    }
    next
}

// Whether there is a row, which begins before a sector.
fn begins_before<P: Place>(row: Option<Extent<P>>, at: u64) -> bool
    ensures { MatchOption row (result ≡ false) (λ row. IsTrue result ↔ (row.lba < at)) }
{
    row.is_some_and(|row| row.lba < at)
}

// Takes what is between two sectors out of the row before a place, and answers the place after the part in
// front. No row begins between the sectors. There is room for a row.
fn cut_one<P: Place, L: Ledger>(
    rows: &mut PageList<Extent<P>>,
    next: Cursor,
    lba: u64,
    end: u64,
    steps: &mut Steps<L>,
) -> Cursor
    requires order { lba < end }
    requires room { 1 ≤ insert_room rows.old }
    requires place { IsIn rows.old.lengths next }
    requires lba { cursor_index rows.old.lengths next ≡ before_count lba rows.old.items }
    requires end { cursor_index rows.old.lengths next ≡ before_count end rows.old.items }
    requires shortest { IsShortest P.on rows.old.items }
    requires fits { AllFit P.number rows.old.items }
    ensures rows { rows.new.items ≡ rows_before lba rows.old.items ++ rows_from P.on end rows.old.items }
    ensures place { IsIn rows.new.lengths result }
    ensures index { cursor_index rows.new.lengths result ≡ length (rows_before lba rows.old.items) }
    ensures room { insert_room rows.old ≤ insert_room rows.new + 1 }
    ensures steps { steps.new ≤ steps.old + 128 }
    ensures rises { steps.old ≤ steps.new }
{
    let Some((last, row)) = rows.before(next) else {
        return next;
    };
    let row_end = row.lba + row.sectors;
    if row_end <= lba {
        return next;
    }
    rows.replace(
        last,
        Extent {
            sectors: lba - row.lba,
            ..row
        },
    );
    if row_end <= end {
        return next;
    }
    rows.insert(next, rest(row, end), steps)
}

// Cuts the last of the rows before a place at a sector, if it reaches over it, and leaves the part in front.
// All of them begin before the sector.
fn cut_back<P: Place>(rows: &mut PageList<Extent<P>>, next: Cursor, at: u64)
    requires place { IsIn rows.old.lengths next }
    requires index { cursor_index rows.old.lengths next ≡ before_count at
        (take (cursor_index rows.old.lengths next) rows.old.items) }
    requires shortest { IsShortest P.on (take (cursor_index rows.old.lengths next) rows.old.items) }
    requires fits { AllFit P.number (take (cursor_index rows.old.lengths next) rows.old.items) }
    ensures front { take (cursor_index rows.old.lengths next) rows.new.items ≡ rows_before at
        (take (cursor_index rows.old.lengths next) rows.old.items) }
    ensures back { drop (cursor_index rows.old.lengths next) rows.new.items
        ≡ drop (cursor_index rows.old.lengths next) rows.old.items }
    ensures lengths { rows.new.lengths ≡ rows.old.lengths }
    ensures room { insert_room rows.new ≡ insert_room rows.old }
{
    let Some((last, row)) = rows.before(next) else {
        return;
    };
    if at < row.lba + row.sectors {
        rows.replace(
            last,
            Extent {
                sectors: at - row.lba,
                ..row
            },
        );
    }
}

// Cuts the last row that begins before a sector at it, if it reaches over it, and leaves the part from the
// sector on. Answers the place of the first row from the sector on.
fn cut_front<P: Place>(rows: &mut PageList<Extent<P>>, next: Cursor, at: u64) -> Cursor
    requires place { IsIn rows.old.lengths next }
    requires index { cursor_index rows.old.lengths next ≡ before_count at rows.old.items }
    requires shortest { IsShortest P.on rows.old.items }
    requires fits { AllFit P.number rows.old.items }
    ensures back { drop (cursor_index rows.old.lengths result) rows.new.items ≡ rows_from P.on at
        rows.old.items }
    ensures front { take (cursor_index rows.old.lengths result) rows.new.items
        ≡ take (cursor_index rows.old.lengths result) rows.old.items }
    ensures lengths { rows.new.lengths ≡ rows.old.lengths }
    ensures place { IsIn rows.old.lengths result }
    ensures near { before_count at rows.old.items ≤ cursor_index rows.old.lengths result + 1 }
    ensures bound { cursor_index rows.old.lengths result ≤ before_count at rows.old.items }
    ensures room { insert_room rows.new ≡ insert_room rows.old }
{
    let Some((last, row)) = rows.before(next) else {
        return next;
    };
    if row.lba + row.sectors <= at {
        return next;
    }
    rows.replace(last, rest(row, at));
    last
}

// The place of the last row that begins before a sector, or of the first row where none does.
pub(crate) fn first_met<P: Place, L: Ledger>(
    rows: &PageList<Extent<P>>,
    at: u64,
    steps: &mut Steps<L>,
) -> Cursor
    requires { IsShortest P.on rows.now.items }
    ensures place { IsIn rows.now.lengths result }
    ensures index { cursor_index rows.now.lengths result ≡ before_count at rows.now.items - 1 }
{
    let next = first_from(rows, at, steps);
    match rows.before(next) {
        Some((last, _)) => last,
        None => next,
    }
}
