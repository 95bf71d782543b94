ghost use Rattle.std.specs.Prelude.{◌≡◌, ◌+◌, ◌<◌, ◌≤◌, ◌++◌, Bool, [], ◌∷◌, length, take, drop};
ghost use Rattle.std.specs.Prelude.{option_to_list};
ghost use Rattle.page_list.specs.Items.{IsIn, cursor_index, insert_room};
ghost use Rattle.page_list.specs.Test.{AnswersBy};
ghost use Rattle.extent_map.specs.Changes.{MayGrow};
ghost use Rattle.extent_map.specs.Cut.{cut_short, rest_of};
ghost use Rattle.extent_map.specs.Clear.{NoneSpans, rows_left};
ghost use Rattle.extent_map.specs.Extents.{IsShortest, Fits, AllFit};

use crate::cut::first_met;
use crate::extent::Extent;
use crate::part::{after, before, rest};
use crate::place::Place;
use page_list::{Cursor, PageList, Steps};
use std::sync::ledger::{Blank, Ledger};

// Takes what is between two sectors out of those rows whose places pass the test. There is room for a row.
// The steps are counted in a ledger that nothing reads.
pub(crate) fn clear_rows<P: Place, F: Fn(&P) -> bool, L: Ledger>(
    rows: &mut PageList<Extent<P>>,
    lba: u64,
    end: u64,
    is_cleared: &F,
    blank: Blank,
)
    ghost test: { P → Bool }
    requires name { blank.name ≡ L.name }
    requires parts { blank.parts ≡ L.parts }
    requires counts { 0 < blank.parts }
    requires order { lba < end }
    requires rows { MayGrow P.on P.number 1 rows.old }
    requires callable { F.IsAlwaysCallable is_cleared.now }
    requires answers { AnswersBy F.Fn is_cleared.now test }
    ensures rows { rows.new.items ≡ rows_left P.on lba end test rows.old.items }
    ensures room { insert_room rows.old ≤ insert_room rows.new + 1 }
{
    let mut steps: Steps<L> = Steps::new(blank);
    let first = first_met(rows, lba, &mut steps);
    let Some(row) = rows.get(first) else {
        return;
    };
    if row.lba < lba && end < row.lba + row.sectors {
        if is_cleared(&row.place) {
            cut_out(rows, first, row, lba, end, &mut steps);
        }
        return;
    }
    let (kept, last) = keep_parts(rows, first, lba, end, is_cleared);
    rows.remove(kept, last, &mut steps);
}

// Takes what is between two sectors out of a row, which stands at a place and reaches over both. There is
// room for a row.
fn cut_out<P: Place, L: Ledger>(
    rows: &mut PageList<Extent<P>>,
    at: Cursor,
    row: Extent<P>,
    lba: u64,
    end: u64,
    steps: &mut Steps<L>,
)
    requires place { IsIn rows.old.lengths at }
    requires inside { cursor_index rows.old.lengths at < length rows.old.items }
    requires room { 1 ≤ insert_room rows.old }
    requires fits { Fits P.number row }
    requires order { lba < end }
    requires from { row.lba < lba }
    requires to { end < row.lba + row.sectors }
    ensures rows { rows.new.items ≡ take (cursor_index rows.old.lengths at) rows.old.items
        ++ cut_short lba row ∷ rest_of P.on end row ∷ drop (cursor_index rows.old.lengths at + 1)
        rows.old.items }
    ensures room { insert_room rows.old ≤ insert_room rows.new + 1 }
{
    rows.replace(
        at,
        Extent {
            sectors: lba - row.lba,
            ..row
        },
    );
    let next = rows.next(at);
    rows.insert(next, rest(row, end), steps);
}

// Leaves of the rows from a place on, up to the first that begins from a sector on, the parts that are not
// between two sectors where their places pass the test, and the other rows, and answers the places where
// these and where those end. No row reaches over both sectors.
fn keep_parts<P: Place, F: Fn(&P) -> bool>(
    rows: &mut PageList<Extent<P>>,
    first: Cursor,
    lba: u64,
    end: u64,
    is_cleared: &F,
) -> (Cursor, Cursor)
    ghost test: { P → Bool }
    requires order { lba < end }
    requires place { IsIn rows.old.lengths first }
    requires shortest { IsShortest P.on (drop (cursor_index rows.old.lengths first) rows.old.items) }
    requires fits { AllFit P.number (drop (cursor_index rows.old.lengths first) rows.old.items) }
    requires spans { NoneSpans lba end (drop (cursor_index rows.old.lengths first) rows.old.items) }
    requires callable { F.IsAlwaysCallable is_cleared.now }
    requires answers { AnswersBy F.Fn is_cleared.now test }
    ensures rows { take (cursor_index rows.old.lengths result.0) rows.new.items ++ drop
        (cursor_index rows.old.lengths result.1) rows.new.items
        ≡ take (cursor_index rows.old.lengths first) rows.old.items
        ++ rows_left P.on lba end test (drop (cursor_index rows.old.lengths first) rows.old.items) }
    ensures lengths { rows.new.lengths ≡ rows.old.lengths }
    ensures free { rows.new.free ≡ rows.old.free }
    ensures places { IsIn rows.old.lengths result.0 × IsIn rows.old.lengths result.1 }
    ensures order { cursor_index rows.old.lengths result.0 ≤ cursor_index rows.old.lengths result.1 }
{
    let mut kept = first;
    let mut at = first;
    while let Some(row) = rows.get(at) {
        if end <= row.lba {
            break;
        }
        kept = keep_part(rows, kept, part_kept(row, lba, end, is_cleared));
        at = rows.next(at);
    }
    (kept, at)
}

// Puts a part, if there is one, in place of a row, and answers the place after it.
fn keep_part<P: Place>(
    rows: &mut PageList<Extent<P>>,
    at: Cursor,
    part: Option<Extent<P>>,
) -> Cursor
    requires place { IsIn rows.old.lengths at }
    requires inside { cursor_index rows.old.lengths at < length rows.old.items }
    ensures front { take (cursor_index rows.old.lengths result) rows.new.items
        ≡ take (cursor_index rows.old.lengths at) rows.old.items ++ option_to_list part }
    ensures back { drop (cursor_index rows.old.lengths at + 1) rows.new.items
        ≡ drop (cursor_index rows.old.lengths at + 1) rows.old.items }
    ensures long { length rows.new.items ≡ length rows.old.items }
    ensures lengths { rows.new.lengths ≡ rows.old.lengths }
    ensures free { rows.new.free ≡ rows.old.free }
    ensures place { IsIn rows.old.lengths result }
    ensures near { cursor_index rows.old.lengths result ≤ cursor_index rows.old.lengths at + 1 }
{
    let Some(part) = part else {
        return at;
    };
    rows.replace(at, part);
    rows.next(at)
}

// The part of a row that is not between two sectors, if its place passes the test, and else the row. The row
// does not reach over both sectors.
fn part_kept<P: Place, F: Fn(&P) -> bool>(
    row: Extent<P>,
    lba: u64,
    end: u64,
    is_cleared: &F,
) -> Option<Extent<P>>
    ghost test: { P → Bool }
    requires order { lba < end }
    requires fits { Fits P.number row }
    requires spans { row.lba < lba → row.lba + row.sectors ≤ end }
    requires callable { F.IsAlwaysCallable is_cleared.now }
    requires answers { AnswersBy F.Fn is_cleared.now test }
    ensures { option_to_list result ≡ rows_left P.on lba end test (row ∷ []) }
{
    if !is_cleared(&row.place) {
        return Some(row);
    }
    before(row, lba).or(after(row, end))
}
