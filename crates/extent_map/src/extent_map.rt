ghost use Rattle.std.specs.Prelude.{◌≡◌, ◌+◌, ◌*◌, ◌≤◌, ◌^◌, ◌<◌, ◌↔◌, ℕ, Bool, [], length, IfOk, OnOk, IsOk};
ghost use Rattle.std.specs.Prelude.{◌++◌, IfSome, IsNone};
ghost use Rattle.page_list.specs.Items.{insert_room};
ghost use Rattle.page_list.specs.Test.{AnswersBy};
ghost use Rattle.extent_map.specs.Changes.{MayGrow, IsRow, IsSet, IsTakenOut};
ghost use Rattle.extent_map.specs.Cut.{rows_before, rows_from};
ghost use Rattle.extent_map.specs.Extents.{IsSteady, place_at, place_after_set, place_after_clear};
ghost use Rattle.extent_map.specs.Extents.{place_after_clear_if, place_in_range, IsShortest, Fits, AllFit};
ghost use Rattle.extent_map.specs.Extents.{IsFirstOfRange, StartsRange, IsBare, met};

use crate::clear::clear_rows;
use crate::cut::take_out;
use crate::extent::Extent;
use crate::first::first_between;
use crate::in_order::RowsInOrder;
use crate::join::put;
use crate::look::look;
use crate::place::Place;
use page_list::{PageList, Steps};
use std::alloc::{AllocError, Global};
use std::marker::{Brand, Model};
use std::sync::ledger::{Blank, Ledger};

/// A map from sectors to places. It is a function on sectors: each has a place or none.
///
/// Contracts see it as the one shortest list of rows in order that says that function, with its room for
/// changes.
#[derive(Drop)]
pub struct ExtentMap<P: Place> {
    rows: PageList<Extent<P>>,
}

impl<P: Place> Model for ExtentMap<P> {
    ghost use Rattle.extent_map.specs.State.{MapState, map_state_code};

    ghost Value = { MapState P };

    ghost coded = { map_state_code P.code };

    ghost use Rattle.std.specs.Prelude.{◌/◌};
    ghost use Rattle.page_list.specs.Items.{insert_room};
    ghost use Rattle.extent_map.specs.Extents.{IsShortest, AllFit};

    ghost view = { λ m. record { rows = m.rows.items; spare = insert_room m.rows / 2 } };

    ghost invariant = { λ m. IsShortest P.on m.rows.items × AllFit P.number m.rows.items };
}

// The rows that one change may add.
const ROWS_OF_CHANGE: usize = 2;

impl<P: Place> ExtentMap<P> {
    /// The map that gives no sector a place. It takes no memory, and has no room for a change.
    pub fn new(alloc: Global) -> ExtentMap<P>
        ensures { result ≡ record { rows = []; spare = 0 } }
    {
        ExtentMap {
            rows: PageList::new(alloc),
        }
    }

    /// Makes room for N changes. The one error is out of memory, which comes only where that room is missing.
    /// The rows are as before, and no room is lost.
    pub fn reserve(&mut self, changes: usize) -> Result<(), AllocError>
        ensures ok { OnOk result (changes ≤ self.new.spare) }
        ensures rows { self.new.rows ≡ self.old.rows }
        ensures spare { self.old.spare ≤ self.new.spare }
        ensures succeeds { changes ≤ self.old.spare → IsOk result }
    {
        if changes <= self.spare() {
            return Ok(());
        }
        let Some(more) = changes.checked_mul(ROWS_OF_CHANGE) else {
            return Err(AllocError);
        };
        self.rows.reserve(more)
    }

    /// How many changes there is room for.
    pub fn spare(&self) -> usize
        ensures { result ≡ self.now.spare }
    {
        self.rows.room() / ROWS_OF_CHANGE
    }

    /// How many rows it has.
    pub fn len(&self) -> usize
        ensures { result ≡ length self.now.rows }
    {
        self.rows.len()
    }

    /// All rows, one by one, without a copy of them. It takes no memory.
    pub fn in_order(&self) -> RowsInOrder<'_, P>
        ensures rows { result ≡ self.now.rows }
        ensures shortest { IsShortest P.on self.now.rows }
        ensures fits { AllFit P.number self.now.rows }
    {
        RowsInOrder::new(&self.rows)
    }

    /// A map with the same rows, and with room for N changes. Each row is copied once, without a search. The
    /// one error is out of memory.
    pub fn copy(&self, alloc: Global, changes: usize) -> Result<ExtentMap<P>, AllocError>
        ensures { IfOk result (λ map. (map.rows ≡ self.now.rows) × (changes ≤ map.spare)) }
    {
        let mut rows = PageList::new(alloc);
        rows.reserve(room_for(self.len(), changes)?)?;
        append_rows::<P, Brand>(&mut rows, self.in_order(), Blank::new(1));
        Ok(ExtentMap { rows })
    }

    /// All rows. The one error is out of memory.
    pub fn rows(&self, alloc: Global) -> Result<Vec<Extent<P>>, AllocError>
        ensures rows { IfOk result (λ rows. rows.items ≡ self.now.rows) }
        ensures shortest { IsShortest P.on self.now.rows }
        ensures fits { AllFit P.number self.now.rows }
    {
        self.rows.to_vec(alloc)
    }

    /// Gives the sectors from `lba` on the places from `place` on, one by one, whatever they had. No sectors
    /// change nothing. There is room for a change, and the range and its places end below 2^63 (conditions).
    /// It takes no memory.
    pub fn set(&mut self, lba: u64, sectors: u64, place: P)
        requires room { 1 ≤ self.old.spare }
        requires range { lba + sectors < 2 ^ 63 }
        requires places { P.number place + sectors < 2 ^ 63 }
        ensures places { (k : ℕ) → place_at P.on self.new.rows k ≡ place_after_set P.on lba sectors place
            (place_at P.on self.old.rows) k }
        ensures shortest { IsShortest P.on self.new.rows }
        ensures fits { AllFit P.number self.new.rows }
        ensures count { length self.new.rows ≤ length self.old.rows + 2 }
        ensures none { sectors ≡ 0 → self.new ≡ self.old }
        ensures spare { self.old.spare ≤ self.new.spare + 1 }
    {
        if sectors != 0 {
            let row = Extent {
                lba,
                sectors,
                place,
            };
            set_uncounted::<P, Brand>(&mut self.rows, row, Blank::new(1));
        }
    }

    /// Does what `set` does, under the same conditions, and counts its steps: comparisons in a search, and
    /// rows that are moved in memory or dropped. They are at most 512, and as many more as rows share a
    /// sector with the range.
    pub fn set_counted<L: Ledger>(&mut self, lba: u64, sectors: u64, place: P, steps: &mut Steps<L>)
        requires room { 1 ≤ self.old.spare }
        requires range { lba + sectors < 2 ^ 63 }
        requires places { P.number place + sectors < 2 ^ 63 }
        ensures places { (k : ℕ) → place_at P.on self.new.rows k ≡ place_after_set P.on lba sectors place
            (place_at P.on self.old.rows) k }
        ensures shortest { IsShortest P.on self.new.rows }
        ensures fits { AllFit P.number self.new.rows }
        ensures count { length self.new.rows ≤ length self.old.rows + 2 }
        ensures none { sectors ≡ 0 → self.new ≡ self.old }
        ensures spare { self.old.spare ≤ self.new.spare + 1 }
        ensures steps { steps.new ≤ steps.old + 512 + met lba sectors self.old.rows }
        ensures rises { steps.old ≤ steps.new }
    {
        if sectors != 0 {
            let row = Extent {
                lba,
                sectors,
                place,
            };
            set_rows(&mut self.rows, row, steps);
        }
    }

    /// Leaves the sectors from `lba` on without a place. No sectors change nothing. There is room for a
    /// change, and the range ends below 2^63 (conditions). It takes no memory.
    pub fn clear(&mut self, lba: u64, sectors: u64)
        requires room { 1 ≤ self.old.spare }
        requires range { lba + sectors < 2 ^ 63 }
        ensures places { (k : ℕ) → place_at P.on self.new.rows k ≡ place_after_clear lba sectors
            (place_at P.on self.old.rows) k }
        ensures shortest { IsShortest P.on self.new.rows }
        ensures count { length self.new.rows ≤ length self.old.rows + 1 }
        ensures none { sectors ≡ 0 → self.new ≡ self.old }
        ensures spare { self.old.spare ≤ self.new.spare + 1 }
    {
        if sectors != 0 {
            clear_range::<P, Brand>(&mut self.rows, lba, lba + sectors, Blank::new(1));
        }
    }

    /// Leaves those of the sectors from `lba` on without a place whose place passes the test, and every other
    /// sector as it was. No sectors change nothing. The test may be called at any place, and says of the
    /// place N sectors on what it says of the place. There is room for one change, which is enough for any
    /// number of rows, and the range ends below 2^63 (all conditions). It takes no memory.
    ///
    /// In proofs a caller names the test that the closure answers by.
    pub fn clear_if<F: Fn(&P) -> bool>(&mut self, lba: u64, sectors: u64, is_cleared: F)
        ghost test: { P → Bool }
        requires room { 1 ≤ self.old.spare }
        requires range { lba + sectors < 2 ^ 63 }
        requires callable { F.IsAlwaysCallable is_cleared }
        requires answers { AnswersBy F.Fn is_cleared test }
        requires steady { IsSteady P.on test }
        ensures places { (k : ℕ) → place_at P.on self.new.rows k ≡ place_after_clear_if lba sectors test
            (place_at P.on self.old.rows) k }
        ensures shortest { IsShortest P.on self.new.rows }
        ensures none { sectors ≡ 0 → self.new ≡ self.old }
        ensures spare { self.old.spare ≤ self.new.spare + 1 }
    {
        if sectors != 0 {
            clear_rows::<P, F, Brand>(
                &mut self.rows,
                lba,
                lba + sectors,
                &is_cleared,
                Blank::new(1),
            );
        }
    }

    /// The rows of the sectors from `lba` on alone, cut at the edges of that range: the shortest list that
    /// gives them their places. The range ends below 2^63 (a condition). The one error is out of memory.
    pub fn look(&self, alloc: Global, lba: u64, sectors: u64) -> Result<Vec<Extent<P>>, AllocError>
        requires { lba + sectors < 2 ^ 63 }
        ensures places { IfOk result (λ rows. (k : ℕ) → place_at P.on rows.items k ≡ place_in_range lba
            sectors (place_at P.on self.now.rows) k) }
        ensures shortest { IfOk result (λ rows. IsShortest P.on rows.items) }
        ensures fits { IfOk result (λ rows. AllFit P.number rows.items) }
    {
        look_uncounted::<P, Brand>(alloc, &self.rows, lba, lba + sectors, Blank::new(1))
    }

    /// Answers as `look` does, under the same condition, and counts its steps: comparisons with a row, or
    /// with the first row of a page. They are at most as many as the number of rows has binary digits, 16
    /// more, and two for each row that is given.
    pub fn look_counted<L: Ledger>(
        &self,
        alloc: Global,
        lba: u64,
        sectors: u64,
        steps: &mut Steps<L>,
    ) -> Result<Vec<Extent<P>>, AllocError>
        requires { lba + sectors < 2 ^ 63 }
        ensures places { IfOk result (λ rows. (k : ℕ) → place_at P.on rows.items k ≡ place_in_range lba
            sectors (place_at P.on self.now.rows) k) }
        ensures shortest { IfOk result (λ rows. IsShortest P.on rows.items) }
        ensures fits { IfOk result (λ rows. AllFit P.number rows.items) }
        ensures steps { IfOk result (λ rows. (k : ℕ) → length self.now.rows < 2 ^ k
            → steps.new ≤ steps.old + k + 16 + 2 * length rows.items) }
        ensures rises { steps.old ≤ steps.new }
    {
        look(alloc, &self.rows, lba, lba + sectors, steps)
    }

    /// The first of the rows that `look` of this range gives, cut at the edges of the range; none where no
    /// sector of it has a place. The range ends below 2^63 (a condition). It takes no memory.
    pub fn first_in(&self, lba: u64, sectors: u64) -> Option<Extent<P>>
        requires { lba + sectors < 2 ^ 63 }
        ensures first { IsFirstOfRange P.on lba sectors (place_at P.on self.now.rows) result }
        ensures none { IsNone result ↔ IsBare lba sectors (place_at P.on self.now.rows) }
        ensures row { IfSome result (StartsRange P.on lba sectors (place_at P.on self.now.rows)) }
        ensures fits { IfSome result (Fits P.number) }
    {
        first_between::<P, Brand>(&self.rows, lba, lba + sectors, Blank::new(1))
    }
}

// For how many inserts a map with so many rows and room for so many changes has room before its rows are in.
// The one error is out of memory, where no memory is that large.
fn room_for(rows: usize, changes: usize) -> Result<usize, AllocError>
    ensures { IfOk result (λ room. room ≡ rows + 2 * changes) }
{
    match changes.checked_mul(ROWS_OF_CHANGE) {
        Some(more) => rows.checked_add(more).ok_or(AllocError),
        None => Err(AllocError),
    }
}

// Puts a row in place of what is on its sectors. There is room for two rows.
fn set_rows<P: Place, L: Ledger>(
    rows: &mut PageList<Extent<P>>,
    row: Extent<P>,
    steps: &mut Steps<L>,
)
    requires rows { MayGrow P.on P.number 2 rows.old }
    requires row { IsRow P.number row }
    ensures set { IsSet P.on P.number row rows.old rows.new }
    ensures steps { steps.new ≤ steps.old + 511 + met row.lba row.sectors rows.old.items }
    ensures rises { steps.old ≤ steps.new }
{
    let at = take_out(rows, row.lba, row.lba + row.sectors, steps);
    put(rows, at, row, steps);
}

// The calls below count their steps in a ledger that nothing reads.

// Puts a row in place of what is on its sectors. There is room for two rows.
fn set_uncounted<P: Place, L: Ledger>(rows: &mut PageList<Extent<P>>, row: Extent<P>, blank: Blank)
    requires name { blank.name ≡ L.name }
    requires parts { blank.parts ≡ L.parts }
    requires counts { 0 < blank.parts }
    requires rows { MayGrow P.on P.number 2 rows.old }
    requires row { IsRow P.number row }
    ensures { IsSet P.on P.number row rows.old rows.new }
{
    let mut steps: Steps<L> = Steps::new(blank);
    set_rows(rows, row, &mut steps);
}

// Takes what is between two sectors out. There is room for a row.
fn clear_range<P: Place, L: Ledger>(
    rows: &mut PageList<Extent<P>>,
    lba: u64,
    end: u64,
    blank: Blank,
)
    requires name { blank.name ≡ L.name }
    requires parts { blank.parts ≡ L.parts }
    requires counts { 0 < blank.parts }
    requires order { lba < end }
    requires rows { MayGrow P.on P.number 1 rows.old }
    ensures { IsTakenOut P.on lba end rows.old rows.new }
{
    let mut steps: Steps<L> = Steps::new(blank);
    take_out(rows, lba, end, &mut steps);
}

// The rows between two sectors, cut at both. The one error is out of memory.
fn look_uncounted<P: Place, L: Ledger>(
    alloc: Global,
    rows: &PageList<Extent<P>>,
    lba: u64,
    end: u64,
    blank: Blank,
) -> Result<Vec<Extent<P>>, AllocError>
    requires name { blank.name ≡ L.name }
    requires parts { blank.parts ≡ L.parts }
    requires counts { 0 < blank.parts }
    requires order { lba ≤ end }
    requires shortest { IsShortest P.on rows.now.items }
    requires fits { AllFit P.number rows.now.items }
    ensures { IfOk result (λ found. found.items ≡ rows_before end (rows_from P.on lba rows.now.items)) }
{
    let mut steps: Steps<L> = Steps::new(blank);
    look(alloc, rows, lba, end, &mut steps)
}

// Puts the rows that are left of some in order after those of a list. There is room for them.
fn append_rows<P: Place, L: Ledger>(
    rows: &mut PageList<Extent<P>>,
    mut left: RowsInOrder<'_, P>,
    blank: Blank,
)
    requires name { blank.name ≡ L.name }
    requires parts { blank.parts ≡ L.parts }
    requires counts { 0 < blank.parts }
    requires room { length left ≤ insert_room rows.old }
    ensures rows { rows.new.items ≡ rows.old.items ++ left.entry }
    ensures room { insert_room rows.old ≤ insert_room rows.new + length left.entry }
{
    let mut steps: Steps<L> = Steps::new(blank);
    while let Some(row) = left.next() {
        let end = rows.end();
        rows.insert(end, row, &mut steps);
    }
}
