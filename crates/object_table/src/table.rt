ghost use Rattle.std.specs.Prelude.{◌≡◌, ◌+◌, ◌<◌, ◌≤◌, ◌^◌, [], false, length, map, max};
ghost use Rattle.std.specs.Prelude.{vec_capacity, OnOk, IsOk, IfSome};
ghost use Rattle.std.specs.List.{All};
ghost use Rattle.object_table.specs.Table.{row_of, live_of, with_changed, without, IsNewest, gained, lost};
ghost use Rattle.object_table.specs.Table.{pinned, unpinned, copied, held, new_row, added, passed};
ghost use Rattle.object_table.specs.Table.{acknowledged};
ghost use Rattle.object_table.specs.Table.{IsLowestRemovable, candidates, numbers};
ghost use Rattle.object_table.specs.Lists.{Climbs, IsListed, KeepsUnmapped, with_row};

use crate::list::list;
use crate::row::{ObjectRow, is_candidate, is_dead, is_free, new_row, place_of};
use std::alloc::{AllocError, Global};
use std::marker::Model;

/// What a volume knows of its own objects that stand in the store.
///
/// An object is added once all with lower numbers were settled, before its own rows are. Contracts see the
/// rows by ascending number, the newest acknowledged checkpoint, and the room for further objects.
#[derive(Drop)]
pub struct ObjectTable {
    // How many objects each list has room for.
    room: usize,
    checkpoint: u64,
    rows: Vec<ObjectRow>,
    // The objects that the next checkpoint will not map, but the newest acknowledged one may.
    dead: Vec<u64>,
    // The objects that may be removed.
    free: Vec<u64>,
    // The objects that a collection may take sectors from.
    candidates: Vec<u64>,
}

impl Model for ObjectTable {
    ghost use Rattle.std.specs.Prelude.{◌-◌, ◌≤◌, length, vec_capacity};
    ghost use Rattle.object_table.specs.Table.{TableState};
    ghost use Rattle.object_table.specs.Lists.{IsListed};

    ghost Value = { TableState };

    ghost view = { λ t. record {
      rows = t.rows.items;
      checkpoint = t.checkpoint;
      spare = t.room - length t.rows.items;
    } };

    ghost invariant = { λ t. IsListed t.checkpoint t.rows.items t.dead.items t.free.items t.candidates.items
        × (length t.rows.items ≤ t.room)
        × (t.room ≤ vec_capacity t.rows)
        × (t.room ≤ vec_capacity t.dead)
        × (t.room ≤ vec_capacity t.free)
        × (t.room ≤ vec_capacity t.candidates) };
}

impl ObjectTable {
    /// A table without objects, in which no checkpoint is acknowledged. It takes no memory, and has no room.
    pub fn new(alloc: Global) -> ObjectTable
        ensures { result ≡ record { rows = []; checkpoint = 0; spare = 0 } }
    {
        ObjectTable {
            room: 0,
            checkpoint: 0,
            rows: Vec::new(alloc),
            dead: Vec::new(alloc),
            free: Vec::new(alloc),
            candidates: Vec::new(alloc),
        }
    }

    /// Makes room for so many more objects. The one error is out of memory, which comes only where that room
    /// is missing. The rows are as before, and no room is lost, nor more of it made than was asked for.
    pub fn reserve(&mut self, objects: usize) -> Result<(), AllocError>
        ensures ok { OnOk result (objects ≤ self.new.spare) }
        ensures succeeds { objects ≤ self.old.spare → IsOk result }
        ensures rows { self.new.rows ≡ self.old.rows }
        ensures checkpoint { self.new.checkpoint ≡ self.old.checkpoint }
        ensures spare { self.old.spare ≤ self.new.spare }
        ensures most { self.new.spare ≤ max self.old.spare objects }
    {
        if objects <= self.spare() {
            return Ok(());
        }
        let Some(room) = self.rows.len().checked_add(objects) else {
            return Err(AllocError);
        };
        make_room(&mut self.rows, room)?;
        make_room(&mut self.dead, room)?;
        make_room(&mut self.free, room)?;
        make_room(&mut self.candidates, room)?;
        self.room = room;
        Ok(())
    }

    /// How many more objects there is room for.
    pub fn spare(&self) -> usize
        ensures { result ≡ self.now.spare }
    {
        self.room - self.rows.len()
    }

    /// The number of the newest acknowledged checkpoint, 0 for none.
    pub fn checkpoint(&self) -> u64
        ensures { result ≡ self.now.checkpoint }
    {
        self.checkpoint
    }

    /// Adds an object with so many sectors of payload and so many before it, without a live sector, which
    /// nothing holds. There is room for it, and its number is greater than those of all objects and of the
    /// newest acknowledged checkpoint: objects are settled in the order of their numbers (conditions). It
    /// takes no memory.
    pub fn add(&mut self, number: u64, payload: u64, front: u64)
        requires room { 1 ≤ self.old.spare }
        requires newest { IsNewest self.old number }
        ensures { self.new ≡ added (new_row number payload front) self.old }
    {
        self.put_last(new_row(number, payload, front));
    }

    /// The settled map has so many more sectors in this object. One that is absent changes nothing. The count
    /// stays below 2^64, as a map has fewer sectors; and no checkpoint that does not map the object is
    /// acknowledged, since an object gains sectors only while its own rows are settled (conditions).
    pub fn gain(&mut self, number: u64, sectors: u64)
        requires fits { live_of number self.old.rows + sectors < 2 ^ 64 }
        requires mapped { IfSome (row_of number self.old.rows) (λ row. row.is_unmapped ≡ false) }
        ensures { self.new ≡ with_changed (gained sectors) number self.old }
    {
        if let Some(mut row) = self.row(number) {
            row.live += sectors;
            self.put_row(row);
        }
    }

    /// The settled map has so many sectors fewer in this object. One that is absent changes nothing. It had
    /// so many (a condition).
    pub fn lose(&mut self, number: u64, sectors: u64)
        requires { sectors ≤ live_of number self.old.rows }
        ensures { self.new ≡ with_changed (lost sectors) number self.old }
    {
        if let Some(mut row) = self.row(number) {
            row.live -= sectors;
            self.put_row(row);
        }
    }

    /// How many sectors of the settled map are in this object; 0 for one that is absent.
    pub fn live(&self, number: u64) -> u64
        ensures { result ≡ live_of number self.now.rows }
    {
        match self.row(number) {
            Some(row) => row.live,
            None => 0,
        }
    }

    /// What is known of the object of this number; none where it is absent.
    pub fn row(&self, number: u64) -> Option<ObjectRow>
        ensures { result ≡ row_of number self.now.rows }
    {
        let at = place_of(&self.rows, number)?;
        Some(self.rows[at])
    }

    /// Pins an object once more, so that it is not removed. One that is absent changes nothing. It has fewer
    /// than 2^64 - 1 pins, as each is held by someone (a condition).
    pub fn pin(&mut self, number: u64)
        requires { IfSome (row_of number self.old.rows) (λ row. row.pins + 1 < 2 ^ 64) }
        ensures { self.new ≡ with_changed pinned number self.old }
    {
        if let Some(mut row) = self.row(number) {
            row.pins += 1;
            self.put_row(row);
        }
    }

    /// Gives one pin of an object back. One that is absent changes nothing. It has a pin, that of the caller
    /// (a condition).
    pub fn unpin(&mut self, number: u64)
        requires { IfSome (row_of number self.old.rows) (λ row. 0 < row.pins) }
        ensures { self.new ≡ with_changed unpinned number self.old }
    {
        if let Some(mut row) = self.row(number) {
            row.pins -= 1;
            self.put_row(row);
        }
    }

    /// A plan of a copy takes sectors from an object, so that it is not removed, or takes none any longer.
    /// One that is absent changes nothing. It takes no memory.
    pub fn set_copied(&mut self, number: u64, is_copied: bool)
        ensures { self.new ≡ with_changed (copied is_copied) number self.old }
    {
        if let Some(mut row) = self.row(number) {
            row.is_copied = is_copied;
            self.put_row(row);
        }
    }

    /// A hold keeps an object from now on: it is not removed, and no collection takes sectors from it. One
    /// that is absent changes nothing. It takes no memory.
    pub fn hold(&mut self, number: u64)
        ensures { self.new ≡ with_changed held number self.old }
    {
        if let Some(mut row) = self.row(number) {
            row.is_held = true;
            self.put_row(row);
        }
    }

    /// A checkpoint is acknowledged, and is added. It maps just the objects that have a live sector now: it
    /// was put when all with lower numbers were settled. The conditions are those of `add`. Only the objects
    /// are looked at that lost their last live sector since the checkpoint before, and it takes no memory.
    pub fn acknowledge_checkpoint(&mut self, number: u64)
        requires room { 1 ≤ self.old.spare }
        requires newest { IsNewest self.old number }
        ensures { self.new ≡ acknowledged number self.old }
    {
        self.checkpoint = number;
        pass_dead(number, &mut self.rows, &mut self.dead, &mut self.free);
        self.put_last(new_row(number, 0, 0));
    }

    /// The lowest number of an object that may be removed: the newest acknowledged checkpoint has a greater
    /// number and does not map it, it is not pinned, no plan of a copy takes sectors from it, and no hold
    /// keeps it. None is where there is no such object.
    pub fn removable(&self) -> Option<u64>
        ensures { IsLowestRemovable self.now result }
    {
        self.free.first().copied()
    }

    /// The numbers of the objects that a collection may take sectors from, ascending: those with a live
    /// sector whose live sectors are fewer than 70 in a hundred of their payload, and that no hold keeps. It
    /// looks at no other object.
    pub fn candidates(&self) -> &[u64]
        ensures value { result.now ≡ candidates self.now.rows }

        // Each of these numbers has one row, since the rows stand by ascending number.
        ensures order { Climbs 0 (numbers self.now.rows) }
    {
        &self.candidates
    }

    /// The object of this number was removed: it is no longer in the table, and there is room for one more. A
    /// number that is absent changes nothing.
    pub fn drop_row(&mut self, number: u64)
        ensures rows { self.new.rows ≡ without number self.old.rows }
        ensures checkpoint { self.new.checkpoint ≡ self.old.checkpoint }
        ensures spare { self.new.spare + length self.new.rows ≡ self.old.spare + length self.old.rows }
    {
        if let Some(at) = place_of(&self.rows, number) {
            self.rows.remove(at);
            list(&mut self.dead, number, false);
            list(&mut self.free, number, false);
            list(&mut self.candidates, number, false);
        }
    }

    // Puts a row without a live sector after all others, whose numbers are lower.
    fn put_last(&mut self, row: ObjectRow)
        requires room { 1 ≤ self.old.spare }
        requires some { 0 < row.number }
        requires last { All (λ other. other.number < row.number) self.old.rows }
        requires dead { row.live ≡ 0 }
        requires mapped { row.is_unmapped ≡ false }
        ensures { self.new ≡ added row self.old }
    {
        let _ = self.rows.push(row);
        let _ = self.dead.push(row.number);
    }

    // Puts a row in place of the one with its number.
    fn put_row(&mut self, row: ObjectRow)
        requires { KeepsUnmapped self.old.rows row }
        ensures { self.new ≡ record self.old { rows = with_row row self.old.rows } }
    {
        if let Some(at) = place_of(&self.rows, row.number) {
            self.rows[at] = row;
            list(&mut self.dead, row.number, is_dead(&row));
            list(&mut self.free, row.number, is_free(&row));
            list(&mut self.candidates, row.number, is_candidate(&row));
        }
    }
}

// Makes room for so many elements in all. The one error is out of memory; no room is lost.
fn make_room<T>(list: &mut Vec<T>, room: usize) -> Result<(), AllocError>
    ensures items { list.new.items ≡ list.old.items }
    ensures ok { OnOk result (room ≤ vec_capacity list.new) }
    ensures capacity { vec_capacity list.old ≤ vec_capacity list.new }
{
    list.reserve(room.saturating_sub(list.len()))
}

// Passes each dead object by with a checkpoint of this number: from then on the newest acknowledged
// checkpoint does not map it, and it may be removed, unless something holds it. No object becomes a candidate
// by it, and none ceases to be one, since those have live sectors.
fn pass_dead(checkpoint: u64, rows: &mut Vec<ObjectRow>, dead: &mut Vec<u64>, free: &mut Vec<u64>)
    requires listed { IsListed checkpoint rows.old.items dead.old.items free.old.items
        (candidates rows.old.items) }
    requires below { All (λ row. row.number < checkpoint) rows.old.items }
    requires room { length rows.old.items ≤ vec_capacity free.old }
    ensures listed { IsListed checkpoint rows.new.items dead.new.items free.new.items
        (candidates rows.old.items) }
    ensures passed { rows.new.items ≡ map passed rows.old.items }
    ensures rows_capacity { vec_capacity rows.old ≤ vec_capacity rows.new }
    ensures dead_capacity { vec_capacity dead.old ≤ vec_capacity dead.new }
    ensures free_capacity { vec_capacity free.old ≤ vec_capacity free.new }
{
    while let Some(number) = dead.pop() {
        if let Some(at) = place_of(rows, number) {
            let mut row = rows[at];
            row.is_unmapped = true;
            rows[at] = row;
            list(free, number, is_free(&row));
        }
    }
}
