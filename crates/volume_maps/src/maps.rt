ghost use Rattle.std.specs.Prelude.{◌≡◌, ◌+◌, ◌<◌, ◌≤◌, ◌^◌, ℕ, ◌++◌, ◌∷◌, [], length, IfOk, OnOk, OnErr};
ghost use Rattle.std.specs.Prelude.{IsOk, IfSome, IsTrue, ◌↔◌};
ghost use Rattle.std.specs.List.{sum_by};
ghost use Rattle.std.specs.Option.{option_or};
ghost use Rattle.lsvd_base.specs.Laws.{first_sector, sector_count};
ghost use Rattle.extent_map.specs.Extents.{place_at, place_in_range, place_after_set, IsShortest, AllFit};
ghost use Rattle.object_table.specs.Table.{row_of, with_changed, without, pinned, unpinned, new_row, added};
ghost use Rattle.object_table.specs.Table.{copied, held, acknowledged, candidates, IsNewest};
ghost use Rattle.object_table.specs.Table.{IsLowestRemovable};
ghost use Rattle.reverse_map.specs.Ranges.{IsAbove};
ghost use Rattle.volume_maps.specs.Places.{object_on, log_on, volume_on, log_number, volume_number};
ghost use Rattle.volume_maps.specs.Places.{place_left_by, row_left_by};
ghost use Rattle.volume_maps.specs.Maps.{settled_at, logged_at, volume_place_at, settled_by};
ghost use Rattle.volume_maps.specs.Maps.{logged_by_row, logged_by, RowFits, RowsFit, settled_by_copy};
ghost use Rattle.volume_maps.specs.Maps.{CopyRowsFit};
ghost use Rattle.volume_maps.specs.Live.{IsCounted, MayGain, HasSameObjects, live_sectors};
ghost use Rattle.volume_maps.specs.Kept.{IsKept};
ghost use Rattle.volume_maps.specs.Covered.{CoverRows, CoverCopyRows, with_sectors};
ghost use Rattle.volume_maps.specs.CopyPlan.{PlacesAreIn, PlansCopy};

use crate::copy_plan::{copy_rows, plan_victims};
use crate::look::look;
use crate::place::{LogPlace, ObjectPlace, VolumePlace};
use crate::ranges::range_of;
use crate::settled::{set_counted, settle_copies_counted, settle_rows_counted};
use extent_map::{Extent, ExtentMap};
use gc_policy::victims;
use lsvd_base::Entry;
use object_format::{CopyRow, DataRow};
use object_table::{ObjectRow, ObjectTable};
use reverse_map::{ReverseMap, SectorRange};
use std::alloc::{AllocError, Global};
use std::marker::Model;

/// An object that comes into the table.
#[derive(Clone, Copy, Debug)]
pub struct NewObject {
    /// Its number.
    pub number: u64,
    /// How many sectors of payload it has.
    pub payload: u64,
    /// How many sectors it has before the payload.
    pub front: u64,
}

/// The two maps of a volume, and the table of its objects.
///
/// The objects' map says which object has a sector, by the objects up to the frontier. The table has these
/// objects, and how many sectors of that map each has. The log's map says where the log has the sectors that
/// the entries past the frontier's end changed, and lies over the other.
#[derive(Drop)]
pub struct VolumeMaps {
    settled: ExtentMap<ObjectPlace>,
    log: ExtentMap<LogPlace>,
    objects: ObjectTable,
    // For each object of the table, the sectors that the objects' map may have in it.
    reverse: ReverseMap,
}

impl Model for VolumeMaps {
    ghost use Rattle.volume_maps.specs.Maps.{MapsState};
    ghost use Rattle.std.specs.Prelude.{◌≤◌};
    ghost use Rattle.volume_maps.specs.Kept.{IsKept};
    ghost use Rattle.volume_maps.specs.Covered.{IsReverse};

    ghost Value = { MapsState };

    ghost view = { λ m. record { settled = m.settled; log = m.log; objects = m.objects } };

    ghost invariant = { λ m. IsKept m.settled.rows m.objects
        × IsReverse m.settled.rows m.objects m.reverse.objects
        × (m.objects.spare ≤ m.reverse.spare) };
}

impl VolumeMaps {
    /// Maps that give no sector a place, and no object. They have no room, and take no memory.
    pub fn new(alloc: Global) -> VolumeMaps
        ensures settled { result.settled ≡ record { rows = []; spare = 0 } }
        ensures log { result.log ≡ record { rows = []; spare = 0 } }
        ensures objects { result.objects ≡ record { rows = []; checkpoint = 0; spare = 0 } }
    {
        VolumeMaps {
            settled: ExtentMap::new(alloc),
            log: ExtentMap::new(alloc),
            objects: ObjectTable::new(alloc),
            reverse: ReverseMap::new(alloc),
        }
    }

    /// Makes room for so many changes of the objects' map, so many of the log's, and so many more objects.
    /// The one error is out of memory, which comes only where that room is missing. The places and the
    /// objects are as before, and no room is lost.
    pub fn reserve(&mut self, settled: usize, log: usize, objects: usize) -> Result<(), AllocError>
        ensures settled_room { OnOk result (settled ≤ self.new.settled.spare) }
        ensures log_room { OnOk result (log ≤ self.new.log.spare) }
        ensures object_room { OnOk result (objects ≤ self.new.objects.spare) }
        ensures succeeds { settled ≤ self.old.settled.spare → log ≤ self.old.log.spare
            → objects ≤ self.old.objects.spare → IsOk result }
        ensures settled_rows { self.new.settled.rows ≡ self.old.settled.rows }
        ensures log_rows { self.new.log.rows ≡ self.old.log.rows }
        ensures rows { self.new.objects.rows ≡ self.old.objects.rows }
        ensures checkpoint { self.new.objects.checkpoint ≡ self.old.objects.checkpoint }
        ensures settled_kept { self.old.settled.spare ≤ self.new.settled.spare }
        ensures log_kept { self.old.log.spare ≤ self.new.log.spare }
        ensures object_kept { self.old.objects.spare ≤ self.new.objects.spare }
    {
        self.settled.reserve(settled)?;
        self.log.reserve(log)?;
        self.reverse.reserve(objects)?;
        self.objects.reserve(objects)
    }

    /// How many changes of the log's map there is room for.
    pub fn log_spare(&self) -> usize
        ensures { result ≡ self.now.log.spare }
    {
        self.log.spare()
    }

    /// Enters an entry with this seq: from then on its sectors are in the log, from the sector `data_at` of
    /// the log on, or they are zeros, where `data_at` says nothing. There is room for a change of the log's
    /// map, and the entry's sectors and those of its data end below 2^63 (conditions). It takes no memory.
    pub fn enter(&mut self, entry: &Entry, seq: u64, data_at: u64)
        requires room { 1 ≤ self.old.log.spare }
        requires range { first_sector entry.now + sector_count entry.now < 2 ^ 63 }
        requires places { log_number (row_left_by seq data_at entry.now).place + sector_count
            entry.now < 2 ^ 63 }
        ensures log { (k : ℕ) → logged_at self.new k ≡ option_or (place_left_by seq data_at entry.now k)
            (logged_at self.old k) }
        ensures spare { self.old.log.spare ≤ self.new.log.spare + 1 }
        ensures settled { self.new.settled ≡ self.old.settled }
        ensures objects { self.new.objects ≡ self.old.objects }
    {
        let row = row_left_by(entry, seq, data_at);
        self.log.set(row.lba, row.sectors, row.place);
    }

    /// Adds an object, which no sector is in yet: its sectors are mapped one range after the other. There is
    /// room for it, and its number is greater than those of all objects and of the newest acknowledged
    /// checkpoint (conditions). It takes no memory.
    pub fn add_object(&mut self, object: NewObject)
        requires room { 1 ≤ self.old.objects.spare }
        requires newest { IsNewest self.old.objects object.number }
        ensures added { self.new ≡ record self.old {
          objects = added (new_row object.number object.payload object.front) self.old.objects;
        } }
        ensures counted { IsCounted self.new.settled.rows self.new.objects }
    {
        self.objects
            .add(object.number, object.payload, object.front);
        self.reverse.add_empty(object.number);
    }

    /// Adds a data object, and settles it with these rows, whose entries end before the seq `end`: it has the
    /// sectors that its rows put from then on, and none has those that they clear; and of its rows' sectors
    /// the log's map keeps those alone that entries from `end` on changed. Its number is greater than those
    /// of all objects and of the newest acknowledged checkpoint. There is room for it, and for a change of
    /// each map for each row; the rows end below 2^63 and their places in the payload below 2^32; and the
    /// ranges have all sectors that the rows put (all conditions). It takes no memory.
    pub fn settle(
        &mut self,
        object: NewObject,
        end: u64,
        rows: &[DataRow],
        ranges: Vec<SectorRange>,
    )
        requires room { 1 ≤ self.old.objects.spare }
        requires newest { IsNewest self.old.objects object.number }
        requires settled_room { length rows.now ≤ self.old.settled.spare }
        requires log_room { length rows.now ≤ self.old.log.spare }
        requires fits { RowsFit rows.now }
        requires covered { CoverRows ranges.items rows.now }
        ensures settled { (k : ℕ) → settled_at self.new k ≡ settled_by object.number rows.now
            (settled_at self.old k) k }
        ensures log { (k : ℕ) → logged_at self.new k ≡ logged_by end rows.now (logged_at self.old k) k }
        ensures objects { HasSameObjects (added (new_row object.number object.payload object.front)
            self.old.objects) self.new.objects }
        ensures counted { IsCounted self.new.settled.rows self.new.objects }
        ensures shortest { IsShortest object_on self.new.settled.rows }
        ensures object_spare { self.new.objects.spare + 1 ≡ self.old.objects.spare }
        ensures settled_spare { self.old.settled.spare ≤ self.new.settled.spare + length rows.now }
        ensures log_spare { self.old.log.spare ≤ self.new.log.spare + length rows.now }
    {
        add(&mut self.objects, &mut self.reverse, object, ranges);
        settle_rows_counted(&mut self.settled, &mut self.objects, object.number, rows);
        drop_older(&mut self.log, end, rows);
    }

    /// Adds a copy, and settles it with these rows: it has those of its sectors that the map still has in the
    /// source of their row, and any other is where it was. Its number is greater than those of all objects
    /// and of the newest acknowledged checkpoint. There is room for it, and for a change of the objects' map
    /// for each sector of the rows; the rows end below 2^63 and their places in the payload below 2^32; and
    /// the ranges have all sectors of the rows (all conditions). The log's map stays. It takes no memory.
    pub fn settle_copy(&mut self, object: NewObject, rows: &[CopyRow], ranges: Vec<SectorRange>)
        requires room { 1 ≤ self.old.objects.spare }
        requires newest { IsNewest self.old.objects object.number }
        requires settled_room { sum_by (λ row. row.sectors) rows.now ≤ self.old.settled.spare }
        requires fits { CopyRowsFit rows.now }
        requires covered { CoverCopyRows ranges.items rows.now }
        ensures settled { (k : ℕ) → settled_at self.new k ≡ settled_by_copy object.number rows.now
            (settled_at self.old k) k }
        ensures log { self.new.log ≡ self.old.log }
        ensures objects { HasSameObjects (added (new_row object.number object.payload object.front)
            self.old.objects) self.new.objects }
        ensures counted { IsCounted self.new.settled.rows self.new.objects }
        ensures shortest { IsShortest object_on self.new.settled.rows }
        ensures object_spare { self.new.objects.spare + 1 ≡ self.old.objects.spare }
        ensures settled_spare { self.old.settled.spare ≤ self.new.settled.spare + sum_by (λ row. row.sectors)
            rows.now }
    {
        add(&mut self.objects, &mut self.reverse, object, ranges);
        settle_copies_counted(&mut self.settled, &mut self.objects, object.number, rows);
    }

    /// Gives the sectors from `lba` on the places of an object from one on, as a checkpoint's row says it.
    /// Where it is the volume's own object, it was added, and no checkpoint was acknowledged since. There is
    /// room for a change of the objects' map, and the sectors end at 2^31 at most and their places below 2^32
    /// (all conditions). The one error is out of memory; then nothing changes.
    pub fn map_sectors(
        &mut self,
        lba: u64,
        sectors: u64,
        place: ObjectPlace,
    ) -> Result<(), AllocError>
        requires room { 1 ≤ self.old.settled.spare }
        requires range { lba + sectors ≤ 2147483648 }
        requires places { place.sector + sectors < 2 ^ 32 }
        requires object { place.level ≡ 0 → MayGain place.number self.old.objects }
        ensures settled { OnOk result ((k : ℕ) → settled_at self.new k ≡ place_after_set object_on lba sectors
            place (settled_at self.old) k) }
        ensures log { self.new.log ≡ self.old.log }
        ensures objects { HasSameObjects self.old.objects self.new.objects }
        ensures counted { IsCounted self.new.settled.rows self.new.objects }
        ensures shortest { IsShortest object_on self.new.settled.rows }
        ensures object_spare { self.new.objects.spare ≡ self.old.objects.spare }
        ensures spare { self.old.settled.spare ≤ self.new.settled.spare + 1 }
        ensures same { OnErr result (self.new ≡ self.old) }
    {
        add_sectors(&mut self.reverse, lba, sectors, place)?;
        set_counted(&mut self.settled, &mut self.objects, lba, sectors, place);
        Ok(())
    }

    /// A checkpoint is acknowledged, which holds the objects' map as it is now, and is added: all objects
    /// with lower numbers are settled. The conditions are those of `add_object`. It takes no memory.
    pub fn acknowledge_checkpoint(&mut self, number: u64)
        requires room { 1 ≤ self.old.objects.spare }
        requires newest { IsNewest self.old.objects number }
        ensures passed { self.new ≡ record self.old { objects = acknowledged number self.old.objects } }
        ensures counted { IsCounted self.new.settled.rows self.new.objects }
    {
        self.objects.acknowledge_checkpoint(number);
        self.reverse.add_empty(number);
    }

    /// What is known of the object of this number; none where it is absent. The table counts just the sectors
    /// of the objects' map.
    pub fn object(&self, number: u64) -> Option<ObjectRow>
        ensures row { result ≡ row_of number self.now.objects.rows }
        ensures counted { IsCounted self.now.settled.rows self.now.objects }
    {
        self.objects.row(number)
    }

    /// The number of the newest acknowledged checkpoint, 0 for none.
    pub fn checkpoint(&self) -> u64
        ensures { result ≡ self.now.objects.checkpoint }
    {
        self.objects.checkpoint()
    }

    /// Pins an object once more, so that it is not removed. One that is absent changes nothing. It has fewer
    /// than 2^64 - 1 pins (a condition). It takes no memory.
    pub fn pin(&mut self, number: u64)
        requires { IfSome (row_of number self.old.objects.rows) (λ row. row.pins + 1 < 2 ^ 64) }
        ensures pinned { self.new ≡ record self.old {
          objects = with_changed pinned number self.old.objects;
        } }
        ensures counted { IsCounted self.new.settled.rows self.new.objects }
    {
        self.objects.pin(number);
    }

    /// Gives one pin of an object back. One that is absent changes nothing. It has a pin, that of the caller
    /// (a condition). It takes no memory.
    pub fn unpin(&mut self, number: u64)
        requires { IfSome (row_of number self.old.objects.rows) (λ row. 0 < row.pins) }
        ensures unpinned { self.new ≡ record self.old {
          objects = with_changed unpinned number self.old.objects;
        } }
        ensures counted { IsCounted self.new.settled.rows self.new.objects }
    {
        self.objects.unpin(number);
    }

    /// A plan of a copy takes sectors from an object, so that it is not removed, or takes none any longer.
    /// One that is absent changes nothing. It takes no memory.
    pub fn set_copied(&mut self, number: u64, is_copied: bool)
        ensures copied { self.new ≡ record self.old {
          objects = with_changed (copied is_copied) number self.old.objects;
        } }
        ensures counted { IsCounted self.new.settled.rows self.new.objects }
    {
        self.objects.set_copied(number, is_copied);
    }

    /// A hold keeps an object from now on: it is not removed, and no collection takes sectors from it. One
    /// that is absent changes nothing. It takes no memory.
    pub fn hold(&mut self, number: u64)
        ensures held { self.new ≡ record self.old { objects = with_changed held number self.old.objects } }
        ensures counted { IsCounted self.new.settled.rows self.new.objects }
    {
        self.objects.hold(number);
    }

    /// Whether there are objects that a collection may take sectors from. It takes no memory.
    pub fn has_victims(&self) -> bool
        ensures { IsTrue result ↔ (candidates self.now.objects.rows ≡ [] → ⊥) }
    {
        !self.objects.candidates().is_empty()
    }

    /// The rows of the copy that a collection makes: the live sectors of the victims, so many at most, victim
    /// by victim, and by their place in the volume within one, where all places are in the volume and inside
    /// the greatest payload. No rows are where there is no victim. The cost is by candidates, and by the
    /// ranges of the victims that are copied. The one error is out of memory.
    pub fn plan_copy(&self, alloc: Global, most: u64) -> Result<Vec<CopyRow>, AllocError>
        ensures { (volume : ℕ) → PlacesAreIn volume self.now → IfOk result
            (λ rows. PlansCopy volume most self.now rows.items) }
    {
        let victims = victims(alloc, &self.objects)?;
        let planned = plan_victims(alloc, &self.settled, &self.reverse, &victims, most)?;
        copy_rows(alloc, &planned)
    }

    /// The lowest number of an object that may be removed: the newest acknowledged checkpoint has a greater
    /// number and does not map it, it is not pinned, and no plan of a copy takes sectors from it. None is
    /// where there is no such object.
    pub fn removable(&self) -> Option<u64>
        ensures { IsLowestRemovable self.now.objects result }
    {
        self.objects.removable()
    }

    /// The object of this number was removed, in which no sector is (a condition). There is room for one
    /// more. A number that is absent changes nothing. It takes no memory.
    pub fn drop_object(&mut self, number: u64)
        requires { live_sectors number self.old.settled.rows ≡ 0 }
        ensures rows { self.new.objects.rows ≡ without number self.old.objects.rows }
        ensures checkpoint { self.new.objects.checkpoint ≡ self.old.objects.checkpoint }
        ensures counted { IsCounted self.new.settled.rows self.new.objects }
        ensures spare { self.new.objects.spare + length self.new.objects.rows
            ≡ self.old.objects.spare + length self.old.objects.rows }
        ensures settled { self.new.settled ≡ self.old.settled }
        ensures log { self.new.log ≡ self.old.log }
    {
        self.objects.drop_row(number);
        self.reverse.drop_object(number);
    }

    /// The objects' map.
    pub fn settled(&self) -> &ExtentMap<ObjectPlace>
        ensures { result.now ≡ self.now.settled }
    {
        &self.settled
    }

    /// The places of the sectors from `lba` on, as the shortest list of rows in order; a sector without a
    /// place has zeros. Each row is as long as it can be: a row of the log is one write's. The rows and their
    /// places end below 2^63, and so does the range (a condition). The one error is out of memory.
    pub fn look(
        &self,
        alloc: Global,
        lba: u64,
        sectors: u64,
    ) -> Result<Vec<Extent<VolumePlace>>, AllocError>
        requires { lba + sectors < 2 ^ 63 }
        ensures places { IfOk result (λ rows. (k : ℕ) → place_at volume_on rows.items k ≡ place_in_range lba
            sectors (volume_place_at self.now) k) }
        ensures shortest { IfOk result (λ rows. IsShortest volume_on rows.items) }
        ensures fits { IfOk result (λ rows. AllFit volume_number rows.items) }
    {
        look(alloc, &self.settled, &self.log, lba, sectors)
    }
}

// Adds an object with its ranges to a table and to the reverse of a map.
fn add(
    objects: &mut ObjectTable,
    reverse: &mut ReverseMap,
    object: NewObject,
    ranges: Vec<SectorRange>,
)
    requires room { 1 ≤ objects.old.spare }
    requires reverse_room { objects.old.spare ≤ reverse.old.spare }
    requires newest { IsNewest objects.old object.number }
    requires above { IsAbove reverse.old.objects object.number }
    ensures objects { objects.new ≡ added (new_row object.number object.payload object.front) objects.old }
    ensures reverse { reverse.new.objects ≡ reverse.old.objects
        ++ record { number = object.number; ranges = ranges.items } ∷ [] }
    ensures room { objects.new.spare ≤ reverse.new.spare }
{
    objects.add(object.number, object.payload, object.front);
    reverse.add(object.number, ranges);
}

// Adds sectors to the ranges of the object that has them at a place, where it is one of the volume's own.
fn add_sectors(
    reverse: &mut ReverseMap,
    lba: u64,
    sectors: u64,
    place: ObjectPlace,
) -> Result<(), AllocError>
    requires { lba + sectors ≤ 2147483648 }
    ensures added { OnOk result (reverse.new.objects ≡ with_sectors lba sectors place reverse.old.objects) }
    ensures same { OnErr result (reverse.new.objects ≡ reverse.old.objects) }
    ensures spare { reverse.new.spare ≡ reverse.old.spare }
{
    if place.level == 0 {
        reverse.add_range(place.number, range_of(lba, sectors))?;
    }
    Ok(())
}

// Drops from the log's map the sectors of the rows of a data object that entries before the seq `end` left.
fn drop_older(log: &mut ExtentMap<LogPlace>, end: u64, rows: &[DataRow])
    requires room { length rows.now ≤ log.old.spare }
    requires fits { RowsFit rows.now }
    ensures places { (k : ℕ) → place_at log_on log.new.rows k ≡ logged_by end rows.now
        (place_at log_on log.old.rows k) k }
    ensures spare { log.old.spare ≤ log.new.spare + length rows.now }
{
    for row in rows {
        drop_older_in(log, end, row);
    }
}

// Drops those of one row.
fn drop_older_in(log: &mut ExtentMap<LogPlace>, end: u64, row: &DataRow)
    requires room { 1 ≤ log.old.spare }
    requires fits { RowFits row.now }
    ensures places { (k : ℕ) → place_at log_on log.new.rows k ≡ logged_by_row end row.now
        (place_at log_on log.old.rows k) k }
    ensures spare { log.old.spare ≤ log.new.spare + 1 }
{
    log.clear_if(row.lba, row.sectors, |place| place.seq() < end);
}

// The row of an entry in the log's map.
fn row_left_by(entry: &Entry, seq: u64, data_at: u64) -> Extent<LogPlace>
    ensures { result ≡ row_left_by seq data_at entry.now }
{
    match entry {
        Entry::Write { lba, body } => Extent {
            lba: *lba,
            sectors: body.sectors(),
            place: LogPlace::Data {
                seq,
                sector: data_at,
            },
        },
        Entry::Zero { lba, sectors } => Extent {
            lba: *lba,
            sectors: *sectors,
            place: LogPlace::Zeros { seq },
        },
    }
}
