ghost use Rattle.std.specs.Prelude.{◌≡◌, ◌+◌, ◌-◌, ◌<◌, ◌≤◌, ◌^◌, ℕ, ◌++◌, ◌∷◌, [], length, OnOk, OnErr};
ghost use Rattle.std.specs.Prelude.{IsTrue, IsSome, IfSome, IfNone, IfOk, IsOk, ◌↔◌, false, true, option_map};
ghost use Rattle.std.specs.Prelude.{None, Some, ◌/◌};
ghost use Rattle.std.specs.List.{sum_by};
ghost use Rattle.std.specs.VecDeque.{deque_len, deque_capacity};
ghost use Rattle.lsvd_base.specs.Laws.{first_sector, sector_count};
ghost use Rattle.extent_map.specs.Extents.{place_at, place_after_set};
ghost use Rattle.object_table.specs.Table.{row_of, without, new_row, acknowledged, with_changed, pinned};
ghost use Rattle.object_table.specs.Table.{unpinned, held, IsNewest};
ghost use Rattle.gc_copier.specs.Plan.{all_seen, numbers_of};
ghost use Rattle.volume_maps.specs.Places.{log_number, row_left_by, object_on};
ghost use Rattle.volume_maps.specs.Maps.{settled_at};
ghost use Rattle.volume_maps.specs.Live.{MayGain, HasSameObjects};
ghost use Rattle.volume_maps.specs.Covered.{CoverRows, CoverCopyRows};
ghost use Rattle.object_uploads.specs.Checkpoint.{HoldsPlaces};
ghost use Rattle.object_uploads.specs.Order.{PlacesFitIn, ComesLast};
ghost use Rattle.object_uploads.specs.Removal.{IsRemovedNext, with_receipt_of};
ghost use Rattle.object_uploads.specs.Invariant.{IsOpenAt, MapsCanTake, MapsCanCopy, MaySettle, CoverSealed};
ghost use Rattle.object_uploads.specs.Invariant.{count_out, IsKnown};
ghost use Rattle.object_uploads.specs.Invariant.{KeepsAllButObjects, KeepsAllButFound, TakesFromQueue};
ghost use Rattle.object_uploads.specs.State.{QueueState};
ghost use Rattle.object_uploads.specs.Queue.{with_at, just_sealed, with_spare, with_receipt, front_of};
ghost use Rattle.object_uploads.specs.Queue.{copy_front_of, copied_sectors};
ghost use Rattle.object_uploads.specs.Queue.{HasBytesAt, HasRoomForEntry, end_of_last, sealed_at, row_count};
ghost use Rattle.object_uploads.specs.Queue.{HasRoomForObject, HasSamePlaces, IsEntered, IsSettledBy};
ghost use Rattle.object_uploads.specs.Queue.{SettlesObject, SettlesCopy, SettlesCheckpoint, SettlesSealed};
ghost use Rattle.object_uploads.specs.Queue.{IsNextSettled, FirstWaits};
ghost use Rattle.object_uploads.specs.Queue.{stored_at, pins_of, newest_checkpoint, is_checkpoint};
ghost use Rattle.object_uploads.specs.declared.rows.SealedRows.TheVariants.{Data, Checkpoint};
ghost use Rattle.object_uploads.specs.Changes.{HasSameSettled};
ghost use Rattle.object_uploads.specs.Collection.{marked, marked_in};
ghost use Rattle.object_uploads.specs.Image.{TellAlike};

use crate::checkpoint::write_map;
use crate::inherited::Inherited;
use crate::receipts::Receipts;
use crate::rows::SealedRows;
use crate::sealed::Sealed;
use extent_map::{Extent, ExtentMap};
use gc_copier::PlanSource;
use lsvd_base::{Entry, ObjectBytes, SECTOR_BYTES};
use lsvd_objstore::Receipt;
use object_format::{CopyRow, DataRow, Expected, copy_front_sectors, data_front_sectors};
use reverse_map::SectorRange;
use std::alloc::{AllocError, Global};
use std::collections::VecDeque;
use std::marker::Model;
use volume_maps::{NewObject, ObjectPlace, VolumeMaps};

// The objects of a volume in the order of their numbers, with room for all that acknowledging them takes.
#[derive(Drop)]
pub(crate) struct Queue<R: Receipt> {
    frontier: u64,
    end: u64,
    sealed: VecDeque<Sealed<R>>,
    // The changes of the maps that the sealed objects may take, counted here so that a seal need not go over
    // their rows.
    rows: usize,
    receipts: Receipts<R>,
    // The object whose removal is out. There is room for its receipt, which may come back.
    removal: Option<u64>,
    inherited: Inherited<R>,
    maps: VolumeMaps,
}

impl<R: Receipt> Model for Queue<R> {
    ghost use Rattle.std.specs.Prelude.{◌≡◌, ◌+◌, ◌-◌, ◌≤◌, ◌^◌, ◌<◌, min, length};
    ghost use Rattle.std.specs.List.{sum_by};
    ghost use Rattle.std.specs.VecDeque.{deque_capacity};
    ghost use Rattle.object_uploads.specs.State.{QueueState};
    ghost use Rattle.object_uploads.specs.Queue.{row_count, HasRoomForRows};
    ghost use Rattle.object_uploads.specs.Receipts.{AreSealedStates};
    ghost use Rattle.object_uploads.specs.Invariant.{AllMaySettle, count_out, IsKnown};

    ghost Value = { QueueState };

    ghost view = { λ q. record {
      frontier = q.frontier;
      end = q.end;
      sealed = q.sealed.items;
      receipts = q.receipts.list;
      removal = q.removal;
      inherited = q.inherited;
      maps = q.maps;
      places = min
          (min (deque_capacity q.sealed - length q.sealed.items)
          (q.receipts.spare - (length q.sealed.items + count_out q.removal)))
          (q.maps.objects.spare - length q.sealed.items);
    } };

    ghost invariant = { λ q.
        HasRoomForRows q.sealed.items q.maps
        × (q.rows ≡ sum_by row_count q.sealed.items)
        × IsKnown (record {
          frontier = q.frontier;
          end = q.end;
          sealed = q.sealed.items;
          receipts = q.receipts.list;
          removal = q.removal;
          inherited = q.inherited;
          maps = q.maps;
          places = 0;
        })
        × AllMaySettle q.sealed.items
        × (length q.sealed.items + count_out q.removal ≤ q.receipts.spare)
        × (length q.sealed.items ≤ q.maps.objects.spare)
        × (q.frontier + length q.sealed.items < 2 ^ 64)
        × AreSealedStates R.state q.sealed.items };
}

impl<R: Receipt> Queue<R> {
    // No object is past that of this number and this end.
    pub(crate) fn new(alloc: Global, number: u64, end: u64) -> Queue<R>
        ensures frontier { result.frontier ≡ number }
        ensures end { result.end ≡ end }
        ensures sealed { result.sealed ≡ [] }
        ensures receipts { result.receipts ≡ [] }
        ensures removal { result.removal ≡ None }
        ensures inherited { result.inherited ≡ [] }
        ensures settled { result.maps.settled.rows ≡ [] }
        ensures log { result.maps.log.rows ≡ [] }
        ensures objects { result.maps.objects.rows ≡ [] }
        ensures checkpoint { result.maps.objects.checkpoint ≡ 0 }
    {
        Queue {
            frontier: number,
            end,
            sealed: VecDeque::new(alloc),
            rows: 0,
            receipts: Receipts::new(alloc),
            removal: None,
            inherited: Inherited::new(alloc),
            maps: VolumeMaps::new(alloc),
        }
    }

    // Whether receipts tell their bytes is the same of all, as a fact for proofs; and all do where each
    // receipt of their kind does. Nothing is done.
    pub(crate) fn tell_alike(&self)
        ensures alike { TellAlike R.tells self.now }
        ensures told { ((receipt : R) → IsSome (R.state receipt).told) → TellAlike true self.now }
    {
        self.receipts.tell_alike();
        self.inherited.tell_alike();
    }

    // Appends a sealed object, with all the room that it needs later. The ranges have all sectors that its
    // rows put. The one error is out of memory, which comes only where that room is missing.
    pub(crate) fn push(
        &mut self,
        object: ObjectBytes,
        spare: ObjectBytes,
        rows: SealedRows,
        ranges: Vec<SectorRange>,
        end: u64,
    ) -> Result<(), AllocError>
        requires spare { spare ≡ object }
        requires covered { CoverSealed ranges.items rows }
        requires fit { MaySettle rows }
        requires numbers { self.old.frontier + length self.old.sealed + 1 < 2 ^ 64 }
        ensures sealed { OnOk result (self.new.sealed ≡ self.old.sealed ++ just_sealed object rows
            end ∷ []) }
        ensures succeeds { HasRoomForObject rows self.old → IsOk result }
        ensures same { OnErr result (self.new.sealed ≡ self.old.sealed) }
        ensures frontier { self.new.frontier ≡ self.old.frontier }
        ensures end { self.new.end ≡ self.old.end }
        ensures receipts { self.new.receipts ≡ self.old.receipts }
        ensures removal { self.new.removal ≡ self.old.removal }
        ensures inherited { self.new.inherited ≡ self.old.inherited }
        ensures places { HasSamePlaces self.old.maps self.new.maps }
        ensures log_kept { self.old.maps.log.spare ≤ self.new.maps.log.spare }
    {
        // The room of a map is a `usize`; so changes that there is room for are not too many to be counted.
        let _spare = self.maps.log_spare();
        let Some(all) = self.rows.checked_add(rows.count()) else {
            return Err(AllocError);
        };
        let receipts = self.receipts_to_come();
        make_room(
            &mut self.sealed,
            &mut self.receipts,
            &mut self.maps,
            receipts,
            all,
        )?;
        self.rows = all;
        self.sealed
            .push_back_reserved(Sealed::new(object, spare, rows, ranges, end));
        Ok(())
    }

    // Whether the first object past the frontier is acknowledged.
    fn first_is_acknowledged(&self) -> bool
        ensures waits { result ≡ false → FirstWaits self.now.sealed }
        ensures some { IsTrue result → (FirstWaits self.now.sealed → ⊥) }
    {
        match self.sealed.front() {
            Some(first) => first.is_acknowledged(),
            None => false,
        }
    }

    // Settles the first object past the frontier, which is acknowledged.
    fn settle_first(&mut self)
        requires { FirstWaits self.old.sealed → ⊥ }
        ensures { IsSettledBy 1 self.old self.new }
    {
        let sealed = self.sealed.pop_front().unwrap();
        let size = sealed.size();
        let (rows, ranges, end, receipt) = sealed.into_parts();
        self.rows -= rows.count();
        self.settle_sealed(size, &rows, ranges, end, receipt.unwrap());
    }

    // Settles an object of so many bytes that comes after the frontier and before all that are past it. There
    // is room for one object more with its rows, and they fit. The ranges have all sectors that they put.
    fn settle_sealed(
        &mut self,
        size: u64,
        rows: &SealedRows,
        ranges: Vec<SectorRange>,
        end: u64,
        receipt: R,
    )
        requires covered { CoverSealed ranges.items rows.now }
        requires room { HasRoomForObject rows.now self.old }
        requires fit { MaySettle rows.now }
        requires numbers { self.old.frontier + length self.old.sealed + 1 < 2 ^ 64 }
        ensures frontier { self.new.frontier ≡ self.old.frontier + 1 }
        ensures end { self.new.end ≡ end }
        ensures sealed { self.new.sealed ≡ self.old.sealed }
        ensures receipts { self.new.receipts ≡ self.old.receipts
            ++ record { number = self.old.frontier + 1; receipt = R.state receipt } ∷ [] }
        ensures removal { self.new.removal ≡ self.old.removal }
        ensures inherited { self.new.inherited ≡ self.old.inherited }
        ensures maps { SettlesSealed (self.old.frontier + 1) size rows.now end self.old.maps self.new.maps }
    {
        match rows {
            SealedRows::Data(rows) => self.settle_object(size, rows, ranges, end, receipt),
            SealedRows::Copy(rows) => self.settle_copy(size, rows, ranges, end, receipt),
            SealedRows::Checkpoint => self.settle_checkpoint(end, receipt),
        }
    }

    // Settles the checkpoint after the frontier and before all objects that are past it. There is room for
    // one object more.
    fn settle_checkpoint(&mut self, end: u64, receipt: R)
        requires room { HasRoomForObject Checkpoint self.old }
        requires numbers { self.old.frontier + length self.old.sealed + 1 < 2 ^ 64 }
        ensures frontier { self.new.frontier ≡ self.old.frontier + 1 }
        ensures end { self.new.end ≡ end }
        ensures sealed { self.new.sealed ≡ self.old.sealed }
        ensures receipts { self.new.receipts ≡ self.old.receipts
            ++ record { number = self.old.frontier + 1; receipt = R.state receipt } ∷ [] }
        ensures removal { self.new.removal ≡ self.old.removal }
        ensures inherited { self.new.inherited ≡ self.old.inherited }
        ensures maps { SettlesCheckpoint (self.old.frontier + 1) self.old.maps self.new.maps }
    {
        self.frontier += 1;
        self.end = end;
        self.maps.acknowledge_checkpoint(self.frontier);
        self.receipts.push(self.frontier, receipt);
    }

    // The checkpoint under the expected number, with this end, of the objects' map as it is once all objects
    // past the frontier are settled. The one error is out of memory: where rows are to be settled before it,
    // the map is copied.
    pub(crate) fn checkpoint(
        &self,
        alloc: Global,
        expected: &Expected,
        end: u64,
    ) -> Result<ObjectBytes, AllocError>
        requires ends { expected.now.end_before ≡ Some end }
        requires number { 0 < expected.now.number }
        requires limit { expected.now.number < 2 ^ 64 }
        requires sectors { expected.now.sectors ≤ 2147483648 }
        requires fit { PlacesFitIn expected.now.sectors expected.now.ancestors (expected.now.number - 1)
            (sealed_at self.now) }
        ensures { IfOk result (λ bytes. HoldsPlaces bytes expected.now end (sealed_at self.now)) }
    {
        if self.rows == 0 {
            return write_map(alloc, expected, end, self.maps.settled());
        }
        let map = self.sealed_map(alloc)?;
        write_map(alloc, expected, end, &map)
    }

    // A copy of the objects' map in which all objects past the frontier are settled.
    fn sealed_map(&self, alloc: Global) -> Result<ExtentMap<ObjectPlace>, AllocError>
        ensures { IfOk result (λ map. (k : ℕ) → place_at object_on map.rows k ≡ sealed_at self.now k) }
    {
        let mut map = self.maps.settled().copy(alloc, self.rows)?;
        for index in 0..self.sealed.len() {
            self.sealed[index].settle_in(&mut map, self.frontier + index as u64 + 1);
        }
        Ok(map)
    }

    // The end of the last object.
    pub(crate) fn end_of_last(&self) -> u64
        ensures { result ≡ end_of_last self.now.end self.now.sealed }
    {
        match self.sealed.back() {
            Some(sealed) => sealed.end(),
            None => self.end,
        }
    }

    // The newest checkpoint that was sealed: one past the frontier, or else the newest acknowledged one.
    pub(crate) fn newest_checkpoint(&self) -> u64
        ensures { result ≡ newest_checkpoint self.now }
    {
        let mut newest = self.maps.checkpoint();
        for index in 0..self.sealed.len() {
            newest = self.sealed[index].newest_checkpoint(newest, self.frontier + index as u64 + 1);
        }
        newest
    }

    // The object whose removal is out.
    pub(crate) fn removal(&self) -> Option<u64>
        ensures { result ≡ self.now.removal }
    {
        self.removal
    }

    // Begins the removal of the object that is removed next, and takes its receipt. None is where a removal
    // is out, and where no object may be removed.
    pub(crate) fn take_remove(&mut self) -> Option<(u64, R)>
        ensures next { IsRemovedNext self.old.removal self.old.maps.objects
            (option_map (λ taken. taken.0) result) }
        ensures taken { IfSome result (λ taken. TakesFromQueue taken.0 (R.state taken.1) self.old self.new) }
        ensures same { IfNone result (self.new ≡ self.old) }
        ensures known { IfSome result (λ taken. IsKnown self.new) }
    {
        if self.removal.is_some() {
            return None;
        }
        let number = self.maps.removable()?;
        let receipt = self.receipts.take(number).unwrap();
        self.removal = Some(number);
        Some((number, receipt))
    }

    // The removal that is out, that of the object of this number, is done.
    pub(crate) fn remove_done(&mut self, number: u64)
        requires { self.old.removal ≡ Some number }
        ensures rest { KeepsAllButObjects self.old self.new }
        ensures receipts { self.new.receipts ≡ self.old.receipts }
        ensures removal { self.new.removal ≡ None }
        ensures rows { self.new.maps.objects.rows ≡ without number self.old.maps.objects.rows }
        ensures checkpoint { self.new.maps.objects.checkpoint ≡ self.old.maps.objects.checkpoint }
        ensures known { IsKnown self.new }
    {
        self.removal = None;
        self.maps.drop_object(number);
    }

    // It failed, and its receipt comes back.
    pub(crate) fn remove_failed(&mut self, number: u64, receipt: R)
        requires { self.old.removal ≡ Some number }
        ensures rest { KeepsAllButObjects self.old self.new }
        ensures receipts { self.new.receipts ≡ with_receipt_of number (R.state receipt) self.old.receipts }
        ensures removal { self.new.removal ≡ None }
        ensures objects { self.new.maps.objects ≡ self.old.maps.objects }
        ensures known { IsKnown self.new }
    {
        self.removal = None;
        self.receipts.give_back(number, receipt);
    }

    // Pins an object once more; one that is not known changes nothing. It has fewer than 2^64 - 1 pins.
    pub(crate) fn pin(&mut self, number: u64)
        requires { IfSome (row_of number self.old.maps.objects.rows) (λ row. row.pins + 1 < 2 ^ 64) }
        ensures rest { KeepsAllButObjects self.old self.new }
        ensures receipts { self.new.receipts ≡ self.old.receipts }
        ensures removal { self.new.removal ≡ self.old.removal }
        ensures objects { self.new.maps.objects ≡ with_changed pinned number self.old.maps.objects }
        ensures known { IsKnown self.new }
    {
        self.maps.pin(number);
    }

    // Gives one pin of an object back; one that is not known changes nothing. It has a pin.
    pub(crate) fn unpin(&mut self, number: u64)
        requires { IfSome (row_of number self.old.maps.objects.rows) (λ row. 0 < row.pins) }
        ensures rest { KeepsAllButObjects self.old self.new }
        ensures receipts { self.new.receipts ≡ self.old.receipts }
        ensures removal { self.new.removal ≡ self.old.removal }
        ensures objects { self.new.maps.objects ≡ with_changed unpinned number self.old.maps.objects }
        ensures known { IsKnown self.new }
    {
        self.maps.unpin(number);
    }

    // A hold keeps an object from now on; one that is not known changes nothing.
    pub(crate) fn hold(&mut self, number: u64)
        ensures rest { KeepsAllButObjects self.old self.new }
        ensures receipts { self.new.receipts ≡ self.old.receipts }
        ensures removal { self.new.removal ≡ self.old.removal }
        ensures objects { self.new.maps.objects ≡ with_changed held number self.old.maps.objects }
        ensures known { IsKnown self.new }
    {
        self.maps.hold(number);
    }

    // A plan of a copy takes sectors from these, or takes none any longer. One that is not known changes
    // nothing.
    pub(crate) fn mark(&mut self, sources: &[PlanSource<R>], is_copied: bool)
        ensures { self.new ≡ marked_in is_copied (numbers_of (all_seen R.state sources.now)) self.old }
    {
        for source in sources {
            self.mark_one(source.number, is_copied);
        }
    }

    // A plan of a copy takes sectors from the object of a number, or takes none any longer.
    fn mark_one(&mut self, number: u64, is_copied: bool)
        ensures { self.new ≡ marked is_copied number self.old }
    {
        self.maps.set_copied(number, is_copied);
    }

    // How many pins are on an object, none on one that is not known.
    pub(crate) fn pins(&self, number: u64) -> u64
        ensures { result ≡ pins_of (row_of number self.now.maps.objects.rows) }
    {
        match self.maps.object(number) {
            Some(object) => object.pins,
            None => 0,
        }
    }

    // Adds an object that was found in the store, with a greater number than those before it, up to the
    // frontier. No object is past that, and no removal is out.
    pub(crate) fn add_found(
        &mut self,
        number: u64,
        payload: u64,
        front: u64,
        receipt: R,
    ) -> Result<(), AllocError>
        requires newest { IsNewest self.old.maps.objects number }
        requires within { number ≤ self.old.frontier }
        requires none { self.old.sealed ≡ [] }
        requires no_removal { self.old.removal ≡ None }
        ensures rest { KeepsAllButFound self.old self.new }
        ensures receipts { OnOk result (self.new.receipts ≡ self.old.receipts
            ++ record { number = number; receipt = R.state receipt } ∷ []) }
        ensures settled { self.new.maps.settled.rows ≡ self.old.maps.settled.rows }
        ensures rows { OnOk result (self.new.maps.objects.rows ≡ self.old.maps.objects.rows
            ++ new_row number payload front ∷ []) }
        ensures checkpoint { self.new.maps.objects.checkpoint ≡ self.old.maps.objects.checkpoint }
        ensures same { OnErr result (self.new.receipts ≡ self.old.receipts) }
        ensures same_rows { OnErr result (self.new.maps.objects.rows ≡ self.old.maps.objects.rows) }
        ensures known { OnOk result (IsKnown self.new) }
    {
        self.receipts.reserve(1)?;
        self.maps.reserve(0, 0, 1)?;
        self.maps.add_object(NewObject {
            number,
            payload,
            front,
        });
        self.receipts.push(number, receipt);
        Ok(())
    }

    // Adds an object of an ancestor that was found in the store, which comes after those before it. The one
    // error is out of memory; then nothing changes.
    pub(crate) fn add_inherited(
        &mut self,
        level: u32,
        number: u64,
        front: u64,
        receipt: R,
    ) -> Result<(), AllocError>
        requires { ComesLast level number self.old.inherited }
        ensures added { OnOk result (self.new ≡ record self.old {
          inherited = self.old.inherited
              ++ record { level = level; number = number; receipt = R.state receipt; front = front } ∷ [];
        }) }
        ensures same { OnErr result (self.new ≡ self.old) }
    {
        self.inherited.push(level, number, front, receipt)
    }

    // Enters a row of the checkpoint at the frontier into the objects' map. No object is past the frontier,
    // and no removal is out.
    pub(crate) fn map_found(&mut self, row: &Extent<ObjectPlace>) -> Result<(), AllocError>
        requires range { row.now.lba + row.now.sectors ≤ 2147483648 }
        requires places { row.now.place.sector + row.now.sectors < 2 ^ 32 }
        requires known { row.now.place.level ≡ 0 → MayGain row.now.place.number self.old.maps.objects }
        requires none { self.old.sealed ≡ [] }
        requires no_removal { self.old.removal ≡ None }
        ensures rest { KeepsAllButFound self.old self.new }
        ensures receipts { self.new.receipts ≡ self.old.receipts }
        ensures settled { OnOk result ((k : ℕ) → settled_at self.new.maps k
            ≡ place_after_set object_on row.now.lba row.now.sectors row.now.place (settled_at self.old.maps)
            k) }
        ensures objects { HasSameObjects self.old.maps.objects self.new.maps.objects }
        ensures same { OnErr result (self.new.maps.settled.rows ≡ self.old.maps.settled.rows) }
        ensures same_rows { OnErr result (self.new.maps.objects.rows ≡ self.old.maps.objects.rows) }
        ensures known { OnOk result (IsKnown self.new) }
    {
        self.maps.reserve(1, 0, 0)?;
        self.maps.map_sectors(row.lba, row.sectors, row.place)?;
        Ok(())
    }

    // Counts the checkpoint at the frontier itself. No object is past it, and no removal is out.
    pub(crate) fn begin(&mut self, receipt: R) -> Result<(), AllocError>
        requires newest { IsNewest self.old.maps.objects self.old.frontier }
        requires none { self.old.sealed ≡ [] }
        requires no_removal { self.old.removal ≡ None }
        ensures rest { KeepsAllButFound self.old self.new }
        ensures receipts { OnOk result (self.new.receipts ≡ self.old.receipts
            ++ record { number = self.old.frontier; receipt = R.state receipt } ∷ []) }
        ensures settled { self.new.maps.settled.rows ≡ self.old.maps.settled.rows }
        ensures rows { OnOk result (self.new.maps.objects.rows
            ≡ (acknowledged self.old.frontier self.old.maps.objects).rows) }
        ensures checkpoint { OnOk result (self.new.maps.objects.checkpoint ≡ self.old.frontier) }
        ensures same { OnErr result (self.new.receipts ≡ self.old.receipts) }
        ensures same_objects { OnErr result (HasSamePlaces self.old.maps self.new.maps) }
        ensures known { OnOk result (IsKnown self.new) }
    {
        self.receipts.reserve(1)?;
        self.maps.reserve(0, 0, 1)?;
        self.maps.acknowledge_checkpoint(self.frontier);
        self.receipts.push(self.frontier, receipt);
        Ok(())
    }

    // Settles a data object of so many bytes there, as `settle_sealed` does.
    fn settle_object(
        &mut self,
        size: u64,
        rows: &[DataRow],
        ranges: Vec<SectorRange>,
        end: u64,
        receipt: R,
    )
        requires covered { CoverRows ranges.items rows.now }
        requires place { 1 ≤ self.old.places }
        requires settled { sum_by row_count self.old.sealed + length rows.now ≤ self.old.maps.settled.spare }
        requires log { sum_by row_count self.old.sealed + length rows.now ≤ self.old.maps.log.spare }
        requires fit { MapsCanTake rows.now }
        requires numbers { self.old.frontier + length self.old.sealed + 1 < 2 ^ 64 }
        ensures frontier { self.new.frontier ≡ self.old.frontier + 1 }
        ensures end { self.new.end ≡ end }
        ensures sealed { self.new.sealed ≡ self.old.sealed }
        ensures receipts { self.new.receipts ≡ self.old.receipts
            ++ record { number = self.old.frontier + 1; receipt = R.state receipt } ∷ [] }
        ensures removal { self.new.removal ≡ self.old.removal }
        ensures inherited { self.new.inherited ≡ self.old.inherited }
        ensures maps { SettlesObject (self.old.frontier + 1) size rows.now end self.old.maps self.new.maps }
    {
        let front = front_of(rows);
        self.frontier += 1;
        self.end = end;
        let object = NewObject {
            number: self.frontier,
            payload: payload_of(size, front),
            front,
        };
        self.maps.settle(object, end, rows, ranges);
        self.receipts.push(self.frontier, receipt);
    }

    // Settles a copy of so many bytes there, as `settle_sealed` does.
    fn settle_copy(
        &mut self,
        size: u64,
        rows: &[CopyRow],
        ranges: Vec<SectorRange>,
        end: u64,
        receipt: R,
    )
        requires covered { CoverCopyRows ranges.items rows.now }
        requires place { 1 ≤ self.old.places }
        requires settled { sum_by row_count self.old.sealed + copied_sectors rows.now
            ≤ self.old.maps.settled.spare }
        requires fit { MapsCanCopy rows.now }
        requires numbers { self.old.frontier + length self.old.sealed + 1 < 2 ^ 64 }
        ensures frontier { self.new.frontier ≡ self.old.frontier + 1 }
        ensures end { self.new.end ≡ end }
        ensures sealed { self.new.sealed ≡ self.old.sealed }
        ensures receipts { self.new.receipts ≡ self.old.receipts
            ++ record { number = self.old.frontier + 1; receipt = R.state receipt } ∷ [] }
        ensures removal { self.new.removal ≡ self.old.removal }
        ensures inherited { self.new.inherited ≡ self.old.inherited }
        ensures maps { SettlesCopy (self.old.frontier + 1) size rows.now self.old.maps self.new.maps }
    {
        let front = copy_front_of(rows);
        self.frontier += 1;
        self.end = end;
        let object = NewObject {
            number: self.frontier,
            payload: payload_of(size, front),
            front,
        };
        self.maps.settle_copy(object, rows, ranges);
        self.receipts.push(self.frontier, receipt);
    }

    // Settles the next number's object, where none is past the frontier. The ranges have all sectors that its
    // rows put. The one error is out of memory, which comes only where room for it is missing; then only room
    // changed.
    pub(crate) fn adopt(
        &mut self,
        rows: SealedRows,
        ranges: Vec<SectorRange>,
        end: u64,
        receipt: R,
    ) -> Result<(), AllocError>
        requires covered { CoverSealed ranges.items rows }
        requires none { self.old.sealed ≡ [] }
        requires numbers { self.old.frontier + 1 < 2 ^ 64 }
        requires no_checkpoint { is_checkpoint rows ≡ false }
        requires fit { MaySettle rows }
        ensures settled { OnOk result (IsNextSettled rows end (R.state receipt) self.old self.new) }
        ensures succeeds { HasRoomForObject rows self.old → IsOk result }
        ensures sealed { OnErr result (self.new.sealed ≡ self.old.sealed) }
        ensures same { OnErr result (HasSameSettled self.old self.new) }
    {
        let receipts = self.receipts_to_come();
        make_room(
            &mut self.sealed,
            &mut self.receipts,
            &mut self.maps,
            receipts,
            rows.count(),
        )?;
        let size = receipt.len();
        self.settle_sealed(size, &rows, ranges, end, receipt);
        Ok(())
    }

    // How many receipts may yet come, with that of one object more: those of the objects past the frontier,
    // and that of the object whose removal is out.
    fn receipts_to_come(&self) -> usize
        requires { length self.now.sealed + 1 < 2 ^ 63 }
        ensures { result ≡ length self.now.sealed + count_out self.now.removal + 1 }
    {
        self.sealed.len() + self.removal.is_some() as usize + 1
    }

    // Settles the objects past the frontier in the order of their numbers, up to the first that is not
    // acknowledged.
    pub(crate) fn settle(&mut self)
        ensures settled { (count : ℕ) × IsSettledBy count self.old self.new }
        ensures waits { FirstWaits self.new.sealed }
    {
        while self.first_is_acknowledged() {
            self.settle_first();
        }
    }

    // The store gave this for the object at an index past the frontier.
    pub(crate) fn acknowledge(&mut self, index: usize, receipt: R)
        requires { index < length self.old.sealed }
        ensures { self.new ≡ record self.old {
          sealed = with_at index (with_receipt (R.state receipt))
              self.old.sealed;
        } }
    {
        self.sealed.get_mut(index).unwrap().acknowledge(receipt);
    }

    // Takes the second bytes of the object at an index past the frontier, which is open and has them.
    pub(crate) fn take_spare(&mut self, index: usize) -> ObjectBytes
        requires { IsOpenAt index self.old.sealed true }
        ensures bytes { HasBytesAt index self.old.sealed result }
        ensures taken { self.new ≡ record self.old {
          sealed = with_at index (with_spare false)
              self.old.sealed;
        } }
    {
        self.sealed.get_mut(index).unwrap().take_spare().unwrap()
    }

    // Gives the second bytes of the object at an index past the frontier back.
    pub(crate) fn give_spare(&mut self, index: usize, bytes: ObjectBytes)
        requires inside { index < length self.old.sealed }
        requires bytes { HasBytesAt index self.old.sealed bytes }
        ensures { self.new ≡ record self.old { sealed = with_at index (with_spare true) self.old.sealed } }
    {
        self.sealed.get_mut(index).unwrap().give_spare(bytes);
    }

    // Whether these are the bytes of the object at an index past the frontier. False is for an index past the
    // last.
    pub(crate) fn has_bytes(&self, index: usize, bytes: &ObjectBytes) -> bool
        ensures { IsTrue result ↔ HasBytesAt index self.now.sealed bytes.now }
    {
        match self.sealed.get(index) {
            Some(sealed) => sealed.has_bytes(bytes),
            None => false,
        }
    }

    // Makes room for a change of the log's map, beside that for the objects' rows. The one error is out of
    // memory, which comes only where that room is missing.
    pub(crate) fn reserve_entry(&mut self) -> Result<(), AllocError>
        ensures room { OnOk result (HasRoomForEntry self.new) }
        ensures succeeds { HasRoomForEntry self.old → IsOk result }
        ensures sealed { self.new.sealed ≡ self.old.sealed }
        ensures frontier { self.new.frontier ≡ self.old.frontier }
        ensures end { self.new.end ≡ self.old.end }
        ensures receipts { self.new.receipts ≡ self.old.receipts }
        ensures removal { self.new.removal ≡ self.old.removal }
        ensures inherited { self.new.inherited ≡ self.old.inherited }
        ensures places { HasSamePlaces self.old.maps self.new.maps }
        ensures log_kept { self.old.maps.log.spare ≤ self.new.maps.log.spare }
    {
        if self.rows < self.maps.log_spare() {
            return Ok(());
        }
        let Some(changes) = self.rows.checked_add(1) else {
            return Err(AllocError);
        };
        self.maps.reserve(0, changes, 0)
    }

    // Enters an entry with this seq, whose data begin at a sector of the log.
    pub(crate) fn enter(&mut self, entry: &Entry, seq: u64, data_at: u64)
        requires room { HasRoomForEntry self.old }
        requires range { first_sector entry.now + sector_count entry.now < 2 ^ 63 }
        requires places { log_number (row_left_by seq data_at entry.now).place + sector_count
            entry.now < 2 ^ 63 }
        ensures { IsEntered entry.now seq data_at self.old self.new }
    {
        self.maps.enter(entry, seq, data_at);
    }

    // What the store gave for the object that a place is in, where it is in the store.
    pub(crate) fn receipt(&self, place: &ObjectPlace) -> Option<&R>
        ensures { option_map (λ receipt. R.state receipt.now) result ≡ option_map (λ object. object.receipt)
            (stored_at self.now place.now) }
    {
        if place.level != 0 {
            return self.inherited.receipt(place.level, place.number);
        }
        self.receipts.get(place.number)
    }

    // How many sectors that object has before its payload, where it is in the store.
    pub(crate) fn front(&self, place: &ObjectPlace) -> u64
        ensures { IfSome (stored_at self.now place.now) (λ object. result ≡ object.front) }
    {
        if place.level != 0 {
            return self.inherited.front(place.level, place.number);
        }
        match self.maps.object(place.number) {
            Some(object) => object.front,
            None => 0,
        }
    }

    // The maps.
    pub(crate) fn maps(&self) -> &VolumeMaps
        ensures { result.now ≡ self.now.maps }
    {
        &self.maps
    }

    // The frontier.
    pub(crate) fn frontier(&self) -> u64
        ensures is { result ≡ self.now.frontier }
        ensures known { IsKnown self.now }
    {
        self.frontier
    }

    // Its end.
    pub(crate) fn end(&self) -> u64
        ensures { result ≡ self.now.end }
    {
        self.end
    }
}

// Makes room for one more object, where so many receipts may come and all objects may take so many changes of
// the maps then. The one error is out of memory, which comes only where that room is missing.
fn make_room<R: Receipt>(
    sealed: &mut VecDeque<Sealed<R>>,
    receipts: &mut Receipts<R>,
    maps: &mut VolumeMaps,
    receipts_to_come: usize,
    rows: usize,
) -> Result<(), AllocError>
    requires { length sealed.old.items + 1 < 2 ^ 64 }
    ensures place { OnOk result (deque_len sealed.new < deque_capacity sealed.new) }
    ensures receipt_room { OnOk result (receipts_to_come ≤ receipts.new.spare) }
    ensures object_room { OnOk result (length sealed.old.items + 1 ≤ maps.new.objects.spare) }
    ensures settled_room { OnOk result (rows ≤ maps.new.settled.spare) }
    ensures log_room { OnOk result (rows ≤ maps.new.log.spare) }
    ensures succeeds { length sealed.old.items < deque_capacity sealed.old
        → receipts_to_come ≤ receipts.old.spare
        → length sealed.old.items + 1 ≤ maps.old.objects.spare
        → rows ≤ maps.old.settled.spare → rows ≤ maps.old.log.spare → IsOk result }
    ensures sealed { sealed.new.items ≡ sealed.old.items }
    ensures receipts { receipts.new.list ≡ receipts.old.list }
    ensures receipts_kept { receipts.old.spare ≤ receipts.new.spare }
    ensures places { HasSamePlaces maps.old maps.new }
    ensures settled_kept { maps.old.settled.spare ≤ maps.new.settled.spare }
    ensures log_kept { maps.old.log.spare ≤ maps.new.log.spare }
    ensures object_kept { maps.old.objects.spare ≤ maps.new.objects.spare }
{
    sealed.reserve(1)?;
    receipts.reserve(receipts_to_come)?;
    maps.reserve(rows, rows, sealed.len() + 1)
}

// The sectors of a data object with these rows before its payload.
fn front_of(rows: &[DataRow]) -> u64
    requires { length rows.now ≤ 65536 }
    ensures { result ≡ front_of rows.now }
{
    data_front_sectors(rows.len() as u64)
}

// Those of a copy with these rows.
fn copy_front_of(rows: &[CopyRow]) -> u64
    requires { length rows.now ≤ 65536 }
    ensures { result ≡ copy_front_of rows.now }
{
    copy_front_sectors(rows.len() as u64)
}

// The sectors of payload of an object of so many bytes that has so many sectors before it.
fn payload_of(size: u64, front: u64) -> u64
    ensures { result ≡ size / 512 - front }
{
    (size / SECTOR_BYTES).saturating_sub(front)
}
