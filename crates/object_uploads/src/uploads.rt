ghost use Rattle.std.specs.Prelude.{◌≡◌, ◌+◌, ◌-◌, ◌<◌, ◌≤◌, ◌^◌, ℕ, ◌↔◌, [], length, option_map};
ghost use Rattle.std.specs.Prelude.{IsTrue, IsOk, IsErr, IfOk, IfErr, IfSome};
ghost use Rattle.std.specs.Prelude.{IfNone, OnOk, OnErr, true, IsSome};
ghost use Rattle.std.specs.Prelude.{false, Some, None};
ghost use Rattle.lsvd_base.specs.Laws.{first_sector, sector_count};
ghost use Rattle.lsvd_names.specs.Names.{numbered_name};
ghost use Rattle.extent_map.specs.Extents.{place_at, place_in_range, IsShortest, AllFit};
ghost use Rattle.gc_copier.specs.Plan.{numbers_of};
ghost use Rattle.object_table.specs.Table.{row_of, pinned, unpinned, held, candidates, IsNewest};
ghost use Rattle.upload_window.specs.Window.{lowest_ready, IsFrontier};
ghost use Rattle.volume_maps.specs.Places.{volume_on, volume_number, log_number, row_left_by};
ghost use Rattle.volume_maps.specs.Maps.{volume_place_at};
ghost use Rattle.volume_maps.specs.Live.{MayGain};
ghost use Rattle.volume_maps.specs.Covered.{CoverRows, CoverCopyRows};
ghost use Rattle.object_uploads.specs.declared.rows.SealedRows.TheVariants.{Data, Copy};
ghost use Rattle.object_uploads.specs.Queue.{FitObject, FitCopy, FitSealed, HasRoomForEntry};
ghost use Rattle.object_uploads.specs.Queue.{HasRoomForObject, IsEntered, is_checkpoint, end_of_last};
ghost use Rattle.object_uploads.specs.Queue.{stored_at, pins_of, newest_checkpoint};
ghost use Rattle.object_uploads.specs.Order.{IsUploads, ComesLast};
ghost use Rattle.object_uploads.specs.Invariant.{IsOpenAt, CoverSealed};
ghost use Rattle.object_uploads.specs.Changes.{index_of, IsSealedNext, IsNotSealed, with_job, IsJobOf, IsOut};
ghost use Rattle.object_uploads.specs.Changes.{IsPutDone, IsAdopted};
ghost use Rattle.object_uploads.specs.Checkpoint.{expected_next, HasSealedCheckpoint};
ghost use Rattle.object_uploads.specs.Removal.{IsRemovedNext, TakesRemoval, FinishesRemoval};
ghost use Rattle.object_uploads.specs.Removal.{TakesBackRemoval, HasChangedRow};
ghost use Rattle.object_uploads.specs.Opening.{HasFound, HasMapped, HasBegun, with_inherited};
ghost use Rattle.object_uploads.specs.Collection.{ArePlacesInside, HasPlanned, with_copied_all};
ghost use Rattle.object_uploads.specs.Image.{TellAlike};

use crate::collection::sources_of;
use crate::job::Job;
use crate::queue::Queue;
use crate::rows::SealedRows;
use extent_map::Extent;
use gc_copier::GcPlan;
use lsvd_base::{Entry, ObjectBytes};
use lsvd_names::ObjName;
use lsvd_objstore::Receipt;
use object_format::{CopyRow, DataRow, Expected};
use reverse_map::SectorRange;
use std::alloc::{AllocError, Global};
use std::marker::Model;
use upload_window::Window;
use uuid::Uuid;
use volume_maps::{ObjectPlace, VolumePlace, copied_ranges, put_ranges};

/// The objects of a volume on their way to the store, and the maps of what the log and the objects have.
///
/// Contracts see the objects past the frontier, with which of them are open, what the store gave for those up
/// to it, and the maps.
#[derive(Drop)]
pub struct Uploads<R: Receipt> {
    uuid: Uuid,
    sectors: u64,
    ancestors: u32,
    queue: Queue<R>,
    window: Window,
}

impl<R: Receipt> Model for Uploads<R> {
    ghost use Rattle.object_uploads.specs.State.{UploadsState};
    ghost use Rattle.object_uploads.specs.Order.{IsUploads};

    ghost Value = { UploadsState };

    ghost view = { λ u. record {
      uuid = u.uuid;
      sectors = u.sectors;
      ancestors = u.ancestors;
      queue = u.queue;
      window = u.window;
    } };

    ghost invariant = { λ u. IsUploads (record {
      uuid = u.uuid;
      sectors = u.sectors;
      ancestors = u.ancestors;
      queue = u.queue;
      window = u.window;
    }) };
}

impl<R: Receipt> Uploads<R> {
    /// The volume with this uuid, this many sectors, 2^31 at most, and this many ancestors, 15 at most
    /// (conditions), whose objects up to this number are acknowledged, and have the entries up to this end.
    /// It takes no memory.
    pub fn new(
        alloc: Global,
        uuid: Uuid,
        sectors: u64,
        ancestors: u32,
        number: u64,
        end: u64,
    ) -> Uploads<R>
        requires sectors { sectors ≤ 2147483648 }
        requires ancestors { ancestors ≤ 15 }
        ensures uuid { result.uuid ≡ uuid }
        ensures sectors { result.sectors ≡ sectors }
        ensures ancestors { result.ancestors ≡ ancestors }
        ensures window { result.window ≡ record { last = number; objects = [] } }
        ensures frontier { result.queue.frontier ≡ number }
        ensures end { result.queue.end ≡ end }
        ensures sealed { result.queue.sealed ≡ [] }
        ensures receipts { result.queue.receipts ≡ [] }
        ensures removal { result.queue.removal ≡ None }
        ensures inherited { result.queue.inherited ≡ [] }
        ensures settled { result.queue.maps.settled.rows ≡ [] }
        ensures log { result.queue.maps.log.rows ≡ [] }
        ensures objects { result.queue.maps.objects.rows ≡ [] }
        ensures checkpoint { result.queue.maps.objects.checkpoint ≡ 0 }
        ensures order { IsUploads result }
    {
        Uploads {
            uuid,
            sectors,
            ancestors,
            queue: Queue::new(alloc, number, end),
            window: Window::new(number),
        }
    }

    /// The ranges of the sectors that the rows of a data object put, as `seal` and `adopt` take them. The
    /// rows fit the volume (a condition). The one error is out of memory.
    pub fn put_ranges(
        &self,
        alloc: Global,
        rows: &[DataRow],
    ) -> Result<Vec<SectorRange>, AllocError>
        requires { FitObject self.now.sectors rows.now }
        ensures { IfOk result (λ ranges. CoverRows ranges.items rows.now) }
    {
        // All rows end by the volume's end, so they are narrow enough for a range.
        let _sectors = self.sectors;
        put_ranges(alloc, rows)
    }

    /// The ranges of the sectors of the rows of a copy, as `seal_copy` and `adopt` take them. The rows fit
    /// the volume (a condition). The one error is out of memory.
    pub fn copied_ranges(
        &self,
        alloc: Global,
        rows: &[CopyRow],
    ) -> Result<Vec<SectorRange>, AllocError>
        requires { FitCopy self.now.sectors rows.now }
        ensures { IfOk result (λ ranges. CoverCopyRows ranges.items rows.now) }
    {
        // All rows end by the volume's end, so they are narrow enough for a range.
        let _sectors = self.sectors;
        copied_ranges(alloc, rows)
    }

    /// The ranges of the sectors that such rows put, as `adopt` takes them. The rows fit the volume (a
    /// condition). The one error is out of memory.
    pub fn ranges_of(
        &self,
        alloc: Global,
        rows: &SealedRows,
    ) -> Result<Vec<SectorRange>, AllocError>
        requires { FitSealed self.now.sectors rows.now }
        ensures { IfOk result (λ ranges. CoverSealed ranges.items rows.now) }
    {
        match rows {
            SealedRows::Data(rows) => self.put_ranges(alloc, rows),
            SealedRows::Copy(rows) => self.copied_ranges(alloc, rows),
            SealedRows::Checkpoint => Ok(Vec::new(alloc)),
        }
    }

    /// Seals a data object, which is given twice, with its rows and the count of entries up to its end, and
    /// answers its number: the next one. Fewer than 16 objects are open, the numbers go on below 2^64 - 1,
    /// and the rows are 65,536 at most, and lie inside the volume, and their places inside the greatest
    /// payload, and the ranges have all sectors that the rows put (conditions). The one error is out of
    /// memory, which comes only where room for one object more is missing, and after which the objects are as
    /// before: all that acknowledging it takes is made here.
    pub fn seal(
        &mut self,
        object: ObjectBytes,
        spare: ObjectBytes,
        rows: Vec<DataRow>,
        ranges: Vec<SectorRange>,
        end: u64,
    ) -> Result<u64, AllocError>
        requires covered { CoverRows ranges.items rows.items }
        requires places { length self.old.window.objects < 16 }
        requires numbers { self.old.window.last + 1 < 2 ^ 64 - 1 }
        requires spare { spare ≡ object }
        requires fit { FitObject self.old.sectors rows.items }
        ensures number { IfOk result (λ number. number ≡ self.old.window.last + 1) }
        ensures sealed { OnOk result (IsSealedNext object (Data rows) end self.old self.new) }
        ensures succeeds { HasRoomForObject (Data rows) self.old.queue → IsOk result }
        ensures same { OnErr result (IsNotSealed self.old self.new) }
    {
        let number = self.window.last() + 1;
        self.queue
            .push(object, spare, SealedRows::Data(rows), ranges, end)?;
        let _ = self.window.enter(number, false);
        Ok(number)
    }

    /// Seals a copy, which is given twice, with its rows, and answers its number: the next one. It has the
    /// end of the object before it. Fewer than 16 objects are open, the numbers go on below 2^64 - 1, and the
    /// rows are 65,536 at most, and lie inside the volume, and their places inside the greatest payload,
    /// which has as many sectors as they have, or more (conditions). The one error is out of memory, as of
    /// `seal`.
    pub fn seal_copy(
        &mut self,
        object: ObjectBytes,
        spare: ObjectBytes,
        rows: Vec<CopyRow>,
        ranges: Vec<SectorRange>,
    ) -> Result<u64, AllocError>
        requires covered { CoverCopyRows ranges.items rows.items }
        requires places { length self.old.window.objects < 16 }
        requires numbers { self.old.window.last + 1 < 2 ^ 64 - 1 }
        requires spare { spare ≡ object }
        requires fit { FitCopy self.old.sectors rows.items }
        ensures number { IfOk result (λ number. number ≡ self.old.window.last + 1) }
        ensures sealed { OnOk result (IsSealedNext object (Copy rows)
            (end_of_last self.old.queue.end self.old.queue.sealed) self.old self.new) }
        ensures succeeds { HasRoomForObject (Copy rows) self.old.queue → IsOk result }
        ensures same { OnErr result (IsNotSealed self.old self.new) }
    {
        let number = self.window.last() + 1;
        let end = self.queue.end_of_last();
        self.queue
            .push(object, spare, SealedRows::Copy(rows), ranges, end)?;
        let _ = self.window.enter(number, false);
        Ok(number)
    }

    /// Seals a checkpoint, which holds the objects' map as it is once all objects before it are settled, and
    /// answers its number: the next one. Fewer than 16 objects are open, and the numbers go on below 2^64 - 1
    /// (conditions). The one error is out of memory; then nothing changes but room.
    pub fn seal_checkpoint(&mut self, alloc: Global) -> Result<u64, AllocError>
        requires places { length self.old.window.objects < 16 }
        requires numbers { self.old.window.last + 1 < 2 ^ 64 - 1 }
        ensures number { IfOk result (λ number. number ≡ self.old.window.last + 1) }
        ensures sealed { OnOk result (HasSealedCheckpoint self.old self.new) }
        ensures same { OnErr result (IsNotSealed self.old self.new) }
        ensures order { IsUploads self.old }
    {
        let expected = self.expected_next();
        let end = self.queue.end_of_last();
        let object = self.queue.checkpoint(alloc, &expected, end)?;
        let spare = object.share()?;
        self.queue.push(object, spare, SealedRows::Checkpoint, Vec::new(alloc), end)?;
        let _ = self.window.enter(expected.number, true);
        Ok(expected.number)
    }

    /// The number of the newest checkpoint that was sealed, 0 for none: the last one past the frontier, or
    /// else the newest acknowledged one.
    pub fn newest_checkpoint(&self) -> u64
        ensures { result ≡ newest_checkpoint self.now.queue }
    {
        self.queue.newest_checkpoint()
    }

    /// Begins the removal of the lowest object that may be removed: the newest acknowledged checkpoint has a
    /// greater number, and does not map it, no pin is on it, and no plan of a copy takes sectors from it.
    /// What the store gave for it is handed out. None is where there is no such object, and where a removal
    /// is out. It takes no memory.
    pub fn take_remove(&mut self) -> Option<R>
        ensures next { IsRemovedNext self.old.queue.removal self.old.queue.maps.objects
            (option_map (λ receipt. (R.state receipt).name.number) result) }
        ensures named { IfSome result (λ receipt. (R.state receipt).name
            ≡ numbered_name self.old.uuid (R.state receipt).name.number) }
        ensures taken { IfSome result (λ receipt. TakesRemoval (R.state receipt).name.number (R.state receipt)
            self.old self.new) }
        ensures same { IfNone result (self.new ≡ self.old) }
        ensures order { IsUploads self.old }
        ensures stays { IsUploads self.new }
    {
        let (_, receipt) = self.queue.take_remove()?;
        Some(receipt)
    }

    /// The removal of the object of a number is done. False is where that removal is not out; then nothing
    /// changes. It takes no memory.
    pub fn remove_done(&mut self, number: u64) -> bool
        ensures out { IsTrue result ↔ (self.old.queue.removal ≡ Some number) }
        ensures done { IsTrue result → FinishesRemoval number self.old self.new }
        ensures same { result ≡ false → self.new ≡ self.old }
        ensures order { IsUploads self.old }
        ensures stays { IsUploads self.new }
    {
        if self.queue.removal() != Some(number) {
            return false;
        }
        self.queue.remove_done(number);
        true
    }

    /// A removal failed, and a receipt for its object comes back, which serves a later removal. It is handed
    /// back where the removal of the object that it names is not out; then nothing changes. It takes no
    /// memory.
    pub fn remove_failed(&mut self, receipt: R) -> Result<(), R>
        ensures out { IsOk result ↔ ((self.old.queue.removal ≡ Some (R.state receipt).name.number)
            × ((R.state receipt).name ≡ numbered_name self.old.uuid (R.state receipt).name.number)) }
        ensures back { OnOk result (TakesBackRemoval (R.state receipt).name.number (R.state receipt)
            self.old self.new) }
        ensures refused { IfErr result (λ back. back ≡ receipt) }
        ensures same { OnErr result (self.new ≡ self.old) }
        ensures order { IsUploads self.old }
        ensures stays { IsUploads self.new }
    {
        let name = receipt.name();
        let number = name.number;
        if self.queue.removal() != Some(number) || name != ObjName::object(self.uuid, number) {
            return Err(receipt);
        }
        self.queue.remove_failed(number, receipt);
        Ok(())
    }

    /// Pins an object once more, so that it is not removed. One that is not known changes nothing. It has
    /// fewer than 2^64 - 1 pins (a condition). It takes no memory.
    pub fn pin(&mut self, number: u64)
        requires { IfSome (row_of number self.old.queue.maps.objects.rows) (λ row. row.pins + 1 < 2 ^ 64) }
        ensures pinned { HasChangedRow pinned number self.old self.new }
        ensures order { IsUploads self.old }
        ensures order_after { IsUploads self.new }
    {
        self.queue.pin(number);
    }

    /// Gives one pin of an object back. One that is not known changes nothing. It has a pin, that of the
    /// caller (a condition). It takes no memory.
    pub fn unpin(&mut self, number: u64)
        requires { IfSome (row_of number self.old.queue.maps.objects.rows) (λ row. 0 < row.pins) }
        ensures unpinned { HasChangedRow unpinned number self.old self.new }
        ensures order { IsUploads self.old }
        ensures order_after { IsUploads self.new }
    {
        self.queue.unpin(number);
    }

    /// A hold keeps an object from now on: it is not removed, and no collection takes sectors from it. One
    /// that is not known changes nothing. It takes no memory.
    pub fn hold(&mut self, number: u64)
        ensures held { HasChangedRow held number self.old self.new }
        ensures order { IsUploads self.old }
        ensures order_after { IsUploads self.new }
    {
        self.queue.hold(number);
    }

    /// Whether there are objects that a collection may take sectors from. It takes no memory.
    pub fn has_victims(&self) -> bool
        ensures { IsTrue result ↔ (candidates self.now.queue.maps.objects.rows ≡ [] → ⊥) }
    {
        self.queue.maps().has_victims()
    }

    /// Plans the next copy: the live sectors of the victims, so many at most, victim by victim, and by their
    /// place in the volume within one. None is where there are no victims. All places in the map are inside
    /// objects that are in the store, and a copy has 131,071 sectors at most (conditions). The one error is
    /// out of memory.
    pub fn plan_copy(&self, alloc: Global, most: u64) -> Result<Option<GcPlan<R>>, AllocError>
        requires most { most ≤ 131071 }
        requires inside { ArePlacesInside self.now.queue }
        ensures { IfOk result (HasPlanned most self.now) }
    {
        let rows = self.queue.maps().plan_copy(alloc, most)?;
        if rows.is_empty() {
            return Ok(None);
        }
        let sources = sources_of(alloc, &self.queue, &rows)?;
        Ok(Some(GcPlan::new(rows, sources)))
    }

    /// A plan is begun: the objects that it takes sectors from are not removed until it is ended. It takes no
    /// memory.
    pub fn begin_plan(&mut self, plan: &GcPlan<R>)
        ensures begun { self.new ≡ with_copied_all true (numbers_of plan.now.sources) self.old }
        ensures order { IsUploads self.old }
        ensures order_after { IsUploads self.new }
    {
        self.queue.mark(plan.sources(), true);
    }

    /// A plan is ended, whether its copy was sealed or is given up: the objects that it takes sectors from
    /// may be removed again. It takes no memory.
    pub fn end_plan(&mut self, plan: &GcPlan<R>)
        ensures ended { self.new ≡ with_copied_all false (numbers_of plan.now.sources) self.old }
        ensures order { IsUploads self.old }
        ensures order_after { IsUploads self.new }
    {
        self.queue.mark(plan.sources(), false);
    }

    /// How many pins are on an object, none on one that is not known.
    pub fn pins(&self, number: u64) -> u64
        ensures { result ≡ pins_of (row_of number self.now.queue.maps.objects.rows) }
    {
        self.queue.pins(number)
    }

    /// Takes up an object that a mount found in the store before the checkpoint at the frontier, with so many
    /// sectors of payload and so many before it. Its number is greater than those of all that were taken up,
    /// the receipt has its name, and the checkpoint was not begun with (conditions). The one error is out of
    /// memory; then nothing changes but room.
    pub fn add_found(
        &mut self,
        number: u64,
        payload: u64,
        front: u64,
        receipt: R,
    ) -> Result<(), AllocError>
        requires newest { IsNewest self.old.queue.maps.objects number }
        requires before { number < self.old.queue.frontier }
        requires named { (R.state receipt).name ≡ numbered_name self.old.uuid number }
        requires none { self.old.queue.sealed ≡ [] }
        requires no_removal { self.old.queue.removal ≡ None }
        ensures found { OnOk result (HasFound number payload front (R.state receipt) self.old self.new) }
        ensures same { OnErr result (IsNotSealed self.old self.new) }
    {
        self.queue.add_found(number, payload, front, receipt)
    }

    /// Takes up an object of an ancestor that a mount found in the store, with so many sectors before its
    /// payload. Its level is 1 to the count of ancestors, and it comes after all that were taken up, by level
    /// and then by number (conditions). The one error is out of memory; then nothing changes.
    pub fn add_inherited(
        &mut self,
        level: u32,
        number: u64,
        front: u64,
        receipt: R,
    ) -> Result<(), AllocError>
        requires from { 1 ≤ level }
        requires to { level ≤ self.old.ancestors }
        requires last { ComesLast level number self.old.queue.inherited }
        ensures found { OnOk result (self.new ≡ with_inherited (record {
          level = level;
          number = number;
          receipt = R.state receipt;
          front = front;
        }) self.old) }
        ensures same { OnErr result (self.new ≡ self.old) }
    {
        self.queue.add_inherited(level, number, front, receipt)
    }

    /// Enters a row of the checkpoint at the frontier into the objects' map. It has sectors, all inside the
    /// volume, and its places inside the greatest payload, in an object of an ancestor, or in one of the
    /// volume's own that was taken up; no object is past the frontier, no removal is out, and the checkpoint
    /// was not begun with (conditions). The one error is out of memory; then nothing changes but room.
    pub fn map_found(&mut self, row: &Extent<ObjectPlace>) -> Result<(), AllocError>
        requires inside { row.now.lba + row.now.sectors ≤ self.old.sectors }
        requires payload { row.now.place.sector + row.now.sectors ≤ 131071 }
        requires level { row.now.place.level ≤ self.old.ancestors }
        requires known { row.now.place.level ≡ 0
            → MayGain row.now.place.number self.old.queue.maps.objects }
        requires none { self.old.queue.sealed ≡ [] }
        requires no_removal { self.old.queue.removal ≡ None }
        ensures mapped { OnOk result (HasMapped row.now self.old self.new) }
        ensures same { OnErr result (IsNotSealed self.old self.new) }
    {
        self.queue.map_found(row)
    }

    /// Begins with the checkpoint at the frontier, whose rows were all entered: it is the newest acknowledged
    /// one, and the receipt has its name. Its number is greater than those of all objects that were taken up
    /// (conditions). The one error is out of memory; then nothing changes but room.
    pub fn begin(&mut self, receipt: R) -> Result<(), AllocError>
        requires newest { IsNewest self.old.queue.maps.objects self.old.queue.frontier }
        requires named { (R.state receipt).name ≡ numbered_name self.old.uuid self.old.queue.frontier }
        requires none { self.old.queue.sealed ≡ [] }
        requires no_removal { self.old.queue.removal ≡ None }
        ensures begun { OnOk result (HasBegun (R.state receipt) self.old self.new) }
        ensures same { OnErr result (IsNotSealed self.old self.new) }
        ensures order { IsUploads self.new }
    {
        self.queue.begin(receipt)
    }

    /// Counts the next number's object, which is in the store, as acknowledged, and settles it: these are its
    /// rows, the count of entries up to its end, and the receipt that the store gave for it. No object is
    /// past the frontier, the numbers go on below 2^64 - 1, the end is not before that of the frontier, the
    /// receipt has the object's name, the rows are a data object's or a copy's, since a recovery begins at
    /// the newest checkpoint, and fit the volume, and the ranges have all sectors that they put (conditions).
    /// The one error is out of memory, which comes only where room for it is missing; then nothing changes
    /// but room.
    pub fn adopt(
        &mut self,
        rows: SealedRows,
        ranges: Vec<SectorRange>,
        end: u64,
        receipt: R,
    ) -> Result<(), AllocError>
        requires covered { CoverSealed ranges.items rows }
        requires none { self.old.queue.sealed ≡ [] }
        requires numbers { self.old.window.last + 1 < 2 ^ 64 - 1 }
        requires order { self.old.queue.end ≤ end }
        requires no_checkpoint { is_checkpoint rows ≡ false }
        requires fit { FitSealed self.old.sectors rows }
        requires named { (R.state receipt).name ≡ numbered_name self.old.uuid (self.old.window.last + 1) }
        ensures adopted { OnOk result (IsAdopted rows end (R.state receipt) self.old self.new) }
        ensures succeeds { HasRoomForObject rows self.old.queue → IsOk result }
        ensures same { OnErr result (IsNotSealed self.old self.new) }
        ensures order { IsUploads self.old }
    {
        self.queue.adopt(rows, ranges, end, receipt)?;
        self.window = Window::new(self.queue.frontier());
        Ok(())
    }

    /// Begins the put of the lowest ready object. None is where no object is ready; then nothing changes. It
    /// takes no memory.
    pub fn take_job(&mut self) -> Option<Job>
        ensures lowest { option_map (λ job. job.name.number) result ≡ lowest_ready self.old.window.objects }
        ensures job { IfSome result (λ job. IsJobOf self.old job.name.number job) }
        ensures started { IfSome result (λ job. self.new ≡ with_job job.name.number true self.old) }
        ensures same { IfNone result (self.new ≡ self.old) }
    {
        let (number, index) = self.next_job()?;
        let name = ObjName::object(self.uuid, number);
        let object = self.queue.take_spare(index);
        self.window.take();
        Some(Job::new(name, object))
    }

    /// A put is done, and the store gave this receipt for it. The frontier is answered. The receipt comes
    /// back where the put is not out: its number is not started, or these are not the sealed bytes, or the
    /// receipt names another object; then nothing changes. It takes no memory.
    pub fn job_done(&mut self, job: &Job, receipt: R) -> Result<u64, R>
        ensures nothing { IsErr result ↔ (IsOut self.old job.now.name.number job.now.bytes
            × ((R.state receipt).name ≡ numbered_name self.old.uuid job.now.name.number) → ⊥) }
        ensures out { OnOk result (IsOut self.old job.now.name.number job.now.bytes) }
        ensures named { OnOk result ((R.state receipt).name ≡ numbered_name self.old.uuid
            job.now.name.number) }
        ensures done { OnOk result (IsPutDone job.now.name.number (R.state receipt) self.old self.new) }
        ensures frontier { IfOk result (λ frontier. frontier ≡ self.new.queue.frontier) }
        ensures back { IfErr result (λ back. back ≡ receipt) }
        ensures same { OnErr result (self.new ≡ self.old) }
        ensures order { IsUploads self.old }
        ensures stays { IsUploads self.new }
    {
        let number = job.name().number;
        let Some(index) = self.index_out(number, job.object()) else {
            return Err(receipt);
        };
        if receipt.name() != ObjName::object(self.uuid, number) {
            return Err(receipt);
        }
        self.window.ack(number);
        self.queue.acknowledge(index, receipt);
        self.queue.settle();
        Ok(self.queue.frontier())
    }

    /// A put failed, and its object is ready again. The job comes back where it is not out: its number is not
    /// started, or these are not the sealed bytes; then nothing changes. It takes no memory.
    pub fn job_failed(&mut self, job: Job) -> Result<(), Job>
        ensures nothing { IsErr result ↔ (IsOut self.old job.name.number job.bytes → ⊥) }
        ensures out { OnOk result (IsOut self.old job.name.number job.bytes) }
        ensures ready { OnOk result (self.new ≡ with_job job.name.number false self.old) }
        ensures back { IfErr result (λ back. back ≡ job) }
        ensures same { OnErr result (self.new ≡ self.old) }
    {
        let number = job.name().number;
        let Some(index) = self.index_out(number, job.object()) else {
            return Err(job);
        };
        self.window.fail(number);
        self.queue.give_spare(index, job.into_object());
        Ok(())
    }

    /// Makes room to enter an entry. The one error is out of memory, which comes only where that room is
    /// missing; but for room nothing changes.
    pub fn reserve(&mut self) -> Result<(), AllocError>
        ensures room { OnOk result (HasRoomForEntry self.new.queue) }
        ensures succeeds { HasRoomForEntry self.old.queue → IsOk result }
        ensures same { IsNotSealed self.old self.new }
    {
        self.queue.reserve_entry()
    }

    /// Enters an entry with this seq, which is past all objects, and whose data begin at the sector `data_at`
    /// of the log. Room was made for it, and its sectors and its data's end below 2^63 (conditions). It takes
    /// no memory.
    pub fn enter(&mut self, entry: &Entry, seq: u64, data_at: u64)
        requires room { HasRoomForEntry self.old.queue }
        requires range { first_sector entry.now + sector_count entry.now < 2 ^ 63 }
        requires places { log_number (row_left_by seq data_at entry.now).place + sector_count
            entry.now < 2 ^ 63 }
        ensures entered { IsEntered entry.now seq data_at self.old.queue self.new.queue }
        ensures window { self.new.window ≡ self.old.window }
        ensures uuid { self.new.uuid ≡ self.old.uuid }
        ensures sectors { self.new.sectors ≡ self.old.sectors }
        ensures ancestors { self.new.ancestors ≡ self.old.ancestors }
        ensures order { IsUploads self.old }
    {
        self.queue.enter(entry, seq, data_at);
    }

    /// The places of the sectors from `lba` on, as the shortest list of rows in order; a sector without a
    /// place has zeros. The rows and their places end below 2^63, and so does the range (a condition). The
    /// one error is out of memory.
    pub fn look(
        &self,
        alloc: Global,
        lba: u64,
        sectors: u64,
    ) -> Result<Vec<Extent<VolumePlace>>, AllocError>
        requires { lba + sectors < 2 ^ 63 }
        ensures places { IfOk result (λ rows. (k : ℕ) → place_at volume_on rows.items k ≡ place_in_range lba
            sectors (volume_place_at self.now.queue.maps) k) }
        ensures shortest { IfOk result (λ rows. IsShortest volume_on rows.items) }
        ensures fits { IfOk result (λ rows. AllFit volume_number rows.items) }
        ensures order { IsUploads self.now }
    {
        self.queue.maps().look(alloc, lba, sectors)
    }

    /// What the store gave for the object that a place is in. None is for an object past the frontier, for
    /// one of an ancestor that was not taken up, and for one of the volume's own that was acknowledged before
    /// the objects were taken up.
    pub fn receipt(&self, place: &ObjectPlace) -> Option<&R>
        ensures { option_map (λ receipt. R.state receipt.now) result ≡ option_map (λ object. object.receipt)
            (stored_at self.now.queue place.now) }
    {
        self.queue.receipt(place)
    }

    /// How many sectors the object that a place is in has before its payload. Nothing is said of a place
    /// whose object has no receipt.
    pub fn front(&self, place: &ObjectPlace) -> u64
        ensures { IfSome (stored_at self.now.queue place.now) (λ object. result ≡ object.front) }
    {
        self.queue.front(place)
    }

    /// Whether receipts tell their bytes is the same of all that the store gave for the objects, as a fact
    /// for proofs; and all do where each receipt of their kind does. Nothing is done.
    pub fn tell_alike(&self)
        ensures alike { TellAlike R.tells self.now.queue }
        ensures told { ((receipt : R) → IsSome (R.state receipt).told) → TellAlike true self.now.queue }
    {
        self.queue.tell_alike();
    }

    /// The uuid of the volume.
    pub fn uuid(&self) -> Uuid
        ensures { result ≡ self.now.uuid }
    {
        self.uuid
    }

    /// How many ancestors the volume has.
    pub fn ancestors(&self) -> u32
        ensures { result ≡ self.now.ancestors }
    {
        self.ancestors
    }

    /// The frontier: the greatest number up to which all objects are acknowledged. The open objects are those
    /// past it that are not, the first among them.
    pub fn frontier(&self) -> u64
        ensures is { result ≡ self.now.queue.frontier }
        ensures frontier { IsFrontier self.now.window result }
        ensures order { IsUploads self.now }
    {
        self.window.frontier()
    }

    /// The number of the last object that was sealed, or else the one that the objects began with.
    pub fn last(&self) -> u64
        ensures { result ≡ self.now.window.last }
    {
        self.window.last()
    }

    /// How many entries of the history the objects up to the frontier have.
    pub fn end(&self) -> u64
        ensures { result ≡ self.now.queue.end }
    {
        self.queue.end()
    }

    /// Which objects are on their way to the store.
    pub fn window(&self) -> &Window
        ensures { result.now ≡ self.now.window }
    {
        &self.window
    }

    // What is expected of the next object.
    fn expected_next(&self) -> Expected
        requires { self.now.window.last + 1 < 2 ^ 64 }
        ensures { result ≡ expected_next self.now }
    {
        Expected {
            uuid: *self.uuid.as_bytes(),
            number: self.window.last() + 1,
            sectors: self.sectors,
            ancestors: self.ancestors,
            end_before: Some(self.queue.end_of_last()),
        }
    }

    // The lowest ready number, and where its object stands.
    fn next_job(&self) -> Option<(u64, usize)>
        ensures lowest { option_map (λ next. next.0) result ≡ lowest_ready self.now.window.objects }
        ensures index { IfSome result (λ next. next.1 ≡ index_of self.now next.0) }
        ensures past { IfSome result (λ next. self.now.queue.frontier < next.0) }
        ensures there { IfSome result (λ next. IsOpenAt next.1 self.now.queue.sealed true) }
    {
        let number = self.window.next()?;
        Some((number, self.index_of(number)))
    }

    // Where the object of a number stands past the frontier.
    fn index_of(&self, number: u64) -> usize
        requires { self.now.queue.frontier < number }
        ensures { result ≡ index_of self.now number }
    {
        (number - self.queue.frontier() - 1) as usize
    }

    // Where the object of a number stands, of which a put of these bytes is out.
    fn index_out(&self, number: u64, bytes: &ObjectBytes) -> Option<usize>
        ensures index { IfSome result (λ index. index ≡ index_of self.now number) }
        ensures past { IfSome result (λ index. self.now.queue.frontier < number) }
        ensures there { IfSome result (λ index. IsOpenAt index self.now.queue.sealed false) }
        ensures out { IfSome result (λ index. IsOut self.now number bytes.now) }
        ensures none { IfNone result (IsOut self.now number bytes.now → ⊥) }
    {
        if !self.window.is_started(number) {
            return None;
        }
        let index = self.index_of(number);
        if self.queue.has_bytes(index, bytes) {
            Some(index)
        } else {
            None
        }
    }
}
