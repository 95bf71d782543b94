ghost use Rattle.std.specs.Prelude.{◌≡◌, ◌+◌, ◌≤◌, IsTrue, IfOk, OnOk, OnErr, Some, None, is_some};
ghost use Rattle.std.specs.Prelude.{if◌then◌else◌};
ghost use Rattle.lsvd_base.specs.Limits.{is_within_limits, may_transfer};
ghost use Rattle.log_room.specs.Room.{need, free, record_sectors};
ghost use Rattle.object_stream.specs.Stream.{end_at, last_number};
ghost use Rattle.object_stream.specs.Plain.{numbers_of};
ghost use Rattle.plain_volume.specs.Fields.{max_seq, record_refusal, cache_with_record, sealed_with};
ghost use Rattle.plain_disk.specs.State.{created_volume, stream_in, frontier_of, frontier_end};
ghost use Rattle.plain_disk.specs.State.{history_length, logged_entries};
ghost use Rattle.plain_disk.specs.Cache.{kept_commit};
ghost use Rattle.plain_disk.specs.Reads.{look_calls, look_reply, after_look, release_reply};
ghost use Rattle.plain_disk.specs.Reads.{after_plan_release, objects_read};
ghost use Rattle.plain_disk.specs.Entries.{has_room_for, enter_reply, after_entering, flush_reply};
ghost use Rattle.plain_disk.specs.Entries.{after_flush, batch_refusal_of};
ghost use Rattle.plain_disk.specs.Objects.{seal_reply, after_seal, take_reply, after_take, done_reply};
ghost use Rattle.plain_disk.specs.Objects.{after_done, failed_reply, after_failed, status_reply};
ghost use Rattle.plain_disk.specs.Objects.{seal_checkpoint_reply, after_seal_checkpoint};
ghost use Rattle.plain_disk.specs.Checkpoints.{checkpoint_at, checkpoint_after_done, landed_checkpoint};
ghost use Rattle.plain_disk.specs.Checkpoints.{sealed_checkpoint};
ghost use Rattle.plain_disk.specs.Removals.{copies_from, is_removable, to_remove, take_remove_reply};
ghost use Rattle.plain_disk.specs.Removals.{after_take_remove, remove_done_reply, after_remove_done};
ghost use Rattle.plain_disk.specs.Removals.{remove_failed_reply, after_remove_failed, absent_of};
ghost use Rattle.plain_disk.specs.declared.event.PlainReply.TheVariants.{NoRoom, Sealed};
ghost use Rattle.plain_disk.specs.Log.{room_in};
ghost use Rattle.plain_disk.specs.Step.{plain_reply, plain_after};
ghost use Rattle.plain_disk.specs.Stops.{stopping_after_calls, recovered_number, recovered_end, kept_count};
ghost use Rattle.plain_disk.specs.Stops.{found_with, mounted_kept, mounted_lost};

mod collecting;

use crate::cache::CacheDevice;
use crate::checkpoints::{Checkpoint, last_checkpoint, last_landed};
use crate::history::{MAX_ENTRIES, count_data_sectors, read_history};
use crate::landed::landed_after;
use crate::pins::without_pins;
use crate::plans::objects_read;
use crate::puts::{frontier, is_started, is_started_checkpoint, lowest_ready, mark, remove};
use crate::removals::{absent_of, has, is_out, takes_from};
use crate::sealing::sealed_count;
use crate::writers::{last_writers, run_count};
use log_room::record_sectors;
use lsvd_base::{Entry, Geometry, in_range};
use object_stream::{Content, CopiedSectors, PlainStream, StreamObject};
use plain_disk::{ObjectNumbers, PendingWrite, PlainEvent, PlainReply, PlannedRead};
use std::alloc::{AllocError, Global};
use std::marker::Model;
use upload_window::OpenObject;

// The most objects on their way to the store.
const MAX_OPEN: usize = 16;

/// A volume that is the list of its entries and of its objects. A read costs as much as the history is long.
#[derive(Drop)]
pub struct PlainVolume {
    geometry: Geometry,
    stream: PlainStream,
    /// The number of the last object.
    last: u64,
    uploads: Vec<OpenObject>,
    /// The newest one that is acknowledged.
    checkpoint: Checkpoint,
    /// The sectors that the plan of a copy takes which is out.
    plan: Option<CopiedSectors>,
    pins: Vec<u64>,
    removed: Vec<u64>,
    /// The objects that were ever given out for removal.
    given_out: Vec<u64>,
    /// The object whose removal is out.
    removal: Option<u64>,
    /// The objects that holds keep: none, since it is told of no hold.
    held: Vec<u64>,
    cache: CacheDevice,
}

impl Model for PlainVolume {
    ghost use Rattle.std.specs.Prelude.{[], ◌∷◌};
    ghost use Rattle.lsvd_base.specs.Image.{blank};
    ghost use Rattle.plain_disk.specs.State.{PlainState};
    ghost use Rattle.plain_volume.specs.Fields.{IsPlainFields};

    ghost Value = { PlainState };

    ghost view = { λ v. record {
      geometry = v.geometry;
      chain = [];
      opening = blank v.geometry.sectors;
      number = v.stream.number;
      end = v.stream.end;
      owned = v.stream.opening.items;
      inherited = [];
      payloads = 0 ∷ [];
      entries = v.stream.entries.items;
      objects = v.stream.objects.items;
      window = record { last = v.last; objects = v.uploads.items };
      checkpoint = v.checkpoint;
      plan = v.plan;
      pins = v.pins.items;
      removed = v.removed.items;
      given_out = v.given_out.items;
      removal = v.removal;
      held = v.held.items;
      cache = v.cache;
    } };

    ghost invariant = { λ v. IsPlainFields v.geometry v.stream v.last v.checkpoint.number v.uploads.items };
}

impl PlainVolume {
    /// A volume of this geometry that was just created. The geometry is within the limits (a condition).
    pub fn new(alloc: Global, geometry: Geometry) -> PlainVolume
        requires { IsTrue (is_within_limits geometry) }
        ensures { result ≡ created_volume geometry }
    {
        PlainVolume {
            geometry,
            stream: PlainStream {
                number: 1,
                end: 0,
                opening: Vec::new(alloc),
                entries: Vec::new(alloc),
                objects: Vec::new(alloc),
            },
            last: 1,
            uploads: Vec::new(alloc),
            checkpoint: Checkpoint::created(alloc),
            plan: None,
            pins: Vec::new(alloc),
            removed: Vec::new(alloc),
            given_out: Vec::new(alloc),
            removal: None,
            held: Vec::new(alloc),
            cache: CacheDevice::empty_from(alloc, geometry.log, 0),
        }
    }

    /// One step of the machine. The one error is that memory ran out, after which the volume is as before.
    pub fn step(&mut self, event: PlainEvent) -> Result<PlainReply, AllocError>
        ensures reply { IfOk result (λ reply. reply ≡ plain_reply self.old event) }
        ensures volume { OnOk result (self.new ≡ plain_after event self.old) }
        ensures err { OnErr result (self.new ≡ self.old) }
    {
        match event {
            PlainEvent::Write { lba, body } => self.enter(Entry::Write { lba, body }),
            PlainEvent::Zero { lba, sectors } => self.enter(Entry::Zero { lba, sectors }),
            PlainEvent::Flush => self.flush(),
            PlainEvent::Look { lba, sectors } => self.look(lba, sectors),
            PlainEvent::Release { objects } => self.release(&objects),
            PlainEvent::Seal => self.seal(),
            PlainEvent::TakeJob => Ok(self.take()),
            PlainEvent::JobDone { job } => self.done(job),
            PlainEvent::JobFailed { job } => Ok(self.failed(job)),
            PlainEvent::SealCheckpoint => self.seal_checkpoint(),
            PlainEvent::TakeRemove => self.take_remove(),
            PlainEvent::RemoveDone { number } => self.remove_done(number),
            PlainEvent::RemoveFailed { number } => Ok(self.remove_failed(number)),
            PlainEvent::PlanCopy => self.plan_copy(),
            PlainEvent::SealCopy { is_planned } => self.seal_copy(is_planned),
            PlainEvent::DropPlan => Ok(self.drop_plan()),
            PlainEvent::Status => Ok(self.status()),
        }
    }

    /// Whether its device was told to stop since the last crash.
    pub fn is_stopping(&self) -> bool
        ensures { result ≡ is_some self.now.cache.left }
    {
        self.cache.is_stopping()
    }

    /// The writes that its device passed since the last sync, in their order.
    pub fn pending(&self) -> &[PendingWrite]
        ensures { result.now ≡ self.now.cache.pending }
    {
        self.cache.pending()
    }

    /// The objects on their way to the store, in the order of their numbers.
    pub fn open_objects(&self) -> &[OpenObject]
        ensures { result.now ≡ self.now.window.objects }
    {
        self.uploads.as_slice()
    }

    /// Lets the device pass this many calls more, and fail each later one until a crash.
    pub fn stop_after(&mut self, calls: u64)
        ensures { self.new ≡ stopping_after_calls calls self.old }
    {
        self.cache.stop_after(calls);
    }

    /// Stops the machine, of whose objects those have landed whose numbers are the indexes of `true` in
    /// `landed`, and of whose pending writes those are kept that `kept` has `true` for, and mounts the volume
    /// with its cache: how many entries it has, and the number of the last object that was found. The one
    /// error is that memory ran out, after which the volume is as before.
    pub fn crash_kept(&mut self, landed: &[bool], kept: &[bool]) -> Result<(u64, u64), AllocError>
        ensures count { IfOk result (λ found. found.0 ≡ kept_count (numbers_of landed.now)
            (kept_commit kept.now self.old.cache) self.old) }
        ensures number { IfOk result (λ found. found.1 ≡ recovered_number (numbers_of landed.now) self.old) }
        ensures volume { OnOk result (self.new ≡ mounted_kept (numbers_of landed.now) kept.now self.old) }
        ensures err { OnErr result (self.new ≡ self.old) }
    {
        let found = self.cache.kept_commit(kept);
        let number = self.recovered_number(landed);
        let end = self.end_at(number);
        let count = end.max(found.head.seq);
        self.cut_to(landed, number, count)?;
        self.cache.mount(found, end);
        Ok((count, number))
    }

    /// Stops the machine, of whose objects those have landed whose numbers are the indexes of `true` in
    /// `landed`, and mounts the volume without its cache, on a new device of the same length: how many
    /// entries it has, and the number of the last object that was found. The one error is that memory ran
    /// out, after which the volume is as before.
    pub fn crash_lost(&mut self, landed: &[bool]) -> Result<(u64, u64), AllocError>
        ensures count { IfOk result (λ found. found.0 ≡ recovered_end (numbers_of landed.now) self.old) }
        ensures number { IfOk result (λ found. found.1 ≡ recovered_number (numbers_of landed.now) self.old) }
        ensures volume { OnOk result (self.new ≡ mounted_lost (numbers_of landed.now) self.old) }
        ensures err { OnErr result (self.new ≡ self.old) }
    {
        let number = self.recovered_number(landed);
        let end = self.end_at(number);
        self.cut_to(landed, number, end)?;
        self.cache.replace(end);
        Ok((end, number))
    }

    // The number of the last object up to the frontier.
    fn frontier(&self) -> u64
        ensures { result ≡ frontier_of self.now }
    {
        frontier(self.uploads.as_slice(), self.last)
    }

    // The end of that object: how many entries are in the objects up to the frontier.
    fn frontier_end(&self) -> u64
        ensures end { result ≡ frontier_end self.now }
        ensures fits { result ≤ max_seq }
    {
        self.end_at(self.frontier())
    }

    // The end of the object of this number.
    fn end_at(&self, number: u64) -> u64
        ensures end { result ≡ end_at (stream_in self.now) number }
        ensures fits { result ≤ max_seq }
    {
        self.stream.end_at(number)
    }

    // How many entries its history has.
    fn history_length(&self) -> u64
        ensures { result ≡ history_length self.now }
    {
        self.stream.end + self.stream.entries.len() as u64
    }

    // The entries past the frontier's end.
    fn logged(&self) -> &[Entry]
        ensures { result.now ≡ logged_entries self.now }
    {
        let volume = self;
        let skipped = volume.frontier_end().saturating_sub(volume.stream.end) as usize;
        let entries = volume.stream.entries.as_slice();
        &entries[skipped.min(entries.len())..]
    }

    // Takes the entry if it is in range, the batch is not full, the log has room, after a commit if that
    // releases any, and the device passes its calls. The one error is that memory ran out, after which the
    // volume is as before.
    fn enter(&mut self, entry: Entry) -> Result<PlainReply, AllocError>
        ensures reply { IfOk result (λ reply. reply ≡ enter_reply self.old entry) }
        ensures volume { OnOk result (self.new ≡ after_entering entry self.old) }
        ensures err { OnErr result (self.new ≡ self.old) }
    {
        if let Some(reply) = batch_refusal(&self.geometry, self.stream.unsealed(), &entry)? {
            return Ok(reply);
        }
        let end = self.frontier_end();
        let mut cache = self.cache.copy()?;
        let refusal = write_record(&mut cache, end, &entry)?;
        self.stream.entries.reserve(1)?;
        self.cache = cache;
        if let Some(reply) = refusal {
            return Ok(reply);
        }
        self.stream.entries.push_reserved(entry);
        Ok(PlainReply::Entered(self.history_length()))
    }

    // Makes each entry so far durable by a commit, if the device passes its calls. The one error is that
    // memory ran out, after which the volume is as before.
    fn flush(&mut self) -> Result<PlainReply, AllocError>
        ensures reply { IfOk result (λ reply. reply ≡ flush_reply self.old) }
        ensures volume { OnOk result (self.new ≡ after_flush self.old) }
        ensures err { OnErr result (self.new ≡ self.old) }
    {
        let end = self.frontier_end();
        let mut cache = self.cache.copy()?;
        let is_made = cache.commit(end)?;
        self.cache = cache;
        if is_made {
            Ok(PlainReply::Flushed(self.history_length()))
        } else {
            Ok(PlainReply::Fault)
        }
    }

    // Plans a read of `sectors` sectors from `lba` on, if one read may cover them and the device passes its
    // calls. The one error is that memory ran out, after which the volume is as before.
    fn look(&mut self, lba: u64, sectors: u64) -> Result<PlainReply, AllocError>
        ensures reply { IfOk result (λ reply. reply ≡ look_reply self.old lba sectors) }
        ensures volume { OnOk result (self.new ≡ after_look lba sectors self.old) }
        ensures err { OnErr result (self.new ≡ self.old) }
    {
        let alloc = *self.pins.allocator();
        let entries = self.stream.entries.as_slice();
        let Some(data) = read_history(alloc, &self.geometry, entries, lba, sectors)? else {
            return Ok(PlainReply::Range);
        };
        let calls = self.look_calls(lba, sectors)?;
        let numbers = self.objects_read(lba, sectors)?;
        let mut pins = Vec::from_slice(alloc, self.pins.as_slice())?;
        pins.extend_from_slice(numbers.as_slice())?;
        if !self.cache.read(calls) {
            return Ok(PlainReply::Fault);
        }
        self.pins = pins;
        Ok(PlainReply::Planned(PlannedRead {
            history_length: self.history_length(),
            data,
            objects: ObjectNumbers::new(numbers),
        }))
    }

    // The calls of a read that may be made: one for each maximal run of its sectors that one same entry past
    // the frontier's end wrote last. The one error is that memory ran out.
    fn look_calls(&self, lba: u64, sectors: u64) -> Result<u64, AllocError>
        ensures { IfOk result (λ calls. calls ≡ look_calls self.now lba sectors) }
    {
        let volume = self;
        let alloc = *volume.pins.allocator();
        let last = last_writers(alloc, volume.logged(), lba, sectors)?;
        Ok(run_count(&last))
    }

    // The objects that a read that may be made gets sectors from. The one error is that memory ran out.
    fn objects_read(&self, lba: u64, sectors: u64) -> Result<Vec<u64>, AllocError>
        requires { IsTrue (may_transfer self.now.geometry lba sectors) }
        ensures { IfOk result (λ numbers. numbers.items ≡ objects_read self.now lba sectors) }
    {
        let volume = self;
        let alloc = *volume.pins.allocator();
        objects_read(
            alloc,
            &volume.stream,
            volume.frontier(),
            volume.logged(),
            lba,
            sectors,
        )
    }

    // Gives back the pins of a plan, if it has them. The one error is that memory ran out, after which the
    // volume is as before.
    fn release(&mut self, objects: &ObjectNumbers) -> Result<PlainReply, AllocError>
        ensures reply { IfOk result (λ reply. reply ≡ release_reply self.old objects.now) }
        ensures volume { OnOk result (self.new ≡ after_plan_release objects.now self.old) }
        ensures err { OnErr result (self.new ≡ self.old) }
    {
        let alloc = *self.pins.allocator();
        match without_pins(alloc, self.pins.as_slice(), objects.as_slice())? {
            Some(pins) => {
                self.pins = pins;
                Ok(PlainReply::Released)
            }
            None => Ok(PlainReply::Nothing),
        }
    }

    // Seals the next data object, if there is an unsealed entry and fewer than 16 objects are open. The one
    // error is that memory ran out, after which the volume is as before.
    fn seal(&mut self) -> Result<PlainReply, AllocError>
        ensures reply { IfOk result (λ reply. reply ≡ seal_reply self.old) }
        ensures volume { OnOk result (self.new ≡ after_seal self.old) }
        ensures err { OnErr result (self.new ≡ self.old) }
    {
        let unsealed = self.stream.unsealed();
        if unsealed.is_empty() {
            return Ok(PlainReply::Nothing);
        }
        if self.uploads.len() == MAX_OPEN {
            return Ok(PlainReply::Busy);
        }
        let sealed = sealed_count(self.geometry.batch, unsealed);
        let end = self.end_at(self.last_number()) + sealed;
        let content = Content::Data;
        self.seal_object(StreamObject { content, end }, false)
    }

    // Seals a checkpoint, which repeats the end before it, if fewer than 16 objects are open. The one error
    // is that memory ran out, after which the volume is as before.
    fn seal_checkpoint(&mut self) -> Result<PlainReply, AllocError>
        ensures reply { IfOk result (λ reply. reply ≡ seal_checkpoint_reply self.old) }
        ensures volume { OnOk result (self.new ≡ after_seal_checkpoint self.old) }
        ensures err { OnErr result (self.new ≡ self.old) }
    {
        if self.uploads.len() == MAX_OPEN {
            return Ok(PlainReply::Busy);
        }
        let end = self.end_at(self.last_number());
        let content = Content::Checkpoint;
        self.seal_object(StreamObject { content, end }, true)
    }

    // Seals this object. The one error is that memory ran out, after which the volume is as before.
    fn seal_object(
        &mut self,
        object: StreamObject,
        is_checkpoint: bool,
    ) -> Result<PlainReply, AllocError>
        requires { object.end ≤ max_seq }
        ensures reply { IfOk result (λ reply. reply ≡ Sealed (self.old.window.last + 1)) }
        ensures volume { OnOk result (self.new ≡ sealed_with object is_checkpoint self.old) }
        ensures err { OnErr result (self.new ≡ self.old) }
    {
        let number = self.last + 1;
        self.stream.objects.reserve(1)?;
        self.uploads.reserve(1)?;
        self.stream.objects.push_reserved(object);
        self.uploads.push_reserved(OpenObject {
            number,
            is_checkpoint,
            is_started: false,
            was_started: false,
        });
        self.last = number;
        Ok(PlainReply::Sealed(number))
    }

    // The greatest number of the stream.
    fn last_number(&self) -> u64
        ensures { result ≡ last_number (stream_in self.now) }
    {
        self.stream.number + self.stream.objects.len() as u64
    }

    // Begins the put of the lowest ready object.
    fn take(&mut self) -> PlainReply
        ensures reply { result ≡ take_reply self.old }
        ensures volume { self.new ≡ after_take self.old }
    {
        match lowest_ready(self.uploads.as_slice()) {
            Some(number) => {
                mark(self.uploads.as_mut_slice(), number, true);
                PlainReply::Taken(number)
            }
            None => PlainReply::Nothing,
        }
    }

    // A put is done. The one error is that memory ran out, after which the volume is as before.
    fn done(&mut self, job: Option<u64>) -> Result<PlainReply, AllocError>
        ensures reply { IfOk result (λ reply. reply ≡ done_reply self.old job) }
        ensures volume { OnOk result (self.new ≡ after_done job self.old) }
        ensures err { OnErr result (self.new ≡ self.old) }
    {
        match job {
            Some(number) if is_started(self.uploads.as_slice(), number) => {
                self.checkpoint = self.checkpoint_after_done(number)?;
                remove(&mut self.uploads, number);
                Ok(PlainReply::Done(self.frontier()))
            }
            _ => Ok(PlainReply::Nothing),
        }
    }

    // The newest acknowledged checkpoint once the put of this number is done. The one error is that memory
    // ran out.
    fn checkpoint_after_done(&self, number: u64) -> Result<Checkpoint, AllocError>
        ensures { IfOk result (λ checkpoint. checkpoint ≡ checkpoint_after_done (Some number) self.now) }
    {
        if is_started_checkpoint(self.uploads.as_slice(), number) {
            self.checkpoint_at(number)
        } else {
            self.checkpoint.copy()
        }
    }

    // The checkpoint of this number. The one error is that memory ran out.
    fn checkpoint_at(&self, number: u64) -> Result<Checkpoint, AllocError>
        ensures { IfOk result (λ checkpoint. checkpoint ≡ checkpoint_at number self.now) }
    {
        let volume = self;
        let alloc = *volume.pins.allocator();
        Checkpoint::at(alloc, &volume.stream, number, volume.geometry.sectors)
    }

    // A put failed.
    fn failed(&mut self, job: Option<u64>) -> PlainReply
        ensures reply { result ≡ failed_reply self.old job }
        ensures volume { self.new ≡ after_failed job self.old }
    {
        match job {
            Some(number) if is_started(self.uploads.as_slice(), number) => {
                mark(self.uploads.as_mut_slice(), number, false);
                PlainReply::Returned
            }
            _ => PlainReply::Nothing,
        }
    }

    // Whether the object of this number may be removed.
    fn is_removable(&self, number: u64) -> bool
        ensures { result ≡ is_removable self.now number }
    {
        number < self.checkpoint.number()
            && !self.checkpoint.maps(number)
            && !has(self.pins.as_slice(), number)
            && !self.copies_from(number)
            && !has(self.held.as_slice(), number)
            && !has(self.removed.as_slice(), number)
    }

    // Whether the plan of a copy that is out takes a sector from the object of this number.
    fn copies_from(&self, number: u64) -> bool
        ensures { result ≡ copies_from self.now.plan number }
    {
        match &self.plan {
            Some(plan) => takes_from(plan.as_slice(), number),
            None => false,
        }
    }

    // The lowest number that may be removed.
    fn to_remove(&self) -> Option<u64>
        ensures { result ≡ to_remove self.now }
    {
        for number in 1..self.checkpoint.number() {
            if self.is_removable(number) {
                return Some(number);
            }
        }
        None
    }

    // Begins the removal of the lowest object that may be removed, where none is out. The one error is that
    // memory ran out, after which the volume is as before.
    fn take_remove(&mut self) -> Result<PlainReply, AllocError>
        ensures reply { IfOk result (λ reply. reply ≡ take_remove_reply self.old) }
        ensures volume { OnOk result (self.new ≡ after_take_remove self.old) }
        ensures err { OnErr result (self.new ≡ self.old) }
    {
        match (self.removal, self.to_remove()) {
            (None, Some(number)) => {
                self.given_out.reserve(1)?;
                self.given_out.push_reserved(number);
                self.removal = Some(number);
                Ok(PlainReply::Removing(number))
            }
            _ => Ok(PlainReply::Nothing),
        }
    }

    // A removal is done. The one error is that memory ran out, after which the volume is as before.
    fn remove_done(&mut self, number: u64) -> Result<PlainReply, AllocError>
        ensures reply { IfOk result (λ reply. reply ≡ remove_done_reply self.old number) }
        ensures volume { OnOk result (self.new ≡ after_remove_done number self.old) }
        ensures err { OnErr result (self.new ≡ self.old) }
    {
        if !is_out(number, self.removal) {
            return Ok(PlainReply::Nothing);
        }
        self.removed.reserve(1)?;
        self.removed.push_reserved(number);
        self.removal = None;
        Ok(PlainReply::Removed)
    }

    // A removal failed.
    fn remove_failed(&mut self, number: u64) -> PlainReply
        ensures reply { result ≡ remove_failed_reply self.old number }
        ensures volume { self.new ≡ after_remove_failed number self.old }
    {
        if !is_out(number, self.removal) {
            return PlainReply::Nothing;
        }
        self.removal = None;
        PlainReply::GivenBack
    }

    // The counts.
    fn status(&self) -> PlainReply
        ensures { result ≡ status_reply self.now }
    {
        PlainReply::Told {
            writes: self.history_length(),
            sealed: self.last,
            frontier: self.frontier(),
            checkpoint: self.sealed_number(),
        }
    }

    // The number of the newest checkpoint that was sealed.
    fn sealed_number(&self) -> u64
        ensures { result ≡ (sealed_checkpoint self.now).number }
    {
        match last_checkpoint(self.uploads.as_slice()) {
            Some(number) => number,
            None => self.checkpoint.number(),
        }
    }

    // The number of the newest checkpoint that has landed.
    fn landed_number(&self, landed: &[bool]) -> u64
        ensures { result ≡ (landed_checkpoint (numbers_of landed.now) self.now).number }
    {
        match last_landed(landed, self.uploads.as_slice()) {
            Some(number) => number,
            None => self.checkpoint.number(),
        }
    }

    // The newest checkpoint that has landed. The one error is that memory ran out.
    fn landed_checkpoint(&self, landed: &[bool]) -> Result<Checkpoint, AllocError>
        ensures { IfOk result (λ checkpoint. checkpoint ≡ landed_checkpoint (numbers_of landed.now)
            self.now) }
    {
        match last_landed(landed, self.uploads.as_slice()) {
            Some(number) => self.checkpoint_at(number),
            None => self.checkpoint.copy(),
        }
    }

    // The number before the first that has not landed, above the newest checkpoint that has.
    fn recovered_number(&self, landed: &[bool]) -> u64
        ensures number { result ≡ recovered_number (numbers_of landed.now) self.now }
        ensures first { (landed_checkpoint (numbers_of landed.now) self.now).number ≤ result }
        ensures most { result ≤ last_number (stream_in self.now) }
    {
        let base = self.landed_number(landed);
        let last = self.stream.number + self.stream.objects.len() as u64;
        landed_after(landed, base, last.saturating_sub(base))
    }

    // Keeps the first `count` entries, the objects up to a number, which are acknowledged, and what a mount
    // finds of those that have landed. The one error is that memory ran out, after which the volume is as
    // before.
    fn cut_to(&mut self, landed: &[bool], number: u64, count: u64) -> Result<(), AllocError>
        requires first { (landed_checkpoint (numbers_of landed.now) self.old).number ≤ number }
        requires most { number ≤ last_number (stream_in self.old) }
        ensures volume { OnOk result (self.new ≡ found_with number count
            (landed_checkpoint (numbers_of landed.now) self.old)
            (absent_of (numbers_of landed.now) self.old.given_out) self.old) }
        ensures err { OnErr result (self.new ≡ self.old) }
    {
        let alloc = *self.pins.allocator();
        let checkpoint = self.landed_checkpoint(landed)?;
        let removed = absent_of(alloc, landed, self.given_out.as_slice())?;
        let given_out = Vec::from_slice(alloc, removed.as_slice())?;
        let entries = count.saturating_sub(self.stream.end) as usize;
        let objects = number.saturating_sub(self.stream.number) as usize;
        self.stream.entries.truncate(entries);
        self.stream.objects.truncate(objects);
        self.last = number;
        self.uploads.clear();
        self.checkpoint = checkpoint;
        self.plan = None;
        self.pins.clear();
        self.removed = removed;
        self.given_out = given_out;
        self.removal = None;
        Ok(())
    }
}

// Why a volume with these unsealed entries does not take an entry, whatever room its log has. The one error
// is that memory ran out.
fn batch_refusal(
    geometry: &Geometry,
    unsealed: &[Entry],
    entry: &Entry,
) -> Result<Option<PlainReply>, AllocError>
    ensures { IfOk result (λ refusal. refusal ≡ batch_refusal_of geometry.now unsealed.now entry.now) }
{
    if !in_range(entry, geometry) {
        return Ok(Some(PlainReply::Range));
    }
    let Some(sectors) = count_data_sectors(unsealed) else {
        return Err(AllocError);
    };
    let count = unsealed.len() as u64;
    if sectors >= geometry.batch {
        Ok(Some(PlainReply::BatchFull(sectors)))
    } else if count >= MAX_ENTRIES {
        Ok(Some(PlainReply::EntriesFull(count)))
    } else {
        Ok(None)
    }
}

// Writes the record of an entry that the batch takes, and makes a commit for it where it has no room, if that
// releases any; why it was not written. The one error is that memory ran out.
fn write_record(
    cache: &mut CacheDevice,
    end: u64,
    entry: &Entry,
) -> Result<Option<PlainReply>, AllocError>
    requires { end ≤ max_seq }
    ensures refusal { IfOk result (λ refusal. refusal ≡ record_refusal cache.old end entry.now) }
    ensures cache { OnOk result (cache.new ≡ cache_with_record cache.old end entry.now) }
{
    if !cache.has_room_for(entry) && cache.log().last().tail.seq < end && !cache.commit(end)? {
        return Ok(Some(PlainReply::Fault));
    }
    if let Some(refusal) = room_refusal(cache, entry) {
        return Ok(Some(refusal));
    }
    if cache.enter(entry)? {
        Ok(None)
    } else {
        Ok(Some(PlainReply::Fault))
    }
}

// Why the log has no room for the entry's record.
fn room_refusal(cache: &CacheDevice, entry: &Entry) -> Option<PlainReply>
    ensures { result ≡ (if has_room_for cache.now entry.now then None else Some
        (NoRoom (need (room_in cache.now.log) (record_sectors entry.now)) (free (room_in cache.now.log)))) }
{
    if cache.has_room_for(entry) {
        return None;
    }
    let room = cache.log().room();
    Some(PlainReply::NoRoom {
        need: room.need(record_sectors(entry)),
        free: room.free(),
    })
}
