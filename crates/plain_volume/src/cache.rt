ghost use Rattle.std.specs.Prelude.{◌≡◌, ◌&&◌, ◌+◌, ◌<◌, ◌≤◌, IfOk, OnOk, IfSome, IsTrue, is_some, Some};
ghost use Rattle.std.specs.Prelude.{length};
ghost use Rattle.lsvd_device.specs.Calls.{passes};
ghost use Rattle.lsvd_device.specs.Sequence.{passed_of};
ghost use Rattle.log_room.specs.Room.{max_log};
ghost use Rattle.plain_volume.specs.Fields.{max_seq, IsInside, is_opened_gate};
ghost use Rattle.plain_disk.specs.Log.{empty_from, mounted_log};
ghost use Rattle.plain_disk.specs.Cache.{cache_with, after_reads, after_writes, after_sync_of, writes_of};
ghost use Rattle.plain_disk.specs.Cache.{passes_entry, cache_after_entry, after_first_half};
ghost use Rattle.plain_disk.specs.Cache.{after_second_half, after_finishing, commit_calls_after};
ghost use Rattle.plain_disk.specs.Cache.{passes_commit, after_halves, cache_after_commit, keeps_opened_gate};
ghost use Rattle.plain_disk.specs.Cache.{kept_commit};
ghost use Rattle.plain_disk.specs.Entries.{has_room_for};

use crate::log::RecordLog;
use log_room::record_sectors;
use lsvd_base::Entry;
use plain_disk::{PendingWrite, PlainCommit};
use std::alloc::{AllocError, Global};
use std::marker::Model;

/// The cache device with its log. After an error, which is that memory ran out, it is of no use: a caller
/// changes a copy.
#[derive(Drop)]
pub(crate) struct CacheDevice {
    log: RecordLog,
    /// The calls that it still passes; None is for no limit.
    left: Option<u64>,
    /// The writes since the last sync.
    pending: Vec<PendingWrite>,
}

impl Model for CacheDevice {
    ghost use Rattle.plain_disk.specs.Cache.{PlainCache};

    ghost Value = { PlainCache };

    ghost view = { λ d. record { log = d.log; left = d.left; pending = d.pending.items } };
}

impl CacheDevice {
    /// A device of this many sectors that fails no call, without entries, the next of which has this seq.
    pub(crate) fn empty_from(alloc: Global, size: u64, seq: u64) -> CacheDevice
        requires some { 0 < size }
        requires limit { size ≤ max_log }
        requires seq { seq ≤ max_seq }
        ensures { result ≡ cache_with (empty_from size seq) }
    {
        CacheDevice {
            log: RecordLog::empty_from(alloc, size, seq),
            left: None,
            pending: Vec::new(alloc),
        }
    }

    /// The same device again. The one error is that memory ran out.
    pub(crate) fn copy(&self) -> Result<CacheDevice, AllocError>
        ensures { IfOk result (λ cache. cache ≡ self.now) }
    {
        let log = self.log.copy()?;
        let pending = Vec::from_slice(*self.pending.allocator(), self.pending.as_slice())?;
        Ok(CacheDevice {
            log,
            left: self.left,
            pending,
        })
    }

    /// Its log.
    pub(crate) fn log(&self) -> &RecordLog
        ensures { result.now ≡ self.now.log }
    {
        &self.log
    }

    /// Whether it was told to stop.
    pub(crate) fn is_stopping(&self) -> bool
        ensures { result ≡ is_some self.now.left }
    {
        self.left.is_some()
    }

    /// The writes since the last sync.
    pub(crate) fn pending(&self) -> &[PendingWrite]
        ensures { result.now ≡ self.now.pending }
    {
        self.pending.as_slice()
    }

    /// Fails each call after this many.
    pub(crate) fn stop_after(&mut self, calls: u64)
        ensures { self.new ≡ record self.old { left = Some calls } }
    {
        self.left = Some(calls);
    }

    // Whether it passes this many calls.
    fn passes(&self, calls: u64) -> bool
        ensures { result ≡ passes self.now.left calls }
    {
        self.left.is_none_or(|left| calls <= left)
    }

    // Asks for calls: how many of them pass.
    fn pass(&mut self, calls: u64) -> u64
        ensures passed { result ≡ passed_of self.old.left calls }
        ensures device { self.new ≡ after_reads calls self.old }
    {
        let Some(left) = self.left else {
            return calls;
        };
        self.left = Some(left.saturating_sub(calls));
        left.min(calls)
    }

    /// Reads by this many calls: whether they all pass.
    pub(crate) fn read(&mut self, calls: u64) -> bool
        ensures passed { result ≡ passes self.old.left calls }
        ensures device { self.new ≡ after_reads calls self.old }
    {
        self.pass(calls) == calls
    }

    // Makes writes: whether they all pass.
    fn write(&mut self, writes: &[PendingWrite]) -> Result<bool, AllocError>
        ensures passed { IfOk result (λ are_passed. are_passed ≡ passes self.old.left (length writes.now)) }
        ensures device { OnOk result (self.new ≡ after_writes writes.now self.old) }
    {
        let passed = self.pass(writes.len() as u64) as usize;
        self.pending.extend_from_slice(&writes[..passed])?;
        Ok(passed == writes.len())
    }

    // Makes writes and syncs: whether all of these calls pass.
    fn write_and_sync(&mut self, writes: &[PendingWrite]) -> Result<bool, AllocError>
        requires { length writes.now < 16 }
        ensures passed { IfOk result (λ are_passed. are_passed ≡ passes self.old.left
            (length writes.now + 1)) }
        ensures device { OnOk result (self.new ≡ after_sync_of writes.now self.old) }
    {
        if !self.passes(writes.len() as u64 + 1) {
            self.write(writes)?;
            return Ok(false);
        }
        self.pass(writes.len() as u64 + 1);
        self.pending.clear();
        Ok(true)
    }

    // Makes the writes of an entry: whether they all pass.
    fn write_entry(&mut self, entry: &Entry) -> Result<bool, AllocError>
        ensures passed { IfOk result (λ are_passed. are_passed ≡ passes_entry self.old entry.now) }
        ensures device { OnOk result (self.new ≡ after_writes (writes_of self.old.log entry.now) self.old) }
    {
        let seq = self.log.next_seq();
        if self.log.room().pad_before(record_sectors(entry)) == 0 {
            self.write(&[PendingWrite::Record(seq)])
        } else {
            self.write(&[PendingWrite::Pad(seq), PendingWrite::Record(seq)])
        }
    }

    /// Whether the log has room for the entry's record.
    pub(crate) fn has_room_for(&self, entry: &Entry) -> bool
        ensures { result ≡ has_room_for self.now entry.now }
    {
        let room = self.log.room();
        room.need(record_sectors(entry)) <= room.free()
    }

    /// Writes the entry's record, for which there is room (a condition), and the pad before it: whether these
    /// writes pass.
    pub(crate) fn enter(&mut self, entry: &Entry) -> Result<bool, AllocError>
        requires { IsTrue (has_room_for self.old entry.now) }
        ensures passed { IfOk result (λ are_passed. are_passed ≡ passes_entry self.old entry.now) }
        ensures device { OnOk result (self.new ≡ cache_after_entry entry.now self.old) }
    {
        let passed = self.write_entry(entry)?;
        if passed {
            self.log.enter(entry)?;
        }
        Ok(passed)
    }

    // The first half of a commit.
    fn make_first_half(&mut self, commit: PlainCommit) -> Result<(), AllocError>
        requires { IsInside self.old.log.size commit }
        ensures device { OnOk result (self.new ≡ after_first_half commit self.old) }
    {
        if self.write_and_sync(&[PendingWrite::Body, PendingWrite::ClosedGate])? {
            self.log.begin(commit);
        }
        Ok(())
    }

    // The second half of a commit.
    fn make_second_half(&mut self, commit: PlainCommit) -> Result<(), AllocError>
        requires { IsInside self.old.log.size commit }
        ensures device { OnOk result (self.new ≡ after_second_half commit self.old) }
    {
        if self.write_and_sync(&[PendingWrite::OpenedGate])? {
            self.log.make(commit);
        }
        Ok(())
    }

    // A commit that is unfinished is finished first.
    fn finish(&mut self) -> Result<(), AllocError>
        ensures device { OnOk result (self.new ≡ after_finishing self.old.log.unfinished self.old) }
    {
        match self.log.unfinished() {
            Some(commit) => self.make_second_half(commit),
            None => Ok(()),
        }
    }

    /// Makes a commit of all entries whose tail is at the entry with this seq: whether its calls, and those
    /// of finishing an earlier one, all pass.
    pub(crate) fn commit(&mut self, seq: u64) -> Result<bool, AllocError>
        requires { seq ≤ max_seq }
        ensures passed { IfOk result (λ are_passed. are_passed ≡ passes_commit self.old) }
        ensures device { OnOk result (self.new ≡ cache_after_commit seq self.old) }
    {
        let calls = if self.log.unfinished().is_some() {
            7
        } else {
            5
        };
        let passed = self.passes(calls);
        self.finish()?;
        let commit = self.log.commit_from(seq);
        self.make_first_half(commit)?;
        self.make_second_half(commit)?;
        Ok(passed)
    }

    /// The commit that a stop leaves, where of the writes since the last sync these are kept.
    pub(crate) fn kept_commit(&self, kept: &[bool]) -> PlainCommit
        ensures commit { result ≡ kept_commit kept.now self.now }
        ensures inside { IsInside self.now.log.size result }
    {
        let last = self.log.last();
        if keeps_opened_gate(self.pending.as_slice(), kept) {
            self.log.unfinished().unwrap_or(last)
        } else {
            last
        }
    }

    /// Goes on after a commit that a mount found, and makes one whose tail is at the entry with this seq.
    pub(crate) fn mount(&mut self, found: PlainCommit, seq: u64)
        requires inside { IsInside self.old.log.size found }
        requires seq { seq ≤ max_seq }
        ensures { self.new ≡ cache_with (mounted_log found seq self.old.log) }
    {
        self.log.mount(found, seq);
        self.left = None;
        self.pending.clear();
    }

    /// Becomes a new device of the same length, whose next entry has this seq.
    pub(crate) fn replace(&mut self, seq: u64)
        requires { seq ≤ max_seq }
        ensures { self.new ≡ cache_with (empty_from self.old.log.size seq) }
    {
        let alloc = *self.pending.allocator();
        *self = CacheDevice::empty_from(alloc, self.log.size(), seq);
    }
}

// Whether the opening of a gate is among the writes that are kept.
fn keeps_opened_gate(writes: &[PendingWrite], kept: &[bool]) -> bool
    ensures { result ≡ keeps_opened_gate writes.now kept.now }
{
    for (index, write) in writes.iter().enumerate() {
        let is_kept = kept.get(index).copied().unwrap_or(false);
        if is_kept_opening(*write, is_kept) {
            return true;
        }
    }
    false
}

// Whether the write opens a gate, and is kept.
fn is_kept_opening(write: PendingWrite, is_kept: bool) -> bool
    ensures { result ≡ (is_opened_gate write && is_kept) }
{
    is_kept && matches!(write, PendingWrite::OpenedGate)
}
