ghost use Rattle.std.specs.Prelude.{◌≡◌, ◌+◌, ◌*◌, ◌-◌, ◌^◌, ◌<◌, ◌≤◌, IfOk, IfErr, IfSome, OnOk};
ghost use Rattle.std.specs.Prelude.{OnErr, IsTrue, Some, None, slice_index_or, is_ok, length, drop};
ghost use Rattle.std.specs.Prelude.{min, true, false, IsOk};
ghost use Rattle.std.specs.List.{slice_get};
ghost use Rattle.std.specs.Fn.{FnOnceReturnsAtMut};
ghost use Rattle.lsvd_base.specs.declared.entry.Entry.{Entry as EntryValue};
ghost use Rattle.lsvd_base.specs.Limits.{is_within_limits};
ghost use Rattle.lsvd_device.specs.Device.{IsDisk, HoldsNow, MakesCalls};
ghost use Rattle.log_room.specs.Room.{max_log, record_sectors};
ghost use Rattle.commit_slot.specs.Slots.{log_of};
ghost use Rattle.commit_slot.specs.Commits.{with_budget, IsLastOr, commit_cost};
ghost use Rattle.commit_slot.specs.Committing.{FailsToCommit};
ghost use Rattle.commit_slot.specs.Sequence.{Costs, commit_calls};
ghost use Rattle.commit_slot.specs.Lending.{ChangesBudgetAlone};
ghost use Rattle.commit_slot.specs.LogArea.{HasDurableLogArea};
ghost use Rattle.commit_slot.specs.Formatting.{format_cost, format_calls};
ghost use Rattle.cache_log.specs.Rows.{log_start, byte_of, seq_of, position_of, record_size};
ghost use Rattle.cache_log.specs.Reads.{AreReadOnly, opens_without_fault, reads_without_fault};
ghost use Rattle.cache_log.specs.Log.{next_seq, row_of, IsAppended, FailsToAppend, HasSameEntries};
ghost use Rattle.cache_log.specs.Log.{IsTrimmed, start_with, AreData, IsReadFrom, ReadsOnce, IsReadOnly};
ghost use Rattle.cache_log.specs.Log.{AreRowsOf};
ghost use Rattle.cache_log.specs.Opening.{entry_count, IsOpenedLog, IsBadLog};
ghost use Rattle.cache_log.specs.Committed.{first_body, body_of, IsOnDisk, IsFormattedLog};
ghost use Rattle.cache_log.specs.Committed.{KeepsCommits, HasSameList, IsReleased, IsCommittedLog};
ghost use Rattle.cache_log.specs.Committed.{LeavesEntriesSince};

use crate::error::{AppendError, LogReadError, OpenError};
use crate::opening::{read_rows, sectors_between};
use crate::release::{drop_below, sectors_from, start_of};
use crate::row::Row;
use crate::transfer::{byte_of, read_entries, write_at, write_pad_before};
use commit_body::{CommitBody, Mark};
use commit_slot::Commits;
use log_record::encode_into;
use log_room::{LogRoom, record_sectors};
use lsvd_base::{Entry, Geometry, SECTOR_BYTES};
use lsvd_device::Disk;
use lsvd_fault::Failed;
use std::alloc::{AllocError, Global};
use std::collections::VecDeque;
use std::marker::Model;

/// A circular log of entries on a device, and the commits that say what of it outlasts a stop.
#[derive(Drop)]
pub struct CacheLog<D: Disk> {
    commits: Commits<D>,
    room: LogRoom,
    // Where a commit's tail would stand now, and the seq of its first entry.
    tail: Mark,
    // All records from the tail of the last commit made on, in the order of their seqs.
    rows: VecDeque<Row>,
    // How many of them, at the front, are of entries that were dropped.
    dropped: usize,
    // Where a record is made; it has room for the next one.
    buffer: Vec<u8>,
}

impl<D: Disk> Model for CacheLog<D> {
    ghost use Rattle.std.specs.Prelude.{◌/◌, ◌≤◌, ◌++◌, nat_lt, if◌then◌else◌, length, take, drop};
    ghost use Rattle.std.specs.VecDeque.{deque_capacity};
    ghost use Rattle.log_room.specs.Room.{sector_bytes};
    ghost use Rattle.cache_log.specs.Log.{LogState, entries_in};
    ghost use Rattle.cache_log.specs.Invariant.{IsLog};

    ghost Value = { LogState };

    ghost view = { λ l. record {
      room = l.room;
      held = take l.dropped l.rows.items;
      start = l.tail.position;
      first = l.tail.seq;
      rows = drop l.dropped l.rows.items;
      all = entries_in (take l.dropped l.rows.items ++ drop l.dropped l.rows.items) l.commits.disk.moments;
      entries = entries_in (drop l.dropped l.rows.items) l.commits.disk.moments;
      commits = l.commits;
      reserved =
          if nat_lt (length l.rows.items) (deque_capacity l.rows)
          then length l.buffer.items / sector_bytes else 0;
    } };

    ghost invariant = { λ l. (l.dropped ≤ length l.rows.items)
        × IsLog l.room l.tail (take l.dropped l.rows.items) (drop l.dropped l.rows.items) l.commits };
}

impl<D: Disk> CacheLog<D> {
    /// Formats a device, whose sectors past byte 4,096 are the log's: at least one and at most 2^31
    /// (a condition). The device is a disk (a condition, which its `len` tells). The log has no
    /// entry, its first entry will have the seq `first`, and its first commit, with the number 0,
    /// this uuid and this epoch, is made. `Failed` comes with the device where a call of it failed;
    /// it is to be formatted again.
    pub fn format(
        alloc: Global,
        disk: D,
        uuid: [u8; 16],
        epoch: u64,
        first: u64,
    ) -> Result<CacheLog<D>, (D, Failed)>
        requires least { byte_of 1 ≤ (D.state disk).size }
        requires most { (D.state disk).size < byte_of (max_log + 1) }
        requires is_disk { IsDisk (D.state disk) }
        ensures ok { IfOk result (IsFormattedLog uuid epoch first (D.state disk)) }
        ensures is_disk { IfErr result (λ error. IsDisk (D.state error.0)) }
        ensures calls { IfOk result (λ log.
            Costs format_cost (format_calls (first_body uuid epoch first)) true
            (D.state disk) log.commits.disk) }
        ensures err { IfErr result (λ error.
            Costs format_cost (format_calls (first_body uuid epoch first)) false
            (D.state disk) (D.state error.0)) }
    {
        let begin = Mark {
            position: 0,
            seq: first,
        };
        let body = CommitBody {
            uuid,
            epoch,
            tail: begin,
            head: begin,
        };
        match Commits::format(disk, body) {
            Ok(commits) => {
                let room = LogRoom::new(commits.log());
                Ok(CacheLog {
                    commits,
                    room,
                    tail: begin,
                    rows: VecDeque::new(alloc),
                    dropped: 0,
                    buffer: Vec::new(alloc),
                })
            }
            Err(failed) => Err(failed),
        }
    }

    /// Opens the log of some commits, of which the last has its entries: those from its tail up to
    /// its head. The log has the geometry's sectors, no commit is unfinished, and a stop leaves the
    /// log area just as a read gives it (conditions, which hold after `Commits::load` of a device
    /// with such a log). Nothing is written. The log is read in pieces of a mebibyte, but for one
    /// that ends at the log's end and one that ends at the head, and by no more calls than there are
    /// headers: an entry has one, and a pad before it another.
    ///
    /// An error comes with the commits: `BadRecord` exactly where there is no list of records up to
    /// the head, with the seq of the first that is none, and the first test that its header fails,
    /// or that after the pad; `DeviceFault` where the device could not be read, and `OutOfMemory`
    /// where memory ran out.
    pub fn open(
        alloc: Global,
        mut commits: Commits<D>,
        geometry: &Geometry,
    ) -> Result<CacheLog<D>, (Commits<D>, OpenError)>
        requires limits { IsTrue (is_within_limits geometry.now) }
        requires log { geometry.now.log ≡ log_of commits.disk.size }
        requires finished { commits.unfinished ≡ None }
        requires durable { HasDurableLogArea commits.disk.moments }
        ensures ok { IfOk result (IsOpenedLog geometry.now commits) }
        ensures bad { IfErr result (λ error.
            IsBadLog geometry.now commits.body commits.disk.moments error.1) }
        ensures err { IfErr result (λ error.
            AreReadOnly (2 * entry_count commits.body) (opens_without_fault error.1)
            commits error.0) }
    {
        let (sectors, body) = (commits.log(), commits.body());
        match read_rows(alloc, &mut commits, geometry) {
            Ok(rows) => {
                let used = sectors_between(&body, sectors);
                Ok(CacheLog {
                    commits,
                    room: LogRoom::at(sectors, body.head.position, used),
                    tail: body.tail,
                    rows,
                    dropped: 0,
                    buffer: Vec::new(alloc),
                })
            }
            Err(error) => Err((commits, error)),
        }
    }

    /// How many sectors the log has.
    pub fn sectors(&self) -> u64
        ensures sectors { result ≡ self.now.room.log }
        ensures log { result ≡ log_of self.now.commits.disk.size }
    {
        self.room.sectors()
    }

    /// What is so of every log on its device, as a fact for the proofs of callers. Nothing is done.
    pub fn on_disk(&self)
        ensures { IsOnDisk self.now }
    {
        let _tail = self.tail;
    }

    /// The number of the last commit made.
    pub fn number(&self) -> u64
        ensures { result ≡ self.now.commits.number }
    {
        self.commits.number()
    }

    /// The seq of the first entry that the last commit made has: the sectors of all before it are
    /// free.
    pub fn committed_tail(&self) -> u64
        ensures { result ≡ self.now.commits.body.tail.seq }
    {
        self.commits.body().tail.seq
    }

    /// The seq after the last entry that the last commit made has.
    pub fn committed_head(&self) -> u64
        ensures { result ≡ self.now.commits.body.head.seq }
    {
        self.commits.body().head.seq
    }

    /// Where the record of an entry stands, by its index in the list of entries (below their count,
    /// a condition). No log goes past the sector 2^31.
    pub fn row(&self, index: usize) -> Row
        requires { index < length self.now.rows }
        ensures row { result ≡ slice_index_or self.now.rows index result }
        ensures inside { position_of result + record_size result ≤ max_log }
        ensures matches { IfSome self.now.entries (λ list. (entry : EntryValue)
            → slice_get list index ≡ Some entry
            → result ≡ row_of (seq_of result) (position_of result) entry) }
    {
        self.rows[self.dropped + index]
    }

    /// The seq of the next entry.
    pub fn next_seq(&self) -> u64
        ensures { result ≡ next_seq self.now }
    {
        self.tail.seq + self.len() as u64
    }

    // How many entries it has.
    fn len(&self) -> usize
        ensures { result ≡ length self.now.rows }
    {
        self.rows.len() - self.dropped
    }

    // How many of its entries have seqs below this one.
    fn count_below(&self, seq: u64) -> usize
        ensures count { result ≡ min (seq - self.now.first) (length self.now.rows) }
        ensures inside { result ≤ length self.now.rows }
    {
        let (skipped, len) = (seq.saturating_sub(self.tail.seq), self.len());
        if skipped < len as u64 {
            skipped as usize
        } else {
            len
        }
    }

    // Where a commit's tail would stand after an append of a record that stands at a sector.
    fn start_with(&self, at: u64) -> u64
        ensures { result ≡ start_with at self.now.start self.now.rows }
    {
        if self.len() == 0 {
            at
        } else {
            self.tail.position
        }
    }

    /// Drops the entries with seqs below this one from the list. Where it is above that of the next entry,
    /// the list is empty then, and the next entry has this seq; where it is not above that of the first
    /// entry, none is dropped. In each case the tail of the next commit is set to the first record that is
    /// left, past a pad before it, and to the head where none is.
    ///
    /// The sectors of their records are free once a commit is made after this. Until then a stop may leave
    /// these entries.
    pub fn trim_to(&mut self, seq: u64)
        ensures { IsTrimmed seq self.old self.new }
    {
        let dropped = self.dropped + self.count_below(seq);
        let position = start_of(&self.rows, dropped, self.room.head());
        self.dropped = dropped;
        self.tail = Mark {
            position,
            seq: seq.max(self.tail.seq),
        };
    }

    // How many sectors a record may have for which memory is there.
    fn reserved(&self) -> u64
        ensures { result ≡ self.now.reserved }
    {
        if self.rows.len() < self.rows.capacity() {
            self.buffer.len() as u64 / SECTOR_BYTES
        } else {
            0
        }
    }

    /// Takes the memory that `append` needs for this entry. The one error is that memory ran out,
    /// which comes only where it is not there yet; the log is as before but for what is reserved.
    pub fn reserve(&mut self, entry: &Entry) -> Result<(), AllocError>
        ensures reserved { OnOk result (record_sectors entry.now ≤ self.new.reserved) }
        ensures succeeds { record_sectors entry.now ≤ self.old.reserved → IsOk result }
        ensures rest { self.new ≡ record self.old { reserved = self.new.reserved } }
    {
        if record_sectors(entry) <= self.reserved() {
            return Ok(());
        }
        self.rows.reserve(1)?;
        let Some(bytes) = SECTOR_BYTES.checked_mul(record_sectors(entry)) else {
            return Err(AllocError);
        };
        if (self.buffer.len() as u64) < bytes {
            self.buffer.resize(bytes as usize, 0)?;
        }
        Ok(())
    }

    /// Appends the entry that memory was reserved for (a condition), and answers the sector of the
    /// log at which its record stands; the data of a write begin one sector further on. A pad is
    /// written first where the record does not fit before the log's end. The seq of the entry is
    /// below 2^64 - 1 (a condition). The entry outlasts a stop once it is committed; whenever the
    /// device stops, those that were are left.
    ///
    /// `NoRoom` comes exactly where that needs more sectors than are free, and nothing is done
    /// then. After `DeviceFault`, where a write failed, the entries are as before.
    pub fn append(&mut self, entry: &Entry) -> Result<u64, AppendError>
        requires reserved { record_sectors entry.now ≤ self.old.reserved }
        requires seq { next_seq self.old < 2 ^ 64 - 1 }
        ensures ok { IfOk result (λ at. IsAppended entry.now at self.old self.new) }
        ensures err { IfErr result (λ error. FailsToAppend entry.now error self.old self.new) }
        ensures commits { KeepsCommits self.old self.new }
    {
        let sectors = record_sectors(entry);
        let (need, free) = (self.room.need(sectors), self.room.free());
        if free < need {
            return Err(AppendError::NoRoom { need, free });
        }
        let seq = self.next_seq();
        let at = self.room.position(sectors);
        let start = self.start_with(at);
        let record = &mut self.buffer[..(SECTOR_BYTES * sectors) as usize];
        encode_into(entry, seq, record);
        write_pad_before(&mut self.commits, &self.room, sectors, seq)?;
        write_at(&mut self.commits, at, record)?;
        self.room.enter(sectors);
        self.tail.position = start;
        self.rows.push_back_reserved(Row::of(seq, at, entry));
        Ok(at)
    }

    /// Reads data sectors of one entry of the log into the whole of `buf`, from a sector of the log
    /// on (a condition). `Failed` comes where the device could not be read; any bytes stand in
    /// `buf` then.
    pub fn read(&mut self, sector: u64, buf: &mut [u8]) -> Result<(), Failed>
        requires { AreData self.old.rows sector (length buf.old) }
        ensures ok { OnOk result (IsReadFrom self.old sector buf.new) }
        ensures only { ReadsOnce (is_ok result) self.old self.new }
    {
        self.commits.read(byte_of(sector), buf)
    }

    /// The entries with this seq and greater ones, in their order. The log is read in pieces of up to
    /// a mebibyte, by at most one call for each entry. `DeviceFault` comes where the device could not
    /// be read, and `OutOfMemory` where memory for them ran out.
    pub fn entries_from(&mut self, alloc: Global, seq: u64) -> Result<Vec<Entry>, LogReadError>
        ensures entries { IfOk result (λ list.
            IfSome self.old.entries (λ all. list.items ≡ drop (seq - self.old.first) all)) }
        ensures rows { IfOk result (λ list.
            AreRowsOf (drop (seq - self.old.first) self.old.rows) list.items) }
        ensures ok { OnOk result
            (IsReadOnly (length self.old.rows - (seq - self.old.first)) true self.old self.new) }
        ensures err { IfErr result (λ e.
            IsReadOnly (length self.old.rows - (seq - self.old.first)) (reads_without_fault e)
            self.old self.new) }
    {
        let skipped = self.dropped + self.count_below(seq);
        read_entries(alloc, &mut self.commits, &self.rows, skipped, &self.room)
    }

    /// Commits all entries so far: whenever the device stops it reads as the last commit, as the
    /// one that is unfinished, or as this one, with just the entries of its seqs; after `Ok`, as
    /// this one, with all entries. The number of the last commit is below 2^64 - 2 (a condition).
    /// `Failed` comes where a call of the device failed; the commit may be tried again then. The
    /// entries are as before. In use are then the sectors from the tail of the last commit made to
    /// the head. What memory was taken for stays so.
    pub fn commit(&mut self) -> Result<(), Failed>
        requires number { self.old.commits.number < 2 ^ 64 - 2 }
        ensures same { HasSameList self.old self.new }
        ensures released { IsReleased self.old self.new }
        ensures ok { OnOk result (IsCommittedLog self.old self.new) }
        ensures err { OnErr result
            (FailsToCommit (body_of self.old) self.old.commits self.new.commits) }
        ensures stands { LeavesEntriesSince self.old
            (IsLastOr self.old.commits (body_of self.old)) self.new.commits.disk }
        ensures calls { Costs (commit_cost self.old.commits.unfinished)
            (commit_calls self.old.commits.number self.old.commits.unfinished (body_of self.old))
            (is_ok result) self.old.commits.disk self.new.commits.disk }
        ensures was_on_disk { IsOnDisk self.old }
        ensures on_disk { IsOnDisk self.new }
        ensures reserved { self.old.reserved ≤ self.new.reserved }
    {
        let mut body = self.commits.body();
        let head = self.room.head();
        body.tail = self.tail;
        body.head = Mark {
            position: head,
            seq: self.next_seq(),
        };
        let committed = self.commits.commit(body);
        let last = self.commits.body();
        self.dropped -= drop_below(&mut self.rows, last.tail.seq);
        let log = self.room.sectors();
        let used = sectors_from(log, last.tail.position, head, &self.rows);
        self.room = LogRoom::at(log, head, used);
        committed
    }

    /// The device.
    pub fn disk(&self) -> &D
        ensures { D.state result.now ≡ self.now.commits.disk }
    {
        self.commits.disk()
    }

    /// Lends the device to a closure, which may be called, and changes no more of it than the calls
    /// that it still passes (conditions). What the closure answers is answered. The log is as
    /// before but for these calls.
    pub fn with_disk<R, F: FnOnce(&mut D) -> R>(&mut self, change: F) -> R
        requires callable { F.IsAlwaysCallable change }
        requires keeps { (disk left : D) (answer : R)
            → FnOnceReturnsAtMut F.FnOnce change disk answer left
            → ChangesBudgetAlone (D.state disk) (D.state left) }
        ensures rest { self.new ≡ record self.old {
          commits = with_budget self.new.commits.disk.budget self.old.commits;
        } }
        ensures answer { (disk left : D)
            × (D.state disk ≡ self.old.commits.disk)
            × (D.state left ≡ self.new.commits.disk)
            × FnOnceReturnsAtMut F.FnOnce change disk result left }
    {
        self.commits.with_disk(change)
    }

    /// Gives the commits back, with their device.
    pub fn into_commits(self) -> Commits<D>
        ensures { result ≡ self.commits }
    {
        self.commits
    }

    /// Gives the device back.
    pub fn into_disk(self) -> D
        ensures same { D.state result ≡ self.commits.disk }
        ensures is_disk { IsDisk (D.state result) }
        ensures size { log_start ≤ (D.state result).size }
        ensures on_disk { IsOnDisk self }
    {
        self.commits.into_disk()
    }
}
