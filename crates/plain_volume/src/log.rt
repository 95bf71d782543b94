ghost use Rattle.std.specs.Prelude.{◌≡◌, ◌<◌, ◌≤◌, Some, OnOk, IfOk, IfSome, drop};
ghost use Rattle.log_room.specs.Room.{max_log, need, free, record_sectors, pad_before};
ghost use Rattle.plain_volume.specs.Fields.{max_seq, IsInside};
ghost use Rattle.plain_disk.specs.Log.{empty_from, next_seq, room_in, used_by, with_record, place_of_first};
ghost use Rattle.plain_disk.specs.Log.{records_from, commit_from, past_pad, with_commit, held_from};
ghost use Rattle.plain_disk.specs.Log.{mounted_log};

use commit_body::Mark;
use log_room::{LogRoom, record_sectors};
use lsvd_base::Entry;
use plain_disk::{PlainCommit, PlainRecord};
use std::alloc::{AllocError, Global};
use std::marker::Model;

/// The log as the list of its records, from the tail of the last commit on.
#[derive(Drop)]
pub(crate) struct RecordLog {
    size: u64,
    head: u64,
    last: PlainCommit,
    records: Vec<PlainRecord>,
    unfinished: Option<PlainCommit>,
}

impl Model for RecordLog {
    ghost use Rattle.plain_volume.specs.Fields.{IsRecordLog};
    ghost use Rattle.plain_disk.specs.Log.{PlainLog};

    ghost Value = { PlainLog };

    ghost view = { λ l. record {
      size = l.size;
      head = l.head;
      last = l.last;
      records = l.records.items;
      unfinished = l.unfinished;
    } };

    ghost invariant = { λ l. IsRecordLog
        (record {
          size = l.size;
          head = l.head;
          last = l.last;
          records = l.records.items;
          unfinished = l.unfinished;
        }) };
}

impl RecordLog {
    /// A log of this many sectors without entries, the next of which has this seq.
    pub(crate) fn empty_from(alloc: Global, size: u64, seq: u64) -> RecordLog
        requires some { 0 < size }
        requires limit { size ≤ max_log }
        requires seq { seq ≤ max_seq }
        ensures { result ≡ empty_from size seq }
    {
        let start = Mark { position: 0, seq };
        RecordLog {
            size,
            head: 0,
            last: PlainCommit {
                tail: start,
                head: start,
            },
            records: Vec::new(alloc),
            unfinished: None,
        }
    }

    /// The same log again. The one error is that memory ran out.
    pub(crate) fn copy(&self) -> Result<RecordLog, AllocError>
        ensures { IfOk result (λ log. log ≡ self.now) }
    {
        let records = Vec::from_slice(*self.records.allocator(), self.records.as_slice())?;
        Ok(RecordLog {
            size: self.size,
            head: self.head,
            last: self.last,
            records,
            unfinished: self.unfinished,
        })
    }

    /// Its sectors.
    pub(crate) fn size(&self) -> u64
        ensures size { result ≡ self.now.size }
        ensures some { 0 < result }
        ensures limit { result ≤ max_log }
    {
        self.size
    }

    /// Its room.
    pub(crate) fn room(&self) -> LogRoom
        ensures { result ≡ room_in self.now }
    {
        LogRoom::at(self.size, self.head, used_by(&self.records))
    }

    /// The last commit that was made.
    pub(crate) fn last(&self) -> PlainCommit
        ensures last { result ≡ self.now.last }
        ensures inside { IsInside self.now.size result }
    {
        self.last
    }

    /// The commit whose first half was made and whose second half was not.
    pub(crate) fn unfinished(&self) -> Option<PlainCommit>
        ensures unfinished { result ≡ self.now.unfinished }
        ensures inside { IfSome result (IsInside self.now.size) }
    {
        self.unfinished
    }

    /// The seq of the next entry.
    pub(crate) fn next_seq(&self) -> u64
        ensures { result ≡ next_seq self.now }
    {
        self.last.tail.seq + self.records.len() as u64
    }

    /// Puts the entry's record at the head. There is room for it (a condition). The one error is that memory
    /// ran out.
    pub(crate) fn enter(&mut self, entry: &Entry) -> Result<(), AllocError>
        requires { need (room_in self.old) (record_sectors entry.now) ≤ free (room_in self.old) }
        ensures { OnOk result (self.new ≡ with_record self.old entry.now) }
    {
        let sectors = record_sectors(entry);
        let mut room = self.room();
        let record = PlainRecord {
            pad: room.pad_before(sectors),
            at: room.position(sectors),
            sectors,
        };
        room.enter(sectors);
        self.records.push(record)?;
        self.head = room.head();
        Ok(())
    }

    /// The commit of all entries whose tail is at the entry with this seq.
    pub(crate) fn commit_from(&self, seq: u64) -> PlainCommit
        requires { seq ≤ max_seq }
        ensures commit { result ≡ commit_from seq self.now }
        ensures inside { IsInside self.now.size result }
    {
        let skipped = seq.saturating_sub(self.last.tail.seq);
        let position = place_of_first(self.head, self.records.as_slice(), skipped);
        PlainCommit {
            tail: Mark { position, seq },
            head: Mark {
                position: self.head,
                seq: seq.max(self.next_seq()),
            },
        }
    }

    /// The first half of this commit was made.
    pub(crate) fn begin(&mut self, commit: PlainCommit)
        requires { IsInside self.old.size commit }
        ensures { self.new ≡ record self.old { unfinished = Some commit } }
    {
        self.unfinished = Some(commit);
    }

    /// This commit was made: the records before its tail are released.
    pub(crate) fn make(&mut self, commit: PlainCommit)
        requires { IsInside self.old.size commit }
        ensures { self.new ≡ with_commit commit self.old }
    {
        let released = commit.tail.seq.saturating_sub(self.last.tail.seq);
        remove_first(&mut self.records, released);
        pass_pad(&mut self.records, commit.tail.position);
        self.last = commit;
        self.unfinished = None;
    }

    // Goes back to a commit: its head is the log's, and the records are those from its tail to its head.
    fn hold(&mut self, found: PlainCommit)
        requires { IsInside self.old.size found }
        ensures { self.new ≡ held_from found self.old }
    {
        let released = found.tail.seq.saturating_sub(self.last.tail.seq);
        remove_first(&mut self.records, released);
        self.records
            .truncate(found.head.seq.saturating_sub(found.tail.seq) as usize);
        self.head = found.head.position;
        self.last = found;
        self.unfinished = None;
    }

    /// Goes on after a commit that a mount found, and makes one whose tail is at the entry with this seq.
    pub(crate) fn mount(&mut self, found: PlainCommit, seq: u64)
        requires inside { IsInside self.old.size found }
        requires seq { seq ≤ max_seq }
        ensures { self.new ≡ mounted_log found seq self.old }
    {
        self.hold(found);
        let made = self.commit_from(seq);
        self.make(made);
    }
}

// The sectors that the records and the pads before them have. They fit into a log (a condition).
fn used_by(records: &[PlainRecord]) -> u64
    requires { used_by records.now ≤ max_log }
    ensures { result ≡ used_by records.now }
{
    let mut used = 0;
    for record in records {
        used += record.pad + record.sectors;
    }
    used
}

// Where the record after the first `skipped` ones stands, or else the head.
fn place_of_first(head: u64, records: &[PlainRecord], skipped: u64) -> u64
    ensures { result ≡ place_of_first head (drop skipped records.now) }
{
    match records.get(skipped as usize) {
        Some(first) => first.at,
        None => head,
    }
}

// Removes the first `count` records, or all where they are fewer.
fn remove_first(records: &mut Vec<PlainRecord>, count: u64)
    ensures { records.new.items ≡ drop count records.old.items }
{
    let removed = count.min(records.len() as u64) as usize;
    let left = records.len() - removed;
    records.as_mut_slice().rotate_left(removed);
    records.truncate(left);
}

// The pad before the first record is not in use where the tail is past it.
fn pass_pad(records: &mut Vec<PlainRecord>, tail: u64)
    ensures { records.new.items ≡ past_pad tail records.old.items }
{
    if let Some(first) = records.first_mut()
        && first.at == tail
    {
        first.pad = 0;
    }
}
