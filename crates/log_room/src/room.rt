ghost use Rattle.std.specs.Prelude.{◌≡◌, ◌+◌, ◌^◌, ◌<◌, ◌≤◌};
ghost use Rattle.log_room.specs.Room.{max_log, IsRoom, room_of, empty_log, record_sectors};
ghost use Rattle.log_room.specs.Room.{pad_before, need, free, position, after_record};
ghost use Rattle.log_room.specs.Room.{after_release, distance};

use lsvd_base::{Entry, SECTOR_BYTES};
use std::marker::Model;

/// The room of a circular log, in sectors.
///
/// A record is not split: where it does not fit between the head and the log's end, a pad takes
/// those sectors, and the record stands at the log's beginning.
#[derive(Clone, Copy, Debug, PartialEq, Eq)]
pub struct LogRoom {
    log: u64,
    head: u64,
    used: u64,
}

impl Model for LogRoom {
    ghost use Rattle.log_room.specs.Room.{Room, IsRoom, room_of};

    ghost Value = { Room };

    ghost view = { λ r. room_of r.log r.head r.used };

    ghost invariant = { λ r. IsRoom (room_of r.log r.head r.used) };

    ghost inverse = { λ r. record { log = r.log; head = r.head; used = r.used } };
}

impl LogRoom {
    /// A log of `log` sectors, at least 1 and at most 2^31 (conditions), with nothing in it and its
    /// head at 0.
    pub fn new(log: u64) -> LogRoom
        requires some { 0 < log }
        requires limit { log ≤ max_log }
        ensures { result ≡ empty_log log }
    {
        LogRoom::at(log, 0, 0)
    }

    /// A log of `log` sectors, at most 2^31, with its head below its end and `used` sectors in use,
    /// at most all (conditions).
    pub fn at(log: u64, head: u64, used: u64) -> LogRoom
        requires limit { log ≤ max_log }
        requires head { head < log }
        requires used { used ≤ log }
        ensures { result ≡ room_of log head used }
    {
        LogRoom { log, head, used }
    }

    /// How many sectors the log has.
    pub fn sectors(&self) -> u64
        ensures { result ≡ self.now.log }
    {
        self.log
    }

    /// The sector at which the next record stands, if it fits before the log's end.
    pub fn head(&self) -> u64
        ensures head { result ≡ self.now.head }
        ensures kept { IsRoom self.now }
    {
        self.head
    }

    /// How many sectors are in use, pads included.
    pub fn used(&self) -> u64
        ensures used { result ≡ self.now.used }
        ensures kept { IsRoom self.now }
    {
        self.used
    }

    /// How many sectors are not in use.
    pub fn free(&self) -> u64
        ensures free { result ≡ free self.now }
        ensures kept { IsRoom self.now }
    {
        self.log - self.used
    }

    /// The sectors of the pad before a record of `sectors` sectors: 0 where it fits before the
    /// log's end.
    pub fn pad_before(&self, sectors: u64) -> u64
        ensures { result ≡ pad_before self.now sectors }
    {
        let to_end = self.log - self.head;
        if sectors <= to_end { 0 } else { to_end }
    }

    /// The sectors that a record of `sectors` sectors takes, with the pad before it. It has fewer
    /// than 2^63 (a condition).
    pub fn need(&self, sectors: u64) -> u64
        requires { sectors < 2 ^ 63 }
        ensures { result ≡ need self.now sectors }
    {
        self.pad_before(sectors) + sectors
    }

    /// The sector at which a record of `sectors` sectors will stand.
    pub fn position(&self, sectors: u64) -> u64
        ensures { result ≡ position self.now sectors }
    {
        if self.pad_before(sectors) == 0 {
            self.head
        } else {
            0
        }
    }

    /// Puts a record of `sectors` sectors, and the pad that it needs, at the head. There is room
    /// for both (a condition).
    pub fn enter(&mut self, sectors: u64)
        requires { need self.old sectors ≤ free self.old }
        ensures { self.new ≡ after_record self.old sectors }
    {
        let end = self.position(sectors) + sectors;
        self.used += self.need(sectors);
        self.head = if end == self.log { 0 } else { end };
    }

    /// Moves the tail on by `sectors` sectors that were in use (a condition), which are free from
    /// then on.
    pub fn release(&mut self, sectors: u64)
        requires { sectors ≤ self.old.used }
        ensures { self.new ≡ after_release self.old sectors }
    {
        self.used -= sectors;
    }
}

/// How many sectors the entry's record has: a header, and the data of a write.
pub fn record_sectors(entry: &Entry) -> u64
    ensures sectors { result ≡ record_sectors entry.now }
    ensures small { result < 2 ^ 63 }
{
    match entry {
        Entry::Write { body, .. } => 1 + body.as_bytes().len() as u64 / SECTOR_BYTES,
        Entry::Zero { .. } => 1,
    }
}

/// How many sectors there are from the sector `from` on to the sector `to` of a log of `log` sectors, going
/// on from the log's end at its beginning: a whole log where they are one sector. A log has at most 2^31
/// sectors, and both sectors are below its end (conditions).
pub fn distance(log: u64, from: u64, to: u64) -> u64
    requires log { log ≤ max_log }
    requires from { from < log }
    requires to { to < log }
    ensures distance { result ≡ distance log from to }
    ensures most { result ≤ log }
{
    if from < to {
        to - from
    } else {
        log - from + to
    }
}
