ghost use Rattle.std.specs.Prelude.{◌≡◌, ◌+◌, ◌-◌, ◌^◌, ◌<◌, ◌≤◌};
ghost use Rattle.log_room.specs.Room.{max_log};
ghost use Rattle.cache_log.specs.Rows.{seq_of, position_of, record_size, sectors_taken, next};
ghost use Rattle.cache_log.specs.Log.{row_of};

use lsvd_base::Entry;

/// What the log keeps in memory of a record, under its seq: all but its data.
#[derive(Clone, Copy, Debug, PartialEq, Eq)]
pub enum Row {
    /// The record of a write of `sectors` sectors from `lba` on. Its header stands at the sector
    /// `at` of the log, and its data after it.
    Write {
        seq: u64,
        at: u64,
        lba: u64,
        sectors: u64,
    },
    /// The record of a zeroing of `sectors` sectors from `lba` on, at the sector `at` of the log.
    Zero {
        seq: u64,
        at: u64,
        lba: u64,
        sectors: u64,
    },
}

impl Row {
    // The row of an entry whose record has a seq and stands at a sector of the log.
    pub(crate) fn of(seq: u64, at: u64, entry: &Entry) -> Row
        ensures { result ≡ row_of seq at entry.now }
    {
        match entry {
            Entry::Write { lba, body } => Row::Write {
                seq,
                at,
                lba: *lba,
                sectors: body.sectors(),
            },
            Entry::Zero { lba, sectors } => Row::Zero {
                seq,
                at,
                lba: *lba,
                sectors: *sectors,
            },
        }
    }

    // The seq of the record.
    pub(crate) fn seq(&self) -> u64
        ensures { result ≡ seq_of self.now }
    {
        match self {
            Row::Write { seq, .. } | Row::Zero { seq, .. } => *seq,
        }
    }

    /// The sector of the log at which the record stands; the data of a write begin one sector further on.
    pub fn position(&self) -> u64
        ensures { result ≡ position_of self.now }
    {
        match self {
            Row::Write { at, .. } | Row::Zero { at, .. } => *at,
        }
    }

    // The sectors of the log that the record has.
    fn size(&self) -> u64
        requires { record_size self.now ≤ max_log }
        ensures { result ≡ record_size self.now }
    {
        match self {
            Row::Write { sectors, .. } => 1 + *sectors,
            Row::Zero { .. } => 1,
        }
    }

    // The sectors of a log of `log` sectors that the record takes from a sector on, with the pad
    // before it.
    pub(crate) fn sectors_taken(&self, log: u64, from: u64) -> u64
        requires log { log ≤ max_log }
        requires from { from < log }
        requires size { record_size self.now ≤ log }
        ensures { result ≡ sectors_taken log from self.now }
    {
        if self.position() < from {
            log - from + self.size()
        } else {
            self.size()
        }
    }

    // The sector of a log of `log` sectors after the record: the log's end is its beginning.
    pub(crate) fn next(&self, log: u64) -> u64
        requires log { log ≤ max_log }
        requires inside { position_of self.now + record_size self.now ≤ log }
        ensures { result ≡ next log self.now }
    {
        let end = self.position() + self.size();
        if end == log { 0 } else { end }
    }
}
