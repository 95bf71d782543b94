ghost use Rattle.std.specs.Prelude.{◌≡◌, ◌^◌, ◌<◌};
ghost use Rattle.log_record.specs.Numbers.{kind_of, lba_of, sectors_of};
ghost use Rattle.log_record.specs.Grammar.{head_of, size_of};

use crate::{PAD_KIND, WRITE_KIND, ZERO_KIND};
use lsvd_base::Entry;

/// What a header says.
#[derive(Clone, Copy, Debug, PartialEq, Eq)]
pub enum Head {
    /// The data of `sectors` sectors, from `lba` of the volume on, follow the header.
    Write { lba: u64, sectors: u64 },
    /// `sectors` sectors, from `lba` of the volume on, are zeros.
    Zero { lba: u64, sectors: u64 },
    /// `sectors` sectors of the log after the header, up to the log's end, have no record.
    Pad { sectors: u64 },
}

impl Head {
    /// What the header of an entry says.
    pub fn of(entry: &Entry) -> Head
        ensures { result ≡ head_of entry.now }
    {
        match entry {
            Entry::Write { lba, body } => Head::Write {
                lba: *lba,
                sectors: body.sectors(),
            },
            Entry::Zero { lba, sectors } => Head::Zero {
                lba: *lba,
                sectors: *sectors,
            },
        }
    }

    /// The sectors of the log that the header and what belongs to it take. It names fewer than 2^63
    /// (a condition).
    pub fn size(&self) -> u64
        requires { sectors_of self.now < 2 ^ 63 }
        ensures { result ≡ size_of self.now }
    {
        match self {
            Head::Write { sectors, .. } | Head::Pad { sectors } => 1 + *sectors,
            Head::Zero { .. } => 1,
        }
    }

    // The number of its kind.
    pub(crate) fn kind(&self) -> u32
        ensures { result ≡ kind_of self.now }
    {
        match self {
            Head::Write { .. } => WRITE_KIND,
            Head::Zero { .. } => ZERO_KIND,
            Head::Pad { .. } => PAD_KIND,
        }
    }

    // The first sector of the volume that it changes, and 0 for a pad.
    pub(crate) fn lba(&self) -> u64
        ensures { result ≡ lba_of self.now }
    {
        match self {
            Head::Write { lba, .. } | Head::Zero { lba, .. } => *lba,
            Head::Pad { .. } => 0,
        }
    }

    // How many sectors it names.
    pub(crate) fn sectors(&self) -> u64
        ensures { result ≡ sectors_of self.now }
    {
        match self {
            Head::Write { sectors, .. } | Head::Zero { sectors, .. } | Head::Pad { sectors } => {
                *sectors
            }
        }
    }
}

/// Where a header is read, and what it is held against.
#[derive(Clone, Copy, Debug, PartialEq, Eq)]
pub struct Place {
    /// The sector of the log at which the header stands.
    pub position: u64,
    /// The sectors from there on to the committed head, round the log's end (the whole log where
    /// the log is full).
    pub to_head: u64,
    /// Whether the record expected here is the last before the committed head.
    pub is_last: bool,
}
