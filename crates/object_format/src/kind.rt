ghost use Rattle.std.specs.Prelude.{◌≡◌, ◌*◌, ◌≤◌};
ghost use Rattle.object_format.specs.Layout.{number_of, kind_from, rows_length, front_with};

use crate::HEADER_BYTES;
use lsvd_base::SECTOR_BYTES;

/// What an object holds.
#[derive(Clone, Copy, Debug, PartialEq, Eq)]
pub enum Kind {
    /// What entries of the log wrote.
    Data,
    /// Data of older objects, again.
    Copy,
    /// The rows of the volume's map.
    Checkpoint,
}

impl Kind {
    /// Its number.
    pub(crate) fn number(self) -> u32
        ensures { result ≡ number_of self }
    {
        match self {
            Kind::Data => 1,
            Kind::Copy => 2,
            Kind::Checkpoint => 3,
        }
    }

    /// The kind with this number. None is for a number that is no kind's.
    pub(crate) fn from_number(number: u32) -> Option<Kind>
        ensures { result ≡ kind_from number }
    {
        match number {
            1 => Some(Kind::Data),
            2 => Some(Kind::Copy),
            3 => Some(Kind::Checkpoint),
            _ => None,
        }
    }

    /// The bytes of this many rows.
    pub(crate) fn rows_bytes(self, rows: u32) -> u64
        ensures is { result ≡ rows_length self rows }
        ensures bound { result ≤ 44 * rows }
    {
        let rows = u64::from(rows);
        match self {
            Kind::Data => 24 * rows,
            Kind::Copy => 44 * rows,
            Kind::Checkpoint => 36 * rows,
        }
    }

    /// The sectors of the header, this many rows and the zeros after them.
    pub(crate) fn front_sectors(self, rows: u32) -> u64
        ensures { result ≡ front_with self rows }
    {
        (HEADER_BYTES as u64 + self.rows_bytes(rows) + (SECTOR_BYTES - 1)) / SECTOR_BYTES
    }
}
