ghost use Rattle.std.specs.Prelude.{◌≡◌, ◌+◌, ◌*◌, ◌≤◌, ◌==◌};
ghost use Rattle.object_format.specs.Layout.{rows_end, front_sectors, length_of};

use crate::HEADER_BYTES;
use crate::kind::Kind;
use lsvd_base::SECTOR_BYTES;

/// What the header of an object says.
#[derive(Clone, Copy, Debug, PartialEq, Eq)]
pub struct Header {
    /// What the object holds.
    pub kind: Kind,
    /// The volume's uuid.
    pub uuid: [u8; 16],
    /// The number of the object.
    pub number: u64,
    /// The seq of the first entry that it holds.
    pub first_seq: u64,
    /// The seq after the last entry that it holds: the first seq where it holds none.
    pub end_seq: u64,
    /// How many rows it has.
    pub rows: u32,
    /// The sectors of its payload.
    pub payload: u64,
}

impl Header {
    /// Where the rows end, in bytes from the object's begin on.
    pub(crate) fn rows_end(&self) -> u64
        ensures is { result ≡ rows_end self.now }
        ensures bound { result ≤ 64 + 44 * self.now.rows }
    {
        HEADER_BYTES as u64 + self.kind.rows_bytes(self.rows)
    }

    /// The sectors of the header, the rows and the zeros after them: the payload stands after these.
    pub fn front_sectors(&self) -> u64
        ensures { result ≡ front_sectors self.now }
    {
        self.kind.front_sectors(self.rows)
    }

    /// Whether an object with this header has this many bytes.
    pub(crate) fn has_length(&self, bytes: u64) -> bool
        ensures { result ≡ (bytes == length_of self.now) }
    {
        let sectors = bytes / SECTOR_BYTES;
        let front = self.front_sectors();
        bytes % SECTOR_BYTES == 0 && front <= sectors && sectors - front == self.payload
    }
}
