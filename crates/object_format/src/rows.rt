ghost use Rattle.std.specs.Prelude.{◌≡◌, ◌^◌, ◌<◌, length};
ghost use Rattle.object_format.specs.Layout.{rows_length};
ghost use Rattle.object_format.specs.Rows.{is_inside, may_stand, rows_kind, count_of, rows_bytes};
ghost use Rattle.object_format.specs.Writing.{payload_of, object_header_of};

use crate::copy_row::{CopyRow, copies_payload, copy_rows_may_stand, write_copy_rows};
use crate::data_row::{DataRow, data_payload, data_rows_may_stand, write_data_rows};
use crate::expected::Expected;
use crate::header::Header;
use crate::kind::Kind;

/// The rows of an object, by its kind.
#[derive(Debug, Drop, PartialEq, Eq)]
pub enum Rows {
    /// Those of a data object.
    Data(Vec<DataRow>),
    /// Those of a copy.
    Copy(Vec<CopyRow>),
    /// A checkpoint without rows.
    Checkpoint,
}

impl Rows {
    /// Whether the rows keep their one spelling in an object with this header, for a volume of this many
    /// sectors.
    pub fn may_stand(&self, volume: u64, header: &Header) -> bool
        ensures { result ≡ may_stand volume header.now self.now }
    {
        match self {
            Rows::Data(rows) => data_rows_may_stand(rows.as_slice(), volume, header.payload),
            Rows::Copy(rows) => {
                copy_rows_may_stand(rows.as_slice(), volume, header.payload, header.number)
            }
            Rows::Checkpoint => header.payload == 0,
        }
    }

    /// The header of the expected object with these rows, which holds the entries from the first seq up to
    /// the end seq. There are fewer than 2^32 rows, with fewer than 2^64 sectors of payload (conditions).
    pub fn header(&self, expected: &Expected, first_seq: u64, end_seq: u64) -> Header
        requires count { count_of self.now < 2 ^ 32 }
        requires payload { payload_of self.now < 2 ^ 64 }
        ensures { result ≡ object_header_of expected.now first_seq end_seq self.now }
    {
        Header {
            kind: self.kind(),
            uuid: expected.uuid,
            number: expected.number,
            first_seq,
            end_seq,
            rows: self.count(),
            payload: self.payload_sectors(),
        }
    }

    // The kind of object that has such rows.
    fn kind(&self) -> Kind
        ensures { result ≡ rows_kind self.now }
    {
        match self {
            Rows::Data(_) => Kind::Data,
            Rows::Copy(_) => Kind::Copy,
            Rows::Checkpoint => Kind::Checkpoint,
        }
    }

    // How many rows there are.
    fn count(&self) -> u32
        requires { count_of self.now < 2 ^ 32 }
        ensures { result ≡ count_of self.now }
    {
        match self {
            Rows::Data(rows) => rows.len() as u32,
            Rows::Copy(rows) => rows.len() as u32,
            Rows::Checkpoint => 0,
        }
    }

    // The sectors of their payload.
    fn payload_sectors(&self) -> u64
        requires { payload_of self.now < 2 ^ 64 }
        ensures { result ≡ payload_of self.now }
    {
        match self {
            Rows::Data(rows) => data_payload(rows.as_slice()),
            Rows::Copy(rows) => copies_payload(rows.as_slice()),
            Rows::Checkpoint => 0,
        }
    }

    /// Writes the rows into as many bytes as they have.
    pub(crate) fn write(&self, bytes: &mut [u8])
        requires { length bytes.old ≡ rows_length (rows_kind self.now) (count_of self.now) }
        ensures { bytes.new ≡ rows_bytes self.now }
    {
        match self {
            Rows::Data(rows) => write_data_rows(rows.as_slice(), bytes),
            Rows::Copy(rows) => write_copy_rows(rows.as_slice(), bytes),
            Rows::Checkpoint => {}
        }
    }
}

/// Whether there are sectors, and all of them from `lba` on are inside a volume of this many.
pub(crate) fn is_inside(volume: u64, lba: u64, sectors: u64) -> bool
    ensures { result ≡ is_inside volume lba sectors }
{
    0 < sectors && sectors <= volume && lba <= volume - sectors
}
