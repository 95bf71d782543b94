ghost use Rattle.std.specs.Prelude.{◌≡◌, ◌+◌, ◌*◌, ◌^◌, ◌<◌, ◌≤◌, ◌++◌, length, take, drop, None};
ghost use Rattle.std.specs.List.{flat_map, sum_by};
ghost use Rattle.object_format.specs.Layout.{data_front_sectors};
ghost use Rattle.object_format.specs.Rows.{place_number, place_from, data_row_bytes, data_row_in};
ghost use Rattle.object_format.specs.Rows.{data_payload, is_at, data_may_follow, data_may_stand};
ghost use Rattle.object_format.specs.Rows.{data_rows_may_stand};

use crate::kind::Kind;
use crate::rows::is_inside;
use crate::{PLACE_AT, SECTORS_AT};
use lsvd_bytes::{read_u64, write_u64};

/// Sectors of the volume that entries wrote.
#[derive(Clone, Copy, Debug, PartialEq, Eq)]
pub struct DataRow {
    /// The first of them.
    pub lba: u64,
    /// How many they are, at least 1.
    pub sectors: u64,
    /// The sector of the payload at which their data begin. None is for zeros, which have no payload.
    pub place: Option<u64>,
}

impl DataRow {
    /// The bytes of a row.
    pub(crate) const BYTES: usize = 24;

    // The number that stands for no place.
    const NO_PLACE: u64 = u64::MAX;

    /// The row that the bytes begin with.
    pub(crate) fn read(bytes: &[u8]) -> DataRow
        requires { 24 ≤ length bytes.now }
        ensures { result ≡ data_row_in bytes.now }
    {
        DataRow {
            lba: read_u64(bytes, 0),
            sectors: read_u64(bytes, SECTORS_AT),
            place: Self::place_from(read_u64(bytes, PLACE_AT)),
        }
    }

    // The place with this number.
    fn place_from(number: u64) -> Option<u64>
        ensures { result ≡ place_from number }
    {
        if number == Self::NO_PLACE {
            None
        } else {
            Some(number)
        }
    }

    // Writes it into the 24 bytes from `at` on.
    fn write(&self, bytes: &mut [u8], at: usize)
        requires { at + 24 ≤ length bytes.old }
        ensures { bytes.new ≡ take at bytes.old ++ data_row_bytes self.now ++ drop (at + 24) bytes.old }
    {
        write_u64(bytes, at, self.lba);
        write_u64(bytes, at + SECTORS_AT, self.sectors);
        write_u64(bytes, at + PLACE_AT, self.place_number());
    }

    // The number of its place.
    fn place_number(&self) -> u64
        ensures { result ≡ place_number self.now.place }
    {
        self.place.unwrap_or(Self::NO_PLACE)
    }

    /// The sectors of its payload.
    pub fn payload_sectors(&self) -> u64
        ensures { result ≡ data_payload self.now }
    {
        match self.place {
            Some(_) => self.sectors,
            None => 0,
        }
    }

    // Whether it may stand after the row before it, or as the first, with its payload at a place.
    fn may_stand(&self, volume: u64, payload: u64, before: Option<DataRow>, place: u64) -> bool
        requires { place ≤ payload }
        ensures { result ≡ data_may_stand volume payload before place self.now }
    {
        is_inside(volume, self.lba, self.sectors)
            && self.may_follow(before)
            && self.is_at(place)
            && self.payload_sectors() <= payload - place
    }

    // Whether its payload, if it has one, is at this place.
    fn is_at(&self, place: u64) -> bool
        ensures { result ≡ is_at place self.now.place }
    {
        match self.place {
            Some(at) => at == place,
            None => true,
        }
    }

    // Whether it begins where the row before it ends, or past that, and is not one row with it.
    fn may_follow(&self, before: Option<DataRow>) -> bool
        ensures { result ≡ data_may_follow before self.now }
    {
        let Some(before) = before else {
            return true;
        };
        let Some(gap) = self.lba.checked_sub(before.lba) else {
            return false;
        };
        before.sectors < gap
            || (before.sectors == gap && before.place.is_some() != self.place.is_some())
    }
}

/// Whether these may be the rows of a data object, for a volume and a payload of this many sectors.
pub(crate) fn data_rows_may_stand(rows: &[DataRow], volume: u64, payload: u64) -> bool
    ensures { result ≡ data_rows_may_stand volume payload None 0 rows.now }
{
    let mut before = None;
    let mut place = 0;
    for row in rows {
        if !row.may_stand(volume, payload, before, place) {
            return false;
        }
        place += row.payload_sectors();
        before = Some(*row);
    }
    place == payload
}

/// The sectors of a data object before its payload, if it has so many rows: at most 65,536, the most of an
/// object (a condition). A sector of the payload stands so many sectors further on in the object.
pub fn data_front_sectors(rows: u64) -> u64
    requires { rows ≤ 65536 }
    ensures { result ≡ data_front_sectors rows }
{
    Kind::Data.front_sectors(rows as u32)
}

/// The sectors of the payload of rows.
pub(crate) fn data_payload(rows: &[DataRow]) -> u64
    requires { sum_by data_payload rows.now < 2 ^ 64 }
    ensures { result ≡ sum_by data_payload rows.now }
{
    rows.iter().map(|row| row.payload_sectors()).sum()
}

/// Writes rows into as many bytes as they have.
pub(crate) fn write_data_rows(rows: &[DataRow], bytes: &mut [u8])
    requires { length bytes.old ≡ 24 * length rows.now }
    ensures { bytes.new ≡ flat_map data_row_bytes rows.now }
{
    for (index, row) in rows.iter().enumerate() {
        row.write(bytes, DataRow::BYTES * index);
    }
}
