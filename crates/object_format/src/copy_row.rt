ghost use Rattle.std.specs.Prelude.{◌≡◌, ◌+◌, ◌*◌, ◌^◌, ◌<◌, ◌≤◌, ◌++◌, length, take, drop, None};
ghost use Rattle.std.specs.List.{flat_map, sum_by};
ghost use Rattle.object_format.specs.Layout.{copy_front_sectors};
ghost use Rattle.object_format.specs.Rows.{copy_row_bytes, copy_row_in, breaks_off, is_source};
ghost use Rattle.object_format.specs.Rows.{copy_may_follow, copy_may_stand, copy_rows_may_stand};

use crate::kind::Kind;
use crate::rows::is_inside;
use crate::{MAX_PAYLOAD, PLACE_AT, SECTORS_AT};
use lsvd_bytes::{read_u32, read_u64, write_u32, write_u64};

/// Where data stand: a place in the payload of an object.
#[derive(Clone, Copy, Debug, PartialEq, Eq)]
pub struct Source {
    /// How many clones lie between the volume and the object: 0 is for an object of the volume's own.
    pub level: u32,
    /// The number of the object.
    pub number: u64,
    /// The sector of its payload at which the data begin.
    pub place: u64,
}

/// Sectors of the volume whose data are copied from an older object.
#[derive(Clone, Copy, Debug, PartialEq, Eq)]
pub struct CopyRow {
    /// The first of them.
    pub lba: u64,
    /// How many they are, at least 1.
    pub sectors: u64,
    /// The sector of the payload at which their data begin.
    pub place: u64,
    /// Where the data were copied from.
    pub source: Source,
}

impl CopyRow {
    /// The bytes of a row.
    pub(crate) const BYTES: usize = 44;

    // Where the level of the source stands, in 4 bytes.
    const LEVEL_AT: usize = 24;

    // Where the number of the source stands, in 8 bytes.
    const SOURCE_NUMBER_AT: usize = 28;

    // Where the place of the source stands, in 8 bytes.
    const SOURCE_PLACE_AT: usize = 36;

    /// The row that the bytes begin with.
    pub(crate) fn read(bytes: &[u8]) -> CopyRow
        requires { 44 ≤ length bytes.now }
        ensures { result ≡ copy_row_in bytes.now }
    {
        CopyRow {
            lba: read_u64(bytes, 0),
            sectors: read_u64(bytes, SECTORS_AT),
            place: read_u64(bytes, PLACE_AT),
            source: Source {
                level: read_u32(bytes, Self::LEVEL_AT),
                number: read_u64(bytes, Self::SOURCE_NUMBER_AT),
                place: read_u64(bytes, Self::SOURCE_PLACE_AT),
            },
        }
    }

    // Writes it into the 44 bytes from `at` on.
    fn write(&self, bytes: &mut [u8], at: usize)
        requires { at + 44 ≤ length bytes.old }
        ensures { bytes.new ≡ take at bytes.old ++ copy_row_bytes self.now ++ drop (at + 44) bytes.old }
    {
        write_u64(bytes, at, self.lba);
        write_u64(bytes, at + SECTORS_AT, self.sectors);
        write_u64(bytes, at + PLACE_AT, self.place);
        write_u32(bytes, at + Self::LEVEL_AT, self.source.level);
        write_u64(bytes, at + Self::SOURCE_NUMBER_AT, self.source.number);
        write_u64(bytes, at + Self::SOURCE_PLACE_AT, self.source.place);
    }

    // Whether it may stand after the row before it, or as the first, with its payload at a place, in the
    // object with this number.
    fn may_stand(
        &self,
        volume: u64,
        payload: u64,
        number: u64,
        before: Option<CopyRow>,
        place: u64,
    ) -> bool
        requires { place ≤ payload }
        ensures { result ≡ copy_may_stand volume payload number before place self.now }
    {
        is_inside(volume, self.lba, self.sectors)
            && self.may_follow(before)
            && self.place == place
            && self.sectors <= payload - place
            && self.has_source(number)
    }

    // Whether its source is payload of an object of the volume's own, older than the one with this number.
    fn has_source(&self, number: u64) -> bool
        ensures { result ≡ is_source number self.now.sectors self.now.source }
    {
        self.source.level == 0
            && self.source.number < number
            && self.source.place <= MAX_PAYLOAD
            && self.sectors <= MAX_PAYLOAD - self.source.place
    }

    // Whether it begins where the row before it ends, or past that, and is not one row with it.
    fn may_follow(&self, before: Option<CopyRow>) -> bool
        ensures { result ≡ copy_may_follow before self.now }
    {
        let Some(before) = before else {
            return true;
        };
        let Some(gap) = self.lba.checked_sub(before.lba) else {
            return false;
        };
        before.sectors < gap || (before.sectors == gap && before.breaks_off(&self.source))
    }

    // Whether the source does not go on where its own ends.
    fn breaks_off(&self, source: &Source) -> bool
        ensures { result ≡ breaks_off self.now source.now }
    {
        self.source.level != source.level
            || self.source.number != source.number
            || source.place.checked_sub(self.source.place) != Some(self.sectors)
    }
}

/// Whether these may be the rows of the copy with this number, for a volume and a payload of this many
/// sectors.
pub(crate) fn copy_rows_may_stand(rows: &[CopyRow], volume: u64, payload: u64, number: u64) -> bool
    ensures { result ≡ copy_rows_may_stand volume payload number None 0 rows.now }
{
    let mut before = None;
    let mut place = 0;
    for row in rows {
        if !row.may_stand(volume, payload, number, before, place) {
            return false;
        }
        place += row.sectors;
        before = Some(*row);
    }
    place == payload
}

/// The sectors of a copy before its payload, if it has so many rows: at most 65,536, the most of an object (a
/// condition).
pub fn copy_front_sectors(rows: u64) -> u64
    requires { rows ≤ 65536 }
    ensures { result ≡ copy_front_sectors rows }
{
    Kind::Copy.front_sectors(rows as u32)
}

/// The sectors of the payload of rows, which are fewer than 2^64 (a condition).
pub fn copies_payload(rows: &[CopyRow]) -> u64
    requires { sum_by (λ row. row.sectors) rows.now < 2 ^ 64 }
    ensures { result ≡ sum_by (λ row. row.sectors) rows.now }
{
    rows.iter().map(|row| row.sectors).sum()
}

/// Writes rows into as many bytes as they have.
pub(crate) fn write_copy_rows(rows: &[CopyRow], bytes: &mut [u8])
    requires { length bytes.old ≡ 44 * length rows.now }
    ensures { bytes.new ≡ flat_map copy_row_bytes rows.now }
{
    for (index, row) in rows.iter().enumerate() {
        row.write(bytes, CopyRow::BYTES * index);
    }
}
