ghost use Rattle.std.specs.Prelude.{◌≡◌, ◌+◌, ◌<◌, ◌≤◌, ◌^◌, ℕ, false, length, IfSome};
ghost use Rattle.std.specs.List.{sum_by};
ghost use Rattle.extent_map.specs.Extents.{place_at, place_after_set, place_after_clear};
ghost use Rattle.object_table.specs.Table.{row_of, live_of};
ghost use Rattle.volume_maps.specs.Places.{object_on};
ghost use Rattle.volume_maps.specs.Maps.{settled_by_row, settled_by, RowFits, RowsFit};
ghost use Rattle.volume_maps.specs.Maps.{settled_by_copy_row, settled_by_copy, CopyRowFits, CopyRowsFit};
ghost use Rattle.volume_maps.specs.Live.{MayGain, HasSameObjects};
ghost use Rattle.volume_maps.specs.Kept.{IsKept, IsCountedBut, after_loss, after_gain, place_in_copy};

use crate::place::ObjectPlace;
use extent_map::{Extent, ExtentMap};
use object_format::{CopyRow, DataRow};
use object_table::ObjectTable;

/// Settles the rows of the data object of this number in a map, whose counts nobody keeps: as a map has them
/// later, of which a copy was made. There is room for a change for each row, and the rows end below 2^63 and
/// their places in the payload below 2^32 (conditions). It takes no memory.
pub fn settle_rows(map: &mut ExtentMap<ObjectPlace>, number: u64, rows: &[DataRow])
    requires room { length rows.now ≤ map.old.spare }
    requires fits { RowsFit rows.now }
    ensures places { (k : ℕ) → place_at object_on map.new.rows k ≡ settled_by number rows.now
        (place_at object_on map.old.rows k) k }
    ensures spare { map.old.spare ≤ map.new.spare + length rows.now }
{
    for row in rows {
        settle_in(map, number, row);
    }
}

// Settles one row of a data object in a map.
fn settle_in(map: &mut ExtentMap<ObjectPlace>, number: u64, row: &DataRow)
    requires room { 1 ≤ map.old.spare }
    requires fits { RowFits row.now }
    ensures places { (k : ℕ) → place_at object_on map.new.rows k ≡ settled_by_row number row.now
        (place_at object_on map.old.rows k) k }
    ensures spare { map.old.spare ≤ map.new.spare + 1 }
{
    match row.place {
        Some(place) => map.set(row.lba, row.sectors, own_place(number, place)),
        None => map.clear(row.lba, row.sectors),
    }
}

// Settles the rows of a data object in the objects' map, whose sectors a table counts.
pub(crate) fn settle_rows_counted(
    settled: &mut ExtentMap<ObjectPlace>,
    objects: &mut ObjectTable,
    number: u64,
    rows: &[DataRow],
)
    requires room { length rows.now ≤ settled.old.spare }
    requires fits { RowsFit rows.now }
    requires object { MayGain number objects.old }
    requires kept { IsKept settled.old.rows objects.old }
    ensures places { (k : ℕ) → place_at object_on settled.new.rows k ≡ settled_by number rows.now
        (place_at object_on settled.old.rows k) k }
    ensures spare { settled.old.spare ≤ settled.new.spare + length rows.now }
    ensures kept { IsKept settled.new.rows objects.new }
    ensures same { HasSameObjects objects.old objects.new }
    ensures object_spare { objects.new.spare ≡ objects.old.spare }
{
    for row in rows {
        settle_counted(settled, objects, number, row);
    }
}

// Settles one row of a data object there, as `settle_in` does in a map alone.
fn settle_counted(
    settled: &mut ExtentMap<ObjectPlace>,
    objects: &mut ObjectTable,
    number: u64,
    row: &DataRow,
)
    requires room { 1 ≤ settled.old.spare }
    requires fits { RowFits row.now }
    requires object { MayGain number objects.old }
    requires kept { IsKept settled.old.rows objects.old }
    ensures places { (k : ℕ) → place_at object_on settled.new.rows k ≡ settled_by_row number row.now
        (place_at object_on settled.old.rows k) k }
    ensures spare { settled.old.spare ≤ settled.new.spare + 1 }
    ensures kept { IsKept settled.new.rows objects.new }
    ensures same { HasSameObjects objects.old objects.new }
    ensures object_spare { objects.new.spare ≡ objects.old.spare }
{
    match row.place {
        Some(place) => {
            let place = own_place(number, place);
            set_counted(settled, objects, row.lba, row.sectors, place);
        }
        None => clear_counted(settled, objects, row.lba, row.sectors),
    }
}

/// Settles the rows of the copy of this number in a map, whose counts nobody keeps, as `settle_rows` does
/// those of a data object. There is room for a change for each sector of the rows, and the rows end below
/// 2^63 and their places in the payload below 2^32 (conditions). It takes no memory.
pub fn settle_copies(map: &mut ExtentMap<ObjectPlace>, number: u64, rows: &[CopyRow])
    requires room { sum_by (λ row. row.sectors) rows.now ≤ map.old.spare }
    requires fits { CopyRowsFit rows.now }
    ensures places { (k : ℕ) → place_at object_on map.new.rows k ≡ settled_by_copy number rows.now
        (place_at object_on map.old.rows k) k }
    ensures spare { map.old.spare ≤ map.new.spare + sum_by (λ row. row.sectors) rows.now }
{
    for row in rows {
        settle_copy_in(map, number, row);
    }
}

// Settles one row of a copy in a map: each part of its sectors that the map has still in the row's source.
fn settle_copy_in(map: &mut ExtentMap<ObjectPlace>, number: u64, row: &CopyRow)
    requires room { row.now.sectors ≤ map.old.spare }
    requires fits { CopyRowFits row.now }
    ensures places { (k : ℕ) → place_at object_on map.new.rows k ≡ settled_by_copy_row number row.now
        (place_at object_on map.old.rows k) k }
    ensures spare { map.old.spare ≤ map.new.spare + row.now.sectors }
{
    let (mut from, end) = (row.lba, row.lba + row.sectors);
    while let Some(part) = map.first_in(from, end - from) {
        if let Some(place) = place_in_copy(number, row, &part) {
            map.set(part.lba, part.sectors, place);
        }
        from = part.lba + part.sectors;
    }
}

// Settles the rows of a copy in the objects' map, whose sectors a table counts.
pub(crate) fn settle_copies_counted(
    settled: &mut ExtentMap<ObjectPlace>,
    objects: &mut ObjectTable,
    number: u64,
    rows: &[CopyRow],
)
    requires room { sum_by (λ row. row.sectors) rows.now ≤ settled.old.spare }
    requires fits { CopyRowsFit rows.now }
    requires object { MayGain number objects.old }
    requires kept { IsKept settled.old.rows objects.old }
    ensures places { (k : ℕ) → place_at object_on settled.new.rows k ≡ settled_by_copy number rows.now
        (place_at object_on settled.old.rows k) k }
    ensures spare { settled.old.spare ≤ settled.new.spare + sum_by (λ row. row.sectors) rows.now }
    ensures kept { IsKept settled.new.rows objects.new }
    ensures same { HasSameObjects objects.old objects.new }
    ensures object_spare { objects.new.spare ≡ objects.old.spare }
{
    for row in rows {
        settle_copy_counted(settled, objects, number, row);
    }
}

// Settles one row of a copy there, as `settle_copy_in` does in a map alone.
fn settle_copy_counted(
    settled: &mut ExtentMap<ObjectPlace>,
    objects: &mut ObjectTable,
    number: u64,
    row: &CopyRow,
)
    requires room { row.now.sectors ≤ settled.old.spare }
    requires fits { CopyRowFits row.now }
    requires object { MayGain number objects.old }
    requires kept { IsKept settled.old.rows objects.old }
    ensures places { (k : ℕ) → place_at object_on settled.new.rows k ≡ settled_by_copy_row number row.now
        (place_at object_on settled.old.rows k) k }
    ensures spare { settled.old.spare ≤ settled.new.spare + row.now.sectors }
    ensures kept { IsKept settled.new.rows objects.new }
    ensures same { HasSameObjects objects.old objects.new }
    ensures object_spare { objects.new.spare ≡ objects.old.spare }
{
    let (mut from, end) = (row.lba, row.lba + row.sectors);
    while let Some(part) = settled.first_in(from, end - from) {
        if let Some(place) = place_in_copy(number, row, &part) {
            set_counted(settled, objects, part.lba, part.sectors, place);
        }
        from = part.lba + part.sectors;
    }
}

// Where the copy of this number has a part of a row's sectors, which a map has there; none where the map has
// them in another object than the row's source.
fn place_in_copy(number: u64, row: &CopyRow, part: &Extent<ObjectPlace>) -> Option<ObjectPlace>
    requires fits { CopyRowFits row.now }
    requires from { row.now.lba ≤ part.now.lba }
    requires to { part.now.lba + part.now.sectors ≤ row.now.lba + row.now.sectors }
    ensures { result ≡ place_in_copy number row.now part.now }
{
    if part.place.is_in(row.source.number) {
        Some(own_place(number, row.place + (part.lba - row.lba)))
    } else {
        None
    }
}

// Gives sectors the places of an object, and counts those that it gains and others lose.
pub(crate) fn set_counted(
    settled: &mut ExtentMap<ObjectPlace>,
    objects: &mut ObjectTable,
    lba: u64,
    sectors: u64,
    place: ObjectPlace,
)
    requires room { 1 ≤ settled.old.spare }
    requires range { lba + sectors < 2 ^ 63 }
    requires places { place.sector + sectors < 2 ^ 32 }
    requires object { place.level ≡ 0 → MayGain place.number objects.old }
    requires kept { IsKept settled.old.rows objects.old }
    ensures places { (k : ℕ) → place_at object_on settled.new.rows k ≡ place_after_set object_on lba sectors
        place (place_at object_on settled.old.rows) k }
    ensures spare { settled.old.spare ≤ settled.new.spare + 1 }
    ensures kept { IsKept settled.new.rows objects.new }
    ensures same { HasSameObjects objects.old objects.new }
    ensures object_spare { objects.new.spare ≡ objects.old.spare }
{
    lose_sectors(settled, objects, lba, sectors);
    settled.set(lba, sectors, place);
    gain_sectors(objects, place, sectors);
}

// Leaves sectors without a place, and counts those that objects lose.
fn clear_counted(
    settled: &mut ExtentMap<ObjectPlace>,
    objects: &mut ObjectTable,
    lba: u64,
    sectors: u64,
)
    requires room { 1 ≤ settled.old.spare }
    requires range { lba + sectors < 2 ^ 63 }
    requires kept { IsKept settled.old.rows objects.old }
    ensures places { (k : ℕ) → place_at object_on settled.new.rows k ≡ place_after_clear lba sectors
        (place_at object_on settled.old.rows) k }
    ensures spare { settled.old.spare ≤ settled.new.spare + 1 }
    ensures kept { IsKept settled.new.rows objects.new }
    ensures same { HasSameObjects objects.old objects.new }
    ensures object_spare { objects.new.spare ≡ objects.old.spare }
{
    lose_sectors(settled, objects, lba, sectors);
    settled.clear(lba, sectors);
}

// The objects lose the sectors of a range that a map has in them. Only the rows of the range are looked at.
fn lose_sectors(settled: &ExtentMap<ObjectPlace>, objects: &mut ObjectTable, lba: u64, sectors: u64)
    requires range { lba + sectors < 2 ^ 63 }
    requires kept { IsKept settled.now.rows objects.old }
    ensures lost { IsCountedBut settled.now.rows lba sectors objects.new }
    ensures same { HasSameObjects objects.old objects.new }
    ensures object_spare { objects.new.spare ≡ objects.old.spare }
{
    let (mut from, end) = (lba, lba + sectors);
    while let Some(row) = settled.first_in(from, end - from) {
        lose_row(objects, &row);
        from = row.lba + row.sectors;
    }
}

// An object loses the sectors of a row, where it is one of the volume's own.
fn lose_row(objects: &mut ObjectTable, row: &Extent<ObjectPlace>)
    requires { row.now.place.level ≡ 0 → row.now.sectors ≤ live_of row.now.place.number objects.old.rows }
    ensures { objects.new ≡ after_loss row.now objects.old }
{
    if row.place.level == 0 {
        objects.lose(row.place.number, row.sectors);
    }
}

// An object gains sectors at a place, where it is one of the volume's own.
fn gain_sectors(objects: &mut ObjectTable, place: ObjectPlace, sectors: u64)
    requires fits { place.level ≡ 0 → live_of place.number objects.old.rows + sectors < 2 ^ 64 }
    requires mapped { place.level ≡ 0 → IfSome (row_of place.number objects.old.rows)
        (λ row. row.is_unmapped ≡ false) }
    ensures { objects.new ≡ after_gain place sectors objects.old }
{
    if place.level == 0 {
        objects.gain(place.number, sectors);
    }
}

// The place of a sector of the payload of one of the volume's own objects.
fn own_place(number: u64, sector: u64) -> ObjectPlace
    requires { sector < 2 ^ 32 }
    ensures { result ≡ record { number = number; level = 0; sector = sector } }
{
    ObjectPlace {
        number,
        level: 0,
        sector: sector as u32,
    }
}
