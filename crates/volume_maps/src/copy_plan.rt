ghost use Rattle.std.specs.Prelude.{◌≡◌, ℕ, IsTrue, IfOk, OnOk, if◌then◌else◌, None};
ghost use Rattle.std.specs.Option.{option_or};
ghost use Rattle.extent_map.specs.Extents.{place_at, IsShortest};
ghost use Rattle.reverse_map.specs.Ranges.{is_in_range, is_in_ranges};
ghost use Rattle.volume_maps.specs.Places.{object_on};
ghost use Rattle.volume_maps.specs.Live.{is_live};
ghost use Rattle.volume_maps.specs.Covered.{AreReversed};
ghost use Rattle.volume_maps.specs.Parts.{place_in_object, sector_total, first_sectors, ArePlanned};
ghost use Rattle.volume_maps.specs.Parts.{row_of_part, rows_of_parts};

use crate::place::ObjectPlace;
use extent_map::{Extent, ExtentMap};
use object_format::{CopyRow, Source};
use reverse_map::{ReverseMap, SectorRange};
use std::alloc::{AllocError, Global};

// The parts of the objects' map that a plan copies: those in the victims, so many sectors at most. The one
// error is out of memory.
pub(crate) fn plan_victims(
    alloc: Global,
    settled: &ExtentMap<ObjectPlace>,
    reverse: &ReverseMap,
    victims: &[u64],
    most: u64,
) -> Result<ExtentMap<ObjectPlace>, AllocError>
    requires { AreReversed settled.now.rows reverse.now.objects }
    ensures { IfOk result (λ parts. ArePlanned most victims.now settled.now.rows parts.rows) }
{
    let mut planned = ExtentMap::new(alloc);
    let mut room = most;
    for number in victims {
        if room == 0 {
            break;
        }
        let live = live_parts(alloc, settled, reverse.ranges(*number), *number)?;
        room -= take_parts(&live, room, &mut planned)?;
    }
    Ok(planned)
}

// The parts of the objects' map that are in the object of a number, all of which lie in these ranges (a
// condition). The one error is out of memory.
fn live_parts(
    alloc: Global,
    settled: &ExtentMap<ObjectPlace>,
    ranges: &[SectorRange],
    number: u64,
) -> Result<ExtentMap<ObjectPlace>, AllocError>
    requires { (k : ℕ) → IsTrue (is_live number (place_at object_on settled.now.rows k))
        → IsTrue (is_in_ranges ranges.now k) }
    ensures { IfOk result (λ live. (k : ℕ) → place_at object_on live.rows k
        ≡ place_in_object number (place_at object_on settled.now.rows k)) }
{
    let mut live = ExtentMap::new(alloc);
    for range in ranges {
        add_live(settled, range, number, &mut live)?;
    }
    Ok(live)
}

// Adds the parts of a range that the objects' map has in the object of a number. The one error is out of
// memory.
fn add_live(
    settled: &ExtentMap<ObjectPlace>,
    range: &SectorRange,
    number: u64,
    live: &mut ExtentMap<ObjectPlace>,
) -> Result<(), AllocError>
    ensures { OnOk result ((k : ℕ) → place_at object_on live.new.rows k ≡ option_or
        (if is_in_range range.now k then place_in_object number
        (place_at object_on settled.now.rows k) else None) (place_at object_on live.old.rows k)) }
{
    let (mut from, end) = (range.lba as u64, range.lba as u64 + range.sectors as u64);
    while let Some(part) = settled.first_in(from, end - from) {
        if part.place.is_in(number) {
            live.reserve(1)?;
            live.set(part.lba, part.sectors, part.place);
        }
        from = part.lba + part.sectors;
    }
    Ok(())
}

// Takes the first sectors of some parts, so many at most, and answers how many these are. The one error is
// out of memory.
fn take_parts(
    live: &ExtentMap<ObjectPlace>,
    most: u64,
    planned: &mut ExtentMap<ObjectPlace>,
) -> Result<u64, AllocError>
    ensures count { IfOk result (λ taken. taken ≡ sector_total (first_sectors most live.now.rows)) }
    ensures places { OnOk result ((k : ℕ) → place_at object_on planned.new.rows k ≡ option_or
        (place_at object_on (first_sectors most live.now.rows) k) (place_at object_on planned.old.rows k)) }
    ensures shortest { OnOk result (IsShortest object_on live.now.rows) }
{
    let mut parts = live.in_order();
    let mut taken = 0;
    while let Some(part) = parts.next() {
        if taken == most {
            break;
        }
        let sectors = part.sectors.min(most - taken);
        planned.reserve(1)?;
        planned.set(part.lba, sectors, part.place);
        taken += sectors;
    }
    Ok(taken)
}

// The rows of a copy that has these parts of the objects' map. The one error is out of memory.
pub(crate) fn copy_rows(
    alloc: Global,
    planned: &ExtentMap<ObjectPlace>,
) -> Result<Vec<CopyRow>, AllocError>
    ensures rows { IfOk result (λ rows. rows.items ≡ rows_of_parts 0 planned.now.rows) }
    ensures shortest { OnOk result (IsShortest object_on planned.now.rows) }
{
    let mut rows = Vec::new(alloc);
    rows.reserve(planned.len())?;
    let mut parts = planned.in_order();
    let mut place = 0;
    while let Some(part) = parts.next() {
        rows.push_reserved(copy_row(&part, place));
        place += part.sectors;
    }
    Ok(rows)
}

// The row of a copy that has a part of the objects' map, with its data at a place of the payload.
fn copy_row(part: &Extent<ObjectPlace>, place: u64) -> CopyRow
    ensures { result ≡ row_of_part place part.now }
{
    CopyRow {
        lba: part.lba,
        sectors: part.sectors,
        place,
        source: Source {
            level: part.place.level,
            number: part.place.number,
            place: part.place.sector as u64,
        },
    }
}
