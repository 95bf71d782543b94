ghost use Rattle.std.specs.Prelude.{◌≡◌, ◌+◌, ◌<◌, ◌^◌, ◌↔◌, ℕ, IfOk, IfSome, IsNone};
ghost use Rattle.extent_map.specs.Extents.{place_at, place_in_range, IsShortest, StartsRange, IsBare, Fits};
ghost use Rattle.extent_map.specs.Extents.{AllFit};
ghost use Rattle.volume_maps.specs.Places.{volume_on, volume_number, as_logged, as_settled};
ghost use Rattle.volume_maps.specs.Look.{combined, BreaksOff};

use crate::place::{LogPlace, ObjectPlace, VolumePlace};
use extent_map::{Extent, ExtentMap};
use std::alloc::{AllocError, Global};

// The places of some sectors, those of the log's map over those of the objects' map.
pub(crate) fn look(
    alloc: Global,
    settled: &ExtentMap<ObjectPlace>,
    log: &ExtentMap<LogPlace>,
    lba: u64,
    sectors: u64,
) -> Result<Vec<Extent<VolumePlace>>, AllocError>
    requires { lba + sectors < 2 ^ 63 }
    ensures places { IfOk result (λ rows. (k : ℕ) → place_at volume_on rows.items k ≡ place_in_range lba
        sectors (combined settled.now log.now) k) }
    ensures shortest { IfOk result (λ rows. IsShortest volume_on rows.items) }
    ensures fits { IfOk result (λ rows. AllFit volume_number rows.items) }
{
    let mut rows = Vec::new(alloc);
    let (mut from, end) = (lba, lba + sectors);
    while let Some(row) = first_in(settled, log, from, end - from) {
        rows.push(row)?;
        from = row.lba + row.sectors;
    }
    Ok(rows)
}

// The first row of some sectors, as long as it can be; none where none of them has a place.
fn first_in(
    settled: &ExtentMap<ObjectPlace>,
    log: &ExtentMap<LogPlace>,
    lba: u64,
    sectors: u64,
) -> Option<Extent<VolumePlace>>
    requires { lba + sectors < 2 ^ 63 }
    ensures none { IsNone result ↔ IsBare lba sectors (combined settled.now log.now) }
    ensures row { IfSome result (StartsRange volume_on lba sectors (combined settled.now log.now)) }
    ensures breaks_off { IfSome result (BreaksOff lba sectors (combined settled.now log.now)) }
    ensures fits { IfSome result (Fits volume_number) }
{
    let logged = log.first_in(lba, sectors);
    let end = match logged {
        Some(row) => row.lba,
        None => lba + sectors,
    };
    match settled.first_in(lba, end - lba) {
        Some(row) => Some(settled_row(row)),
        None => Some(logged_row(logged?)),
    }
}

// A row of the log's map as one of both.
fn logged_row(row: Extent<LogPlace>) -> Extent<VolumePlace>
    ensures { result ≡ as_logged row }
{
    Extent {
        lba: row.lba,
        sectors: row.sectors,
        place: VolumePlace::Log(row.place),
    }
}

// A row of the objects' map as one of both.
fn settled_row(row: Extent<ObjectPlace>) -> Extent<VolumePlace>
    ensures { result ≡ as_settled row }
{
    Extent {
        lba: row.lba,
        sectors: row.sectors,
        place: VolumePlace::Object(row.place),
    }
}
