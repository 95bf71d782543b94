ghost use Rattle.std.specs.Prelude.{◌≡◌, ◌%◌, IfOk, length};
ghost use Rattle.extent_map.specs.Extents.{is_within};
ghost use Rattle.object_stream.specs.Changes.{sector_of, entry_change, change_at, change_from, change_in};

use crate::change::Change;
use lsvd_base::{Body, Entry, SECTOR_BYTES};
use object_format::DataRow;
use std::alloc::{AllocError, Global};

/// What these entries do to a sector of the volume: what the last of them does that covers it, and None where
/// none does. The one error is that memory ran out.
pub fn change_at(
    alloc: Global,
    entries: &[Entry],
    sector: u64,
) -> Result<Option<Change>, AllocError>
    ensures { IfOk result (λ change. change ≡ change_at entries.now sector) }
{
    let mut change = None;
    for entry in entries {
        change = entry_change(alloc, entry, sector)?.or(change);
    }
    Ok(change)
}

// What an entry does to a sector.
fn entry_change(alloc: Global, entry: &Entry, sector: u64) -> Result<Option<Change>, AllocError>
    ensures { IfOk result (λ change. change ≡ entry_change entry.now sector) }
{
    match entry {
        Entry::Write { lba, body } if is_within(*lba, body.sectors(), sector) => {
            let data = sector_of(alloc, u128::from(sector - lba), body.as_bytes())?;
            Ok(Some(Change::Put(data)))
        }
        Entry::Zero { lba, sectors } if is_within(*lba, *sectors, sector) => {
            Ok(Some(Change::Clear))
        }
        _ => Ok(None),
    }
}

/// What the rows of a data object with this payload do to a sector of the volume: what the first of them does
/// that covers it, and None where none does. The payload is whole sectors (a condition). The one error is
/// that memory ran out.
pub fn change_in(
    alloc: Global,
    rows: &[DataRow],
    payload: &[u8],
    sector: u64,
) -> Result<Option<Change>, AllocError>
    requires { length payload.now % 512 ≡ 0 }
    ensures { IfOk result (λ change. change ≡ change_in rows.now payload.now sector) }
{
    for row in rows {
        if is_within(row.lba, row.sectors, sector) {
            let change = change_from(alloc, row.place, payload, sector - row.lba)?;
            return Ok(Some(change));
        }
    }
    Ok(None)
}

// What the sector of this index does of a row with this place. The payload is whole sectors (a condition).
fn change_from(
    alloc: Global,
    place: Option<u64>,
    payload: &[u8],
    index: u64,
) -> Result<Change, AllocError>
    requires { length payload.now % 512 ≡ 0 }
    ensures { IfOk result (λ change. change ≡ change_from place payload.now index) }
{
    let Some(place) = place else {
        return Ok(Change::Clear);
    };
    let data = sector_of(alloc, u128::from(place) + u128::from(index), payload)?;
    Ok(Change::Put(data))
}

/// The sector of this index of some bytes, which are whole sectors (a condition): nothing past their end. The
/// one error is that memory ran out.
pub(crate) fn sector_of(alloc: Global, index: u128, bytes: &[u8]) -> Result<Body, AllocError>
    requires { length bytes.now % 512 ≡ 0 }
    ensures { IfOk result (λ body. body ≡ sector_of index bytes.now) }
{
    // A place and an index may add up to more than 64 bits.
    let held = bytes.len() as u128;
    let start = index.saturating_mul(u128::from(SECTOR_BYTES)).min(held);
    let end = (start + u128::from(SECTOR_BYTES)).min(held);
    let data = Vec::from_slice(alloc, &bytes[start as usize..end as usize])?;
    Ok(Body::from_bytes(data))
}

/// Whether a sector is one of `sectors` sectors from `lba` on.
pub(crate) fn is_within(lba: u64, sectors: u64, sector: u64) -> bool
    ensures { result ≡ is_within lba sectors sector }
{
    lba <= sector && sector - lba < sectors
}
