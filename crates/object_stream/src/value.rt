ghost use Rattle.std.specs.Prelude.{◌≡◌, ◌%◌, IfOk, length};
ghost use Rattle.object_stream.specs.Value.{sector_put, copied_in, sector_in};

use crate::change::Change;
use crate::changes::{change_in, is_within, sector_of};
use lsvd_base::Body;
use object_format::{CopyRow, Rows};
use std::alloc::{AllocError, Global};

/// The data of a sector of the volume in an object with these rows and this payload. None is where the object
/// does not have the sector, and in a checkpoint. The payload is whole sectors (a condition). The one error
/// is that memory ran out.
pub fn sector_in(
    alloc: Global,
    rows: &Rows,
    payload: &[u8],
    sector: u64,
) -> Result<Option<Body>, AllocError>
    requires { length payload.now % 512 ≡ 0 }
    ensures { IfOk result (λ body. body ≡ sector_in rows.now payload.now sector) }
{
    match rows {
        Rows::Data(rows) => Ok(sector_put(change_in(alloc, rows.as_slice(), payload, sector)?)),
        Rows::Copy(rows) => copied_in(alloc, rows.as_slice(), payload, sector),
        Rows::Checkpoint => Ok(None),
    }
}

// The data of the sector that a change puts, if it puts one.
fn sector_put(change: Option<Change>) -> Option<Body>
    ensures { result ≡ sector_put change }
{
    match change {
        Some(Change::Put(body)) => Some(body),
        _ => None,
    }
}

// The data of a sector in a copy with these rows, if the copy has it. The payload is whole sectors (a
// condition).
fn copied_in(
    alloc: Global,
    rows: &[CopyRow],
    payload: &[u8],
    sector: u64,
) -> Result<Option<Body>, AllocError>
    requires { length payload.now % 512 ≡ 0 }
    ensures { IfOk result (λ body. body ≡ copied_in rows.now payload.now sector) }
{
    for row in rows {
        if is_within(row.lba, row.sectors, sector) {
            let index = u128::from(row.place) + u128::from(sector - row.lba);
            return Ok(Some(sector_of(alloc, index, payload)?));
        }
    }
    Ok(None)
}
