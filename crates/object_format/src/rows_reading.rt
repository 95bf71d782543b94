ghost use Rattle.std.specs.Prelude.{◌≡◌, ◌*◌, ◌+◌, ◌<◌, ◌≤◌, ◌↔◌, IsTrue, IfOk, IfErr, length, replicate};
ghost use Rattle.object_format.specs.Layout.{front_sectors, rows_length};
ghost use Rattle.object_format.specs.Header.{IsObjectHeader};
ghost use Rattle.object_format.specs.Rows.{data_row_in, copy_row_in, rows_in, AreReadAs};
ghost use Rattle.object_format.specs.Object.{IsObject};
ghost use Rattle.object_format.specs.Tests.{IsObjectReason};
ghost use Rattle.object_format.specs.declared.kind.Kind.TheVariants.{Checkpoint};
ghost use Rattle.object_format.specs.declared.rows_reading.RowsReadError.TheVariants.{OutOfMemory};

use crate::HEADER_BYTES;
use crate::copy_row::CopyRow;
use crate::data_row::DataRow;
use crate::expected::Expected;
use crate::header::Header;
use crate::kind::Kind;
use crate::reason::BadObject;
use crate::rows::Rows;
use lsvd_base::SECTOR_BYTES;
use lsvd_bytes::is_zeros;
use std::alloc::{AllocError, Global};
use thiserror::Error;

/// Why rows were not read.
#[derive(Clone, Copy, Debug, PartialEq, Eq, Error)]
pub enum RowsReadError {
    /// The bytes are no object under the expected number.
    #[error("bad object: {0}")]
    Bad(BadObject),
    /// There is no memory for the rows.
    #[error("out of memory")]
    OutOfMemory,
}

impl From<AllocError> for RowsReadError {
    ghost from_gives = { λ _ e. e ≡ OutOfMemory };

    fn from(_e: AllocError) -> RowsReadError {
        RowsReadError::OutOfMemory
    }
}

/// Reads the rows of an object of `size` bytes whose header was read (a condition), from the first of its
/// bytes: those of the header, the rows and the zeros after them at least (a condition). A checkpoint has
/// none here (a condition): the rows of one are not of this crate. The error is that memory ran out, or comes
/// exactly where the bytes are no object, with the reason `Rows`.
pub fn read_rows(
    alloc: Global,
    bytes: &[u8],
    size: u64,
    expected: &Expected,
    header: &Header,
) -> Result<Rows, RowsReadError>
    requires header { IsObjectHeader bytes.now size expected.now header.now }
    requires front { 512 * front_sectors header.now ≤ length bytes.now }
    requires without { header.now.kind ≡ Checkpoint → header.now.rows ≡ 0 }
    ensures ok { IfOk result (IsObject bytes.now size expected.now header.now) }
    ensures refused { IfErr result (IsObjectReason bytes.now size expected.now) }
{
    let rows_end = header.rows_end() as usize;
    let front = (header.front_sectors() * SECTOR_BYTES) as usize;
    if !is_zeros(&bytes[rows_end..front]) {
        return Err(RowsReadError::Bad(BadObject::Rows));
    }
    let rows = rows_in(alloc, header, &bytes[HEADER_BYTES..rows_end])?;
    if !rows.may_stand(expected.sectors, header) {
        return Err(RowsReadError::Bad(BadObject::Rows));
    }
    Ok(rows)
}

// The rows that the bytes hold, of an object with this header.
fn rows_in(alloc: Global, header: &Header, bytes: &[u8]) -> Result<Rows, AllocError>
    requires size { length bytes.now ≡ rows_length header.now.kind header.now.rows }
    requires without { header.now.kind ≡ Checkpoint → header.now.rows ≡ 0 }
    ensures { IfOk result (AreReadAs header.now bytes.now) }
{
    match header.kind {
        Kind::Data => Ok(Rows::Data(data_rows_in(alloc, bytes, header.rows)?)),
        Kind::Copy => Ok(Rows::Copy(copy_rows_in(alloc, bytes, header.rows)?)),
        Kind::Checkpoint => Ok(Rows::Checkpoint),
    }
}

// The first `count` rows of data in the bytes.
fn data_rows_in(alloc: Global, bytes: &[u8], count: u32) -> Result<Vec<DataRow>, AllocError>
    requires { 24 * count ≤ length bytes.now }
    ensures { IfOk result (λ rows. rows.items ≡ rows_in 24 data_row_in count bytes.now) }
{
    let mut rows = Vec::with_capacity(alloc, count as usize)?;
    let mut rest = bytes;
    for _ in 0..count {
        rows.push(DataRow::read(rest))?;
        rest = &rest[DataRow::BYTES..];
    }
    Ok(rows)
}

// The first `count` rows of a copy in the bytes.
fn copy_rows_in(alloc: Global, bytes: &[u8], count: u32) -> Result<Vec<CopyRow>, AllocError>
    requires { 44 * count ≤ length bytes.now }
    ensures { IfOk result (λ rows. rows.items ≡ rows_in 44 copy_row_in count bytes.now) }
{
    let mut rows = Vec::with_capacity(alloc, count as usize)?;
    let mut rest = bytes;
    for _ in 0..count {
        rows.push(CopyRow::read(rest))?;
        rest = &rest[CopyRow::BYTES..];
    }
    Ok(rows)
}
