ghost use Rattle.std.specs.Prelude.{◌≡◌, ◌+◌, ◌*◌, ◌^◌, ◌<◌, ◌≤◌, ◌++◌, IfOk, length, take, drop};
ghost use Rattle.std.specs.List.{sum_by};
ghost use Rattle.object_format.specs.declared.kind.Kind.TheVariants as kinds;
ghost use Rattle.object_format.specs.declared.rows.Rows.TheVariants.{Data};
ghost use Rattle.object_format.specs.Rows.{rows_kind};
ghost use Rattle.batcher.specs.Places.{entry_body};
ghost use Rattle.batcher.specs.Rows.{payload_bytes, piece_of, extent_payload, IsInBody, AreInBodies};
ghost use Rattle.batcher.specs.Writing.{MayBeSealed, IsWritten};

use crate::place::BatchPlace;
use crate::plan::SealPlan;
use crate::rows::data_rows;
use extent_map::Extent;
use lsvd_base::{Entry, ObjectBytes, SECTOR_BYTES};
use object_format::{DataRow, Expected, ObjectWriter, Rows};
use std::alloc::{AllocError, Global};
use std::collections::VecDeque;

/// A data object of the first entries of a batch.
#[derive(Drop)]
pub struct SealedBatch {
    /// The object.
    pub object: ObjectBytes,
    /// Its rows.
    pub rows: Vec<DataRow>,
    /// How many entries it has, the first ones of the batch.
    pub entries: usize,
    /// What the batch is released with, once it is to go on without them.
    pub rest: Rest,
}

/// What the entries after those of an object are planned to become, so that a batch goes on with them and
/// takes no memory.
#[derive(Drop)]
pub struct Rest {
    // How many entries the object has.
    pub(crate) after: usize,
    // The plan of those after them.
    pub(crate) plan: SealPlan,
}

/// An object with its rows.
#[derive(Drop)]
pub(crate) struct WrittenObject {
    pub(crate) object: ObjectBytes,
    pub(crate) rows: Vec<DataRow>,
}

/// The expected object of entries with seqs from the first one up to the end, which makes these changes. They
/// may be written so (a condition). The one error is that memory ran out.
pub(crate) fn write_object(
    alloc: Global,
    expected: &Expected,
    first_seq: u64,
    end_seq: u64,
    extents: &[Extent<BatchPlace>],
    entries: &VecDeque<Entry>,
) -> Result<WrittenObject, AllocError>
    requires { MayBeSealed expected.now first_seq end_seq entries.now.items extents.now }
    ensures { IfOk result (IsWritten expected.now first_seq end_seq entries.now.items extents.now) }
{
    let rows = Rows::Data(data_rows(alloc, extents)?);
    let mut writer = ObjectWriter::new(alloc, expected, first_seq, end_seq, &rows)?;
    append_payload(&mut writer, extents, entries);
    let object = writer.finish()?;
    let rows = into_data(rows);
    Ok(WrittenObject { object, rows })
}

/// That the numbers and the uuid of what is expected have their widths, as a fact for proofs.
pub(crate) fn keep_widths(expected: &Expected)
    ensures uuid { length expected.now.uuid ≡ 16 }
    ensures number { expected.now.number < 2 ^ 64 }
{
    let _number = expected.number;
    let _uuid = expected.uuid.as_slice();
}

// The rows of a data object.
fn into_data(rows: Rows) -> Vec<DataRow>
    requires { rows_kind rows ≡ kinds.Data }
    ensures { rows ≡ Data result }
{
    match rows {
        Rows::Data(rows) => rows,
        Rows::Copy(_) | Rows::Checkpoint => unreachable!(),
    }
}

// Appends the data of each extent.
fn append_payload(
    writer: &mut ObjectWriter,
    extents: &[Extent<BatchPlace>],
    entries: &VecDeque<Entry>,
)
    requires bodies { AreInBodies entries.now.items extents.now }
    requires size { length writer.old.bytes + 512 * sum_by extent_payload extents.now ≤ writer.old.size }
    ensures { writer.new ≡ record {
      bytes = writer.old.bytes ++ payload_bytes entries.now.items extents.now;
      size = writer.old.size;
    } }
{
    for extent in extents {
        writer.append(piece(entries, extent));
    }
}

// The data of an extent, which lie within the body of their entry.
fn piece<'a>(entries: &'a VecDeque<Entry>, extent: &Extent<BatchPlace>) -> &'a [u8]
    requires { IsInBody entries.now.items extent.now.sectors extent.now.place }
    ensures { result.now ≡ piece_of entries.now.items extent.now }
{
    match extent.place {
        BatchPlace::Data { entry, from } => data_of(&entries[entry], from, extent.sectors),
        BatchPlace::Zeros => &[],
    }
}

// The data of `sectors` sectors of an entry, from a sector of its body on.
fn data_of(entry: &Entry, from: u64, sectors: u64) -> &[u8]
    requires { 512 * (from + sectors) ≤ length (entry_body entry.now) }
    ensures { result.now ≡ take (512 * sectors) (drop (512 * from) (entry_body entry.now)) }
{
    match entry {
        Entry::Write { body, .. } => {
            let bytes = body.as_bytes();
            let start = (SECTOR_BYTES * from) as usize;
            let end = start + (SECTOR_BYTES * sectors) as usize;
            &bytes[start..end]
        }
        Entry::Zero { .. } => &[],
    }
}
