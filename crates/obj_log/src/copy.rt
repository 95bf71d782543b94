ghost use Rattle.std.specs.Prelude.{◌≡◌, ◌*◌, ◌^◌, ◌<◌, IfOk, length};
ghost use Rattle.object_format.specs.declared.kind.Kind.TheVariants as kinds;
ghost use Rattle.object_format.specs.declared.rows.Rows.TheVariants.{Copy};
ghost use Rattle.object_format.specs.Rows.{rows_kind};
ghost use Rattle.object_format.specs.Writing.{payload_of, object_header_of, MayBeWritten};
ghost use Rattle.object_stream.specs.Replay.{HasParts};

use lsvd_base::ObjectBytes;
use object_format::{CopyRow, Expected, ObjectWriter, Rows};
use std::alloc::{AllocError, Global};

// The expected object without entries that has these rows and this payload, and the end of the object before
// it. It may be written so. The one error is out of memory.
pub(crate) fn write_object(
    alloc: Global,
    expected: Expected,
    end: u64,
    rows: &Rows,
    payload: &[u8],
) -> Result<ObjectBytes, AllocError>
    requires rows { MayBeWritten expected (object_header_of expected end end rows.now) rows.now }
    requires payload { length payload.now ≡ 512 * payload_of rows.now }
    ensures { IfOk result (λ bytes. HasParts expected bytes (object_header_of expected end end rows.now)
        rows.now payload.now) }
{
    keep_widths(&expected);
    let mut writer = ObjectWriter::new(alloc, &expected, end, end, rows)?;
    writer.append(payload);
    writer.finish()
}

// That the number and the uuid of what is expected have their widths, as a fact for proofs. Nothing is done.
fn keep_widths(expected: &Expected)
    ensures uuid { length expected.now.uuid ≡ 16 }
    ensures number { expected.now.number < 2 ^ 64 }
{
    let _number = expected.number;
    let _uuid = expected.uuid.as_slice();
}

// The rows of a copy.
pub(crate) fn into_copies(rows: Rows) -> Vec<CopyRow>
    requires { rows_kind rows ≡ kinds.Copy }
    ensures { rows ≡ Copy result }
{
    match rows {
        Rows::Copy(rows) => rows,
        Rows::Data(_) | Rows::Checkpoint => unreachable!(),
    }
}
