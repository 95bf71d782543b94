ghost use Rattle.std.specs.Prelude.{◌≡◌, ℕ, ◌+◌, ◌^◌, ◌<◌, IsTrue, IfOk, List, map};
ghost use Rattle.extent_map.specs.declared.extent.Extent.{Extent as ExtentOf};
ghost use Rattle.object_format.specs.Header.{begins_at};
ghost use Rattle.ckpt_format.specs.declared.place.StoredPlace.{StoredPlace as Place};
ghost use Rattle.ckpt_format.specs.Checkpoint.{IsCheckpoint};
ghost use Rattle.clone_opening.specs.Raised.{raised};

use ckpt_format::{CheckpointWriter, StoredPlace, read_checkpoint};
use extent_map::Extent;
use lsvd_base::ObjectBytes;
use object_format::Expected;
use std::alloc::{AllocError, Global};

/// The checkpoint that a clone opens with, made of the bytes of its base's (a condition). Its end is 0, since
/// a clone begins with no history of its own, and it has the rows of the base's checkpoint, each with its
/// level raised by one: the base is the clone's first ancestor, and each ancestor of the base is one level
/// further. So the clone has more ancestors than its base, and as many sectors, and the end before its
/// checkpoint is 0 where it is known (conditions). The one error is that memory ran out.
pub fn raised_checkpoint(
    alloc: Global,
    bytes: &[u8],
    base: &Expected,
    clone: &Expected,
) -> Result<ObjectBytes, AllocError>
    requires checkpoint { (end : ℕ) × (rows : List (ExtentOf Place))
        × IsCheckpoint bytes.now base.now end rows }
    requires levels { base.now.ancestors < clone.now.ancestors }
    requires sectors { clone.now.sectors ≡ base.now.sectors }
    requires end { IsTrue (begins_at 0 clone.now.end_before) }
    ensures { IfOk result (λ object. (end : ℕ) (rows : List (ExtentOf Place))
        → IsCheckpoint bytes.now base.now end rows → IsCheckpoint object clone.now 0 (map raised rows)) }
{
    // Both are read here, so that a level past each of the base's is known to have its 32 bits.
    prove!(base.ancestors < clone.ancestors);
    let mut rows = read_checkpoint(bytes, base).unwrap();
    let mut writer = CheckpointWriter::new(alloc, clone, 0, rows.left())?;
    while let Some(row) = rows.next_row().unwrap() {
        writer.push(&raised(&row));
    }
    ObjectBytes::from_bytes(writer.finish())
}

// A row of the base as one of its clone. There is a level past that of its place (a condition).
fn raised(row: &Extent<StoredPlace>) -> Extent<StoredPlace>
    requires { row.now.place.level + 1 < 2 ^ 32 }
    ensures { result ≡ raised row.now }
{
    Extent {
        place: StoredPlace {
            level: row.place.level + 1,
            ..row.place
        },
        ..*row
    }
}
