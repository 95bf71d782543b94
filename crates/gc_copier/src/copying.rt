ghost use Rattle.std.specs.Prelude.{◌≡◌, ℕ, length, IfOk, IsErrOf};
ghost use Rattle.std.specs.List.{Contains};
ghost use Rattle.gc_copier.specs.declared.error.CopyError.TheVariants as errors;
ghost use Rattle.gc_copier.specs.Plan.{numbers_of};
ghost use Rattle.gc_copier.specs.Copying.{AsksGets, Copies, IsCopied, has_failed};

use crate::copied::Copied;
use crate::error::CopyError;
use crate::plan::GcPlan;
use crate::reading::{SCRATCH_BYTES, read_rows};
use crate::runs::by_source;
use crate::source::copy_sources;
use lsvd_base::SECTOR_BYTES;
use lsvd_objstore::{Receipt, Store};
use std::alloc::{AllocError, Global};

/// Copies what a plan says out of the store. Rows whose data stand near one another in a source are read by
/// one get of at most 1 MiB, and each other row by a get of its own. Beside the result it takes memory for
/// 1 MiB and for the rows once more.
///
/// `Failed` comes where a get failed, which was the last; the store counted that, and has not changed else.
/// `OutOfMemory` comes where memory ran out: all memory is taken before the first get.
pub fn copy<S: Store>(
    alloc: Global,
    plan: &GcPlan<S::Receipt>,
    store: &mut S,
) -> Result<Copied<S::Receipt>, CopyError>
    ensures { Copies plan.now result (S.state store.old) (S.state store.new) (S.gets store.old)
        (S.gets store.new) }
{
    let rows = Vec::from_slice(alloc, plan.rows())?;
    let sources = copy_sources(alloc, plan.sources())?;
    let payload = read_payload(alloc, plan, store)?;
    Ok(Copied {
        rows,
        sources,
        payload,
    })
}

// Reads the payload of a plan's rows.
fn read_payload<S: Store>(
    alloc: Global,
    plan: &GcPlan<S::Receipt>,
    store: &mut S,
) -> Result<Vec<u8>, CopyError>
    ensures payload { IfOk result (λ payload. IsCopied plan.now.rows plan.now.sources payload.items) }
    ensures failed { (number : ℕ) → IsErrOf result (errors.Failed number)
        → Contains (numbers_of plan.now.sources) number }
    ensures asks { AsksGets plan.now.sources (length plan.now.rows) (has_failed result) (S.state store.old)
        (S.state store.new) (S.gets store.old) (S.gets store.new) }
    ensures memory { IsErrOf result errors.OutOfMemory → S.gets store.new ≡ S.gets store.old }
{
    let sorted = by_source(alloc, plan.rows())?;
    let mut scratch = zeros(alloc, SCRATCH_BYTES)?;
    let mut payload = zeros(alloc, (SECTOR_BYTES * plan.sectors()) as usize)?;
    read_rows(
        store,
        plan.sources(),
        &sorted,
        scratch.as_mut_slice(),
        payload.as_mut_slice(),
    )?;
    Ok(payload)
}

// So many bytes of zeros.
fn zeros(alloc: Global, count: usize) -> Result<Vec<u8>, AllocError>
    ensures { IfOk result (λ bytes. length bytes.items ≡ count) }
{
    vec![in alloc; 0u8; count]
}
