ghost use Rattle.std.specs.Prelude.{◌≡◌, ◌↔◌, ℕ, IfOk, IsSome};
ghost use Rattle.std.specs.List.{Contains};
ghost use Rattle.std.specs.List.Sorted.{IsStrictlyIncreasing};
ghost use Rattle.gc_copier.specs.Plan.{seen, all_seen};
ghost use Rattle.object_uploads.specs.Queue.{stored_of};
ghost use Rattle.object_uploads.specs.Collection.{AreStored, AreSources, IsStoredSource, source_numbers};

use crate::queue::Queue;
use gc_copier::PlanSource;
use lsvd_objstore::Receipt;
use object_format::CopyRow;
use std::alloc::{AllocError, Global};
use volume_maps::ObjectPlace;

// The objects that rows take sectors from, each of which is in the store, with copies of their receipts. The
// one error is out of memory.
pub(crate) fn sources_of<R: Receipt>(
    alloc: Global,
    queue: &Queue<R>,
    rows: &[CopyRow],
) -> Result<Vec<PlanSource<R>>, AllocError>
    requires { AreStored queue.now rows.now }
    ensures { IfOk result (λ sources. AreSources queue.now rows.now (all_seen R.state sources.items)) }
{
    let numbers = source_numbers(alloc, rows)?;
    let mut sources = Vec::with_capacity(alloc, numbers.len())?;
    for number in &numbers {
        sources.push(source(alloc, queue, *number)?)?;
    }
    Ok(sources)
}

// The volume's own object of a number, which is in the store, with a copy of its receipt. The one error is
// out of memory.
fn source<R: Receipt>(
    alloc: Global,
    queue: &Queue<R>,
    number: u64,
) -> Result<PlanSource<R>, AllocError>
    requires { IsSome (stored_of queue.now (record { level = 0; number = number })) }
    ensures stored { IfOk result (λ source. IsStoredSource queue.now (seen R.state source)) }
    ensures number { IfOk result (λ source. source.number ≡ number) }
{
    let place = ObjectPlace {
        number,
        level: 0,
        sector: 0,
    };
    let front = queue.front(&place);
    let receipt = queue.receipt(&place).unwrap().copy(alloc)?;
    Ok(PlanSource {
        number,
        front,
        receipt,
    })
}

// The numbers of the objects that rows take sectors from, ascending, each once. The one error is out of
// memory.
fn source_numbers(alloc: Global, rows: &[CopyRow]) -> Result<Vec<u64>, AllocError>
    ensures ascending { IfOk result (λ numbers. IsStrictlyIncreasing numbers.items) }
    ensures same { IfOk result (λ numbers. (number : ℕ)
        → Contains numbers.items number ↔ Contains (source_numbers rows.now) number) }
{
    let mut numbers = collected(alloc, rows)?;
    numbers.sort_unstable();
    numbers.dedup();
    Ok(numbers)
}

// These numbers in the order of the rows.
fn collected(alloc: Global, rows: &[CopyRow]) -> Result<Vec<u64>, AllocError>
    ensures { IfOk result (λ numbers. numbers.items ≡ source_numbers rows.now) }
{
    rows.iter().map(|row| row.source.number).collect(alloc)
}
