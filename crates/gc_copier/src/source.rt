ghost use Rattle.std.specs.Prelude.{◌≡◌, ◌↔◌, map, IfOk, IsTrue};
ghost use Rattle.std.specs.List.{Contains};
ghost use Rattle.std.specs.List.Sorted.{IsStrictlyIncreasing};
ghost use Rattle.gc_copier.specs.Plan.{seen, all_seen};

use lsvd_objstore::Receipt;
use std::alloc::{AllocError, Global};

/// An object that rows of a copy take their data from.
#[derive(Drop)]
pub struct PlanSource<R: Receipt> {
    /// Its number.
    pub number: u64,
    /// How many sectors it has before its payload.
    pub front: u64,
    /// What the store gave for it.
    pub receipt: R,
}

impl<R: Receipt> PlanSource<R> {
    // The same source again, with a copy of its receipt. The one error is that memory ran out.
    fn copy(&self, alloc: Global) -> Result<PlanSource<R>, AllocError>
        ensures { IfOk result (λ copy. seen R.state copy ≡ seen R.state self.now) }
    {
        let receipt = self.receipt.copy(alloc)?;
        Ok(PlanSource {
            number: self.number,
            front: self.front,
            receipt,
        })
    }

    // Whether it is the same source: its receipt is for the same object.
    fn is_same(&self, other: &PlanSource<R>) -> bool
        ensures { IsTrue result ↔ (seen R.state self.now ≡ seen R.state other.now) }
    {
        self.number == other.number
            && self.front == other.front
            && self.receipt.same(&other.receipt)
    }
}

/// The same sources again, with copies of their receipts. The one error is that memory ran out.
pub(crate) fn copy_sources<R: Receipt>(
    alloc: Global,
    sources: &[PlanSource<R>],
) -> Result<Vec<PlanSource<R>>, AllocError>
    ensures { IfOk result (λ copies. all_seen R.state copies.items ≡ all_seen R.state sources.now) }
{
    let mut copies = Vec::with_capacity(alloc, sources.len())?;
    for source in sources {
        copies.push(source.copy(alloc)?)?;
    }
    Ok(copies)
}

/// Whether sources are the same, one by one.
pub(crate) fn are_same<R: Receipt>(sources: &[PlanSource<R>], others: &[PlanSource<R>]) -> bool
    ensures { IsTrue result ↔ (all_seen R.state sources.now ≡ all_seen R.state others.now) }
{
    if sources.len() != others.len() {
        return false;
    }
    for index in 0..sources.len() {
        if !sources[index].is_same(&others[index]) {
            return false;
        }
    }
    true
}

/// The source of a number, among ascending ones that it is one of (conditions).
pub(crate) fn source_of<R: Receipt>(sources: &[PlanSource<R>], number: u64) -> &PlanSource<R>
    requires ascending { IsStrictlyIncreasing (map (λ source. source.number) sources.now) }
    requires has { Contains (map (λ source. source.number) sources.now) number }
    ensures is { Contains sources.now result.now }
    ensures number { result.now.number ≡ number }
{
    let at = sources
        .binary_search_by_key(&number, |source| source.number)
        .unwrap();
    &sources[at]
}
