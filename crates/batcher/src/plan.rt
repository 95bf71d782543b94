ghost use Rattle.std.specs.Prelude.{◌≡◌, ◌+◌, ◌^◌, ◌<◌, ◌≤◌, IsTrue, IsNone, [], length, drop, IfOk, is_some};
ghost use Rattle.lsvd_base.specs.Limits.{is_within_limits};
ghost use Rattle.lsvd_base.specs.Laws.{EndsBy};
ghost use Rattle.batcher.specs.Batch.{data_sectors, fullness};
ghost use Rattle.batcher.specs.Plans.{IsPlanOf};
ghost use Rattle.batcher.specs.Invariant.{AreInRange, IsPutInPlan};

use crate::full::{MAX_ENTRIES, data_sectors, fullness};
use crate::place::{BatchPlace, extent_of};
use extent_map::{Extent, ExtentMap};
use lsvd_base::{Entry, Geometry};
use std::alloc::{AllocError, Global};
use std::collections::VecDeque;

/// Which entries of a list the next object takes, the first ones, and what they change.
#[derive(Drop)]
pub(crate) struct SealPlan {
    // How many they are.
    pub(crate) entries: usize,
    // The sectors of their data.
    pub(crate) sectors: u64,
    // What each sector gets from them.
    pub(crate) changes: ExtentMap<BatchPlace>,
}

impl SealPlan {
    /// The plan for no entries. It takes no memory.
    pub(crate) fn new(alloc: Global) -> SealPlan
        ensures { result ≡ record { entries = 0; sectors = 0; changes = record { rows = []; spare = 0 } } }
    {
        SealPlan {
            entries: 0,
            sectors: 0,
            changes: ExtentMap::new(alloc),
        }
    }

    /// Whether its entries are full, so that the object takes no further one.
    pub(crate) fn is_full(&self, batch: u64) -> bool
        ensures { result ≡ is_some (fullness batch self.now.sectors self.now.entries) }
    {
        fullness(batch, self.sectors, self.entries as u64).is_some()
    }

    /// Takes the next entry where it is not full. There is room for it, and a volume whose batch this is
    /// takes it (conditions).
    pub(crate) fn offer(&mut self, batch: u64, entry: &Entry)
        requires room { 1 ≤ self.old.changes.spare }
        requires batch { batch ≤ 65536 }
        requires sectors { data_sectors entry.now ≤ 65536 }
        requires ends { EndsBy (2 ^ 31) entry.now }
        ensures full { IsTrue (is_some (fullness batch self.old.sectors self.old.entries))
            → self.new ≡ self.old }
        ensures put { IsNone (fullness batch self.old.sectors self.old.entries)
            → IsPutInPlan self.old entry.now self.new }
    {
        if !self.is_full(batch) {
            self.put(entry);
        }
    }

    // Takes the next entry, for which there is room, and which ends by sector 2^31 (conditions).
    fn put(&mut self, entry: &Entry)
        requires room { 1 ≤ self.old.changes.spare }
        requires ends { EndsBy (2 ^ 31) entry.now }
        requires count { self.old.entries + 1 < 2 ^ 64 }
        requires sectors { self.old.sectors + data_sectors entry.now < 2 ^ 64 }
        ensures { IsPutInPlan self.old entry.now self.new }
    {
        let Extent {
            lba,
            sectors,
            place,
        } = extent_of(self.entries, entry);
        self.changes.set(lba, sectors, place);
        self.entries += 1;
        self.sectors += data_sectors(entry);
    }
}

/// The plan for the entries from an index on, with room for `spare` further entries. The one error is that
/// memory ran out.
pub(crate) fn plan_from(
    alloc: Global,
    geometry: &Geometry,
    entries: &VecDeque<Entry>,
    from: usize,
    spare: usize,
) -> Result<SealPlan, AllocError>
    requires limits { IsTrue (is_within_limits geometry.now) }
    requires from { from ≤ length entries.now.items }
    requires in_range { AreInRange geometry.now entries.now.items }
    ensures plan { IfOk result (IsPlanOf geometry.now.batch (drop from entries.now.items)) }
    ensures spare { IfOk result (λ plan. spare ≤ plan.changes.spare) }
{
    let most = (entries.len() - from).min(MAX_ENTRIES as usize);
    let Some(room) = most.checked_add(spare) else {
        return Err(AllocError);
    };
    let mut plan = SealPlan::new(alloc);
    plan.changes.reserve(room)?;
    for index in from..from + most {
        plan.offer(geometry.batch, &entries[index]);
    }
    Ok(plan)
}
