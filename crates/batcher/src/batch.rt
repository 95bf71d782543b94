ghost use Rattle.std.specs.Prelude.{◌≡◌, ◌+◌, ◌-◌, ◌^◌, ◌<◌, ◌≤◌, min, IsTrue, [], ◌∷◌, ◌++◌, length, drop};
ghost use Rattle.std.specs.Prelude.{IfOk, IsOk, OnOk};
ghost use Rattle.std.specs.List.{sum_by};
ghost use Rattle.std.specs.VecDeque.{deque_capacity};
ghost use Rattle.lsvd_base.specs.Limits.{is_within_limits};
ghost use Rattle.lsvd_base.specs.Range.{is_in_range};
ghost use Rattle.batcher.specs.Batch.{data_sectors, fullness};
ghost use Rattle.batcher.specs.Sealing.{IsExpectedOf, IsSealed, IsBatchRest};

use crate::full::{Full, data_sectors, fullness};
use crate::plan::{SealPlan, plan_from};
use crate::sealing::{Rest, SealedBatch, keep_widths, write_object};
use lsvd_base::{Entry, Geometry};
use object_format::Expected;
use std::alloc::{AllocError, Global};
use std::collections::VecDeque;
use std::marker::Model;

/// The entries of a volume that are in no object yet, in the order of their seqs.
#[derive(Drop)]
pub struct Batch {
    geometry: Geometry,
    // The seq of the first entry.
    first: u64,
    entries: VecDeque<Entry>,
    // The sectors of data of all entries.
    sectors: u64,
    // Which of them the next object takes.
    plan: SealPlan,
}

impl Model for Batch {
    ghost use Rattle.std.specs.Prelude.{◌-◌, min, length};
    ghost use Rattle.std.specs.VecDeque.{deque_capacity};
    ghost use Rattle.batcher.specs.State.{BatchState};
    ghost use Rattle.batcher.specs.Invariant.{IsBatch};

    ghost Value = { BatchState };

    ghost view = { λ b. record {
      geometry = b.geometry;
      first = b.first;
      entries = b.entries.items;
      reserved = min b.plan.changes.spare (deque_capacity b.entries - length b.entries.items);
    } };

    ghost invariant = { λ b. IsBatch b.geometry b.first b.entries.items b.sectors b.plan };
}

impl Batch {
    /// The batch without entries of a volume whose geometry is within the limits (a condition), which goes on
    /// with this seq. It takes no memory.
    pub fn new(alloc: Global, geometry: Geometry, first_seq: u64) -> Batch
        requires { IsTrue (is_within_limits geometry) }
        ensures { result ≡ record { geometry = geometry; first = first_seq; entries = []; reserved = 0 } }
    {
        Batch {
            geometry,
            first: first_seq,
            entries: VecDeque::new(alloc),
            sectors: 0,
            plan: SealPlan::new(alloc),
        }
    }

    /// The sizes of its volume.
    pub fn geometry(&self) -> Geometry
        ensures { result ≡ self.now.geometry }
    {
        self.geometry
    }

    /// The seq of its first entry, and of the next one where it has none.
    pub fn first_seq(&self) -> u64
        ensures { result ≡ self.now.first }
    {
        self.first
    }

    /// The seq of the next entry.
    pub fn next_seq(&self) -> u64
        ensures { result ≡ self.now.first + length self.now.entries }
    {
        self.first + self.entries.len() as u64
    }

    /// How many entries it has.
    pub fn entries(&self) -> u64
        ensures { result ≡ length self.now.entries }
    {
        self.entries.len() as u64
    }

    /// How many sectors of data its entries carry.
    pub fn sectors(&self) -> u64
        ensures { result ≡ sum_by data_sectors self.now.entries }
    {
        self.sectors
    }

    /// Why it takes no further entry. None is for a batch that takes one.
    pub fn full(&self) -> Option<Full>
        ensures { result ≡ fullness self.now.geometry.batch (sum_by data_sectors self.now.entries)
            (length self.now.entries) }
    {
        fullness(self.geometry.batch, self.sectors, self.entries())
    }

    /// Takes memory for one entry more. The one error is that memory ran out. The entries are as before, and
    /// no memory that was taken before is lost.
    pub fn reserve(&mut self) -> Result<(), AllocError>
        ensures ok { OnOk result (1 ≤ self.new.reserved) }
        ensures succeeds { 1 ≤ self.old.reserved → IsOk result }
        ensures geometry { self.new.geometry ≡ self.old.geometry }
        ensures first { self.new.first ≡ self.old.first }
        ensures entries { self.new.entries ≡ self.old.entries }
        ensures reserved { self.old.reserved ≤ self.new.reserved }
    {
        self.entries.reserve(1)?;
        self.plan.changes.reserve(1)
    }

    // How many further entries there is memory for.
    fn reserved(&self) -> usize
        ensures { result ≡ self.now.reserved }
    {
        let room = self.entries.capacity() - self.entries.len();
        room.min(self.plan.changes.spare())
    }

    /// Adds an entry at the end, also to a batch that is full, as a mount does. Memory was taken for it, the
    /// volume takes it, and its seq and the sectors of data with it fit (conditions). It takes no memory.
    pub fn add(&mut self, entry: Entry)
        requires room { 1 ≤ self.old.reserved }
        requires range { IsTrue (is_in_range self.old.geometry entry) }
        requires seqs { self.old.first + length self.old.entries < 2 ^ 64 - 1 }
        requires sectors { sum_by data_sectors self.old.entries + data_sectors entry < 2 ^ 64 }
        ensures geometry { self.new.geometry ≡ self.old.geometry }
        ensures first { self.new.first ≡ self.old.first }
        ensures entries { self.new.entries ≡ self.old.entries ++ entry ∷ [] }
        ensures reserved { self.old.reserved ≤ self.new.reserved + 1 }
    {
        self.plan.offer(self.geometry.batch, &entry);
        self.sectors += data_sectors(&entry);
        self.entries.push_back_reserved(entry);
    }

    /// Makes the expected object of its first entries: the fewest that are full, or all where they are never
    /// full. There is an entry, and what is expected is of this batch (conditions). It changes nothing:
    /// `release` does that, with the rest that comes with the object. The one error is that memory ran out.
    pub fn seal(&self, alloc: Global, expected: &Expected) -> Result<SealedBatch, AllocError>
        requires some { 0 < length self.now.entries }
        requires expected { IsExpectedOf self.now expected.now }
        ensures { IfOk result (IsSealed self.now expected.now) }
    {
        keep_widths(expected);
        let entries = self.plan.entries;
        let extents = self.plan.changes.rows(alloc)?;
        let end_seq = self.first + entries as u64;
        let written = write_object(
            alloc,
            expected,
            self.first,
            end_seq,
            &extents,
            &self.entries,
        )?;
        // no more than there is memory for now, or each batch would take more than the one before
        let spare = self.reserved();
        let plan = plan_from(alloc, &self.geometry, &self.entries, entries, spare)?;
        Ok(SealedBatch {
            object: written.object,
            rows: written.rows,
            entries,
            rest: Rest {
                after: entries,
                plan,
            },
        })
    }

    /// Removes the entries of an object, and goes on with the rest. The rest is of this batch (a condition).
    /// It takes no memory, and there is memory for as many further entries as before, where the rest has it.
    pub fn release(&mut self, rest: Rest)
        requires { IsBatchRest self.old rest }
        ensures geometry { self.new.geometry ≡ self.old.geometry }
        ensures first { self.new.first ≡ self.old.first + rest.after }
        ensures entries { self.new.entries ≡ drop rest.after self.old.entries }
        ensures reserved { min self.old.reserved rest.plan.changes.spare ≤ self.new.reserved }
    {
        let removed = remove_front(&mut self.entries, rest.after);
        self.sectors -= removed;
        self.first += rest.after as u64;
        self.plan = rest.plan;
    }
}

// Removes the first entries, and answers the sectors of data that they carried, all of which fit.
fn remove_front(entries: &mut VecDeque<Entry>, count: usize) -> u64
    requires sum { sum_by data_sectors entries.old.items < 2 ^ 64 }
    ensures items { entries.new.items ≡ drop count entries.old.items }
    ensures sum { result + sum_by data_sectors entries.new.items ≡ sum_by data_sectors entries.old.items }
    ensures capacity { deque_capacity entries.new ≡ deque_capacity entries.old }
{
    let mut sectors = 0;
    for _ in 0..count {
        if let Some(entry) = entries.pop_front() {
            sectors += data_sectors(&entry);
        }
    }
    sectors
}
