ghost use Rattle.std.specs.Prelude.{◌≡◌, ◌↔◌, IsTrue};
ghost use Rattle.gc_copier.specs.Plan.{all_seen, sectors_of};
ghost use Rattle.gc_copier.specs.Copying.{IsCopied};

use crate::plan::GcPlan;
use crate::source::{PlanSource, are_same};
use lsvd_base::SECTOR_BYTES;
use lsvd_objstore::Receipt;
use object_format::CopyRow;
use std::marker::Model;

/// What was copied by a plan: the rows of the copy object to come, its payload, and the objects that the data
/// were taken from, with copies of their receipts.
///
/// Where a receipt tells its object's bytes, each row of that object has just its data in the payload.
#[derive(Drop)]
pub struct Copied<R: Receipt> {
    pub(crate) rows: Vec<CopyRow>,
    pub(crate) sources: Vec<PlanSource<R>>,
    pub(crate) payload: Vec<u8>,
}

impl<R: Receipt> Model for Copied<R> {
    ghost use Rattle.gc_copier.specs.Plan.{all_seen};
    ghost use Rattle.gc_copier.specs.Copying.{CopiedState, IsCopied};

    ghost Value = { CopiedState };

    ghost view = { λ c. record {
      rows = c.rows.items;
      sources = all_seen R.state c.sources.items;
      payload = c.payload.items;
    } };

    ghost invariant = { λ c. IsCopied c.rows.items (all_seen R.state c.sources.items) c.payload.items };
}

impl<R: Receipt> Copied<R> {
    /// Whether it was copied by this plan: it has the plan's rows, and its sources are the plan's.
    pub fn is_of(&self, plan: &GcPlan<R>) -> bool
        ensures { IsTrue result ↔ ((self.now.rows ≡ plan.now.rows) × (self.now.sources ≡ plan.now.sources)) }
    {
        self.rows.as_slice() == plan.rows() && are_same(self.sources.as_slice(), plan.sources())
    }

    /// The rows of the copy object to come.
    pub fn rows(&self) -> &[CopyRow]
        ensures rows { result.now ≡ self.now.rows }
        ensures copied { IsCopied self.now.rows self.now.sources self.now.payload }
    {
        self.rows.as_slice()
    }

    /// The objects that data were taken from, by ascending number.
    pub fn sources(&self) -> &[PlanSource<R>]
        ensures sources { all_seen R.state result.now ≡ self.now.sources }
        ensures copied { IsCopied self.now.rows self.now.sources self.now.payload }
    {
        self.sources.as_slice()
    }

    /// The payload of the copy object to come.
    pub fn payload(&self) -> &[u8]
        ensures payload { result.now ≡ self.now.payload }
        ensures copied { IsCopied self.now.rows self.now.sources self.now.payload }
    {
        self.payload.as_slice()
    }

    /// How many sectors the payload has: at most 131,071.
    pub fn sectors(&self) -> u64
        ensures sectors { result ≡ sectors_of self.now.rows }
        ensures copied { IsCopied self.now.rows self.now.sources self.now.payload }
    {
        self.payload.len() as u64 / SECTOR_BYTES
    }
}
