ghost use Rattle.std.specs.Prelude.{◌≡◌, IfOk};
ghost use Rattle.gc_copier.specs.Plan.{IsPlan, all_seen, sectors_of};

use crate::source::{PlanSource, copy_sources};
use lsvd_objstore::Receipt;
use object_format::{CopyRow, copies_payload};
use std::alloc::{AllocError, Global};
use std::marker::Model;

/// The plan of a copy: which sectors are copied, and from where.
///
/// Contracts see it as the rows of the copy object to come, and the objects that their data are taken from.
/// The rows ascend by `lba`, each at or past the end of the one before, and each has sectors; `place` is how
/// many sectors the rows before have together, and all have at most 131,071. A row's source is of level 0, is
/// among the objects, which ascend by number, and has the row's sectors in its payload.
#[derive(Drop)]
pub struct GcPlan<R: Receipt> {
    rows: Vec<CopyRow>,
    sources: Vec<PlanSource<R>>,
}

impl<R: Receipt> Model for GcPlan<R> {
    ghost use Rattle.gc_copier.specs.Plan.{PlanState, IsPlan, all_seen};

    ghost Value = { PlanState };

    ghost view = { λ p. record { rows = p.rows.items; sources = all_seen R.state p.sources.items } };

    ghost invariant = { λ p. IsPlan p.rows.items (all_seen R.state p.sources.items) };
}

impl<R: Receipt> GcPlan<R> {
    /// The plan with these rows and these objects, which make one (a condition).
    pub fn new(rows: Vec<CopyRow>, sources: Vec<PlanSource<R>>) -> GcPlan<R>
        requires { IsPlan rows.items (all_seen R.state sources.items) }
        ensures { result ≡ record { rows = rows.items; sources = all_seen R.state sources.items } }
    {
        GcPlan { rows, sources }
    }

    /// The same plan again, with copies of the receipts. The one error is that memory ran out.
    pub fn copy(&self, alloc: Global) -> Result<GcPlan<R>, AllocError>
        ensures { IfOk result (λ plan. plan ≡ self.now) }
    {
        let rows = Vec::from_slice(alloc, self.rows())?;
        let sources = copy_sources(alloc, self.sources())?;
        Ok(GcPlan { rows, sources })
    }

    /// The rows of the copy object to come.
    pub fn rows(&self) -> &[CopyRow]
        ensures rows { result.now ≡ self.now.rows }
        ensures plan { IsPlan self.now.rows self.now.sources }
    {
        self.rows.as_slice()
    }

    /// The objects that data are taken from, by ascending number.
    pub fn sources(&self) -> &[PlanSource<R>]
        ensures sources { all_seen R.state result.now ≡ self.now.sources }
        ensures plan { IsPlan self.now.rows self.now.sources }
    {
        self.sources.as_slice()
    }

    /// How many sectors the rows have together: at most 131,071.
    pub fn sectors(&self) -> u64
        ensures sectors { result ≡ sectors_of self.now.rows }
        ensures plan { IsPlan self.now.rows self.now.sources }
    {
        copies_payload(self.rows.as_slice())
    }
}
