ghost use Rattle.std.specs.Prelude.{◌≡◌, IfOk};
ghost use Rattle.lsvd_base.specs.Range.{is_in_range};

use crate::body::Body;
use crate::geometry::Geometry;
use std::alloc::{AllocError, Global};

/// One change of a volume: the unit of its history and of its log.
#[derive(Debug, Drop)]
pub enum Entry {
    /// Puts the data at the sectors from `lba` on.
    Write { lba: u64, body: Body },
    /// Puts zeros at `sectors` sectors from `lba` on.
    Zero { lba: u64, sectors: u64 },
}

impl Entry {
    /// The same entry again, with its data. The one error is that memory ran out.
    pub fn copy(&self, alloc: Global) -> Result<Entry, AllocError>
        ensures { IfOk result (λ entry. entry ≡ self.now) }
    {
        match self {
            Entry::Write { lba, body } => {
                let body = body.copy(alloc)?;
                Ok(Entry::Write { lba: *lba, body })
            }
            Entry::Zero { lba, sectors } => Ok(Entry::Zero {
                lba: *lba,
                sectors: *sectors,
            }),
        }
    }
}

/// Whether a volume of this geometry takes the entry: it has at least one sector, all of its sectors
/// are inside the volume, and a write has at most `max_write` of them.
pub fn in_range(entry: &Entry, geometry: &Geometry) -> bool
    ensures { result ≡ is_in_range geometry.now entry.now }
{
    match entry {
        Entry::Write { lba, body } => geometry.may_transfer(*lba, body.sectors()),
        Entry::Zero { lba, sectors } => 0 < *sectors && geometry.covers(*lba, *sectors),
    }
}
