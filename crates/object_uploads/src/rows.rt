ghost use Rattle.std.specs.Prelude.{◌≡◌, ◌+◌, ◌≤◌, ℕ};
ghost use Rattle.extent_map.specs.Extents.{place_at};
ghost use Rattle.volume_maps.specs.Places.{object_on};
ghost use Rattle.object_uploads.specs.Queue.{count_of_rows, is_checkpoint, settled_by_rows};
ghost use Rattle.object_uploads.specs.Invariant.{MaySettle};

use extent_map::ExtentMap;
use object_format::{CopyRow, DataRow, copies_payload};
use volume_maps::{ObjectPlace, settle_copies, settle_rows};

/// What an object past the frontier does to the maps once it is settled.
#[derive(Debug, Drop)]
pub enum SealedRows {
    /// A data object puts and clears sectors, as its rows say.
    Data(Vec<DataRow>),
    /// A copy takes those of its sectors that the map still has in the sources of their rows.
    Copy(Vec<CopyRow>),
    /// A checkpoint changes no sector.
    Checkpoint,
}

impl SealedRows {
    // How many changes of the maps they may take: one for each row of a data object, and one for each sector
    // of a copy, of which the map may have any two in different places. They fit.
    pub(crate) fn count(&self) -> usize
        requires { MaySettle self.now }
        ensures { result ≡ count_of_rows self.now }
    {
        match self {
            SealedRows::Data(rows) => rows.len(),
            SealedRows::Copy(rows) => copies_payload(rows) as usize,
            SealedRows::Checkpoint => 0,
        }
    }

    // Settles them in a map, as those of the object of a number. There is room for the changes, and they fit.
    pub(crate) fn settle_in(&self, map: &mut ExtentMap<ObjectPlace>, number: u64)
        requires room { count_of_rows self.now ≤ map.old.spare }
        requires fit { MaySettle self.now }
        ensures places { (k : ℕ) → place_at object_on map.new.rows k ≡ settled_by_rows number self.now
            (place_at object_on map.old.rows k) k }
        ensures spare { map.old.spare ≤ map.new.spare + count_of_rows self.now }
    {
        match self {
            SealedRows::Data(rows) => settle_rows(map, number, rows),
            SealedRows::Copy(rows) => settle_copies(map, number, rows),
            SealedRows::Checkpoint => {}
        }
    }

    // Whether they are those of a checkpoint.
    pub(crate) fn is_checkpoint(&self) -> bool
        ensures { result ≡ is_checkpoint self.now }
    {
        match self {
            SealedRows::Data(_) | SealedRows::Copy(_) => false,
            SealedRows::Checkpoint => true,
        }
    }
}
