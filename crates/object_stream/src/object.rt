ghost use Rattle.std.specs.Prelude.{◌≡◌};

use std::marker::Model;

/// A sector of a copy: it is copied from an older object, and only where that still owns it.
#[derive(Clone, Copy, Debug, PartialEq, Eq)]
pub struct CopiedSector {
    /// The sector of the volume.
    pub lba: u64,
    /// The number of the volume's own object that it is copied from.
    pub source: u64,
}

/// The sectors of a copy, which contracts see as a list.
#[derive(Debug, Drop)]
pub struct CopiedSectors {
    sectors: Vec<CopiedSector>,
}

impl Model for CopiedSectors {
    ghost use Rattle.std.specs.Prelude.{List};
    ghost use Rattle.object_stream.specs.declared.object.CopiedSector.{CopiedSector};

    ghost Value = { List CopiedSector };

    ghost view = { λ c. c.sectors.items };
}

impl CopiedSectors {
    /// These sectors.
    pub fn new(sectors: Vec<CopiedSector>) -> CopiedSectors
        ensures { result ≡ sectors.items }
    {
        CopiedSectors { sectors }
    }

    /// The sectors.
    pub fn as_slice(&self) -> &[CopiedSector]
        ensures { result.now ≡ self.now }
    {
        self.sectors.as_slice()
    }
}

/// What an object of the stream has.
#[derive(Debug, Drop)]
pub enum Content {
    /// The entries from the end before it up to its own.
    Data,
    /// Sectors of older objects, each at most once.
    Copy(CopiedSectors),
    /// All owners by then.
    Checkpoint,
}

/// An object of the stream.
#[derive(Debug, Drop)]
pub struct StreamObject {
    /// What it has.
    pub content: Content,
    /// How many entries of the history are in it and in the objects before it.
    pub end: u64,
}
