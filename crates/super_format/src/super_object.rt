ghost use Rattle.std.specs.Prelude.{◌≡◌, ◌↔◌, IsTrue};
ghost use Rattle.super_format.specs.Super.{geometry_with, MayBeSuper};

use clone_chain::Chain;
use lsvd_base::Geometry;
use uuid::Uuid;

/// What a volume is. The sectors of its log are not told here: they are those of its cache device.
#[derive(Debug, Drop)]
pub struct Super {
    /// The volume's uuid.
    pub uuid: Uuid,
    /// The sectors of the volume: 8 to 2^31.
    pub sectors: u64,
    /// The most sectors of one read or write: 8 to 65,536.
    pub max_write: u64,
    /// The sectors that make a batch of writes full: 1 to 65,536.
    pub batch: u64,
    /// The volumes that it is a clone of. None is the volume itself.
    pub chain: Chain,
}

impl Super {
    /// Its sizes, with a log of this many sectors.
    pub fn geometry(&self, log: u64) -> Geometry
        ensures { result ≡ geometry_with self.now log }
    {
        Geometry {
            sectors: self.sectors,
            max_write: self.max_write,
            batch: self.batch,
            log,
        }
    }

    /// Whether it may be written: its sizes keep their limits, and none of its ancestors is the volume
    /// itself.
    pub fn may_stand(&self) -> bool
        ensures { IsTrue result ↔ MayBeSuper self.now }
    {
        let sizes = self.geometry(Geometry::MAX_LOG);
        self.chain.count() < Chain::MAX_LEVELS
            && sizes.is_within_limits()
            && self.chain.level_of(self.uuid).is_none()
    }
}
