ghost use Rattle.std.specs.Prelude.{◌≡◌};
ghost use Rattle.lsvd_base.specs.Limits.{is_within_limits, covers, may_transfer};

/// The sizes of a volume and of its log.
#[derive(Clone, Copy, Debug, PartialEq, Eq)]
pub struct Geometry {
    /// The sectors of the volume: 8 to 2^31.
    pub sectors: u64,
    /// The most sectors of one read or write: 8 to 65,536.
    pub max_write: u64,
    /// The sectors that make a batch of writes full: 1 to 65,536.
    pub batch: u64,
    /// The sectors of the log: at least two records of the longest write, at most 2^31.
    pub log: u64,
}

impl Geometry {
    /// The least sectors of a volume.
    pub const MIN_SECTORS: u64 = 8;

    /// The most sectors of a volume.
    pub const MAX_SECTORS: u64 = 0x8000_0000;

    /// The least value of `max_write`.
    pub const MIN_TRANSFER: u64 = 8;

    /// The greatest value of `max_write`.
    pub const MAX_TRANSFER: u64 = 65_536;

    /// The most sectors of a batch, of which the least is 1.
    pub const MAX_BATCH: u64 = 65_536;

    /// The most sectors of a log.
    pub const MAX_LOG: u64 = 0x8000_0000;

    /// Whether each size keeps its limits.
    pub fn is_within_limits(&self) -> bool
        ensures { result ≡ is_within_limits self.now }
    {
        Self::MIN_SECTORS <= self.sectors
            && self.sectors <= Self::MAX_SECTORS
            && Self::MIN_TRANSFER <= self.max_write
            && self.max_write <= Self::MAX_TRANSFER
            && 1 <= self.batch
            && self.batch <= Self::MAX_BATCH
            && 2 * (self.max_write + 1) <= self.log
            && self.log <= Self::MAX_LOG
    }

    /// Whether one read or write may cover `sectors` sectors from `lba` on: at least one, at most
    /// `max_write`, and all of them inside the volume.
    pub fn may_transfer(&self, lba: u64, sectors: u64) -> bool
        ensures { result ≡ may_transfer self.now lba sectors }
    {
        0 < sectors && sectors <= self.max_write && self.covers(lba, sectors)
    }

    /// Whether `sectors` sectors from `lba` on lie inside the volume.
    pub fn covers(&self, lba: u64, sectors: u64) -> bool
        ensures { result ≡ covers self.now lba sectors }
    {
        sectors <= self.sectors && lba <= self.sectors - sectors
    }
}
