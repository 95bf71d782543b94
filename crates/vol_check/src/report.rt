use uuid::Uuid;

/// An object of a volume or of one of its ancestors. They are in order by level first, then by number.
#[derive(Clone, Copy, Debug, PartialEq, Eq, PartialOrd, Ord)]
pub struct ObjectOfLevel {
    /// Whose object it is: 0 is the volume itself, and i its i-th ancestor.
    pub level: u32,
    /// Its number, 0 to 2^64 - 1.
    pub number: u64,
}

/// What a check finds of a volume that its store has. Each list is ascending, and has nothing twice.
#[derive(Debug, Drop)]
pub struct CheckReport {
    /// The volume.
    pub uuid: Uuid,
    /// The numbers of the checkpoints that holds name, whether the store has them or not.
    pub holds: Vec<u64>,
    /// The numbers, up to the last one, of the objects whose header is that of a checkpoint.
    pub checkpoints: Vec<u64>,
    /// The last number: that before the first number past the newest checkpoint that the store does not have.
    pub last: u64,
    /// The numbers of objects past the first missing number, which a mount removes.
    pub stranded: Vec<u64>,
    /// The numbers, up to the last one, of the objects that no mount needs: before the newest checkpoint,
    /// which does not map them, and neither named by a hold nor mapped by a checkpoint that one names.
    pub unneeded: Vec<u64>,
    /// The objects that the newest checkpoint, an object after it, a hold or a checkpoint that one names has
    /// named, and that are absent. By level first, then by number.
    pub missing: Vec<ObjectOfLevel>,
}
