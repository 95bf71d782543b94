/// One row of a map: sectors that follow one another, whose places do too.
#[derive(Clone, Copy, Debug, PartialEq, Eq)]
pub struct Extent<P> {
    /// The first sector.
    pub lba: u64,
    /// How many sectors it covers.
    pub sectors: u64,
    /// The place of the first sector. That of each further one is one sector on.
    pub place: P,
}
