/// Sectors of the volume, one after the other. It takes 8 bytes, since a large volume has millions of them; a
/// volume has 2^31 sectors at most.
#[derive(Clone, Copy, Debug, PartialEq, Eq)]
pub struct SectorRange {
    /// The first of them.
    pub lba: u32,
    /// How many they are.
    pub sectors: u32,
}
