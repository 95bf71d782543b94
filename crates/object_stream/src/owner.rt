/// The object that has the data of a sector.
#[derive(Clone, Copy, Debug, PartialEq, Eq)]
pub struct Owner {
    /// How many clones lie between the volume and the object: 0 is for an object of the volume's own.
    pub level: u32,
    /// The number of the object.
    pub number: u64,
}
