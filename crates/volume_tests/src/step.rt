use std::fmt;

/// What is done with a volume. Numbers of sectors stand behind those of the first sector.
#[derive(Clone, Copy, Debug)]
pub enum Step {
    /// Writes sectors of a byte.
    Write(u64, u64, Byte),
    Zero(u64, u64),
    Flush,
    /// Plans a read, which is kept until it is fetched.
    Look(u64, u64),
    /// Fetches the read that was planned.
    Fetch,
    /// Gives the plan back.
    Release,
    /// All three at once.
    Read(u64, u64),
    Seal,
    Take,
    /// The put of an object is done.
    Done(u64),
    /// The put of an object failed.
    Failed(u64),
    /// Seals a checkpoint.
    Checkpoint,
    /// Begins the removal of an object.
    Remove,
    /// The removal of an object is done.
    Removed(u64),
    /// The removal of an object failed.
    NotRemoved(u64),
    Status,
    /// Asks how many objects are on their way to the store.
    Open,
    /// Asks how many writes of the device no sync has made durable.
    Pending,
    /// The device passes so many calls more.
    Stop(u64),
    /// A crash: which numbers have landed, the first being 0, and which of the pending writes are kept.
    Keep(&'static [bool], &'static [bool]),
    /// A crash without the cache.
    Lose(&'static [bool]),
}

/// A byte, shown as two hexadecimal digits.
#[derive(Clone, Copy, PartialEq, Eq)]
pub struct Byte(pub u8);

impl fmt::Debug for Byte {
    fn fmt<W: fmt::Write>(&self, f: &mut fmt::Formatter<W>) -> fmt::Result {
        write!(f, "{:02x}", self.0)
    }
}

/// Steps of a new volume, after some that are not shown.
pub struct Row {
    pub name: &'static str,
    pub before: &'static [Step],
    pub steps: &'static [Step],
}
