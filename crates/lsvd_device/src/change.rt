/// A change of a disk in memory.
#[derive(Clone, Copy, Debug, PartialEq, Eq)]
pub(crate) enum Change {
    /// `count` bytes were written from the byte `at` on.
    Write { at: u64, count: usize },
    /// What was written before was synced.
    Sync,
}
