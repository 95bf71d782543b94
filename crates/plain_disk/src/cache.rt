/// A write of the cache device that no sync has made durable.
#[derive(Clone, Copy, PartialEq, Eq)]
pub enum PendingWrite {
    /// The header of the pad before an entry's record, which has the entry's seq.
    Pad(u64),
    /// The record of the entry with this seq.
    Record(u64),
    /// The body of a commit.
    Body,
    /// The gate of the next commit's slot, which is closed.
    ClosedGate,
    /// The gate of a commit's own slot, which is opened.
    OpenedGate,
}
