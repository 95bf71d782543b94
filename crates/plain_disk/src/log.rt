use commit_body::Mark;

/// The record of an entry in the log.
#[derive(Clone, Copy, PartialEq, Eq)]
pub struct PlainRecord {
    /// The sectors of the pad before it.
    pub pad: u64,
    /// The sector of the log at which it stands.
    pub at: u64,
    /// The sectors that it has.
    pub sectors: u64,
}

/// A commit of the log.
#[derive(Clone, Copy, PartialEq, Eq)]
pub struct PlainCommit {
    /// Where the first record stands, and its seq.
    pub tail: Mark,
    /// Where the record after the last one will stand, and its seq.
    pub head: Mark,
}
