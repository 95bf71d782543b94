ghost use Rattle.std.specs.Prelude.{◌↔◌, IsTrue};
ghost use Rattle.commit_body.specs.Body.{MayStand};

/// A place of the log.
#[derive(Clone, Copy, Debug, PartialEq, Eq)]
pub struct Mark {
    /// The sector of the log, from 0 on.
    pub position: u64,
    /// The seq of the record that stands or will stand there.
    pub seq: u64,
}

/// What a commit says.
#[derive(Clone, Copy, Debug, PartialEq, Eq)]
pub struct CommitBody {
    /// The volume's uuid.
    pub uuid: [u8; 16],
    /// The volume's epoch.
    pub epoch: u64,
    /// Where the first record of the log stands.
    pub tail: Mark,
    /// Where the record after the last one will stand.
    pub head: Mark,
}

/// Whether the body may stand for a log of this many sectors: both positions are inside the log, the tail's
/// seq is not past the head's, and tail and head with one seq are at one position.
pub fn is_within(body: &CommitBody, log: u64) -> bool
    ensures { IsTrue result ↔ MayStand body.now log }
{
    body.tail.position < log
        && body.head.position < log
        && body.tail.seq <= body.head.seq
        && (body.tail.seq != body.head.seq || body.tail.position == body.head.position)
}
