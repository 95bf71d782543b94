ghost use Rattle.std.specs.Prelude.{◌≡◌};
ghost use Rattle.log_record.specs.Tests.{code_of};

use thiserror::Error;

/// The first reason for which a sector is no header of a place, in the order of the tests.
#[derive(Clone, Copy, Debug, PartialEq, Eq, Error)]
pub enum Reason {
    /// It does not begin with the magic.
    #[error("no magic")]
    Magic,
    /// Its kind is none of the three.
    #[error("an unknown kind")]
    Kind,
    /// Its seq is not the one that is expected.
    #[error("another seq")]
    Seq,
    /// It names sectors that no entry or no pad may have there.
    #[error("sectors out of range")]
    Range,
    /// The bytes after the numbers are not all zeros.
    #[error("bytes behind the header")]
    Zeros,
    /// It passes the log's end or the committed head, or is the last record and does not end there.
    #[error("a record that does not fit")]
    Place,
}

impl Reason {
    /// Its number: 1 for `Magic`, up to 6 for `Place`.
    pub fn code(self) -> u32
        ensures { result ≡ code_of self }
    {
        match self {
            Reason::Magic => 1,
            Reason::Kind => 2,
            Reason::Seq => 3,
            Reason::Range => 4,
            Reason::Zeros => 5,
            Reason::Place => 6,
        }
    }
}

/// A sector is no header of the place where it was read.
#[derive(Clone, Copy, Debug, PartialEq, Eq, Error)]
#[error("bad record: {reason}")]
pub struct BadRecord {
    /// The first test that it fails.
    pub reason: Reason,
}
