ghost use Rattle.std.specs.Prelude.{◌≡◌};
ghost use Rattle.object_format.specs.Tests.{code_of};

use thiserror::Error;

/// The first reason for which bytes are no object under the expected number, in the order of the tests.
#[derive(Clone, Copy, Debug, PartialEq, Eq, Error)]
pub enum BadObject {
    /// There are not as many bytes as the header says, or where its kind is unknown, no whole sectors.
    #[error("another length than the header says")]
    Length,
    /// It does not begin with the magic.
    #[error("no magic")]
    Magic,
    /// Its kind is none of the three.
    #[error("an unknown kind")]
    Kind,
    /// It has another volume's uuid.
    #[error("another volume's uuid")]
    Uuid,
    /// Its number is not the one that is expected.
    #[error("another number")]
    Number,
    /// Its seqs are out of order for its kind, or do not go on where the object before it ends.
    #[error("seqs out of order")]
    Seqs,
    /// It has more rows or more sectors of payload than it may have.
    #[error("counts past a limit")]
    Counts,
    /// Its rows do not keep their one spelling, or there are no zeros after them.
    #[error("rows out of order")]
    Rows,
}

impl BadObject {
    /// Its number: 1 for `Length`, up to 8 for `Rows`.
    pub fn code(self) -> u32
        ensures { result ≡ code_of self }
    {
        match self {
            BadObject::Length => 1,
            BadObject::Magic => 2,
            BadObject::Kind => 3,
            BadObject::Uuid => 4,
            BadObject::Number => 5,
            BadObject::Seqs => 6,
            BadObject::Counts => 7,
            BadObject::Rows => 8,
        }
    }
}
