ghost use Rattle.std.specs.Prelude.{◌≡◌};
ghost use Rattle.super_format.specs.Tests.{code_of};

use thiserror::Error;

/// The first reason for which bytes are no super object of a volume, in the order of the tests.
#[derive(Clone, Copy, Debug, PartialEq, Eq, Error)]
pub enum SuperReason {
    /// There are not 48 bytes, and 24 more for each ancestor that they count.
    #[error("another length than the ancestors make")]
    Length,
    /// They do not begin with the magic.
    #[error("no magic")]
    Magic,
    /// The version is not 1.
    #[error("an unknown version")]
    Version,
    /// They have another volume's uuid.
    #[error("another volume's uuid")]
    Uuid,
    /// A size of the volume is out of its limits, or there are more than 15 ancestors.
    #[error("a size out of its limits")]
    Limits,
    /// An ancestor stands there twice, or is the volume itself.
    #[error("a volume that stands there twice")]
    Ancestors,
}

impl SuperReason {
    /// Its number: 1 for `Length`, up to 6 for `Ancestors`.
    pub fn code(self) -> u32
        ensures { result ≡ code_of self }
    {
        match self {
            SuperReason::Length => 1,
            SuperReason::Magic => 2,
            SuperReason::Version => 3,
            SuperReason::Uuid => 4,
            SuperReason::Limits => 5,
            SuperReason::Ancestors => 6,
        }
    }
}
