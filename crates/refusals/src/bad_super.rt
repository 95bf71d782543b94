ghost use Rattle.std.specs.Prelude.{◌≡◌};
ghost use Rattle.refusals.specs.Numbers.{super_code};

use super_format::SuperReason;
use thiserror::Error;

/// The first reason for which what a store says of a volume is refused, in the order of the tests.
#[derive(Clone, Copy, Debug, PartialEq, Eq, Error)]
pub enum BadSuper {
    /// The bytes of the super object are none of the volume, for this reason.
    #[error("bad super object: {0}")]
    Super(SuperReason),
    /// The store has no epoch of the volume.
    #[error("the store has no epoch of the volume")]
    NoEpoch,
    /// The epoch with the greatest number, which is this one, has bytes that are no epoch of that number.
    #[error("bad epoch {number}")]
    BadEpoch { number: u64 },
    /// The hold of this number, which is the least such number, has bytes that are no hold of that number.
    #[error("bad hold {number}")]
    BadHold { number: u64 },
}

impl BadSuper {
    /// Its number: that of the reason, 1 to 6, for `Super`, 7 for `NoEpoch`, 8 for `BadEpoch` and `BadHold`.
    pub fn code(self) -> u32
        ensures { result ≡ super_code self }
    {
        match self {
            BadSuper::Super(reason) => reason.code(),
            BadSuper::NoEpoch => 7,
            BadSuper::BadEpoch { .. } | BadSuper::BadHold { .. } => 8,
        }
    }
}
