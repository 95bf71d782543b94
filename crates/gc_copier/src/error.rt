ghost use Rattle.std.specs.Prelude.{◌≡◌};
ghost use Rattle.gc_copier.specs.declared.error.CopyError.TheVariants as errors;

use std::alloc::AllocError;
use thiserror::Error;

/// Why a plan was not copied.
#[derive(Clone, Copy, Debug, PartialEq, Eq, Error)]
pub enum CopyError {
    /// The source of this number could not be read; the store counted the fault.
    #[error("the store failed at object {number}")]
    Failed { number: u64 },
    /// Memory ran out. No call of the store was made.
    #[error("out of memory")]
    OutOfMemory,
}

impl From<AllocError> for CopyError {
    ghost from_gives = { λ _ e. e ≡ errors.OutOfMemory };

    fn from(_: AllocError) -> CopyError {
        CopyError::OutOfMemory
    }
}
