ghost use Rattle.std.specs.Prelude.{◌≡◌};
ghost use Rattle.lsvd_objstore.specs.declared.error.StoreError.TheVariants as store_errors;

use lsvd_fault::Failed;
use std::alloc::AllocError;
use thiserror::Error;

/// Why a call of a store gave no answer.
#[derive(Clone, Copy, Debug, PartialEq, Eq, Error)]
pub enum StoreError {
    /// The store could not be reached, or did not acknowledge what it was asked for. It counted the fault.
    #[error("a call of the store failed")]
    Failed,
    /// Memory ran out. Nothing changed, and no fault was counted.
    #[error("out of memory")]
    OutOfMemory,
}

impl From<Failed> for StoreError {
    ghost from_gives = { λ _ e. e ≡ store_errors.Failed };

    fn from(_: Failed) -> StoreError {
        StoreError::Failed
    }
}

impl From<AllocError> for StoreError {
    ghost from_gives = { λ _ e. e ≡ store_errors.OutOfMemory };

    fn from(_: AllocError) -> StoreError {
        StoreError::OutOfMemory
    }
}
