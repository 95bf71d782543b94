ghost use Rattle.std.specs.Prelude.{◌≡◌};
ghost use Rattle.super_recovery.specs.declared.error.SuperError.TheVariants as errors;
ghost use Rattle.super_recovery.specs.Faults.{of_store, of_read};

use lsvd_objstore::StoreError;
use refusals::BadSuper;
use std::alloc::AllocError;
use super_format::SuperReadError;
use thiserror::Error;

/// Why a volume was not found in a store, or what was put of it was not.
#[derive(Clone, Copy, Debug, PartialEq, Eq, Error)]
pub enum SuperError {
    /// The store has no super object of the volume.
    #[error("the store has no super object of the volume")]
    NoVolume,
    /// The store has a super object of the volume, and it, the newest epoch or a hold is bad.
    #[error("{reason}")]
    BadSuper { reason: BadSuper },
    /// A call of the store failed, and was counted by it.
    #[error("the store failed")]
    StoreFault,
    /// Memory ran out.
    #[error("out of memory")]
    OutOfMemory,
}

impl From<StoreError> for SuperError {
    ghost from_gives = { λ error e. e ≡ of_store error };

    fn from(error: StoreError) -> SuperError {
        match error {
            StoreError::Failed => SuperError::StoreFault,
            StoreError::OutOfMemory => SuperError::OutOfMemory,
        }
    }
}

impl From<SuperReadError> for SuperError {
    ghost from_gives = { λ error e. e ≡ of_read error };

    fn from(error: SuperReadError) -> SuperError {
        match error {
            SuperReadError::BadSuper { reason } => SuperError::BadSuper {
                reason: BadSuper::Super(reason),
            },
            SuperReadError::OutOfMemory => SuperError::OutOfMemory,
        }
    }
}

impl From<AllocError> for SuperError {
    ghost from_gives = { λ _ e. e ≡ errors.OutOfMemory };

    fn from(_: AllocError) -> SuperError {
        SuperError::OutOfMemory
    }
}
