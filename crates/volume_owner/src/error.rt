ghost use Rattle.std.specs.Prelude.{◌≡◌};
ghost use Rattle.volume_owner.specs.declared.error.OwnerError.TheVariants as errors;
ghost use Rattle.volume_owner.specs.Errors.{of_copy, of_store};

use gc_copier::CopyError;
use lsvd_fault::Failed;
use lsvd_objstore::StoreError;
use thiserror::Error;

/// Why a request was not carried out.
#[derive(Clone, Copy, Debug, PartialEq, Eq, Error)]
pub enum OwnerError {
    /// The volume does not take a request for these sectors.
    #[error("the sectors are not inside the volume, or too many")]
    Range,
    /// A call of the disk or of the store failed, which that counted.
    #[error("the disk or the store failed")]
    Eio,
    /// Memory ran out.
    #[error("out of memory")]
    OutOfMemory,
}

impl From<Failed> for OwnerError {
    ghost from_gives = { λ _ e. e ≡ errors.Eio };

    fn from(_: Failed) -> OwnerError {
        OwnerError::Eio
    }
}

impl From<StoreError> for OwnerError {
    ghost from_gives = { λ error e. e ≡ of_store error };

    fn from(error: StoreError) -> OwnerError {
        match error {
            StoreError::Failed => OwnerError::Eio,
            StoreError::OutOfMemory => OwnerError::OutOfMemory,
        }
    }
}

impl From<CopyError> for OwnerError {
    ghost from_gives = { λ error e. e ≡ of_copy error };

    fn from(error: CopyError) -> OwnerError {
        match error {
            CopyError::Failed { .. } => OwnerError::Eio,
            CopyError::OutOfMemory => OwnerError::OutOfMemory,
        }
    }
}
