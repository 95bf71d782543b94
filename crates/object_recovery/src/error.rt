ghost use Rattle.std.specs.Prelude.{◌≡◌};
ghost use Rattle.object_recovery.specs.declared.error.RecoverError.TheVariants as errors;
ghost use Rattle.object_recovery.specs.Faults.{of_store, of_refusal};

use crate::judging::ObjectRefusal;
use lsvd_fault::Failed;
use lsvd_objstore::StoreError;
use object_format::BadObject;
use std::alloc::AllocError;
use thiserror::Error;
use uuid::Uuid;

/// Why the objects of a volume were not recovered.
#[derive(Clone, Copy, Debug, PartialEq, Eq, Error)]
pub enum RecoverError {
    /// No object of the volume is a checkpoint.
    #[error("the store has no checkpoint of the volume")]
    NoCheckpoint,
    /// The object of this number, past the newest checkpoint, is bad, and none with a greater number is. Up
    /// to the first missing number an object is bad that is not of the grammar, or does not go on where the
    /// object before it ends, where that one is of the grammar by itself. Past the first missing number the
    /// end before is not known. Or no object is bad nor missing, and a hold names the object of this number,
    /// which is no checkpoint.
    #[error("bad object {number}: {reason}")]
    BadObject { number: u64, reason: BadObject },
    /// No object is bad, and the newest checkpoint maps a sector to the one of this number, which does not
    /// have it there: it is absent, is no data object or copy of the grammar, or its payload has no such
    /// place. Or it is an ancestor's, and is there without having that. Or a hold names the checkpoint of
    /// this number, which is absent.
    #[error("object {number} is absent, or does not have what the newest checkpoint maps to it")]
    MissingObject { number: u64 },
    /// Nothing else is refused, and the newest checkpoint maps a sector to an object of the ancestor with
    /// this uuid that is absent: the first such, by level and then by number.
    #[error("an object of the ancestor {uuid} is absent")]
    BaseMissing { uuid: Uuid },
    /// A call of the store failed, and was counted by it.
    #[error("the store failed")]
    StoreFault,
    /// Memory ran out.
    #[error("out of memory")]
    OutOfMemory,
}

impl From<ObjectRefusal> for RecoverError {
    ghost from_gives = { λ refusal e. e ≡ of_refusal refusal };

    fn from(refusal: ObjectRefusal) -> RecoverError {
        RecoverError::BadObject {
            number: refusal.number,
            reason: refusal.reason,
        }
    }
}

impl From<StoreError> for RecoverError {
    ghost from_gives = { λ error e. e ≡ of_store error };

    fn from(error: StoreError) -> RecoverError {
        match error {
            StoreError::Failed => RecoverError::StoreFault,
            StoreError::OutOfMemory => RecoverError::OutOfMemory,
        }
    }
}

impl From<Failed> for RecoverError {
    ghost from_gives = { λ _ e. e ≡ errors.StoreFault };

    fn from(_: Failed) -> RecoverError {
        RecoverError::StoreFault
    }
}

impl From<AllocError> for RecoverError {
    ghost from_gives = { λ _ e. e ≡ errors.OutOfMemory };

    fn from(_: AllocError) -> RecoverError {
        RecoverError::OutOfMemory
    }
}
