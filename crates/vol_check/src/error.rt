ghost use Rattle.std.specs.Prelude.{◌≡◌};
ghost use Rattle.vol_check.specs.Errors.{of_recovery, of_super};

use object_recovery::RecoverError;
use refusals::Refusal;
use super_recovery::SuperError;
use thiserror::Error;

/// Why a volume was not checked.
#[derive(Clone, Copy, Debug, PartialEq, Eq, Error)]
pub enum CheckError {
    /// The volume is refused, for this reason.
    #[error("{0}")]
    Refused(Refusal),
    /// A call of the store failed, and was counted by it.
    #[error("the store failed")]
    StoreFault,
    /// Memory ran out.
    #[error("out of memory")]
    OutOfMemory,
}

impl From<SuperError> for CheckError {
    ghost from_gives = { λ error e. e ≡ of_super error };

    fn from(error: SuperError) -> CheckError {
        match error {
            SuperError::NoVolume => CheckError::Refused(Refusal::NoVolume),
            SuperError::BadSuper { reason } => CheckError::Refused(Refusal::BadSuper { reason }),
            SuperError::StoreFault => CheckError::StoreFault,
            SuperError::OutOfMemory => CheckError::OutOfMemory,
        }
    }
}

impl From<RecoverError> for CheckError {
    ghost from_gives = { λ error e. e ≡ of_recovery error };

    fn from(error: RecoverError) -> CheckError {
        match error {
            RecoverError::NoCheckpoint => CheckError::Refused(Refusal::NoCheckpoint),
            RecoverError::BadObject { number, reason } => {
                CheckError::Refused(Refusal::BadObject { number, reason })
            }
            RecoverError::MissingObject { number } => {
                CheckError::Refused(Refusal::MissingObject { number })
            }
            RecoverError::BaseMissing { uuid } => {
                CheckError::Refused(Refusal::BaseMissing { ancestor: uuid })
            }
            RecoverError::StoreFault => CheckError::StoreFault,
            RecoverError::OutOfMemory => CheckError::OutOfMemory,
        }
    }
}
