ghost use Rattle.std.specs.Prelude.{◌≡◌};
ghost use Rattle.vol_mount.specs.declared.error.MountError.TheVariants as mount_errors;
ghost use Rattle.vol_mount.specs.Refusals.{of_recovery, of_super, of_load, of_open, of_read};

use cache_log::{LogReadError, OpenError};
use commit_slot::LoadError;
use lsvd_fault::Failed;
use object_recovery::RecoverError;
use refusals::Refusal;
use std::alloc::AllocError;
use super_recovery::SuperError;
use thiserror::Error;

/// Why a volume was not mounted.
#[derive(Clone, Copy, Debug, PartialEq, Eq, Error)]
pub enum MountError {
    /// The volume is refused, for this reason.
    #[error("{0}")]
    Refused(Refusal),
    /// A call of the store failed, and was counted by it.
    #[error("the store failed")]
    StoreFault,
    /// A call of the device failed, and was counted by it.
    #[error("the device failed")]
    DeviceFault,
    /// Memory ran out.
    #[error("out of memory")]
    OutOfMemory,
}

impl From<RecoverError> for MountError {
    ghost from_gives = { λ error e. e ≡ of_recovery error };

    fn from(error: RecoverError) -> MountError {
        match error {
            RecoverError::NoCheckpoint => MountError::Refused(Refusal::NoCheckpoint),
            RecoverError::BadObject { number, reason } => {
                MountError::Refused(Refusal::BadObject { number, reason })
            }
            RecoverError::MissingObject { number } => {
                MountError::Refused(Refusal::MissingObject { number })
            }
            RecoverError::BaseMissing { uuid } => {
                MountError::Refused(Refusal::BaseMissing { ancestor: uuid })
            }
            RecoverError::StoreFault => MountError::StoreFault,
            RecoverError::OutOfMemory => MountError::OutOfMemory,
        }
    }
}

impl From<SuperError> for MountError {
    ghost from_gives = { λ error e. e ≡ of_super error };

    fn from(error: SuperError) -> MountError {
        match error {
            SuperError::NoVolume => MountError::Refused(Refusal::NoVolume),
            SuperError::BadSuper { reason } => MountError::Refused(Refusal::BadSuper { reason }),
            SuperError::StoreFault => MountError::StoreFault,
            SuperError::OutOfMemory => MountError::OutOfMemory,
        }
    }
}

impl From<LoadError> for MountError {
    ghost from_gives = { λ error e. e ≡ of_load error };

    fn from(error: LoadError) -> MountError {
        match error {
            LoadError::NoSlot { log } => MountError::Refused(Refusal::NoSlot { log }),
            LoadError::DeviceFault => MountError::DeviceFault,
        }
    }
}

impl From<OpenError> for MountError {
    ghost from_gives = { λ error e. e ≡ of_open error };

    fn from(error: OpenError) -> MountError {
        match error {
            OpenError::BadRecord { seq, reason } => {
                MountError::Refused(Refusal::BadRecord { seq, reason })
            }
            OpenError::DeviceFault => MountError::DeviceFault,
            OpenError::OutOfMemory => MountError::OutOfMemory,
        }
    }
}

impl From<LogReadError> for MountError {
    ghost from_gives = { λ error e. e ≡ of_read error };

    fn from(error: LogReadError) -> MountError {
        match error {
            LogReadError::DeviceFault => MountError::DeviceFault,
            LogReadError::OutOfMemory => MountError::OutOfMemory,
        }
    }
}

impl From<AllocError> for MountError {
    ghost from_gives = { λ _ e. e ≡ mount_errors.OutOfMemory };

    fn from(_: AllocError) -> MountError {
        MountError::OutOfMemory
    }
}

impl From<Failed> for MountError {
    ghost from_gives = { λ _ e. e ≡ mount_errors.DeviceFault };

    fn from(_: Failed) -> MountError {
        MountError::DeviceFault
    }
}
