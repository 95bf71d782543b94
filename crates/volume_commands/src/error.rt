ghost use Rattle.std.specs.Prelude.{◌≡◌};
ghost use Rattle.volume_commands.specs.declared.error.CommandError.TheVariants as errors;
ghost use Rattle.volume_commands.specs.Checking.{of_check};
ghost use Rattle.volume_commands.specs.Creating.{of_creation, of_look, of_world};
ghost use Rattle.volume_commands.specs.Serving.{of_mount, of_owner};

use crate::world::WorldError;
use lsvd_fault::Failed;
use refusals::Refusal;
use std::alloc::AllocError;
use super_recovery::SuperError;
use thiserror::Error;
use vol_check::CheckError;
use vol_recover::{CreateError, MountError};
use volume_owner::OwnerError;

/// Why a command ended before its work was done.
#[derive(Clone, Copy, Debug, Error)]
pub(crate) enum CommandError {
    /// The volume is not created, not mounted or not checked, for this reason.
    #[error("{0}")]
    Refused(Refusal),
    /// A call of the world failed, or one of a disk or of a store that it gave.
    #[error("a call to the outside failed")]
    Fault,
    /// Memory ran out.
    #[error("out of memory")]
    OutOfMemory,
}

impl From<WorldError> for CommandError {
    ghost from_gives = { λ error e. e ≡ of_world error };

    fn from(error: WorldError) -> CommandError {
        match error {
            WorldError::Failed => CommandError::Fault,
            WorldError::OutOfMemory => CommandError::OutOfMemory,
        }
    }
}

impl From<AllocError> for CommandError {
    ghost from_gives = { λ _ e. e ≡ errors.OutOfMemory };

    fn from(_: AllocError) -> CommandError {
        CommandError::OutOfMemory
    }
}

impl From<Failed> for CommandError {
    ghost from_gives = { λ _ e. e ≡ errors.Fault };

    fn from(_: Failed) -> CommandError {
        CommandError::Fault
    }
}

impl From<SuperError> for CommandError {
    ghost from_gives = { λ error e. e ≡ of_look error };

    // Whether a volume is there is asked alone, so that none is refused.
    fn from(error: SuperError) -> CommandError {
        match error {
            SuperError::OutOfMemory => CommandError::OutOfMemory,
            _ => CommandError::Fault,
        }
    }
}

impl From<CreateError> for CommandError {
    ghost from_gives = { λ error e. e ≡ of_creation error };

    fn from(error: CreateError) -> CommandError {
        match error {
            CreateError::Exists => CommandError::Refused(Refusal::Exists),
            CreateError::StoreFault | CreateError::DeviceFault => CommandError::Fault,
            CreateError::OutOfMemory => CommandError::OutOfMemory,
        }
    }
}

impl From<MountError> for CommandError {
    ghost from_gives = { λ error e. e ≡ of_mount error };

    fn from(error: MountError) -> CommandError {
        match error {
            MountError::Refused(refusal) => CommandError::Refused(refusal),
            MountError::StoreFault | MountError::DeviceFault => CommandError::Fault,
            MountError::OutOfMemory => CommandError::OutOfMemory,
        }
    }
}

// An owner refuses no range in a drain.
impl From<OwnerError> for CommandError {
    ghost from_gives = { λ error e. e ≡ of_owner error };

    fn from(error: OwnerError) -> CommandError {
        match error {
            OwnerError::Range | OwnerError::Eio => CommandError::Fault,
            OwnerError::OutOfMemory => CommandError::OutOfMemory,
        }
    }
}

impl From<CheckError> for CommandError {
    ghost from_gives = { λ error e. e ≡ of_check error };

    fn from(error: CheckError) -> CommandError {
        match error {
            CheckError::Refused(refusal) => CommandError::Refused(refusal),
            CheckError::StoreFault => CommandError::Fault,
            CheckError::OutOfMemory => CommandError::OutOfMemory,
        }
    }
}
