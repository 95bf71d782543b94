ghost use Rattle.std.specs.Prelude.{◌≡◌};
ghost use Rattle.read_plan.specs.declared.error.LookError.TheVariants as errors;

use lsvd_fault::Failed;
use std::alloc::AllocError;
use thiserror::Error;

/// Why a read was not planned.
#[derive(Clone, Copy, Debug, PartialEq, Eq, Error)]
pub enum LookError {
    /// The device of the log could not be read; the fault was counted.
    #[error("the device failed")]
    Fault,
    /// Memory ran out. No call of the device was made.
    #[error("out of memory")]
    OutOfMemory,
}

impl From<Failed> for LookError {
    ghost from_gives = { λ _ e. e ≡ errors.Fault };

    fn from(_: Failed) -> LookError {
        LookError::Fault
    }
}

impl From<AllocError> for LookError {
    ghost from_gives = { λ _ e. e ≡ errors.OutOfMemory };

    fn from(_: AllocError) -> LookError {
        LookError::OutOfMemory
    }
}
