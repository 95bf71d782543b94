use std::alloc::AllocError;
use thiserror::Error;

/// Why no object was sealed.
#[derive(Clone, Copy, Debug, PartialEq, Eq, Error)]
pub enum SealError {
    /// No entry is in no object yet.
    #[error("there is nothing to seal")]
    Nothing,
    /// 16 objects are on their way to the store.
    #[error("too many objects are on their way to the store")]
    Busy,
    /// Memory ran out.
    #[error("out of memory")]
    OutOfMemory,
}

impl From<AllocError> for SealError {
    ghost use Rattle.std.specs.Prelude.{◌≡◌};
    ghost use Rattle.obj_log.specs.declared.error.SealError.TheVariants.{OutOfMemory};

    ghost from_gives = { λ error e. e ≡ OutOfMemory };

    fn from(_error: AllocError) -> SealError {
        SealError::OutOfMemory
    }
}
