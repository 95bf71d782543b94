ghost use Rattle.std.specs.Prelude.{◌≡◌};
ghost use Rattle.cache_log.specs.declared.error.AppendError.TheVariants as append_errors;
ghost use Rattle.cache_log.specs.declared.error.LogReadError.TheVariants as read_errors;
ghost use Rattle.cache_log.specs.declared.error.OpenError.TheVariants as open_errors;

use log_record::Reason;
use lsvd_fault::Failed;
use std::alloc::{AllocError, AllocFailed};
use thiserror::Error;

/// Why an entry was not appended.
#[derive(Clone, Copy, Debug, PartialEq, Eq, Error)]
pub enum AppendError {
    /// The record, with the pad before it, needs more sectors than are free.
    #[error("{need} sectors are needed, and {free} are free")]
    NoRoom { need: u64, free: u64 },
    /// A call of the device failed, and was counted by it.
    #[error("the device failed")]
    DeviceFault,
}

impl From<Failed> for AppendError {
    ghost from_gives = { λ _ e. e ≡ append_errors.DeviceFault };

    fn from(_: Failed) -> AppendError {
        AppendError::DeviceFault
    }
}

/// Why entries were not read.
#[derive(Clone, Copy, Debug, PartialEq, Eq, Error)]
pub enum LogReadError {
    /// A call of the device failed, and was counted by it.
    #[error("the device failed")]
    DeviceFault,
    /// Memory ran out.
    #[error("out of memory")]
    OutOfMemory,
}

impl From<Failed> for LogReadError {
    ghost from_gives = { λ _ e. e ≡ read_errors.DeviceFault };

    fn from(_: Failed) -> LogReadError {
        LogReadError::DeviceFault
    }
}

impl From<AllocError> for LogReadError {
    ghost from_gives = { λ _ e. e ≡ read_errors.OutOfMemory };

    fn from(_: AllocError) -> LogReadError {
        LogReadError::OutOfMemory
    }
}

impl<T: Drop> From<AllocFailed<T>> for LogReadError {
    ghost from_gives = { λ _ e. e ≡ read_errors.OutOfMemory };

    fn from(_: AllocFailed<T>) -> LogReadError {
        LogReadError::OutOfMemory
    }
}

/// Why a log was not opened.
#[derive(Clone, Copy, Debug, PartialEq, Eq, Error)]
pub enum OpenError {
    /// The record with this seq, or the pad before it, is none: the first test that its header
    /// fails.
    #[error("bad record {seq}: {reason}")]
    BadRecord { seq: u64, reason: Reason },
    /// A call of the device failed, and was counted by it.
    #[error("the device failed")]
    DeviceFault,
    /// Memory ran out.
    #[error("out of memory")]
    OutOfMemory,
}

impl From<Failed> for OpenError {
    ghost from_gives = { λ _ e. e ≡ open_errors.DeviceFault };

    fn from(_: Failed) -> OpenError {
        OpenError::DeviceFault
    }
}

impl From<AllocError> for OpenError {
    ghost from_gives = { λ _ e. e ≡ open_errors.OutOfMemory };

    fn from(_: AllocError) -> OpenError {
        OpenError::OutOfMemory
    }
}

impl<T: Drop> From<AllocFailed<T>> for OpenError {
    ghost from_gives = { λ _ e. e ≡ open_errors.OutOfMemory };

    fn from(_: AllocFailed<T>) -> OpenError {
        OpenError::OutOfMemory
    }
}
