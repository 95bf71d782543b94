use lsvd_fault::Failed;
use std::alloc::AllocError;
use std::io;
use thiserror::Error;
use volume_owner::OwnerError;

/// Why a round was not made.
#[derive(Clone, Copy, Debug, Error)]
pub enum BenchError {
    /// A size is past what a volume takes.
    #[error("a size past the limits")]
    Refused,
    /// A step did not do what it should.
    #[error("a step answered otherwise")]
    Answer,
    /// The clock or the output failed.
    #[error("the clock or the output failed")]
    System,
    /// Memory ran out.
    #[error("out of memory")]
    Memory,
}

impl From<AllocError> for BenchError {
    fn from(_error: AllocError) -> BenchError {
        BenchError::Memory
    }
}

impl From<Failed> for BenchError {
    fn from(_error: Failed) -> BenchError {
        BenchError::Answer
    }
}

impl From<OwnerError> for BenchError {
    fn from(error: OwnerError) -> BenchError {
        match error {
            OwnerError::OutOfMemory => BenchError::Memory,
            OwnerError::Range | OwnerError::Eio => BenchError::Answer,
        }
    }
}

impl From<io::Error> for BenchError {
    fn from(_error: io::Error) -> BenchError {
        BenchError::System
    }
}
