use clone_chain::ExtendError;
use lsvd_device::FileError;
use lsvd_fault::Failed;
use lsvd_listen::ListenError;
use lsvd_objstore::{DirectoryError, StoreError};
use std::alloc::AllocError;
use std::io;
use thiserror::Error;

/// Why tests ended before all was told.
#[derive(Clone, Copy, Debug, Error)]
pub enum TestError {
    /// A value was refused that should not be, or is past what the tests make.
    #[error("a value was refused")]
    Refused,
    /// A call failed that should not.
    #[error("a call failed")]
    Failed,
    /// The operating system refused a call.
    #[error("{0}")]
    System(io::Error),
    /// Memory ran out.
    #[error("out of memory")]
    Memory,
}

impl From<AllocError> for TestError {
    fn from(_: AllocError) -> TestError {
        TestError::Memory
    }
}

impl From<io::Error> for TestError {
    fn from(error: io::Error) -> TestError {
        TestError::System(error)
    }
}

impl From<Failed> for TestError {
    fn from(_: Failed) -> TestError {
        TestError::Failed
    }
}

impl From<ExtendError> for TestError {
    fn from(_: ExtendError) -> TestError {
        TestError::Refused
    }
}

impl From<StoreError> for TestError {
    fn from(error: StoreError) -> TestError {
        match error {
            StoreError::Failed => TestError::Failed,
            StoreError::OutOfMemory => TestError::Memory,
        }
    }
}

impl From<FileError> for TestError {
    fn from(error: FileError) -> TestError {
        match error {
            FileError::InUse => TestError::Failed,
            FileError::System(error) => TestError::System(error),
            FileError::OutOfMemory => TestError::Memory,
        }
    }
}

impl From<DirectoryError> for TestError {
    fn from(error: DirectoryError) -> TestError {
        match error {
            DirectoryError::System(error) => TestError::System(error),
            DirectoryError::OutOfMemory => TestError::Memory,
        }
    }
}

impl From<ListenError> for TestError {
    fn from(error: ListenError) -> TestError {
        match error {
            ListenError::InUse | ListenError::NotSocket => TestError::Failed,
            ListenError::Os(error) => TestError::System(error),
            ListenError::OutOfMemory => TestError::Memory,
        }
    }
}
