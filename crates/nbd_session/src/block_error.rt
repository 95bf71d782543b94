use thiserror::Error;

/// Why a block device has not carried out a call.
#[derive(Clone, Copy, Debug, PartialEq, Eq, Error)]
pub enum BlockError {
    /// A call of the disk or of the store failed, which that counted.
    #[error("the disk or the store failed")]
    Io,
    /// Memory ran out.
    #[error("out of memory")]
    OutOfMemory,
}
