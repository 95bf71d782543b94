ghost use Rattle.std.specs.Prelude.{◌≡◌};
ghost use Rattle.nbd_session.specs.declared.outcome.ReplyError.TheVariants as errors;
ghost use Rattle.nbd_session.specs.Exchanges.{of_block_error, reply_number};

use crate::asking::RequestError;
use crate::block_error::BlockError;
use lsvd_fault::Failed;
use std::alloc::AllocError;
use thiserror::Error;

/// Why a request was not carried out, as its reply tells.
#[derive(Clone, Copy, Debug, PartialEq, Eq, Error)]
pub enum ReplyError {
    /// It was refused by what it asks.
    #[error("{0}")]
    Refused(RequestError),
    /// A call of the disk or of the store failed, which that counted.
    #[error("the disk or the store failed")]
    Io,
    /// Memory ran out.
    #[error("out of memory")]
    NoMemory,
}

impl ReplyError {
    /// Its number in a reply: 22 or 28 for a refused request, 5 for a fault, and 12 for want of memory.
    pub fn code(self) -> u32
        ensures { result ≡ reply_number self }
    {
        match self {
            ReplyError::Refused(error) => error.code(),
            ReplyError::Io => 5,
            ReplyError::NoMemory => 12,
        }
    }
}

impl From<AllocError> for ReplyError {
    ghost from_gives = { λ _ e. e ≡ errors.NoMemory };

    fn from(_: AllocError) -> ReplyError {
        ReplyError::NoMemory
    }
}

impl From<Failed> for ReplyError {
    ghost from_gives = { λ _ e. e ≡ errors.Io };

    fn from(_: Failed) -> ReplyError {
        ReplyError::Io
    }
}

impl From<BlockError> for ReplyError {
    ghost from_gives = { λ error e. e ≡ of_block_error error };

    fn from(error: BlockError) -> ReplyError {
        match error {
            BlockError::Io => ReplyError::Io,
            BlockError::OutOfMemory => ReplyError::NoMemory,
        }
    }
}
