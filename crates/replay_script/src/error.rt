ghost use Rattle.std.specs.Prelude.{◌≡◌};
ghost use Rattle.replay_script.specs.declared.error.LineError.TheVariants as errors;

use std::alloc::AllocError;
use thiserror::Error;

/// Why a line was not read as a command. Of the reasons that a line gives, the first in this order is told.
#[derive(Clone, Copy, Debug, PartialEq, Eq, Error)]
pub enum LineError {
    /// The line does not begin with the name of a command.
    #[error("no such command")]
    UnknownCommand,
    /// The command has another number of words.
    #[error("another number of words than the command has")]
    WordCount,
    /// A word is not a number or a byte in its form, or the sizes of a volume are outside its limits.
    #[error("a word that is not in its form")]
    Form,
    /// Out of memory, and nothing is said of the line.
    #[error("out of memory")]
    OutOfMemory,
}

impl From<AllocError> for LineError {
    ghost from_gives = { λ _ e. e ≡ errors.OutOfMemory };

    fn from(_: AllocError) -> LineError {
        LineError::OutOfMemory
    }
}
