ghost use Rattle.std.specs.Prelude.{◌≡◌, map, string_bytes, IfOk, IfSome, IfNone};
ghost use Rattle.clap.specs.Words.{kind_of};
ghost use Rattle.command_line.specs.CommandLine.{AsksForHelp};

use crate::program::matches_of;
use clap::error::ErrorKind;
use std::alloc::{AllocError, Global};

/// The text that the words after the program's name ask for, be it help or the version. None is for words
/// that ask for none. The one error is out of memory.
pub fn help_of(alloc: Global, words: &[String]) -> Result<Option<String>, AllocError>
    ensures some { IfOk result (λ text. IfSome text (λ _. AsksForHelp (map string_bytes words.now))) }
    ensures none { IfOk result (λ text. IfNone text (AsksForHelp (map string_bytes words.now) → ⊥)) }
{
    let Err(error) = matches_of(alloc, words) else {
        return Ok(None);
    };
    match error.kind() {
        // No clause of clap says what the text is: the gate reads it (scripts/check_command_line).
        ErrorKind::DisplayHelp | ErrorKind::DisplayVersion => Ok(Some(error.to_string(alloc)?)),
        ErrorKind::OutOfMemory => Err(AllocError),
        _ => Ok(None),
    }
}
