ghost use Rattle.std.specs.Prelude.{◌≡◌, ◌≢◌, ◌⊎◌, ◌<◌, ◌≤◌, ◌+◌, ◌*◌, ◌^◌, List, ℕ, [], ◌∷◌, map, codes};
ghost use Rattle.std.specs.Prelude.{IfOk, IfSome, IfNone, IsErrOf, decimal, string_bytes};
ghost use Rattle.std.specs.List.{All, flat_map};
ghost use Rattle.clap.specs.Words.{kind_of, subcommand_rows_of};
ghost use Rattle.clap.specs.declared.error.kind.ErrorKind.TheVariants as kinds;
ghost use Rattle.lsvd_base.specs.declared.geometry.Geometry.{Geometry};
ghost use Rattle.command_line.specs.Check.{AreValidToCheck, check_value};
ghost use Rattle.command_line.specs.Collect.{AreValidToCollect, collect_value};
ghost use Rattle.command_line.specs.CommandLine.{HasBadOptions, IsAskedBy, IsFaulty, IsRead, IsRefused, Line};
ghost use Rattle.command_line.specs.CommandLine.{Spells, commands};
ghost use Rattle.command_line.specs.Create.{AreValid, HasBadUuid, value_in};
ghost use Rattle.command_line.specs.Met.{IsMadeOf, MakesNone};
ghost use Rattle.command_line.specs.Options.{Given, option_words};
ghost use Rattle.command_line.specs.Serve.{AreValidToServe, serve_value};
ghost use Rattle.command_line.specs.Values.{IsNoUuid};

use crate::check::{CheckRequest, check_in};
use crate::churn::{ChurnRequest, churn_in};
use crate::create::{CreateRequest, create_in};
use crate::mount::{MountRequest, mount_in};
use crate::program::matches_of;
use crate::serve::{ServeRequest, serve_in};
use clap::ArgMatches;
use clap::error::ErrorKind;
use std::alloc::Global;
use thiserror::Error;

/// What a command line asks for.
#[derive(Clone, Copy, Debug, PartialEq, Eq)]
pub enum Request<'a> {
    /// Replay the script on the input.
    Replay,
    /// Create a volume.
    Create(CreateRequest<'a>),
    /// Serve a volume.
    Serve(ServeRequest<'a>),
    /// Collect a volume.
    Collect(MountRequest<'a>),
    /// Check what a store has of a volume.
    Check(CheckRequest<'a>),
    /// Run a script that is generated.
    Churn(ChurnRequest),
}

/// Why a command line was not read.
#[derive(Clone, Copy, Debug, PartialEq, Eq, Error)]
pub enum CommandLineError {
    /// The words are no command line of the program. Those that ask for help or for the version are none.
    #[error("the words are no command line of the program")]
    Usage,
    /// Out of memory.
    #[error("out of memory")]
    OutOfMemory,
}

/// Reads the words after the program's name. `Usage` comes where clap refuses them, and where the values of
/// the options ask for nothing; `OutOfMemory` where memory runs out while they are read.
pub fn request_of<'a>(alloc: Global, words: &'a [String]) -> Result<Request<'a>, CommandLineError>
    ensures ok { IfOk result (λ request. (line : Line) × Spells (map string_bytes words.now) line
        × IsAskedBy line request) }
    ensures usage { IsErrOf result CommandLineError.Usage → IsFaulty (map string_bytes words.now)
        ⊎ ((line : Line) × Spells (map string_bytes words.now) line × HasBadOptions line) }

    // Words that clap takes are read by the line that they spell, and those that it refuses are none.
    ensures line { (line : Line) → Spells (map string_bytes words.now) line → IsRead line result }
    ensures faulty { IsFaulty (map string_bytes words.now) → IsRefused result }

    // Without a word of clap: the command `replay` alone is taken, no words are refused, and so are words
    // that begin with no command.
    ensures replay { map string_bytes words.now ≡ codes "replay" ∷ []
        → (result ≡ Ok Request.Replay) ⊎ (result ≡ Err CommandLineError.OutOfMemory) }
    ensures empty { words.now ≡ [] → IsRefused result }
    ensures unknown { (first : List ℕ) (rest : List (List ℕ)) → map string_bytes words.now ≡ first ∷ rest
        → All (λ command. command ≢ first) commands → IsRefused result }

    // Plain options of `create` are refused for a text that is no uuid alone, and for a log that is too
    // short.
    ensures valid { (options : List Given) (sizes : Geometry) → AreValid options sizes
        → map string_bytes words.now ≡ codes "create" ∷ flat_map option_words options
        → IsErrOf result CommandLineError.Usage → HasBadUuid (value_in options)
        ⊎ (sizes.log < 2 * (sizes.max_write + 1)) }

    // And plain options of `serve`, `collect` and `check` for a text that is no uuid alone.
    ensures serve_valid { (options : List Given) → AreValidToServe options
        → map string_bytes words.now ≡ codes "serve" ∷ flat_map option_words options
        → IsErrOf result CommandLineError.Usage → IsNoUuid (serve_value options) (codes "volume") }
    ensures collect_valid { (options : List Given) → AreValidToCollect options
        → map string_bytes words.now ≡ codes "collect" ∷ flat_map option_words options
        → IsErrOf result CommandLineError.Usage → IsNoUuid (collect_value options) (codes "volume") }
    ensures check_valid { (options : List Given) → AreValidToCheck options
        → map string_bytes words.now ≡ codes "check" ∷ flat_map option_words options
        → IsErrOf result CommandLineError.Usage → IsNoUuid (check_value options) (codes "volume") }

    // Two numbers in their limits, in decimal digits, are not refused of `churn`.
    ensures churn_valid { (steps seed : ℕ) → steps ≤ 1000000 → seed < 2 ^ 64
        → map string_bytes words.now ≡ codes "churn" ∷ decimal steps ∷ decimal seed ∷ []
        → IsErrOf result CommandLineError.Usage → ⊥ }
{
    let matches = match matches_of(alloc, words) {
        Ok(matches) => matches,
        Err(error) => return Err(cause_of(&error)),
    };
    match request_in(&matches) {
        Some(request) => Ok(request),
        None => Err(CommandLineError::Usage),
    }
}

// The request that the command in the matches makes, with the values of its options.
pub(crate) fn request_in<'a>(matches: &ArgMatches<'a>) -> Option<Request<'a>>
    ensures found { IfSome result (IsMadeOf (subcommand_rows_of matches.now)) }
    ensures none { IfNone result (MakesNone (subcommand_rows_of matches.now)) }
{
    let (command, values) = matches.subcommand()?;
    match command {
        "replay" => Some(Request::Replay),
        "create" => match create_in(values) {
            Some(request) => Some(Request::Create(request)),
            None => None,
        },
        "serve" => match serve_in(values) {
            Some(request) => Some(Request::Serve(request)),
            None => None,
        },
        "collect" => match mount_in(values) {
            Some(request) => Some(Request::Collect(request)),
            None => None,
        },
        "check" => match check_in(values) {
            Some(request) => Some(Request::Check(request)),
            None => None,
        },
        "churn" => match churn_in(values) {
            Some(request) => Some(Request::Churn(request)),
            None => None,
        },
        _ => None,
    }
}

// What an error of clap means here.
fn cause_of(error: &clap::Error) -> CommandLineError
    ensures memory { kind_of error.now ≡ kinds.OutOfMemory → result ≡ CommandLineError.OutOfMemory }
    ensures usage { kind_of error.now ≢ kinds.OutOfMemory → result ≡ CommandLineError.Usage }
{
    match error.kind() {
        ErrorKind::OutOfMemory => CommandLineError::OutOfMemory,
        _ => CommandLineError::Usage,
    }
}
