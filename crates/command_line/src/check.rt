ghost use Rattle.std.specs.Prelude.{◌≡◌, IfOk, IfSome, IfNone, false};
ghost use Rattle.clap.specs.Words.{found_of, rows_of, shape_of};
ghost use Rattle.clap.specs.declared.builder.command.Command.TheViews.{out-Command};
ghost use Rattle.command_line.specs.Check.{AsksToCheck};
ghost use Rattle.command_line.specs.Met.{LacksCheckValue, value_among};
ghost use Rattle.command_line.specs.Program.{check};

use crate::mount::{STORE, VOLUME};
use crate::options::{OptionText, with_options};
use crate::values::uuid_in;
use clap::{ArgMatches, Command};
use std::alloc::{AllocError, Global};
use uuid::Uuid;

/// What `check` asks for: a volume of a store.
#[derive(Clone, Copy, Debug, PartialEq, Eq)]
pub struct CheckRequest<'a> {
    /// The directory of the store.
    pub store: &'a str,
    /// The volume's uuid.
    pub volume: Uuid,
}

// The options of `check`.
const OPTIONS: &[OptionText] = &[STORE, VOLUME];

// `check`, with its options.
pub(crate) fn check_command<'a>(alloc: Global) -> Result<Command<'a>, AllocError>
    ensures shape { IfOk result (λ command. shape_of command ≡ check) }
    ensures local { IfOk result (λ command. (out-Command command).has_globals ≡ false) }
{
    let command = Command::new(alloc, "check").about(
        "Check what a store has of a volume: what is kept, what could go, and what is missing",
    );
    with_options(alloc, command, OPTIONS)
}

// What the values of the options ask for. None is for a text that is no uuid.
pub(crate) fn check_in<'a>(values: &ArgMatches<'a>) -> Option<CheckRequest<'a>>
    ensures found { IfSome result (AsksToCheck (value_among (rows_of (found_of values.now)))) }
    ensures none { IfNone result (LacksCheckValue (value_among (rows_of (found_of values.now)))) }
{
    Some(CheckRequest {
        store: values.get_str("store")?,
        volume: uuid_in(values, "volume")??,
    })
}
