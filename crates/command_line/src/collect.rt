ghost use Rattle.std.specs.Prelude.{◌≡◌, IfOk, false};
ghost use Rattle.clap.specs.Words.{shape_of};
ghost use Rattle.clap.specs.declared.builder.command.Command.TheViews.{out-Command};
ghost use Rattle.command_line.specs.Program.{collect};

use crate::mount::{CACHE, LOG, LOST, STORE, VOLUME};
use crate::options::{OptionText, with_options};
use clap::Command;
use std::alloc::{AllocError, Global};

// The options of `collect`: those that name what it mounts.
const OPTIONS: &[OptionText] = &[STORE, VOLUME, CACHE, LOST, LOG];

// `collect`, with its options.
pub(crate) fn collect_command<'a>(alloc: Global) -> Result<Command<'a>, AllocError>
    ensures shape { IfOk result (λ command. shape_of command ≡ collect) }
    ensures local { IfOk result (λ command. (out-Command command).has_globals ≡ false) }
{
    let command = Command::new(alloc, "collect").about(
        "Collect a volume: copy what little is live out of its objects, and remove those that are not \
         needed",
    );
    with_options(alloc, command, OPTIONS)
}
