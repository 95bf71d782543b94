ghost use Rattle.std.specs.Prelude.{◌≡◌, List, ℕ, map, string_bytes, IfOk, false};
ghost use Rattle.clap.specs.Words.{FailsBy, app_of, fault_of, shape_of, subcommand_of, subcommand_rows_of};
ghost use Rattle.clap.specs.declared.builder.command.Command.TheViews.{out-Command};
ghost use Rattle.command_line.specs.Program.{bare, lsvdctl, replay};
ghost use Rattle.command_line.specs.CommandLine.{faults_of};

use crate::check::check_command;
use crate::churn::churn_command;
use crate::collect::collect_command;
use crate::create::create_command;
use crate::serve::serve_command;
use clap::{ArgMatches, Command, Error};
use std::alloc::{AllocError, Global};

// The program's name.
const NAME: &str = "lsvdctl";

// The version that `--version` tells.
const VERSION: &str = "0.1.0";

// What clap makes of the words after the program's name.
pub(crate) fn matches_of(alloc: Global, words: &[String]) -> Result<ArgMatches<'_>, Error>
    ensures kinds { FailsBy (faults_of (map string_bytes words.now)) result }
    ensures met { IfOk result (λ matches. subcommand_rows_of matches ≡ subcommand_of lsvdctl
        (map string_bytes words.now)) }
{
    program(alloc)?.try_get_matches_from(words)
}

// The program, with each of its commands.
pub(crate) fn program<'a>(alloc: Global) -> Result<Command<'a>, AllocError>
    ensures { IfOk result (λ program. app_of program ≡ lsvdctl) }
{
    let program = bare_program(alloc)?.subcommand(replay_command(alloc))?;
    let Ok(create) = create_command(alloc) else {
        drop(program);
        return Err(AllocError);
    };
    let program = program.subcommand(create)?;
    let Ok(serve) = serve_command(alloc) else {
        drop(program);
        return Err(AllocError);
    };
    let program = program.subcommand(serve)?;
    let Ok(collect) = collect_command(alloc) else {
        drop(program);
        return Err(AllocError);
    };
    let program = program.subcommand(collect)?;
    let Ok(check) = check_command(alloc) else {
        drop(program);
        return Err(AllocError);
    };
    let program = program.subcommand(check)?;
    let Ok(churn) = churn_command(alloc) else {
        drop(program);
        return Err(AllocError);
    };
    program.subcommand(churn)
}

// The program without its commands.
fn bare_program<'a>(alloc: Global) -> Result<Command<'a>, AllocError>
    ensures { IfOk result (λ program. app_of program ≡ bare) }
{
    let program = Command::new(alloc, NAME).bin_name(NAME)?;
    Ok(
        program
            .version(VERSION)
            .about("A log-structured virtual disk")
            .no_binary_name(true)
            .subcommand_required(true)
            .disable_help_subcommand(true),
    )
}

// `replay`, which has no options.
fn replay_command<'a>(alloc: Global) -> Command<'a>
    ensures shape { shape_of result ≡ replay }
    ensures local { (out-Command result).has_globals ≡ false }
{
    Command::new(alloc, "replay").about("Replay the script on standard input")
}
