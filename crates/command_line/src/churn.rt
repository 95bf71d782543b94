ghost use Rattle.std.specs.Prelude.{◌≡◌, IfOk, IfSome, IfNone, false};
ghost use Rattle.clap.specs.Words.{found_of, rows_of, rule_of, shape_of};
ghost use Rattle.clap.specs.declared.builder.command.Command.TheViews.{out-Command};
ghost use Rattle.command_line.specs.Churn.{AsksToChurn, HasBadNumber, rule_of_place};
ghost use Rattle.command_line.specs.Met.{value_among};
ghost use Rattle.command_line.specs.Program.{churn};

use crate::values::{number_between, number_in};
use clap::{Arg, ArgMatches, Command};
use std::alloc::{AllocError, Global};

/// What `churn` asks for: the run of a script that is generated.
#[derive(Clone, Copy, Debug, PartialEq, Eq)]
pub struct ChurnRequest {
    /// The steps of the script: 0 to 1,000,000.
    pub steps: u64,
    /// The seed that it is generated from.
    pub seed: u64,
}

/// The most steps of a generated script.
pub(crate) const MAX_STEPS: u64 = 1_000_000;

// `churn`, with its two words.
pub(crate) fn churn_command<'a>(alloc: Global) -> Result<Command<'a>, AllocError>
    ensures shape { IfOk result (λ command. shape_of command ≡ churn) }
    ensures local { IfOk result (λ command. (out-Command command).has_globals ≡ false) }
{
    let steps = place(alloc, "steps", "N", "Steps of the script: 0 to 1000000");
    let seed = place(
        alloc,
        "seed",
        "SEED",
        "Seed of the script: a number below 2^64",
    );
    let command = Command::new(alloc, "churn").about(
        "Run a generated script on a volume in memory, and sum it up",
    );
    command.arg(steps)?.arg(seed)
}

// A word that the command asks for, which help calls `value`.
fn place<'a>(alloc: Global, name: &'a str, value: &'a str, help: &'a str) -> Arg<'a>
    ensures rule { rule_of result ≡ rule_of_place name.entry.now }
    ensures local { result.global ≡ false }
{
    Arg::new(alloc, name)
        .value_name(value)
        .required(true)
        .help(help)
}

// What the words ask for. None is for one that is no number, or past its limit.
pub(crate) fn churn_in(values: &ArgMatches<'_>) -> Option<ChurnRequest>
    ensures found { IfSome result (AsksToChurn (value_among (rows_of (found_of values.now)))) }
    ensures none { IfNone result (HasBadNumber (value_among (rows_of (found_of values.now)))) }
{
    Some(ChurnRequest {
        steps: number_between(values, "steps", 0, MAX_STEPS)?,
        seed: number_in(values, "seed")?,
    })
}
