ghost use Rattle.std.specs.Prelude.{◌≡◌, IfOk, None, false, map};
ghost use Rattle.clap.specs.Words.{rule_of};
ghost use Rattle.command_line.specs.Commands.{AddsOptions, option_of};
ghost use Rattle.command_line.specs.Options.{flag, required, rule_for, rule_named};

use clap::{Arg, ArgAction, Command};
use std::alloc::{AllocError, Global};

// An option of a command, with what help tells of it.
#[derive(Clone, Copy)]
pub(crate) enum OptionText<'a> {
    // The command asks for its value.
    Required {
        name: &'a str,
        value: &'a str,
        help: &'a str,
    },
    // Its value may be left out.
    Optional {
        name: &'a str,
        value: &'a str,
        help: &'a str,
    },
    // Its value may be left out, and is then this one.
    Defaulted {
        name: &'a str,
        value: &'a str,
        help: &'a str,
        default: &'a str,
    },
    // It takes no value.
    Flag {
        name: &'a str,
        help: &'a str,
    },
}

// The command with these options too.
pub(crate) fn with_options<'a>(
    alloc: Global,
    command: Command<'a>,
    options: &[OptionText<'a>],
) -> Result<Command<'a>, AllocError>
    ensures { IfOk result (AddsOptions command.entry (map option_of options.now)) }
{
    let mut command = command;
    for text in options {
        command = command.arg(arg_of(alloc, text))?;
    }
    Ok(command)
}

// The option as clap takes it.
fn arg_of<'a>(alloc: Global, text: &OptionText<'a>) -> Arg<'a>
    ensures rule { rule_of result ≡ rule_for (option_of text.now) }
    ensures local { result.global ≡ false }
{
    match *text {
        OptionText::Required { name, value, help } => required(alloc, name, value).help(help),
        OptionText::Optional { name, value, help } => option(alloc, name, value).help(help),
        OptionText::Defaulted {
            name,
            value,
            help,
            default,
        } => option(alloc, name, value).help(help).default_value(default),
        OptionText::Flag { name, help } => flag(alloc, name).help(help),
    }
}

// An option that takes one value, which help calls `value`.
fn option<'a>(alloc: Global, name: &'a str, value: &'a str) -> Arg<'a>
    ensures rule { rule_of result ≡ rule_named name.entry.now }
    ensures local { result.global ≡ false }
{
    Arg::new(alloc, name).long(name).value_name(value)
}

// An option that the command asks for.
fn required<'a>(alloc: Global, name: &'a str, value: &'a str) -> Arg<'a>
    ensures rule { rule_of result ≡ rule_for (required name.entry.now) }
    ensures local { result.global ≡ false }
{
    option(alloc, name, value).required(true)
}

// An option that takes no value.
fn flag<'a>(alloc: Global, name: &'a str) -> Arg<'a>
    ensures rule { rule_of result ≡ rule_for (flag name.entry.now) }
    ensures local { result.global ≡ false }
{
    Arg::new(alloc, name).long(name).action(ArgAction::SetTrue)
}
