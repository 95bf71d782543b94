ghost use Rattle.std.specs.Prelude.{◌≡◌, ◌<◌, IfOk, IfSome, length, map, string_bytes};
ghost use Rattle.std.specs.List.{list_any};
ghost use Rattle.command_line.specs.Mistake.{IsGivenOption, IsTrueOf, IsTrueOfCommand, before_value, gives};
ghost use Rattle.command_line.specs.Mistake.{has_value};

use crate::mistake::Mistake;
use crate::program::program;
use clap::Command;
use std::alloc::{AllocError, Global};

// The word that ends the options.
const END: &str = "--";

// The option that each command has of clap.
const HELP: &str = "help";

// The mistake in words that clap refuses.
pub(crate) fn fault_in<'a>(alloc: Global, words: &'a [String]) -> Result<Mistake<'a>, AllocError>
    ensures { IfOk result (IsTrueOf (map string_bytes words.now)) }
{
    let Some(first) = words.first() else {
        return Ok(Mistake::NoCommand);
    };
    let program = program(alloc)?;
    let word = first.as_str();
    let mistake = match program.find_subcommand(word) {
        Some(command) => fault_of_command(command, words),
        None => Mistake::UnknownCommand { word },
    };
    drop(program);
    Ok(mistake)
}

// The mistake in the words after the command's name. Where it has words of its own, the first ones that are
// no options are those.
fn fault_of_command<'a>(command: &Command<'a>, words: &'a [String]) -> Mistake<'a>
    ensures { IsTrueOfCommand command.now (map string_bytes words.now) result }
{
    let mut places = places_of(command);
    for at in 1..words.len() {
        match fault_at(command, words, at) {
            Some(Mistake::StrayWord { .. }) if 0 < places => places -= 1,
            Some(mistake) => return mistake,
            None => {}
        }
    }
    if 0 < places {
        return Mistake::MissingWord {
            command: command.get_name(),
        };
    }
    missing_in(command, words).unwrap_or(Mistake::Other)
}

// How many words of its own the command has.
fn places_of(command: &Command<'_>) -> usize {
    command
        .get_arguments()
        .iter()
        .filter(|argument| argument.get_long().is_none())
        .count()
}

// What is wrong with the word at this place, where the command has no words of its own. A value that is a
// word of its own does not look like an option, so the word before it tells what it is.
fn fault_at<'a>(command: &Command<'a>, words: &'a [String], at: usize) -> Option<Mistake<'a>>
    requires first { 0 < at }
    requires inside { at < length words.now }
    ensures { IfSome result (IsTrueOfCommand command.now (map string_bytes words.now)) }
{
    let word = words[at].as_str();
    let before = words[at - 1].as_str();
    if !is_ended(&words[..at]) {
        if word == END {
            return None;
        }
        if looks_like_option(word) {
            return option_fault(command, words, at);
        }
        if waits_for_value(command, before) {
            return None;
        }
    }
    Some(Mistake::StrayWord {
        command: command.get_name(),
        word,
    })
}

// Whether one of the words ends the options.
fn is_ended(words: &[String]) -> bool {
    words.iter().any(|word| word.as_str() == END)
}

// What is wrong with a word that looks like an option.
fn option_fault<'a>(command: &Command<'a>, words: &'a [String], at: usize) -> Option<Mistake<'a>>
    requires { at < length words.now }
    ensures { IfSome result (IsTrueOfCommand command.now (map string_bytes words.now)) }
{
    let word = words[at].as_str();
    let Some(option) = option_of(command, word) else {
        return Some(Mistake::UnknownOption {
            command: command.get_name(),
            option: before_value(word),
        });
    };
    if option.takes_value {
        if !has_value(word) && !is_followed_by_value(words, at) {
            return Some(Mistake::NoValue {
                option: option.name,
            });
        }
    } else if has_value(word) {
        return Some(Mistake::FlagValue { flag: option.name });
    }
    if !is_given(&words[..at], option.name) {
        return None;
    }
    Some(Mistake::Twice {
        option: option.name,
    })
}

// The first option that the command asks for and no word gives.
fn missing_in<'a>(command: &Command<'a>, words: &[String]) -> Option<Mistake<'a>>
    ensures { IfSome result (IsTrueOfCommand command.now (map string_bytes words.now)) }
{
    for option in command.get_arguments() {
        if let Some(name) = option.get_long()
            && option.is_required_set()
            && !is_given(words, name)
        {
            return Some(Mistake::Missing { option: name });
        }
    }
    None
}

// An option of a command.
#[derive(Clone, Copy)]
struct Named<'a> {
    name: &'a str,
    takes_value: bool,
}

// The option of the command that the word gives.
fn option_of<'a>(command: &Command<'a>, word: &str) -> Option<Named<'a>>
    ensures { IfSome result (λ option.
        IsGivenOption command.now word.now option.name.now option.takes_value) }
{
    for option in command.get_arguments() {
        if let Some(name) = option.get_long()
            && gives(word, name)
        {
            return Some(Named {
                name,
                takes_value: option.get_action().takes_values(),
            });
        }
    }
    if !gives(word, HELP) {
        return None;
    }
    Some(Named {
        name: HELP,
        takes_value: false,
    })
}

// Whether the next word is the value of this option.
fn waits_for_value(command: &Command<'_>, word: &str) -> bool {
    match option_of(command, word) {
        Some(option) => option.takes_value && !has_value(word),
        None => false,
    }
}

// Whether a word that may be a value stands behind this place.
fn is_followed_by_value(words: &[String], at: usize) -> bool
    requires { at < length words.now }
{
    match words.get(at + 1) {
        Some(next) => !looks_like_option(next.as_str()),
        None => false,
    }
}

// Whether one of the words gives the option of this name.
fn is_given(words: &[String], name: &str) -> bool
    ensures { result ≡ list_any (λ word. gives name.now (string_bytes word)) words.now }
{
    words.iter().any(|word| gives(word.as_str(), name))
}

// Whether the word is the option of this name, with a value or without one.
fn gives(word: &str, name: &str) -> bool
    ensures { result ≡ gives name.now word.now }
{
    match before_value(word).as_bytes() {
        [b'-', b'-', rest @ ..] => rest == name.as_bytes(),
        _ => false,
    }
}

// Whether the word begins with a hyphen and has more than that.
fn looks_like_option(word: &str) -> bool {
    match word.as_bytes() {
        [b'-', _, ..] => true,
        _ => false,
    }
}

// What stands before the value that a word joins to an option by `=`.
fn before_value(word: &str) -> &str
    ensures { result.now ≡ before_value word.now }
{
    match word.split_once('=') {
        Some((name, _)) => name,
        None => word,
    }
}

// Whether a value is joined to the option.
fn has_value(word: &str) -> bool
    ensures { result ≡ has_value word.now }
{
    word.as_bytes().contains(&b'=')
}
