ghost use Rattle.std.specs.Prelude.{◌⊎◌, map, string_bytes, IfOk, IfSome, IfNone};
ghost use Rattle.command_line.specs.CommandLine.{AsksForHelp};
ghost use Rattle.command_line.specs.Mistake.{AreRefused, AreTaken, IsTrueOf};

use crate::bad_values::bad_value_in;
use crate::faults::fault_in;
use crate::program::matches_of;
use crate::request::request_in;
use clap::error::ErrorKind;
use std::alloc::{AllocError, Global};
use std::fmt;

/// What is wrong with a command line. Its `Display` is one sentence, in which each text that the words
/// brought is quoted, with its control characters escaped.
#[derive(Clone, Copy, Debug, PartialEq, Eq)]
pub enum Mistake<'a> {
    /// There are no words: the first has to be a command.
    NoCommand,
    /// The first word is no command.
    UnknownCommand {
        word: &'a str,
    },
    /// A word begins with a hyphen, and what stands there before any `=` is no option of the command.
    UnknownOption {
        command: &'a str,
        option: &'a str,
    },
    /// A word is neither an option nor the value of one.
    StrayWord {
        command: &'a str,
        word: &'a str,
    },
    /// An option that takes a value is the last word, or a word that begins with a hyphen follows it.
    NoValue {
        option: &'a str,
    },
    /// A flag has a value.
    FlagValue {
        flag: &'a str,
    },
    /// An option is given again.
    Twice {
        option: &'a str,
    },
    /// An option that the command asks for is not given.
    Missing {
        option: &'a str,
    },
    /// The value of an option that wants a number or a uuid is empty.
    EmptyValue {
        option: &'a str,
    },
    /// The value of an option is no number in decimal digits within its limits.
    NoNumber {
        option: &'a str,
        value: &'a str,
        least: u64,
        most: u64,
    },
    /// The value of an option is no uuid.
    NoUuid {
        option: &'a str,
        value: &'a str,
    },
    /// The log has no room for two records of the longest write.
    ShortLog {
        log: u64,
        least: u64,
    },
    /// A word of a command that has words of its own is no number in decimal digits within its limits.
    BadNumber {
        name: &'a str,
        value: &'a str,
        least: u64,
        most: u64,
    },
    /// A command that has words of its own has too few.
    MissingWord {
        command: &'a str,
    },
    /// The words are refused for another cause.
    Other,
}

// What is told of the commands where the first word is none.
const COMMANDS: &str = "the commands are replay, create, serve, collect, check and churn";

impl fmt::Display for Mistake<'_> {
    fn fmt<W: fmt::Write>(&self, f: &mut fmt::Formatter<W>) -> fmt::Result {
        match self {
            Mistake::NoCommand => write!(f, "no command is given; {COMMANDS}"),
            Mistake::UnknownCommand { word } => {
                write!(f, "there is no command {word:?}; {COMMANDS}")
            }
            Mistake::UnknownOption { command, option } => {
                write!(f, "there is no option {option:?} of {command}")
            }
            Mistake::StrayWord { command, word } => {
                write!(f, "the word {word:?} is no option of {command}")
            }
            Mistake::NoValue { option } => write_about(f, "the option", option, "has no value"),
            Mistake::FlagValue { flag } => write_about(f, "the flag", flag, "takes no value"),
            Mistake::Twice { option } => write_about(f, "the option", option, "is given twice"),
            Mistake::Missing { option } => write_about(f, "the option", option, "is missing"),
            Mistake::EmptyValue { option } => write_about(f, "the value of", option, "is empty"),
            Mistake::NoNumber {
                option,
                value,
                least,
                most,
            } => write_no_number(f, option, value, *least, *most),
            Mistake::NoUuid { option, value } => write!(f, "--{option} {value:?} is no uuid"),
            Mistake::ShortLog { log, least } => write_short_log(f, *log, *least),
            Mistake::BadNumber {
                name,
                value,
                least,
                most,
            } => write_bad_number(f, name, value, *least, *most),
            Mistake::MissingWord { command } => write!(f, "a word is missing after {command}"),
            Mistake::Other => f.write_str("the words are no command line"),
        }
    }
}

// What is wrong with an option, between the texts before and after its name.
fn write_about<W: fmt::Write>(
    f: &mut fmt::Formatter<W>,
    before: &str,
    option: &str,
    after: &str,
) -> fmt::Result {
    write!(f, "{before} --{option} {after}")
}

fn write_no_number<W: fmt::Write>(
    f: &mut fmt::Formatter<W>,
    option: &str,
    value: &str,
    least: u64,
    most: u64,
) -> fmt::Result {
    write!(
        f,
        "--{option} {value:?} is no number from {least} to {most}"
    )
}

fn write_bad_number<W: fmt::Write>(
    f: &mut fmt::Formatter<W>,
    name: &str,
    value: &str,
    least: u64,
    most: u64,
) -> fmt::Result {
    write!(f, "{name} {value:?} is no number from {least} to {most}")
}

fn write_short_log<W: fmt::Write>(f: &mut fmt::Formatter<W>, log: u64, least: u64) -> fmt::Result {
    write!(
        f,
        "--log {log} is shorter than two records of the longest write, \
         2 * (max-write + 1) = {least} sectors"
    )
}

/// The mistake in the words after the program's name. None is for words that `request_of` takes, and for
/// those that ask for help or for the version. Of several mistakes it is the first word from the left that is
/// wrong by itself, then an option that is missing, and then a value, in the order of `--help`; a log that is
/// too short for the longest write comes last. The one error is out of memory.
pub fn mistake_of<'a>(alloc: Global, words: &'a [String]) -> Result<Option<Mistake<'a>>, AllocError>
    ensures none { IfOk result (λ found. IfNone found
        (AreTaken (map string_bytes words.now) ⊎ AsksForHelp (map string_bytes words.now))) }
    ensures some { IfOk result (λ found. IfSome found (λ _. AreRefused (map string_bytes words.now))) }
    ensures names { IfOk result (λ found. IfSome found (IsTrueOf (map string_bytes words.now))) }
{
    match matches_of(alloc, words) {
        Ok(matches) => match request_in(&matches) {
            Some(_) => Ok(None),
            None => Ok(Some(bad_value_in(&matches).unwrap_or(Mistake::Other))),
        },
        Err(error) => match error.kind() {
            ErrorKind::OutOfMemory => Err(AllocError),
            ErrorKind::DisplayHelp | ErrorKind::DisplayVersion => Ok(None),
            _ => Ok(Some(fault_in(alloc, words)?)),
        },
    }
}
