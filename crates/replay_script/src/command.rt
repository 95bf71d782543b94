ghost use Rattle.std.specs.Prelude.{IsTrue, ◌↔◌, IfOk, IfErr, IfSome, IfNone, ◌≡◌, ℕ, List, [], ◌∷◌, map};
ghost use Rattle.std.specs.Prelude.{codes, length};
ghost use Rattle.replay_script.specs.Grammar.{SpellsCommand, IsLineRefusedAs, Spell, SpellNone, AreRefusedAs};
ghost use Rattle.replay_script.specs.Names.{BeginWith, word_count_of};
ghost use Rattle.replay_script.specs.declared.error.LineError.TheVariants.{UnknownCommand};

use crate::error::LineError;
use crate::letters::Letters;
use crate::number::{byte_of, number_of};
use lsvd_base::Geometry;
use std::alloc::{AllocError, Global};

/// What a line of a script asks for.
#[derive(Debug, Drop)]
pub enum Command {
    /// `new S L M B`: makes a volume of S sectors with a log of L, requests of at most M, and batches of B.
    New(Geometry),
    /// `w LBA N XX`: writes N sectors of the byte XX from LBA on.
    Write { lba: u64, sectors: u64, byte: u8 },
    /// `z LBA N`: zeroes N sectors from LBA on.
    Zero { lba: u64, sectors: u64 },
    /// `r LBA N`: reads N sectors from LBA on.
    Read { lba: u64, sectors: u64 },
    /// `f`: flushes.
    Flush,
    /// `s`: seals the next object.
    Seal,
    /// `u`: begins the put of the lowest ready object.
    TakeJob,
    /// `d N`: the put of the object N is made and acknowledged.
    JobDone { number: u64 },
    /// `x N`: the put of the object N fails.
    JobFailed { number: u64 },
    /// `c`: seals a checkpoint.
    SealCheckpoint,
    /// `k`: removes the lowest object that may be removed.
    Remove,
    /// `g`: plans a copy of sectors out of objects that few sectors are live in, and copies them.
    PlanCopy,
    /// `G`: seals what was copied.
    SealCopy,
    /// `q`: gives the plan of a copy up.
    DropPlan,
    /// `i`: asks for the counts.
    Status,
    /// `stop N`: lets the device pass N calls more, and fail each later one.
    Stop { calls: u64 },
    /// `crash keep D P`: stops the machine, and mounts the volume again. D has a letter for each write that
    /// was not synced, and P one for each object under way, or they are `-`; which letters fit is judged
    /// elsewhere.
    CrashKeep { device: Letters, objects: Letters },
    /// `crash lost D P`: stops the machine, and mounts the volume without its cache. D is `-`, since nothing
    /// is left of the writes, and P is as for `crash keep`; which letters fit is judged elsewhere.
    CrashLost { device: Letters, objects: Letters },
}

/// Reads a line, without its newline, as the command that it spells. Where it spells none, the error is the
/// first of `UnknownCommand`, `WordCount` and `Form` that applies; `OutOfMemory` may come for each line.
pub fn command_of(alloc: Global, line: &[u8]) -> Result<Command, LineError>
    ensures found { IfOk result (SpellsCommand line.now) }
    ensures refused { IfErr result (IsLineRefusedAs line.now) }
{
    let words: Vec<&[u8]> = line.split(|b| *b == b' ').collect(alloc)?;
    command_from(alloc, &words)
}

/// A law: a line spells at most one command.
pub fn a_line_spells_one_command()
    ensures { (line : List ℕ) (a b : Command) → SpellsCommand line a → SpellsCommand line b → a ≡ b }
{}

// The name of a command.
#[derive(Clone, Copy)]
enum Name {
    New,
    Write,
    Zero,
    Read,
    Flush,
    Seal,
    TakeJob,
    JobDone,
    JobFailed,
    SealCheckpoint,
    Remove,
    PlanCopy,
    SealCopy,
    DropPlan,
    Status,
    Stop,
    CrashKeep,
    CrashLost,
}

// The command that the words spell. The reasons why they spell none come in their order: no such command,
// another number of words, a word that is not in its form.
fn command_from(alloc: Global, words: &[&[u8]]) -> Result<Command, LineError>
    ensures found { IfOk result (Spell (map (λ word. word.now) words.now)) }
    ensures refused { IfErr result (AreRefusedAs (map (λ word. word.now) words.now)) }
{
    let name = name_of(words).ok_or(LineError::UnknownCommand)?;
    if words.len() != word_count(name) {
        return Err(LineError::WordCount);
    }
    form_of(alloc, name, words)?.ok_or(LineError::Form)
}

// The name that these words begin with, or are a front of: `crash` is one of `crash keep` and of `crash
// lost`.
fn name_of(words: &[&[u8]]) -> Option<Name>
    ensures found { IfSome result (BeginWith (map (λ word. word.now) words.now)) }
    ensures none { IfNone result (AreRefusedAs (map (λ word. word.now) words.now) UnknownCommand) }
{
    match words {
        [] => None,
        [first, rest @ ..] => name_from(first, rest),
    }
}

// The same of a first word, and of those after it.
fn name_from(first: &[u8], rest: &[&[u8]]) -> Option<Name>
    ensures found { IfSome result (BeginWith (first.now ∷ map (λ word. word.now) rest.now)) }
    ensures none { IfNone result (AreRefusedAs (first.now ∷ map (λ word. word.now) rest.now) UnknownCommand) }
{
    if is_word(first, b"new") {
        Some(Name::New)
    } else if is_word(first, b"w") {
        Some(Name::Write)
    } else if is_word(first, b"z") {
        Some(Name::Zero)
    } else if is_word(first, b"r") {
        Some(Name::Read)
    } else if is_word(first, b"f") {
        Some(Name::Flush)
    } else if is_word(first, b"s") {
        Some(Name::Seal)
    } else if is_word(first, b"u") {
        Some(Name::TakeJob)
    } else if is_word(first, b"d") {
        Some(Name::JobDone)
    } else if is_word(first, b"x") {
        Some(Name::JobFailed)
    } else if is_word(first, b"c") {
        Some(Name::SealCheckpoint)
    } else if is_word(first, b"k") {
        Some(Name::Remove)
    } else if is_word(first, b"g") {
        Some(Name::PlanCopy)
    } else if is_word(first, b"G") {
        Some(Name::SealCopy)
    } else if is_word(first, b"q") {
        Some(Name::DropPlan)
    } else if is_word(first, b"i") {
        Some(Name::Status)
    } else if is_word(first, b"stop") {
        Some(Name::Stop)
    } else if is_word(first, b"crash") {
        crash_name_from(rest)
    } else {
        None
    }
}

// The same of the words after `crash`.
fn crash_name_from(rest: &[&[u8]]) -> Option<Name>
    ensures found { IfSome result (BeginWith (codes "crash" ∷ map (λ word. word.now) rest.now)) }
    ensures none { IfNone result (AreRefusedAs (codes "crash" ∷ map (λ word. word.now) rest.now)
        UnknownCommand) }
{
    match rest {
        [] => Some(Name::CrashKeep),
        [kind, ..] if is_word(kind, b"keep") => Some(Name::CrashKeep),
        [kind, ..] => is_word(kind, b"lost").then_some(Name::CrashLost),
    }
}

// Whether a word is this one.
fn is_word(word: &[u8], name: &[u8]) -> bool
    ensures { IsTrue result ↔ (word.now ≡ name.now) }
{
    word == name
}

// How many words a command of this name has, those of its name included.
fn word_count(name: Name) -> usize
    ensures { result ≡ word_count_of name }
{
    match name {
        Name::Flush | Name::Seal | Name::TakeJob => 1,
        Name::SealCheckpoint | Name::Remove | Name::Status => 1,
        Name::PlanCopy | Name::SealCopy | Name::DropPlan => 1,
        Name::JobDone | Name::JobFailed | Name::Stop => 2,
        Name::Zero | Name::Read => 3,
        Name::Write | Name::CrashKeep | Name::CrashLost => 4,
        Name::New => 5,
    }
}

// The command of this name that these words spell, if each is in its form. The one error is out of memory.
fn form_of(alloc: Global, name: Name, words: &[&[u8]]) -> Result<Option<Command>, AllocError>
    requires begun { BeginWith (map (λ word. word.now) words.now) name }
    requires counted { length words.now ≡ word_count_of name }
    ensures found { IfOk result (λ read. IfSome read (Spell (map (λ word. word.now) words.now))) }
    ensures none { IfOk result (λ read. IfNone read (SpellNone (map (λ word. word.now) words.now))) }
{
    Ok(match name {
        Name::New => new_of(words[1], words[2], words[3], words[4]),
        Name::Write => write_of(words[1], words[2], words[3]),
        Name::Zero => zero_of(words[1], words[2]),
        Name::Read => read_of(words[1], words[2]),
        Name::Flush => Some(Command::Flush),
        Name::Seal => Some(Command::Seal),
        Name::TakeJob => Some(Command::TakeJob),
        Name::JobDone => job_done_of(words[1]),
        Name::JobFailed => job_failed_of(words[1]),
        Name::SealCheckpoint => Some(Command::SealCheckpoint),
        Name::Remove => Some(Command::Remove),
        Name::PlanCopy => Some(Command::PlanCopy),
        Name::SealCopy => Some(Command::SealCopy),
        Name::DropPlan => Some(Command::DropPlan),
        Name::Status => Some(Command::Status),
        Name::Stop => stop_of(words[1]),
        Name::CrashKeep => Some(crash_keep_of(alloc, words[2], words[3])?),
        Name::CrashLost => Some(crash_lost_of(alloc, words[2], words[3])?),
    })
}

// The command `new` of these sizes, if each is a number and they are within the limits of a volume.
fn new_of(sectors: &[u8], log: &[u8], max_write: &[u8], batch: &[u8]) -> Option<Command>
    ensures found { IfSome result (Spell (codes "new" ∷ sectors.now ∷ log.now ∷ max_write.now
        ∷ batch.now ∷ [])) }
    ensures none { IfNone result (SpellNone (codes "new" ∷ sectors.now ∷ log.now ∷ max_write.now
        ∷ batch.now ∷ [])) }
{
    let geometry = Geometry {
        sectors: number_of(sectors)?,
        log: number_of(log)?,
        max_write: number_of(max_write)?,
        batch: number_of(batch)?,
    };
    geometry
        .is_within_limits()
        .then_some(Command::New(geometry))
}

// The command `w` of these words, if they are two numbers and a byte.
fn write_of(lba: &[u8], sectors: &[u8], byte: &[u8]) -> Option<Command>
    ensures found { IfSome result (Spell (codes "w" ∷ lba.now ∷ sectors.now ∷ byte.now ∷ [])) }
    ensures none { IfNone result (SpellNone (codes "w" ∷ lba.now ∷ sectors.now ∷ byte.now ∷ [])) }
{
    Some(Command::Write {
        lba: number_of(lba)?,
        sectors: number_of(sectors)?,
        byte: byte_of(byte)?,
    })
}

// The command `z` of these words, if they are two numbers.
fn zero_of(lba: &[u8], sectors: &[u8]) -> Option<Command>
    ensures found { IfSome result (Spell (codes "z" ∷ lba.now ∷ sectors.now ∷ [])) }
    ensures none { IfNone result (SpellNone (codes "z" ∷ lba.now ∷ sectors.now ∷ [])) }
{
    Some(Command::Zero {
        lba: number_of(lba)?,
        sectors: number_of(sectors)?,
    })
}

// The command `r` of these words, if they are two numbers.
fn read_of(lba: &[u8], sectors: &[u8]) -> Option<Command>
    ensures found { IfSome result (Spell (codes "r" ∷ lba.now ∷ sectors.now ∷ [])) }
    ensures none { IfNone result (SpellNone (codes "r" ∷ lba.now ∷ sectors.now ∷ [])) }
{
    Some(Command::Read {
        lba: number_of(lba)?,
        sectors: number_of(sectors)?,
    })
}

// The command `d` of this word, if it is a number.
fn job_done_of(number: &[u8]) -> Option<Command>
    ensures found { IfSome result (Spell (codes "d" ∷ number.now ∷ [])) }
    ensures none { IfNone result (SpellNone (codes "d" ∷ number.now ∷ [])) }
{
    Some(Command::JobDone {
        number: number_of(number)?,
    })
}

// The command `x` of this word, if it is a number.
fn job_failed_of(number: &[u8]) -> Option<Command>
    ensures found { IfSome result (Spell (codes "x" ∷ number.now ∷ [])) }
    ensures none { IfNone result (SpellNone (codes "x" ∷ number.now ∷ [])) }
{
    Some(Command::JobFailed {
        number: number_of(number)?,
    })
}

// The command `stop` of this word, if it is a number.
fn stop_of(calls: &[u8]) -> Option<Command>
    ensures found { IfSome result (Spell (codes "stop" ∷ calls.now ∷ [])) }
    ensures none { IfNone result (SpellNone (codes "stop" ∷ calls.now ∷ [])) }
{
    Some(Command::Stop {
        calls: number_of(calls)?,
    })
}

// The command `crash keep` of these words, which are letters of any form.
fn crash_keep_of(alloc: Global, device: &[u8], objects: &[u8]) -> Result<Command, AllocError>
    ensures { IfOk result (Spell (codes "crash" ∷ codes "keep" ∷ device.now ∷ objects.now ∷ [])) }
{
    Ok(Command::CrashKeep {
        device: Letters::from_word(alloc, device)?,
        objects: Letters::from_word(alloc, objects)?,
    })
}

// The command `crash lost` of these words, which are letters of any form.
fn crash_lost_of(alloc: Global, device: &[u8], objects: &[u8]) -> Result<Command, AllocError>
    ensures { IfOk result (Spell (codes "crash" ∷ codes "lost" ∷ device.now ∷ objects.now ∷ [])) }
{
    Ok(Command::CrashLost {
        device: Letters::from_word(alloc, device)?,
        objects: Letters::from_word(alloc, objects)?,
    })
}
