ghost use Rattle.std.specs.Prelude.{◌≡◌, ℕ, List, [], ◌∷◌, ◌++◌, OnOk, codes, decimal};
ghost use Rattle.vol_replay.specs.Answers.{TellsAnswer};

use replay_rig::Answer;
use replay_script::{push_decimal, push_run_text};
use std::alloc::AllocError;

/// Appends words and a count.
pub(crate) fn push_counted(
    answers: &mut Vec<u8>,
    words: &[u8],
    count: u64,
) -> Result<(), AllocError>
    ensures { OnOk result (answers.new.items ≡ answers.old.items ++ (words.now ++ decimal count)) }
{
    answers.extend_from_slice(words)?;
    push_decimal(answers, count)
}

// Appends words and two counts.
fn push_two(answers: &mut Vec<u8>, words: &[u8], first: u64, second: u64) -> Result<(), AllocError>
    ensures { OnOk result (answers.new.items ≡ answers.old.items
        ++ (words.now ++ decimal first ++ codes " " ++ decimal second)) }
{
    push_counted(answers, words, first)?;
    push_counted(answers, b" ", second)
}

// Appends the text of an answer.
fn push_text(answers: &mut Vec<u8>, answer: &Answer) -> Result<(), AllocError>
    ensures { OnOk result ((text : List ℕ) × TellsAnswer answer.now text
        × (answers.new.items ≡ answers.old.items ++ text)) }
{
    match answer {
        Answer::Created(sectors) => push_counted(answers, b"new ", *sectors),
        Answer::Entries(count) => push_counted(answers, b"ok ", *count),
        Answer::Sectors(bytes) => push_run_text(answers, bytes.as_slice()),
        Answer::Sealed(number) => push_counted(answers, b"sealed ", *number),
        Answer::Put(number) => push_counted(answers, b"put ", *number),
        Answer::Done(frontier) => push_counted(answers, b"done ", *frontier),
        Answer::Failed(number) => push_counted(answers, b"failed ", *number),
        Answer::Gone(number) => push_counted(answers, b"gone ", *number),
        Answer::Copied(sectors) => push_counted(answers, b"copied ", *sectors),
        Answer::Dropped => answers.extend_from_slice(b"dropped"),
        Answer::Counts {
            entries,
            sealed,
            frontier,
        } => {
            push_two(answers, b"info ", *entries, *sealed)?;
            push_counted(answers, b" ", *frontier)
        }
        Answer::Stopping(calls) => push_counted(answers, b"stop ", *calls),
        Answer::Mounted { entries, number } => push_two(answers, b"mounted ", *entries, *number),
        Answer::BatchFull(sectors) => push_counted(answers, b"again batch ", *sectors),
        Answer::EntriesFull(count) => push_counted(answers, b"again entries ", *count),
        Answer::NoRoom { need, free } => push_two(answers, b"again room ", *need, *free),
        Answer::Range => answers.extend_from_slice(b"range"),
        Answer::Nothing => answers.extend_from_slice(b"none"),
        Answer::Busy => answers.extend_from_slice(b"busy"),
        Answer::Fault => answers.extend_from_slice(b"fault"),
    }
}

/// Appends an answer as a line.
pub(crate) fn push_answer(answers: &mut Vec<u8>, answer: &Answer) -> Result<(), AllocError>
    ensures { OnOk result ((text : List ℕ) × TellsAnswer answer.now text
        × (answers.new.items ≡ answers.old.items ++ (text ++ 10 ∷ []))) }
{
    push_text(answers, answer)?;
    answers.push(b'\n')?;
    Ok(())
}
