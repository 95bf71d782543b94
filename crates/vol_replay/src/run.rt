ghost use Rattle.std.specs.Prelude.{◌≡◌, ◌≢◌, ℕ, ◌^◌, ◌≤◌, List, false, length, is_err, IfSome, OnOk, OnErr};
ghost use Rattle.std.specs.Io.KnownBytes.{Appends, IsAtEnd};
ghost use Rattle.lsvd_fault.specs.Faults.{Counts};
ghost use Rattle.vol_replay.specs.Lines.{MovesOn, IsHandedOver};
ghost use Rattle.vol_replay.specs.Written.{IsOutcomeOf, AreAllAnswered, ends_by_read_fault};
ghost use Rattle.vol_replay.specs.Written.{TakesFront, ends_by_write_fault};

use crate::line::{LineRefusal, answer_line};
use crate::outcome::Outcome;
use lsvd_fault::{Failed, ReadError, Sink, Source, read_past_limit, write_all};
use replay_script::{SCRIPT_LIMIT, line_number, split_line};
use std::alloc::Global;
use transcript::LineReason;

// The answers are handed to the sink each time that there are this many bytes of them.
const BATCH: usize = 65_536;

/// Reads a script to its end, and writes the answers to its lines.
pub fn replay<I: Source, O: Sink>(alloc: Global, source: &mut I, sink: &mut O) -> Outcome
    // Where the source tells the script, the sink took what the outcome says of its transcript.
    ensures transcript { IfSome (I.remaining source.old) (λ script. (text : List ℕ)
        × Appends (O.contents sink.old) (O.contents sink.new) text × IsOutcomeOf script text result) }
    ensures end { AreAllAnswered result → IsAtEnd (I.remaining source.new) }
    ensures nothing_run { result ≡ Outcome.ReadFault → O.contents sink.new ≡ O.contents sink.old }

    // A fault of either end was counted once and ended the replay as just that fault; else none was counted.
    ensures source_count { Counts (ends_by_read_fault result) (I.faults source.old) (I.faults source.new) }
    ensures sink_count { Counts (ends_by_write_fault result) (O.faults sink.old) (O.faults sink.new) }
{
    match read_past_limit(alloc, source, SCRIPT_LIMIT) {
        Ok(script) => run_script(alloc, script.as_slice(), sink),
        Err(ReadError::Failed) => Outcome::ReadFault,
        Err(ReadError::OutOfMemory) => Outcome::OutOfMemory,
    }
}

// Writes the answers to a script that was read, up to its end or past its limit.
fn run_script<O: Sink>(alloc: Global, script: &[u8], sink: &mut O) -> Outcome
    ensures transcript { (text : List ℕ) × Appends (O.contents sink.old) (O.contents sink.new) text
        × IsOutcomeOf script.now text result }
    ensures within { AreAllAnswered result → length script.now ≤ 2 ^ 24 }
    ensures no_read { result ≢ Outcome.ReadFault }
    ensures count { Counts (ends_by_write_fault result) (O.faults sink.old) (O.faults sink.new) }
{
    if script.len() > SCRIPT_LIMIT {
        Outcome::BadLine {
            number: line_number(script, SCRIPT_LIMIT),
            reason: LineReason::TooLong,
        }
    } else {
        run_lines(alloc, script, sink)
    }
}

// Writes the answers to the lines of a script, up to its end or the first bad line.
fn run_lines<O: Sink>(alloc: Global, script: &[u8], sink: &mut O) -> Outcome
    requires { length script.now ≤ 2 ^ 24 }
    ensures transcript { (text : List ℕ) × Appends (O.contents sink.old) (O.contents sink.new) text
        × IsOutcomeOf script.now text result }
    ensures no_read { result ≢ Outcome.ReadFault }
    ensures count { Counts (ends_by_write_fault result) (O.faults sink.old) (O.faults sink.new) }
{
    let mut rig = None;
    let mut answers = Vec::new(alloc);
    let mut rest = script;
    let mut number = 1u64;
    while !rest.is_empty() {
        let (line, after) = split_line(rest);
        match answer_line(alloc, &mut rig, line, &mut answers) {
            Ok(()) => {}
            Err(LineRefusal::Bad(reason)) => {
                drop(rig);
                let outcome = Outcome::BadLine { number, reason };
                return hand_over(sink, answers.as_slice(), outcome);
            }
            Err(LineRefusal::OutOfMemory) => {
                drop(rig);
                return Outcome::OutOfMemory;
            }
        }
        if flush_full(sink, &mut answers).is_err() {
            drop(rig);
            return Outcome::WriteFault;
        }
        rest = after;
        number += 1;
    }
    hand_over(sink, answers.as_slice(), Outcome::Done(rig))
}

// Writes the answers where there are many of them.
fn flush_full<O: Sink>(sink: &mut O, answers: &mut Vec<u8>) -> Result<(), Failed>
    ensures ok { OnOk result (MovesOn (O.contents sink.old) (O.contents sink.new) answers.old.items
        answers.new.items) }
    ensures err { OnErr result (TakesFront (O.contents sink.old) (O.contents sink.new) answers.old.items) }
    ensures count { Counts (is_err result) (O.faults sink.old) (O.faults sink.new) }
{
    if answers.len() >= BATCH {
        write_all(sink, answers.as_slice())?;
        answers.clear();
    }
    Ok(())
}

// Writes the last answers, and then that is the outcome.
fn hand_over<O: Sink>(sink: &mut O, answers: &[u8], outcome: Outcome) -> Outcome
    requires { ends_by_write_fault outcome ≡ false }
    ensures handed { IsHandedOver (O.contents sink.old) (O.contents sink.new) answers.now outcome result }
    ensures count { Counts (ends_by_write_fault result) (O.faults sink.old) (O.faults sink.new) }
{
    match write_all(sink, answers) {
        Ok(()) => outcome,
        Err(Failed) => {
            drop(outcome);
            Outcome::WriteFault
        }
    }
}
