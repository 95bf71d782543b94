//! The program `lsvdctl`.
//!
//! Its contract is that of `command_run`: `run`, and `answer_help` for words that ask for help. Here are the
//! process's words, streams and status, and the sentence before what `run` writes that says why words are
//! refused. It stands on `command_line` for that sentence, and on `volume_commands` for the world.
#![tactic(auto)]

use command_line::mistake_of;
use command_run::{answer_help, run};
use lsvd_fault::{ReadSource, Sink, WriteSink};
use std::alloc::AllocError;
use std::env;
use std::io::ErrorKind;
use std::process::ExitCode;
use volume_commands::{RealWorld, Report};

fn main(rt: HostRuntime) -> ExitCode {
    let mut input = ReadSource::new(rt.stdin());
    let mut out = WriteSink::new(rt.stdout());
    let mut err = WriteSink::new(rt.stderr());
    let mut world = RealWorld::new(&rt);
    let words = match words(&rt) {
        Ok(words) => words,
        Err(report) => return ended(report, &mut err),
    };
    if let Some(report) = answer_help(rt.alloc(), words.as_slice(), &mut out) {
        return ended(report, &mut err);
    }
    tell_mistake(&rt, words.as_slice());
    let status = run(
        rt.alloc(),
        words.as_slice(),
        &mut world,
        &mut input,
        &mut out,
        &mut err,
    );
    ExitCode::from(status)
}

// Says what is wrong with words that are refused. Where memory runs out, `run` says so.
fn tell_mistake(rt: &HostRuntime, words: &[String]) {
    match mistake_of(rt.alloc(), words) {
        Ok(Some(mistake)) => {
            let _ = eprintln!(rt; "lsvdctl: {mistake}");
        }
        Ok(None) | Err(AllocError) => {}
    }
}

// Tells how the program ended without a run of it.
fn ended<E: Sink>(report: Report, err: &mut E) -> ExitCode {
    report.tell(err);
    ExitCode::from(report.status())
}

// The words after the program's name. One that is not UTF-8 is no word of a command line.
fn words(rt: &HostRuntime) -> Result<Vec<String>, Report> {
    let all = env::args(rt).map_err(|error| match error.kind() {
        ErrorKind::InvalidData => {
            let _ = eprintln!(rt; "lsvdctl: a word of the command line is not UTF-8");
            Report::Usage
        }
        _ => Report::Memory,
    })?;
    let mut words = Vec::new(rt.alloc());
    for word in all.skip(1) {
        words.push(word).map_err(|_| Report::Memory)?;
    }
    Ok(words)
}
