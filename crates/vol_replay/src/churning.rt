ghost use Rattle.std.specs.Prelude.{◌≡◌, ℕ, ◌+◌, ◌^◌, ◌<◌, ◌≤◌, ◌++◌, IfOk, OnOk};
ghost use Rattle.lsvd_fault.specs.Faults.{Counts};
ghost use Rattle.churn_script.specs.Draws.{after_step};
ghost use Rattle.plain_disk.specs.State.{PlainState, history_length, frontier_of};
ghost use Rattle.vol_replay.specs.Churn.{IsOutcomeOfChurn, churn_ends_by_fault, churn_geometry, count_line};
ghost use Rattle.vol_replay.specs.Churn.{mounts_of, summary_of, summary_text};
ghost use Rattle.vol_replay.specs.Steps.{HasRead, HasRun, IsSummedUp, ShowsChurned, TakesNext};

use crate::line::{LineRefusal, answer_on};
use crate::outcome::ChurnOutcome;
use crate::text::push_counted;
use churn_script::Draws;
use lsvd_base::Geometry;
use lsvd_fault::{Failed, Sink, write_all};
use replay_rig::{Answer, Rig};
use replay_script::Command;
use std::alloc::{AllocError, Global};

// The volume of a churn.
const GEOMETRY: Geometry = Geometry {
    sectors: 1024,
    max_write: 8,
    batch: 64,
    log: 512,
};

// The reads of the whole volume, and the sectors of each: the most that one may have.
const READS: u64 = 128;

const READ_SECTORS: u64 = 8;

/// Runs the script that is generated from a seed, of so many steps, on a new volume in memory; at most
/// 1,000,000 (a condition). Then it reads the whole volume, and writes the summary: the steps, the writes in
/// the history, the last number that was sealed, the frontier, the mounts after stops, and that all agree.
/// That stands there since each read gave the sectors that the list of the writes makes; so nothing is
/// compared when it runs. No answer is kept.
pub fn churn<O: Sink>(alloc: Global, steps: u64, seed: u64, sink: &mut O) -> ChurnOutcome
    requires { steps ≤ 1000000 }

    // The sink took what the outcome says of the summary of the plain volume's run of the script.
    ensures summary { IsOutcomeOfChurn seed steps (O.contents sink.old) (O.contents sink.new) result }
    // A fault of the sink was counted once and ended the churn; else none was counted.
    ensures sink_count { Counts (churn_ends_by_fault result) (O.faults sink.old) (O.faults sink.new) }
{
    let (rig, text) = match run_whole(alloc, steps, seed) {
        Ok(run) => run,
        Err(AllocError) => return ChurnOutcome::OutOfMemory,
    };
    match write_all(sink, text.as_slice()) {
        Ok(()) => ChurnOutcome::Done(rig),
        Err(Failed) => {
            drop(rig);
            ChurnOutcome::WriteFault
        }
    }
}

// Runs the script, reads the whole volume, and sums both up.
fn run_whole(alloc: Global, steps: u64, seed: u64) -> Result<(Rig, Vec<u8>), AllocError>
    requires { steps ≤ 1000000 }
    ensures { IfOk result (λ run. IsSummedUp seed steps run.0 run.1.items) }
{
    let (mut rig, mounts) = run_steps(alloc, steps, seed)?;
    read_whole(alloc, &mut rig)?;
    let text = summary(alloc, &mut rig, steps, mounts)?;
    Ok((rig, text))
}

// Runs the script on a new volume. Returns what it leaves, and how often the volume was mounted.
fn run_steps(alloc: Global, steps: u64, seed: u64) -> Result<(Rig, u64), AllocError>
    requires { steps ≤ 1000000 }
    ensures run { IfOk result (λ run. (draws : ℕ) × HasRun seed steps draws run.1 run.0) }
    ensures lines { IfOk result (λ run. run.0.lines ≤ steps) }
{
    let mut rig = Rig::new(alloc, GEOMETRY)?;
    let mut draws = Draws::new(seed);
    let mut mounts = 0;
    for _ in 0..steps {
        let (next, mounted) = take_next(alloc, rig, &mut draws)?;
        rig = next;
        mounts += mounted;
    }
    Ok((rig, mounts))
}

// Takes the next command, and says how often it mounts the volume: once or never. Each command is allowed
// where it comes, and its letters fit.
fn take_next(alloc: Global, rig: Rig, draws: &mut Draws) -> Result<(Rig, u64), AllocError>
    requires lines { rig.lines < 2 ^ 40 }
    requires shows { (plain : PlainState) × ShowsChurned rig plain }
    ensures takes { IfOk result (λ made. TakesNext draws.old made.1 rig made.0) }
    ensures draws { draws.new ≡ after_step draws.old }
    ensures once { IfOk result (λ made. made.1 ≤ 1) }
    ensures lines { IfOk result (λ made. made.0.lines ≤ rig.lines + 1) }
{
    let command = draws.next_command(alloc, rig.lowest_out(), rig.has_copy())?;
    let mounts = mounts_of(&command);
    match answer_on(alloc, rig, command) {
        Ok((rig, answer)) => {
            drop(answer);
            Ok((rig, mounts))
        }
        Err(LineRefusal::OutOfMemory) => Err(AllocError),
        Err(LineRefusal::Bad(_)) => unreachable!(),
    }
}

// How often a command mounts the volume.
fn mounts_of(command: &Command) -> u64
    ensures mounts { result ≡ mounts_of command.now }
    ensures once { result ≤ 1 }
{
    match command {
        Command::CrashKeep { .. } | Command::CrashLost { .. } => 1,
        _ => 0,
    }
}

// Reads the whole volume.
fn read_whole(alloc: Global, rig: &mut Rig) -> Result<(), AllocError>
    requires { rig.old.lines + 128 < 2 ^ 40 }
    ensures read { OnOk result (HasRead 128 rig.old rig.new) }
    ensures lines { rig.new.lines ≤ rig.old.lines + 128 }
{
    for k in 0..READS {
        drop(rig.read(alloc, READ_SECTORS * k, READ_SECTORS)?);
    }
    Ok(())
}

// The summary, with the counts of the volume.
fn summary(alloc: Global, rig: &mut Rig, steps: u64, mounts: u64) -> Result<Vec<u8>, AllocError>
    requires lines { rig.old.lines < 2 ^ 40 }
    requires shows { (plain : PlainState) × ShowsChurned rig.old plain }
    ensures { IfOk result (λ text. (plain : PlainState) → ShowsChurned rig.old plain
        → (text.items ≡ summary_of steps mounts plain) × ShowsChurned rig.new plain) }
{
    match rig.status()? {
        Answer::Counts {
            entries,
            sealed,
            frontier,
        } => summary_text(alloc, steps, entries, sealed, frontier, mounts),
        _ => unreachable!(),
    }
}

// The lines of the summary.
fn summary_text(
    alloc: Global,
    steps: u64,
    writes: u64,
    sealed: u64,
    frontier: u64,
    mounts: u64,
) -> Result<Vec<u8>, AllocError>
    ensures { IfOk result (λ text. text.items ≡ summary_text steps writes sealed frontier mounts) }
{
    let mut text = Vec::new(alloc);
    push_line(&mut text, b"steps ", steps)?;
    push_line(&mut text, b"writes ", writes)?;
    push_line(&mut text, b"sealed ", sealed)?;
    push_line(&mut text, b"frontier ", frontier)?;
    push_line(&mut text, b"mounts ", mounts)?;
    text.extend_from_slice(b"agree\n")?;
    Ok(text)
}

// Appends a line of words and a count.
fn push_line(text: &mut Vec<u8>, words: &[u8], count: u64) -> Result<(), AllocError>
    ensures { OnOk result (text.new.items ≡ text.old.items ++ count_line words.now count) }
{
    push_counted(text, words, count)?;
    text.push(b'\n')?;
    Ok(())
}
