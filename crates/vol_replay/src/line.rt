ghost use Rattle.std.specs.Prelude.{◌≡◌, false, ◌+◌, ◌^◌, ◌<◌, ◌≤◌, IsTrue, IfOk, IfErr, OnOk, Some, None};
ghost use Rattle.lsvd_base.specs.Limits.{is_within_limits};
ghost use Rattle.replay_script.specs.Grammar.{Fits};
ghost use Rattle.vol_replay.specs.Lines.{AnswersCommand, IsUnanswered, AnswersLine, EndsUnanswered, is_crash};
ghost use Rattle.vol_replay.specs.Lines.{refusal_of, lines_answered};
ghost use Rattle.vol_replay.specs.declared.line.LineRefusal.TheVariants as refusals;

use crate::letters::{fates_of, fits_objects, fits_writes, is_dash};
use crate::text::push_answer;
use lsvd_base::Geometry;
use replay_rig::{Answer, Rig};
use replay_script::{Command, LINE_LIMIT, LineError, command_of};
use std::alloc::{AllocError, Global};
use transcript::LineReason;

/// Why a line was not answered.
#[derive(Clone, Copy, Debug, PartialEq, Eq)]
pub(crate) enum LineRefusal {
    Bad(LineReason),
    OutOfMemory,
}

impl From<AllocError> for LineRefusal {
    ghost from_gives = { λ _ e. e ≡ refusals.OutOfMemory };

    fn from(_: AllocError) -> LineRefusal {
        LineRefusal::OutOfMemory
    }
}

impl From<LineError> for LineRefusal {
    ghost from_gives = { λ error e. e ≡ refusal_of error };

    fn from(error: LineError) -> LineRefusal {
        match error {
            LineError::UnknownCommand => LineRefusal::Bad(LineReason::UnknownCommand),
            LineError::WordCount => LineRefusal::Bad(LineReason::WordCount),
            LineError::Form => LineRefusal::Bad(LineReason::Form),
            LineError::OutOfMemory => LineRefusal::OutOfMemory,
        }
    }
}

// Tells the device of a volume to stop.
fn stop(rig: &mut Rig, calls: u64) -> Result<Answer, LineRefusal>
    requires { rig.old.lines < 2 ^ 40 }
    ensures ok { IfOk result (λ answer. AnswersCommand (Command.Stop calls) answer (Some rig.old)
        (Some rig.new)) }
    ensures refused { IfErr result (IsUnanswered (Some rig.old) (Command.Stop calls)) }
    ensures lines { rig.new.lines ≤ rig.old.lines + 1 }
{
    if rig.is_stopping() {
        return Err(LineRefusal::Bad(LineReason::NotAllowed));
    }
    Ok(rig.stop(calls))
}

// Makes the put of an object.
fn finish_put(alloc: Global, rig: &mut Rig, number: u64) -> Result<Answer, LineRefusal>
    requires { rig.old.lines < 2 ^ 40 }
    ensures ok { IfOk result (λ answer. AnswersCommand (Command.JobDone number) answer (Some rig.old)
        (Some rig.new)) }
    ensures refused { IfErr result (IsUnanswered (Some rig.old) (Command.JobDone number)) }
    ensures lines { rig.new.lines ≤ rig.old.lines + 1 }
{
    if !rig.is_out(number) {
        return Err(LineRefusal::Bad(LineReason::NotAllowed));
    }
    Ok(rig.finish_put(alloc, number)?)
}

// Fails the put of an object.
fn fail_put(rig: &mut Rig, number: u64) -> Result<Answer, LineRefusal>
    requires { rig.old.lines < 2 ^ 40 }
    ensures ok { IfOk result (λ answer. AnswersCommand (Command.JobFailed number) answer (Some rig.old)
        (Some rig.new)) }
    ensures refused { IfErr result (IsUnanswered (Some rig.old) (Command.JobFailed number)) }
    ensures lines { rig.new.lines ≤ rig.old.lines + 1 }
{
    if !rig.is_out(number) {
        return Err(LineRefusal::Bad(LineReason::NotAllowed));
    }
    Ok(rig.fail_put(number)?)
}

// Stops the machine and mounts the volume with its cache.
fn crash_keep(
    alloc: Global,
    rig: Rig,
    device: &[u8],
    objects: &[u8],
) -> Result<(Rig, Answer), LineRefusal>
    requires { rig.lines < 2 ^ 40 }
    ensures ok { IfOk result (λ made. AnswersCommand (Command.CrashKeep device.now objects.now) made.1
        (Some rig) (Some made.0)) }
    ensures refused { IfErr result (IsUnanswered (Some rig) (Command.CrashKeep device.now objects.now)) }
    ensures lines { IfOk result (λ made. made.0.lines ≤ rig.lines + 1) }
{
    let pending = rig.pending();
    if !fits_writes(pending, device) || !fits_objects(rig.under_way(), objects) {
        drop(rig);
        return Err(LineRefusal::Bad(LineReason::Letters));
    }
    let fates = match fates_of(alloc, device, pending) {
        Ok(fates) => fates,
        Err(AllocError) => {
            drop(rig);
            return Err(LineRefusal::OutOfMemory);
        }
    };
    Ok(rig.crash_keep(alloc, &fates, objects)?)
}

// Stops the machine and mounts the volume without its cache.
fn crash_lost(
    alloc: Global,
    rig: Rig,
    device: &[u8],
    objects: &[u8],
) -> Result<(Rig, Answer), LineRefusal>
    requires { rig.lines < 2 ^ 40 }
    ensures ok { IfOk result (λ made. AnswersCommand (Command.CrashLost device.now objects.now) made.1
        (Some rig) (Some made.0)) }
    ensures refused { IfErr result (IsUnanswered (Some rig) (Command.CrashLost device.now objects.now)) }
    ensures lines { IfOk result (λ made. made.0.lines ≤ rig.lines + 1) }
{
    if !is_dash(device) || !fits_objects(rig.under_way(), objects) {
        drop(rig);
        return Err(LineRefusal::Bad(LineReason::Letters));
    }
    Ok(rig.crash_lost(alloc, objects)?)
}

// Writes one byte to sectors.
fn write(
    alloc: Global,
    rig: &mut Rig,
    lba: u64,
    sectors: u64,
    byte: u8,
) -> Result<Answer, LineRefusal>
    requires { rig.old.lines < 2 ^ 40 }
    ensures ok { IfOk result (λ answer. AnswersCommand (Command.Write lba sectors byte) answer
        (Some rig.old) (Some rig.new)) }
    ensures refused { IfErr result (IsUnanswered (Some rig.old) (Command.Write lba sectors byte)) }
    ensures lines { rig.new.lines ≤ rig.old.lines + 1 }
{
    Ok(rig.write(alloc, lba, sectors, byte)?)
}

// Zeroes sectors.
fn zero(rig: &mut Rig, lba: u64, sectors: u64) -> Result<Answer, LineRefusal>
    requires { rig.old.lines < 2 ^ 40 }
    ensures ok { IfOk result (λ answer. AnswersCommand (Command.Zero lba sectors) answer (Some rig.old)
        (Some rig.new)) }
    ensures refused { IfErr result (IsUnanswered (Some rig.old) (Command.Zero lba sectors)) }
    ensures lines { rig.new.lines ≤ rig.old.lines + 1 }
{
    Ok(rig.zero(lba, sectors)?)
}

// Reads sectors.
fn read(alloc: Global, rig: &mut Rig, lba: u64, sectors: u64) -> Result<Answer, LineRefusal>
    requires { rig.old.lines < 2 ^ 40 }
    ensures ok { IfOk result (λ answer. AnswersCommand (Command.Read lba sectors) answer (Some rig.old)
        (Some rig.new)) }
    ensures refused { IfErr result (IsUnanswered (Some rig.old) (Command.Read lba sectors)) }
    ensures lines { rig.new.lines ≤ rig.old.lines + 1 }
{
    Ok(rig.read(alloc, lba, sectors)?)
}

// Makes each entry so far durable.
fn flush(rig: &mut Rig) -> Result<Answer, LineRefusal>
    requires { rig.old.lines < 2 ^ 40 }
    ensures ok { IfOk result (λ answer. AnswersCommand Command.Flush answer (Some rig.old)
        (Some rig.new)) }
    ensures refused { IfErr result (IsUnanswered (Some rig.old) Command.Flush) }
    ensures lines { rig.new.lines ≤ rig.old.lines + 1 }
{
    Ok(rig.flush()?)
}

// Seals the next object.
fn seal(rig: &mut Rig) -> Result<Answer, LineRefusal>
    requires { rig.old.lines < 2 ^ 40 }
    ensures ok { IfOk result (λ answer. AnswersCommand Command.Seal answer (Some rig.old)
        (Some rig.new)) }
    ensures refused { IfErr result (IsUnanswered (Some rig.old) Command.Seal) }
    ensures lines { rig.new.lines ≤ rig.old.lines + 1 }
{
    Ok(rig.seal()?)
}

// Seals a checkpoint.
fn seal_checkpoint(rig: &mut Rig) -> Result<Answer, LineRefusal>
    requires { rig.old.lines < 2 ^ 40 }
    ensures ok { IfOk result (λ answer. AnswersCommand Command.SealCheckpoint answer (Some rig.old)
        (Some rig.new)) }
    ensures refused { IfErr result (IsUnanswered (Some rig.old) Command.SealCheckpoint) }
    ensures lines { rig.new.lines ≤ rig.old.lines + 1 }
{
    Ok(rig.seal_checkpoint()?)
}

// Removes the lowest object that may be removed.
fn remove(rig: &mut Rig) -> Result<Answer, LineRefusal>
    requires { rig.old.lines < 2 ^ 40 }
    ensures ok { IfOk result (λ answer. AnswersCommand Command.Remove answer (Some rig.old)
        (Some rig.new)) }
    ensures refused { IfErr result (IsUnanswered (Some rig.old) Command.Remove) }
    ensures lines { rig.new.lines ≤ rig.old.lines + 1 }
{
    Ok(rig.remove()?)
}

// Plans a copy, and copies what it takes.
fn plan_copy(alloc: Global, rig: &mut Rig) -> Result<Answer, LineRefusal>
    requires { rig.old.lines < 2 ^ 40 }
    ensures ok { IfOk result (λ answer. AnswersCommand Command.PlanCopy answer (Some rig.old)
        (Some rig.new)) }
    ensures refused { IfErr result (IsUnanswered (Some rig.old) Command.PlanCopy) }
    ensures lines { rig.new.lines ≤ rig.old.lines + 1 }
{
    Ok(rig.plan_copy(alloc)?)
}

// Seals what was copied.
fn seal_copy(rig: &mut Rig) -> Result<Answer, LineRefusal>
    requires { rig.old.lines < 2 ^ 40 }
    ensures ok { IfOk result (λ answer. AnswersCommand Command.SealCopy answer (Some rig.old)
        (Some rig.new)) }
    ensures refused { IfErr result (IsUnanswered (Some rig.old) Command.SealCopy) }
    ensures lines { rig.new.lines ≤ rig.old.lines + 1 }
{
    if !rig.has_copy() {
        return Err(LineRefusal::Bad(LineReason::NotAllowed));
    }
    Ok(rig.seal_copy()?)
}

// Gives the plan of a copy up.
fn drop_plan(rig: &mut Rig) -> Result<Answer, LineRefusal>
    requires { rig.old.lines < 2 ^ 40 }
    ensures ok { IfOk result (λ answer. AnswersCommand Command.DropPlan answer (Some rig.old)
        (Some rig.new)) }
    ensures refused { IfErr result (IsUnanswered (Some rig.old) Command.DropPlan) }
    ensures lines { rig.new.lines ≤ rig.old.lines + 1 }
{
    if !rig.has_copy() {
        return Err(LineRefusal::Bad(LineReason::NotAllowed));
    }
    Ok(rig.drop_plan()?)
}

// Begins the put of the lowest ready object.
fn begin_put(rig: &mut Rig) -> Result<Answer, LineRefusal>
    requires { rig.old.lines < 2 ^ 40 }
    ensures ok { IfOk result (λ answer. AnswersCommand Command.TakeJob answer (Some rig.old)
        (Some rig.new)) }
    ensures refused { IfErr result (IsUnanswered (Some rig.old) Command.TakeJob) }
    ensures lines { rig.new.lines ≤ rig.old.lines + 1 }
{
    Ok(rig.begin_put()?)
}

// Tells the counts.
fn status(rig: &mut Rig) -> Result<Answer, LineRefusal>
    requires { rig.old.lines < 2 ^ 40 }
    ensures ok { IfOk result (λ answer. AnswersCommand Command.Status answer (Some rig.old)
        (Some rig.new)) }
    ensures refused { IfErr result (IsUnanswered (Some rig.old) Command.Status) }
    ensures lines { rig.new.lines ≤ rig.old.lines + 1 }
{
    Ok(rig.status()?)
}

// Answers a command that is one step of a volume: all but a crash (a condition), and `new`, which is not
// allowed where there is one.
fn answer_step(alloc: Global, rig: &mut Rig, command: Command) -> Result<Answer, LineRefusal>
    requires lines { rig.old.lines < 2 ^ 40 }
    requires goes_on { is_crash command ≡ false }
    ensures ok { IfOk result (λ answer. AnswersCommand command answer (Some rig.old) (Some rig.new)) }
    ensures refused { IfErr result (IsUnanswered (Some rig.old) command) }
    ensures lines { rig.new.lines ≤ rig.old.lines + 1 }
{
    match command {
        Command::Write { lba, sectors, byte } => write(alloc, rig, lba, sectors, byte),
        Command::Zero { lba, sectors } => zero(rig, lba, sectors),
        Command::Read { lba, sectors } => read(alloc, rig, lba, sectors),
        Command::Flush => flush(rig),
        Command::Seal => seal(rig),
        Command::TakeJob => begin_put(rig),
        Command::JobDone { number } => finish_put(alloc, rig, number),
        Command::JobFailed { number } => fail_put(rig, number),
        Command::SealCheckpoint => seal_checkpoint(rig),
        Command::Remove => remove(rig),
        Command::PlanCopy => plan_copy(alloc, rig),
        Command::SealCopy => seal_copy(rig),
        Command::DropPlan => drop_plan(rig),
        Command::Status => status(rig),
        Command::Stop { calls } => stop(rig, calls),
        Command::New(_) => Err(LineRefusal::Bad(LineReason::NotAllowed)),
        Command::CrashKeep { .. } => Err(LineRefusal::Bad(LineReason::NotAllowed)),
        Command::CrashLost { .. } => Err(LineRefusal::Bad(LineReason::NotAllowed)),
    }
}

// The same, with the volume that is left.
fn go_on(alloc: Global, mut rig: Rig, command: Command) -> Result<(Rig, Answer), LineRefusal>
    requires lines { rig.lines < 2 ^ 40 }
    requires goes_on { is_crash command ≡ false }
    ensures ok { IfOk result (λ made. AnswersCommand command made.1 (Some rig) (Some made.0)) }
    ensures refused { IfErr result (IsUnanswered (Some rig) command) }
    ensures lines { IfOk result (λ made. made.0.lines ≤ rig.lines + 1) }
{
    match answer_step(alloc, &mut rig, command) {
        Ok(answer) => Ok((rig, answer)),
        Err(refusal) => {
            drop(rig);
            Err(refusal)
        }
    }
}

/// Answers a command where there is a volume, which is left then. After a line that is not answered there is
/// none.
pub(crate) fn answer_on(
    alloc: Global,
    rig: Rig,
    command: Command,
) -> Result<(Rig, Answer), LineRefusal>
    requires { rig.lines < 2 ^ 40 }
    ensures ok { IfOk result (λ made. AnswersCommand command made.1 (Some rig) (Some made.0)) }
    ensures refused { IfErr result (IsUnanswered (Some rig) command) }
    ensures lines { IfOk result (λ made. made.0.lines ≤ rig.lines + 1) }
{
    match command {
        Command::CrashKeep { device, objects } => {
            crash_keep(alloc, rig, device.as_bytes(), objects.as_bytes())
        }
        Command::CrashLost { device, objects } => {
            crash_lost(alloc, rig, device.as_bytes(), objects.as_bytes())
        }
        step => go_on(alloc, rig, step),
    }
}

// Makes the volume.
fn create(alloc: Global, geometry: Geometry) -> Result<(Rig, Answer), LineRefusal>
    requires { IsTrue (is_within_limits geometry) }
    ensures ok { IfOk result (λ made. AnswersCommand (Command.New geometry) made.1 None (Some made.0)) }
    ensures refused { IfErr result (IsUnanswered None (Command.New geometry)) }
    ensures lines { IfOk result (λ made. made.0.lines ≤ 1) }
{
    let rig = Rig::new(alloc, geometry)?;
    Ok((rig, Answer::Created(geometry.sectors)))
}

// Answers the first command: it makes the volume.
fn answer_first(alloc: Global, command: Command) -> Result<(Rig, Answer), LineRefusal>
    requires { Fits command }
    ensures ok { IfOk result (λ made. AnswersCommand command made.1 None (Some made.0)) }
    ensures refused { IfErr result (IsUnanswered None command) }
    ensures lines { IfOk result (λ made. made.0.lines ≤ 1) }
{
    match command {
        Command::New(geometry) => create(alloc, geometry),
        _ => Err(LineRefusal::Bad(LineReason::NotAllowed)),
    }
}

// Answers a command, and hands back the volume that it leaves. After a line that is not answered there is
// none.
fn answer_command(
    alloc: Global,
    rig: Option<Rig>,
    command: Command,
) -> Result<(Rig, Answer), LineRefusal>
    requires fits { Fits command }
    requires lines { lines_answered rig < 2 ^ 40 }
    ensures ok { IfOk result (λ made. AnswersCommand command made.1 rig (Some made.0)) }
    ensures refused { IfErr result (IsUnanswered rig command) }
    ensures lines { IfOk result (λ made. made.0.lines ≤ lines_answered rig + 1) }
{
    match rig {
        Some(rig) => answer_on(alloc, rig, command),
        None => answer_first(alloc, command),
    }
}

// The same, with the volume in its place.
fn answer_in_place(
    alloc: Global,
    rig: &mut Option<Rig>,
    command: Command,
) -> Result<Answer, LineRefusal>
    requires fits { Fits command }
    requires lines { lines_answered rig.old < 2 ^ 40 }
    ensures ok { IfOk result (λ answer. AnswersCommand command answer rig.old rig.new) }
    ensures refused { IfErr result (IsUnanswered rig.old command) }
    ensures lines { lines_answered rig.new ≤ lines_answered rig.old + 1 }
{
    let (made, answer) = answer_command(alloc, rig.take(), command)?;
    // There is none any more that could be replaced.
    drop(rig.replace(made));
    Ok(answer)
}

/// Answers one line, and appends the answer with its newline. Fewer than 2^40 lines were answered (a
/// condition).
pub(crate) fn answer_line(
    alloc: Global,
    rig: &mut Option<Rig>,
    line: &[u8],
    answers: &mut Vec<u8>,
) -> Result<(), LineRefusal>
    requires { lines_answered rig.old < 2 ^ 40 }
    ensures ok { OnOk result (AnswersLine line.now rig.old rig.new answers.old.items answers.new.items) }
    ensures refused { IfErr result (EndsUnanswered line.now rig.old answers.old.items answers.new.items) }
    ensures lines { lines_answered rig.new ≤ lines_answered rig.old + 1 }
{
    if line.len() > LINE_LIMIT {
        return Err(LineRefusal::Bad(LineReason::TooLong));
    }
    let command = command_of(alloc, line)?;
    let answer = answer_in_place(alloc, rig, command)?;
    Ok(push_answer(answers, &answer)?)
}
