ghost use Rattle.std.specs.Prelude.{◌≡◌, ℕ, ◌+◌, ◌<◌, ◌^◌, Bool, Option, IfOk};
ghost use Rattle.churn_script.specs.Draws.{after_draw, draw_below, write_drawn, zero_drawn, read_drawn};
ghost use Rattle.churn_script.specs.Draws.{end_of_put, step_of_copy, crash_drawn, command_drawn, after_step};

use replay_script::{Command, Letters};
use std::alloc::{AllocError, Global};
use std::marker::Model;

// The numbers of the generator, whose state is below 2^64: it is multiplied by the one, and the other is
// added.
const MULTIPLIER: u64 = 6_364_136_223_846_793_005;

const INCREMENT: u64 = 1_442_695_040_888_963_407;

/// The draws of a generated script, on a volume of 1,024 sectors: contracts see the state of their generator.
#[derive(Debug, Drop)]
pub struct Draws {
    state: u64,
}

impl Model for Draws {
    ghost use Rattle.std.specs.Prelude.{ℕ};

    ghost Value = { ℕ };

    ghost view = { λ d. d.state };
}

impl Draws {
    /// Those of a seed, which is the first state.
    pub fn new(seed: u64) -> Draws
        ensures { result ≡ seed }
    {
        Draws { state: seed }
    }

    /// The command of the next step, where that is the lowest number whose put is out, if one is, and the
    /// plan of a copy is out or not. The one error is out of memory.
    pub fn next_command(
        &mut self,
        alloc: Global,
        lowest: Option<u64>,
        has_plan: bool,
    ) -> Result<Command, AllocError>
        ensures command { IfOk result (λ command. command ≡ command_drawn lowest has_plan self.old) }
        ensures state { self.new ≡ after_step self.old }
    {
        match self.below(16) {
            0..=4 => Ok(self.write()),
            5 => Ok(self.zero()),
            6 | 7 => Ok(self.read()),
            8 => Ok(Command::Seal),
            9 => Ok(Command::TakeJob),
            10 => Ok(end_of_put(lowest)),
            11 => Ok(Command::SealCheckpoint),
            12 => Ok(step_of_copy(has_plan)),
            13 => Ok(Command::Remove),
            14 => crash(alloc),
            _ => Ok(Command::Flush),
        }
    }

    // Draws a number below a bound.
    fn below(&mut self, bound: u64) -> u64
        requires { 0 < bound }
        ensures number { result ≡ draw_below bound self.old }
        ensures state { self.new ≡ after_draw self.old }
        ensures within { result < bound }
    {
        self.state = self.state.wrapping_mul(MULTIPLIER).wrapping_add(INCREMENT);
        (self.state >> 33) % bound
    }

    // Draws where a write begins, how many sectors it has, and their byte, in this order.
    fn write(&mut self) -> Command
        ensures command { result ≡ write_drawn self.old }
        ensures state { self.new ≡ after_draw (after_draw (after_draw self.old)) }
    {
        let lba = self.below(1024);
        let sectors = 1 + self.below(8);
        let byte = self.below(256) as u8;
        Command::Write { lba, sectors, byte }
    }

    // Draws where a zeroing begins, and how many sectors it has.
    fn zero(&mut self) -> Command
        ensures command { result ≡ zero_drawn self.old }
        ensures state { self.new ≡ after_draw (after_draw self.old) }
    {
        let lba = self.below(1024);
        let sectors = 1 + self.below(64);
        Command::Zero { lba, sectors }
    }

    // Draws where a read begins, and how many sectors it has.
    fn read(&mut self) -> Command
        ensures command { result ≡ read_drawn self.old }
        ensures state { self.new ≡ after_draw (after_draw self.old) }
    {
        let lba = self.below(1024);
        let sectors = 1 + self.below(8);
        Command::Read { lba, sectors }
    }
}

// The end of the lowest put that is out; where none is, the counts are asked for.
fn end_of_put(lowest: Option<u64>) -> Command
    ensures { result ≡ end_of_put lowest }
{
    match lowest {
        Some(number) => Command::JobDone { number },
        None => Command::Status,
    }
}

// The copy is sealed where its plan is out, and else planned.
fn step_of_copy(has_plan: bool) -> Command
    ensures { result ≡ step_of_copy has_plan }
{
    if has_plan {
        Command::SealCopy
    } else {
        Command::PlanCopy
    }
}

// A stop that keeps each write, and in which no object has landed.
fn crash(alloc: Global) -> Result<Command, AllocError>
    ensures { IfOk result (λ command. command ≡ crash_drawn) }
{
    Ok(Command::CrashKeep {
        device: Letters::from_word(alloc, b"-")?,
        objects: Letters::from_word(alloc, b"-")?,
    })
}

/// A law, as a vector: from the seed 0 the first draw is 167,951,807, and the first step is a flush.
pub fn the_first_step_of_the_seed_0_flushes()
    ensures state { after_draw 0 ≡ 1442695040888963407 }
    ensures draw { draw_below (2 ^ 31) 0 ≡ 167951807 }
    ensures command { (lowest : Option ℕ) (has_plan : Bool)
        → command_drawn lowest has_plan 0 ≡ Command.Flush }
{}
