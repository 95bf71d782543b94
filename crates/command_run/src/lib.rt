//! What the program does with a command line.
//!
//! Its contract is that of `run`: what it writes and how it ends, for each command line and input. Words that
//! ask for help are answered by `answer_help`, which is asked before. It stands on `command_line` for the
//! words, on `vol_replay` for scripts, and on `volume_commands` for the other commands and the world that
//! they reach.
#![tactic(auto)]

mod help;
mod mem_world;
mod quiet_world;
mod running;

pub use help::answer_help;
pub use mem_world::{MemWorld, run_in_memory};
pub use quiet_world::{
    QuietDisk, QuietListener, QuietWorld, a_quiet_world_counts_no_fault, run_quietly,
};
pub use running::run;
