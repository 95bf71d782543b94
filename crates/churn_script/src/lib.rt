//! The script that a churn runs, generated from a seed: which command each of its steps is.
//!
//! Its contract: each command is the one that its draws give, by the lowest put that is out and by whether a
//! plan of a copy is. It stands on `replay_script` for the commands.
#![tactic(auto)]

mod draws;

pub use draws::{Draws, the_first_step_of_the_seed_0_flushes};
