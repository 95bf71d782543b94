//! The plain volume as a program, for tests: no product code calls it.
//!
//! Its contract: `PlainVolume::step` is the step of the machine of `plain_disk`, and so are its stops and its
//! mounts. It stands on `plain_disk` for that machine, and on what that stands on.
#![tactic(auto)]

mod cache;
mod checkpoints;
mod collection;
mod history;
mod landed;
mod log;
mod pins;
mod plans;
mod puts;
mod removals;
mod sealing;
mod volume;
mod window;
mod writers;

pub use volume::PlainVolume;
