//! The machine that a script runs on: a volume, its device and its store in memory. Its writes that were not
//! synced can meet any fate, and then the volume is mounted again with its cache or without it.
//!
//! Its contract: each line makes a step of each plain volume that the rig shows, and its answer says that
//! one's reply; and whatever a stop leaves of the device and the store has the entries that were flushed. It
//! stands on `vol_core` and `vol_recover` for the volume and its mounts, and on `lsvd_device` and
//! `lsvd_objstore` for the device and the store.
#![tactic(auto)]

mod answer;
mod crash;
mod puts;
mod rig;

pub use answer::Answer;
pub use rig::Rig;
