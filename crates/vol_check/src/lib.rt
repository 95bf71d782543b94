//! Checking a volume in its store: what is kept, what could go, and what is missing.
//!
//! Its contract: each list of the report is a filter over the names and headers that the store has of the
//! volume, and a volume is refused only by its super object, its newest epoch, its holds, the objects from
//! its newest checkpoint on, or the checkpoint of a hold that is bad. An object that is named and absent is
//! listed, and refuses nothing, whether it is the volume's own or an ancestor's. Checking changes nothing,
//! and reads no payload. It stands on `super_recovery` for the volume as a whole, on `object_recovery` for
//! its checkpoints and the objects past the newest, on `ckpt_format` for the rows of checkpoints, on
//! `clone_chain` for the ancestors, and on `refusals`.
#![tactic(auto)]

mod checking;
mod error;
mod lists;
mod naming;
mod report;

pub use checking::check;
pub use error::CheckError;
pub use report::{CheckReport, ObjectOfLevel};
