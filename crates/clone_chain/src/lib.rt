//! The ancestors of a virtual disk that was cloned: which volumes its sectors may come from, and up to which
//! checkpoint of each.
//!
//! Its contract: level and uuid, both ways. A chain has the volume at each level from 1 on, none twice and at
//! most 15, and tells of each uuid at which level it is, if at any. It stands on the kit's `uuid` and
//! `thiserror`.
#![tactic(auto)]

mod ancestor;
mod chain;
mod laws;

pub use ancestor::Ancestor;
pub use chain::{Chain, ExtendError};
pub use laws::levels_and_uuids_agree;
