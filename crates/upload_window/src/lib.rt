//! The upload window: which objects of a log-structured disk are on their way to the store.
//!
//! Its contract: each object is put at its turn, a checkpoint not before all lower numbers are acknowledged,
//! and the frontier is the greatest number up to which all are. It stands on the kit's `arrayvec` and
//! `thiserror`, and takes no memory.
#![tactic(auto)]

mod laws;
mod object;
mod window;

pub use laws::{a_started_number_was_started, the_frontier_is_below_the_lowest_open};
pub use object::OpenObject;
pub use window::{Busy, Window};
