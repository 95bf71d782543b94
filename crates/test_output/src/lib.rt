//! What the tests of all areas have in common: a heading, a line for what was found of a case, and the error
//! that ends them before all is told.
//!
//! It claims nothing, since what tests print is what is judged. It stands on the lowest crates, whose errors
//! become that one, and on the kit's `thiserror`.
#![tactic(auto)]

mod error;
mod lines;

pub use error::TestError;
pub use lines::{head, tell};
