//! Why a volume is refused: one type of refusals, from the mount that finds the reason to the line that tells
//! it.
//!
//! Its contract: each refusal has one number, and the values that are told with it. It stands on
//! `log_record`, `object_format` and `super_format` for the reasons that bytes are refused for, and on the
//! kit's `thiserror` and `uuid`.
#![tactic(auto)]

mod bad_super;
mod refusal;

pub use bad_super::BadSuper;
pub use refusal::{Refusal, Values};
