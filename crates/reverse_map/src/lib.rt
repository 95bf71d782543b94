//! The reverse of a volume's objects' map: which sectors of the volume an object may still have, for each
//! object, so that a collection looks at these alone.
//!
//! Its contract: the ranges of an object are those that it was added with and those that were added later,
//! until it is dropped. It stands on the standard library alone, and takes memory in `reserve` and
//! `add_range` alone.
#![tactic(auto)]

mod range;
mod reverse_map;

pub use range::SectorRange;
pub use reverse_map::ReverseMap;
