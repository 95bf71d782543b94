//! The policy of a collection: which objects of a volume it takes sectors from, and in which order.
//!
//! Its contract: each object of which few sectors are live, for its payload, is taken once, those with the
//! least live share first. It stands on `object_table` for the rows and for those objects.
#![tactic(auto)]

mod candidate;
mod policy;

pub use policy::victims;
