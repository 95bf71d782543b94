//! Where the next record of a circular log stands, and what room it takes.
//!
//! Its contract: a record lies inside the log and is not split, and the head moves on by what the
//! record and the pad before it need.
//! It stands on `lsvd_base`, for the size of an entry's record.
#![tactic(auto)]

mod laws;
mod room;

pub use laws::a_record_takes_what_it_needs;
pub use room::{LogRoom, distance, record_sectors};
