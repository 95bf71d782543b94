//! Batches: the entries of a volume that are in no object yet, and the data objects that they are sealed
//! into.
//!
//! Its contract: when a batch is full, how many sectors of data its entries carry, and that an object that is
//! sealed puts and clears exactly what the entries do that it takes, the fewest from the first on that are
//! full. It stands on `lsvd_base` for entries, on `extent_map` for what they change, on `object_format` for
//! the object, and on `object_stream` for what changes are.
#![tactic(auto)]

mod batch;
mod full;
mod place;
mod plan;
mod rows;
mod sealing;

pub use batch::Batch;
pub use full::{Full, MAX_ENTRIES, data_sectors, fullness, sum_data_sectors};
pub use sealing::{Rest, SealedBatch};
