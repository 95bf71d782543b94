//! What a virtual disk holds and what a write to it means: sectors, entries, and the limits of a volume.
//!
//! Its contract: an entry is a change of the sectors that it covers, and of no others.
//! It stands on the kit's `bytes`, for the bytes of an object, which have many owners.
#![tactic(auto)]

mod body;
mod entry;
mod geometry;
mod laws;
mod object_bytes;

pub use body::{Body, SECTOR_BYTES};
pub use entry::{Entry, in_range};
pub use geometry::Geometry;
pub use laws::{a_history_is_applied_in_order, an_entry_changes_its_sectors_only};
pub use object_bytes::ObjectBytes;
