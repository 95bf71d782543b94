//! The stream of objects that the history of a volume becomes: what objects put and clear, who owns each
//! sector after any number of them, which of them a recovery of the store counts, and what the sectors are by
//! their owners.
//!
//! Its contract: these definitions, the laws that join them, and beside them a plain program that computes
//! them on lists, with which tests compare what other crates do. No product code calls it. It stands on
//! `object_format` for the rows and the bytes of objects, on `lsvd_objstore` for what a store holds, on
//! `lsvd_base` for entries, and on `extent_map` for ranges of sectors.
#![tactic(auto)]

mod change;
mod changes;
mod landed;
mod laws;
mod object;
mod owner;
mod plain_stream;
mod value;

pub use change::Change;
pub use changes::{change_at, change_in};
pub use landed::first_missing;
pub use laws::{
    changes_make_the_image, entries_change_in_parts, objects_have_one_replay_and_one_value,
    owners_are_opening_or_later, owners_are_the_same_from_a_later_object,
    owners_stand_for_the_history, stored_objects_replay_as_the_stream, there_is_one_first_missing,
};
pub use object::{Content, CopiedSector, CopiedSectors, StreamObject};
pub use owner::Owner;
pub use plain_stream::{PlainStream, source_in};
pub use value::sector_in;
