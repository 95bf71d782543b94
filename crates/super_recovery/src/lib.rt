//! What a store says of a volume as a whole: reading it when the volume is mounted, and what a creation and a
//! mount without the cache write of it.
//!
//! Its contract: the volume that is found is the one whose super object the store has, with its newest epoch
//! and all its holds, and a volume that the store has is never refused. Of a clone's ancestors, the nearest
//! of which the store lacks something is told. Finding changes nothing. A put is that of one super object or
//! of one epoch, and no other object is changed. It stands on `lsvd_objstore` for the store, on
//! `super_format` for the bytes of each, on `clone_chain` for ancestors, and on `refusals` for what is bad of
//! them.
#![tactic(auto)]

mod ancestors;
mod error;
mod finding;
mod holding;
mod laws;
mod putting;
mod reading;

pub use ancestors::missing_ancestor;
pub use error::SuperError;
pub use finding::{FoundVolume, find_volume, has_super};
pub use laws::{
    a_next_epoch_is_begun, a_store_has_one_volume, a_volume_is_created, other_objects_say_nothing,
};
pub use putting::{put_epoch, put_super};
