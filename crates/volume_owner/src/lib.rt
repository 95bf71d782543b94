//! The owner of a volume: whole requests, one after the other, on one thread. It keeps the volume going by
//! itself: where the batch or the log is full, it seals objects and puts them into the store before it goes
//! on.
//!
//! Its contract: a write or a zeroing that is answered is the one entry that the call added to the history,
//! and one that is refused adds none; a flush that is answered has committed the whole history; a drain that
//! is answered has done so too, left nothing to seal or to put behind a checkpoint, and no object to remove;
//! a turn of collection copies live sectors of victims into an object of its own and adds nothing to the
//! history, and a whole collection leaves no victim, and the volume drained; a read gives the sectors of the
//! history. Each call is made of steps of the volume, puts of its
//! objects, removals and gets, over which the store goes on standing for the volume, where receipts tell
//! their objects' bytes. `Eio` is answered exactly where one call of the disk or of the store failed. It
//! stands on `vol_core` for the volume, on `object_uploads`, `read_plan` and `gc_copier` for puts, plans of
//! reads and copies, on `read_cache` for what reads get, on `lsvd_objstore` for the store, and on
//! `refine_store` for what stands in it.
#![tactic(auto)]

mod clearing;
mod collecting;
mod collecting_all;
mod draining;
mod entering;
mod error;
mod helping;
mod laws;
mod owner;
mod reading;
mod replies;

pub use collecting::Turn;
pub use collecting_all::Collected;
pub use draining::Drained;
pub use error::OwnerError;
pub use laws::{a_new_volume_is_idle, acts_keep_the_store};
pub use owner::Owner;
pub use reading::SectorsRead;
