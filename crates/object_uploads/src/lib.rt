//! The objects of a volume on their way to the store: those past the frontier with their jobs, those up to it
//! with what the store gave for them, those of its ancestors that the map names, and the maps of what each
//! has.
//!
//! Its contract: objects may be acknowledged in any order, and are settled in the order of their numbers; a
//! copy takes then those of its sectors that the map still has in their sources.
//! Whatever lands of those past the frontier, their replay up to the first that is missing gives the owners
//! of the stream up to there. A plan of a copy has the live sectors of the victims, and the objects that it
//! takes them from, which are not removed before it ends. It stands on `upload_window` for the order of
//! uploads, on `volume_maps` for the maps, on `gc_copier` for plans, on `lsvd_objstore` for receipts and for
//! the store that a job is put into, and on `object_stream` for what the stream is. It knows no device, and
//! keeps no store.
#![tactic(auto)]

mod checkpoint;
mod collection;
mod inherited;
mod job;
mod laws;
mod queue;
mod receipts;
mod rows;
mod sealed;
mod uploads;

pub use job::Job;
pub use laws::{
    a_recovery_finds_the_stream, a_stream_grows, an_adopted_object_goes_on_with_the_stream,
    puts_keep_the_stream, puts_make_the_image, the_objects_keep_their_image,
};
pub use rows::SealedRows;
pub use uploads::Uploads;
