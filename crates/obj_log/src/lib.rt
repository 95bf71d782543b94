//! The list of a volume's entries and objects: entries become objects in batches, and objects go to the
//! store.
//!
//! Its contract: the entries that are in no object are those of the batch, a seal makes the next object of
//! the first of them, what a collection copied becomes one too, and each sector is found in the log or in an
//! object. It knows no device and no store. It stands on `batcher` for the batch, on `object_uploads` for the
//! objects, on `gc_copier` for what was copied, and on `object_format` for how a copy is written.
#![tactic(auto)]

mod copy;
mod error;
mod laws;
mod obj_log;

pub use error::SealError;
pub use laws::{the_list_stays_a_stream, the_objects_have_an_image};
pub use obj_log::ObjLog;
