//! What a clone of a virtual disk opens with: a checkpoint of its own, whose rows name the objects that it
//! shares with its base.
//!
//! Its contract: the rows are those of the base's checkpoint, each with its level raised by one, so that what
//! owns a sector of the base owns it in the clone, one level further.
//! It stands on `ckpt_format` for checkpoints, on `extent_map` and `object_format`, and on `lsvd_base` for
//! the bytes of an object.
#![tactic(auto)]

mod laws;
mod opening;

pub use laws::each_owner_is_one_level_further;
pub use opening::raised_checkpoint;
