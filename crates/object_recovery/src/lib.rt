//! Reading the objects of a volume in a store when it is mounted: from the newest checkpoint on, up to the
//! first missing number.
//!
//! Its contract: the list that is recovered is that of the stream whose objects the store has up to there,
//! with the image that the entries in these make of the one that the newest checkpoint maps. An object past
//! the newest checkpoint that is not of the grammar is refused, also past the first missing number; of
//! several the one with the greatest number. What a hold of the volume keeps is marked in the list, and the
//! checkpoint of a hold that is absent or not of the grammar is refused. Recovering changes nothing. After
//! it, objects past the first missing number are removed, and no other is changed. A recovery that was
//! stopped anywhere may be made again. What reads checkpoints and judges objects here serves the checker of
//! stores too. It stands on `lsvd_objstore` for the store, on `object_format` and `ckpt_format` for the bytes
//! of objects, and on `obj_log` for the list.
#![tactic(auto)]

mod adoption;
mod beginning;
mod checkpoint;
mod error;
mod holding;
mod inherited;
mod judging;
mod laws;
mod naming;
mod reading;
mod recovered;
mod recovery;
mod removal;

pub use checkpoint::{StoredCheckpoint, expected_alone, newest_checkpoint};
pub use error::RecoverError;
pub use holding::read_held;
pub use judging::{ObjectRefusal, Reached, judge_past, judge_to_gap};
pub use laws::{a_list_has_some_image, a_recovery_may_be_made_again, no_object_is_good_and_bad};
pub use reading::read_head;
pub use recovered::Recovered;
pub use recovery::recover;
