//! The super object of a virtual disk, which says what its volume is, the epochs of the volume and the holds
//! on its checkpoints, in the disk's store.
//!
//! Its contract: equal to the grammar, both ways. A super object, an epoch or a hold is read exactly where
//! the bytes are one of the expected volume, a super object is else refused for the first test that it
//! fails, and what is written is one. It stands on `clone_chain` for ancestors, on `lsvd_base` for limits and
//! the bytes of objects, on `lsvd_bytes` for numbers, and on the kit's `uuid` and `thiserror`.
#![tactic(auto)]

mod ancestors;
mod epoch;
mod hold;
mod laws;
mod numbered;
mod reading;
mod reason;
mod super_object;
mod writing;

pub use epoch::{BadEpoch, Epoch};
pub use hold::{BadHold, Hold};
pub use laws::{a_value_has_one_spelling, no_spelling_begins_another};
pub use reading::SuperReadError;
pub use reason::SuperReason;
pub use super_object::Super;

// The bytes that a super object begins with.
const MAGIC: [u8; 8] = *b"LSVDSUP1";

// The version of super objects that is known.
const VERSION: u32 = 1;

// The bytes before the ancestors.
const HEAD_BYTES: usize = 48;

// Where the version stands, in 4 bytes, as all numbers highest byte first.
const VERSION_AT: usize = 8;

// Where the volume's uuid stands, in 16 bytes.
const UUID_AT: usize = 12;

// Where the sectors of the volume stand, in 8 bytes.
const SECTORS_AT: usize = 28;

// Where the most sectors of one read or write stand, in 4 bytes.
const MAX_WRITE_AT: usize = 36;

// Where the sectors of a full batch stand, in 4 bytes.
const BATCH_AT: usize = 40;

// Where the count of ancestors stands, in 4 bytes.
const COUNT_AT: usize = 44;
