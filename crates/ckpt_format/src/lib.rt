//! The checkpoints of a virtual disk's store: numbered objects whose rows are the volume's map, each a run of
//! sectors with the place of its data in the payload of another object.
//!
//! Its contract: a checkpoint is read exactly where the grammar has it under the expected number, and is else
//! refused for the first test that it fails; what is written is in the grammar, and is read again as the same
//! rows. The rows are written and read one by one, with no list of them.
//! It stands on `object_format` for the header and its tests, on `extent_map` for the rows and their shortest
//! list, and on `lsvd_base` and `lsvd_bytes`.
#![tactic(auto)]

mod laws;
mod place;
mod reading;
mod row;
mod writing;

pub use laws::{
    a_checkpoint_has_one_reading, a_checkpoint_without_rows_is_an_object,
    no_checkpoint_begins_another_object, what_is_written_is_a_checkpoint,
    what_is_written_is_read_again,
};
pub use place::StoredPlace;
pub use reading::{CheckpointRows, read_checkpoint};
pub use writing::CheckpointWriter;

// The bytes of a header, after which the rows stand.
const HEADER_BYTES: usize = 64;

// The bytes of a row.
const ROW_BYTES: usize = 36;

// The most sectors of an object's payload.
const MAX_PAYLOAD: u64 = 131_071;
