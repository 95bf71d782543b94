//! The body of a commit on a virtual disk's cache device: one sector that says where the log has its tail and
//! its head.
//!
//! Its contract: a sector is read as a body exactly where the grammar has it in that slot, for a log of that
//! length, and a sector is the body of one commit with one number. It stands on `lsvd_bytes` for numbers.
#![tactic(auto)]

mod body;
mod decoding;
mod encoding;
mod laws;

pub use body::{CommitBody, Mark, is_within};
pub use decoding::read_body;
pub use encoding::write_body;
pub use laws::{a_body_is_one_sector, a_sector_is_one_body};

// The bytes that a body begins with.
const MAGIC: [u8; 8] = *b"LSVDCMT1";

/// How many slots commits are written to in turn.
pub const SLOTS: u64 = 3;

// Where the volume's uuid stands, in 16 bytes.
const UUID_AT: usize = 8;

// Where the epoch stands, in 8 bytes, as all numbers highest byte first.
const EPOCH_AT: usize = 24;

// Where the commit's number stands, in 8 bytes.
const NUMBER_AT: usize = 32;

// Where the tail stands, in 16 bytes: its position, then its seq.
const TAIL_AT: usize = 40;

// Where the head stands, in 16 bytes as the tail.
const HEAD_AT: usize = 56;

// Where the zeros begin that fill the sector.
const FILLER_AT: usize = 72;
