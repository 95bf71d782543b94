//! The records of a virtual disk's log: a header sector for each entry, and after that of a write
//! its data.
//!
//! Its contract: a sector is read as a header exactly where the grammar has it at that place, and
//! is else refused for the first test that it fails; a record is that of one entry. How headers and
//! records are spelled is seen by this crate alone: others know of them what the laws say.
//! It stands on `lsvd_base`, on `lsvd_bytes` for numbers, on `log_room` for sizes, and on the kit's
//! `thiserror`.
#![tactic(auto)]

mod decoding;
mod encoding;
mod head;
mod laws;
mod reason;

pub use decoding::decode;
pub use encoding::{encode_into, encode_pad};
pub use head::{Head, Place};
pub use laws::{
    a_header_has_one_sector, a_record_determines_its_entry, a_record_has_its_sectors,
    a_record_is_a_header_and_data, a_sector_determines_its_head,
};
pub use reason::{BadRecord, Reason};

// The bytes that a header begins with.
const MAGIC: [u8; 8] = *b"LSVDREC1";

// The kind of a write's header.
const WRITE_KIND: u32 = 1;

// The kind of a zeroing's header.
const ZERO_KIND: u32 = 2;

// The kind of a pad's header.
const PAD_KIND: u32 = 3;

// Where the number of its kind stands, in 4 bytes, as all numbers highest byte first.
const KIND_AT: usize = 8;

// Where the seq stands, in 8 bytes.
const SEQ_AT: usize = 12;

// Where the lba stands, in 8 bytes.
const LBA_AT: usize = 20;

// Where the count of sectors stands, in 8 bytes.
const SECTORS_AT: usize = 28;

// Where the zeros begin that fill the sector.
const FILLER_AT: usize = 36;
