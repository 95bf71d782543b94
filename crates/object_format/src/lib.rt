//! The numbered objects of a virtual disk's store: a header, rows that say which sectors of the volume the
//! object holds, and the payload, which is the data of these sectors.
//!
//! Its contract: an object is read exactly where the grammar has it under the expected number, and is else
//! refused for the first test that it fails; what is written is in the grammar.
//! It stands on `lsvd_base`, on `lsvd_bytes` for numbers, and on the kit's `thiserror`.
#![tactic(auto)]

mod copy_row;
mod data_row;
mod expected;
mod header;
mod kind;
mod laws;
mod reading;
mod reason;
mod rows;
mod rows_reading;
mod writing;

pub use copy_row::{CopyRow, Source, copies_payload, copy_front_sectors};
pub use data_row::{DataRow, data_front_sectors};
pub use expected::Expected;
pub use header::Header;
pub use kind::Kind;
pub use laws::{
    an_object_has_one_reading, no_object_begins_another, rows_have_the_payload, rows_may_go_on,
    what_is_written_is_an_object,
};
pub use reading::read_header;
pub use reason::BadObject;
pub use rows::Rows;
pub use rows_reading::{RowsReadError, read_rows};
pub use writing::ObjectWriter;

// The bytes that an object begins with.
const MAGIC: [u8; 8] = *b"LSVDOBJ1";

// The bytes of a header.
const HEADER_BYTES: usize = 64;

// The most sectors of a payload.
const MAX_PAYLOAD: u64 = 131_071;

// Where the number of the kind stands, in 4 bytes, as all numbers highest byte first.
const KIND_AT: usize = 8;

// Where the volume's uuid stands, in 16 bytes.
const UUID_AT: usize = 12;

// Where the object's number stands, in 8 bytes.
const NUMBER_AT: usize = 28;

// Where the first seq stands, in 8 bytes.
const FIRST_SEQ_AT: usize = 36;

// Where the end seq stands, in 8 bytes.
const END_SEQ_AT: usize = 44;

// Where the count of rows stands, in 4 bytes.
const ROWS_AT: usize = 52;

// Where the count of sectors of the payload stands, in 8 bytes.
const PAYLOAD_AT: usize = 56;

// Where the count of sectors stands in a row, in 8 bytes. The first sector of the volume stands before it.
const SECTORS_AT: usize = 8;

// Where the place in the payload stands in a row, in 8 bytes.
const PLACE_AT: usize = 16;
