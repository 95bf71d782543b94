//! Big-endian numbers of 16, 32 and 64 bits, and 16 bytes such as a uuid, read and written at a place of a
//! slice, for the formats of a virtual disk.
//!
//! Its contract: bytes and numbers, both ways. What is written is read again, a write changes no other
//! bytes, and what is read may be written back unchanged. `paste` does the same of a piece in a window on
//! bytes: a window that showed some bytes shows them with the piece in its place.
//! It stands on the kit's `byteorder`.
#![tactic(auto)]

mod laws;
mod reading;
mod window;
mod writing;

pub use laws::{
    a_write_changes_no_other_bytes, what_is_read_is_written_unchanged,
    what_is_written_is_read_again,
};
pub use reading::{is_zeros, read_16_bytes, read_u16, read_u32, read_u64};
pub use window::paste;
pub use writing::{write_16_bytes, write_u16, write_u32, write_u64};
