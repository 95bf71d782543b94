//! The messages of NBD, the network block device, to and from the bytes of a link: the fixed newstyle
//! handshake, options and their replies, requests and simple replies. They are those of the NBD protocol
//! document.
//!
//! Its contract: what is read is the next message of the input, whole, and nothing past it, in whatever
//! pieces it comes; input that ends inside a message, or is none, is refused. What is written is the
//! message's bytes. No call takes memory. It stands on `lsvd_fault` for links, on `lsvd_bytes` for numbers,
//! and on the kit's `thiserror`.
#![tactic(auto)]

mod decoding;
mod encoding;
mod filling;
mod laws;
mod message;
mod reading;
mod wire_end;
mod writing;

pub use laws::{a_message_has_one_reading, messages_have_their_sizes};
pub use message::{OptionHead, Request};
pub use reading::{drop_data, read_data, read_flags, read_option_head, read_request};
pub use wire_end::WireEnd;
pub use writing::{write_export, write_greeting, write_option_reply, write_simple};

// The bytes that an option begins with, and that end the magics of a greeting.
const OPTION_MAGIC: [u8; 8] = *b"IHAVEOPT";

// What a reply to an option begins with.
const OPTION_REPLY_MAGIC: u64 = 0x0003_e889_0455_65a9;

// What a request begins with.
const REQUEST_MAGIC: u32 = 0x2560_9513;

// What a simple reply begins with.
const SIMPLE_REPLY_MAGIC: u32 = 0x6744_6698;

// The flags of a client that are known: the fixed newstyle, and no zeros after an export.
const CLIENT_FLAGS: u32 = 3;

// The bytes of a client's flags.
const CLIENT_FLAGS_BYTES: usize = 4;

// The bytes of an option before its data.
const OPTION_HEAD_BYTES: usize = 16;

// The bytes of a reply to an option before its data.
const OPTION_REPLY_HEAD_BYTES: usize = 20;

// The bytes of a request before the data of a write.
const REQUEST_BYTES: usize = 28;

// The bytes of a simple reply before the data of a read.
const SIMPLE_REPLY_HEAD_BYTES: usize = 16;

// The bytes of an export's size and flags, and those with the zeros after them.
const EXPORT_BYTES: usize = 10;

const EXPORT_WITH_ZEROS_BYTES: usize = 134;
