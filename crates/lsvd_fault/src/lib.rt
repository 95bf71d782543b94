//! Streams of bytes from and to the outside, with a count of their faults.
//!
//! Its contract: a call answers `Failed` only where the count of faults rose in it, and where an end tells
//! its bytes, what was read and written is exactly what its list of bytes lost and gained.
//! It stands on the kit's `thiserror`.
#![tactic(auto)]

mod adapter;
mod memory;
mod stream;
mod transfer;

pub use adapter::{ReadSource, WriteSink};
pub use memory::{MemLink, MemSink, MemSource};
pub use stream::{Failed, Link, Sink, Source};
pub use transfer::{ReadError, read_past_limit, write_all};
