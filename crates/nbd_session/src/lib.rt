//! A session of NBD, the network block device, on the side of a server of one volume: the negotiation, and
//! then requests, which are answered in order.
//!
//! Its contract: what is read and written are the messages of the NBD protocol document, for every cutting of
//! the input; each request is refused by the first reason to, or answered by calls of the block device, and
//! nothing else comes of it. That is whatever has the trait `BlockDevice`, alone or beside others over the
//! same volume. It stands on `nbd_options` for the negotiation, and on `nbd_wire` for messages.
#![tactic(auto)]

mod asking;
mod block_device;
mod block_error;
mod carrying_out;
mod command;
mod content;
mod outcome;
mod session;

pub use asking::{Asked, RequestError, asked_of};
pub use block_device::BlockDevice;
pub use block_error::BlockError;
pub use command::Command;
pub use outcome::ReplyError;
pub use session::{MAX_REQUESTS, MAX_STEPS, SessionEnd, serve_session};
