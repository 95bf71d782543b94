//! Where a server gets its connections from: listeners, which give links one after another, and what sends
//! what a link holds back.
//!
//! Its contract is that of the traits `Listener` and `Connection`: a call fails only where the count of
//! faults rose in it, the links that were given are counted, and None is a listener that is closed.
//! A link holds nothing back after a `send` that succeeds. `MemListener` gives links in memory, in order.
//! `SocketListener` and `SocketLink` are those of a Unix socket: they count alike, and tell no bytes but
//! those that a link holds back. It stands on `lsvd_fault` and the kit's `thiserror`.
#![tactic(auto)]

mod buffer;
mod calls;
mod connection;
mod faults;
mod listener;
mod memory;
mod owner_only;
mod socket_link;
mod socket_listener;

pub use connection::Connection;
pub use listener::Listener;
pub use memory::MemListener;
pub use socket_link::SocketLink;
pub use socket_listener::{ListenError, SocketListener};
