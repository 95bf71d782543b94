//! A server of one volume, on one thread: it waits for clients of NBD, one after the other, and serves each.
//!
//! Its contract: each client is served by a session over the volume; how many there were is counted, and the
//! server ends where they are as many as it was to serve, or where the listener gives none. Over the owner of
//! a volume, the history goes on from one client to the next. It stands on `nbd_session` for sessions, on
//! `lsvd_listen` for clients, and on `volume_owner` for the volume.
#![tactic(auto)]

mod laws;
mod next;
mod owner_device;
mod serving;

pub use laws::{a_session_adds_what_it_entered, clients_add_to_one_history};
pub use next::{NextClient, serve_next};
pub use owner_device::OwnerDevice;
pub use serving::{Closing, Lane, LaneEnd, serve_lane, serve_volume};
