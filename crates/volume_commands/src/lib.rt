//! The commands that make a volume, serve it, collect it and check it, `create`, `serve`, `collect` and
//! `check`, over the world that they reach.
//!
//! Its contract is that of `answer_create`, `answer_serve`, `answer_collect` and `answer_check`: what they
//! write, and how they end, for each request. It stands on `command_line` for the requests, on `vol_recover`,
//! `vol_core`, `volume_owner`, `volume_server` and `vol_check` for the volume, and on `lsvd_device`,
//! `lsvd_objstore`, `lsvd_listen` and `lsvd_fault` for what the world gives.
#![tactic(auto)]

mod checking;
mod clients;
mod closing;
mod collecting;
mod collection;
mod creating;
mod error;
mod laws;
mod mounting;
mod real_world;
mod refusal;
mod report;
mod serving;
mod work;
mod world;

pub use checking::answer_check;
pub use collecting::answer_collect;
pub use creating::answer_create;
pub use laws::{
    a_collected_volume_may_be_mounted_again, a_created_volume_may_be_mounted,
    a_served_volume_may_be_mounted_again,
};
pub use real_world::{RealDisk, RealListener, RealStore, RealWorld};
pub use report::Report;
pub use serving::answer_serve;
pub use world::{World, WorldError};
