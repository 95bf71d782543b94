//! A disk over any other one that gathers writes, so that many short ones, each of which goes on where the
//! last one ended, are one write below.
//!
//! Its contract: it is a disk, and no read of it gives other bytes than were written. What a stop of the
//! machine may leave of the disk below, it tells that a stop may leave. It stands on `lsvd_device` for disks.
#![tactic(auto)]

mod disk;
mod moments;

pub use disk::GatheredDisk;
pub use moments::{Moments, Untold};
