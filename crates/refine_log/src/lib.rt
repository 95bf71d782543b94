//! The log on the cache refines the log of the plain volume that it shows.
//!
//! Its contract: these definitions, and the laws that each call of the log on the cache does what the log of
//! the plain volume does, and leaves pending the writes that it leaves of the plain cache; a commit that
//! failed did what a commit does whose device passes fewer calls; and whatever a stop leaves of the cache
//! reads as a commit of the plain volume, and so stands for its entries up to the commit's head. It stands on
//! `cache_log` and `commit_slot` for the log, on `plain_disk` for what it shows, and on `stopped_volume` for
//! what the bytes of a cache stand for.
#![tactic(auto)]

mod laws;

pub use laws::{
    calls_have_fuses, calls_keep_what_has_committed, calls_leave_pending_what_the_plain_cache_has,
    stops_keep_committed_entries, the_log_shows_the_plain_log,
};
