//! The plain volume: what each event of a virtual disk answers and leaves, told by lists of entries and
//! objects.
//!
//! Its contract: the machine in `specs/Step.antt`, which the volume is held against, with its stops and its
//! mounts. Its definitions are what a volume is proved to answer, and its laws say what makes them worth it:
//! what was flushed before a stop is kept. It stands on `lsvd_base`, `batcher` and `log_room` for what an
//! entry is and when there is room for one, on `object_stream`, `upload_window` and `commit_body` for objects
//! and commits, and on `lsvd_device` for what a fuse is. `plain_volume` is a program of it.
#![tactic(auto)]

mod cache;
mod event;
mod found_laws;
mod log;
mod numbers;
mod plain_laws;

pub use cache::PendingWrite;
pub use event::{PlainEvent, PlainReply, PlannedRead};
pub use found_laws::{
    a_mount_finds_a_plain_volume, a_mount_finds_what_the_volume_has,
    a_mount_is_a_mount_of_what_is_found, a_volume_is_followed_from_its_beginning_on,
};
pub use log::{PlainCommit, PlainRecord};
pub use numbers::ObjectNumbers;
pub use plain_laws::{
    a_stop_keeps_what_was_acknowledged, each_state_is_a_plain_volume,
    entries_may_be_folded_at_any_time, no_mount_needs_what_is_removed,
};
