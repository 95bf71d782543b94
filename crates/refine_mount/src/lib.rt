//! A mount of a volume refines the plain volume's: the plain volume that it makes of what a stop left.
//!
//! Its contract: these definitions, and the laws that the list of objects which is recovered, and the log
//! which is opened and committed again, show the plain volume that a mount is to make; that a mount of what
//! was mounted makes the same, and that whatever a stop leaves meanwhile is such; and which commit of a plain
//! volume a stop leaves, by the fates of the pending writes. It stands on `refine_log` and `refine_objects`
//! for the parts, on `object_recovery` and `plain_disk`.
#![tactic(auto)]

mod laws;

pub use laws::{
    a_list_shows_a_volume_at_rest, a_log_shows_what_is_found,
    a_mount_goes_on_with_the_entries_found, mounting_again_changes_nothing,
    stops_keep_what_is_mounted, stops_leave_commits,
};
