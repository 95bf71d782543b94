//! The list of a volume's entries and objects refines that of the plain volume that it shows.
//!
//! Its contract: these definitions, and the laws that each call of the list does what the plain volume does.
//! It stands on `obj_log` and the crates below it for the list, and on `plain_disk` for what it shows.
#![tactic(auto)]

mod laws;
mod plan_laws;
mod table_laws;

pub use laws::{calls_show_what_the_plain_volume_does, the_list_shows_a_plain_volume};
pub use plan_laws::{calls_keep_the_plan_that_is_out, plans_show_the_plain_volume_s};
pub use table_laws::{
    calls_keep_what_the_table_shows, checkpoints_and_removals_show_the_plain_volume_s,
};
