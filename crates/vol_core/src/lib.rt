//! A volume: its entries and objects, the log on its cache, and the plan of a copy that is out, as one
//! machine of steps.
//!
//! Its contract: each step is one step of the plain volume that the volume shows, and the volume then shows
//! what that becomes. Whatever a stop leaves of the device at each moment of a step reads as a commit of the
//! plain volume. It stands on `obj_log` for entries and objects, on `cache_log` for the log, on `read_plan`
//! for plans of reads and on `object_uploads` for jobs, which it passes on, on `gc_copier` for plans of
//! copies, and on `refine_objects`, `refine_log` and `plain_disk` for what it shows. Laws say that a read
//! through its maps is one of the plain volume, and that a volume that was opened at a later object shows
//! the plain volume from its first object on.
#![tactic(auto)]

mod collecting;
mod committing;
mod creating;
mod entering;
mod event;
mod laws;
mod putting;
mod reading;
mod removing;
mod reply;
mod volume;

pub use creating::{create, new_list};
pub use event::Event;
pub use laws::a_volume_shows_what_was_folded;
pub use object_uploads::Job;
pub use read_plan::Plan;
pub use reading::a_read_through_the_maps_is_one_of_the_plain_volume;
pub use reply::{EntryRefusal, Reply, SealRefusal};
pub use volume::Volume;
