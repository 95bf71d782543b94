//! The two maps of a volume: which object has each sector, by the objects up to the frontier, and where the
//! log has the sectors that entries past its end changed; and the table of these objects.
//!
//! Its contract: an entry that is entered changes the log's map on its sectors; a data object that is settled
//! takes the sectors of its entries over from the log's map; a copy that is settled takes those of its
//! sectors that the objects' map still has in their sources; a look gives each sector from the log's map, and
//! else from the objects'; the table counts just the sectors that the objects' map has in each object; and a
//! plan of a copy has just the live sectors of the victims. It stands on `extent_map` for both maps, on
//! `object_table` for the table, on `reverse_map` for where an object's sectors may be, on `gc_policy` for
//! which objects a collection takes sectors from, on `object_stream` for what entries and objects do, and on
//! `object_format` for rows.
#![tactic(auto)]

mod copy_plan;
mod laws;
mod look;
mod maps;
mod place;
mod ranges;
mod settled;

pub use laws::{settling_a_copy_is_a_replay, settling_is_a_replay, the_log_keeps_later_entries};
pub use maps::{NewObject, VolumeMaps};
pub use place::{LogPlace, ObjectPlace, VolumePlace};
pub use ranges::{copied_ranges, put_ranges};
pub use settled::{settle_copies, settle_rows};
