//! Plans of reads of a volume: what the log on the cache has is read at once, and where objects have the rest
//! is noted with what the store gave for them, to be fetched later.
//!
//! Its contract: a plan has the sectors as they were at the look, whatever is written or settled after it; a
//! fetch reads the objects alone. The objects of a plan are pinned in the list of the volume's objects until
//! the plan is released, so that none is removed. It stands on `obj_log` for the places of sectors and for
//! pins, on `cache_log` for the log, on `read_cache` for the gets of a fetch, and on `lsvd_objstore` for the
//! store.
#![tactic(auto)]

mod error;
mod laws;
mod looking;
mod objects;
mod piece;
mod pinning;
mod plan;
mod releasing;
mod rows;

pub use error::LookError;
pub use laws::a_plan_gives_its_sectors;
pub use looking::look;
pub use plan::Plan;
pub use releasing::release;
