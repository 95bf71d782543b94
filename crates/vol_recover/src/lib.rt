//! Creating a volume with its store, and mounting it after a stop: with the cache that it had, or without it
//! on a new device.
//!
//! Its contract: a volume that was created has no entries, and its store has its first object, its first
//! epoch and its super object, which is put last, so that a creation that is stopped leaves no volume or the
//! whole one. A mount makes of the volume that the store has, and of the plain volume that device and store
//! have, what such a mount is to make. Whenever it is stopped, the same is left, and the volume may be
//! mounted again. What is refused is left as it was. Whether the volume takes a log of so many sectors can be
//! asked before its cache is made anew. Laws say that the store stands for a volume from its creation on and
//! after each mount, and that what a stop leaves then is what a mount asks for. It stands on `super_recovery`
//! for the super object, epochs and holds, on `vol_mount` for mounts of a volume whose sizes are known, on
//! `vol_core` for the volume, and on `refine_store` for what stands in a store.
#![tactic(auto)]

mod admitting;
mod creating;
mod describing;
mod laws;
mod mounting;

pub use admitting::admit_log;
pub use creating::{CreateError, create};
pub use laws::{
    a_made_volume_stands_with_its_store, a_stop_leaves_what_a_mount_asks_for,
    a_stopped_mount_may_be_made_again,
};
pub use mounting::{mount_kept, mount_lost};
pub use vol_mount::{MountError, Mounted};
