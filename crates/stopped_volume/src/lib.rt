//! What a stop leaves of a volume: when the bytes of a cache device and the objects of a store stand for the
//! first entries of its history.
//!
//! Its contract: these definitions, on which the volume, its mounts and its replay rest, and the laws that
//! join them. It stands on `object_stream` for the objects, on `super_format` for the super object and
//! epochs, on `clone_chain` for ancestors, and on `cache_log` and `commit_slot` for the device.
#![tactic(auto)]

mod laws;

pub use laws::{
    landed_objects_stand_for_the_history, objects_stand_for_one_volume, what_is_inherited_stays,
};
