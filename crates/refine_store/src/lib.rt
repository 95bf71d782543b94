//! The puts of a volume refine the plain volume's: the objects of it that a store has while they are under
//! way, and after a stop.
//!
//! Its contract: these definitions, and the laws that a job has the bytes of the plain volume's object; that
//! whatever a stop leaves of the store has the plain volume's objects up to the one before the first missing
//! number; and that the store stands for the volume that a mount makes, once the objects past that are gone.
//! It stands on `refine_objects`, `stopped_volume`, `refine_mount` and `plain_disk`.
#![tactic(auto)]

mod laws;

pub use laws::{
    a_mount_leaves_the_store_standing, a_stopped_store_has_the_objects,
    jobs_have_the_bytes_of_objects,
};
