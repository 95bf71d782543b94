//! Mounting a volume whose sizes and newest epoch are known: with the cache that it had, or without it on a
//! new device.
//!
//! Its contract: a mount with the cache makes of the plain volume that device and store have what such a
//! mount is to make: the entries of the objects before the first missing one, or those up to the head of the
//! commit that the cache reads as, if that are more. One without the cache makes the entries of the objects,
//! in the next epoch. Objects past the first missing number are removed. Whenever the device stops meanwhile,
//! the same is left, and the volume may be mounted again. What is refused is left as it was. It stands on
//! `object_recovery` for the objects, on `super_recovery` for epochs, on `cache_log` for the log, on
//! `vol_core` for the volume, and on `refusals` for why a volume is refused.
#![tactic(auto)]

mod adding;
mod error;
mod fitting;
mod kept;
mod lost;
mod mounted;
mod opening;
mod recovery;
mod stored;
mod worn;

pub use error::MountError;
pub use fitting::refuse_log;
pub use kept::mount_with_cache;
pub use lost::mount_without_cache;
pub use mounted::Mounted;
pub use stored::StoredVolume;
