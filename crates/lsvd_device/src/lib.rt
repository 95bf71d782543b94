//! Disks: devices of a fixed number of bytes. Each write since the last sync may be kept, lost or torn by a
//! stop.
//!
//! Its contract is that of the trait `Disk`: what a read gives, what a stop at any moment may leave, and when
//! a call fails. `StoppedDisk` is a disk of which a test bench can ask what a stop leaves. `FileDisk` is a
//! disk over a file: its contract rests on that of the trait `RawFile`, which says what each call of the
//! operating system does to a file. `LockedFile` is the system's own, which tells nothing of what it holds.
//! The crate stands on `lsvd_fault`, `lsvd_bytes` and the kit's `thiserror` and `libc`.
#![tactic(auto)]

mod change;
mod disk;
mod fate;
mod file;
mod fuse;
mod locked_file;
mod memory;
mod raw_file;
mod stop;

pub use disk::{Disk, StoppedDisk};
pub use fate::Fate;
pub use file::{FileDisk, FileError};
pub use fuse::FuseDisk;
pub use locked_file::LockedFile;
pub use memory::MemDisk;
pub use raw_file::RawFile;
