//! Files and directories, as the operating system has them.
//!
//! Its contract is that of the trait `Directory`: which names lead to which files, what each call of the
//! system does to them, also where it fails, and what a stop of the machine may leave of them.
//! `SystemDirectory` is a directory of the operating system: each of its calls is taken to do what the trait
//! says, and it tells nothing. `MemDirectory` is one in memory, which tells all, and whose calls fail as
//! planned.
#![tactic(auto)]

mod directory;
mod memory;
mod names;
mod system;

pub use directory::Directory;
pub use memory::{MemDirectory, MemHandle};
pub use names::FileNames;
pub use system::{SystemDirectory, SystemFile};
