//! Commits of a volume in three slots of its cache device.
//!
//! Its contract: whenever the device stops, it reads as the last commit or, while one is made, as that one,
//! and then it has all that was written past the slots before; once `commit` has answered `Ok`, each stop
//! leaves the new one. `load` goes on with what a device that was stopped reads as, and `read_newest` reads
//! which commit it is.
//!
//! A slot has the sector of a commit's body and a gate, which is open or closed. The device reads as the open
//! slot with the greatest number. Commit n stands in the slot n modulo 3, and the next one goes to the slot
//! after it, round the last. Here the last one is n; `open` and `closed` are the gates.
//!
//! ```text
//!                                    slot of n      the next one        the third
//! between two commits                n     open     n-2     closed      n-1   open
//!   and after a stop                 n     open     n-2     closed      n-1   open
//! first half: body, closing, sync    n     open     n+1     closed      n-1   closed
//!   after a stop in it               n     open     torn    closed      n-1   open or closed
//! second half: opening, sync         n     open     n+1     open        n-1   closed
//!   after a stop in it               n     open     n+1     either      n-1   closed
//! ```
//!
//! After the second half the next slot is that of the last commit, and the third one, which is closed, is the
//! next. A torn body stands in a closed slot, so it is never read. A gate is one byte: any byte but 1 is
//! closed, so a gate that was torn reads as the last commit or as the new one, and both stand. It stands on
//! `lsvd_device`, for the sector of a commit on `commit_body`, and for a sector's size on `lsvd_base`.
#![tactic(auto)]

mod commits;
mod error;
mod formatting;
mod halves;
mod loading;
mod reading;
mod slot;

pub use commits::Commits;
pub use error::LoadError;
pub use reading::read_newest;
pub use slot::LOG_START;
