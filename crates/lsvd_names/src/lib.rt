//! The names of objects in the store of a log-structured virtual disk.
//!
//! Its contract: a text is read as a name exactly where it is the spelling of one, and each name has one
//! spelling. It stands on `uuid`.
#![tactic(auto)]

mod digits;
mod name;
mod volume;

pub use name::{NameKind, ObjName, a_name_has_one_spelling, no_spelling_begins_another};
pub use volume::a_uuid_has_sixteen_bytes;
