//! The store of a virtual disk's objects: a finite map from names to bytes, where each put is whole or
//! absent.
//!
//! Its contract is that of the trait `Store`: what a put, a removal, a search and a list do, acknowledged or
//! not, and when a call fails. A receipt stands for the bytes that one object had. It stands on `lsvd_names`,
//! `lsvd_base`, `lsvd_fault`, `lsvd_files` and the kit's `lru`. A store in memory and its receipts share the
//! bytes of an object with whoever put it. `DirStore` is a store over a directory: it holds what the files
//! of that are, where the directory tells it, and each put and removal is durable once it is acknowledged.
//! One of the operating system tells nothing, and the store then counts its faults alone.
#![tactic(auto)]

mod directory;
mod error;
mod faulty;
mod laws;
mod memory;
mod names;
mod object_files;
mod placing;
mod store;

pub use directory::{DirReceipt, DirStore};
pub use error::StoreError;
pub use faulty::{FaultStore, PlannedFault};
pub use laws::{
    a_store_in_memory_never_fails, a_temporary_name_is_no_objects, a_volume_has_one_list,
    an_object_is_changed_whole_or_not_at_all,
};
pub use memory::{MemReceipt, MemStore};
pub use names::Names;
pub use object_files::DirectoryError;
pub use store::{Receipt, Store};
