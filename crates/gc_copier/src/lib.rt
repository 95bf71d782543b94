//! The reading side of a garbage collection: the live sectors of old objects are copied into the payload of a
//! new one.
//!
//! Its contract: what is copied has for each row of the plan the bytes that the receipt of the row's source
//! tells, a get of the store reads payload of a source and nothing else is asked of it, and a copy that fails
//! tells which object could not be read. It stands on `object_format` for the rows of the copy object, on
//! `lsvd_objstore` for the store and its receipts, on `lsvd_base` for the size of a sector, on `lsvd_bytes`
//! for bytes at a place, on `lsvd_fault` for failed calls, and on the kit's `thiserror`.
#![tactic(auto)]

mod copied;
mod copying;
mod error;
mod plan;
mod reading;
mod runs;
mod source;

pub use copied::Copied;
pub use copying::copy;
pub use error::CopyError;
pub use plan::GcPlan;
pub use source::PlanSource;
