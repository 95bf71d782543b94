//! The circular log of a volume on its cache device.
//!
//! Its contract: the log is a list of entries, each a record on the device. `append` adds one, and
//! is refused exactly where the record, with the pad before it, has no room. `commit` makes all
//! entries so far outlast a stop: whatever a stop leaves reads as a commit, and has just the entries
//! of its seqs. `trim_to` drops the first entries, whose sectors are free once a commit is made
//! after it. A log is opened with the records up to the head of its commit, exactly where they
//! stand.
//! It stands on `commit_slot` for its device and its commits, on `log_record` and `log_room` for
//! its records.
#![tactic(auto)]

mod error;
mod laws;
mod log;
mod opening;
mod reading_ahead;
mod release;
mod row;
mod transfer;

pub use error::{AppendError, LogReadError, OpenError};
pub use laws::{
    at_most_two_headers_are_read_for_each_record, bytes_have_one_list_of_records,
    records_are_read_again,
};
pub use log::CacheLog;
pub use row::Row;
