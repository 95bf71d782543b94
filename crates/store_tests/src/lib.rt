//! What stores hold, in memory and in a directory of the operating system, how many gets reads through a
//! cache take, and what a stream of objects says on small lists.
//!
//! Its contract is its output: no contract says what a directory holds, so this is where it is shown. It
//! stands in the stored output of the program `area_tests`. The directory is made in the folder that the
//! program runs in, and is removed at the end. It stands on `test_output`, `lsvd_objstore`, `object_stream`,
//! `read_cache` and the crates below them.
#![tactic(auto)]

mod cached_reads;
mod changes;
mod counted_store;
mod directories;
mod faults;
mod leftovers;
mod memory;
mod missing;
mod names;
mod objects;
mod open_files;
mod streams;
mod walk;

use test_output::TestError;

/// Tells what stores hold, which of their calls fail, how many gets cached reads take, and what streams of
/// objects say.
pub fn tell_all(rt: &HostRuntime) -> Result<(), TestError> {
    memory::tell_all(rt)?;
    directories::tell_all(rt)?;
    cached_reads::tell_all(rt)?;
    changes::tell_all(rt)?;
    streams::tell_all(rt)?;
    missing::tell_all(rt)
}
