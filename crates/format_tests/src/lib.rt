//! The formats of docs/FORMATS.md, byte by byte: what is written of each is told in hexadecimal and read
//! again, and what is refused is told with its reason.
//!
//! Its contract is its output, of which each value is the document's; it says no other. The stored output
//! of the program `area_tests` has these values. The crate stands on `test_output`, the crates of the
//! formats, `extent_map` for the rows of checkpoints, and the kit's `hex` and `uuid`.
#![tactic(auto)]

mod bodies;
mod case;
mod chains;
mod checkpoints;
mod epochs;
mod lines;
mod names;
mod objects;
mod records;
mod refused_objects;
mod supers;

use test_output::TestError;

/// Tells what is written and read of each format, and what is refused.
pub fn tell_all(rt: &HostRuntime) -> Result<(), TestError> {
    records::tell_all(rt)?;
    bodies::tell_all(rt)?;
    names::tell_all(rt)?;
    chains::tell_all(rt)?;
    supers::tell_all(rt)?;
    epochs::tell_all(rt)?;
    objects::tell_all(rt)?;
    refused_objects::tell_all(rt)?;
    checkpoints::tell_all(rt)
}
