//! Tests of the streams, the devices and the log.
//!
//! They print what no clause of these crates says and no script of `lsvdctl` shows: streams that fail or give
//! less than they were asked for, a disk over a file, rows of extents whose places are numbers, the room of a
//! log, the bytes of one that goes round its end, and the texts of errors. The contract is that output, which
//! stands in the stored one of the program `area_tests`. The file of the disk is made in the folder that the
//! program runs in, and is removed at the end. The crate stands on `test_output` and the crates that it
//! tests.
#![tactic(auto)]

mod files;
mod logs;
mod maps;
mod readers;
mod rooms;
mod streams;
mod telling;
mod texts;

use test_output::TestError;

/// Tells what streams, devices, maps and logs do, and the texts of their errors.
pub fn tell_all(rt: &HostRuntime) -> Result<(), TestError> {
    streams::tell_all(rt)?;
    readers::tell_all(rt)?;
    files::tell_all(rt)?;
    maps::tell_all(rt)?;
    rooms::tell_all(rt)?;
    logs::tell_all(rt)?;
    texts::tell_all(rt)
}
