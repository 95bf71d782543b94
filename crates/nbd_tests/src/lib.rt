//! Vectors of NBD by docs/NBD.md, and sessions that go on or end where the input, the link, the disk or the
//! listener fails: in memory, and over a Unix socket as far as `scripts/check_serve` does not show it.
//!
//! What clients send is written here byte by byte. Bytes are told in hex, a line for each message, and a run
//! of equal ones by its length. Its contract is its output, which stands in the stored one of the program
//! `area_tests`. Its sockets are made in the folder that the program runs in, and are removed at the end. It
//! stands on `test_output`, `volume_server` and the crates below it.
#![tactic(auto)]

mod broken;
mod dump;
mod greeting;
mod lanes;
mod negotiations;
mod paths;
mod requests;
mod sockets;
mod volume;

use test_output::{TestError, head};

/// Tells what each client is sent, and how its session, its link and its listener end.
pub fn tell_all(rt: &HostRuntime) -> Result<(), TestError> {
    tell_negotiations(rt)?;
    tell_requests(rt)?;
    tell_broken(rt)?;
    tell_clients(rt)?;
    tell_sockets(rt)
}

fn tell_negotiations(rt: &HostRuntime) -> Result<(), TestError> {
    head(rt, "# Negotiations, and what is sent after the greeting")?;
    negotiations::tell_all(rt)?;
    head(
        rt,
        "# Data of options that are long, and options that are many",
    )?;
    negotiations::tell_long(rt)
}

fn tell_requests(rt: &HostRuntime) -> Result<(), TestError> {
    head(rt, "# Requests, and their replies")?;
    requests::tell_all(rt)?;
    head(rt, "# Requests on a disk that fails after the first record")?;
    requests::tell_failing(rt)
}

fn tell_broken(rt: &HostRuntime) -> Result<(), TestError> {
    head(rt, "# Input that is cut off")?;
    broken::tell_cuts(rt)?;
    head(rt, "# Calls of the link that fail, one at a time")?;
    broken::tell_faults(rt)
}

fn tell_clients(rt: &HostRuntime) -> Result<(), TestError> {
    head(rt, "# Clients of a listener in memory")?;
    lanes::tell_clients(rt)?;
    lanes::tell_lanes(rt)
}

fn tell_sockets(rt: &HostRuntime) -> Result<(), TestError> {
    head(rt, "# Links over a socket")?;
    sockets::tell_all(rt)?;
    head(rt, "# Paths of sockets")?;
    paths::tell_all(rt)
}
