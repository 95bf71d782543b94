//! Mounts that no script of the program can make, and what is found: stores with bad, missing and foreign
//! objects, caches of another volume or of another epoch, and stores and devices that fail, or stop, in the
//! midst of a mount.
//!
//! What stands in the stores and on the devices is written here byte by byte, as docs/FORMATS.md has it. Its
//! contract is its output, which stands in the stored one of the program `area_tests`. It stands on
//! `test_output`, `vol_recover` and the crates below it.
#![tactic(auto)]

mod answer;
mod bytes;
mod cache;
mod calls;
mod faults;
mod names;
mod rows;
mod scene;
mod stops;
mod store;
mod telling;
mod texts;

use test_output::{TestError, head};

/// Tells what each of the mounts answers, and the texts of errors.
pub fn tell_all(rt: &HostRuntime) -> Result<(), TestError> {
    head(rt, "# A store's objects, mounted without the cache")?;
    rows::tell_all(rt, &rows::OBJECTS)?;
    head(rt, "# Its super object, its epochs and its holds")?;
    rows::tell_all(rt, &rows::VOLUMES)?;
    head(rt, "# A device, mounted as the cache")?;
    rows::tell_all(rt, &rows::CACHES)?;
    head(
        rt,
        "# Calls one after the other, on one store and one device",
    )?;
    calls::tell_calls(rt)?;
    head(
        rt,
        "# A creation in which a call of the store fails, then a mount, and a creation again",
    )?;
    calls::tell_broken_creations(rt)?;
    head(
        rt,
        "# Calls that fail in a mount, one at a time, and the mount after it",
    )?;
    faults::tell_all(rt)?;
    head(
        rt,
        "# Mounts with the cache whose device stops twice, and the one after them",
    )?;
    stops::tell_all(rt)?;
    head(rt, "# Texts of errors")?;
    texts::tell_all(rt)
}
