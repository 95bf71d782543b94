use crate::error::TestError;
use std::fmt::Debug;

/// Writes a heading.
pub fn head(rt: &HostRuntime, what: &str) -> Result<(), TestError> {
    println!(rt; "{what}")?;
    Ok(())
}

/// Writes what was found of a case.
pub fn tell<T: Debug>(rt: &HostRuntime, what: &str, found: &T) -> Result<(), TestError> {
    println!(rt; "  {what}: {found:?}")?;
    Ok(())
}
