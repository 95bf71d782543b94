use obj_log::SealError;
use read_plan::LookError;
use test_output::{TestError, head};
use volume_owner::OwnerError;

const SEALS: &[SealError] = &[SealError::Nothing, SealError::Busy, SealError::OutOfMemory];

const LOOKS: &[LookError] = &[LookError::Fault, LookError::OutOfMemory];

const REQUESTS: &[OwnerError] = &[OwnerError::Range, OwnerError::Eio, OwnerError::OutOfMemory];

/// Shows what errors say of themselves.
pub fn tell_texts(rt: &HostRuntime) -> Result<(), TestError> {
    head(rt, "# What errors say")?;
    for error in SEALS {
        println!(rt; "no object is sealed: {error}")?;
    }
    for error in LOOKS {
        println!(rt; "no read is planned: {error}")?;
    }
    for error in REQUESTS {
        println!(rt; "no request is carried out: {error}")?;
    }
    Ok(())
}
