use cache_log::{AppendError, LogReadError, OpenError};
use commit_slot::LoadError;
use log_record::Reason;
use lsvd_device::FileError;
use lsvd_fault::Failed;
use std::fmt::Display;
use test_output::{TestError, head};

/// Tells the texts of errors.
pub fn tell_all(rt: &HostRuntime) -> Result<(), TestError> {
    head(rt, "the texts of errors")?;
    tell(rt, Failed)?;
    tell(rt, lsvd_fault::ReadError::Failed)?;
    tell(rt, lsvd_fault::ReadError::OutOfMemory)?;
    tell(rt, FileError::OutOfMemory)?;
    tell_slots(rt)?;
    tell_log(rt)
}

fn tell_slots(rt: &HostRuntime) -> Result<(), TestError> {
    tell(rt, LoadError::NoSlot { log: 18 })?;
    tell(rt, LoadError::DeviceFault)
}

fn tell_log(rt: &HostRuntime) -> Result<(), TestError> {
    let (seq, reason) = (7, Reason::Zeros);
    tell(rt, AppendError::NoRoom { need: 10, free: 1 })?;
    tell(rt, AppendError::DeviceFault)?;
    tell(rt, OpenError::BadRecord { seq, reason })?;
    tell(rt, OpenError::DeviceFault)?;
    tell(rt, OpenError::OutOfMemory)?;
    tell(rt, LogReadError::DeviceFault)?;
    tell(rt, LogReadError::OutOfMemory)
}

fn tell<E: Display + Drop>(rt: &HostRuntime, error: E) -> Result<(), TestError> {
    println!(rt; " {error}")?;
    Ok(())
}
