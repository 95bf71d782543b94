// The texts of errors.
use crate::bytes::OTHER;
use log_record::Reason;
use object_format::BadObject;
use object_recovery::RecoverError;
use refusals::{BadSuper, Refusal};
use super_format::SuperReason;
use super_recovery::SuperError;
use test_output::TestError;
use uuid::Uuid;
use vol_mount::MountError;
use vol_recover::CreateError;

const REFUSALS: [Refusal; 14] = [
    Refusal::NoVolume,
    Refusal::BadSuper {
        reason: BadSuper::BadEpoch { number: 4 },
    },
    Refusal::BadSuper {
        reason: BadSuper::BadHold { number: 5 },
    },
    Refusal::BadSuper {
        reason: BadSuper::NoEpoch,
    },
    Refusal::BadSuper {
        reason: BadSuper::Super(SuperReason::Magic),
    },
    Refusal::TooDeep { levels: 16 },
    Refusal::NoCheckpoint,
    Refusal::BadObject {
        number: 3,
        reason: BadObject::Seqs,
    },
    Refusal::MissingObject { number: 2 },
    Refusal::NoSlot { log: 9 },
    Refusal::StaleCache { cache: 1, store: 3 },
    Refusal::BadRecord {
        seq: 5,
        reason: Reason::Seq,
    },
    Refusal::Exists,
    Refusal::Worn { value: 1 << 60 },
];

const FAULTS: [MountError; 3] = [
    MountError::StoreFault,
    MountError::DeviceFault,
    MountError::OutOfMemory,
];

const CREATIONS: &[CreateError] = &[
    CreateError::Exists,
    CreateError::StoreFault,
    CreateError::DeviceFault,
    CreateError::OutOfMemory,
];

const VOLUMES: &[SuperError] = &[
    SuperError::NoVolume,
    SuperError::BadSuper {
        reason: BadSuper::Super(SuperReason::Magic),
    },
    SuperError::BadSuper {
        reason: BadSuper::BadEpoch { number: 3 },
    },
    SuperError::StoreFault,
    SuperError::OutOfMemory,
];

const RECOVERIES: [RecoverError; 5] = [
    RecoverError::NoCheckpoint,
    RecoverError::BadObject {
        number: 3,
        reason: BadObject::Seqs,
    },
    RecoverError::MissingObject { number: 2 },
    RecoverError::StoreFault,
    RecoverError::OutOfMemory,
];

/// Tells each text.
pub fn tell_all(rt: &HostRuntime) -> Result<(), TestError> {
    tell_mounts(rt)?;
    tell_creations(rt)?;
    tell_volumes(rt)?;
    tell_recoveries(rt)
}

fn tell_mounts(rt: &HostRuntime) -> Result<(), TestError> {
    for refusal in REFUSALS {
        println!(rt; "{}", MountError::Refused(refusal))?;
    }
    for error in FAULTS {
        println!(rt; "{error}")?;
    }
    let uuid = Uuid::from_bytes(OTHER);
    println!(rt;
        "{}",
        MountError::Refused(Refusal::WrongVolume { found: uuid })
    )?;
    println!(rt;
        "{}",
        MountError::Refused(Refusal::BaseMissing { ancestor: uuid })
    )?;
    Ok(())
}

fn tell_creations(rt: &HostRuntime) -> Result<(), TestError> {
    for error in CREATIONS {
        println!(rt; "{error}")?;
    }
    Ok(())
}

fn tell_volumes(rt: &HostRuntime) -> Result<(), TestError> {
    for error in VOLUMES {
        println!(rt; "{error}")?;
    }
    Ok(())
}

fn tell_recoveries(rt: &HostRuntime) -> Result<(), TestError> {
    for error in RECOVERIES {
        println!(rt; "{error}")?;
    }
    let uuid = Uuid::from_bytes(OTHER);
    println!(rt; "{}", RecoverError::BaseMissing { uuid })?;
    Ok(())
}
