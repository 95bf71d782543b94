use crate::case::Case;
use crate::lines::tell_bytes;
use clone_chain::{Ancestor, Chain};
use lsvd_base::ObjectBytes;
use std::alloc::{AllocError, Global};
use super_format::{Super, SuperReadError, SuperReason};
use test_output::{TestError, head, tell};
use uuid::Uuid;

// The uuid of a volume that is no clone, of a clone of it, and of a clone of that.
const FIRST: u128 = 0x4000_8000_0000_0000_0001;

const SECOND: u128 = 0x4000_8000_0000_0000_0002;

const THIRD: u128 = 0x4000_8000_0000_0000_0003;

// The ancestors of the last, each by its uuid and its checkpoint.
const ANCESTORS: &[(u128, u64)] = &[(SECOND, 3), (FIRST, 0x0102_0304_0506_0708)];

const REASONS: [SuperReason; 6] = [
    SuperReason::Length,
    SuperReason::Magic,
    SuperReason::Version,
    SuperReason::Uuid,
    SuperReason::Limits,
    SuperReason::Ancestors,
];

/// Writes what super objects are, and which are refused.
pub fn tell_all(rt: &HostRuntime) -> Result<(), TestError> {
    head(
        rt,
        "The super object of a volume of 64 sectors, writes of at most 8 and batches of 16",
    )?;
    tell_super(rt, FIRST, &[])?;
    head(rt, "That of a clone of checkpoint 3 of a clone of it")?;
    tell_super(rt, THIRD, ANCESTORS)?;
    tell_refused(rt)?;
    tell_counts(rt)?;
    tell_reasons(rt)
}

fn tell_super(rt: &HostRuntime, uuid: u128, ancestors: &[(u128, u64)]) -> Result<(), TestError> {
    let object = object_of(rt.alloc(), uuid, ancestors)?;
    tell_bytes(rt, object.as_bytes(), 96)?;
    tell_read(rt, object.as_bytes(), uuid)
}

fn object_of(
    alloc: Global,
    uuid: u128,
    ancestors: &[(u128, u64)],
) -> Result<ObjectBytes, TestError> {
    let volume = Super {
        uuid: Uuid::from_u128(uuid),
        sectors: 64,
        max_write: 8,
        batch: 16,
        chain: chain_of(alloc, ancestors)?,
    };
    if !volume.may_stand() {
        return Err(TestError::Refused);
    }
    Ok(volume.write(alloc)?)
}

fn chain_of(alloc: Global, ancestors: &[(u128, u64)]) -> Result<Chain, TestError> {
    let mut list = Vec::new(alloc);
    for (uuid, checkpoint) in ancestors {
        let ancestor = Ancestor {
            uuid: Uuid::from_u128(*uuid),
            checkpoint: *checkpoint,
        };
        list.extend_from_slice(&[ancestor])?;
    }
    Chain::from_ancestors(list).ok_or(TestError::Refused)
}

// Writes what is read of bytes.
fn tell_read(rt: &HostRuntime, bytes: &[u8], uuid: u128) -> Result<(), TestError> {
    let read = Super::read(rt.alloc(), bytes, Uuid::from_u128(uuid)).map_err(
        |_| TestError::Refused,
    )?;
    let told = tell_volume(rt, &read);
    drop(read);
    told
}

fn tell_volume(rt: &HostRuntime, volume: &Super) -> Result<(), TestError> {
    tell(rt, "read again", &volume.geometry(128))?;
    for ancestor in volume.chain.ancestors() {
        println!(rt; "  checkpoint {} of {}", ancestor.checkpoint, ancestor.uuid)?;
    }
    Ok(())
}

// The reason for which bytes are no super object of the clone, or none where they are one.
fn reason_of(alloc: Global, bytes: &[u8]) -> Result<Option<SuperReason>, AllocError> {
    match Super::read(alloc, bytes, Uuid::from_u128(THIRD)) {
        Ok(_) => Ok(None),
        Err(SuperReadError::BadSuper { reason }) => Ok(Some(reason)),
        Err(SuperReadError::OutOfMemory) => Err(AllocError),
    }
}

const CASES: &[Case] = &[
    Case {
        what: "as it is",
        changes: &[],
    },
    Case {
        what: "three ancestors counted",
        changes: &[(47, 3)],
    },
    Case {
        what: "2^24 ancestors more counted, and another magic",
        changes: &[(44, 1), (0, b'M')],
    },
    Case {
        what: "another magic and another version",
        changes: &[(7, b'2'), (11, 2)],
    },
    Case {
        what: "another version and another uuid",
        changes: &[(11, 2), (27, 4)],
    },
    Case {
        what: "another uuid and a volume of 7 sectors",
        changes: &[(12, 1), (35, 7)],
    },
    Case {
        what: "a volume of 8 sectors",
        changes: &[(35, 8)],
    },
    Case {
        what: "a volume of 7 sectors and an ancestor twice",
        changes: &[(35, 7), (63, 1)],
    },
    Case {
        what: "a volume of 2^31 sectors",
        changes: &[(32, 0x80), (35, 0)],
    },
    Case {
        what: "a volume of 2^31 + 1 sectors",
        changes: &[(32, 0x80), (35, 1)],
    },
    Case {
        what: "writes of at most 7 sectors",
        changes: &[(39, 7)],
    },
    Case {
        what: "writes of at most 65,536 sectors",
        changes: &[(37, 1), (39, 0)],
    },
    Case {
        what: "writes of at most 65,537 sectors",
        changes: &[(37, 1), (39, 1)],
    },
    Case {
        what: "batches of no sectors",
        changes: &[(43, 0)],
    },
    Case {
        what: "batches of 65,536 sectors",
        changes: &[(41, 1), (43, 0)],
    },
    Case {
        what: "batches of 65,537 sectors",
        changes: &[(41, 1), (43, 1)],
    },
    Case {
        what: "an ancestor twice",
        changes: &[(63, 1)],
    },
    Case {
        what: "the volume as its nearest ancestor",
        changes: &[(63, 3)],
    },
    Case {
        what: "the volume as its furthest ancestor",
        changes: &[(87, 3)],
    },
    Case {
        what: "both ancestors exchanged",
        changes: &[(63, 1), (87, 2)],
    },
];

// How many bytes are read, of which there are 96.
const LENGTHS: [usize; 4] = [0, 47, 72, 95];

fn tell_refused(rt: &HostRuntime) -> Result<(), TestError> {
    head(
        rt,
        "The super object of the clone, changed or cut off, and the reason to refuse it",
    )?;
    let object = object_of(rt.alloc(), THIRD, ANCESTORS)?;
    let told = tell_changed(rt, object.as_bytes());
    drop(object);
    told
}

fn tell_changed(rt: &HostRuntime, object: &[u8]) -> Result<(), TestError> {
    for case in CASES {
        tell_case(rt, case, object)?;
    }
    for length in LENGTHS {
        tell_length(rt, object, length)?;
    }
    Ok(())
}

fn tell_case(rt: &HostRuntime, case: &Case, object: &[u8]) -> Result<(), TestError> {
    let bytes = case.bytes(rt.alloc(), object)?;
    let reason = reason_of(rt.alloc(), bytes.as_slice());
    drop(bytes);
    tell(rt, case.what, &reason?)
}

fn tell_length(rt: &HostRuntime, object: &[u8], length: usize) -> Result<(), TestError> {
    let (bytes, _rest) = object.split_at(length.min(object.len()));
    println!(rt; "  {length} bytes: {:?}", reason_of(rt.alloc(), bytes)?)?;
    Ok(())
}

fn tell_counts(rt: &HostRuntime) -> Result<(), TestError> {
    head(
        rt,
        "The clone, with so many ancestors of other uuids, and the reason to refuse it",
    )?;
    for count in [15, 16] {
        tell_count(rt, count)?;
    }
    Ok(())
}

fn tell_count(rt: &HostRuntime, count: u8) -> Result<(), TestError> {
    let bytes = with_ancestors(rt.alloc(), count)?;
    let reason = reason_of(rt.alloc(), bytes.as_slice());
    drop(bytes);
    println!(rt; "  {count}: {:?}", reason?)?;
    Ok(())
}

// The super object of the clone, with ancestors that have these many numbers as their uuids.
fn with_ancestors(alloc: Global, count: u8) -> Result<Vec<u8>, TestError> {
    let object = object_of(alloc, THIRD, &[])?;
    let copied = object.as_bytes().to_vec(alloc);
    drop(object);
    let mut bytes = copied?;
    add_ancestors(&mut bytes, count)?;
    Ok(bytes)
}

fn add_ancestors(bytes: &mut Vec<u8>, count: u8) -> Result<(), TestError> {
    for number in 0..count {
        let mut ancestor = [0; 24];
        ancestor[15] = number;
        bytes.extend_from_slice(&ancestor)?;
    }
    if bytes.len() < 48 {
        return Err(TestError::Refused);
    }
    bytes[47] = count;
    Ok(())
}

fn tell_reasons(rt: &HostRuntime) -> Result<(), TestError> {
    head(rt, "The reasons to refuse a super object")?;
    for reason in REASONS {
        let error = SuperReadError::BadSuper { reason };
        println!(rt; "  {} {reason:?}: {error}", reason.code())?;
    }
    Ok(())
}
