use crate::case::Case;
use crate::lines::tell_bytes;
use std::alloc::{AllocError, Global};
use super_format::Epoch;
use test_output::{TestError, head, tell};
use uuid::Uuid;

fn epoch() -> Epoch {
    Epoch {
        uuid: Uuid::from_u128(0x4000_8000_0000_0000_0003),
        number: 0x0102_0304_0506_0708,
    }
}

const CASES: &[Case] = &[
    Case {
        what: "as it is",
        changes: &[],
    },
    Case {
        what: "the magic of a super object",
        changes: &[(4, b'S'), (5, b'U'), (6, b'P')],
    },
    Case {
        what: "another uuid",
        changes: &[(23, 1)],
    },
    Case {
        what: "a later number",
        changes: &[(31, 9)],
    },
    Case {
        what: "an earlier number",
        changes: &[(24, 0)],
    },
];

/// Writes what an epoch is, and what is none.
pub fn tell_all(rt: &HostRuntime) -> Result<(), TestError> {
    head(
        rt,
        "Epoch 0102030405060708 of the clone, changed, and whether it is read",
    )?;
    let object = epoch().write(rt.alloc())?;
    let told = tell_changed(rt, object.as_bytes());
    drop(object);
    told
}

fn tell_changed(rt: &HostRuntime, object: &[u8]) -> Result<(), TestError> {
    tell_bytes(rt, object, 32)?;
    for case in CASES {
        tell_case(rt, case, object)?;
    }
    tell(rt, "a byte more", &is_longer_read(rt.alloc(), object)?)?;
    tell(rt, "no byte", &is_read(&[]))
}

fn tell_case(rt: &HostRuntime, case: &Case, object: &[u8]) -> Result<(), TestError> {
    let bytes = case.bytes(rt.alloc(), object)?;
    let is_read = is_read(bytes.as_slice());
    drop(bytes);
    tell(rt, case.what, &is_read)
}

// Whether an object is read with a byte more.
fn is_longer_read(alloc: Global, object: &[u8]) -> Result<bool, AllocError> {
    let mut longer = object.to_vec(alloc)?;
    longer.extend_from_slice(&[0])?;
    Ok(is_read(longer.as_slice()))
}

// Whether bytes are read as the epoch.
fn is_read(bytes: &[u8]) -> bool {
    let epoch = epoch();
    Epoch::read(bytes, epoch.uuid, epoch.number) == Ok(epoch)
}
