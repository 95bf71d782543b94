use crate::case::Case;
use crate::objects::{SECOND, data_object, read};
use object_format::{BadObject, RowsReadError, read_header};
use test_output::{TestError, head, tell};

const REASONS: [BadObject; 8] = [
    BadObject::Length,
    BadObject::Magic,
    BadObject::Kind,
    BadObject::Uuid,
    BadObject::Number,
    BadObject::Seqs,
    BadObject::Counts,
    BadObject::Rows,
];

const CASES: &[Case] = &[
    Case {
        what: "other payload",
        changes: &[(512, 0), (1023, 0)],
    },
    Case {
        what: "19 rows, which take a sector more",
        changes: &[(55, 19)],
    },
    Case {
        what: "two sectors of payload, another magic and a copy",
        changes: &[(63, 2), (7, b'2'), (11, 2)],
    },
    Case {
        what: "2^63 sectors of payload more",
        changes: &[(56, 0x80)],
    },
    Case {
        what: "another magic and the kind 0",
        changes: &[(7, b'2'), (11, 0)],
    },
    Case {
        what: "the kind 4, with which the length is not told, and another uuid",
        changes: &[(11, 4), (63, 9), (27, 2)],
    },
    Case {
        what: "another uuid and another number",
        changes: &[(27, 2), (35, 1)],
    },
    Case {
        what: "another number and no entries",
        changes: &[(35, 1), (51, 0)],
    },
    Case {
        what: "no entries and a byte after the row",
        changes: &[(51, 0), (88, 1)],
    },
    Case {
        what: "a first seq past the end before",
        changes: &[(43, 1), (51, 2)],
    },
    Case {
        what: "a byte after the row",
        changes: &[(88, 1)],
    },
    Case {
        what: "a byte before the payload",
        changes: &[(511, 1)],
    },
    Case {
        what: "the last sector of the volume",
        changes: &[(71, 63)],
    },
    Case {
        what: "the sector past the volume's end",
        changes: &[(71, 64)],
    },
    Case {
        what: "a row of no sectors",
        changes: &[(79, 0)],
    },
    Case {
        what: "a row of two sectors",
        changes: &[(79, 2)],
    },
    Case {
        what: "a row whose place is 1",
        changes: &[(87, 1)],
    },
    Case {
        what: "no rows, but the payload of one",
        changes: &[(55, 0)],
    },
    Case {
        what: "a copy with an entry",
        changes: &[(11, 2)],
    },
    Case {
        what: "a copy from its own number",
        changes: &[(11, 2), (51, 0), (99, 2)],
    },
    Case {
        what: "a copy from object 0",
        changes: &[(11, 2), (51, 0)],
    },
    Case {
        what: "a checkpoint with payload",
        changes: &[(11, 3), (55, 0), (51, 0)],
    },
];

// The first bytes of the object, with another kind.
const LENGTHS: &[(u8, usize)] = &[
    (4, 0),
    (4, 63),
    (4, 64),
    (4, 100),
    (0, 1024),
    (1, 100),
    (1, 1023),
    (3, 512),
];

// Rows, sectors of payload, and the sectors of a data object with so many.
const COUNTS: &[(u32, u32, u64)] = &[
    (65_536, 1, 3_074),
    (65_537, 1, 3_074),
    (1, 131_071, 131_072),
    (1, 131_072, 131_073),
];

/// Writes which objects are refused, and for which reason.
pub fn tell_all(rt: &HostRuntime) -> Result<(), TestError> {
    tell_changed(rt)?;
    tell_lengths(rt)?;
    tell_counts(rt)?;
    tell_reasons(rt)
}

fn tell_changed(rt: &HostRuntime) -> Result<(), TestError> {
    head(rt, "That data object, changed, and the reason to refuse it")?;
    let object = data_object(rt.alloc())?;
    let told = tell_cases(rt, object.as_bytes());
    drop(object);
    told
}

fn tell_cases(rt: &HostRuntime, object: &[u8]) -> Result<(), TestError> {
    for case in CASES {
        tell_case(rt, case, object)?;
    }
    Ok(())
}

fn tell_case(rt: &HostRuntime, case: &Case, object: &[u8]) -> Result<(), TestError> {
    let bytes = case.bytes(rt.alloc(), object)?;
    let outcome = read(rt.alloc(), bytes.as_slice(), &SECOND);
    drop(bytes);
    tell(rt, case.what, &outcome?.err())
}

fn tell_lengths(rt: &HostRuntime) -> Result<(), TestError> {
    head(
        rt,
        "Its header, with another kind and another length, and the reason to refuse it",
    )?;
    let object = data_object(rt.alloc())?;
    let told = tell_each_length(rt, object.as_bytes());
    drop(object);
    told
}

fn tell_each_length(rt: &HostRuntime, object: &[u8]) -> Result<(), TestError> {
    for (kind, length) in LENGTHS {
        tell_length(rt, object, *kind, *length)?;
    }
    Ok(())
}

fn tell_length(rt: &HostRuntime, object: &[u8], kind: u8, length: usize) -> Result<(), TestError> {
    let mut bytes = object.to_vec(rt.alloc())?;
    bytes.truncate(length);
    if 11 < bytes.len() {
        bytes[11] = kind;
    }
    let refused = read_header(bytes.as_slice(), bytes.len() as u64, &SECOND).err();
    drop(bytes);
    println!(rt; "  kind {kind}, {length} bytes: {refused:?}")?;
    Ok(())
}

fn tell_counts(rt: &HostRuntime) -> Result<(), TestError> {
    head(
        rt,
        "Its header, with other counts and the length that they make, and the reason to refuse it",
    )?;
    let object = data_object(rt.alloc())?;
    let told = tell_each_count(rt, object.as_bytes());
    drop(object);
    told
}

fn tell_each_count(rt: &HostRuntime, object: &[u8]) -> Result<(), TestError> {
    for (rows, payload, sectors) in COUNTS {
        tell_count(rt, object, *rows, *payload, *sectors)?;
    }
    Ok(())
}

fn tell_count(
    rt: &HostRuntime,
    object: &[u8],
    rows: u32,
    payload: u32,
    sectors: u64,
) -> Result<(), TestError> {
    let mut bytes = object.to_vec(rt.alloc())?;
    if bytes.len() < 64 {
        return Err(TestError::Refused);
    }
    bytes[52..56].copy_from_slice(&rows.to_be_bytes());
    bytes[60..64].copy_from_slice(&payload.to_be_bytes());
    let size = sectors.saturating_mul(512);
    let refused = read_header(bytes.as_slice(), size, &SECOND).err();
    drop(bytes);
    println!(rt; "  {rows} rows, {payload} sectors of payload: {refused:?}")?;
    Ok(())
}

fn tell_reasons(rt: &HostRuntime) -> Result<(), TestError> {
    head(rt, "The reasons to refuse an object")?;
    for reason in REASONS {
        println!(rt;
            "  {} {reason:?}: {}",
            reason.code(),
            RowsReadError::Bad(reason)
        )?;
    }
    Ok(())
}
