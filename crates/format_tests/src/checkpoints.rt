ghost use Rattle.std.specs.Prelude.{◌≡◌};

use crate::case::Case;
use crate::lines::tell_bytes;
use crate::objects::SECOND;
use ckpt_format::{CheckpointWriter, StoredPlace, read_checkpoint};
use extent_map::Extent;
use object_format::{BadObject, Expected};
use std::alloc::{AllocError, Global};
use test_output::{TestError, head};

// Object 4 of the volume, where the object before it ends with two entries.
const FOURTH: Expected = Expected {
    number: 4,
    end_before: Some(2),
    ..SECOND
};

const CASES: &[Case] = &[
    Case {
        what: "the last sector of the volume",
        changes: &[(107, 63)],
    },
    Case {
        what: "the sector past the volume's end",
        changes: &[(107, 64)],
    },
    Case {
        what: "a row of no sectors",
        changes: &[(79, 0)],
    },
    Case {
        what: "a row that the next one overlaps",
        changes: &[(79, 2)],
    },
    Case {
        what: "one object, and places that go on",
        changes: &[(127, 2), (135, 1)],
    },
    Case {
        what: "one object, and places that do not go on",
        changes: &[(127, 2), (135, 2)],
    },
    Case {
        what: "an ancestor's object, and there are no ancestors",
        changes: &[(119, 1)],
    },
    Case {
        what: "its own number",
        changes: &[(127, 4)],
    },
    Case {
        what: "the last sector of a payload",
        changes: &[(133, 1), (134, 0xff), (135, 0xfe)],
    },
    Case {
        what: "the sector past that",
        changes: &[(133, 1), (134, 0xff), (135, 0xff)],
    },
    Case {
        what: "one row, and a byte after it",
        changes: &[(55, 1)],
    },
    Case {
        what: "a byte after the rows",
        changes: &[(136, 1)],
    },
    Case {
        what: "the last byte",
        changes: &[(511, 1)],
    },
    Case {
        what: "another end than the one before",
        changes: &[(43, 1), (51, 1)],
    },
    Case {
        what: "a data object with an entry",
        changes: &[(11, 1), (51, 3)],
    },
];

/// Writes what a checkpoint with rows is, and which are refused.
pub fn tell_all(rt: &HostRuntime) -> Result<(), TestError> {
    let checkpoint = checkpoint(rt.alloc())?;
    let told = tell_both(rt, checkpoint.as_slice());
    drop(checkpoint);
    told
}

// The checkpoint with a sector in object 2 and one in object 3.
fn checkpoint(alloc: Global) -> Result<Vec<u8>, AllocError> {
    let mut writer = CheckpointWriter::new(alloc, &FOURTH, 2, 2)?;
    writer.push(&row(0, 2));
    writer.push(&row(1, 3));
    Ok(writer.finish())
}

// The row of one sector, which the volume's object with this number has at the first sector of its payload.
fn row(lba: u64, number: u64) -> Extent<StoredPlace>
    ensures { result
        ≡ record { lba = lba; sectors = 1; place = record { level = 0; number = number; place = 0 } } }
{
    Extent {
        lba,
        sectors: 1,
        place: StoredPlace {
            level: 0,
            number,
            place: 0,
        },
    }
}

fn tell_both(rt: &HostRuntime, bytes: &[u8]) -> Result<(), TestError> {
    head(
        rt,
        "Checkpoint 4, with the lba 0 in object 2 and the lba 1 in object 3",
    )?;
    let (header, rows) = bytes.split_at(64.min(bytes.len()));
    let (first, rest) = rows.split_at(36.min(rows.len()));
    tell_bytes(rt, header, 64)?;
    tell_bytes(rt, first, 36)?;
    tell_bytes(rt, rest, 36)?;
    tell_rows(rt, bytes)?;
    tell_cases(rt, bytes)
}

// Writes the rows that are read of a checkpoint.
fn tell_rows(rt: &HostRuntime, bytes: &[u8]) -> Result<(), TestError> {
    let Ok(mut rows) = read_checkpoint(bytes, &FOURTH) else {
        return Err(TestError::Refused);
    };
    while let Ok(Some(row)) = rows.next_row() {
        println!(rt; "  {row:?}")?;
    }
    Ok(())
}

fn tell_cases(rt: &HostRuntime, checkpoint: &[u8]) -> Result<(), TestError> {
    head(
        rt,
        "That checkpoint, changed, how many of its rows are given, and then the reason to refuse it",
    )?;
    for case in CASES {
        tell_case(rt, case, checkpoint)?;
    }
    Ok(())
}

fn tell_case(rt: &HostRuntime, case: &Case, checkpoint: &[u8]) -> Result<(), TestError> {
    let bytes = case.bytes(rt.alloc(), checkpoint)?;
    let (given, refused) = read(bytes.as_slice());
    drop(bytes);
    println!(rt; "  {}: {given} rows, {refused:?}", case.what)?;
    Ok(())
}

// How many rows are given of a checkpoint, and the reason to refuse it, if there is one.
fn read(bytes: &[u8]) -> (u32, Option<BadObject>) {
    let mut rows = match read_checkpoint(bytes, &FOURTH) {
        Ok(rows) => rows,
        Err(reason) => return (0, Some(reason)),
    };
    let mut given = 0u32;
    loop {
        match rows.next_row() {
            Ok(Some(_)) => given = given.saturating_add(1),
            Ok(None) => return (given, None),
            Err(reason) => return (given, Some(reason)),
        }
    }
}
