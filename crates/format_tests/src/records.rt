use crate::case::Case;
use crate::lines::tell_bytes;
use log_record::{BadRecord, Head, Place, Reason, decode, encode_into, encode_pad};
use log_room::record_sectors;
use lsvd_base::{Body, Entry, Geometry, SECTOR_BYTES};
use std::alloc::{AllocError, Global};
use test_output::{TestError, head, tell};

const GEOMETRY: Geometry = Geometry {
    sectors: 64,
    max_write: 8,
    batch: 16,
    log: 64,
};

// The log's first sector, where the log is full.
const FIRST: Place = Place {
    position: 0,
    to_head: 64,
    is_last: false,
};

// A seq with another byte at each place.
const SEQ: u64 = 0x0102_0304_0506_0708;

const REASONS: [Reason; 6] = [
    Reason::Magic,
    Reason::Kind,
    Reason::Seq,
    Reason::Range,
    Reason::Zeros,
    Reason::Place,
];

/// Writes what records of the log are, and which are refused.
pub fn tell_all(rt: &HostRuntime) -> Result<(), TestError> {
    tell_records(rt)?;
    tell_write_at(rt)?;
    tell_pad_at(rt)?;
    tell_refused(rt)?;
    tell_reasons(rt)
}

fn tell_records(rt: &HostRuntime) -> Result<(), TestError> {
    head(
        rt,
        "The record of a write of one sector at the lba 0 with the seq 0",
    )?;
    tell_record(rt, write_record(rt.alloc())?)?;
    head(
        rt,
        "The record of a zeroing at 1112131415161718 of 2122232425262728 sectors",
    )?;
    tell_record(rt, record(rt.alloc(), &A_ZEROING, SEQ)?)?;
    head(rt, "A pad with three sectors after its header")?;
    tell_bytes(rt, &pad(), 36)
}

// Writes a record: its header, and its data, if there are any.
fn tell_record(rt: &HostRuntime, record: Vec<u8>) -> Result<(), TestError> {
    let (header, data) = record.as_slice().split_at(512.min(record.len()));
    let told = tell_parts(rt, header, data);
    drop(record);
    told
}

fn tell_parts(rt: &HostRuntime, header: &[u8], data: &[u8]) -> Result<(), TestError> {
    tell_bytes(rt, header, 36)?;
    tell_bytes(rt, data, 0)
}

// The record of a write of one sector, with the seq 0.
fn write_record(alloc: Global) -> Result<Vec<u8>, AllocError> {
    let write = one_write(alloc)?;
    let bytes = record(alloc, &write, 0);
    drop(write);
    bytes
}

const A_ZEROING: Entry = Entry::Zero {
    lba: 0x1112_1314_1516_1718,
    sectors: 0x2122_2324_2526_2728,
};

fn one_write(alloc: Global) -> Result<Entry, AllocError> {
    let body = Body::filled(alloc, 1, 0x41)?;
    Ok(Entry::Write { lba: 0, body })
}

fn record(alloc: Global, entry: &Entry, seq: u64) -> Result<Vec<u8>, AllocError> {
    let Some(count) = record_sectors(entry).checked_mul(SECTOR_BYTES) else {
        return Err(AllocError);
    };
    let mut bytes = vec![in alloc; 0xff; count as usize]?;
    encode_into(entry, seq, bytes.as_mut_slice());
    Ok(bytes)
}

// A pad that is to stand four sectors before the log's end.
fn pad() -> [u8; 512] {
    let mut sector = [0xff; 512];
    encode_pad(3, SEQ, &mut sector);
    sector
}

// Reads a sector as the header of a place.
fn read(sector: &[u8], seq: u64, place: &Place) -> Result<Head, Reason> {
    if sector.len() != 512 || GEOMETRY.log <= place.position {
        return Err(Reason::Place);
    }
    decode(sector, seq, &GEOMETRY, place).map_err(|bad| bad.reason)
}

// Places: what each is, its sector, the sectors up to the head, and whether the last record is there.
const WRITE_AT: &[(&str, u64, u64, bool)] = &[
    ("the first sector of a full log", 0, 64, false),
    (
        "two sectors before the log's end and the head",
        62,
        2,
        false,
    ),
    ("the last record, up to the head", 62, 2, true),
    ("one sector before the log's end", 63, 2, false),
    ("one sector before the head", 0, 1, false),
    ("the last record, a sector before the head", 0, 3, true),
];

fn tell_write_at(rt: &HostRuntime) -> Result<(), TestError> {
    head(rt, "That write, at a place")?;
    let write = write_record(rt.alloc())?;
    let (header, _data) = write.as_slice().split_at(512.min(write.len()));
    let told = tell_places(rt, header, 0, WRITE_AT);
    drop(write);
    told
}

const PAD_AT: &[(&str, u64, u64, bool)] = &[
    (
        "four sectors before the log's end and the head",
        60,
        4,
        false,
    ),
    ("the last record, past the pad", 60, 9, true),
    (
        "four sectors before the log's end, three before the head",
        60,
        3,
        false,
    ),
    ("five sectors before the log's end", 59, 64, false),
    ("three sectors before the log's end", 61, 64, false),
];

fn tell_pad_at(rt: &HostRuntime) -> Result<(), TestError> {
    head(rt, "That pad, at a place")?;
    tell_places(rt, &pad(), SEQ, PAD_AT)
}

fn tell_places(
    rt: &HostRuntime,
    header: &[u8],
    seq: u64,
    places: &[(&str, u64, u64, bool)],
) -> Result<(), TestError> {
    for (what, position, to_head, is_last) in places {
        let place = Place {
            position: *position,
            to_head: *to_head,
            is_last: *is_last,
        };
        tell(rt, what, &read(header, seq, &place))?;
    }
    Ok(())
}

// Of a zeroing of 7 sectors at the lba 5 with the seq 9.
const CASES: &[Case] = &[
    Case {
        what: "as it is",
        changes: &[],
    },
    Case {
        what: "another magic",
        changes: &[(7, b'2')],
    },
    Case {
        what: "the kind 0",
        changes: &[(11, 0)],
    },
    Case {
        what: "the kind 4",
        changes: &[(11, 4)],
    },
    Case {
        what: "the seq 8",
        changes: &[(19, 8)],
    },
    Case {
        what: "the lba 57, whose sectors end at the volume's end",
        changes: &[(27, 57)],
    },
    Case {
        what: "the lba 58",
        changes: &[(27, 58)],
    },
    Case {
        what: "no sectors",
        changes: &[(35, 0)],
    },
    Case {
        what: "a byte behind the header",
        changes: &[(36, 1)],
    },
    Case {
        what: "a byte at the sector's end",
        changes: &[(511, 1)],
    },
    Case {
        what: "a write of 8 sectors",
        changes: &[(11, 1), (35, 8)],
    },
    Case {
        what: "a write of 9 sectors",
        changes: &[(11, 1), (35, 9)],
    },
    Case {
        what: "a pad with a lba",
        changes: &[(11, 3), (35, 53)],
    },
    Case {
        what: "another magic and the kind 4",
        changes: &[(7, b'2'), (11, 4)],
    },
    Case {
        what: "the kind 0 and the seq 8",
        changes: &[(11, 0), (19, 8)],
    },
    Case {
        what: "the seq 8 and no sectors",
        changes: &[(19, 8), (35, 0)],
    },
    Case {
        what: "the lba 58 and a byte at the sector's end",
        changes: &[(27, 58), (511, 1)],
    },
];

fn tell_refused(rt: &HostRuntime) -> Result<(), TestError> {
    head(
        rt,
        "The header of a zeroing of 7 sectors at the lba 5 with the seq 9, at sector 10 of the log",
    )?;
    let zeroing = record(rt.alloc(), &Entry::Zero { lba: 5, sectors: 7 }, 9)?;
    let told = tell_cases(rt, zeroing.as_slice());
    drop(zeroing);
    told
}

fn tell_cases(rt: &HostRuntime, zeroing: &[u8]) -> Result<(), TestError> {
    for case in CASES {
        tell_case(rt, case, zeroing)?;
    }
    Ok(())
}

fn tell_case(rt: &HostRuntime, case: &Case, zeroing: &[u8]) -> Result<(), TestError> {
    let place = Place {
        position: 10,
        ..FIRST
    };
    let sector = case.bytes(rt.alloc(), zeroing)?;
    let found = read(sector.as_slice(), 9, &place);
    drop(sector);
    tell(rt, case.what, &found)
}

fn tell_reasons(rt: &HostRuntime) -> Result<(), TestError> {
    head(rt, "The reasons to refuse a header")?;
    for reason in REASONS {
        println!(rt; "  {} {reason:?}: {}", reason.code(), BadRecord { reason })?;
    }
    Ok(())
}
