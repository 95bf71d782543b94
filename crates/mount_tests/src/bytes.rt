// Bytes of the formats.
use std::alloc::AllocError;

/// The uuid of the volume, 00000000-0000-4000-8000-000000000001.
pub const UUID: [u8; 16] = [0, 0, 0, 0, 0, 0, 0x40, 0, 0x80, 0, 0, 0, 0, 0, 0, 1];

/// That of another one, 00000000-0000-4000-8000-000000000003.
pub const OTHER: [u8; 16] = [0, 0, 0, 0, 0, 0, 0x40, 0, 0x80, 0, 0, 0, 0, 0, 0, 3];

/// That of the ancestor of a clone, 00000000-0000-4000-8000-000000000002.
pub const BASE: [u8; 16] = [0, 0, 0, 0, 0, 0, 0x40, 0, 0x80, 0, 0, 0, 0, 0, 0, 2];

/// The volume's super object: 64 sectors, at most 8 in a write and 16 in a batch.
pub const SUPER: &[u8] = &[
    0x4c, 0x53, 0x56, 0x44, 0x53, 0x55, 0x50, 0x31, 0, 0, 0, 1, 0, 0, 0, 0, 0, 0, 0x40, 0, 0x80, 0,
    0, 0, 0, 0, 0, 1, 0, 0, 0, 0, 0, 0, 0, 0x40, 0, 0, 0, 8, 0, 0, 0, 0x10, 0, 0, 0, 0,
];

/// That of the same volume as a clone of checkpoint 3 of the volume ..02.
pub const CLONE: &[u8] = &[
    0x4c, 0x53, 0x56, 0x44, 0x53, 0x55, 0x50, 0x31, 0, 0, 0, 1, 0, 0, 0, 0, 0, 0, 0x40, 0, 0x80, 0,
    0, 0, 0, 0, 0, 1, 0, 0, 0, 0, 0, 0, 0, 0x40, 0, 0, 0, 8, 0, 0, 0, 0x10, 0, 0, 0, 1, 0, 0, 0, 0,
    0, 0, 0x40, 0, 0x80, 0, 0, 0, 0, 0, 0, 2, 0, 0, 0, 0, 0, 0, 0, 3,
];

/// What rows an object has.
#[derive(Clone, Copy)]
pub enum Content {
    /// None.
    Nothing,
    /// The one row of a data object, which zeroes a sector.
    Zeros,
    /// The one row of a checkpoint, which maps a sector to the first place of the object of this number.
    Maps(u64),
}

/// A numbered object as its header says it is.
#[derive(Clone, Copy)]
pub struct Object {
    pub kind: u32,
    pub uuid: [u8; 16],
    pub number: u64,
    pub first: u64,
    pub end: u64,
    pub content: Content,
}

/// Adds the bytes of a numbered object.
pub fn add_object(bytes: &mut Vec<u8>, object: &Object) -> Result<(), AllocError> {
    add_head(bytes, object)?;
    let has_row = !matches!(object.content, Content::Nothing);
    bytes.extend_from_slice(&u32::from(has_row).to_be_bytes())?;
    bytes.extend_from_slice(&[0; 8])?;
    match object.content {
        Content::Nothing => {}
        Content::Zeros => add_zeros(bytes)?,
        Content::Maps(number) => add_place(bytes, number)?,
    }
    bytes.resize(512, 0)
}

// The header up to the count of rows.
fn add_head(bytes: &mut Vec<u8>, object: &Object) -> Result<(), AllocError> {
    bytes.extend_from_slice(b"LSVDOBJ1")?;
    bytes.extend_from_slice(&object.kind.to_be_bytes())?;
    bytes.extend_from_slice(&object.uuid)?;
    for field in [object.number, object.first, object.end] {
        bytes.extend_from_slice(&field.to_be_bytes())?;
    }
    Ok(())
}

// A row that zeroes the sector 5.
fn add_zeros(bytes: &mut Vec<u8>) -> Result<(), AllocError> {
    for field in [5, 1, u64::MAX] {
        bytes.extend_from_slice(&field.to_be_bytes())?;
    }
    Ok(())
}

// A row that maps the sector 5 to the first place of the volume's own object of this number.
fn add_place(bytes: &mut Vec<u8>, number: u64) -> Result<(), AllocError> {
    for field in [5u64, 1] {
        bytes.extend_from_slice(&field.to_be_bytes())?;
    }
    bytes.extend_from_slice(&[0; 4])?;
    for field in [number, 0] {
        bytes.extend_from_slice(&field.to_be_bytes())?;
    }
    Ok(())
}

/// Adds the bytes of an epoch of the volume.
pub fn add_epoch(bytes: &mut Vec<u8>, number: u64) -> Result<(), AllocError> {
    bytes.extend_from_slice(b"LSVDEPO1")?;
    bytes.extend_from_slice(&UUID)?;
    bytes.extend_from_slice(&number.to_be_bytes())
}

/// Adds the bytes of a hold on a checkpoint of the volume.
pub fn add_hold(bytes: &mut Vec<u8>, number: u64) -> Result<(), AllocError> {
    bytes.extend_from_slice(b"LSVDHLD1")?;
    bytes.extend_from_slice(&UUID)?;
    bytes.extend_from_slice(&number.to_be_bytes())
}

/// Adds the bytes of a body of a commit, with the numbers from the epoch on, and its gate, which is open.
pub fn add_commit(bytes: &mut Vec<u8>, uuid: &[u8; 16], numbers: &[u64]) -> Result<(), AllocError> {
    bytes.extend_from_slice(b"LSVDCMT1")?;
    bytes.extend_from_slice(uuid)?;
    for number in numbers {
        bytes.extend_from_slice(&number.to_be_bytes())?;
    }
    bytes.resize(512, 0)?;
    bytes.push(1)?;
    Ok(())
}

/// Adds the bytes of a record of a write of one sector at the lba 7.
pub fn add_record(bytes: &mut Vec<u8>, kind: u32, seq: u64) -> Result<(), AllocError> {
    bytes.extend_from_slice(b"LSVDREC1")?;
    bytes.extend_from_slice(&kind.to_be_bytes())?;
    for number in [seq, 7, 1] {
        bytes.extend_from_slice(&number.to_be_bytes())?;
    }
    bytes.resize(512, 0)?;
    bytes.resize(1_024, 0x41)
}
