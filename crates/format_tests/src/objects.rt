ghost use Rattle.std.specs.Prelude.{◌≡◌, ◌*◌, ◌<◌, ◌^◌, length};
ghost use Rattle.object_format.specs.Rows.{count_of};
ghost use Rattle.object_format.specs.Writing.{payload_of};

use crate::lines::tell_bytes;
use lsvd_base::ObjectBytes;
use object_format::{
    BadObject, CopyRow, DataRow, Expected, Kind, ObjectWriter, Rows, RowsReadError, Source,
    read_header, read_rows,
};
use std::alloc::Global;
use test_output::{TestError, head, tell};

/// Object 2 of a volume of 64 sectors, whose object 1 ends with the seq 0.
pub const SECOND: Expected = Expected {
    uuid: [0, 0, 0, 0, 0, 0, 0x40, 0, 0x80, 0, 0, 0, 0, 0, 0, 1],
    number: 2,
    sectors: 64,
    ancestors: 0,
    end_before: Some(0),
};

// The first object of the volume.
const FIRST: Expected = Expected {
    number: 1,
    end_before: None,
    ..SECOND
};

/// Writes what numbered objects are.
pub fn tell_all(rt: &HostRuntime) -> Result<(), TestError> {
    head(
        rt,
        "The first object of a new volume, a checkpoint without rows",
    )?;
    tell_object(rt, first_object(rt.alloc())?, &FIRST)?;
    head(
        rt,
        "Data object 2, of a first write of one sector of the byte 41 at the lba 0",
    )?;
    tell_object(rt, data_object(rt.alloc())?, &SECOND)?;
    head(
        rt,
        "Copy 2, of the sector 10 from the sector 258 of the payload of object 1",
    )?;
    tell_object(rt, copy_object(rt.alloc())?, &SECOND)
}

// A checkpoint without rows.
fn first_object(alloc: Global) -> Result<ObjectBytes, TestError> {
    object_of(alloc, &FIRST, 0, &Rows::Checkpoint, &[])
}

/// The data object of one sector.
pub fn data_object(alloc: Global) -> Result<ObjectBytes, TestError> {
    let row = DataRow {
        lba: 0,
        sectors: 1,
        place: Some(0),
    };
    let rows = Rows::Data([row].to_vec(alloc)?);
    object_of(alloc, &SECOND, 1, &rows, &[0x41; 512])
}

// A copy of one sector.
fn copy_object(alloc: Global) -> Result<ObjectBytes, TestError> {
    let row = CopyRow {
        lba: 0x0a,
        sectors: 1,
        place: 0,
        source: Source {
            level: 0,
            number: 1,
            place: 0x0102,
        },
    };
    let rows = Rows::Copy([row].to_vec(alloc)?);
    object_of(alloc, &SECOND, 0, &rows, &[0x42; 512])
}

// The object with these rows and this payload, which begins with the seq 0.
fn object_of(
    alloc: Global,
    expected: &Expected,
    end_seq: u64,
    rows: &Rows,
    payload: &[u8],
) -> Result<ObjectBytes, TestError>
    requires few { count_of rows.now < 2 ^ 32 }
    requires sectors { payload_of rows.now < 2 ^ 64 }
    requires payload { length payload.now ≡ 512 * payload_of rows.now }
{
    let header = rows.header(expected, 0, end_seq);
    if !expected.may_be_written(&header, rows) {
        return Err(TestError::Refused);
    }
    let mut writer = ObjectWriter::new(alloc, expected, 0, end_seq, rows)?;
    writer.append(payload);
    Ok(writer.finish()?)
}

// Writes an object: its header, its rows and what comes after them, and what is read of it.
fn tell_object(
    rt: &HostRuntime,
    object: ObjectBytes,
    expected: &Expected,
) -> Result<(), TestError> {
    let told = tell_bytes_of(rt, object.as_bytes(), expected);
    drop(object);
    told
}

fn tell_bytes_of(rt: &HostRuntime, bytes: &[u8], expected: &Expected) -> Result<(), TestError> {
    let (front, payload) = bytes.split_at(512.min(bytes.len()));
    let (header, rows) = front.split_at(64.min(front.len()));
    tell_bytes(rt, header, 64)?;
    tell_bytes(rt, rows, 44)?;
    tell_bytes(rt, payload, 0)?;
    tell(rt, "its rows", &read(rt.alloc(), bytes, expected)?)
}

/// The rows that are read of an object.
pub fn read(
    alloc: Global,
    bytes: &[u8],
    expected: &Expected,
) -> Result<Result<Rows, BadObject>, TestError> {
    let size = bytes.len() as u64;
    let header = match read_header(bytes, size, expected) {
        Ok(header) => header,
        Err(reason) => return Ok(Err(reason)),
    };
    if header.rows > 0 && matches!(header.kind, Kind::Checkpoint) {
        return Err(TestError::Refused);
    }
    match read_rows(alloc, bytes, size, expected, &header) {
        Ok(rows) => Ok(Ok(rows)),
        Err(RowsReadError::Bad(reason)) => Ok(Err(reason)),
        Err(RowsReadError::OutOfMemory) => Err(TestError::Memory),
    }
}
