use lsvd_base::{Body, Entry};
use object_format::{CopyRow, DataRow, Rows, Source};
use object_stream::{Change, change_at, change_in, sector_in};
use std::alloc::{AllocError, Global};
use test_output::{TestError, head};

/// Writes what entries, and rows of objects, do to sectors.
pub fn tell_all(rt: &HostRuntime) -> Result<(), TestError> {
    tell_entries(rt)?;
    tell_rows(rt)
}

/// Sectors that are each filled with one of the bytes.
pub fn body_of(alloc: Global, fills: &[u8]) -> Result<Body, AllocError> {
    let mut bytes = Vec::new(alloc);
    for fill in fills {
        add_sector(alloc, &mut bytes, *fill)?;
    }
    if bytes.len() % 512 != 0 {
        return Err(AllocError);
    }
    Ok(Body::from_bytes(bytes))
}

fn add_sector(alloc: Global, bytes: &mut Vec<u8>, fill: u8) -> Result<(), AllocError> {
    let sector = Body::filled(alloc, 1, fill)?;
    let added = bytes.extend_from_slice(sector.as_bytes());
    drop(sector);
    added
}

fn write(alloc: Global, lba: u64, fills: &[u8]) -> Result<Entry, AllocError> {
    let body = body_of(alloc, fills)?;
    Ok(Entry::Write { lba, body })
}

/// Three sectors from sector 1 on, of which the second is zeroed; then sectors 0 and 1, and sector 5.
pub fn entries(alloc: Global) -> Result<Vec<Entry>, AllocError> {
    let mut entries = Vec::with_capacity(alloc, 4)?;
    add_entries(alloc, &mut entries)?;
    Ok(entries)
}

fn add_entries(alloc: Global, entries: &mut Vec<Entry>) -> Result<(), AllocError> {
    add(entries, write(alloc, 1, &[0x41, 0x42, 0x43])?)?;
    add(entries, Entry::Zero { lba: 2, sectors: 1 })?;
    add(entries, write(alloc, 0, &[0x44, 0x45])?)?;
    add(entries, write(alloc, 5, &[0x46])?)
}

fn add(entries: &mut Vec<Entry>, entry: Entry) -> Result<(), AllocError> {
    entries.push(entry)?;
    Ok(())
}

fn tell_entries(rt: &HostRuntime) -> Result<(), TestError> {
    head(
        rt,
        "Sectors 1 to 3 written with 41, 42, 43, sector 2 zeroed, 0 and 1 written with 44, 45, and 5 with 46",
    )?;
    let entries = entries(rt.alloc())?;
    let told = tell_changes(rt, entries.as_slice());
    drop(entries);
    told
}

fn tell_changes(rt: &HostRuntime, entries: &[Entry]) -> Result<(), TestError> {
    for sector in 0..6 {
        tell_change(rt, sector, change_at(rt.alloc(), entries, sector)?)?;
    }
    Ok(())
}

fn tell_change(rt: &HostRuntime, sector: u64, change: Option<Change>) -> Result<(), TestError> {
    let told = tell_if_changed(rt, sector, &change);
    drop(change);
    told
}

fn tell_if_changed(
    rt: &HostRuntime,
    sector: u64,
    change: &Option<Change>,
) -> Result<(), TestError> {
    match change {
        None => println!(rt; "  {sector}: no change")?,
        Some(Change::Clear) => println!(rt; "  {sector}: zeros")?,
        Some(Change::Put(body)) => tell_body(rt, sector, body)?,
    }
    Ok(())
}

// Writes how many bytes a body has, and the one that all of them are.
fn tell_body(rt: &HostRuntime, sector: u64, body: &Body) -> Result<(), TestError> {
    let bytes = body.as_bytes();
    let byte = *bytes.first().ok_or(TestError::Refused)?;
    if bytes.iter().any(|other| *other != byte) {
        return Err(TestError::Refused);
    }
    println!(rt; "  {sector}: {} bytes {byte:02x}", bytes.len())?;
    Ok(())
}

// Sector 2, sector 3 with zeros, and sectors 4 and 5.
const DATA: &[DataRow] = &[
    DataRow {
        lba: 2,
        sectors: 1,
        place: Some(0),
    },
    DataRow {
        lba: 3,
        sectors: 1,
        place: None,
    },
    DataRow {
        lba: 4,
        sectors: 2,
        place: Some(1),
    },
];

// Sectors 3 and 4.
const COPY: &[CopyRow] = &[CopyRow {
    lba: 3,
    sectors: 2,
    place: 1,
    source: Source {
        level: 0,
        number: 1,
        place: 0,
    },
}];

fn tell_rows(rt: &HostRuntime) -> Result<(), TestError> {
    let body = body_of(rt.alloc(), &[0x41, 0x42, 0x43])?;
    let told = tell_rows_with(rt, &body);
    drop(body);
    told
}

fn tell_rows_with(rt: &HostRuntime, payload: &Body) -> Result<(), TestError> {
    tell_data_rows(rt, payload)?;
    tell_copy_row(rt, payload.as_bytes())
}

fn tell_data_rows(rt: &HostRuntime, payload: &Body) -> Result<(), TestError> {
    head(rt, "The rows of a data object, with the payload 41, 42, 43")?;
    for sector in 1..7 {
        let change = change_in(rt.alloc(), DATA, payload.as_bytes(), sector)?;
        tell_change(rt, sector, change)?;
    }
    Ok(())
}

fn tell_copy_row(rt: &HostRuntime, payload: &[u8]) -> Result<(), TestError> {
    head(
        rt,
        "The row of a copy of two sectors from 3 on, at place 1 of that payload",
    )?;
    let rows = Rows::Copy(COPY.to_vec(rt.alloc())?);
    let told = tell_copied(rt, &rows, payload);
    drop(rows);
    told
}

fn tell_copied(rt: &HostRuntime, rows: &Rows, payload: &[u8]) -> Result<(), TestError> {
    if payload.len() % 512 != 0 {
        return Err(TestError::Refused);
    }
    for sector in 2..6 {
        tell_sector(rt, sector, sector_in(rt.alloc(), rows, payload, sector)?)?;
    }
    Ok(())
}

fn tell_sector(rt: &HostRuntime, sector: u64, found: Option<Body>) -> Result<(), TestError> {
    let Some(body) = found else {
        println!(rt; "  {sector}: none")?;
        return Ok(());
    };
    let told = tell_body(rt, sector, &body);
    drop(body);
    told
}
