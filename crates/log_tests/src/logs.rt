use crate::telling::tell_hex;
use cache_log::CacheLog;
use commit_slot::LOG_START;
use lsvd_base::{Body, Entry, SECTOR_BYTES};
use lsvd_device::{Disk, MemDisk};
use test_output::{TestError, head};

// The sectors of the log: as few as a volume may have.
const LOG: u64 = 18;

const UUID: [u8; 16] = [0, 0, 0, 0, 0, 0, 0x40, 0, 0x80, 0, 0, 0, 0, 0, 0, 1];

// The bytes of a slot's body and of a record's header before the zeros.
const BODY: usize = 72;

const HEADER: usize = 36;

// The sectors of the log whose first bytes are told: those of a record at its beginning, of the data of it,
// and of the pad before it, at its end.
const SECTORS: &[u64] = &[0, 1, 10];

/// Tells the bytes of a device whose log went round its end, after three commits.
pub fn tell_all(rt: &HostRuntime) -> Result<(), TestError> {
    head(
        rt,
        "the slots, each with its gate, and sectors of a log that went round its end",
    )?;
    let mut disk = gone_round(rt)?;
    let told = tell_disk(rt, &mut disk);
    drop(disk);
    told
}

fn gone_round(rt: &HostRuntime) -> Result<MemDisk, TestError> {
    let mut log = formatted(rt)?;
    go_round(rt, &mut log)?;
    Ok(log.into_disk())
}

fn tell_disk(rt: &HostRuntime, disk: &mut MemDisk) -> Result<(), TestError> {
    for slot in 0..3 {
        tell_bytes(rt, disk, 1_024 * slot, BODY)?;
        tell_bytes(rt, disk, 1_024 * slot + 512, 1)?;
    }
    for sector in SECTORS {
        tell_bytes(rt, disk, byte_of(*sector), HEADER)?;
    }
    Ok(())
}

// A log without entries, whose first entry will have the seq 5.
fn formatted(rt: &HostRuntime) -> Result<CacheLog<MemDisk>, TestError> {
    let alloc = rt.alloc();
    let disk = MemDisk::new(alloc, LOG_START + SECTOR_BYTES * LOG)?;
    if disk.len() != LOG_START + SECTOR_BYTES * LOG {
        return Err(TestError::Refused);
    }
    CacheLog::format(alloc, disk, UUID, 0, 5).map_err(|_| TestError::Failed)
}

// Appends a zeroing and a write, commits and drops them, and then a write that needs a pad.
fn go_round(rt: &HostRuntime, log: &mut CacheLog<MemDisk>) -> Result<(), TestError> {
    append(log, Entry::Zero { lba: 5, sectors: 3 })?;
    append(log, write(rt, 0x41)?)?;
    commit(log)?;
    log.trim_to(7);
    commit(log)?;
    append(log, write(rt, 0x42)?)?;
    commit(log)
}

// A write of eight sectors of this byte.
fn write(rt: &HostRuntime, byte: u8) -> Result<Entry, TestError> {
    let body = Body::filled(rt.alloc(), 8, byte)?;
    Ok(Entry::Write { lba: 7, body })
}

fn append(log: &mut CacheLog<MemDisk>, entry: Entry) -> Result<(), TestError> {
    let appended = append_to(log, &entry);
    drop(entry);
    appended
}

fn append_to(log: &mut CacheLog<MemDisk>, entry: &Entry) -> Result<(), TestError> {
    log.reserve(entry)?;
    if log.next_seq() == u64::MAX {
        return Err(TestError::Refused);
    }
    match log.append(entry) {
        Ok(_) => Ok(()),
        Err(_) => Err(TestError::Failed),
    }
}

fn commit(log: &mut CacheLog<MemDisk>) -> Result<(), TestError> {
    if log.number() > 100 {
        return Err(TestError::Refused);
    }
    Ok(log.commit()?)
}

// The byte of the device at which a sector of the log begins.
fn byte_of(sector: u64) -> u64 {
    LOG_START.wrapping_add(SECTOR_BYTES.wrapping_mul(sector))
}

// Tells as many bytes of a disk from a place on.
fn tell_bytes(
    rt: &HostRuntime,
    disk: &mut MemDisk,
    at: u64,
    count: usize,
) -> Result<(), TestError> {
    let (size, most) = (disk.len(), BODY as u64);
    if BODY < count || size < most || size - most < at {
        return Err(TestError::Refused);
    }
    let mut bytes = [0xff; BODY];
    disk.read(at, &mut bytes)?;
    print!(rt; " {at}: ")?;
    tell_hex(rt, &bytes[..count])?;
    println!(rt)?;
    Ok(())
}
