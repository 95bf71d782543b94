use lsvd_device::{Disk, FileDisk, FileError};
use lsvd_fault::Failed;
use std::fs;
use std::fs::OpenOptions;
use test_output::{TestError, head};

// The file of the tests, in the folder where the program runs.
const PATH: &str = "disk";

// The zeros of a new file are written in pieces of a mebibyte: two whole ones, and a part of one.
const PIECE: u64 = 1 << 20;

const LEN: u64 = 2 * PIECE + 5;

// Places about the edges of these pieces, and at the end.
const PLACES: &[u64] = &[0, 4, 20, PIECE - 2, 2 * PIECE - 1, LEN - 4];

/// Tells what a disk over a file does.
pub fn tell_all(rt: &HostRuntime) -> Result<(), TestError> {
    head(rt, "disks over a file")?;
    let _ = fs::remove_file(rt, PATH);
    tell_outcome(rt, "opened, absent", FileDisk::open(rt, PATH))?;
    tell_outcome(rt, "made, a directory", FileDisk::create(rt, ".", 8))?;
    tell_outcome(rt, "opened, a device", FileDisk::open(rt, "/dev/null"))?;
    fs::write(rt, PATH, b"what stood there before".as_slice())?;
    tell_made(rt)?;
    tell_found(rt)?;
    tell_outcome(rt, "made anew", FileDisk::create(rt, PATH, 8))?;
    tell_size(rt)?;
    fs::remove_file(rt, PATH)?;
    Ok(())
}

fn tell_size(rt: &HostRuntime) -> Result<(), TestError> {
    println!(rt; " the file has {} bytes", fs::metadata(rt, PATH)?.len())?;
    Ok(())
}

// Tells the length of a disk that was made or opened, or why it was not.
fn tell_outcome(
    rt: &HostRuntime,
    what: &str,
    outcome: Result<FileDisk, FileError>,
) -> Result<(), TestError> {
    match outcome {
        Ok(disk) => tell_disk(rt, what, disk),
        Err(error) => tell_error(rt, what, error),
    }
}

fn tell_disk(rt: &HostRuntime, what: &str, disk: FileDisk) -> Result<(), TestError> {
    let size = disk.len();
    drop(disk);
    println!(rt; " {what}: {size} bytes")?;
    Ok(())
}

fn tell_error(rt: &HostRuntime, what: &str, error: FileError) -> Result<(), TestError> {
    println!(rt; " {what}: {error}")?;
    Ok(())
}

// Makes a disk and writes to it; another disk cannot have the file as long as this one lives.
fn tell_made(rt: &HostRuntime) -> Result<(), TestError> {
    let mut disk = FileDisk::create(rt, PATH, LEN)?;
    let told = tell_writes(rt, &mut disk);
    drop(disk);
    told
}

fn tell_writes(rt: &HostRuntime, disk: &mut FileDisk) -> Result<(), TestError> {
    tell_size(rt)?;
    for at in PLACES {
        tell_four(rt, disk, *at)?;
    }
    write_four(disk, PIECE - 2, b"abcd")?;
    write_four(disk, LEN - 4, b"wxyz")?;
    disk.sync()?;
    tell_outcome(rt, "opened, in use", FileDisk::open(rt, PATH))?;
    tell_outcome(rt, "made, in use", FileDisk::create(rt, PATH, 1))
}

// Opens it again, and has someone else cut the file: a read past its end fails.
fn tell_found(rt: &HostRuntime) -> Result<(), TestError> {
    let mut disk = FileDisk::open(rt, PATH)?;
    let told = tell_reads(rt, &mut disk);
    drop(disk);
    told
}

fn tell_reads(rt: &HostRuntime, disk: &mut FileDisk) -> Result<(), TestError> {
    println!(rt; " opened: {} bytes", disk.len())?;
    tell_four(rt, disk, PIECE - 1)?;
    tell_four(rt, disk, LEN - 4)?;
    tell_faults(rt, disk)?;
    cut(rt)?;
    tell_four(rt, disk, PIECE - 2)?;
    tell_four(rt, disk, PIECE - 4)?;
    tell_faults(rt, disk)
}

fn cut(rt: &HostRuntime) -> Result<(), TestError> {
    let file = OpenOptions::new().write(true).open(rt, PATH)?;
    file.set_len(PIECE)?;
    Ok(())
}

// Tells the four bytes from a place on.
fn tell_four(rt: &HostRuntime, disk: &mut FileDisk, at: u64) -> Result<(), TestError> {
    let size = disk.len();
    if size < 4 || size - 4 < at {
        return Err(TestError::Refused);
    }
    let mut part = [0xff; 4];
    match disk.read(at, &mut part) {
        Ok(()) => println!(rt; " at {at}: {part:?}")?,
        Err(Failed) => println!(rt; " at {at}: failed")?,
    }
    Ok(())
}

fn write_four(disk: &mut FileDisk, at: u64, piece: &[u8; 4]) -> Result<(), TestError> {
    let size = disk.len();
    if size < 4 || size - 4 < at {
        return Err(TestError::Refused);
    }
    disk.write(at, piece)?;
    Ok(())
}

fn tell_faults(rt: &HostRuntime, disk: &FileDisk) -> Result<(), TestError> {
    match disk.last_error() {
        Some(error) => println!(rt; " faults {}: {error}", disk.faults())?,
        None => println!(rt; " faults {}", disk.faults())?,
    }
    Ok(())
}
