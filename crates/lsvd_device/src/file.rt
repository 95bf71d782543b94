ghost use Rattle.std.specs.Prelude.{◌≡◌, ◌<◌, ◌↔◌, ◌⊎◌, true, false, min, length, replicate, IfOk, IfSome};
ghost use Rattle.std.specs.Prelude.{OnOk, OnErr, IsErr, IsSome, is_err, is_ok, is_some};
ghost use Rattle.lsvd_fault.specs.Faults.{Counts};
ghost use Rattle.lsvd_device.specs.Medium.{after_sync};
ghost use Rattle.lsvd_device.specs.RawFile.{RawState, Alters, moved_on, doubted_raw};
ghost use Rattle.lsvd_device.specs.File.{silent_over, IsJustOpened, HasZeros, IsKeptForGood};
ghost use Rattle.lsvd_device.specs.Held.{HasLooseZeros, IsHeld, IsDiskOf};

use crate::disk::Disk;
use crate::locked_file::LockedFile;
use crate::raw_file::RawFile;
use lsvd_fault::Failed;
use std::alloc::{AllocError, Global};
use std::io;
use std::io::ErrorKind;
use std::marker::Model;
use thiserror::Error;

/// Why a file could not be made or opened as a disk. None of these is counted anywhere, since there is no
/// disk.
#[derive(Clone, Copy, Debug, Error)]
pub enum FileError {
    /// Another disk has the file, of this program or of another. Nothing of it was read or changed.
    #[error("in use by another program")]
    InUse,
    /// The operating system refused a call, or the path leads to no regular file.
    #[error("{0}")]
    System(io::Error),
    /// Memory ran out.
    #[error("out of memory")]
    OutOfMemory,
}

impl From<AllocError> for FileError {
    fn from(_: AllocError) -> FileError {
        FileError::OutOfMemory
    }
}

impl From<io::Error> for FileError {
    // An error that has no number of the system's is one of this program's own.
    fn from(error: io::Error) -> FileError {
        if error.kind() == ErrorKind::OutOfMemory && error.raw_os_error().is_none() {
            return FileError::OutOfMemory;
        }
        FileError::System(error)
    }
}

/// A disk over a file. It tells its length and its count of faults, and what it holds where its file tells
/// that; one of the operating system does not.
///
/// After a sync that failed each later one fails too: the system may have given up what it could not write,
/// and says so only once.
#[derive(Drop)]
pub struct FileDisk<F: RawFile = LockedFile> {
    file: F,
    size: u64,
    faults: u64,
    /// The window that the last short write outside of the first page ended in: the system was asked for it
    /// and for the next one.
    window: Option<u64>,
    /// Why the last call that failed did.
    last_error: Option<io::Error>,
    /// Why a sync failed, if one did.
    sync_error: Option<io::Error>,
}

impl<F: RawFile> Model for FileDisk<F> {
    ghost use Rattle.std.specs.Prelude.{◌<◌, ◌↔◌, IsSome, IfSome, is_some};
    ghost use Rattle.lsvd_device.specs.File.{FileDiskState};
    ghost use Rattle.lsvd_device.specs.Held.{IsDiskOf};

    ghost Value = { FileDiskState };

    ghost view = { λ d. record { size = d.size; file = F.state d.file; faults = d.faults } };

    ghost invariant = { λ d. (IsSome d.last_error ↔ (0 < d.faults))
        × IfSome (F.state d.file) (IsDiskOf d.size (is_some d.sync_error)) };
}

impl FileDisk<LockedFile> {
    /// Makes the file, or takes one that there is, and writes `len` zeros to it, each once. It is synced
    /// then, and so is the directory that has its name; so later writes and syncs change the file's bytes
    /// alone. What stood in the file is lost once it is locked; a file of which the zeros could not be
    /// written is left empty.
    pub fn create(rt: &HostRuntime, path: &str, len: u64) -> Result<FileDisk, FileError>
        ensures { IfOk result (λ disk. disk ≡ silent_over len 0) }
    {
        let file = LockedFile::open(rt, path, true)?;
        FileDisk::make(rt.alloc(), file, len)
    }

    /// Opens a file that there is, and syncs it: what an earlier program wrote, and did not sync, outlasts a
    /// stop now. The length of the disk is that of the file, in bytes.
    pub fn open(rt: &HostRuntime, path: &str) -> Result<FileDisk, FileError>
        ensures { IfOk result (λ disk. disk ≡ silent_over disk.size 0) }
    {
        let file = LockedFile::open(rt, path, false)?;
        FileDisk::over(file)
    }
}

impl<F: RawFile> FileDisk<F> {
    /// A disk of `len` zeros over a file, in place of what that holds. The zeros are there for good then, and
    /// so is the name of the file; a file of which the zeros could not be written is left empty. It was just
    /// opened (a condition). The errors are `System` where a call of the file failed, and `OutOfMemory`.
    pub fn make(alloc: Global, mut file: F, len: u64) -> Result<FileDisk<F>, FileError>
        requires { IfSome (F.state file) IsJustOpened }
        ensures size { IfOk result (λ disk. disk.size ≡ len) }
        ensures faults { IfOk result (λ disk. disk.faults ≡ 0) }
        ensures zeros { IfOk result (λ disk. Alters (λ _ new. HasZeros len new) (F.state file) disk.file) }
        ensures named { IfOk result (λ disk. IfSome disk.file (λ (file : RawState). file.named ≡ true)) }
    {
        if let Err(error) = fill_with_zeros(alloc, &mut file, len) {
            let _ = file.cut();
            return Err(error);
        }
        file.sync_name()?;
        // After long writes the system has it in large pieces, in which short ones cost several times as much
        // as in pages.
        file.forget();
        Ok(FileDisk::of_size(file, len))
    }

    /// A disk over a file as it is, which is synced first: what it holds outlasts a stop before any of it is
    /// told. It was just opened (a condition). The length of the disk is that of the file, in bytes. The one
    /// error is `System`, where the file could not be synced or does not tell its length.
    pub fn over(mut file: F) -> Result<FileDisk<F>, FileError>
        requires { IfSome (F.state file) IsJustOpened }
        ensures size { IfOk result (λ disk. IfSome disk.file
            (λ (file : RawState). disk.size ≡ length file.now.bytes)) }
        ensures faults { IfOk result (λ disk. disk.faults ≡ 0) }
        ensures kept { IfOk result (λ disk. Alters IsKeptForGood (F.state file) disk.file) }
    {
        file.sync_all()?;
        let len = file.size()?;
        Ok(FileDisk::of_size(file, len))
    }

    // A disk over a file of this length.
    fn of_size(file: F, len: u64) -> FileDisk<F>
        requires { IfSome (F.state file) (IsDiskOf len false) }
        ensures size { result.size ≡ len }
        ensures file { result.file ≡ F.state file }
        ensures faults { result.faults ≡ 0 }
    {
        FileDisk {
            file,
            size: len,
            faults: 0,
            window: None,
            last_error: None,
            sync_error: None,
        }
    }

    /// Why the last call that failed did; None is where none has failed.
    pub fn last_error(&self) -> Option<io::Error>
        ensures { IsSome result ↔ (0 < self.now.faults) }
    {
        self.last_error
    }
}

impl<F: RawFile> Disk for FileDisk<F> {
    ghost use Rattle.lsvd_device.specs.File.{disk_over};

    ghost state = { disk_over };

    fn len(&self) -> u64 {
        self.size
    }

    fn read(&mut self, at: u64, buf: &mut [u8]) -> Result<(), Failed> {
        let outcome = self.file.read_at(at, buf);
        judge(&mut self.faults, &mut self.last_error, outcome)
    }

    fn write(&mut self, at: u64, piece: &[u8]) -> Result<(), Failed> {
        if piece.len() < LONG {
            let end = at.saturating_add(piece.len() as u64);
            read_ahead(&self.file, &mut self.window, end);
        }
        let outcome = self.file.write_at(at, piece);
        judge(&mut self.faults, &mut self.last_error, outcome)
    }

    fn sync(&mut self) -> Result<(), Failed> {
        let outcome = sync_unless(&mut self.file, &mut self.sync_error);
        judge(&mut self.faults, &mut self.last_error, outcome)
    }

    fn hand_over(&mut self) {}

    fn faults(&self) -> u64 {
        self.faults
    }
}

// Counts a call that failed, and keeps why.
fn judge(
    faults: &mut u64,
    last_error: &mut Option<io::Error>,
    outcome: io::Result<()>,
) -> Result<(), Failed>
    requires { IsSome last_error.old ↔ (0 < faults.old) }
    ensures same { is_ok result ≡ is_ok outcome }
    ensures count { Counts (is_err outcome) faults.old faults.new }
    ensures kept { IsSome last_error.new ↔ (0 < faults.new) }
{
    match outcome {
        Ok(()) => Ok(()),
        Err(error) => {
            *faults = faults.saturating_add(1);
            *last_error = Some(error);
            Err(Failed)
        }
    }
}

// Syncs what was written, unless an earlier sync failed; then this one fails as that one did.
fn sync_unless<F: RawFile>(file: &mut F, failed: &mut Option<io::Error>) -> io::Result<()>
    requires { IfSome (F.state file.old) (IsHeld (is_some failed.old)) }
    ensures held { IfSome (F.state file.new) (IsHeld (is_some failed.new)) }
    ensures given_up { IsSome failed.old → IsErr result }
    ensures noted { IsSome failed.new ↔ IsErr result }
    ensures ok { OnOk result (Alters (λ old new. new ≡ moved_on after_sync old) (F.state file.old)
        (F.state file.new)) }
    ensures err { OnErr result (Alters (λ old new. (new ≡ old) ⊎ (new ≡ doubted_raw old)) (F.state file.old)
        (F.state file.new)) }
{
    if let Some(error) = *failed {
        return Err(error);
    }
    let outcome = file.sync_data();
    *failed = outcome.err();
    outcome
}

// The bytes of a page, the unit in which the system has a file in memory.
const PAGE: u64 = 4096;

// How many bytes of the file are asked for at a time.
const WINDOW: u64 = 1 << 20;

// From so many bytes on a write is long: it takes longer than to read the page that it ends in.
const LONG: usize = 1 << 16;

// Asks the system for the pages that later writes will change, where they go on from the end of this one. The
// first page is written too often to be out of memory, and between others.
fn read_ahead<F: RawFile>(file: &F, last: &mut Option<u64>, end: u64) {
    let window = end / WINDOW;
    if end <= PAGE || *last == Some(window) {
        return;
    }
    let is_next = window > 0 && *last == Some(window - 1);
    let first = if is_next { window + 1 } else { window };
    let windows = window + 2 - first;
    file.will_need(first.saturating_mul(WINDOW), windows.saturating_mul(WINDOW));
    *last = Some(window);
}

// How many zeros are written at a time.
const PIECE: u64 = 1 << 20;

// Makes a file of `len` zeros, each of which is written once, and syncs it.
fn fill_with_zeros<F: RawFile>(alloc: Global, file: &mut F, len: u64) -> Result<(), FileError>
    requires { IfSome (F.state file.old) IsJustOpened }
    ensures { OnOk result (Alters (λ _ new. HasZeros len new) (F.state file.old) (F.state file.new)) }
{
    file.cut()?;
    let zeros = vec![in alloc; 0; len.min(PIECE) as usize]?;
    add_zeros(file, &zeros, len)?;
    Ok(file.sync_all()?)
}

// Adds zeros to a file that has no bytes, until it has `len`.
fn add_zeros<F: RawFile>(file: &mut F, zeros: &[u8], len: u64) -> io::Result<()>
    requires zeros { zeros.now ≡ replicate (min len 1048576) 0 }
    requires empty { IfSome (F.state file.old) (HasLooseZeros 0) }
    ensures { OnOk result (Alters (λ _ new. HasLooseZeros len new) (F.state file.old) (F.state file.new)) }
{
    let mut at = 0;
    while at < len {
        let count = (len - at).min(PIECE);
        file.add_at(at, &zeros[..count as usize])?;
        at += count;
    }
    Ok(())
}
