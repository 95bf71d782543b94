use crate::file::FileError;
use crate::raw_file::RawFile;
use std::fs::{File, OpenOptions, TryLockError};
use std::io::ErrorKind;
use std::os::fd::AsRawFd;
use std::os::unix::fs::FileExt;
use std::{fs, io};

/// A file of the operating system, which no other disk has as long as this one is open: it is locked, by an
/// advisory lock. It tells nothing of what it holds; that each call of the system does what the trait says of
/// it is trusted.
///
/// A call of the system that does less than it was asked is gone on with, and one that a signal interrupts is
/// made again. Any other error fails the call.
#[derive(Drop)]
pub struct LockedFile {
    rt: HostRuntime,
    path: String,
    file: File,
}

impl LockedFile {
    // Opens a regular file to read and to write, and locks it. Where it is absent it is made, if it is to be.
    pub(crate) fn open(rt: &HostRuntime, path: &str, make: bool) -> Result<LockedFile, FileError> {
        let kept_path = String::from_str(rt.alloc(), path)?;
        let file = OpenOptions::new()
            .read(true)
            .write(true)
            .create(make)
            .open(rt, path)?;
        if !file.metadata()?.is_file() {
            return Err(io::Error::new(ErrorKind::InvalidInput, "not a regular file").into());
        }
        let file = above_standard_streams(file)?;
        file.try_lock()?;
        Ok(LockedFile {
            rt: *rt,
            path: kept_path,
            file,
        })
    }
}

impl From<TryLockError> for FileError {
    fn from(error: TryLockError) -> FileError {
        match error {
            TryLockError::WouldBlock => FileError::InUse,
            TryLockError::Error(error) => FileError::System(error),
        }
    }
}

// The same file, under a number that no standard stream has: where one was closed, what is meant for it must
// not be written to the file.
fn above_standard_streams(file: File) -> io::Result<File> {
    if file.as_raw_fd() <= 2 {
        return file.try_clone();
    }
    Ok(file)
}

impl RawFile for LockedFile {
    ghost use Rattle.std.specs.Prelude.{None};

    ghost state = { λ _. None };

    fn size(&self) -> io::Result<u64> {
        Ok(self.file.metadata()?.len())
    }

    fn read_at(&self, at: u64, buf: &mut [u8]) -> io::Result<()> {
        self.file.read_exact_at(buf, at)
    }

    fn write_at(&mut self, at: u64, piece: &[u8]) -> io::Result<()> {
        self.file.write_all_at(piece, at)
    }

    fn cut(&mut self) -> io::Result<()> {
        self.file.set_len(0)
    }

    fn add_at(&mut self, at: u64, piece: &[u8]) -> io::Result<()> {
        self.file.write_all_at(piece, at)
    }

    fn sync_all(&mut self) -> io::Result<()> {
        self.file.sync_all()
    }

    fn sync_data(&mut self) -> io::Result<()> {
        self.file.sync_data()
    }

    fn sync_name(&mut self) -> io::Result<()> {
        let mut directory = fs::canonicalize(&self.rt, self.path.as_str())?;
        directory.pop();
        File::open(&self.rt, directory)?.sync_all()
    }

    fn will_need(&self, at: u64, len: u64) {
        let (at, len) = (at.cast_signed(), len.cast_signed());
        let _ = libc::posix_fadvise(self.file.as_raw_fd(), at, len, libc::POSIX_FADV_WILLNEED);
    }

    fn forget(&self) {
        let _ = libc::posix_fadvise(self.file.as_raw_fd(), 0, 0, libc::POSIX_FADV_DONTNEED);
    }
}
