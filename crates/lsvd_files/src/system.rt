ghost use Rattle.std.specs.Prelude.{◌≡◌, ◌+◌, ◌≤◌, length, IfOk, OnOk, IsOk};
ghost use Rattle.std.specs.String.{string_bytes, string_capacity};
ghost use Rattle.lsvd_files.specs.System.{path_in};

use crate::directory::Directory;
use crate::names::FileNames;
use std::alloc::{AllocError, Global};
use std::fs::{DirEntry, File, OpenOptions, TryLockError};
use std::io::{ErrorKind, Write};
use std::os::fd::AsRawFd;
use std::os::unix::fs::{FileExt, MetadataExt};
use std::{fs, io};

/// A directory of the operating system. It tells nothing of what it holds; that each call of the system does
/// what the trait says of it is trusted.
#[derive(Drop)]
pub struct SystemDirectory {
    rt: HostRuntime,
    path: String,
    /// Where the paths of its files are made, so that no call takes memory for them. A rename has two.
    file_path: String,
    other_path: String,
    /// The directory itself.
    opened: File,
}

impl SystemDirectory {
    /// Opens the directory at a path. The error's kind is `NotADirectory` where something else is there.
    pub fn open(rt: &HostRuntime, path: &str) -> io::Result<SystemDirectory> {
        if !fs::metadata(rt, path)?.is_dir() {
            return Err(io::Error::from(ErrorKind::NotADirectory));
        }
        let alloc = rt.alloc();
        Ok(SystemDirectory {
            rt: *rt,
            path: String::from_str(alloc, path)?,
            file_path: room_for_path(alloc, path)?,
            other_path: room_for_path(alloc, path)?,
            opened: File::open(rt, path)?,
        })
    }

    /// Makes a directory at a path, unless there is one, and syncs the directory that has its name, wherever
    /// links lead to it.
    pub fn create(rt: &HostRuntime, path: &str) -> io::Result<SystemDirectory> {
        match fs::create_dir(rt, path) {
            Err(error) if error.kind() != ErrorKind::AlreadyExists => return Err(error),
            _ => {}
        }
        let mut above = fs::canonicalize(rt, path)?;
        above.pop();
        File::open(rt, above)?.sync_all()?;
        SystemDirectory::open(rt, path)
    }

    // Makes the path of a file.
    fn point_to(&mut self, name: &str) -> Result<(), AllocError> {
        put_path(&mut self.file_path, self.path.as_str(), name)
    }

    // All names that are texts, as one listing tells them.
    fn list(&self, alloc: Global) -> io::Result<FileNames> {
        let mut names = FileNames::new(alloc);
        for entry in fs::read_dir(&self.rt, self.path.as_str())? {
            add_if_text(alloc, &mut names, entry)?;
        }
        Ok(names)
    }
}

/// An open file of a directory of the operating system.
#[derive(Drop)]
pub struct SystemFile {
    file: File,
    /// How many bytes were written to it.
    written: u64,
}

impl Directory for SystemDirectory {
    ghost use Rattle.std.specs.Prelude.{None};

    type File = SystemFile;

    ghost state = { λ _. None };

    ghost number = { λ _. 0 };

    fn make(&mut self, name: &str) -> io::Result<SystemFile> {
        self.point_to(name)?;
        let made = OpenOptions::new()
            .write(true)
            .create_new(true)
            .open(&self.rt, self.file_path.as_str())?;
        Ok(SystemFile {
            file: above_standard_streams(made)?,
            written: 0,
        })
    }

    fn open(&mut self, name: &str) -> io::Result<Option<SystemFile>> {
        self.point_to(name)?;
        let file = found(File::open(&self.rt, self.file_path.as_str()))?;
        Ok(file.map(|file| SystemFile { file, written: 0 }))
    }

    fn lock(&mut self, file: &SystemFile) -> io::Result<bool> {
        match file.file.try_lock() {
            Ok(()) => Ok(true),
            Err(TryLockError::WouldBlock) => Ok(false),
            Err(TryLockError::Error(error)) => Err(error),
        }
    }

    fn append(&mut self, file: &mut SystemFile, piece: &[u8]) -> io::Result<()> {
        file.file.write_all(piece)?;
        send(&file.file, file.written, piece.len() as u64);
        file.written = file.written.saturating_add(piece.len() as u64);
        Ok(())
    }

    fn sync_file(&mut self, file: &SystemFile) -> io::Result<()> {
        file.file.sync_all()
    }

    fn size(&mut self, file: &SystemFile) -> io::Result<u64> {
        Ok(file.file.metadata()?.len())
    }

    fn read(&mut self, file: &SystemFile, at: u64, buf: &mut [u8]) -> io::Result<()> {
        file.file.read_exact_at(buf, at)
    }

    fn rename(&mut self, from: &str, to: &str) -> io::Result<()> {
        self.point_to(from)?;
        put_path(&mut self.other_path, self.path.as_str(), to)?;
        fs::rename(&self.rt, self.file_path.as_str(), self.other_path.as_str())
    }

    fn remove(&mut self, name: &str) -> io::Result<bool> {
        self.point_to(name)?;
        let removed = found(fs::remove_file(&self.rt, self.file_path.as_str()))?;
        Ok(removed.is_some())
    }

    fn sync(&mut self) -> io::Result<()> {
        self.opened.sync_all()
    }

    fn length(&mut self, name: &str) -> io::Result<Option<u64>> {
        self.point_to(name)?;
        match found(fs::metadata(&self.rt, self.file_path.as_str()))? {
            Some(found) if !found.is_file() => Err(not_a_file()),
            Some(found) => Ok(Some(found.len())),
            None => Ok(None),
        }
    }

    // The listing is made again where a signal interrupts it: `read_dir` passes that on.
    fn names(&mut self, alloc: Global) -> io::Result<FileNames> {
        for _ in 0..u64::MAX {
            match self.list(alloc) {
                Err(error) if error.kind() == ErrorKind::Interrupted => {}
                outcome => return outcome,
            }
        }
        Err(ErrorKind::Interrupted.into())
    }

    fn stands(&mut self) -> io::Result<bool> {
        let opened = self.opened.metadata()?;
        let found = fs::metadata(&self.rt, self.path.as_str())?;
        Ok((opened.dev(), opened.ino()) == (found.dev(), found.ino()))
    }
}

// How many bytes the longest name of a file has, and the slash before it.
const NAME_BYTES: usize = 256;

// Room for the path of each file of a directory.
fn room_for_path(alloc: Global, directory: &str) -> Result<String, AllocError>
    ensures { IfOk result (λ path. length directory.now + 256 ≤ string_capacity path) }
{
    String::with_capacity(alloc, directory.len().saturating_add(NAME_BYTES))
}

// Makes the path of a file of a directory. Where there is room for it, this takes no memory.
fn put_path(path: &mut String, directory: &str, name: &str) -> Result<(), AllocError>
    ensures ok { OnOk result (string_bytes path.new ≡ path_in directory.now name.now) }
    ensures room { length directory.now + 1 + length name.now ≤ string_capacity path.old → IsOk result }
    ensures kept { string_capacity path.old ≤ string_capacity path.new }
{
    path.clear();
    path.push_str(directory)?;
    path.push_str("/")?;
    path.push_str(name)
}

// What a call by a name gave; None is where the name leads nowhere.
fn found<T>(outcome: io::Result<T>) -> io::Result<Option<T>> {
    match outcome {
        Ok(value) => Ok(Some(value)),
        Err(error) if error.kind() == ErrorKind::NotFound => Ok(None),
        Err(error) => Err(error),
    }
}

// The error of a name that leads to something else than a file.
fn not_a_file() -> io::Error {
    io::Error::new(ErrorKind::InvalidInput, "not a regular file")
}

// The same file, under a number that no standard stream has: where one was closed, what is meant for it must
// not be written to the file.
fn above_standard_streams(file: File) -> io::Result<File> {
    if file.as_raw_fd() <= 2 {
        return file.try_clone();
    }
    Ok(file)
}

// Lets the system send a part of a file to its device while the next is written, so that less is left for a
// sync; Linux begins to write a part of a file that it is told not to keep. It is advice, so nothing is made
// of a refusal.
fn send(file: &File, at: u64, len: u64) {
    let (at, len) = (at.cast_signed(), len.cast_signed());
    let _ = libc::posix_fadvise(file.as_raw_fd(), at, len, libc::POSIX_FADV_DONTNEED);
}

// Adds the name of an entry, unless it is no text.
fn add_if_text(
    alloc: Global,
    names: &mut FileNames,
    entry: io::Result<DirEntry>,
) -> io::Result<()> {
    match entry {
        Ok(entry) => Ok(names.push(alloc, entry.file_name())?),
        Err(error) if error.kind() == ErrorKind::InvalidFilename => Ok(()),
        Err(error) => Err(error),
    }
}
