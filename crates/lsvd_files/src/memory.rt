ghost use Rattle.std.specs.Prelude.{◌≡◌, ◌+◌, ◌≤◌, ◌++◌, ◌∷◌, [], length, map, take, drop, true, false, Some};
ghost use Rattle.std.specs.Prelude.{IfOk, OnOk, OnErr, IfSome, slice_get, MatchOption};
ghost use Rattle.lsvd_files.specs.Directory.{FileState, leads, new_file};
ghost use Rattle.lsvd_files.specs.Calls.{without_name, with_name, changed_at, with_file, appended};
ghost use Rattle.lsvd_files.specs.Calls.{synced_file, doubted_file, IsMade, Renames, Removes, after_move};
ghost use Rattle.lsvd_files.specs.Memory.{empty_directory, locked_file, handle_number};

use crate::directory::Directory;
use crate::names::FileNames;
use std::alloc::{AllocError, Global};
use std::io::ErrorKind;
use std::marker::Model;
use std::{io, mem};

// A name, and the number of the file that it leads to.
#[derive(Drop)]
struct MemName {
    name: String,
    file: usize,
}

impl Model for MemName {
    ghost use Rattle.std.specs.Prelude.{List, ℕ, string_bytes};

    ghost Value = { List ℕ × ℕ };

    ghost view = { λ n. (string_bytes n.name, n.file) };
}

// The names of a directory at one time.
#[derive(Drop)]
struct MemNames {
    entries: Vec<MemName>,
}

impl Model for MemNames {
    ghost use Rattle.std.specs.Prelude.{List, ℕ};

    ghost Value = { List (List ℕ × ℕ) };

    ghost view = { λ n. n.entries.items };
}

// A file.
#[derive(Drop)]
struct MemFile {
    bytes: Vec<u8>,
    synced: bool,
    doubted: bool,
    locked: bool,
}

impl Model for MemFile {
    ghost use Rattle.lsvd_files.specs.Directory.{FileState};

    ghost Value = { FileState };

    ghost view = { λ f. record {
      bytes = f.bytes.items;
      synced = f.synced;
      doubted = f.doubted;
      locked = f.locked;
    } };
}

/// An open file of a directory in memory.
#[derive(Debug, Drop)]
pub struct MemHandle {
    number: usize,
}

// A call that is to fail.
#[derive(Clone, Copy)]
struct PlannedFailure {
    // How many calls come before it.
    later: u64,
    // Whether its part is done all the same.
    is_done: bool,
}

// What becomes of a call.
#[derive(Clone, Copy, PartialEq, Eq)]
enum Fate {
    Made,
    // It fails, and nothing was done.
    Lost,
    // It fails, and its part was done.
    Unanswered,
}

/// A directory in memory, which tells all. Its calls fail where memory runs out, where the system's would,
/// and as planned.
#[derive(Drop)]
pub struct MemDirectory {
    alloc: Global,
    names: MemNames,
    // The names that it had since the last sync, the oldest first.
    before: Vec<MemNames>,
    files: Vec<MemFile>,
    doubted: bool,
    stands: bool,
    failing: Option<PlannedFailure>,
}

impl Model for MemDirectory {
    ghost use Rattle.std.specs.Prelude.{reverse};
    ghost use Rattle.lsvd_files.specs.Directory.{DirectoryState};
    ghost use Rattle.lsvd_files.specs.Memory.{IsDirectory};

    ghost Value = { DirectoryState };

    ghost view = { λ d. record {
      names = d.names;
      before = reverse d.before.items;
      files = d.files.items;
      doubted = d.doubted;
      stands = d.stands;
    } };

    ghost invariant = { λ d. IsDirectory (record {
      names = d.names;
      before = reverse d.before.items;
      files = d.files.items;
      doubted = d.doubted;
      stands = d.stands;
    }) };
}

impl MemDirectory {
    /// A directory with no names.
    pub fn new(alloc: Global) -> MemDirectory
        ensures { result ≡ empty_directory }
    {
        MemDirectory {
            alloc,
            names: MemNames {
                entries: Vec::new(alloc),
            },
            before: Vec::new(alloc),
            files: Vec::new(alloc),
            doubted: false,
            stands: true,
            failing: None,
        }
    }

    /// The same directory, of which the call of this number from now on fails; 0 is the next one. Its part is
    /// done all the same, if it is to be. Of two such numbers the later counts.
    pub fn failing_at(mut self, call: u64, is_done: bool) -> MemDirectory
        ensures { result ≡ self }
    {
        self.failing = Some(PlannedFailure {
            later: call,
            is_done,
        });
        self
    }

    /// Its path leads elsewhere from now on.
    pub fn move_away(&mut self)
        ensures { self.new ≡ after_move self.old }
    {
        self.stands = false;
    }

    /// Another open of the file under a name holds its lock from now on, if there is such a file.
    pub fn lock_elsewhere(&mut self, name: &str)
        ensures { MatchOption (leads self.old.names name.now) (self.new ≡ self.old)
            (λ file. self.new ≡ with_file file locked_file self.old) }
    {
        if let Some(number) = find(&self.names, name) {
            hold(&mut self.files, number);
        }
    }

    fn make_here(&mut self, name: &str) -> io::Result<MemHandle>
        ensures ok { IfOk result (λ file. IsMade name.now (handle_number file) self.old self.new) }
        ensures err { OnErr result (self.new ≡ self.old) }
    {
        if !self.stands {
            return Err(io::Error::from(ErrorKind::NotFound));
        }
        if find(&self.names, name).is_some() {
            return Err(io::Error::from(ErrorKind::AlreadyExists));
        }
        let number = self.files.len();
        let changed = with(self.alloc, &self.names, name, number)?;
        add_file(
            self.alloc,
            &mut self.files,
            &mut self.names,
            &mut self.before,
            changed,
        )?;
        Ok(MemHandle { number })
    }

    // Writes a piece at the end of a file. Where memory runs out nothing of it was written.
    fn append_here(&mut self, number: usize, piece: &[u8]) -> Result<(), AllocError>
        ensures ok { OnOk result (self.new ≡ with_file number (appended piece.now) self.old) }
        ensures err { OnErr result (self.new ≡ with_file number (appended []) self.old) }
    {
        append(&mut self.files, number, piece)?;
        Ok(())
    }

    fn rename_here(&mut self, from: &str, to: &str) -> io::Result<()>
        ensures stands { OnOk result (self.old.stands ≡ true) }
        ensures ok { OnOk result (Renames from.now to.now self.old self.new) }
        ensures err { OnErr result (self.new ≡ self.old) }
    {
        if !self.stands {
            return Err(io::Error::from(ErrorKind::NotFound));
        }
        let Some(file) = find(&self.names, from) else {
            return Err(io::Error::from(ErrorKind::NotFound));
        };
        if find(&self.names, to) == Some(file) {
            return Ok(());
        }
        let others = without(self.alloc, &self.names, from)?;
        let changed = with(self.alloc, &others, to, file)?;
        replace(&mut self.names, &mut self.before, changed)?;
        Ok(())
    }

    fn remove_here(&mut self, name: &str) -> io::Result<bool>
        ensures stands { OnOk result (self.old.stands ≡ true) }
        ensures ok { IfOk result (λ is_removed. Removes name.now is_removed self.old self.new) }
        ensures err { OnErr result (self.new ≡ self.old) }
    {
        if !self.stands {
            return Err(io::Error::from(ErrorKind::NotFound));
        }
        if find(&self.names, name).is_none() {
            return Ok(false);
        }
        let others = without(self.alloc, &self.names, name)?;
        replace(&mut self.names, &mut self.before, others)?;
        Ok(true)
    }
}

impl Directory for MemDirectory {
    type File = MemHandle;

    ghost state = { λ d. Some d };

    ghost number = { handle_number };

    fn make(&mut self, name: &str) -> io::Result<MemHandle> {
        match next_fate(&mut self.failing) {
            Fate::Made => self.make_here(name),
            Fate::Lost => Err(planned()),
            Fate::Unanswered => {
                self.make_here(name)?;
                Err(planned())
            }
        }
    }

    fn open(&mut self, name: &str) -> io::Result<Option<MemHandle>> {
        if next_fate(&mut self.failing) != Fate::Made || !self.stands {
            return Err(planned());
        }
        match find(&self.names, name) {
            Some(number) => Ok(Some(MemHandle { number })),
            None => Ok(None),
        }
    }

    fn lock(&mut self, file: &MemHandle) -> io::Result<bool> {
        if next_fate(&mut self.failing) != Fate::Made {
            return Err(planned());
        }
        Ok(!is_locked(&self.files, file.number))
    }

    fn append(&mut self, file: &mut MemHandle, piece: &[u8]) -> io::Result<()> {
        match next_fate(&mut self.failing) {
            Fate::Made => Ok(self.append_here(file.number, piece)?),
            Fate::Lost => {
                self.append_here(file.number, &[])?;
                Err(planned())
            }
            Fate::Unanswered => {
                self.append_here(file.number, piece)?;
                Err(planned())
            }
        }
    }

    fn sync_file(&mut self, file: &MemHandle) -> io::Result<()> {
        if next_fate(&mut self.failing) != Fate::Made {
            doubt(&mut self.files, file.number);
            return Err(planned());
        }
        settle(&mut self.files, file.number);
        Ok(())
    }

    fn size(&mut self, file: &MemHandle) -> io::Result<u64> {
        if next_fate(&mut self.failing) != Fate::Made {
            return Err(planned());
        }
        Ok(bytes_of(&self.files, file.number)?.len() as u64)
    }

    fn read(&mut self, file: &MemHandle, at: u64, buf: &mut [u8]) -> io::Result<()> {
        if next_fate(&mut self.failing) != Fate::Made {
            return Err(planned());
        }
        copy_part(bytes_of(&self.files, file.number)?, at as usize, buf)
    }

    fn rename(&mut self, from: &str, to: &str) -> io::Result<()> {
        match next_fate(&mut self.failing) {
            Fate::Made => self.rename_here(from, to),
            Fate::Lost => Err(planned()),
            Fate::Unanswered => {
                self.rename_here(from, to)?;
                Err(planned())
            }
        }
    }

    fn remove(&mut self, name: &str) -> io::Result<bool> {
        match next_fate(&mut self.failing) {
            Fate::Made => self.remove_here(name),
            Fate::Lost => Err(planned()),
            Fate::Unanswered => {
                self.remove_here(name)?;
                Err(planned())
            }
        }
    }

    fn sync(&mut self) -> io::Result<()> {
        if next_fate(&mut self.failing) != Fate::Made {
            self.doubted = true;
            return Err(planned());
        }
        if !self.doubted {
            self.before.clear();
        }
        Ok(())
    }

    fn length(&mut self, name: &str) -> io::Result<Option<u64>> {
        if next_fate(&mut self.failing) != Fate::Made || !self.stands {
            return Err(planned());
        }
        match find(&self.names, name) {
            Some(number) => Ok(Some(bytes_of(&self.files, number)?.len() as u64)),
            None => Ok(None),
        }
    }

    fn names(&mut self, alloc: Global) -> io::Result<FileNames> {
        if next_fate(&mut self.failing) != Fate::Made || !self.stands {
            return Err(planned());
        }
        Ok(listed(alloc, &self.names)?)
    }

    fn stands(&mut self) -> io::Result<bool> {
        if next_fate(&mut self.failing) != Fate::Made {
            return Err(planned());
        }
        Ok(self.stands)
    }
}

// The error of a call that fails as planned, or of a directory that has gone.
fn planned() -> io::Error {
    io::Error::new(ErrorKind::Other, "a call of a directory in memory failed")
}

// What becomes of the call that comes now.
fn next_fate(failing: &mut Option<PlannedFailure>) -> Fate {
    match failing {
        None => Fate::Made,
        Some(planned) if 0 < planned.later => {
            planned.later -= 1;
            Fate::Made
        }
        Some(planned) => {
            let fate = if planned.is_done {
                Fate::Unanswered
            } else {
                Fate::Lost
            };
            *failing = None;
            fate
        }
    }
}

// The file that a name leads to.
fn find(names: &MemNames, name: &str) -> Option<usize>
    ensures { result ≡ leads names.now name.now }
{
    for entry in names.entries.as_slice() {
        if entry.name.as_str() == name {
            return Some(entry.file);
        }
    }
    None
}

// The names without one of them.
fn without(alloc: Global, names: &MemNames, name: &str) -> Result<MemNames, AllocError>
    ensures { IfOk result (λ others. others ≡ without_name name.now names.now) }
{
    let mut others = Vec::new(alloc);
    for entry in names.entries.as_slice() {
        if entry.name.as_str() != name {
            others.push(copy_of(alloc, entry)?)?;
        }
    }
    Ok(MemNames { entries: others })
}

// The same entry again.
fn copy_of(alloc: Global, entry: &MemName) -> Result<MemName, AllocError>
    ensures { IfOk result (λ copy. copy ≡ entry.now) }
{
    Ok(MemName {
        name: String::from_str(alloc, entry.name.as_str())?,
        file: entry.file,
    })
}

// The names where one leads to a file.
fn with(alloc: Global, names: &MemNames, name: &str, file: usize) -> Result<MemNames, AllocError>
    ensures { IfOk result (λ changed. changed ≡ with_name name.now file names.now) }
{
    let mut changed = without(alloc, names, name)?;
    let name = String::from_str(alloc, name)?;
    changed.entries.push(MemName { name, file })?;
    Ok(changed)
}

// Puts names in place of those that there are, which are kept as the last of those before.
fn replace(
    names: &mut MemNames,
    before: &mut Vec<MemNames>,
    changed: MemNames,
) -> Result<(), AllocError>
    ensures ok { OnOk result ((names.new ≡ changed)
        × (before.new.items ≡ before.old.items ++ names.old ∷ [])) }
    ensures err { OnErr result ((names.new ≡ names.old) × (before.new.items ≡ before.old.items)) }
{
    before.reserve(1)?;
    before.push(mem::replace(names, changed))?;
    Ok(())
}

// The same, with a file more that has nothing in it.
fn add_file(
    alloc: Global,
    files: &mut Vec<MemFile>,
    names: &mut MemNames,
    before: &mut Vec<MemNames>,
    changed: MemNames,
) -> Result<(), AllocError>
    ensures ok { OnOk result ((files.new.items ≡ files.old.items ++ new_file ∷ []) × (names.new ≡ changed)
        × (before.new.items ≡ before.old.items ++ names.old ∷ [])) }
    ensures err { OnErr result ((files.new.items ≡ files.old.items) × (names.new ≡ names.old)
        × (before.new.items ≡ before.old.items)) }
{
    files.reserve(1)?;
    replace(names, before, changed)?;
    files.push(MemFile {
        bytes: Vec::new(alloc),
        synced: false,
        doubted: false,
        locked: false,
    })?;
    Ok(())
}

// Another open of a file holds its lock.
fn hold(files: &mut Vec<MemFile>, number: usize)
    ensures { files.new.items ≡ changed_at number locked_file files.old.items }
{
    if number < files.len() {
        let file = &mut files[number];
        file.locked = true;
    }
}

// Whether another open of a file holds its lock.
fn is_locked(files: &[MemFile], number: usize) -> bool
    ensures { result ≡ false
        → IfSome (slice_get files.now number) (λ (file : FileState). file.locked ≡ false) }
{
    if number >= files.len() {
        return false;
    }
    let file = &files[number];
    file.locked
}

// The bytes of a file. The one error is that there is none of this number.
fn bytes_of(files: &[MemFile], number: usize) -> io::Result<&[u8]>
    ensures { IfOk result (λ bytes. (file : FileState) × (slice_get files.now number ≡ Some file)
        × (bytes.now ≡ file.bytes)) }
{
    if number >= files.len() {
        return Err(io::Error::from(ErrorKind::NotFound));
    }
    let file = &files[number];
    Ok(file.bytes.as_slice())
}

// Copies the bytes from `from` on into the whole of `buf`. It fails where they end before.
fn copy_part(bytes: &[u8], from: usize, buf: &mut [u8]) -> io::Result<()>
    ensures inside { OnOk result (from + length buf.new ≤ length bytes.now) }
    ensures copied { OnOk result (buf.new ≡ take (length buf.new) (drop from bytes.now)) }
{
    if bytes.len() < from || bytes.len() - from < buf.len() {
        return Err(io::Error::from(ErrorKind::UnexpectedEof));
    }
    buf.copy_from_slice(&bytes[from..from + buf.len()]);
    Ok(())
}

// Writes a piece at the end of a file. Where memory runs out nothing of it was written.
fn append(files: &mut Vec<MemFile>, number: usize, piece: &[u8]) -> Result<(), AllocError>
    ensures ok { OnOk result (files.new.items ≡ changed_at number (appended piece.now) files.old.items) }
    ensures err { OnErr result (files.new.items ≡ changed_at number (appended []) files.old.items) }
{
    if number < files.len() {
        let file = &mut files[number];
        file.synced = false;
        file.bytes.extend_from_slice(piece)?;
    }
    Ok(())
}

// A file was synced.
fn settle(files: &mut Vec<MemFile>, number: usize)
    ensures { files.new.items ≡ changed_at number synced_file files.old.items }
{
    if number < files.len() {
        let file = &mut files[number];
        file.synced = !file.doubted;
    }
}

// A sync of a file has failed.
fn doubt(files: &mut Vec<MemFile>, number: usize)
    ensures { files.new.items ≡ changed_at number doubted_file files.old.items }
{
    if number < files.len() {
        let file = &mut files[number];
        file.synced = false;
        file.doubted = true;
    }
}

// All names, in their order.
fn listed(alloc: Global, names: &MemNames) -> Result<FileNames, AllocError>
    ensures { IfOk result (λ listed. listed ≡ map (λ entry. entry.0) names.now) }
{
    let mut listed = FileNames::new(alloc);
    for entry in names.entries.as_slice() {
        listed.push(alloc, entry.name.as_str())?;
    }
    Ok(listed)
}
