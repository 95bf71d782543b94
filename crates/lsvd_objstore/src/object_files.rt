ghost use Rattle.std.specs.Prelude.{◌≡◌, ◌++◌, ◌↔◌, true, false, Contains, IfOk, IfSome, IfNone, OnOk, OnErr};
ghost use Rattle.std.specs.Prelude.{IsErrOf, is_some};
ghost use Rattle.std.specs.List.Sorted.{IsStrictlySortedBy};
ghost use Rattle.std.specs.String.{string_bytes};
ghost use Rattle.lsvd_files.specs.Calls.{Changes, IsLeft, length_under};
ghost use Rattle.lsvd_files.specs.Kept.{Stays};
ghost use Rattle.lsvd_names.specs.Spelling.{IsName, spelling};
ghost use Rattle.lsvd_objstore.specs.Objects.{name_cmp, AreNamesOf, Lists};
ghost use Rattle.lsvd_objstore.specs.Directory.{ending_of, objects_of, IsTemporaryOf, IsSettled, PutsObject};
ghost use Rattle.lsvd_objstore.specs.Directory.{MayPutObject, RemovesForGood, MayRemoveFile, Clears};
ghost use Rattle.lsvd_objstore.specs.Placing.{IsTrusted, IsAsked, Sweeps};

use crate::names::Names;
use crate::placing::{put_file, remove_file, stands, sync_unless};
use libc::types::rlimit;
use lru::LruCache;
use lsvd_files::{Directory, FileNames};
use lsvd_names::ObjName;
use std::alloc::{AllocError, AllocFailed, Global};
use std::collections::BTreeSet;
use std::io;
use std::io::ErrorKind;
use std::marker::Model;
use std::num::NonZeroUsize;
use thiserror::Error;
use uuid::Uuid;

/// Why a directory could not be made or opened as a store, or a call on its files was not done.
#[derive(Clone, Copy, Debug, Error)]
pub enum DirectoryError {
    /// The operating system refused a call, or a file is not what it should be.
    #[error("{0}")]
    System(io::Error),
    /// Memory ran out.
    #[error("out of memory")]
    OutOfMemory,
}

impl From<AllocError> for DirectoryError {
    fn from(_: AllocError) -> DirectoryError {
        DirectoryError::OutOfMemory
    }
}

impl<T: Drop> From<AllocFailed<T>> for DirectoryError {
    fn from(_: AllocFailed<T>) -> DirectoryError {
        DirectoryError::OutOfMemory
    }
}

impl From<io::Error> for DirectoryError {
    // An error that has no number of the system's is one of this program's own.
    fn from(error: io::Error) -> DirectoryError {
        if error.kind() == ErrorKind::OutOfMemory && error.raw_os_error().is_none() {
            return DirectoryError::OutOfMemory;
        }
        DirectoryError::System(error)
    }
}

impl From<DirectoryError> for io::Error {
    fn from(error: DirectoryError) -> io::Error {
        match error {
            DirectoryError::System(error) => error,
            DirectoryError::OutOfMemory => AllocError.into(),
        }
    }
}

// How many files stay open for later reads, at least and at most.
const FEWEST_OPEN: u64 = 32;

const MOST_OPEN: u64 = 4_096;

// How many of the files that the program may have open are left for others.
const OTHER_FILES: u64 = 128;

// How many files stay open for later reads: as many as the program may have open, but for some.
fn most_open() -> NonZeroUsize {
    let mut limit = rlimit {
        rlim_cur: 0,
        rlim_max: 0,
    };
    let _ = libc::getrlimit(libc::RLIMIT_NOFILE, &mut limit);
    let count = limit.rlim_cur.saturating_sub(OTHER_FILES);
    NonZeroUsize::new(count.clamp(FEWEST_OPEN, MOST_OPEN) as usize).unwrap_or(NonZeroUsize::MIN)
}

/// The objects of a directory: each is a file under the spelling of its name. What is changed stays over a
/// stop of the machine once the call is done. Contracts see it as the state of the directory, where that
/// tells it.
#[derive(Drop)]
pub(crate) struct ObjectFiles<D: Directory> {
    alloc: Global,
    directory: D,
    /// Whether names of objects may have changed since the directory was synced.
    is_unsynced: bool,
    /// Why a sync of the directory failed, if one did.
    sync_error: Option<io::Error>,
    /// The files that were read last.
    open: LruCache<ObjName, OpenObject<D::File>>,
}

impl<D: Directory> Model for ObjectFiles<D> {
    ghost use Rattle.std.specs.Prelude.{Option, is_some};
    ghost use Rattle.lsvd_files.specs.Directory.{DirectoryState};
    ghost use Rattle.lsvd_objstore.specs.Directory.{IsKnown};

    ghost Value = { Option DirectoryState };

    ghost view = { λ f. D.state f.directory };

    ghost invariant = { λ f. IsKnown (is_some f.sync_error) f.is_unsynced (D.state f.directory) };
}

impl<D: Directory + Drop> ObjectFiles<D> {
    /// The objects of a directory, which is synced: each name that it has stays over a stop then. No sync of
    /// it has failed yet (a condition).
    pub(crate) fn new(alloc: Global, directory: D) -> Result<ObjectFiles<D>, DirectoryError>
        requires { IsTrusted false (D.state directory) }
        ensures { IfOk result (λ files. Changes (λ old new. Stays old new × IsSettled new) (D.state directory)
            files) }
    {
        let mut files = ObjectFiles {
            alloc,
            directory,
            is_unsynced: true,
            sync_error: None,
            open: LruCache::new(alloc, most_open())?,
        };
        files.settle()?;
        Ok(files)
    }

    /// Makes the file of an object, in place of one that there is. It is written under a temporary name, with
    /// this mark, and has its own only when it is whole. Where memory ran out nothing was done.
    pub(crate) fn put(
        &mut self,
        alloc: Global,
        mark: u64,
        name: &ObjName,
        bytes: &[u8],
    ) -> Result<(), DirectoryError>
        requires { IsName name.now }
        ensures ok { OnOk result (Changes (PutsObject name.now bytes.now) self.old self.new) }
        ensures err { OnErr result (Changes (MayPutObject name.now bytes.now) self.old self.new) }
        ensures memory { IsErrOf result DirectoryError.OutOfMemory → self.new ≡ self.old }
    {
        let spelled = name.print(alloc)?;
        let temporary = temporary_name(alloc, spelled.as_str(), mark)?;
        drop(self.open.pop(name));
        match put_file(
            &mut self.directory,
            &mut self.sync_error,
            temporary.as_str(),
            spelled.as_str(),
            bytes,
        ) {
            Ok(()) => {
                self.is_unsynced = false;
                Ok(())
            }
            Err(error) => {
                self.is_unsynced = true;
                Err(DirectoryError::System(error))
            }
        }
    }

    /// The length of an object's file in bytes; None is where there is no file of this name. What is told
    /// stays over a stop.
    pub(crate) fn length(
        &mut self,
        alloc: Global,
        name: &ObjName,
    ) -> Result<Option<u64>, DirectoryError>
        requires { IsName name.now }
        ensures ok { IfOk result (λ found. Changes (λ old new. Stays old new × IsSettled new
            × (found ≡ length_under new (spelling name.now))) self.old self.new) }
        ensures err { OnErr result (Changes Stays self.old self.new) }
    {
        let spelled = name.print(alloc)?;
        self.settle()?;
        let found = self.directory.length(spelled.as_str())?;
        stands(&mut self.directory)?;
        Ok(found)
    }

    /// Reads the bytes of an object of `len` bytes from `from` on. A file of another length is not that
    /// object's.
    pub(crate) fn read(
        &mut self,
        name: &ObjName,
        len: u64,
        from: u64,
        buf: &mut [u8],
    ) -> Result<(), DirectoryError>
        requires { IsName name.now }
        ensures { Changes Stays self.old self.new }
    {
        if let Some(object) = self.open.get(name) {
            read_object(&mut self.directory, object, len, from, buf)?;
            return Ok(());
        }
        let object = self.open_object(name)?;
        if let Err(error) = read_object(&mut self.directory, &object, len, from, buf) {
            drop(object);
            return Err(error.into());
        }
        // Where there is no memory for its place the file is closed, and is opened again by the next read.
        drop(self.open.put(*name, object));
        Ok(())
    }

    // Opens an object's file to be read.
    fn open_object(&mut self, name: &ObjName) -> Result<OpenObject<D::File>, DirectoryError>
        requires { IsName name.now }
        ensures { Changes IsLeft self.old self.new }
    {
        let spelled = name.print(self.alloc)?;
        Ok(open_file(&mut self.directory, spelled.as_str())?)
    }

    /// The names of a volume's objects, in ascending order. Files that have no name of an object are passed
    /// over. What is told stays over a stop.
    pub(crate) fn names(&mut self, alloc: Global, uuid: Uuid) -> Result<Names, DirectoryError>
        ensures names { IfOk result (AreNamesOf uuid) }
        ensures ok { IfOk result (λ names. Changes (λ old new. Stays old new × IsSettled new
            × Lists uuid (objects_of new) names) self.old self.new) }
        ensures err { OnErr result (Changes Stays self.old self.new) }
    {
        self.settle()?;
        let files = self.directory.names(alloc)?;
        stands(&mut self.directory)?;
        let names = names_of(alloc, &files, uuid)?;
        Ok(Names::from_vec(names))
    }

    /// Removes the file of an object, if there is one.
    pub(crate) fn remove(&mut self, name: &ObjName) -> Result<(), DirectoryError>
        requires { IsName name.now }
        ensures ok { OnOk result (Changes (RemovesForGood (spelling name.now)) self.old self.new) }
        ensures err { OnErr result (Changes (MayRemoveFile (spelling name.now)) self.old self.new) }
    {
        let spelled = name.print(self.alloc)?;
        drop(self.open.pop(name));
        match remove_file(&mut self.directory, &mut self.sync_error, spelled.as_str()) {
            Ok(()) => {
                self.is_unsynced = false;
                Ok(())
            }
            Err(error) => {
                self.is_unsynced = true;
                Err(DirectoryError::System(error))
            }
        }
    }

    /// Removes the files that puts left under their temporary names, other than those of a put that is under
    /// way.
    pub(crate) fn clear(&mut self) -> Result<(), DirectoryError>
        ensures { Changes Clears self.old self.new }
    {
        clear_all(&mut self.directory, self.alloc)?;
        Ok(())
    }

    // Syncs the directory, if names of objects may have changed since it was synced.
    fn settle(&mut self) -> io::Result<()>
        ensures ok { OnOk result (Changes (λ old new. Stays old new × IsSettled new) self.old self.new) }
        ensures err { OnErr result (Changes Stays self.old self.new) }
    {
        if self.is_unsynced {
            sync_unless(&mut self.directory, &mut self.sync_error)?;
            self.is_unsynced = false;
        }
        Ok(())
    }
}

// An object's file, open to be read.
#[derive(Drop)]
struct OpenObject<F> {
    file: F,
    len: u64,
}

// Opens the file under a name to be read.
fn open_file<D: Directory>(directory: &mut D, name: &str) -> io::Result<OpenObject<D::File>>
    ensures { Changes IsLeft (D.state directory.old) (D.state directory.new) }
{
    let Some(file) = directory.open(name)? else {
        return Err(io::Error::from_raw_os_error(libc::ENOENT));
    };
    match directory.size(&file) {
        Ok(len) => Ok(OpenObject { file, len }),
        Err(error) => {
            drop(file);
            Err(error)
        }
    }
}

// Reads the bytes of an object of `len` bytes from `from` on.
fn read_object<D: Directory>(
    directory: &mut D,
    object: &OpenObject<D::File>,
    len: u64,
    from: u64,
    buf: &mut [u8],
) -> io::Result<()>
    ensures { D.state directory.new ≡ D.state directory.old }
{
    if object.len != len {
        return Err(io::Error::new(ErrorKind::InvalidData, "the object has another length"));
    }
    directory.read(&object.file, from, buf)
}

// The names of a volume's objects that are among names of files, in ascending order.
fn names_of(alloc: Global, files: &FileNames, uuid: Uuid) -> Result<Vec<ObjName>, AllocError>
    ensures names { IfOk result (λ names. AreNamesOf uuid names.items) }
    ensures same { IfOk result (λ names. (name : ObjName) → IsName name → name.uuid ≡ uuid
        → (Contains names.items name ↔ Contains files.now (spelling name))) }
{
    let mut names = BTreeSet::new(alloc);
    for file in files.as_slice() {
        if let Some(name) = name_in(file.as_str(), uuid) {
            names.insert(name)?;
        }
    }
    let listed = listed(alloc, &names);
    drop(names);
    listed
}

// The object of a volume that has this name in a directory. None is for any other name.
fn name_in(file: &str, uuid: Uuid) -> Option<ObjName>
    ensures found { IfSome result (λ name. IsName name × (name.uuid ≡ uuid) × (file.now ≡ spelling name)) }
    ensures none { IfNone result ((name : ObjName) → IsName name → name.uuid ≡ uuid
        → file.now ≡ spelling name → ⊥) }
{
    let name = ObjName::parse(file)?;
    if name.uuid != uuid {
        return None;
    }
    Some(name)
}

// The names of a set, in ascending order.
fn listed(alloc: Global, names: &BTreeSet<ObjName>) -> Result<Vec<ObjName>, AllocError>
    ensures names { IfOk result (λ listed. listed.items ≡ names.now.keys) }
    ensures ascending { IsStrictlySortedBy name_cmp names.now.keys }
{
    names.iter().copied().collect(alloc)
}

// Removes the files that puts left.
fn clear_all<D: Directory>(directory: &mut D, alloc: Global) -> io::Result<()>
    ensures { Changes Sweeps (D.state directory.old) (D.state directory.new) }
{
    let files = directory.names(alloc)?;
    clear_listed(directory, files.as_slice())
}

// Removes those of these files that puts left.
fn clear_listed<D: Directory>(directory: &mut D, files: &[String]) -> io::Result<()>
    ensures { Changes Sweeps (D.state directory.old) (D.state directory.new) }
{
    for file in files {
        clear_if_left(directory, file.as_str())?;
    }
    Ok(())
}

// Removes a file, if it has a name that a put gave it and is not locked.
fn clear_if_left<D: Directory>(directory: &mut D, file: &str) -> io::Result<()>
    ensures { Changes Sweeps (D.state directory.old) (D.state directory.new) }
{
    let Some(_) = object_of_temporary(file) else {
        return Ok(());
    };
    let Some(opened) = open_unlocked(directory, file)? else {
        return Ok(());
    };
    // It is locked until it is gone.
    let removed = directory.remove(file);
    drop(opened);
    removed?;
    Ok(())
}

// Opens a file, if there is one that no other open has locked, and locks it.
fn open_unlocked<D: Directory>(directory: &mut D, file: &str) -> io::Result<Option<D::File>>
    ensures ok { IfOk result (λ opened. Changes (IsAsked file.now (is_some opened))
        (D.state directory.old) (D.state directory.new)) }
    ensures err { OnErr result (Changes IsLeft (D.state directory.old) (D.state directory.new)) }
{
    if !is_file(directory, file)? {
        return Ok(None);
    }
    let Some(opened) = directory.open(file)? else {
        return Ok(None);
    };
    if directory.lock(&opened).unwrap_or(false) {
        return Ok(Some(opened));
    }
    drop(opened);
    Ok(None)
}

// Whether a name leads to a file. Something else was left by no put, and is not opened: at a pipe that may
// wait forever.
fn is_file<D: Directory>(directory: &mut D, name: &str) -> io::Result<bool>
    ensures { Changes IsLeft (D.state directory.old) (D.state directory.new) }
{
    match directory.length(name) {
        Ok(len) => Ok(len.is_some()),
        Err(error) if error.kind() == ErrorKind::InvalidInput => Ok(false),
        Err(error) => Err(error),
    }
}

/// The name of an object's file until it is whole, as a store with this mark makes it. The one error is that
/// memory ran out.
pub(crate) fn temporary_name(alloc: Global, name: &str, mark: u64) -> Result<String, AllocError>
    ensures { IfOk result (λ temporary. string_bytes temporary ≡ name.now ++ ending_of mark) }
{
    format!(in alloc; "{name}.{mark:016x}.put")
}

// How many bytes `ending_of` has.
const ENDING_BYTES: usize = 21;

// The object that a file with a temporary name was to be.
fn object_of_temporary(file: &str) -> Option<ObjName>
    ensures { IfSome result (λ name. IsTemporaryOf name file.now) }
{
    let (spelled, ending) = file.split_at_checked(file.len().checked_sub(ENDING_BYTES)?)?;
    let name = ObjName::parse(spelled)?;
    is_ending(ending.as_bytes()).then_some(name)
}

// Whether this is what `ending_of` gives for a mark.
fn is_ending(bytes: &[u8]) -> bool {
    match bytes {
        [b'.', mark @ .., b'.', b'p', b'u', b't'] => mark
            .iter()
            .all(|byte| byte.is_ascii_hexdigit()),
        _ => false,
    }
}
