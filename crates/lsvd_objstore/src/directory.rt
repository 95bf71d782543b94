ghost use Rattle.std.specs.Prelude.{◌≡◌, ◌<◌, ◌↔◌, option_map, IfOk, IfSome, OnOk, OnErr, IsErrOf, IsSome};
ghost use Rattle.std.specs.Prelude.{false, is_err};
ghost use Rattle.std.specs.Result.{result_ok};
ghost use Rattle.lsvd_fault.specs.Faults.{Counts, CountsOne};
ghost use Rattle.lsvd_files.specs.Calls.{Changes};
ghost use Rattle.lsvd_files.specs.Kept.{Stays};
ghost use Rattle.lsvd_names.specs.Spelling.{IsName, spelling};
ghost use Rattle.lsvd_objstore.specs.Objects.{IsPut, MayBePut, IsRemoved, MayBeRemoved, AreNamesOf, Lists};
ghost use Rattle.lsvd_objstore.specs.Store.{Put, Remove, IsReceiptOf, IsAskedOnce, OnlyCounts, Becomes};
ghost use Rattle.lsvd_objstore.specs.Store.{has_failed, Finds};
ghost use Rattle.lsvd_objstore.specs.Directory.{shelf_store, silent_shelf, silent_receipt, PutsObject};
ghost use Rattle.lsvd_objstore.specs.Directory.{MayPutObject};
ghost use Rattle.lsvd_objstore.specs.Directory.{RemovesForGood, MayRemoveFile, Clears, IsSettled};
ghost use Rattle.lsvd_objstore.specs.Placing.{IsTrusted};

use crate::error::StoreError;
use crate::names::Names;
use crate::object_files::{DirectoryError, ObjectFiles};
use crate::store::{Receipt, Store};
use lsvd_base::ObjectBytes;
use lsvd_fault::Failed;
use lsvd_files::{Directory, SystemDirectory};
use lsvd_names::ObjName;
use std::alloc::{AllocError, Global};
use std::io;
use std::marker::Model;
use std::random::RandomSource;
use uuid::Uuid;

/// What stands for an object of a directory: its name and its length. It tells no bytes; a read of it fails
/// where the object is gone, or another of another length has its name.
#[derive(Debug, Drop)]
pub struct DirReceipt {
    name: ObjName,
    len: u64,
}

impl Model for DirReceipt {
    ghost use Rattle.lsvd_names.specs.Spelling.{IsName};
    ghost use Rattle.lsvd_objstore.specs.Directory.{Filed};

    ghost Value = { Filed };

    ghost view = { λ r. record { name = r.name; size = r.len } };

    ghost invariant = { λ r. IsName r.name };
}

impl Receipt for DirReceipt {
    ghost use Rattle.std.specs.Prelude.{◌≡◌, false};
    ghost use Rattle.std.proofs.Common.{refl, ap};
    ghost use Rattle.lsvd_objstore.specs.Directory.{Filed, silent_receipt};

    ghost state = { silent_receipt };

    fn name(&self) -> ObjName {
        self.name
    }

    fn len(&self) -> u64 {
        self.len
    }

    fn copy(&self, _alloc: Global) -> Result<DirReceipt, AllocError> {
        Ok(DirReceipt {
            name: self.name,
            len: self.len,
        })
    }

    fn same(&self, other: &DirReceipt) -> bool {
        self.name == other.name && self.len == other.len
    }

    ghost told_whole = { λ _. tt };

    ghost tells = { false };

    ghost told_alike = { λ _. refl };
}

/// A store over a directory: each object is a file under the spelling of its name. Other files of the
/// directory are left alone. It tells its count of faults, and what it holds where its directory tells that;
/// one of the operating system does not.
///
/// A put or a removal that was acknowledged stays over a stop of the machine, and so does what a search or a
/// list tells. A put has a temporary name until its object is whole; what a stopped program left under such a
/// name is no object, and is there until `clear`. After a sync of the directory that failed each put,
/// removal, search and list fails.
#[derive(Drop)]
pub struct DirStore<D: Directory = SystemDirectory> {
    files: ObjectFiles<D>,
    /// What tells the temporary names of this store from those of any other.
    mark: u64,
    faults: u64,
    /// Why the last call that failed did.
    last_error: Option<io::Error>,
}

impl<D: Directory> Model for DirStore<D> {
    ghost use Rattle.std.specs.Prelude.{◌<◌, ◌↔◌, IsSome};
    ghost use Rattle.lsvd_objstore.specs.Directory.{Shelf};

    ghost Value = { Shelf };

    ghost view = { λ s. record { directory = s.files; faults = s.faults } };

    ghost invariant = { λ s. IsSome s.last_error ↔ (0 < s.faults) };
}

impl DirStore<SystemDirectory> {
    /// Opens the directory as a store, and makes it where it is absent; the directory above it has to be
    /// there.
    pub fn create(rt: &HostRuntime, path: &str) -> Result<DirStore<SystemDirectory>, DirectoryError>
        ensures { IfOk result (λ store. store ≡ silent_shelf 0) }
    {
        let files = ObjectFiles::new(rt.alloc(), SystemDirectory::create(rt, path)?)?;
        Ok(DirStore::of(files, new_mark(rt)?))
    }

    /// Opens a directory that there is as a store. One that is absent is refused.
    pub fn open(rt: &HostRuntime, path: &str) -> Result<DirStore<SystemDirectory>, DirectoryError>
        ensures { IfOk result (λ store. store ≡ silent_shelf 0) }
    {
        let files = ObjectFiles::new(rt.alloc(), SystemDirectory::open(rt, path)?)?;
        Ok(DirStore::of(files, new_mark(rt)?))
    }
}

// A mark that no other value has, as good as chance can tell.
fn new_mark(rt: &HostRuntime) -> io::Result<u64> {
    let mut mark = [0; 8];
    rt.fill_bytes(&mut mark)?;
    Ok(u64::from_le_bytes(mark))
}

impl<D: Directory + Drop> DirStore<D> {
    /// A store over a directory, which is synced: each name that it has stays over a stop then. No sync of it
    /// has failed yet (a condition). The mark tells the temporary names of this store from those of any
    /// other.
    pub fn over(alloc: Global, directory: D, mark: u64) -> Result<DirStore<D>, DirectoryError>
        requires { IsTrusted false (D.state directory) }
        ensures settled { IfOk result (λ store. Changes (λ old new. Stays old new × IsSettled new)
            (D.state directory) store.directory) }
        ensures faults { IfOk result (λ store. store.faults ≡ 0) }
    {
        let files = ObjectFiles::new(alloc, directory)?;
        Ok(DirStore::of(files, mark))
    }

    // A store of these files, of which no call has failed.
    fn of(files: ObjectFiles<D>, mark: u64) -> DirStore<D>
        ensures { result ≡ record { directory = files; faults = 0 } }
    {
        DirStore {
            files,
            mark,
            faults: 0,
            last_error: None,
        }
    }

    /// Removes what stopped puts left, of any volume, under temporary names. Objects, other files, and what a
    /// put that is under way has written are left alone.
    pub fn clear(&mut self) -> Result<(), StoreError>
        ensures cleared { Changes Clears self.old.directory self.new.directory }
        ensures unchanged { OnlyCounts (shelf_store self.old) (shelf_store self.new) }
        ensures count { Counts (has_failed result) self.old.faults self.new.faults }
    {
        let outcome = self.files.clear();
        self.judge(outcome)
    }

    /// Why the last call that failed did; None is where none has failed.
    pub fn last_error(&self) -> Option<io::Error>
        ensures { IsSome result ↔ (0 < self.now.faults) }
    {
        self.last_error
    }

    // Counts a fault, and keeps why it came.
    fn count(&mut self, error: io::Error) -> Failed
        ensures unchanged { self.new ≡ record self.old { faults = self.new.faults } }
        ensures count { CountsOne self.old.faults self.new.faults }
    {
        self.faults = self.faults.saturating_add(1);
        self.last_error = Some(error);
        Failed
    }

    // Tells want of memory apart, and counts any other failure.
    fn judge<T>(&mut self, outcome: Result<T, DirectoryError>) -> Result<T, StoreError>
        ensures unchanged { self.new ≡ record self.old { faults = self.new.faults } }
        ensures value { result_ok result ≡ result_ok outcome }
        ensures memory { IsErrOf result StoreError.OutOfMemory
            → IsErrOf outcome DirectoryError.OutOfMemory }
        ensures count { Counts (has_failed result) self.old.faults self.new.faults }
    {
        match outcome {
            Ok(value) => Ok(value),
            Err(DirectoryError::OutOfMemory) => Err(StoreError::OutOfMemory),
            Err(DirectoryError::System(error)) => Err(self.count(error).into()),
        }
    }
}

impl<D: Directory + Drop> Store for DirStore<D> {
    type Receipt = DirReceipt;

    ghost state = { shelf_store };

    // The name has a whole file for good then. After an error a stop leaves under it what it could leave
    // before, or the whole new object. No other name is touched but a temporary one.
    fn put(
        &mut self,
        alloc: Global,
        name: &ObjName,
        bytes: &ObjectBytes,
    ) -> Result<DirReceipt, StoreError>
        requires { IsName name.now }
        ensures put { OnOk result (Becomes (IsPut name.now bytes.now) (shelf_store self.old).objects
            (shelf_store self.new).objects) }
        ensures receipt { IfOk result (λ receipt. IsReceiptOf name.now bytes.now (silent_receipt receipt)) }
        ensures failed { IsErrOf result StoreError.Failed → Becomes (MayBePut name.now bytes.now)
            (shelf_store self.old).objects (shelf_store self.new).objects }
        ensures unchanged { IsErrOf result StoreError.OutOfMemory
            → shelf_store self.new ≡ shelf_store self.old }
        ensures asked { (IsErrOf result StoreError.OutOfMemory → ⊥)
            → IsAskedOnce (Put name.now bytes.now) (shelf_store self.old).asked
            (shelf_store self.new).asked }
        ensures count { Counts (has_failed result) (shelf_store self.old).faults
            (shelf_store self.new).faults }
        ensures durable { OnOk result (Changes (PutsObject name.now bytes.now) self.old.directory
            self.new.directory) }
        ensures in_doubt { OnErr result (Changes (MayPutObject name.now bytes.now) self.old.directory
            self.new.directory) }
    {
        let outcome = self.files.put(alloc, self.mark, name, bytes.as_bytes());
        self.judge(outcome)?;
        Ok(DirReceipt {
            name: *name,
            len: bytes.len(),
        })
    }

    fn get(&mut self, receipt: &DirReceipt, from: u64, buf: &mut [u8]) -> Result<(), Failed> {
        match self.files.read(&receipt.name, receipt.len, from, buf) {
            Ok(()) => Ok(()),
            Err(error) => Err(self.count(error.into())),
        }
    }

    // What is told outlasts a stop, and is of the directory that was opened.
    fn find(&mut self, alloc: Global, name: &ObjName) -> Result<Option<DirReceipt>, StoreError>
        requires { IsName name.now }
        ensures found { IfOk result (λ receipt. Finds name.now (shelf_store self.old).objects
            (option_map silent_receipt receipt)) }
        ensures unchanged { OnlyCounts (shelf_store self.old) (shelf_store self.new) }
        ensures count { Counts (has_failed result) (shelf_store self.old).faults
            (shelf_store self.new).faults }
        ensures settled { OnOk result (Changes (λ old new. Stays old new × IsSettled new) self.old.directory
            self.new.directory) }
    {
        let outcome = self.files.length(alloc, name);
        let Some(len) = self.judge(outcome)? else {
            return Ok(None);
        };
        Ok(Some(DirReceipt { name: *name, len }))
    }

    fn list(&mut self, alloc: Global, uuid: Uuid) -> Result<Names, StoreError>
        ensures names { IfOk result (AreNamesOf uuid) }
        ensures listed { IfOk result (λ names. IfSome (shelf_store self.old).objects
            (λ objects. Lists uuid objects names)) }
        ensures unchanged { OnlyCounts (shelf_store self.old) (shelf_store self.new) }
        ensures count { Counts (has_failed result) (shelf_store self.old).faults
            (shelf_store self.new).faults }
        ensures settled { OnOk result (Changes (λ old new. Stays old new × IsSettled new) self.old.directory
            self.new.directory) }
    {
        let outcome = self.files.names(alloc, uuid);
        self.judge(outcome)
    }

    fn remove(&mut self, receipt: &DirReceipt) -> Result<(), Failed>
        ensures removed { OnOk result (Becomes (IsRemoved receipt.now.name) (shelf_store self.old).objects
            (shelf_store self.new).objects) }
        ensures failed { OnErr result (Becomes (MayBeRemoved receipt.now.name)
            (shelf_store self.old).objects (shelf_store self.new).objects) }
        ensures asked { IsAskedOnce (Remove receipt.now.name) (shelf_store self.old).asked
            (shelf_store self.new).asked }
        ensures count { Counts (is_err result) (shelf_store self.old).faults (shelf_store self.new).faults }
        ensures durable { OnOk result (Changes (RemovesForGood (spelling receipt.now.name))
            self.old.directory self.new.directory) }
        ensures in_doubt { OnErr result (Changes (MayRemoveFile (spelling receipt.now.name))
            self.old.directory self.new.directory) }
    {
        match self.files.remove(&receipt.name) {
            Ok(()) => Ok(()),
            Err(error) => Err(self.count(error.into())),
        }
    }

    fn faults(&self) -> u64 {
        self.faults
    }
}
