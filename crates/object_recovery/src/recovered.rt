ghost use Rattle.std.specs.Prelude.{◌≡◌, IfErr, OnOk};
ghost use Rattle.lsvd_objstore.specs.Store.{StoreState, Becomes};
ghost use Rattle.lsvd_fault.specs.Faults.{Counts};
ghost use Rattle.object_recovery.specs.Faults.{ends_by_fault, IsNoAnswer};
ghost use Rattle.object_recovery.specs.State.{RecoveredState, HasAllNames, IsGreatestNumber};
ghost use Rattle.object_recovery.specs.Removal.{Removes};
ghost use Rattle.object_recovery.specs.Recovery.{IsPastOf, RemovesAllPast};

use crate::error::RecoverError;
use crate::removal::{greatest_number, remove_past};
use lsvd_objstore::{Names, Receipt, Store};
use obj_log::ObjLog;
use std::alloc::Global;
use std::marker::Model;

/// What a recovery found of a volume: its list, and which objects the store has of it.
#[derive(Drop)]
pub struct Recovered<R: Receipt> {
    pub(crate) log: ObjLog<R>,
    pub(crate) checkpoint: u64,
    pub(crate) names: Names,
}

impl<R: Receipt> Model for Recovered<R> {
    ghost use Rattle.object_recovery.specs.State.{RecoveredState};

    ghost Value = { RecoveredState };

    ghost view = { λ r. record { log = r.log; checkpoint = r.checkpoint; names = r.names } };
}

impl<R: Receipt> Recovered<R> {
    /// The list, up to the object before the first missing number.
    pub fn log(&self) -> &ObjLog<R>
        ensures { result.now ≡ self.now.log }
    {
        &self.log
    }

    /// The number of the checkpoint that the list begins with.
    pub fn checkpoint(&self) -> u64
        ensures { result ≡ self.now.checkpoint }
    {
        self.checkpoint
    }

    /// The greatest number of an object that the store had of the volume when it was recovered; that of the
    /// list's last where none is greater.
    pub fn greatest_number(&self) -> u64
        ensures { IsGreatestNumber self.now.names self.now.log.uploads.window.last result }
    {
        greatest_number(self.names.as_slice(), self.log.uploads().last())
    }

    /// Removes the objects of the volume past the list's last. The store has the same objects of the volume
    /// as when they were recovered (a condition). The two errors are that a call of the store failed, which
    /// was counted by it, and that memory ran out. Some of the objects may be removed then, and a new
    /// recovery finds the same list.
    pub fn remove_past<S: Store>(&self, alloc: Global, store: &mut S) -> Result<(), RecoverError>
        requires { HasAllNames (S.state store.old).objects self.now }
        ensures removed { OnOk result (Becomes
            (RemovesAllPast self.now.log.uploads.uuid self.now.log.uploads.window.last)
            (S.state store.old).objects (S.state store.new).objects) }
        ensures some { Becomes (Removes (IsPastOf self.now.log.uploads.uuid self.now.log.uploads.window.last))
            (S.state store.old).objects (S.state store.new).objects }
        ensures answer { IfErr result IsNoAnswer }
        ensures faults { Counts (ends_by_fault result) (S.state store.old).faults (S.state store.new).faults }
    {
        remove_past(
            alloc,
            store,
            self.log.uploads().last(),
            self.names.as_slice(),
        )
    }

    /// The list alone.
    pub fn into_log(self) -> ObjLog<R>
        ensures { result ≡ self.log }
    {
        self.log
    }
}
