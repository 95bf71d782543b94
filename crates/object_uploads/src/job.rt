ghost use Rattle.std.specs.Prelude.{◌≡◌, IfOk, IsErrOf, OnOk};
ghost use Rattle.lsvd_fault.specs.Faults.{Counts};
ghost use Rattle.lsvd_names.specs.Spelling.{IsName};
ghost use Rattle.lsvd_objstore.specs.Objects.{IsPut, MayBePut};
ghost use Rattle.lsvd_objstore.specs.Store.{Put, Becomes, IsAskedOnce, IsReceiptOf, has_failed};

use lsvd_base::ObjectBytes;
use lsvd_names::ObjName;
use lsvd_objstore::{Store, StoreError};
use std::alloc::Global;
use std::marker::Model;

/// A put that is to be made: an object and its name.
#[derive(Debug, Drop)]
pub struct Job {
    name: ObjName,
    object: ObjectBytes,
}

impl Model for Job {
    ghost use Rattle.lsvd_names.specs.Spelling.{IsName};
    ghost use Rattle.object_uploads.specs.State.{JobState};

    ghost Value = { JobState };

    ghost view = { λ j. record { name = j.name; bytes = j.object } };

    ghost invariant = { λ j. IsName j.name };
}

impl Job {
    // The put of an object under its name, which is one (a condition).
    pub(crate) fn new(name: ObjName, object: ObjectBytes) -> Job
        requires { IsName name }
        ensures { result ≡ record { name = name; bytes = object } }
    {
        Job { name, object }
    }

    /// The name of the object.
    pub fn name(&self) -> &ObjName
        ensures is { result.now ≡ self.now.name }
        ensures named { IsName result.now }
    {
        &self.name
    }

    /// Its bytes.
    pub fn object(&self) -> &ObjectBytes
        ensures { result.now ≡ self.now.bytes }
    {
        &self.object
    }

    /// Puts the object into a store, in place of one with its name, and answers what the store gave for it.
    /// `Failed` comes where the put was not acknowledged: what was there stands, or the whole new object; the
    /// store counted the fault. `OutOfMemory` comes where memory ran out, and nothing changed. After an error
    /// the job may be put again.
    pub fn put<S: Store>(&self, alloc: Global, store: &mut S) -> Result<S::Receipt, StoreError>
        ensures put { OnOk result (Becomes (IsPut self.now.name self.now.bytes) (S.state store.old).objects
            (S.state store.new).objects) }
        ensures receipt { IfOk result (λ receipt. IsReceiptOf self.now.name self.now.bytes
            (S.Receipt.state receipt)) }
        ensures failed { IsErrOf result StoreError.Failed → Becomes (MayBePut self.now.name self.now.bytes)
            (S.state store.old).objects (S.state store.new).objects }
        ensures unchanged { IsErrOf result StoreError.OutOfMemory → S.state store.new ≡ S.state store.old }
        ensures asked { (IsErrOf result StoreError.OutOfMemory → ⊥)
            → IsAskedOnce (Put self.now.name self.now.bytes) (S.state store.old).asked
            (S.state store.new).asked }
        ensures count { Counts (has_failed result) (S.state store.old).faults (S.state store.new).faults }
    {
        store.put(alloc, &self.name, &self.object)
    }

    // Gives its bytes back.
    pub(crate) fn into_object(self) -> ObjectBytes
        ensures { result ≡ self.bytes }
    {
        self.object
    }
}
