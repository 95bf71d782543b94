ghost use Rattle.std.specs.Prelude.{◌≡◌, false, [], IfOk, OnOk, OnErr};
ghost use Rattle.lsvd_names.specs.Spelling.{IsName};
ghost use Rattle.std.specs.BTreeMap.{IsOrdered};
ghost use Rattle.std.specs.BTreeMap.Range.{entries_between};
ghost use Rattle.std.specs.Map.{keys_of};
ghost use Rattle.std.specs.Ordering.{is_gt};
ghost use Rattle.std.specs.declared.ops.Bound.TheVariants.{Included};
ghost use Rattle.lsvd_objstore.specs.Objects.{name_cmp, IsPut, AreNamesOf, Lists};
ghost use Rattle.lsvd_objstore.specs.Memory.{HaveNames, first_name_of, last_name_of};

use crate::error::StoreError;
use crate::names::Names;
use crate::store::{Receipt, Store};
use lsvd_base::ObjectBytes;
use lsvd_fault::Failed;
use lsvd_names::{NameKind, ObjName};
use std::alloc::{AllocError, Global};
use std::collections::BTreeMap;
use std::marker::Model;
use uuid::Uuid;

/// A receipt of a store in memory: it keeps the bytes of the object, which it shares with the store.
#[derive(Debug, Drop)]
pub struct MemReceipt {
    name: ObjName,
    bytes: ObjectBytes,
}

impl Model for MemReceipt {
    ghost use Rattle.lsvd_objstore.specs.Memory.{Kept};

    ghost Value = { Kept };

    ghost view = { λ r. record { name = r.name; bytes = r.bytes } };
}

impl Receipt for MemReceipt {
    ghost use Rattle.std.specs.Prelude.{◌≡◌, true};
    ghost use Rattle.std.proofs.Common.{refl, ap};
    ghost use Rattle.lsvd_objstore.specs.Memory.{Kept, told_receipt};

    ghost state = { told_receipt };

    fn name(&self) -> ObjName {
        self.name
    }

    fn len(&self) -> u64 {
        self.bytes.len()
    }

    fn copy(&self, _alloc: Global) -> Result<MemReceipt, AllocError> {
        let bytes = self.bytes.share()?;
        Ok(MemReceipt {
            name: self.name,
            bytes,
        })
    }

    fn same(&self, other: &MemReceipt) -> bool {
        self.name == other.name && self.bytes == other.bytes
    }

    ghost told_whole = { λ _. refl };

    ghost tells = { true };

    ghost told_alike = { λ _. refl };
}

/// A store in memory. It tells what it holds, and none of its calls fails, other than where memory ran out.
#[derive(Drop)]
pub struct MemStore {
    objects: BTreeMap<ObjName, ObjectBytes>,
}

impl Model for MemStore {
    ghost use Rattle.lsvd_objstore.specs.Objects.{Objects};
    ghost use Rattle.lsvd_objstore.specs.Memory.{HaveNames};

    ghost Value = { Objects };

    ghost view = { λ s. s.objects.entries };

    ghost invariant = { λ s. HaveNames s.objects.entries };
}

impl MemStore {
    /// A store that holds nothing.
    pub fn new(alloc: Global) -> MemStore
        ensures { result ≡ [] }
    {
        MemStore {
            objects: BTreeMap::new(alloc),
        }
    }
}

impl Store for MemStore {
    ghost use Rattle.lsvd_objstore.specs.Memory.{told_state};

    type Receipt = MemReceipt;

    ghost state = { told_state };

    fn put(
        &mut self,
        _alloc: Global,
        name: &ObjName,
        bytes: &ObjectBytes,
    ) -> Result<MemReceipt, StoreError> {
        let receipt = MemReceipt {
            name: *name,
            bytes: bytes.share()?,
        };
        let Ok(kept) = bytes.share() else {
            drop(receipt);
            return Err(StoreError::OutOfMemory);
        };
        if let Err(error) = keep(&mut self.objects, *name, kept) {
            drop(receipt);
            return Err(error.into());
        }
        Ok(receipt)
    }

    fn get(&mut self, receipt: &MemReceipt, from: u64, buf: &mut [u8]) -> Result<(), Failed> {
        let from = from as usize;
        let part = &receipt.bytes.as_bytes()[from..from + buf.len()];
        buf.copy_from_slice(part);
        Ok(())
    }

    fn find(&mut self, _alloc: Global, name: &ObjName) -> Result<Option<MemReceipt>, StoreError> {
        let Some(bytes) = self.objects.get(name) else {
            return Ok(None);
        };
        let bytes = bytes.share()?;
        Ok(Some(MemReceipt { name: *name, bytes }))
    }

    fn list(&mut self, alloc: Global, uuid: Uuid) -> Result<Names, StoreError> {
        let names = names_of(alloc, &self.objects, uuid)?;
        Ok(Names::from_vec(names))
    }

    fn remove(&mut self, receipt: &MemReceipt) -> Result<(), Failed> {
        self.objects.remove(&receipt.name);
        Ok(())
    }

    fn faults(&self) -> u64 {
        0
    }
}

// Keeps an object, in place of one with its name.
fn keep(
    objects: &mut BTreeMap<ObjName, ObjectBytes>,
    name: ObjName,
    bytes: ObjectBytes,
) -> Result<(), AllocError>
    requires name { IsName name }
    requires names { HaveNames objects.old.entries }
    ensures put { OnOk result (IsPut name bytes objects.old.entries objects.new.entries) }
    ensures err { OnErr result (objects.new.entries ≡ objects.old.entries) }
    ensures names { HaveNames objects.new.entries }
{
    objects.insert(name, bytes)?;
    Ok(())
}

// The names of a volume's objects, in ascending order.
fn names_of(
    alloc: Global,
    objects: &BTreeMap<ObjName, ObjectBytes>,
    uuid: Uuid,
) -> Result<Vec<ObjName>, AllocError>
    requires { HaveNames objects.now.entries }
    ensures names { IfOk result (λ names. AreNamesOf uuid names.items) }
    ensures listed { IfOk result (λ names. Lists uuid objects.now.entries names.items) }
{
    let names = names_between(alloc, objects, first_name(uuid), last_name(uuid))?;
    Ok(names)
}

// The names of the objects from the first to the last.
fn names_between(
    alloc: Global,
    objects: &BTreeMap<ObjName, ObjectBytes>,
    first: ObjName,
    last: ObjName,
) -> Result<Vec<ObjName>, AllocError>
    requires { is_gt (name_cmp first last) ≡ false }
    ensures between { IfOk result (λ names. names.items
        ≡ keys_of (entries_between name_cmp (Included first) (Included last) objects.now.entries)) }
    ensures ordered { IsOrdered name_cmp objects.now }
{
    objects
        .range(first..=last)
        .map(|(name, _)| *name)
        .collect(alloc)
}

// The first name that an object of the volume may have.
fn first_name(uuid: Uuid) -> ObjName
    ensures { result ≡ first_name_of uuid }
{
    ObjName {
        uuid,
        kind: NameKind::Super,
        number: 0,
    }
}

// The last one.
fn last_name(uuid: Uuid) -> ObjName
    ensures { result ≡ last_name_of uuid }
{
    ObjName {
        uuid,
        kind: NameKind::Hold,
        number: u64::MAX,
    }
}
