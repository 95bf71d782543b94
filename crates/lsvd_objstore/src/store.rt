ghost use Rattle.std.specs.Prelude.{◌≡◌, ◌+◌, ◌≤◌, length, take, drop, option_map, IsTrue, IfOk, IfSome};
ghost use Rattle.std.specs.Prelude.{OnOk, OnErr, IsErrOf, is_err, ◌↔◌, Bool, List, Option, None};
ghost use Rattle.std.specs.Option.{is_some};
ghost use Rattle.lsvd_names.specs.Spelling.{IsName};
ghost use Rattle.lsvd_objstore.specs.Objects.{IsPut, MayBePut, IsRemoved, MayBeRemoved, AreNamesOf, Lists};
ghost use Rattle.lsvd_objstore.specs.Store.{StoreState, ReceiptState, IsReceiptOf};
ghost use Rattle.lsvd_objstore.specs.Store.{StoreCall, Put, Remove, Get};
ghost use Rattle.lsvd_objstore.specs.Store.{IsAskedOnce, OnlyCounts, Becomes, has_failed, Finds};
ghost use Rattle.lsvd_fault.specs.Faults.{Counts};

use crate::error::StoreError;
use crate::names::Names;
use lsvd_base::ObjectBytes;
use lsvd_fault::Failed;
use lsvd_names::ObjName;
use std::alloc::{AllocError, Global};
use uuid::Uuid;

/// What a store gives for an object: it stands for the bytes that the object had when it was put or found,
/// whatever is put or removed later.
pub trait Receipt: Drop {
    /// The name, the length, and the bytes where it tells them.
    ghost state: { Self → ReceiptState };

    /// Whether receipts of this kind tell the bytes.
    ghost tells: { Bool };

    /// The name of the object.
    fn name(&self) -> ObjName
        ensures { result ≡ (state self.now).name };

    /// How many bytes the object had.
    fn len(&self) -> u64
        ensures { result ≡ (state self.now).size };

    /// The same receipt again. The one error is that memory ran out.
    fn copy(&self, alloc: Global) -> Result<Self, AllocError>
        ensures { IfOk result (λ receipt. state receipt ≡ state self.now) };

    /// Whether both stand for the same object: one name, one length, and the same bytes, where they tell
    /// them. A receipt of a directory does not tell two objects apart that have one name and one length.
    fn same(&self, other: &Self) -> bool
        ensures { IsTrue result ↔ (state self.now ≡ state other.now) };

    /// Where it tells the bytes, its length is theirs.
    ghost told_whole: { (receipt : Self)
        → IfSome (state receipt).told (λ told. (state receipt).size ≡ length told) };

    /// All receipts of this kind tell the bytes, or none does.
    ghost told_alike: { (receipt : Self) → is_some (state receipt).told ≡ tells };
}

/// A store of objects under names. A put takes effect whole or not at all, and an object is never changed but
/// by another put of its name, or its removal.
pub trait Store {
    /// What stands for an object of this store.
    type Receipt: Receipt;

    /// What it holds, where it tells that, and its count of faults.
    ghost state: { Self → StoreState };

    /// The gets that were asked of it, the newest first, where it tells them.
    ghost gets: { Self → Option (List StoreCall) } = { λ _. None };

    /// Puts an object, in place of one with its name. The name is one (a condition). `Failed` comes where the
    /// put was not acknowledged: what was there stands, or the whole new object; the fault was counted.
    /// `OutOfMemory` comes where memory ran out, and nothing changed.
    fn put(
        &mut self,
        alloc: Global,
        name: &ObjName,
        bytes: &ObjectBytes,
    ) -> Result<Self::Receipt, StoreError>
        requires { IsName name.now }
        ensures put { OnOk result (Becomes (IsPut name.now bytes.now) (state self.old).objects
            (state self.new).objects) }
        ensures receipt { IfOk result (λ receipt. IsReceiptOf name.now bytes.now
            (Self.Receipt.state receipt)) }
        ensures failed { IsErrOf result StoreError.Failed
            → Becomes (MayBePut name.now bytes.now) (state self.old).objects (state self.new).objects }
        ensures unchanged { IsErrOf result StoreError.OutOfMemory → state self.new ≡ state self.old }
        ensures asked { (IsErrOf result StoreError.OutOfMemory → ⊥)
            → IsAskedOnce (Put name.now bytes.now) (state self.old).asked (state self.new).asked }
        ensures count { Counts (has_failed result) (state self.old).faults (state self.new).faults };

    /// Reads the bytes that the receipt stands for, from `from` on, into the whole of `buf`. They are some of
    /// its bytes (a condition). `Failed` comes where they could not be read; the fault was counted, and any
    /// bytes stand in `buf`.
    fn get(&mut self, receipt: &Self::Receipt, from: u64, buf: &mut [u8]) -> Result<(), Failed>
        requires { from + length buf.old ≤ (Self.Receipt.state receipt.now).size }
        ensures bytes { OnOk result (IfSome (Self.Receipt.state receipt.now).told
            (λ told. buf.new ≡ take (length buf.old) (drop from told))) }
        ensures asked { IsAskedOnce (Get (Self.Receipt.state receipt.now).name from (length buf.old))
            (gets self.old) (gets self.new) }
        ensures unchanged { OnlyCounts (state self.old) (state self.new) }
        ensures count { Counts (is_err result) (state self.old).faults (state self.new).faults };

    /// Finds the object with a name; None is where there is none. The name is one (a condition). `Failed`
    /// comes where the store could not be asked, and the fault was counted. `OutOfMemory` comes where memory
    /// ran out.
    fn find(&mut self, alloc: Global, name: &ObjName) -> Result<Option<Self::Receipt>, StoreError>
        requires { IsName name.now }
        ensures found { IfOk result (λ receipt. Finds name.now (state self.old).objects
            (option_map Self.Receipt.state receipt)) }
        ensures unchanged { OnlyCounts (state self.old) (state self.new) }
        ensures count { Counts (has_failed result) (state self.old).faults (state self.new).faults };

    /// The names of a volume's objects, each once, in ascending order: by kind, then by number. `Failed`
    /// comes where the store could not be asked, and the fault was counted. `OutOfMemory` comes where memory
    /// ran out.
    fn list(&mut self, alloc: Global, uuid: Uuid) -> Result<Names, StoreError>
        ensures names { IfOk result (AreNamesOf uuid) }
        ensures listed { IfOk result (λ names. IfSome (state self.old).objects
            (λ objects. Lists uuid objects names)) }
        ensures unchanged { OnlyCounts (state self.old) (state self.new) }
        ensures count { Counts (has_failed result) (state self.old).faults (state self.new).faults };

    /// Removes the object with the receipt's name, whichever has it now; where none has, nothing changes.
    /// `Failed` comes where the removal was not acknowledged: what was there stands, or nothing; the fault
    /// was counted.
    fn remove(&mut self, receipt: &Self::Receipt) -> Result<(), Failed>
        ensures removed { OnOk result (Becomes (IsRemoved (Self.Receipt.state receipt.now).name)
            (state self.old).objects (state self.new).objects) }
        ensures failed { OnErr result (Becomes (MayBeRemoved (Self.Receipt.state receipt.now).name)
            (state self.old).objects (state self.new).objects) }
        ensures asked { IsAskedOnce (Remove (Self.Receipt.state receipt.now).name) (state self.old).asked
            (state self.new).asked }
        ensures count { Counts (is_err result) (state self.old).faults (state self.new).faults };

    /// How many calls have failed since the store was made. At `u64::MAX` the count stands.
    fn faults(&self) -> u64
        ensures { result ≡ (state self.now).faults };
}
