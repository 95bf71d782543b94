ghost use Rattle.std.specs.Prelude.{◌≡◌, ℕ, ◌+◌, ◌≤◌, length, take, drop, option_map, IfOk, IfSome, OnOk};
ghost use Rattle.std.specs.Prelude.{OnErr, IsErrOf, is_ok, is_err};
ghost use Rattle.lsvd_names.specs.Spelling.{IsName};
ghost use Rattle.lsvd_objstore.specs.Objects.{IsPut, MayBePut, IsRemoved, MayBeRemoved, AreNamesOf, Lists};
ghost use Rattle.lsvd_objstore.specs.Store.{Put, Remove, IsReceiptOf, IsAskedOnce, OnlyCounts, Becomes};
ghost use Rattle.lsvd_objstore.specs.Store.{has_failed};
ghost use Rattle.lsvd_objstore.specs.Store.{Finds};
ghost use Rattle.lsvd_fault.specs.Faults.{counted_with, Counts};
ghost use Rattle.lsvd_objstore.specs.Faulty.{FaultPlan, planned_at, planned_in, faulty_state, IsLost};
ghost use Rattle.lsvd_objstore.specs.Faulty.{LandsUnanswered};
ghost use Rattle.lsvd_objstore.specs.Faulty.{IsFaultyCall};

use crate::error::StoreError;
use crate::names::Names;
use crate::store::{Receipt, Store};
use lsvd_base::ObjectBytes;
use lsvd_fault::Failed;
use lsvd_names::ObjName;
use std::alloc::{AllocError, Global};
use std::collections::BTreeMap;
use std::marker::Model;
use uuid::Uuid;

/// A call of a store that is to fail.
#[derive(Clone, Copy, Debug, PartialEq, Eq)]
pub struct PlannedFault {
    /// Its number: 1 is the first call. Each put, get, find, list and remove counts as one.
    pub call: u64,
    /// Whether a put or a removal is done all the same, and only not acknowledged. Other calls are not made.
    pub lands: bool,
}

/// A store before which calls fail as planned. Every other call is passed on to the store under it.
///
/// A planned call answers `Failed` and counts a fault. One that lands is made first; where the store under it
/// gives it no answer, that is the error, and counts there alone. The count of calls stands at `u64::MAX`.
#[derive(Drop)]
pub struct FaultStore<S: Store> {
    store: S,
    /// By a call's number, whether it lands.
    planned: BTreeMap<u64, bool>,
    /// How many calls came.
    calls: u64,
    /// How many of them failed as planned.
    failed: u64,
}

impl<S: Store> Model for FaultStore<S> {
    ghost use Rattle.lsvd_objstore.specs.Faulty.{FaultState};

    ghost Value = { FaultState };

    ghost view = { λ f. record {
      store = S.state f.store;
      plan = f.planned.entries;
      calls = f.calls;
      failed = f.failed;
    } };
}

impl<S: Store + Drop> FaultStore<S> {
    /// The store, before which these calls fail. Of two faults of one call the last counts. The one error is
    /// that memory ran out.
    pub fn new(
        alloc: Global,
        store: S,
        planned: &[PlannedFault],
    ) -> Result<FaultStore<S>, AllocError>
        ensures store { IfOk result (λ it. it.store ≡ S.state store) }
        ensures plan { IfOk result (λ it. (call : ℕ)
            → planned_at it.plan call ≡ planned_in planned.now call) }
        ensures calls { IfOk result (λ it. it.calls ≡ 0) }
        ensures failed { IfOk result (λ it. it.failed ≡ 0) }
    {
        let planned = plan_of(alloc, planned)?;
        Ok(FaultStore {
            store,
            planned,
            calls: 0,
            failed: 0,
        })
    }
}

impl<S: Store> FaultStore<S> {
    /// Gives the store under it back.
    pub fn into_store(self) -> S
        ensures { self.store ≡ S.state result }
    {
        self.store
    }
}

// The faults by their calls.
fn plan_of(alloc: Global, planned: &[PlannedFault]) -> Result<BTreeMap<u64, bool>, AllocError>
    ensures { IfOk result (λ plan. (call : ℕ) → planned_at plan.entries call ≡ planned_in planned.now call) }
{
    let mut plan = BTreeMap::new(alloc);
    for fault in planned {
        plan.insert(fault.call, fault.lands)?;
    }
    Ok(plan)
}

impl<S: Store> Store for FaultStore<S> {
    type Receipt = S::Receipt;

    ghost state = { faulty_state };

    fn put(
        &mut self,
        alloc: Global,
        name: &ObjName,
        bytes: &ObjectBytes,
    ) -> Result<S::Receipt, StoreError>
        requires { IsName name.now }
        ensures put { OnOk result (Becomes (IsPut name.now bytes.now) self.old.store.objects
            self.new.store.objects) }
        ensures receipt { IfOk result (λ receipt. IsReceiptOf name.now bytes.now (S.Receipt.state receipt)) }
        ensures failed { IsErrOf result StoreError.Failed
            → Becomes (MayBePut name.now bytes.now) self.old.store.objects self.new.store.objects }
        ensures unchanged { IsErrOf result StoreError.OutOfMemory
            → faulty_state self.new ≡ faulty_state self.old }
        ensures asked { (IsErrOf result StoreError.OutOfMemory → ⊥)
            → IsAskedOnce (Put name.now bytes.now) (faulty_state self.old).asked
            (faulty_state self.new).asked }
        ensures count { Counts (has_failed result) (faulty_state self.old).faults
            (faulty_state self.new).faults }
        ensures call { IsFaultyCall (has_failed result)
            (LandsUnanswered (is_ok result) (has_failed result) (IsPut name.now bytes.now) self.old self.new)
            self.old self.new }
    {
        match begin(&self.planned, &mut self.calls) {
            None => self.store.put(alloc, name, bytes),
            Some(lands) => {
                if lands {
                    self.store.put(alloc, name, bytes)?;
                }
                Err(fail(&mut self.failed).into())
            }
        }
    }

    fn get(&mut self, receipt: &S::Receipt, from: u64, buf: &mut [u8]) -> Result<(), Failed>
        requires { from + length buf.old ≤ (S.Receipt.state receipt.now).size }
        ensures bytes { OnOk result (IfSome (S.Receipt.state receipt.now).told
            (λ told. buf.new ≡ take (length buf.old) (drop from told))) }
        ensures unchanged { OnlyCounts (faulty_state self.old) (faulty_state self.new) }
        ensures count { Counts (is_err result) (faulty_state self.old).faults (faulty_state self.new).faults }
        ensures call { IsFaultyCall (is_err result) (IsLost (is_err result) self.old self.new) self.old
            self.new }
    {
        match begin(&self.planned, &mut self.calls) {
            None => self.store.get(receipt, from, buf),
            Some(_) => Err(fail(&mut self.failed)),
        }
    }

    fn find(&mut self, alloc: Global, name: &ObjName) -> Result<Option<S::Receipt>, StoreError>
        requires { IsName name.now }
        ensures found { IfOk result (λ receipt. Finds name.now self.old.store.objects
            (option_map S.Receipt.state receipt)) }
        ensures unchanged { OnlyCounts (faulty_state self.old) (faulty_state self.new) }
        ensures count { Counts (has_failed result) (faulty_state self.old).faults
            (faulty_state self.new).faults }
        ensures call { IsFaultyCall (has_failed result) (IsLost (has_failed result) self.old self.new)
            self.old self.new }
    {
        match begin(&self.planned, &mut self.calls) {
            None => self.store.find(alloc, name),
            Some(_) => Err(fail(&mut self.failed).into()),
        }
    }

    fn list(&mut self, alloc: Global, uuid: Uuid) -> Result<Names, StoreError>
        ensures names { IfOk result (AreNamesOf uuid) }
        ensures listed { IfOk result (λ names. IfSome self.old.store.objects
            (λ objects. Lists uuid objects names)) }
        ensures unchanged { OnlyCounts (faulty_state self.old) (faulty_state self.new) }
        ensures count { Counts (has_failed result) (faulty_state self.old).faults
            (faulty_state self.new).faults }
        ensures call { IsFaultyCall (has_failed result) (IsLost (has_failed result) self.old self.new)
            self.old self.new }
    {
        match begin(&self.planned, &mut self.calls) {
            None => self.store.list(alloc, uuid),
            Some(_) => Err(fail(&mut self.failed).into()),
        }
    }

    fn remove(&mut self, receipt: &S::Receipt) -> Result<(), Failed>
        ensures removed { OnOk result (Becomes (IsRemoved (S.Receipt.state receipt.now).name)
            self.old.store.objects self.new.store.objects) }
        ensures failed { OnErr result (Becomes (MayBeRemoved (S.Receipt.state receipt.now).name)
            self.old.store.objects self.new.store.objects) }
        ensures asked { IsAskedOnce (Remove (S.Receipt.state receipt.now).name) (faulty_state self.old).asked
            (faulty_state self.new).asked }
        ensures count { Counts (is_err result) (faulty_state self.old).faults (faulty_state self.new).faults }
        ensures call { IsFaultyCall (is_err result)
            (LandsUnanswered (is_ok result) (is_err result) (IsRemoved (S.Receipt.state receipt.now).name)
            self.old
            self.new) self.old self.new }
    {
        match begin(&self.planned, &mut self.calls) {
            None => self.store.remove(receipt),
            Some(lands) => {
                if lands {
                    self.store.remove(receipt)?;
                }
                Err(fail(&mut self.failed))
            }
        }
    }

    fn faults(&self) -> u64 {
        self.store.faults().saturating_add(self.failed)
    }
}

// Counts a call. Where it is to fail, the answer is whether it lands.
fn begin(planned: &BTreeMap<u64, bool>, calls: &mut u64) -> Option<bool>
    ensures calls { calls.new ≡ counted_with calls.old 1 }
    ensures fate { result ≡ planned_at planned.now.entries calls.new }
{
    *calls = calls.saturating_add(1);
    planned.get(&*calls).copied()
}

// Counts a planned fault.
fn fail(failed: &mut u64) -> Failed
    ensures { failed.new ≡ counted_with failed.old 1 }
{
    *failed = failed.saturating_add(1);
    Failed
}
