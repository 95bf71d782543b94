ghost use Rattle.std.specs.Prelude.{◌≡◌, ◌↔◌, ◌≤◌, ◌<◌, ◌++◌, ◌∷◌, [], IsTrue};
ghost use Rattle.std.specs.Prelude.{IfOk, IfErr, IfSome, OnOk};
ghost use Rattle.std.specs.BTreeSet.{contains};
ghost use Rattle.std.specs.List.{AllPairs, Contains};
ghost use Rattle.std.specs.List.Sorted.{IsStrictlyIncreasing, IsStrictlySortedBy};
ghost use Rattle.lsvd_fault.specs.Faults.{Counts};
ghost use Rattle.lsvd_objstore.specs.Store.{StoreState, ReceiptState, OnlyCounts};
ghost use Rattle.stopped_volume.specs.Store.{TellsBytes};
ghost use Rattle.object_recovery.specs.Faults.{ends_by_fault, IsNoAnswer};
ghost use Rattle.vol_check.specs.Report.{ComesBefore, HasCheckpointHeader, own_object};
ghost use Rattle.vol_check.specs.Steps.{object_cmp, Has, IsAway, IsFilterOf, IsNoneOf, IsNotIn, IsPartOf};

use crate::report::ObjectOfLevel;
use clone_chain::Chain;
use lsvd_names::ObjName;
use lsvd_objstore::{Receipt, Store};
use object_format::{Expected, Kind};
use object_recovery::{RecoverError, read_head};
use std::alloc::{AllocError, Global};
use std::collections::BTreeSet;
use uuid::Uuid;

/// Those of ascending numbers that are past one. The one error is out of memory.
pub(crate) fn numbers_past(
    alloc: Global,
    numbers: &[u64],
    last: u64,
) -> Result<Vec<u64>, AllocError>
    requires { IsStrictlyIncreasing numbers.now }
    ensures { IfOk result (λ list. IsFilterOf numbers.now (λ number. last < number) list.items) }
{
    numbers
        .iter()
        .copied()
        .filter(|number| last < *number)
        .collect(alloc)
}

/// Those of ascending numbers that are below one and whose objects of the volume's own are not named. The one
/// error is out of memory.
pub(crate) fn unnamed_below(
    alloc: Global,
    numbers: &[u64],
    named: &BTreeSet<ObjectOfLevel>,
    below: u64,
) -> Result<Vec<u64>, AllocError>
    requires { IsStrictlyIncreasing numbers.now }
    ensures { IfOk result (λ list. IsFilterOf numbers.now
        (λ number. (number < below) × (Has named.now (own_object number) → ⊥)) list.items) }
{
    let mut list = Vec::new(alloc);
    for number in numbers {
        if *number < below && !has_own(named, *number) {
            put_last(&mut list, *number)?;
        }
    }
    Ok(list)
}

// Whether the volume's own object with this number is one of a set.
fn has_own(named: &BTreeSet<ObjectOfLevel>, number: u64) -> bool
    ensures { result ≡ contains object_cmp named.now (own_object number) }
{
    let object = ObjectOfLevel { level: 0, number };
    named.contains(&object)
}

/// Those of the named objects that are absent, in their order: of the volume's own objects those whose number
/// is none of these, and of the ancestors' objects those that the store does not have. The errors are
/// `StoreFault`, where a call of the store failed, which the store counted, and `OutOfMemory`.
pub(crate) fn missing_of<S: Store>(
    alloc: Global,
    store: &mut S,
    chain: &Chain,
    named: &BTreeSet<ObjectOfLevel>,
    numbers: &[u64],
) -> Result<Vec<ObjectOfLevel>, RecoverError>
    ensures told { IfOk result (λ list. IfSome (S.state store.old).objects (λ objects.
        IsPartOf (Has named.now) (IsAway (IsNoneOf numbers.now) objects chain.now) list.items)) }
    ensures answer { IfErr result IsNoAnswer }
    ensures unchanged { OnlyCounts (S.state store.old) (S.state store.new) }
    ensures faults { Counts (ends_by_fault result) (S.state store.old).faults (S.state store.new).faults }
{
    let there: BTreeSet<u64> = numbers.iter().copied().collect(alloc)?;
    let objects = listed(alloc, named)?;
    absent_among(alloc, store, chain, &there, objects.as_slice())
}

// The objects of a set, in ascending order.
fn listed(alloc: Global, named: &BTreeSet<ObjectOfLevel>) -> Result<Vec<ObjectOfLevel>, AllocError>
    ensures objects { IfOk result (λ listed. listed.items ≡ named.now.keys) }
    ensures ascending { IsStrictlySortedBy object_cmp named.now.keys }
{
    named.iter().copied().collect(alloc)
}

// Those of ascending objects that are absent, where these are the numbers of the volume's own objects.
fn absent_among<S: Store>(
    alloc: Global,
    store: &mut S,
    chain: &Chain,
    there: &BTreeSet<u64>,
    objects: &[ObjectOfLevel],
) -> Result<Vec<ObjectOfLevel>, RecoverError>
    requires { AllPairs ComesBefore objects.now }
    ensures told { IfOk result (λ list. IfSome (S.state store.old).objects (λ known.
        IsPartOf (Contains objects.now) (IsAway (IsNotIn there.now) known chain.now) list.items)) }
    ensures answer { IfErr result IsNoAnswer }
    ensures unchanged { OnlyCounts (S.state store.old) (S.state store.new) }
    ensures faults { Counts (ends_by_fault result) (S.state store.old).faults (S.state store.new).faults }
{
    let mut list = Vec::new(alloc);
    for object in objects {
        if is_absent(alloc, store, chain, there, object)? {
            put_object(&mut list, *object)?;
        }
    }
    Ok(list)
}

// Puts an object behind those of a list.
fn put_object(list: &mut Vec<ObjectOfLevel>, object: ObjectOfLevel) -> Result<(), AllocError>
    ensures { OnOk result (list.new.items ≡ list.old.items ++ object ∷ []) }
{
    list.push(object)?;
    Ok(())
}

// Whether an object is absent, where these are the numbers of the volume's own objects. One of a level that
// the volume has not is none.
fn is_absent<S: Store>(
    alloc: Global,
    store: &mut S,
    chain: &Chain,
    there: &BTreeSet<u64>,
    object: &ObjectOfLevel,
) -> Result<bool, RecoverError>
    ensures told { IfOk result (λ absent. IfSome (S.state store.old).objects (λ objects.
        IsTrue absent ↔ IsAway (IsNotIn there.now) objects chain.now object.now)) }
    ensures answer { IfErr result IsNoAnswer }
    ensures unchanged { OnlyCounts (S.state store.old) (S.state store.new) }
    ensures faults { Counts (ends_by_fault result) (S.state store.old).faults (S.state store.new).faults }
{
    if object.level == 0 {
        return Ok(!there.contains(&object.number));
    }
    let Some(ancestor) = chain.ancestor(object.level) else {
        return Ok(false);
    };
    let name = ObjName::object(ancestor.uuid, object.number);
    let receipt = store.find(alloc, &name)?;
    Ok(receipt.is_none())
}

/// Those of ascending numbers that are no greater than the last one and whose object's header is that of a
/// checkpoint. Each object's header is read alone. One that is absent is none. The errors are `StoreFault`,
/// where a call of the store failed, which the store counted, and `OutOfMemory`.
pub(crate) fn checkpoints_among<S: Store>(
    alloc: Global,
    store: &mut S,
    volume: &Expected,
    numbers: &[u64],
    last: u64,
) -> Result<Vec<u64>, RecoverError>
    requires { IsStrictlyIncreasing numbers.now }
    ensures told { TellsBytes S.Receipt.state
        → IfOk result (λ list. IfSome (S.state store.old).objects (λ objects. IsFilterOf numbers.now
        (λ number. (number ≤ last) × HasCheckpointHeader volume.now objects number) list.items)) }
    ensures answer { IfErr result IsNoAnswer }
    ensures unchanged { OnlyCounts (S.state store.old) (S.state store.new) }
    ensures faults { Counts (ends_by_fault result) (S.state store.old).faults (S.state store.new).faults }
{
    let mut list = Vec::new(alloc);
    for number in numbers {
        if *number <= last && has_checkpoint_header(alloc, store, volume, *number)? {
            put_last(&mut list, *number)?;
        }
    }
    Ok(list)
}

// Puts a number behind those of a list.
fn put_last(list: &mut Vec<u64>, number: u64) -> Result<(), AllocError>
    ensures { OnOk result (list.new.items ≡ list.old.items ++ number ∷ []) }
{
    list.push(number)?;
    Ok(())
}

// Whether the store has an object of this number whose header is that of a checkpoint.
fn has_checkpoint_header<S: Store>(
    alloc: Global,
    store: &mut S,
    volume: &Expected,
    number: u64,
) -> Result<bool, RecoverError>
    ensures told { TellsBytes S.Receipt.state
        → IfOk result (λ is. IfSome (S.state store.old).objects (λ objects.
        IsTrue is ↔ HasCheckpointHeader volume.now objects number)) }
    ensures answer { IfErr result IsNoAnswer }
    ensures unchanged { OnlyCounts (S.state store.old) (S.state store.new) }
    ensures faults { Counts (ends_by_fault result) (S.state store.old).faults (S.state store.new).faults }
{
    let expected = Expected {
        number,
        end_before: None,
        ..*volume
    };
    let name = ObjName::object(Uuid::from_bytes(volume.uuid), number);
    let Some(receipt) = store.find(alloc, &name)? else {
        return Ok(false);
    };
    let mut bytes = Vec::new(alloc);
    match read_head(alloc, store, &receipt, &expected, &mut bytes) {
        Ok(header) => Ok(header.kind == Kind::Checkpoint),
        Err(RecoverError::BadObject { .. }) => Ok(false),
        Err(error) => Err(error),
    }
}
