ghost use Rattle.std.specs.Prelude.{◌≡◌, ◌↔◌, ℕ, IsTrue, IfOk, IfErr, IfSome, List};
ghost use Rattle.std.specs.List.{Contains};
ghost use Rattle.std.specs.List.Sorted.{IsStrictlyIncreasing};
ghost use Rattle.lsvd_fault.specs.Faults.{Counts};
ghost use Rattle.lsvd_names.specs.Names.{hold_number, hold_numbers};
ghost use Rattle.lsvd_objstore.specs.Objects.{AreNamesOf, Lists};
ghost use Rattle.lsvd_objstore.specs.Store.{StoreState, ReceiptState, OnlyCounts, has_failed};
ghost use Rattle.super_format.specs.declared.hold.Hold.{Hold as HoldValue};
ghost use Rattle.super_format.specs.Hold.{IsHold};
ghost use Rattle.stopped_volume.specs.Store.{TellsBytes};
ghost use Rattle.super_recovery.specs.Faults.{ends_by_fault};
ghost use Rattle.super_recovery.specs.Fronts.{IsFrontOf};
ghost use Rattle.super_recovery.specs.Holds.{AreHoldsAmong, AreHolds, HasHold};
ghost use Rattle.super_recovery.specs.Holds.{IsFirstBadIn, IsWhyNoHolds};

use crate::error::SuperError;
use crate::reading::{Front, read_front};
use lsvd_names::{NameKind, ObjName, a_uuid_has_sixteen_bytes};
use lsvd_objstore::{Receipt, Store, StoreError};
use refusals::BadSuper;
use std::alloc::{AllocError, Global};
use super_format::Hold;
use uuid::Uuid;

/// The numbers of the holds of a volume, ascending: those among the names of all its objects, which the names
/// are (a condition). Each hold is read, in this order. The errors are `BadSuper` with the first that is not
/// of the grammar or not found, `StoreFault`, where a call of the store failed, which the store counted, and
/// `OutOfMemory`.
pub(crate) fn find_holds<S: Store>(
    alloc: Global,
    store: &mut S,
    uuid: Uuid,
    names: &[ObjName],
) -> Result<Vec<u64>, SuperError>
    requires { AreNamesOf uuid names.now }
    ensures among { IfOk result (λ holds. AreHoldsAmong uuid names.now holds.items) }
    ensures holds { TellsBytes S.Receipt.state
        → IfOk result (λ holds. IfSome (S.state store.old).objects (λ objects.
        Lists uuid objects names.now → AreHolds uuid holds.items objects)) }
    ensures why { TellsBytes S.Receipt.state
        → IfErr result (λ error. IfSome (S.state store.old).objects (λ objects.
        Lists uuid objects names.now → IsWhyNoHolds uuid objects error)) }
    ensures unchanged { OnlyCounts (S.state store.old) (S.state store.new) }
    ensures faults { Counts (ends_by_fault result) (S.state store.old).faults (S.state store.new).faults }
{
    a_uuid_has_sixteen_bytes(uuid);
    let numbers = hold_numbers(alloc, names)?;
    if let Some(number) = first_bad(alloc, store, uuid, numbers.as_slice())? {
        return Err(SuperError::BadSuper {
            reason: BadSuper::BadHold { number },
        });
    }
    Ok(numbers)
}

// The first of these numbers of which the store has no hold, or bytes that are none. None is where it has
// each.
fn first_bad<S: Store>(
    alloc: Global,
    store: &mut S,
    uuid: Uuid,
    numbers: &[u64],
) -> Result<Option<u64>, StoreError>
    ensures first { TellsBytes S.Receipt.state
        → IfOk result (λ bad. IfSome (S.state store.old).objects (IsFirstBadIn uuid numbers.now bad)) }
    ensures unchanged { OnlyCounts (S.state store.old) (S.state store.new) }
    ensures faults { Counts (has_failed result) (S.state store.old).faults (S.state store.new).faults }
{
    for number in numbers {
        if !has_hold(alloc, store, uuid, *number)? {
            return Ok(Some(*number));
        }
    }
    Ok(None)
}

// The numbers of the holds among names, ascending, each once. The one error is out of memory.
fn hold_numbers(alloc: Global, names: &[ObjName]) -> Result<Vec<u64>, AllocError>
    ensures ascending { IfOk result (λ numbers. IsStrictlyIncreasing numbers.items) }
    ensures same { IfOk result (λ numbers. (number : ℕ)
        → Contains numbers.items number ↔ Contains (hold_numbers names.now) number) }
{
    let mut numbers = collected(alloc, names)?;
    numbers.sort_unstable();
    numbers.dedup();
    Ok(numbers)
}

// These numbers in the order of the names.
fn collected(alloc: Global, names: &[ObjName]) -> Result<Vec<u64>, AllocError>
    ensures { IfOk result (λ numbers. numbers.items ≡ hold_numbers names.now) }
{
    names.iter().filter_map(hold_number).collect(alloc)
}

// The number of the hold that a name is of. None is where it is of another object.
fn hold_number(name: &ObjName) -> Option<u64>
    ensures { result ≡ hold_number name.now }
{
    match name.kind {
        NameKind::Hold => Some(name.number),
        NameKind::Super | NameKind::Epoch | NameKind::Object => None,
    }
}

// Whether a store has the hold of this number, with the bytes of one. A store that lists a name and then does
// not find it has none.
fn has_hold<S: Store>(
    alloc: Global,
    store: &mut S,
    uuid: Uuid,
    number: u64,
) -> Result<bool, StoreError>
    ensures has { TellsBytes S.Receipt.state
        → IfOk result (λ has. IfSome (S.state store.old).objects (λ objects.
        IsTrue has ↔ HasHold uuid number objects)) }
    ensures unchanged { OnlyCounts (S.state store.old) (S.state store.new) }
    ensures faults { Counts (has_failed result) (S.state store.old).faults (S.state store.new).faults }
{
    let most = Hold::BYTES as u64;
    let Some(front) = read_front(alloc, store, &ObjName::hold(uuid, number), most)? else {
        return Ok(false);
    };
    Ok(is_hold(&front, uuid, number))
}

// Whether an object that begins so is the hold of this number.
fn is_hold(front: &Front, uuid: Uuid, number: u64) -> bool
    ensures { (bytes : List ℕ) → IsFrontOf 32 front.now bytes
        → IsTrue result ↔ ((hold : HoldValue) × IsHold bytes uuid number hold) }
{
    front.len == Hold::BYTES as u64 && Hold::read(front.bytes.as_slice(), uuid, number).is_ok()
}
