ghost use Rattle.std.specs.Prelude.{◌≡◌, ◌↔◌, ℕ, length, min, IsTrue, IsSome, IfOk, IfErr, IfSome, List, []};
ghost use Rattle.std.specs.Prelude.{◌∷◌, ◌++◌};
ghost use Rattle.lsvd_fault.specs.Faults.{Counts};
ghost use Rattle.lsvd_names.specs.declared.name.ObjName.{ObjName};
ghost use Rattle.lsvd_names.specs.Names.{super_name};
ghost use Rattle.lsvd_objstore.specs.Objects.{found, AreNamesOf, Lists};
ghost use Rattle.lsvd_objstore.specs.Store.{StoreState, ReceiptState, OnlyCounts, has_failed};
ghost use Rattle.super_format.specs.declared.epoch.Epoch.{Epoch as EpochValue};
ghost use Rattle.super_format.specs.Epoch.{IsEpoch};
ghost use Rattle.super_format.specs.Super.{MayBeSuper, IsSuper};
ghost use Rattle.super_format.specs.Tests.{IsSuperReason};
ghost use Rattle.stopped_volume.specs.Super.{HasSuper, HasNewestEpoch};
ghost use Rattle.stopped_volume.specs.Store.{TellsBytes};
ghost use Rattle.super_recovery.specs.Faults.{ends_by_fault, IsNoAnswer};
ghost use Rattle.super_recovery.specs.Fronts.{IsFrontOf};
ghost use Rattle.super_recovery.specs.Found.{HasEpoch, IsGreatestIn, IsFound, IsVolumeRefused, IsWhyNoEpoch};
ghost use Rattle.super_recovery.specs.Found.{IsWhyVolumeRefused};
ghost use Rattle.super_recovery.specs.Holds.{AreHoldsAmong};

use crate::error::SuperError;
use crate::holding::find_holds;
use crate::reading::{Front, read_front};
use lsvd_names::{NameKind, ObjName, a_uuid_has_sixteen_bytes};
use lsvd_objstore::{Names, Receipt, Store, StoreError};
use refusals::BadSuper;
use std::alloc::Global;
use super_format::{Epoch, Super, SuperReadError};
use uuid::Uuid;

/// What a store says of a volume as a whole.
#[derive(Debug, Drop)]
pub struct FoundVolume {
    /// What its super object says.
    pub volume: Super,
    /// The number of its newest epoch.
    pub epoch: u64,
    /// The numbers of the checkpoints that its holds are on, ascending.
    pub holds: Vec<u64>,
    /// The names of all objects of it that the store has.
    pub names: Names,
}

/// Finds the volume with this uuid in a store: its super object, the greatest number of its epochs, its
/// holds, and the names of its objects. The store is only read, and listed once.
///
/// An error comes where, in the order of the tests:
///
/// - `NoVolume`: the store has no super object of the volume.
/// - `BadSuper` with `Super`: the super object is none of the volume; the reason is the first.
/// - `BadSuper` with `NoEpoch`: the store has no epoch of the volume.
/// - `BadSuper` with `BadEpoch`: the epoch with the greatest number, which is told, has bytes that are no
///   epoch of that number.
/// - `BadSuper` with `BadHold`: the hold with this number, the least such one, has bytes that are no hold of
///   that number, or is in the listing and is not found then.
/// - `StoreFault`: a call of the store failed, and was counted by it.
/// - `OutOfMemory`: memory ran out.
pub fn find_volume<S: Store>(
    alloc: Global,
    store: &mut S,
    uuid: Uuid,
) -> Result<FoundVolume, SuperError>
    ensures stands { IfOk result (λ found. MayBeSuper found.volume) }
    ensures uuid { IfOk result (λ found. found.volume.uuid ≡ uuid) }
    ensures found { TellsBytes S.Receipt.state
        → IfOk result (λ found. IfSome (S.state store.old).objects (λ objects.
        IsFound uuid objects found)) }
    ensures names { IfOk result (λ found. AreNamesOf uuid found.names) }
    ensures listed { IfOk result (λ found. IfSome (S.state store.old).objects (λ objects.
        Lists uuid objects found.names)) }
    ensures holds { IfOk result (λ found. AreHoldsAmong uuid found.names found.holds.items) }
    ensures refused { TellsBytes S.Receipt.state
        → IfErr result (λ error. IfSome (S.state store.old).objects (λ objects.
        IsVolumeRefused uuid objects error)) }
    ensures unchanged { OnlyCounts (S.state store.old) (S.state store.new) }
    ensures faults { Counts (ends_by_fault result) (S.state store.old).faults (S.state store.new).faults }
{
    let volume = find_super(alloc, store, uuid)?;
    let (epoch, names) = newest_epoch(alloc, store, uuid)?;
    let holds = find_holds(alloc, store, uuid, names.as_slice())?;
    Ok(FoundVolume {
        volume,
        epoch,
        holds,
        names,
    })
}

/// Whether a store has a super object of the volume with this uuid, whatever its bytes are. The store is only
/// read. The errors are `StoreFault`, where a call of the store failed, which the store counted, and
/// `OutOfMemory`.
pub fn has_super<S: Store>(alloc: Global, store: &mut S, uuid: Uuid) -> Result<bool, SuperError>
    ensures has { IfOk result (λ has. IfSome (S.state store.old).objects
        (λ objects. IsTrue has ↔ IsSome (found objects (super_name uuid)))) }
    ensures answer { IfErr result IsNoAnswer }
    ensures unchanged { OnlyCounts (S.state store.old) (S.state store.new) }
    ensures faults { Counts (ends_by_fault result) (S.state store.old).faults (S.state store.new).faults }
{
    let receipt = store.find(alloc, &ObjName::super_of(uuid))?;
    Ok(receipt.is_some())
}

// What the super object of a volume says.
fn find_super<S: Store>(alloc: Global, store: &mut S, uuid: Uuid) -> Result<Super, SuperError>
    ensures stands { IfOk result MayBeSuper }
    ensures uuid { IfOk result (λ volume. volume.uuid ≡ uuid) }
    ensures says { TellsBytes S.Receipt.state
        → IfOk result (λ volume. IfSome (S.state store.old).objects (HasSuper uuid volume)) }
    ensures why { TellsBytes S.Receipt.state
        → IfErr result (λ error. IfSome (S.state store.old).objects (λ objects.
        IsWhyVolumeRefused uuid objects error)) }
    ensures unchanged { OnlyCounts (S.state store.old) (S.state store.new) }
    ensures faults { Counts (ends_by_fault result) (S.state store.old).faults (S.state store.new).faults }
{
    let Some(front) = read_front(alloc, store, &ObjName::super_of(uuid), Super::MAX_BYTES)? else {
        return Err(SuperError::NoVolume);
    };
    let volume = super_in(alloc, &front, uuid)?;
    Ok(volume)
}

// What a super object says that begins so. One that is longer than any is refused by its length and its head.
fn super_in(alloc: Global, front: &Front, uuid: Uuid) -> Result<Super, SuperReadError>
    requires { length front.now.bytes.items ≡ min front.now.len 408 }
    ensures says { IfOk result (λ volume. (bytes : List ℕ) → IsFrontOf 408 front.now bytes
        → IsSuper bytes uuid volume) }
    ensures why { IfErr result (λ error. (bytes : List ℕ) → IsFrontOf 408 front.now bytes
        → IsSuperReason bytes uuid error) }
    ensures stands { IfOk result MayBeSuper }
    ensures uuid { IfOk result (λ volume. volume.uuid ≡ uuid) }
{
    let bytes = front.bytes.as_slice();
    if Super::MAX_BYTES < front.len {
        return Err(Super::refusal_of_long(bytes, front.len, uuid).into());
    }
    Super::read(alloc, bytes, uuid)
}

// The greatest number of an epoch of a volume, and the names of all objects of the volume.
fn newest_epoch<S: Store>(
    alloc: Global,
    store: &mut S,
    uuid: Uuid,
) -> Result<(u64, Names), SuperError>
    ensures newest { TellsBytes S.Receipt.state
        → IfOk result (λ newest. IfSome (S.state store.old).objects (HasNewestEpoch uuid newest.0)) }
    ensures names { IfOk result (λ newest. AreNamesOf uuid newest.1) }
    ensures listed { IfOk result (λ newest. IfSome (S.state store.old).objects (λ objects.
        Lists uuid objects newest.1)) }
    ensures why { TellsBytes S.Receipt.state
        → IfErr result (λ error. IfSome (S.state store.old).objects (λ objects.
        IsWhyNoEpoch uuid objects error)) }
    ensures unchanged { OnlyCounts (S.state store.old) (S.state store.new) }
    ensures faults { Counts (ends_by_fault result) (S.state store.old).faults (S.state store.new).faults }
{
    a_uuid_has_sixteen_bytes(uuid);
    let names = store.list(alloc, uuid)?;
    let Some(number) = greatest_epoch(names.as_slice()) else {
        return Err(SuperError::BadSuper {
            reason: BadSuper::NoEpoch,
        });
    };
    if !has_epoch(alloc, store, uuid, number)? {
        return Err(SuperError::BadSuper {
            reason: BadSuper::BadEpoch { number },
        });
    }
    Ok((number, names))
}

// The greatest number of an epoch among names. None is where no name is that of an epoch.
fn greatest_epoch(names: &[ObjName]) -> Option<u64>
    ensures { IsGreatestIn names.now result }
{
    let mut greatest = None;
    for name in names {
        greatest = greatest_with(greatest, name);
    }
    greatest
}

// The greatest number of an epoch among names, with a further name.
fn greatest_with(greatest: Option<u64>, name: &ObjName) -> Option<u64>
    ensures { (names : List ObjName) → IsGreatestIn names greatest
        → IsGreatestIn (names ++ name.now ∷ []) result }
{
    if name.kind != NameKind::Epoch {
        return greatest;
    }
    match greatest {
        Some(number) if name.number <= number => greatest,
        _ => Some(name.number),
    }
}

// Whether a store has the epoch of this number, with the bytes of one. A store that lists a name and then
// does not find it has none.
fn has_epoch<S: Store>(
    alloc: Global,
    store: &mut S,
    uuid: Uuid,
    number: u64,
) -> Result<bool, StoreError>
    ensures has { TellsBytes S.Receipt.state
        → IfOk result (λ has. IfSome (S.state store.old).objects (λ objects.
        IsTrue has ↔ HasEpoch uuid number objects)) }
    ensures unchanged { OnlyCounts (S.state store.old) (S.state store.new) }
    ensures faults { Counts (has_failed result) (S.state store.old).faults (S.state store.new).faults }
{
    let most = Epoch::BYTES as u64;
    let Some(front) = read_front(alloc, store, &ObjName::epoch(uuid, number), most)? else {
        return Ok(false);
    };
    Ok(is_epoch(&front, uuid, number))
}

// Whether an object that begins so is the epoch of this number.
fn is_epoch(front: &Front, uuid: Uuid, number: u64) -> bool
    ensures { (bytes : List ℕ) → IsFrontOf 32 front.now bytes
        → IsTrue result ↔ ((epoch : EpochValue) × IsEpoch bytes uuid number epoch) }
{
    front.len == Epoch::BYTES as u64 && Epoch::read(front.bytes.as_slice(), uuid, number).is_ok()
}
