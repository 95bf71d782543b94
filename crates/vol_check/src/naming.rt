ghost use Rattle.std.specs.Prelude.{◌≡◌, ◌↔◌, ◌⊎◌, ℕ, List, length, IfOk, IfErr, IfSome, OnOk, OnErr};
ghost use Rattle.std.specs.List.{Contains};
ghost use Rattle.std.specs.List.Sorted.{IsStrictlyIncreasing};
ghost use Rattle.lsvd_fault.specs.Faults.{Counts};
ghost use Rattle.lsvd_objstore.specs.Store.{StoreState, ReceiptState, OnlyCounts};
ghost use Rattle.extent_map.specs.declared.extent.Extent.{Extent as ExtentOf};
ghost use Rattle.ckpt_format.specs.declared.place.StoredPlace.{StoredPlace as Place};
ghost use Rattle.ckpt_format.specs.Checkpoint.{IsCheckpoint};
ghost use Rattle.ckpt_format.specs.Reading.{IsCheckpointRefusedAs};
ghost use Rattle.stopped_volume.specs.Expected.{expected_alone};
ghost use Rattle.stopped_volume.specs.Store.{TellsBytes};
ghost use Rattle.object_recovery.specs.Faults.{ends_by_fault};
ghost use Rattle.vol_check.specs.Steps.{object_number, object_numbers, object_of, GainsJust, AddsRows};
ghost use Rattle.vol_check.specs.Steps.{AddsKept, NamesAll, IsWhyNoRows, RefusesKept, RefusesNamed};

use crate::report::ObjectOfLevel;
use ckpt_format::{StoredPlace, read_checkpoint};
use lsvd_names::{NameKind, ObjName};
use lsvd_objstore::{Receipt, Store};
use object_format::{BadObject, Expected};
use object_recovery::{RecoverError, read_held};
use std::alloc::{AllocError, Global};
use std::collections::BTreeSet;

/// The numbers of the objects among names, ascending, each once. The one error is out of memory.
pub(crate) fn object_numbers(alloc: Global, names: &[ObjName]) -> Result<Vec<u64>, AllocError>
    ensures ascending { IfOk result (λ numbers. IsStrictlyIncreasing numbers.items) }
    ensures same { IfOk result (λ numbers. (number : ℕ)
        → Contains numbers.items number ↔ Contains (object_numbers names.now) number) }
{
    let mut numbers = collected(alloc, names)?;
    numbers.sort_unstable();
    numbers.dedup();
    Ok(numbers)
}

// These numbers in the order of the names.
fn collected(alloc: Global, names: &[ObjName]) -> Result<Vec<u64>, AllocError>
    ensures { IfOk result (λ numbers. numbers.items ≡ object_numbers names.now) }
{
    names.iter().filter_map(object_number).collect(alloc)
}

// The number of the object of a volume's stream that a name is of. None is where it is of another object.
fn object_number(name: &ObjName) -> Option<u64>
    ensures { result ≡ object_number name.now }
{
    match name.kind {
        NameKind::Object => Some(name.number),
        NameKind::Super | NameKind::Epoch | NameKind::Hold => None,
    }
}

/// The objects, of a volume and of its ancestors, that the newest checkpoint maps, which has this number and
/// these bytes (a condition), and those that holds on these numbers name or keep. A checkpoint that a hold
/// names may be absent: then it alone is named. The errors are `BadObject`, for the first of these
/// checkpoints that is none of the grammar, `StoreFault`, where a call of the store failed, which the store
/// counted, and `OutOfMemory`.
pub(crate) fn named_objects<S: Store>(
    alloc: Global,
    store: &mut S,
    volume: &Expected,
    base: u64,
    bytes: &[u8],
    holds: &[u64],
) -> Result<BTreeSet<ObjectOfLevel>, RecoverError>
    requires { (end : ℕ) × (rows : List (ExtentOf Place))
        × IsCheckpoint bytes.now (expected_alone volume.now base) end rows }
    ensures named { TellsBytes S.Receipt.state
        → IfOk result (λ named. IfSome (S.state store.old).objects (λ objects.
        NamesAll volume.now objects base bytes.now holds.now named)) }
    ensures refused { TellsBytes S.Receipt.state
        → IfErr result (λ error. IfSome (S.state store.old).objects (λ objects.
        RefusesNamed volume.now objects holds.now error)) }
    ensures unchanged { OnlyCounts (S.state store.old) (S.state store.new) }
    ensures faults { Counts (ends_by_fault result) (S.state store.old).faults (S.state store.new).faults }
{
    let expected = Expected {
        number: base,
        end_before: None,
        ..*volume
    };
    let mut named = BTreeSet::new(alloc);
    add_rows(&mut named, bytes, &expected)?;
    for number in holds {
        add_kept(alloc, store, &mut named, volume, *number)?;
    }
    Ok(named)
}

// Adds what a hold on the checkpoint of this number keeps, that one first.
fn add_kept<S: Store>(
    alloc: Global,
    store: &mut S,
    named: &mut BTreeSet<ObjectOfLevel>,
    volume: &Expected,
    number: u64,
) -> Result<(), RecoverError>
    ensures adds { TellsBytes S.Receipt.state
        → OnOk result (IfSome (S.state store.old).objects (λ objects.
        AddsKept volume.now objects number named.old named.new)) }
    ensures refused { TellsBytes S.Receipt.state
        → IfErr result (λ error. IfSome (S.state store.old).objects (λ objects.
        RefusesKept volume.now objects number error)) }
    ensures unchanged { OnlyCounts (S.state store.old) (S.state store.new) }
    ensures faults { Counts (ends_by_fault result) (S.state store.old).faults (S.state store.new).faults }
{
    let expected = Expected {
        number,
        end_before: None,
        ..*volume
    };
    add(named, ObjectOfLevel { level: 0, number })?;
    match read_held(alloc, store, &expected) {
        Ok(bytes) => add_rows(named, bytes.as_slice(), &expected),
        Err(RecoverError::MissingObject { .. }) => Ok(()),
        Err(error) => Err(error),
    }
}

// Adds the objects that the rows of the expected checkpoint name. `BadObject` comes with the reason for which
// the bytes are none.
fn add_rows(
    named: &mut BTreeSet<ObjectOfLevel>,
    bytes: &[u8],
    expected: &Expected,
) -> Result<(), RecoverError>
    ensures adds { OnOk result (AddsRows bytes.now expected.now named.old named.new) }
    ensures refused { IfErr result (IsWhyNoRows bytes.now expected.now) }
{
    let mut rows = match read_checkpoint(bytes, expected) {
        Ok(rows) => rows,
        Err(reason) => return Err(bad_rows(expected, reason)),
    };
    loop {
        match rows.next_row() {
            Ok(Some(row)) => add_place(named, &row.place)?,
            Ok(None) => return Ok(()),
            Err(reason) => return Err(bad_rows(expected, reason)),
        }
    }
}

// Adds the object of a place.
fn add_place(named: &mut BTreeSet<ObjectOfLevel>, place: &StoredPlace) -> Result<(), AllocError>
    ensures { OnOk result (GainsJust (λ object. object ≡ object_of place.now) named.old named.new) }
{
    let object = ObjectOfLevel {
        level: place.level,
        number: place.number,
    };
    add(named, object)
}

// Adds an object, which may be there.
fn add(named: &mut BTreeSet<ObjectOfLevel>, object: ObjectOfLevel) -> Result<(), AllocError>
    ensures { OnOk result (GainsJust (λ other. other ≡ object) named.old named.new) }
{
    named.insert(object)?;
    Ok(())
}

// The error that the expected checkpoint is bad.
fn bad_rows(expected: &Expected, reason: BadObject) -> RecoverError
    ensures { result ≡ RecoverError.BadObject expected.now.number reason }
{
    RecoverError::BadObject {
        number: expected.number,
        reason,
    }
}
