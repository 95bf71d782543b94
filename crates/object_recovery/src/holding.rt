ghost use Rattle.std.specs.Prelude.{◌≡◌, ℕ, ◌∷◌, [], List, IfOk, IfErr, IfSome, OnOk, OnErr};
ghost use Rattle.lsvd_objstore.specs.Objects.{found, AreNamesOf};
ghost use Rattle.lsvd_objstore.specs.Store.{StoreState, ReceiptState, OnlyCounts};
ghost use Rattle.lsvd_fault.specs.Faults.{Counts};
ghost use Rattle.extent_map.specs.declared.extent.Extent.{Extent as ExtentOf};
ghost use Rattle.ckpt_format.specs.declared.place.StoredPlace.{StoredPlace as Place};
ghost use Rattle.ckpt_format.specs.Checkpoint.{IsCheckpoint};
ghost use Rattle.ckpt_format.specs.Reading.{IsCheckpointRefusedAs};
ghost use Rattle.object_stream.specs.Replay.{object_name};
ghost use Rattle.object_uploads.specs.Order.{IsUploads};
ghost use Rattle.obj_log.specs.State.{ObjLogState};
ghost use Rattle.obj_log.specs.Changes.{expected_of_volume};
ghost use Rattle.stopped_volume.specs.Store.{TellsBytes};
ghost use Rattle.object_recovery.specs.Faults.{ends_by_fault};
ghost use Rattle.object_recovery.specs.Holding.{IsMarked, own_numbers, MarksRows, MarksKept, RefusesOrFails};
ghost use Rattle.object_recovery.specs.Holding.{IsHoldAmong, RefusesHolds};

use crate::error::RecoverError;
use crate::naming::object_name;
use crate::reading::{bad_object, read_head, read_whole};
use crate::recovery::expected_of_list;
use ckpt_format::{StoredPlace, read_checkpoint};
use lsvd_names::{NameKind, ObjName};
use lsvd_objstore::{Receipt, Store};
use obj_log::ObjLog;
use object_format::{BadObject, Expected};
use std::alloc::Global;

/// Marks in a list the objects that holds of its volume keep, where these are the names of the volume's
/// objects (a condition): each checkpoint that a hold names, and the objects that it maps. The names are gone
/// over in their order. The errors are `MissingObject`, where the store has no object of the checkpoint's
/// number, `BadObject`, where that is no checkpoint, `StoreFault`, where a call of the store failed, which
/// the store counted, and `OutOfMemory`. Then some are marked.
pub(crate) fn mark_held<S: Store>(
    alloc: Global,
    store: &mut S,
    log: &mut ObjLog<S::Receipt>,
    names: &[ObjName],
) -> Result<(), RecoverError>
    requires names { AreNamesOf log.old.uploads.uuid names.now }
    ensures marks { OnOk result (MarksKept (TellsBytes S.Receipt.state) (expected_of_volume log.old)
        (S.state store.old).objects (IsHoldAmong log.old.uploads.uuid names.now) log.old log.new) }
    ensures refused { TellsBytes S.Receipt.state
        → IfErr result (λ error. IfSome (S.state store.old).objects (λ objects.
        RefusesHolds (expected_of_volume log.old) objects names.now error)) }
    ensures unchanged { OnlyCounts (S.state store.old) (S.state store.new) }
    ensures faults { Counts (ends_by_fault result) (S.state store.old).faults (S.state store.new).faults }
{
    let volume = expected_of_list(log);
    for name in names {
        if name.kind == NameKind::Hold {
            mark_kept(alloc, store, log, &volume, name.number)?;
        }
    }
    Ok(())
}

// Marks what the checkpoint of a number keeps, which a hold names.
fn mark_kept<S: Store>(
    alloc: Global,
    store: &mut S,
    log: &mut ObjLog<S::Receipt>,
    volume: &Expected,
    number: u64,
) -> Result<(), RecoverError>
    ensures marks { OnOk result (MarksKept (TellsBytes S.Receipt.state) volume.now (S.state store.old).objects
        (λ checkpoint. checkpoint ≡ number) log.old log.new) }
    ensures refused { TellsBytes S.Receipt.state
        → IfErr result (λ error. IfSome (S.state store.old).objects (λ objects.
        RefusesOrFails volume.now objects number error)) }
    ensures unchanged { OnlyCounts (S.state store.old) (S.state store.new) }
    ensures faults { Counts (ends_by_fault result) (S.state store.old).faults (S.state store.new).faults }
{
    let expected = Expected {
        number,
        end_before: None,
        ..*volume
    };
    let bytes = read_held(alloc, store, &expected)?;
    log.uploads_mut().hold(number);
    match mark_rows(log, bytes.as_slice(), &expected) {
        Ok(()) => Ok(()),
        Err(reason) => Err(bad_object(&expected, reason)),
    }
}

/// All bytes of the expected object, which is to be a checkpoint: it is refused where it is absent, by
/// `MissingObject`, and where its header is none, by `BadObject`. The other errors are `StoreFault`, where a
/// call of the store failed, which the store counted, and `OutOfMemory`.
pub fn read_held<S: Store>(
    alloc: Global,
    store: &mut S,
    expected: &Expected,
) -> Result<Vec<u8>, RecoverError>
    ensures bytes { TellsBytes S.Receipt.state
        → IfOk result (λ bytes. IfSome (S.state store.old).objects (λ objects.
        found objects (object_name expected.now expected.now.number) ≡ Some bytes.items)) }
    ensures refused { TellsBytes S.Receipt.state → expected.now.end_before ≡ None
        → IfErr result (λ error. IfSome (S.state store.old).objects (λ objects.
        RefusesOrFails expected.now objects expected.now.number error)) }
    ensures unchanged { OnlyCounts (S.state store.old) (S.state store.new) }
    ensures faults { Counts (ends_by_fault result) (S.state store.old).faults (S.state store.new).faults }
{
    let Some(receipt) = store.find(alloc, &object_name(expected))? else {
        return Err(RecoverError::MissingObject {
            number: expected.number,
        });
    };
    let mut bytes = Vec::new(alloc);
    read_head(alloc, store, &receipt, expected, &mut bytes)?;
    read_whole(alloc, store, &receipt, &mut bytes)?;
    Ok(bytes)
}

// Marks the objects that the rows of the expected checkpoint name. The error is the reason for which the
// bytes are none.
fn mark_rows<R: Receipt>(
    log: &mut ObjLog<R>,
    bytes: &[u8],
    expected: &Expected,
) -> Result<(), BadObject>
    ensures marks { OnOk result (MarksRows bytes.now expected.now log.old log.new) }
    ensures refused { IfErr result (IsCheckpointRefusedAs bytes.now expected.now) }
    ensures none { OnErr result ((end : ℕ) (rows : List (ExtentOf Place))
        → IsCheckpoint bytes.now expected.now end rows → ⊥) }
{
    let mut rows = read_checkpoint(bytes, expected)?;
    while let Some(row) = rows.next_row()? {
        mark_place(log, &row.place);
    }
    Ok(())
}

// Marks the object of a place, where it is the volume's own.
fn mark_place<R: Receipt>(log: &mut ObjLog<R>, place: &StoredPlace)
    ensures { IsMarked (own_numbers place.now) log.old log.new }
{
    if place.level == 0 {
        log.uploads_mut().hold(place.number);
    }
}
