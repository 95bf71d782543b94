ghost use Rattle.std.specs.Prelude.{◌≡◌, ◌+◌, ◌^◌, ◌<◌, ◌≤◌, None, IsTrue, IfOk, IfErr, IfSome, OnOk};
ghost use Rattle.lsvd_base.specs.Limits.{is_within_limits};
ghost use Rattle.lsvd_objstore.specs.Store.{StoreState, ReceiptState, OnlyCounts};
ghost use Rattle.lsvd_fault.specs.Faults.{Counts};
ghost use Rattle.object_uploads.specs.Order.{IsUploads};
ghost use Rattle.obj_log.specs.State.{ObjLogState};
ghost use Rattle.obj_log.specs.Changes.{expected_of_volume, next_of};
ghost use Rattle.object_recovery.specs.Faults.{ends_by_fault, IsNoAnswer};
ghost use Rattle.stopped_volume.specs.Store.{TellsBytes};
ghost use Rattle.object_recovery.specs.Places.{HasPlacesInside};
ghost use Rattle.object_recovery.specs.Recovery.{IsListUpTo, KeepsStreams};
ghost use Rattle.object_recovery.specs.Adoption.{IsNextRead, ComesNext, KeepsGood, KeepsKnown, KeepsTable};
ghost use Rattle.object_recovery.specs.Adoption.{HasEndedAt, adoptable_rows};
ghost use Rattle.object_recovery.specs.Judged.{refused_with};

use crate::error::RecoverError;
use crate::judging::{Reached, refused_with};
use crate::naming::object_name;
use crate::reading::{ReadObject, read_object};
use lsvd_objstore::{Receipt, Store};
use obj_log::ObjLog;
use object_format::{BadObject, Expected, Rows};
use object_uploads::SealedRows;
use std::alloc::Global;

// What comes of the next number of a list.
#[derive(Drop)]
enum Next {
    // The store has no object of it, or it is past all numbers.
    Missing,
    // Its object was adopted.
    Adopted,
    // Its object is not adopted, and was judged.
    Left(Reached),
}

// The object of the next number.
#[derive(Drop)]
enum NextObject {
    // It may be adopted.
    Whole(WholeObject),
    // It is not adopted, and was judged.
    Left(Reached),
}

// A data object or a copy that was read.
#[derive(Drop)]
struct WholeObject {
    rows: SealedRows,
    end: u64,
}

/// Adopts the objects after the last of the list, up to the first missing number, or up to the first object
/// that is not adopted: how that one was judged is answered. No list takes the object of the greatest number
/// of all. The list has all of its objects acknowledged (a condition). Where its places lie inside objects,
/// they do so afterwards.
pub(crate) fn adopt_all<S: Store>(
    alloc: Global,
    store: &mut S,
    log: &mut ObjLog<S::Receipt>,
) -> Result<Option<Reached>, RecoverError>
    requires list { IsListUpTo log.old.uploads.uuid log.old.batch.geometry log.old.uploads.ancestors
        log.old.uploads.window.last log.old.uploads.queue.end log.old }
    requires limits { IsTrue (is_within_limits log.old.batch.geometry) }
    ensures list { OnOk result
        (IsListUpTo log.old.uploads.uuid log.old.batch.geometry log.old.uploads.ancestors
        log.new.uploads.window.last log.new.uploads.queue.end log.new) }
    ensures places { OnOk result (HasPlacesInside log.old.batch.geometry.sectors log.old.uploads.queue
        → HasPlacesInside log.old.batch.geometry.sectors log.new.uploads.queue) }
    ensures from { OnOk result (log.old.uploads.window.last ≤ log.new.uploads.window.last) }
    ensures order { OnOk result (IsUploads log.new.uploads) }
    ensures streams { TellsBytes S.Receipt.state → OnOk result (IfSome (S.state store.old).objects (λ objects.
        KeepsStreams (expected_of_volume log.old) objects log.old log.new)) }
    ensures good { TellsBytes S.Receipt.state → OnOk result (IfSome (S.state store.old).objects (λ objects.
        KeepsGood (expected_of_volume log.old) objects log.old log.new)) }
    ensures knows { TellsBytes S.Receipt.state → OnOk result (IfSome (S.state store.old).objects (λ objects.
        KeepsKnown (expected_of_volume log.old) objects log.old log.new)) }
    ensures table { OnOk result (KeepsTable log.old log.new) }
    ensures ended { TellsBytes S.Receipt.state
        → IfOk result (λ left. IfSome (S.state store.old).objects (λ objects.
        HasEndedAt objects log.new left)) }
    ensures answer { IfErr result IsNoAnswer }
    ensures unchanged { OnlyCounts (S.state store.old) (S.state store.new) }
    ensures faults { Counts (ends_by_fault result) (S.state store.old).faults (S.state store.new).faults }
{
    loop {
        match adopt_next(alloc, store, log)? {
            Next::Adopted => {}
            Next::Missing => return Ok(None),
            Next::Left(reached) => return Ok(Some(reached)),
        }
    }
}

// Adopts the object after the last of the list, if there is one and it may be.
fn adopt_next<S: Store>(
    alloc: Global,
    store: &mut S,
    log: &mut ObjLog<S::Receipt>,
) -> Result<Next, RecoverError>
    requires list { IsListUpTo log.old.uploads.uuid log.old.batch.geometry log.old.uploads.ancestors
        log.old.uploads.window.last log.old.uploads.queue.end log.old }
    requires limits { IsTrue (is_within_limits log.old.batch.geometry) }
    ensures next { IfOk result (ComesNext (TellsBytes S.Receipt.state) (S.state store.old).objects
        log.old log.new) }
    ensures order { IsUploads log.old.uploads }
    ensures answer { IfErr result IsNoAnswer }
    ensures unchanged { OnlyCounts (S.state store.old) (S.state store.new) }
    ensures faults { Counts (ends_by_fault result) (S.state store.old).faults (S.state store.new).faults }
{
    if log.uploads().frontier() == u64::MAX {
        return Ok(Next::Missing);
    }
    let expected = expected_next(log);
    let Some(receipt) = store.find(alloc, &object_name(&expected))? else {
        return Ok(Next::Missing);
    };
    match read_next(alloc, store, &receipt, &expected)? {
        NextObject::Left(reached) => {
            drop(receipt);
            Ok(Next::Left(reached))
        }
        NextObject::Whole(object) => {
            log.adopt(alloc, object.rows, object.end, receipt)?;
            Ok(Next::Adopted)
        }
    }
}

// Reads the expected object, which is to be a data object or a copy. It is not adopted where it is refused,
// and where it has the greatest number of all. A checkpoint comes only where the store changed since the
// newest one was found: it is none of the kinds that are due there, and refused.
fn read_next<S: Store>(
    alloc: Global,
    store: &mut S,
    receipt: &S::Receipt,
    expected: &Expected,
) -> Result<NextObject, RecoverError>
    ensures next { IfOk result (IsNextRead (S.Receipt.state receipt.now) expected.now) }
    ensures answer { IfErr result IsNoAnswer }
    ensures unchanged { OnlyCounts (S.state store.old) (S.state store.new) }
    ensures faults { Counts (ends_by_fault result) (S.state store.old).faults (S.state store.new).faults }
{
    let number = expected.number;
    match read_object(alloc, store, receipt, expected)? {
        ReadObject::Bad { reason, end } => Ok(left(number, end, Some(reason))),
        ReadObject::Whole { rows, end } => match sealed_rows(rows) {
            None => Ok(left(number, Some(end), Some(BadObject::Kind))),
            Some(_) if number == u64::MAX => Ok(left(number, Some(end), None)),
            Some(rows) => Ok(NextObject::Whole(WholeObject { rows, end })),
        },
    }
}

// The rows of an object, where it may come past the newest checkpoint: a data object's or a copy's.
fn sealed_rows(rows: Rows) -> Option<SealedRows>
    ensures { result ≡ adoptable_rows rows }
{
    match rows {
        Rows::Data(rows) => Some(SealedRows::Data(rows)),
        Rows::Copy(rows) => Some(SealedRows::Copy(rows)),
        Rows::Checkpoint => None,
    }
}

// An object that is not adopted: it is refused for this reason, or its number is too great.
fn left(number: u64, end: Option<u64>, bad: Option<BadObject>) -> NextObject
    ensures { result ≡ NextObject.Left (record {
      number = number;
      end = end;
      refused = refused_with number bad None;
    }) }
{
    NextObject::Left(Reached {
        number,
        end,
        refused: refused_with(number, bad, None),
    })
}

// What is expected of the next object of a list. Its numbers go on (a condition).
fn expected_next<R: Receipt>(log: &ObjLog<R>) -> Expected
    requires { log.now.uploads.window.last + 1 < 2 ^ 64 }
    ensures { result ≡ next_of log.now }
{
    let batch = log.batch();
    Expected {
        uuid: log.uploads().uuid().into_bytes(),
        number: log.uploads().last() + 1,
        sectors: batch.geometry().sectors,
        ancestors: log.uploads().ancestors(),
        end_before: Some(batch.first_seq()),
    }
}
