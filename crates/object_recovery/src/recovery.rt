ghost use Rattle.std.specs.Prelude.{◌≡◌, None, IsTrue, IfOk, IfErr, IfSome, OnOk, length};
ghost use Rattle.lsvd_base.specs.Limits.{is_within_limits};
ghost use Rattle.lsvd_objstore.specs.Objects.{AreNamesOf, Lists};
ghost use Rattle.lsvd_objstore.specs.Store.{StoreState, OnlyCounts};
ghost use Rattle.lsvd_fault.specs.Faults.{Counts};
ghost use Rattle.object_uploads.specs.Order.{IsUploads};
ghost use Rattle.obj_log.specs.State.{ObjLogState};
ghost use Rattle.obj_log.specs.Changes.{expected_of_volume};
ghost use Rattle.stopped_volume.specs.Store.{TellsBytes};
ghost use Rattle.object_recovery.specs.Faults.{ends_by_fault, IsNoAnswer};
ghost use Rattle.object_recovery.specs.Adoption.{reached_by, ReachesGap, JudgesRest, RefusesRest};
ghost use Rattle.object_recovery.specs.Adoption.{RefusesBeside, GoesOnOf, RecoverListOf};
ghost use Rattle.object_recovery.specs.Checkpoints.{expected_of, IsReadCheckpoint};
ghost use Rattle.object_recovery.specs.Holding.{HoldsOf};
ghost use Rattle.object_recovery.specs.Recovery.{IsListUpTo, IsRefusal};
ghost use Rattle.object_recovery.specs.Recovering.{RecoverOf};

use crate::adoption::adopt_all;
use crate::beginning::{Beginning, begin_list};
use crate::checkpoint::{StoredCheckpoint, expected_alone, newest_checkpoint};
use crate::error::RecoverError;
use crate::holding::mark_held;
use crate::judging::{Reached, judge_past, judge_to_gap};
use crate::recovered::Recovered;
use clone_chain::Chain;
use lsvd_base::Geometry;
use lsvd_names::{ObjName, a_uuid_has_sixteen_bytes};
use lsvd_objstore::{Names, Receipt, Store};
use obj_log::ObjLog;
use object_format::Expected;
use std::alloc::Global;
use std::marker::Model;
use uuid::Uuid;

/// Recovers the list of a volume with this uuid, these sizes, which are within the limits (a condition), and
/// this chain of ancestors, from the objects that the store has of it: from the newest checkpoint on, each
/// object up to the first missing number is counted as acknowledged. What a hold keeps is marked in the list.
/// The store is only read: objects past that number are there until `Recovered::remove_past` removes them. No
/// list takes an object of the number 2^64 - 1: where one goes on there, the list ends before it, and only
/// then not before the first missing number.
///
/// The store is not listed: these are the names of all objects of the volume that it has (conditions), as
/// its own listing gives them.
///
/// An error comes where:
///
/// - `NoCheckpoint`: no object of the volume is a checkpoint.
/// - `BadObject`: an object past the newest checkpoint is bad. That of the greatest number is told, with the
///   first reason for it. Up to the first missing number an object is to go on at the end of the one before
///   it, where that one is of the grammar by itself; past that number it is to be of the grammar by itself.
///   Or a hold names the object of this number, and it is no checkpoint. Holds are judged last, by their
///   ascending numbers.
/// - `MissingObject`: none is bad, and the newest checkpoint maps a sector to the object of this number,
///   which does not have it there; or a hold names the checkpoint of this number, which is absent. Of an
///   ancestor's object it comes only where that is there.
/// - `BaseMissing`: nothing else is refused, and the newest checkpoint maps a sector to an object of the
///   ancestor with this uuid that is absent: the first such, by level and then by number.
/// - `StoreFault`: a call of the store failed, and was counted by it.
/// - `OutOfMemory`: memory ran out.
pub fn recover<S: Store>(
    alloc: Global,
    store: &mut S,
    uuid: Uuid,
    geometry: Geometry,
    chain: &Chain,
    names: Names,
) -> Result<Recovered<S::Receipt>, RecoverError>
    requires limits { IsTrue (is_within_limits geometry) }
    requires names { AreNamesOf uuid names }
    requires listed { IfSome (S.state store.old).objects (λ objects. Lists uuid objects names) }
    ensures { RecoverOf (TellsBytes S.Receipt.state) uuid geometry chain.now (S.state store.old)
        (S.state store.new) result }
{
    a_uuid_has_sixteen_bytes(uuid);
    let base = newest_checkpoint(alloc, store, &geometry, chain.count(), names.as_slice())?;
    let checkpoint = base.number;
    let listed = recover_list(alloc, store, uuid, geometry, chain, base, names.as_slice())?;
    let log = with_held(alloc, store, listed.log, names.as_slice())?;
    match listed.absent {
        Some(uuid) => {
            drop(log);
            Err(RecoverError::BaseMissing { uuid })
        }
        None => Ok(Recovered {
            log,
            checkpoint,
            names,
        }),
    }
}

// A list that was recovered, and the ancestor that lacks the first of those objects that ancestors lack.
#[derive(Drop)]
struct Listed<R: Receipt> {
    log: ObjLog<R>,
    absent: Option<Uuid>,
}

impl<R: Receipt> Model for Listed<R> {
    ghost use Rattle.object_recovery.specs.Adoption.{ListedState};

    ghost Value = { ListedState };

    ghost view = { λ it. record { log = it.log; absent = it.absent } };
}

// Recovers the list from this checkpoint on, where it is the newest and these are the names of the objects
// that there are.
fn recover_list<S: Store>(
    alloc: Global,
    store: &mut S,
    uuid: Uuid,
    geometry: Geometry,
    chain: &Chain,
    base: StoredCheckpoint<S::Receipt>,
    names: &[ObjName],
) -> Result<Listed<S::Receipt>, RecoverError>
    requires limits { IsTrue (is_within_limits geometry) }
    requires read { IsReadCheckpoint (expected_of uuid geometry (length chain.now)) base }
    requires names { AreNamesOf uuid names.now }
    ensures { RecoverListOf (TellsBytes S.Receipt.state) uuid geometry chain.now base names.now
        (S.state store.old) (S.state store.new) result }
{
    let reached = Reached {
        number: base.number,
        end: Some(base.end),
        refused: None,
    };
    match begin_list(alloc, store, uuid, geometry, chain, base, names)? {
        Beginning::List { log, absent } => {
            let log = go_on(alloc, store, log, names)?;
            Ok(Listed { log, absent })
        }
        Beginning::Missing { number } => {
            let volume = expected_alone(uuid, &geometry, chain.count(), 0);
            Err(refuse_beside(alloc, store, &volume, reached, names, number)?)
        }
    }
}

// Why the objects of a volume are refused, whose newest checkpoint was reached, and maps a sector to the
// object of this number, which does not have it there: for an object past the checkpoint that is bad, or else
// for that.
fn refuse_beside<S: Store>(
    alloc: Global,
    store: &mut S,
    volume: &Expected,
    base: Reached,
    names: &[ObjName],
    missing: u64,
) -> Result<RecoverError, RecoverError>
    ensures refused { TellsBytes S.Receipt.state
        → IfOk result (λ error. IfSome (S.state store.old).objects (λ objects.
        RefusesBeside volume.now objects base names.now missing error)) }
    ensures refusal { IfOk result IsRefusal }
    ensures answer { IfErr result IsNoAnswer }
    ensures unchanged { OnlyCounts (S.state store.old) (S.state store.new) }
    ensures faults { Counts (ends_by_fault result) (S.state store.old).faults (S.state store.new).faults }
{
    let gap = judge_to_gap(alloc, store, volume, base)?;
    match judge_past(alloc, store, volume, names, &gap)? {
        Some(refusal) => Ok(refusal.into()),
        None => Ok(RecoverError::MissingObject { number: missing }),
    }
}

// Goes on with a list that begins at the newest checkpoint: its objects are adopted, and the others judged,
// where these are the names of the objects that there are.
fn go_on<S: Store>(
    alloc: Global,
    store: &mut S,
    log: ObjLog<S::Receipt>,
    names: &[ObjName],
) -> Result<ObjLog<S::Receipt>, RecoverError>
    requires list { IsListUpTo log.uploads.uuid log.batch.geometry log.uploads.ancestors
        log.uploads.window.last log.uploads.queue.end log }
    requires limits { IsTrue (is_within_limits log.batch.geometry) }
    requires order { IsUploads log.uploads }
    ensures { GoesOnOf (TellsBytes S.Receipt.state) log names.now (S.state store.old) (S.state store.new)
        result }
{
    let mut log = log;
    let left = match adopt_all(alloc, store, &mut log) {
        Ok(left) => left,
        Err(error) => {
            drop(log);
            return Err(error);
        }
    };
    match judge_rest(alloc, store, &log, names, left) {
        Ok(()) => Ok(log),
        Err(error) => {
            drop(log);
            Err(error)
        }
    }
}

// Judges the objects that were not adopted, from this one on or past the first missing number. The error
// refuses all, or there is no answer.
fn judge_rest<S: Store>(
    alloc: Global,
    store: &mut S,
    log: &ObjLog<S::Receipt>,
    names: &[ObjName],
    left: Option<Reached>,
) -> Result<(), RecoverError>
    ensures judged { TellsBytes S.Receipt.state → OnOk result (IfSome (S.state store.old).objects (λ objects.
        JudgesRest objects log.now names.now left None)) }
    ensures refused { TellsBytes S.Receipt.state
        → IfErr result (λ error. IfSome (S.state store.old).objects (λ objects.
        RefusesRest objects log.now names.now left error)) }
    ensures unchanged { OnlyCounts (S.state store.old) (S.state store.new) }
    ensures faults { Counts (ends_by_fault result) (S.state store.old).faults (S.state store.new).faults }
{
    let volume = expected_of_list(log);
    let gap = reach_gap(alloc, store, log, &volume, left)?;
    match judge_past(alloc, store, &volume, names, &gap)? {
        Some(refusal) => Err(refusal.into()),
        None => Ok(()),
    }
}

// Judges the objects that were not adopted, from this one on, up to the first missing number.
fn reach_gap<S: Store>(
    alloc: Global,
    store: &mut S,
    log: &ObjLog<S::Receipt>,
    volume: &Expected,
    left: Option<Reached>,
) -> Result<Reached, RecoverError>
    ensures gap { TellsBytes S.Receipt.state
        → IfOk result (λ gap. IfSome (S.state store.old).objects (λ objects.
        ReachesGap volume.now objects log.now left gap)) }
    ensures answer { IfErr result IsNoAnswer }
    ensures unchanged { OnlyCounts (S.state store.old) (S.state store.new) }
    ensures faults { Counts (ends_by_fault result) (S.state store.old).faults (S.state store.new).faults }
{
    match left {
        Some(reached) => judge_to_gap(alloc, store, volume, reached),
        None => Ok(adopted(log)),
    }
}

// Marks in a list the objects that holds keep, where these are the names of all objects that there are.
fn with_held<S: Store>(
    alloc: Global,
    store: &mut S,
    log: ObjLog<S::Receipt>,
    names: &[ObjName],
) -> Result<ObjLog<S::Receipt>, RecoverError>
    requires names { AreNamesOf log.uploads.uuid names.now }
    ensures { HoldsOf (TellsBytes S.Receipt.state) log names.now (S.state store.old) (S.state store.new)
        result }
{
    let mut log = log;
    match mark_held(alloc, store, &mut log, names) {
        Ok(()) => Ok(log),
        Err(error) => {
            drop(log);
            Err(error)
        }
    }
}

/// What is expected of the objects of the volume of a list, but for their numbers and ends.
pub(crate) fn expected_of_list<R: Receipt>(log: &ObjLog<R>) -> Expected
    ensures { result ≡ expected_of_volume log.now }
{
    Expected {
        uuid: log.uploads().uuid().into_bytes(),
        number: 0,
        sectors: log.batch().geometry().sectors,
        ancestors: log.uploads().ancestors(),
        end_before: None,
    }
}

// How far the objects of a list were judged when all up to the first missing number were adopted.
fn adopted<R: Receipt>(log: &ObjLog<R>) -> Reached
    ensures { result ≡ reached_by log.now }
{
    Reached {
        number: log.uploads().last(),
        end: Some(log.uploads().end()),
        refused: None,
    }
}
