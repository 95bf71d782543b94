ghost use Rattle.std.specs.Prelude.{◌≡◌, length, IfOk, IfErr, IfSome};
ghost use Rattle.lsvd_fault.specs.Faults.{Counts};
ghost use Rattle.lsvd_objstore.specs.Objects.{AreNamesOf, Lists};
ghost use Rattle.lsvd_objstore.specs.Store.{StoreState, OnlyCounts};
ghost use Rattle.stopped_volume.specs.Ancestors.{uuid_in_chain};
ghost use Rattle.stopped_volume.specs.Store.{TellsBytes};
ghost use Rattle.super_recovery.specs.Holds.{AreHoldsAmong};
ghost use Rattle.object_recovery.specs.Checkpoints.{expected_of};
ghost use Rattle.object_recovery.specs.Faults.{ends_by_fault as ends_by_fault_below};
ghost use Rattle.vol_check.specs.Errors.{ends_by_fault};
ghost use Rattle.vol_check.specs.Report.{IsReport, IsReportOf, IsCheckRefused, IsWhyNotChecked};
ghost use Rattle.vol_check.specs.Steps.{JudgesTo, RefusesPast};

use crate::error::CheckError;
use crate::lists::{checkpoints_among, missing_of, numbers_past, unnamed_below};
use crate::naming::{named_objects, object_numbers};
use crate::report::CheckReport;
use clone_chain::Chain;
use lsvd_base::Geometry;
use lsvd_names::{ObjName, a_uuid_has_sixteen_bytes};
use lsvd_objstore::{Receipt, Store};
use object_format::Expected;
use object_recovery::{
    Reached, RecoverError, expected_alone, judge_past, judge_to_gap, newest_checkpoint,
};
use std::alloc::Global;
use super_recovery::{FoundVolume, find_volume};
use uuid::Uuid;

/// Checks the volume with this uuid in a store: lists its holds and its checkpoints, and which of its objects
/// are stranded, unneeded or missing. The store is only read: it is listed once; the super object, the newest
/// epoch and the holds are read, of each object from the newest checkpoint on the header and the rows, of
/// each other one the header, and the checkpoints of holds. No payload is read. Each object of an ancestor
/// that is named is searched for by its name.
///
/// The report is exact where the store stays as it is meanwhile. Of a store that is served meanwhile it tells
/// what was there as it was read, so that an object which is removed between may be told as missing.
///
/// An error comes where, in the order of the tests:
///
/// - `NoVolume`, `BadSuper`: the volume as a whole is refused.
/// - `NoCheckpoint`: no object of the volume is a checkpoint.
/// - `BadObject`: an object past the newest checkpoint is bad. That of the greatest number is told, with the
///   first reason for it. Up to the first missing number an object is to go on at the end of the one before
///   it, where that one is of the grammar by itself; past that number it is to be of the grammar by itself.
///   Or none is bad, and a hold names the object of this number, which is there and is no checkpoint: the
///   least such number.
/// - `StoreFault`: a call of the store failed, and was counted by it.
/// - `OutOfMemory`: memory ran out.
pub fn check<S: Store>(alloc: Global, store: &mut S, uuid: Uuid) -> Result<CheckReport, CheckError>
    ensures report { TellsBytes S.Receipt.state
        → IfOk result (λ report. IfSome (S.state store.old).objects (λ objects.
        IsReport uuid objects report)) }
    ensures refused { TellsBytes S.Receipt.state
        → IfErr result (λ error. IfSome (S.state store.old).objects (λ objects.
        IsCheckRefused uuid objects error)) }
    ensures unchanged { OnlyCounts (S.state store.old) (S.state store.new) }
    ensures faults { Counts (ends_by_fault result) (S.state store.old).faults (S.state store.new).faults }
{
    let FoundVolume {
        volume,
        epoch: _,
        holds,
        names,
    } = find_volume(alloc, store, uuid)?;
    let geometry = volume.geometry(0);
    let chain = &volume.chain;
    let report = check_objects(
        alloc,
        store,
        uuid,
        &geometry,
        chain,
        names.as_slice(),
        holds,
    )?;
    Ok(report)
}

// Checks the objects of a volume with these ancestors, with the names of all its own objects and the numbers
// of its holds, ascending (conditions).
fn check_objects<S: Store>(
    alloc: Global,
    store: &mut S,
    uuid: Uuid,
    geometry: &Geometry,
    chain: &Chain,
    names: &[ObjName],
    holds: Vec<u64>,
) -> Result<CheckReport, RecoverError>
    requires names { AreNamesOf uuid names.now }
    requires holds { AreHoldsAmong uuid names.now holds.items }
    ensures report { TellsBytes S.Receipt.state
        → IfOk result (λ report. IfSome (S.state store.old).objects (λ objects. Lists uuid objects names.now
        → IsReportOf (expected_of uuid geometry.now (length chain.now)) (uuid_in_chain uuid chain.now)
        objects report)) }
    ensures refused { TellsBytes S.Receipt.state
        → IfErr result (λ error. IfSome (S.state store.old).objects (λ objects. Lists uuid objects names.now
        → IsWhyNotChecked (expected_of uuid geometry.now (length chain.now)) objects error)) }
    ensures unchanged { OnlyCounts (S.state store.old) (S.state store.new) }
    ensures faults { Counts (ends_by_fault_below result) (S.state store.old).faults
        (S.state store.new).faults }
{
    a_uuid_has_sixteen_bytes(uuid);
    let ancestors = chain.count();
    let base = newest_checkpoint(alloc, store, geometry, ancestors, names)?;
    let volume = expected_alone(uuid, geometry, ancestors, 0);
    let reached = Reached {
        number: base.number,
        end: Some(base.end),
        refused: None,
    };
    let last = last_number(alloc, store, &volume, names, reached)?;
    let named = named_objects(
        alloc,
        store,
        &volume,
        base.number,
        base.bytes.as_slice(),
        holds.as_slice(),
    )?;
    let numbers = object_numbers(alloc, names)?;
    let numbers = numbers.as_slice();
    let checkpoints = checkpoints_among(alloc, store, &volume, numbers, last)?;
    let missing = missing_of(alloc, store, chain, &named, numbers)?;
    Ok(CheckReport {
        uuid,
        holds,
        checkpoints,
        last,
        stranded: numbers_past(alloc, numbers, last)?,
        unneeded: unnamed_below(alloc, numbers, &named, base.number)?,
        missing,
    })
}

// The number before the first missing one past the newest checkpoint, which was reached, where no object past
// that is bad, and these are the names of the objects that there are. `BadObject` refuses them.
fn last_number<S: Store>(
    alloc: Global,
    store: &mut S,
    volume: &Expected,
    names: &[ObjName],
    reached: Reached,
) -> Result<u64, RecoverError>
    ensures judged { TellsBytes S.Receipt.state
        → IfOk result (λ last. IfSome (S.state store.old).objects (λ objects.
        JudgesTo volume.now objects names.now reached last)) }
    ensures refused { TellsBytes S.Receipt.state
        → IfErr result (λ error. IfSome (S.state store.old).objects (λ objects.
        RefusesPast volume.now objects names.now reached error)) }
    ensures unchanged { OnlyCounts (S.state store.old) (S.state store.new) }
    ensures faults { Counts (ends_by_fault_below result) (S.state store.old).faults
        (S.state store.new).faults }
{
    let gap = judge_to_gap(alloc, store, volume, reached)?;
    match judge_past(alloc, store, volume, names, &gap)? {
        Some(refusal) => Err(refusal.into()),
        None => Ok(gap.number),
    }
}
