ghost use Rattle.std.specs.Prelude.{◌≡◌, ◌+◌, ◌^◌, ◌<◌, IfOk, IfErr, IfSome};
ghost use Rattle.lsvd_objstore.specs.Store.{StoreState, ReceiptState, OnlyCounts};
ghost use Rattle.lsvd_fault.specs.Faults.{Counts};
ghost use Rattle.object_recovery.specs.Faults.{ends_by_fault, IsNoAnswer};
ghost use Rattle.stopped_volume.specs.Store.{TellsBytes};
ghost use Rattle.object_recovery.specs.Judged.{judged_by, refused_with, StaysRefused, IsJudgement};
ghost use Rattle.object_recovery.specs.Judged.{IsJudgedAlone};
ghost use Rattle.object_recovery.specs.Judged.{IsJudgedNext, GoesToGap, JudgesPast};

use crate::error::RecoverError;
use crate::naming::object_name;
use crate::reading::{ReadObject, read_object};
use crate::removal::is_past;
use lsvd_names::{ObjName, a_uuid_has_sixteen_bytes};
use lsvd_objstore::Store;
use object_format::{BadObject, Expected};
use std::alloc::Global;
use uuid::Uuid;

/// Why the objects of a volume are refused: one of them is bad.
#[derive(Clone, Copy, Drop)]
pub struct ObjectRefusal {
    /// Its number.
    pub number: u64,
    /// The first reason for which it is bad.
    pub reason: BadObject,
}

/// How far the objects of a volume were judged: each from the newest checkpoint on, up to one, and none of
/// them is missing.
#[derive(Clone, Copy, Drop)]
pub struct Reached {
    /// The number of the last one.
    pub number: u64,
    /// Its end, where it is of the grammar by itself.
    pub end: Option<u64>,
    /// Why they are refused, if they are: for the greatest number that is bad.
    pub refused: Option<ObjectRefusal>,
}

// How one object was judged.
#[derive(Clone, Copy, Drop)]
struct Judged {
    // Its end, where it is of the grammar by itself.
    end: Option<u64>,
    // Why it is bad, if it is.
    bad: Option<BadObject>,
}

/// Judges the objects past those that were reached, up to the first missing number.
pub fn judge_to_gap<S: Store>(
    alloc: Global,
    store: &mut S,
    volume: &Expected,
    from: Reached,
) -> Result<Reached, RecoverError>
    ensures gap { TellsBytes S.Receipt.state
        → IfOk result (λ gap. IfSome (S.state store.old).objects (λ objects.
        GoesToGap volume.now objects from gap)) }
    ensures answer { IfErr result IsNoAnswer }
    ensures unchanged { OnlyCounts (S.state store.old) (S.state store.new) }
    ensures faults { Counts (ends_by_fault result) (S.state store.old).faults (S.state store.new).faults }
{
    let mut reached = from;
    while reached.number < u64::MAX {
        let Some(next) = judge_next(alloc, store, volume, &reached)? else {
            return Ok(reached);
        };
        reached = next;
    }
    Ok(reached)
}

/// Judges the objects past the first missing number, where these are the names of all objects that there are,
/// in ascending order. Why the objects are refused then is answered.
pub fn judge_past<S: Store>(
    alloc: Global,
    store: &mut S,
    volume: &Expected,
    names: &[ObjName],
    gap: &Reached,
) -> Result<Option<ObjectRefusal>, RecoverError>
    ensures judged { TellsBytes S.Receipt.state
        → IfOk result (λ refused. IfSome (S.state store.old).objects (λ objects.
        JudgesPast volume.now objects names.now gap.now refused)) }
    ensures stays { IfOk result (StaysRefused gap.now.refused) }
    ensures answer { IfErr result IsNoAnswer }
    ensures unchanged { OnlyCounts (S.state store.old) (S.state store.new) }
    ensures faults { Counts (ends_by_fault result) (S.state store.old).faults (S.state store.new).faults }
{
    a_uuid_has_sixteen_bytes(Uuid::from_bytes(volume.uuid));
    let mut refused = gap.refused;
    for name in names {
        if is_past(name, gap.number) {
            refused = judge_alone(alloc, store, volume, name.number, refused)?;
        }
    }
    Ok(refused)
}

// Judges the object after the last that was reached, if there is one.
fn judge_next<S: Store>(
    alloc: Global,
    store: &mut S,
    volume: &Expected,
    reached: &Reached,
) -> Result<Option<Reached>, RecoverError>
    requires { reached.now.number + 1 < 2 ^ 64 }
    ensures number { IfOk result (λ next. IfSome next (λ next. next.number ≡ reached.now.number + 1)) }
    ensures stays { IfOk result (λ next.
        IfSome next (λ next. StaysRefused reached.now.refused next.refused)) }
    ensures judged { TellsBytes S.Receipt.state
        → IfOk result (λ next. IfSome (S.state store.old).objects (λ objects.
        IsJudgedNext volume.now objects reached.now next)) }
    ensures answer { IfErr result IsNoAnswer }
    ensures unchanged { OnlyCounts (S.state store.old) (S.state store.new) }
    ensures faults { Counts (ends_by_fault result) (S.state store.old).faults (S.state store.new).faults }
{
    let number = reached.number + 1;
    let expected = Expected {
        number,
        end_before: reached.end,
        ..*volume
    };
    let Some(judged) = judge(alloc, store, &expected)? else {
        return Ok(None);
    };
    Ok(Some(Reached {
        number,
        end: judged.end,
        refused: refused_with(number, judged.bad, reached.refused),
    }))
}

// Judges the object of a number by itself, and answers why the objects are refused then.
fn judge_alone<S: Store>(
    alloc: Global,
    store: &mut S,
    volume: &Expected,
    number: u64,
    refused: Option<ObjectRefusal>,
) -> Result<Option<ObjectRefusal>, RecoverError>
    ensures judged { TellsBytes S.Receipt.state
        → IfOk result (λ new. IfSome (S.state store.old).objects (λ objects.
        IsJudgedAlone volume.now objects number refused new)) }
    ensures stays { IfOk result (StaysRefused refused) }
    ensures answer { IfErr result IsNoAnswer }
    ensures unchanged { OnlyCounts (S.state store.old) (S.state store.new) }
    ensures faults { Counts (ends_by_fault result) (S.state store.old).faults (S.state store.new).faults }
{
    let expected = Expected {
        number,
        end_before: None,
        ..*volume
    };
    match judge(alloc, store, &expected)? {
        Some(judged) => Ok(refused_with(number, judged.bad, refused)),
        None => Ok(refused),
    }
}

/// Why objects are refused where the one of a number that is greater than theirs is bad for this reason, or
/// is not.
pub(crate) fn refused_with(
    number: u64,
    bad: Option<BadObject>,
    before: Option<ObjectRefusal>,
) -> Option<ObjectRefusal>
    ensures { result ≡ refused_with number bad before }
{
    match bad {
        Some(reason) => Some(ObjectRefusal { number, reason }),
        None => before,
    }
}

// Judges the expected object, if the store has it.
fn judge<S: Store>(
    alloc: Global,
    store: &mut S,
    expected: &Expected,
) -> Result<Option<Judged>, RecoverError>
    ensures judged { TellsBytes S.Receipt.state
        → IfOk result (λ judged. IfSome (S.state store.old).objects (λ objects.
        IsJudgement objects expected.now judged)) }
    ensures answer { IfErr result IsNoAnswer }
    ensures unchanged { OnlyCounts (S.state store.old) (S.state store.new) }
    ensures faults { Counts (ends_by_fault result) (S.state store.old).faults (S.state store.new).faults }
{
    let Some(receipt) = store.find(alloc, &object_name(expected))? else {
        return Ok(None);
    };
    let read = read_object(alloc, store, &receipt, expected);
    drop(receipt);
    Ok(Some(judged_by(read?)))
}

// How an object was judged that was read so.
fn judged_by(read: ReadObject) -> Judged
    ensures { result ≡ judged_by read }
{
    match read {
        ReadObject::Whole { rows, end } => {
            drop(rows);
            Judged {
                end: Some(end),
                bad: None,
            }
        }
        ReadObject::Bad { reason, end } => Judged {
            end,
            bad: Some(reason),
        },
    }
}
