ghost use Rattle.std.specs.Prelude.{◌≡◌, ◌↔◌, IsTrue, length, IfErr, OnOk};
ghost use Rattle.lsvd_names.specs.Spelling.{IsName};
ghost use Rattle.lsvd_objstore.specs.Objects.{IsRemoved};
ghost use Rattle.lsvd_objstore.specs.Store.{StoreState, Becomes};
ghost use Rattle.lsvd_fault.specs.Faults.{Counts};
ghost use Rattle.object_recovery.specs.Faults.{ends_by_fault, IsNoAnswer};
ghost use Rattle.object_recovery.specs.Checkpoints.{AreNames};
ghost use Rattle.object_recovery.specs.State.{IsGreatestNumber};
ghost use Rattle.object_recovery.specs.Removal.{Removes, IsPast, IsListedPast, RemovesFirst};

use crate::error::RecoverError;
use lsvd_names::{NameKind, ObjName};
use lsvd_objstore::{Store, an_object_is_changed_whole_or_not_at_all};
use std::alloc::Global;

/// Removes the numbered objects past a number that have one of these names.
pub(crate) fn remove_past<S: Store>(
    alloc: Global,
    store: &mut S,
    number: u64,
    names: &[ObjName],
) -> Result<(), RecoverError>
    requires { AreNames names.now }
    ensures all { OnOk result (Becomes (RemovesFirst names.now number (length names.now))
        (S.state store.old).objects (S.state store.new).objects) }
    ensures some { Becomes (Removes (IsListedPast names.now number)) (S.state store.old).objects
        (S.state store.new).objects }
    ensures answer { IfErr result IsNoAnswer }
    ensures faults { Counts (ends_by_fault result) (S.state store.old).faults (S.state store.new).faults }
{
    for name in names {
        if is_past(name, number) {
            remove(alloc, store, name)?;
        }
    }
    Ok(())
}

/// The greatest number of an object with one of these names; or this one, where none is greater.
pub(crate) fn greatest_number(names: &[ObjName], least: u64) -> u64
    ensures { IsGreatestNumber names.now least result }
{
    let mut greatest = least;
    for name in names {
        if is_past(name, greatest) {
            greatest = name.number;
        }
    }
    greatest
}

/// Whether the name is that of a numbered object past a number.
pub(crate) fn is_past(name: &ObjName, number: u64) -> bool
    ensures { IsTrue result ↔ IsPast number name.now }
{
    name.kind == NameKind::Object && number < name.number
}

// Removes the object with this name, which is one (a condition), if there is one.
fn remove<S: Store>(alloc: Global, store: &mut S, name: &ObjName) -> Result<(), RecoverError>
    requires { IsName name.now }
    ensures removed { OnOk result (Becomes (IsRemoved name.now) (S.state store.old).objects
        (S.state store.new).objects) }
    ensures some { Becomes (Removes (λ other. other ≡ name.now)) (S.state store.old).objects
        (S.state store.new).objects }
    ensures answer { IfErr result IsNoAnswer }
    ensures faults { Counts (ends_by_fault result) (S.state store.old).faults (S.state store.new).faults }
{
    an_object_is_changed_whole_or_not_at_all();
    let Some(receipt) = store.find(alloc, name)? else {
        return Ok(());
    };
    store.remove(&receipt)?;
    Ok(())
}
