ghost use Rattle.std.specs.Prelude.{◌↔◌, IsTrue, IfOk, IfErr, IfSome, IfNone};
ghost use Rattle.lsvd_fault.specs.Faults.{Counts};
ghost use Rattle.lsvd_objstore.specs.Store.{StoreState, OnlyCounts};
ghost use Rattle.stopped_volume.specs.Ancestors.{HasAncestor, HasAncestors};
ghost use Rattle.super_recovery.specs.Ancestors.{IsNearestMissing};
ghost use Rattle.super_recovery.specs.Faults.{ends_by_fault, IsNoAnswer};

use crate::error::SuperError;
use crate::finding::has_super;
use clone_chain::{Ancestor, Chain};
use lsvd_names::ObjName;
use lsvd_objstore::Store;
use std::alloc::Global;
use uuid::Uuid;

/// The nearest ancestor of a volume, by its chain, of which the store lacks the super object or the
/// checkpoint that the chain names. None is where the store has both of each ancestor, whatever their bytes
/// are. The store is only searched for their names. The errors are `StoreFault`, where a call of the store
/// failed, which the store counted, and `OutOfMemory`.
pub fn missing_ancestor<S: Store>(
    alloc: Global,
    store: &mut S,
    chain: &Chain,
) -> Result<Option<Uuid>, SuperError>
    ensures found { IfOk result (λ missing. IfSome (S.state store.old).objects (λ objects.
        IfSome missing (IsNearestMissing chain.now objects))) }
    ensures none { IfOk result (λ missing. IfSome (S.state store.old).objects (λ objects.
        IfNone missing (HasAncestors objects chain.now))) }
    ensures answer { IfErr result IsNoAnswer }
    ensures unchanged { OnlyCounts (S.state store.old) (S.state store.new) }
    ensures faults { Counts (ends_by_fault result) (S.state store.old).faults (S.state store.new).faults }
{
    for ancestor in chain.ancestors() {
        if !has_ancestor(alloc, store, ancestor)? {
            return Ok(Some(ancestor.uuid));
        }
    }
    Ok(None)
}

// Whether a store has the super object of an ancestor and the checkpoint that was cloned.
fn has_ancestor<S: Store>(
    alloc: Global,
    store: &mut S,
    ancestor: &Ancestor,
) -> Result<bool, SuperError>
    ensures has { IfOk result (λ has. IfSome (S.state store.old).objects (λ objects.
        IsTrue has ↔ HasAncestor objects ancestor.now)) }
    ensures answer { IfErr result IsNoAnswer }
    ensures unchanged { OnlyCounts (S.state store.old) (S.state store.new) }
    ensures faults { Counts (ends_by_fault result) (S.state store.old).faults (S.state store.new).faults }
{
    if !has_super(alloc, store, ancestor.uuid)? {
        return Ok(false);
    }
    let checkpoint = ObjName::object(ancestor.uuid, ancestor.checkpoint);
    let receipt = store.find(alloc, &checkpoint)?;
    Ok(receipt.is_some())
}
