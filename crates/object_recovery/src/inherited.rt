ghost use Rattle.std.specs.Prelude.{◌≡◌, ◌≤◌, ◌+◌, ℕ, [], Some, IfOk, IfErr, OnOk, List, length};
ghost use Rattle.std.specs.List.{All};
ghost use Rattle.lsvd_fault.specs.Faults.{Counts};
ghost use Rattle.lsvd_objstore.specs.Store.{OnlyCounts};
ghost use Rattle.extent_map.specs.declared.extent.Extent.{Extent};
ghost use Rattle.ckpt_format.specs.declared.place.StoredPlace.{StoredPlace};
ghost use Rattle.ckpt_format.specs.Checkpoint.{IsCheckpoint};
ghost use Rattle.object_uploads.specs.Order.{ComesLast};
ghost use Rattle.stopped_volume.specs.Ancestors.{uuid_in_chain};
ghost use Rattle.stopped_volume.specs.Store.{TellsBytes};
ghost use Rattle.object_recovery.specs.declared.inherited.Named.{Named};
ghost use Rattle.object_recovery.specs.Checkpoints.{expected_of};
ghost use Rattle.object_recovery.specs.Faults.{ends_by_fault, IsNoAnswer};
ghost use Rattle.object_recovery.specs.Inherited.{AreInOrder, AreNamedBy, IsNoted, IsOfLevelUpTo};
ghost use Rattle.object_recovery.specs.Inherited.{ComesAs, TakesInherited};

use crate::beginning::{Earlier, parts_of};
use crate::error::RecoverError;
use ckpt_format::{StoredPlace, read_checkpoint};
use clone_chain::Chain;
use extent_map::Extent;
use lsvd_base::Geometry;
use lsvd_names::{NameKind, ObjName, a_uuid_has_sixteen_bytes};
use lsvd_objstore::Store;
use obj_log::ObjLog;
use object_format::Expected;
use std::alloc::{AllocError, Global};
use uuid::Uuid;

/// An object of an ancestor that rows of a checkpoint name.
#[derive(Drop)]
pub(crate) struct Named {
    level: u32,
    number: u64,
    // Up to which sector of its payload rows name it.
    reach: u64,
}

/// How the objects of ancestors were taken up that rows name.
pub(crate) enum Inherited {
    /// All that are there were. This is the ancestor of the first that is absent, by level and then by
    /// number.
    Taken { absent: Option<Uuid> },
    /// The object of this number is there, and does not have what rows name of it.
    Lacking { number: u64 },
}

// What came of one object.
enum Coming {
    Taken,
    Absent,
    Lacking,
}

/// The objects of ancestors that the rows of a checkpoint name, by ascending level and then by number. The
/// bytes are the checkpoint under the expected number (a condition).
pub(crate) fn named_in(
    alloc: Global,
    bytes: &[u8],
    expected: &Expected,
) -> Result<Vec<Named>, AllocError>
    requires { (end : ℕ) × (rows : List (Extent StoredPlace)) × IsCheckpoint bytes.now expected.now end rows }
    ensures named { IfOk result (λ named. (end : ℕ) (rows : List (Extent StoredPlace))
        → IsCheckpoint bytes.now expected.now end rows → AreNamedBy rows named.items) }
    ensures levels { IfOk result (λ named. All (IsOfLevelUpTo expected.now.ancestors) named.items) }
    ensures order { IfOk result (λ named. AreInOrder named.items) }
{
    let mut named = Vec::new(alloc);
    let Ok(mut rows) = read_checkpoint(bytes, expected) else {
        return Ok(named);
    };
    while let Ok(Some(row)) = rows.next_row() {
        if row.place.level != 0 {
            note(&mut named, &row)?;
        }
    }
    Ok(named)
}

// Keeps that a row reaches into its object, which is an ancestor's (a condition).
fn note(named: &mut Vec<Named>, row: &Extent<StoredPlace>) -> Result<(), AllocError>
    requires order { AreInOrder named.old.items }
    requires inside { row.now.place.place + row.now.sectors ≤ 131071 }
    ensures { OnOk result (IsNoted row.now named.old.items named.new.items) }
{
    let level = row.place.level;
    let number = row.place.number;
    let reach = row.place.place + row.sectors;
    match named.binary_search_by(|object| {
        object.level.cmp(&level).then(object.number.cmp(&number))
    }) {
        Ok(at) => {
            let object = &mut named[at];
            object.reach = object.reach.max(reach);
        }
        Err(at) => {
            let object = Named {
                level,
                number,
                reach,
            };
            named.insert(at, object)?;
        }
    }
    Ok(())
}

/// Takes up those objects of ancestors in this chain that the store has, into a list that has none yet. They
/// are by ascending level, from 1 up to the last of the chain, and then by number (conditions).
pub(crate) fn take_inherited<S: Store>(
    alloc: Global,
    store: &mut S,
    geometry: &Geometry,
    chain: &Chain,
    log: &mut ObjLog<S::Receipt>,
    named: Vec<Named>,
) -> Result<Inherited, RecoverError>
    requires order { AreInOrder named.items }
    requires levels { All (IsOfLevelUpTo (length chain.now)) named.items }
    requires none { log.old.uploads.queue.inherited ≡ [] }
    requires ancestors { log.old.uploads.ancestors ≡ length chain.now }
    ensures taken { IfOk result (TakesInherited (TellsBytes S.Receipt.state) geometry.now chain.now
        (S.state store.old).objects named.items log.old log.new) }
    ensures answer { IfErr result IsNoAnswer }
    ensures unchanged { OnlyCounts (S.state store.old) (S.state store.new) }
    ensures faults { Counts (ends_by_fault result) (S.state store.old).faults (S.state store.new).faults }
{
    let mut absent = None;
    for object in named {
        let uuid = uuid_of(chain, object.level);
        match take_one(alloc, store, geometry, uuid, log, &object)? {
            Coming::Taken => {}
            Coming::Absent => absent = absent.or(Some(uuid)),
            Coming::Lacking => {
                return Ok(Inherited::Lacking {
                    number: object.number,
                });
            }
        }
    }
    Ok(Inherited::Taken { absent })
}

// The uuid of the ancestor at a level, which is one of the chain's (a condition).
fn uuid_of(chain: &Chain, level: u32) -> Uuid
    requires { (1 ≤ level) × (level ≤ length chain.now) }
    ensures { (own : List ℕ) → uuid_in_chain own chain.now level ≡ Some result }
{
    chain.ancestors()[level as usize - 1].uuid
}

// Takes up one object of the ancestor with this uuid, whose level the list may have, after all that it has
// (conditions), where the store has it.
fn take_one<S: Store>(
    alloc: Global,
    store: &mut S,
    geometry: &Geometry,
    uuid: Uuid,
    log: &mut ObjLog<S::Receipt>,
    object: &Named,
) -> Result<Coming, RecoverError>
    requires level { IsOfLevelUpTo log.old.uploads.ancestors object.now }
    requires last { ComesLast object.now.level object.now.number log.old.uploads.queue.inherited }
    ensures comes { IfOk result (ComesAs (TellsBytes S.Receipt.state)
        (expected_of uuid geometry.now log.old.uploads.ancestors) (S.state store.old).objects object.now
        log.old log.new) }
    ensures answer { IfErr result IsNoAnswer }
    ensures unchanged { OnlyCounts (S.state store.old) (S.state store.new) }
    ensures faults { Counts (ends_by_fault result) (S.state store.old).faults (S.state store.new).faults }
{
    a_uuid_has_sixteen_bytes(uuid);
    let number = object.number;
    let name = ObjName {
        uuid,
        kind: NameKind::Object,
        number,
    };
    let Some(receipt) = store.find(alloc, &name)? else {
        return Ok(Coming::Absent);
    };
    let found = Earlier {
        number,
        receipt,
        reach: object.reach,
    };
    let ancestors = log.uploads().ancestors();
    let Some((_, front)) = parts_of(alloc, store, uuid, geometry, ancestors, &found)? else {
        return Ok(Coming::Lacking);
    };
    log.uploads_mut()
        .add_inherited(object.level, number, front, found.receipt)?;
    Ok(Coming::Taken)
}
