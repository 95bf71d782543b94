ghost use Rattle.std.specs.Prelude.{◌≡◌, ◌↔◌, ◌≤◌, ◌<◌, ◌+◌, ℕ, [], false, None, IsTrue, IfOk, IfErr, IfSome};
ghost use Rattle.std.specs.Prelude.{IfNone};
ghost use Rattle.std.specs.Prelude.{OnOk, List, length};
ghost use Rattle.std.specs.Option.{IsSome};
ghost use Rattle.std.specs.List.{All, AllPairs, Contains};
ghost use Rattle.lsvd_base.specs.Limits.{is_within_limits};
ghost use Rattle.lsvd_names.specs.Names.{numbered_name};
ghost use Rattle.lsvd_objstore.specs.Objects.{AreNamesOf, Lists};
ghost use Rattle.lsvd_objstore.specs.Store.{OnlyCounts};
ghost use Rattle.lsvd_fault.specs.Faults.{Counts};
ghost use Rattle.extent_map.specs.declared.extent.Extent.{Extent};
ghost use Rattle.object_table.specs.Table.{IsNewest};
ghost use Rattle.ckpt_format.specs.declared.place.StoredPlace.{StoredPlace};
ghost use Rattle.ckpt_format.specs.Checkpoint.{IsCheckpoint};
ghost use Rattle.object_uploads.specs.Checkpoint.{mapped_place};
ghost use Rattle.stopped_volume.specs.Store.{TellsBytes};
ghost use Rattle.object_recovery.specs.Faults.{ends_by_fault, IsNoAnswer};
ghost use Rattle.object_recovery.specs.Checkpoints.{expected_of, IsReadCheckpoint};
ghost use Rattle.object_recovery.specs.Earlier.{EarlierObject, AreEarlier, AreAllEarlier, IsBefore, ReachAll};
ghost use Rattle.object_recovery.specs.Earlier.{AreSameObjects, IsReachedIfOwn, HasEarlier, NamesNone};
ghost use Rattle.object_recovery.specs.Beginning.{BeginsWith, HasPartsOrLacks, TakesUpOrLacks, LacksReach};
ghost use Rattle.object_recovery.specs.Beginning.{HasTakenUp, MayMap, HasRows};
ghost use Rattle.object_recovery.specs.Inherited.{TakesAll};

use crate::checkpoint::{StoredCheckpoint, expected_alone};
use crate::error::RecoverError;
use crate::inherited::{Inherited, named_in, take_inherited};
use crate::reading::read_head;
use ckpt_format::{StoredPlace, read_checkpoint};
use clone_chain::Chain;
use extent_map::Extent;
use lsvd_base::Geometry;
use lsvd_names::{NameKind, ObjName, a_uuid_has_sixteen_bytes};
use lsvd_objstore::{Receipt, Store};
use obj_log::ObjLog;
use object_format::{Expected, Kind};
use std::alloc::{AllocError, Global};
use std::marker::Model;
use uuid::Uuid;
use volume_maps::ObjectPlace;

/// How a list begins with a checkpoint.
#[derive(Drop)]
pub(crate) enum Beginning<R: Receipt> {
    /// With its rows. Where an ancestor lacks an object that a row names, this is the ancestor of the first
    /// such object, by level and then by number.
    List {
        log: ObjLog<R>,
        absent: Option<Uuid>,
    },
    /// Not at all: a row names the object of this number, which does not have the row's sectors there.
    Missing {
        number: u64,
    },
}

// An object before the checkpoint.
#[derive(Drop)]
pub(crate) struct Earlier<R: Receipt> {
    pub(crate) number: u64,
    pub(crate) receipt: R,
    // Up to which sector of its payload rows name it; 0 where none does.
    pub(crate) reach: u64,
}

impl<R: Receipt> Model for Earlier<R> {
    ghost use Rattle.object_recovery.specs.Earlier.{EarlierObject};

    ghost Value = { EarlierObject };

    ghost view = { λ e. record { number = e.number; receipt = R.state e.receipt; reach = e.reach } };
}

/// Begins a list with a checkpoint of the volume, which is of the grammar, where these are the names of the
/// volume's objects (conditions): the objects before it that the store has are taken up, and those of the
/// ancestors in this chain that its rows name, and its rows are entered into the map. Of an object that a row
/// names the header is read, of any other nothing.
pub(crate) fn begin_list<S: Store>(
    alloc: Global,
    store: &mut S,
    uuid: Uuid,
    geometry: Geometry,
    chain: &Chain,
    checkpoint: StoredCheckpoint<S::Receipt>,
    names: &[ObjName],
) -> Result<Beginning<S::Receipt>, RecoverError>
    requires limits { IsTrue (is_within_limits geometry) }
    requires read { IsReadCheckpoint (expected_of uuid geometry (length chain.now)) checkpoint }
    requires names { AreNamesOf uuid names.now }
    ensures begins { IfOk result (BeginsWith (TellsBytes S.Receipt.state) uuid geometry chain.now checkpoint
        names.now (S.state store.old).objects) }
    ensures answer { IfErr result IsNoAnswer }
    ensures unchanged { OnlyCounts (S.state store.old) (S.state store.new) }
    ensures faults { Counts (ends_by_fault result) (S.state store.old).faults (S.state store.new).faults }
{
    let StoredCheckpoint {
        number,
        end,
        bytes,
        receipt,
    } = checkpoint;
    let ancestors = chain.count();
    let expected = expected_alone(uuid, &geometry, ancestors, number);
    let mut earlier = find_earlier(alloc, store, uuid, names, number)?;
    if let Some(number) = reach_all(bytes.as_slice(), &expected, earlier.as_mut_slice()) {
        return Ok(Beginning::Missing { number });
    }
    let mut log = ObjLog::new(alloc, uuid, geometry, ancestors, number, end);
    let bytes = bytes.as_slice();
    let taken = take_all(
        alloc, store, &geometry, chain, &mut log, bytes, &expected, earlier,
    )?;
    let absent = match taken {
        Inherited::Taken { absent } => absent,
        Inherited::Lacking { number } => return Ok(Beginning::Missing { number }),
    };
    map_rows(&mut log, bytes, &expected)?;
    // The table of a list has no object 0: a checkpoint of that number has no rows and passes nothing.
    if number != 0 {
        log.uploads_mut().begin(receipt)?;
    }
    // The objects of each list are in order, which a contract tells only where one is read.
    let _ = log.uploads().frontier();
    Ok(Beginning::List { log, absent })
}

// The objects before a number that the store has, by ascending number, with these names of all its objects.
fn find_earlier<S: Store>(
    alloc: Global,
    store: &mut S,
    uuid: Uuid,
    names: &[ObjName],
    number: u64,
) -> Result<Vec<Earlier<S::Receipt>>, RecoverError>
    requires { AreNamesOf uuid names.now }
    ensures earlier { IfOk result (λ earlier. AreEarlier uuid number earlier.items) }
    ensures none { IfOk result (λ earlier. ReachAll [] earlier.items) }
    ensures all { IfOk result (λ earlier. IfSome (S.state store.old).objects (λ objects.
        Lists uuid objects names.now → AreAllEarlier uuid objects number earlier.items)) }
    ensures tells { TellsBytes S.Receipt.state
        → IfOk result (λ earlier. All (λ (e : EarlierObject). IsSome e.receipt.told) earlier.items) }
    ensures answer { IfErr result IsNoAnswer }
    ensures unchanged { OnlyCounts (S.state store.old) (S.state store.new) }
    ensures faults { Counts (ends_by_fault result) (S.state store.old).faults (S.state store.new).faults }
{
    a_uuid_has_sixteen_bytes(uuid);
    let mut earlier = Vec::new(alloc);
    for name in names {
        if !is_before(name, number) {
            continue;
        }
        earlier.reserve(1)?;
        if let Some(receipt) = store.find(alloc, name)? {
            earlier.push_reserved(Earlier {
                number: name.number,
                receipt,
                reach: 0,
            });
        }
    }
    Ok(earlier)
}

// Whether the name is that of an object before a number, from 1 on.
fn is_before(name: &ObjName, number: u64) -> bool
    ensures { IsTrue result ↔ IsBefore number name.now }
{
    name.kind == NameKind::Object && 0 < name.number && name.number < number
}

// Goes over the rows of a checkpoint, which the bytes are under the expected number, and keeps how far those
// of the volume's own objects reach in each, none of which is reached yet (conditions). The number of an
// object is answered that such a row names and that is not there.
fn reach_all<R: Receipt>(
    bytes: &[u8],
    expected: &Expected,
    earlier: &mut [Earlier<R>],
) -> Option<u64>
    requires checkpoint { (end : ℕ) × (rows : List (Extent StoredPlace))
        × IsCheckpoint bytes.now expected.now end rows }
    requires order { AllPairs (λ (a b : EarlierObject). a.number < b.number) earlier.old }
    requires none { ReachAll [] earlier.old }
    ensures same { AreSameObjects earlier.old earlier.new }
    ensures all { IfNone result ((end : ℕ) (rows : List (Extent StoredPlace))
        → IsCheckpoint bytes.now expected.now end rows → ReachAll rows earlier.new) }
    ensures missing { IfSome result (λ number. (end : ℕ) (rows : List (Extent StoredPlace))
        → IsCheckpoint bytes.now expected.now end rows → NamesNone rows earlier.old number) }
{
    let Ok(mut rows) = read_checkpoint(bytes, expected) else {
        return None;
    };
    while let Ok(Some(row)) = rows.next_row() {
        if !reach(earlier, &row) {
            return Some(row.place.number);
        }
    }
    None
}

// Keeps that a row reaches into its object, where that is the volume's own, and the objects are by ascending
// number (a condition). False is where that is not there.
fn reach<R: Receipt>(earlier: &mut [Earlier<R>], row: &Extent<StoredPlace>) -> bool
    requires order { AllPairs (λ (a b : EarlierObject). a.number < b.number) earlier.old }
    requires inside { row.now.place.place + row.now.sectors ≤ 131071 }
    ensures reached { IsTrue result → IsReachedIfOwn row.now earlier.old earlier.new }
    ensures own { result ≡ false → row.now.place.level ≡ 0 }
    ensures absent { result ≡ false → HasEarlier earlier.old row.now.place.number → ⊥ }
    ensures same { result ≡ false → earlier.new ≡ earlier.old }
{
    if row.place.level != 0 {
        return true;
    }
    let number = row.place.number;
    match earlier.binary_search_by_key(&number, |object| object.number) {
        Ok(at) => {
            let object = &mut earlier[at];
            object.reach = object.reach.max(row.place.place + row.sectors);
            true
        }
        Err(_) => false,
    }
}

// Takes up the objects before the checkpoint into a list, which has none yet, and those of ancestors that its
// rows name. The bytes are the checkpoint under the expected number (conditions).
fn take_all<S: Store>(
    alloc: Global,
    store: &mut S,
    geometry: &Geometry,
    chain: &Chain,
    log: &mut ObjLog<S::Receipt>,
    bytes: &[u8],
    expected: &Expected,
    earlier: Vec<Earlier<S::Receipt>>,
) -> Result<Inherited, RecoverError>
    requires new { HasTakenUp log.old.uploads.uuid geometry.now log.old.uploads.ancestors
        log.old.uploads.queue.frontier log.old.uploads.queue.end [] log.old }
    requires none { log.old.uploads.queue.inherited ≡ [] }
    requires ancestors { log.old.uploads.ancestors ≡ length chain.now }
    requires expected { expected.now.ancestors ≡ length chain.now }
    requires checkpoint { (end : ℕ) × (rows : List (Extent StoredPlace))
        × IsCheckpoint bytes.now expected.now end rows }
    requires earlier { AreEarlier log.old.uploads.uuid log.old.uploads.queue.frontier earlier.items }
    ensures taken { IfOk result (TakesAll (TellsBytes S.Receipt.state) geometry.now chain.now
        (S.state store.old).objects bytes.now expected.now earlier.items log.old log.new) }
    ensures answer { IfErr result IsNoAnswer }
    ensures unchanged { OnlyCounts (S.state store.old) (S.state store.new) }
    ensures faults { Counts (ends_by_fault result) (S.state store.old).faults (S.state store.new).faults }
{
    if let Some(number) = take_up(alloc, store, geometry, log, earlier)? {
        return Ok(Inherited::Lacking { number });
    }
    let named = named_in(alloc, bytes, expected)?;
    take_inherited(alloc, store, geometry, chain, log, named)
}

// Takes the objects up into a list, which has none yet (a condition). The number of one is answered that does
// not have what rows name of it: its header is none of a data object or a copy, or its payload is shorter
// than they reach.
fn take_up<S: Store>(
    alloc: Global,
    store: &mut S,
    geometry: &Geometry,
    log: &mut ObjLog<S::Receipt>,
    earlier: Vec<Earlier<S::Receipt>>,
) -> Result<Option<u64>, RecoverError>
    requires new { HasTakenUp log.old.uploads.uuid geometry.now log.old.uploads.ancestors
        log.old.uploads.queue.frontier log.old.uploads.queue.end [] log.old }
    requires earlier { AreEarlier log.old.uploads.uuid log.old.uploads.queue.frontier earlier.items }
    ensures taken { IfOk result (λ missing. IfNone missing (HasTakenUp log.old.uploads.uuid geometry.now
        log.old.uploads.ancestors log.old.uploads.queue.frontier log.old.uploads.queue.end earlier.items
        log.new)) }
    ensures missing { IfOk result (λ missing. IfSome missing (λ number. (e : EarlierObject)
        × Contains earlier.items e × (e.number ≡ number)
        × LacksReach (expected_of log.old.uploads.uuid geometry.now log.old.uploads.ancestors) e)) }
    ensures inherited { IfOk result (λ missing. IfNone missing (log.new.uploads.queue.inherited
        ≡ log.old.uploads.queue.inherited)) }
    ensures answer { IfErr result IsNoAnswer }
    ensures unchanged { OnlyCounts (S.state store.old) (S.state store.new) }
    ensures faults { Counts (ends_by_fault result) (S.state store.old).faults (S.state store.new).faults }
{
    for object in earlier {
        let number = object.number;
        if !take_one_up(alloc, store, geometry, log, object)? {
            return Ok(Some(number));
        }
    }
    Ok(None)
}

// Takes one object up, whose number is greater than those of all others and before the checkpoint
// (conditions). False is where it does not have what rows name of it.
fn take_one_up<S: Store>(
    alloc: Global,
    store: &mut S,
    geometry: &Geometry,
    log: &mut ObjLog<S::Receipt>,
    object: Earlier<S::Receipt>,
) -> Result<bool, RecoverError>
    requires newest { IsNewest log.old.uploads.queue.maps.objects object.number }
    requires before { object.number < log.old.uploads.queue.frontier }
    requires named { object.receipt.name ≡ numbered_name log.old.uploads.uuid object.number }
    requires sealed { log.old.uploads.queue.sealed ≡ [] }
    requires removal { log.old.uploads.queue.removal ≡ None }
    ensures taken { IfOk result (λ taken. TakesUpOrLacks
        (expected_of log.old.uploads.uuid geometry.now log.old.uploads.ancestors) object taken log.old
        log.new) }
    ensures answer { IfErr result IsNoAnswer }
    ensures unchanged { OnlyCounts (S.state store.old) (S.state store.new) }
    ensures faults { Counts (ends_by_fault result) (S.state store.old).faults (S.state store.new).faults }
{
    let uuid = log.uploads().uuid();
    let ancestors = log.uploads().ancestors();
    let Some((payload, front)) = parts_of(alloc, store, uuid, geometry, ancestors, &object)? else {
        return Ok(false);
    };
    log.uploads_mut()
        .add_found(object.number, payload, front, object.receipt)?;
    Ok(true)
}

// The sectors of payload of an object of the volume with this uuid, and those before it, by its header; none
// where that is none of a data object or a copy, or where the payload is shorter than rows reach. Both are 0
// of an object that none names.
pub(crate) fn parts_of<S: Store>(
    alloc: Global,
    store: &mut S,
    uuid: Uuid,
    geometry: &Geometry,
    ancestors: u32,
    object: &Earlier<S::Receipt>,
) -> Result<Option<(u64, u64)>, RecoverError>
    ensures parts { IfOk result (HasPartsOrLacks (expected_of uuid geometry.now ancestors) object.now) }
    ensures answer { IfErr result IsNoAnswer }
    ensures unchanged { OnlyCounts (S.state store.old) (S.state store.new) }
    ensures faults { Counts (ends_by_fault result) (S.state store.old).faults (S.state store.new).faults }
{
    if object.reach == 0 {
        return Ok(Some((0, 0)));
    }
    let expected = expected_alone(uuid, geometry, ancestors, object.number);
    let header = match read_head(
        alloc,
        store,
        &object.receipt,
        &expected,
        &mut Vec::new(alloc),
    ) {
        Ok(header) => header,
        Err(RecoverError::BadObject { .. }) => return Ok(None),
        Err(error) => return Err(error),
    };
    if header.kind == Kind::Checkpoint || header.payload < object.reach {
        return Ok(None);
    }
    Ok(Some((header.payload, header.front_sectors())))
}

// Enters the rows of a checkpoint into the map of a list, which has none yet. The bytes are a checkpoint of
// the list's volume under the expected number, and the list has the volume's own objects that they name
// (conditions).
fn map_rows<R: Receipt>(
    log: &mut ObjLog<R>,
    bytes: &[u8],
    expected: &Expected,
) -> Result<(), AllocError>
    requires checkpoint { (end : ℕ) × (rows : List (Extent StoredPlace))
        × IsCheckpoint bytes.now expected.now end rows × MayMap rows log.old }
    requires sectors { expected.now.sectors ≡ log.old.uploads.sectors }
    requires ancestors { expected.now.ancestors ≡ log.old.uploads.ancestors }
    requires sealed { log.old.uploads.queue.sealed ≡ [] }
    requires removal { log.old.uploads.queue.removal ≡ None }
    requires settled { log.old.uploads.queue.maps.settled.rows ≡ [] }
    ensures { OnOk result ((end : ℕ) (rows : List (Extent StoredPlace))
        → IsCheckpoint bytes.now expected.now end rows → HasRows rows log.old log.new) }
{
    let Ok(mut rows) = read_checkpoint(bytes, expected) else {
        return Ok(());
    };
    while let Ok(Some(row)) = rows.next_row() {
        log.uploads_mut().map_found(&mapped_row(&row))?;
    }
    Ok(())
}

// A row of a checkpoint as one of the map. A payload may have its places (a condition).
fn mapped_row(row: &Extent<StoredPlace>) -> Extent<ObjectPlace>
    requires { row.now.place.place + row.now.sectors ≤ 131071 }
    ensures lba { result.lba ≡ row.now.lba }
    ensures sectors { result.sectors ≡ row.now.sectors }
    ensures place { result.place ≡ mapped_place row.now.place }
{
    Extent {
        lba: row.lba,
        sectors: row.sectors,
        place: ObjectPlace {
            level: row.place.level,
            number: row.place.number,
            sector: row.place.place as u32,
        },
    }
}
