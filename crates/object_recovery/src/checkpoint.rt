ghost use Rattle.std.specs.Prelude.{◌≡◌, ℕ, ◌⊎◌, List, length, IfOk, IfErr, IfSome, IfNone, IsErrOf};
ghost use Rattle.std.specs.Prelude.{option_map};
ghost use Rattle.extent_map.specs.declared.extent.Extent.{Extent};
ghost use Rattle.lsvd_names.specs.Spelling.{IsUuid, IsName};
ghost use Rattle.lsvd_objstore.specs.Objects.{AreNamesOf, Lists};
ghost use Rattle.lsvd_objstore.specs.Store.{StoreState, ReceiptState, OnlyCounts};
ghost use Rattle.lsvd_fault.specs.Faults.{Counts};
ghost use Rattle.ckpt_format.specs.declared.place.StoredPlace.{StoredPlace};
ghost use Rattle.ckpt_format.specs.Checkpoint.{IsCheckpoint};
ghost use Rattle.stopped_volume.specs.Expected.{expected_alone};
ghost use Rattle.object_recovery.specs.Faults.{ends_by_fault, IsNoAnswer};
ghost use Rattle.stopped_volume.specs.Store.{TellsBytes};
ghost use Rattle.object_recovery.specs.Checkpoints.{expected_of, IsNoCheckpoint, IsReadCheckpoint};
ghost use Rattle.object_recovery.specs.Checkpoints.{IsStoredCheckpoint, IsCheckpointNamed, AreNames};
ghost use Rattle.object_recovery.specs.Checkpoints.{IsNewest, MayBeCheckpoint};

use crate::error::RecoverError;
use crate::reading::{read_head, read_whole};
use ckpt_format::read_checkpoint;
use lsvd_base::Geometry;
use lsvd_names::{NameKind, ObjName};
use lsvd_objstore::{Receipt, Store};
use object_format::{Expected, Kind};
use std::alloc::Global;
use std::marker::Model;
use uuid::Uuid;

/// A checkpoint that was read.
#[derive(Drop)]
pub struct StoredCheckpoint<R: Receipt> {
    /// Its number.
    pub number: u64,
    /// How many entries of the history are in it and in the objects before it.
    pub end: u64,
    /// All of its bytes, which are of the grammar.
    pub bytes: Vec<u8>,
    /// What the store gave for it.
    pub receipt: R,
}

impl<R: Receipt> Model for StoredCheckpoint<R> {
    ghost use Rattle.object_recovery.specs.Checkpoints.{ReadCheckpoint};

    ghost Value = { ReadCheckpoint };

    ghost view = { λ c. record {
      number = c.number;
      end = c.end;
      bytes = c.bytes.items;
      receipt = R.state c.receipt;
    } };
}

/// The newest checkpoint among names, which are those of a volume's objects, in ascending order: the first
/// bytes of objects are read from the last name on, and all of one whose header is that of a checkpoint,
/// until one is found. The volume has this many ancestors. `NoCheckpoint` comes where none is.
pub fn newest_checkpoint<S: Store>(
    alloc: Global,
    store: &mut S,
    geometry: &Geometry,
    ancestors: u32,
    names: &[ObjName],
) -> Result<StoredCheckpoint<S::Receipt>, RecoverError>
    requires { AreNames names.now }
    ensures read { IfOk result (λ newest. (uuid : List ℕ) → AreNamesOf uuid names.now
        → IsReadCheckpoint (expected_of uuid geometry.now ancestors) newest) }
    ensures newest { TellsBytes S.Receipt.state
        → IfOk result (λ newest. IfSome (S.state store.old).objects (λ objects.
        (uuid : List ℕ) → IsUuid uuid → Lists uuid objects names.now
        → IsStoredCheckpoint (expected_of uuid geometry.now ancestors) objects newest
        × IsNewest (expected_of uuid geometry.now ancestors) objects newest.number)) }
    ensures none { TellsBytes S.Receipt.state → IsErrOf result RecoverError.NoCheckpoint
        → IfSome (S.state store.old).objects (λ objects.
        (uuid : List ℕ) (number : ℕ) → IsUuid uuid → Lists uuid objects names.now
        → IsNoCheckpoint (expected_of uuid geometry.now ancestors) objects number) }
    ensures answer { IfErr result (λ error. (error ≡ RecoverError.NoCheckpoint) ⊎ IsNoAnswer error) }
    ensures unchanged { OnlyCounts (S.state store.old) (S.state store.new) }
    ensures faults { Counts (ends_by_fault result) (S.state store.old).faults (S.state store.new).faults }
{
    let mut left = names.len();
    while 0 < left {
        left -= 1;
        if let Some(newest) = checkpoint_named(alloc, store, geometry, ancestors, &names[left])? {
            return Ok(newest);
        }
    }
    Err(RecoverError::NoCheckpoint)
}

// The whole checkpoint with this name, which is one (a condition). None is where it is no checkpoint, and
// where no object has the name.
fn checkpoint_named<S: Store>(
    alloc: Global,
    store: &mut S,
    geometry: &Geometry,
    ancestors: u32,
    name: &ObjName,
) -> Result<Option<StoredCheckpoint<S::Receipt>>, RecoverError>
    requires { IsName name.now }
    ensures read { IfOk result (λ found. IfSome found (IsReadCheckpoint
        (expected_of name.now.uuid geometry.now ancestors))) }
    ensures named { TellsBytes S.Receipt.state
        → IfOk result (λ found. IfSome (S.state store.old).objects (λ objects.
        IsCheckpointNamed geometry.now ancestors objects name.now found)) }
    ensures answer { IfErr result IsNoAnswer }
    ensures unchanged { OnlyCounts (S.state store.old) (S.state store.new) }
    ensures faults { Counts (ends_by_fault result) (S.state store.old).faults (S.state store.new).faults }
{
    if name.kind != NameKind::Object {
        return Ok(None);
    }
    let Some(receipt) = store.find(alloc, name)? else {
        return Ok(None);
    };
    let expected = expected_alone(name.uuid, geometry, ancestors, name.number);
    let Some(bytes) = bytes_of_checkpoint(alloc, store, &receipt, &expected)? else {
        return Ok(None);
    };
    let Some(end) = end_of_rows(bytes.as_slice(), &expected) else {
        return Ok(None);
    };
    Ok(Some(StoredCheckpoint {
        number: name.number,
        end,
        bytes,
        receipt,
    }))
}

// All bytes of an object, where its header is that of a checkpoint under the expected number.
fn bytes_of_checkpoint<S: Store>(
    alloc: Global,
    store: &mut S,
    receipt: &S::Receipt,
    expected: &Expected,
) -> Result<Option<Vec<u8>>, RecoverError>
    ensures bytes { IfOk result (λ found. MayBeCheckpoint (S.Receipt.state receipt.now) expected.now
        (option_map (λ bytes. bytes.items) found)) }
    ensures answer { IfErr result IsNoAnswer }
    ensures unchanged { OnlyCounts (S.state store.old) (S.state store.new) }
    ensures faults { Counts (ends_by_fault result) (S.state store.old).faults (S.state store.new).faults }
{
    let mut bytes = Vec::new(alloc);
    let header = match read_head(alloc, store, receipt, expected, &mut bytes) {
        Ok(header) => header,
        Err(RecoverError::BadObject { .. }) => return Ok(None),
        Err(error) => return Err(error),
    };
    if header.kind != Kind::Checkpoint {
        return Ok(None);
    }
    read_whole(alloc, store, receipt, &mut bytes)?;
    Ok(Some(bytes))
}

// The end of the checkpoint that bytes are under the expected number; none where they are no such. Each of
// its rows is judged.
fn end_of_rows(bytes: &[u8], expected: &Expected) -> Option<u64>
    ensures is { IfSome result (λ end. (rows : List (Extent StoredPlace))
        × IsCheckpoint bytes.now expected.now end rows) }
    ensures none { IfNone result ((end : ℕ) (rows : List (Extent StoredPlace))
        → IsCheckpoint bytes.now expected.now end rows → ⊥) }
{
    let Ok(mut rows) = read_checkpoint(bytes, expected) else {
        return None;
    };
    loop {
        match rows.next_row() {
            Ok(Some(_)) => {}
            Ok(None) => return Some(rows.end_seq()),
            Err(_) => return None,
        }
    }
}

/// What is expected of an object of a volume with this many ancestors, where the end before it is not known.
pub fn expected_alone(uuid: Uuid, geometry: &Geometry, ancestors: u32, number: u64) -> Expected
    ensures { result ≡ expected_alone (expected_of uuid geometry.now ancestors) number }
{
    Expected {
        uuid: uuid.into_bytes(),
        number,
        sectors: geometry.sectors,
        ancestors,
        end_before: None,
    }
}
