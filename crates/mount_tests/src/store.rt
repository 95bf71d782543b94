// Stores that are not as the program leaves them.
ghost use Rattle.lsvd_names.specs.Spelling.{IsName};

use crate::bytes::{CLONE, Content, OTHER, Object, SUPER, UUID, add_epoch, add_hold, add_object};
use crate::names::{
    base_object_name, base_super_name, epoch_name, hold_name, object_name, other_super_name,
    super_name,
};
use lsvd_base::ObjectBytes;
use lsvd_names::ObjName;
use lsvd_objstore::{MemStore, Store};
use std::alloc::{AllocError, Global};
use test_output::TestError;

/// What stands under the number of an object.
#[derive(Clone, Copy)]
pub enum Stored {
    /// A checkpoint without rows, with this end.
    Checkpoint(u64),
    /// A checkpoint with this end, which maps a sector to the first place of the object of the second number.
    Mapping(u64, u64),
    /// A data object with the entries from the first seq to the second.
    Data(u64, u64),
    /// A copy without rows, with this end.
    Copy(u64),
    /// A data object that says half its number.
    Misnamed,
    /// A data object that says another volume.
    Foreign,
    /// The first 63 bytes of a data object.
    Cut,
}

/// A change of a store.
#[derive(Clone, Copy)]
pub enum Change {
    /// Puts the super object of a clone, of which the byte at this place is this one.
    Clone(usize, u8),
    NoSuper,
    /// Puts an epoch under a number, whose bytes say the second one.
    Epoch(u64, u64),
    NoEpoch(u64),
    /// Puts a hold under a number, whose bytes say the second one.
    Hold(u64, u64),
    Object(u64, Stored),
    NoObject(u64),
    /// Puts a super object for another volume, which is bad for that one.
    OtherVolume,
    /// Puts a super object for the ancestor of a clone, which is bad for that one.
    BaseSuper,
    /// Puts an empty object of that ancestor under a number.
    BaseObject(u64),
}

// The volume: epoch 0, and two entries in object 2, after the first checkpoint.
const VOLUME: &[Change] = &[
    Change::Epoch(0, 0),
    Change::Object(1, Stored::Checkpoint(0)),
    Change::Object(2, Stored::Data(0, 2)),
];

/// Puts the volume into a store.
pub fn put_volume(alloc: Global, store: &mut MemStore) -> Result<(), TestError> {
    let bytes = SUPER.to_vec(alloc)?;
    put(alloc, store, &super_name(), bytes)?;
    change_all(alloc, store, VOLUME)
}

/// Makes these changes.
pub fn change_all(
    alloc: Global,
    store: &mut MemStore,
    changes: &[Change],
) -> Result<(), TestError> {
    for change in changes {
        make(alloc, store, *change)?;
    }
    Ok(())
}

fn make(alloc: Global, store: &mut MemStore, change: Change) -> Result<(), TestError> {
    match change {
        Change::Clone(at, byte) => put(alloc, store, &super_name(), clone_with(alloc, at, byte)?),
        Change::NoSuper => remove(alloc, store, &super_name()),
        Change::Epoch(number, said) => put(alloc, store, &epoch_name(number), epoch(alloc, said)?),
        Change::NoEpoch(number) => remove(alloc, store, &epoch_name(number)),
        Change::Hold(number, said) => put(alloc, store, &hold_name(number), hold(alloc, said)?),
        Change::Object(number, stored) => {
            put(
                alloc,
                store,
                &object_name(number),
                object(alloc, number, stored)?,
            )
        }
        Change::NoObject(number) => remove(alloc, store, &object_name(number)),
        Change::OtherVolume => put(alloc, store, &other_super_name(), CLONE.to_vec(alloc)?),
        Change::BaseSuper => put(alloc, store, &base_super_name(), CLONE.to_vec(alloc)?),
        Change::BaseObject(number) => put(alloc, store, &base_object_name(number), Vec::new(alloc)),
    }
}

fn put(alloc: Global, store: &mut MemStore, name: &ObjName, bytes: Vec<u8>) -> Result<(), TestError>
    requires { IsName name.now }
{
    let object = ObjectBytes::from_bytes(bytes)?;
    let outcome = store.put(alloc, name, &object);
    drop(object);
    drop(outcome?);
    Ok(())
}

fn remove(alloc: Global, store: &mut MemStore, name: &ObjName) -> Result<(), TestError>
    requires { IsName name.now }
{
    if let Some(receipt) = store.find(alloc, name)? {
        store.remove(&receipt)?;
    }
    Ok(())
}

fn clone_with(alloc: Global, at: usize, byte: u8) -> Result<Vec<u8>, AllocError> {
    let mut bytes = CLONE.to_vec(alloc)?;
    if let Some(place) = bytes.get_mut(at) {
        *place = byte;
    }
    Ok(bytes)
}

fn epoch(alloc: Global, number: u64) -> Result<Vec<u8>, AllocError> {
    let mut bytes = Vec::new(alloc);
    add_epoch(&mut bytes, number)?;
    Ok(bytes)
}

fn hold(alloc: Global, number: u64) -> Result<Vec<u8>, AllocError> {
    let mut bytes = Vec::new(alloc);
    add_hold(&mut bytes, number)?;
    Ok(bytes)
}

fn object(alloc: Global, number: u64, stored: Stored) -> Result<Vec<u8>, AllocError> {
    let mut bytes = Vec::new(alloc);
    add_object(&mut bytes, &said_by(number, stored))?;
    if matches!(stored, Stored::Cut) {
        bytes.truncate(63);
    }
    Ok(bytes)
}

// What the header of an object says.
fn said_by(number: u64, stored: Stored) -> Object {
    match stored {
        Stored::Checkpoint(end) => at_end(3, number, end, Content::Nothing),
        Stored::Mapping(end, mapped) => at_end(3, number, end, Content::Maps(mapped)),
        Stored::Copy(end) => at_end(2, number, end, Content::Nothing),
        Stored::Data(first, end) => data(UUID, number, first, end),
        Stored::Misnamed => data(UUID, number / 2, 0, 1),
        Stored::Foreign => data(OTHER, number, 0, 1),
        Stored::Cut => data(UUID, number, 0, 1),
    }
}

// One that holds no entries.
fn at_end(kind: u32, number: u64, end: u64, content: Content) -> Object {
    Object {
        kind,
        uuid: UUID,
        number,
        first: end,
        end,
        content,
    }
}

fn data(uuid: [u8; 16], number: u64, first: u64, end: u64) -> Object {
    Object {
        kind: 1,
        uuid,
        number,
        first,
        end,
        content: Content::Zeros,
    }
}
