ghost use Rattle.std.specs.Prelude.{◌≡◌, ◌≤◌, [], length, take, vec_len, IfOk, IfErr, OnOk};
ghost use Rattle.lsvd_objstore.specs.Store.{StoreState, ReceiptState, OnlyCounts, has_failed};
ghost use Rattle.lsvd_fault.specs.Faults.{Counts};
ghost use Rattle.object_recovery.specs.Faults.{ends_by_fault, IsNoAnswer};
ghost use Rattle.object_recovery.specs.Read.{AreFirstOf, HasHead, IsReadHeader, IsReadAs, IsReadOf};
ghost use Rattle.object_recovery.specs.Read.{IsWhyNotRead, HasNoHeader, IsToldRefused, IsToldEnd};

use crate::error::RecoverError;
use lsvd_base::SECTOR_BYTES;
use lsvd_objstore::{Receipt, Store, StoreError};
use object_format::{
    BadObject, Expected, Header, Kind, Rows, RowsReadError, read_header, read_rows,
};
use std::alloc::Global;

// The bytes of an object's header.
const HEADER_BYTES: u64 = 64;

/// An object of the store that was read.
#[derive(Drop)]
pub(crate) enum ReadObject {
    /// It is of the grammar, and goes on at the end before it where that is known. These are its rows and its
    /// end.
    Whole { rows: Rows, end: u64 },
    /// It is refused for this reason. The end is its own where it is of the grammar by itself, wherever it
    /// begins.
    Bad { reason: BadObject, end: Option<u64> },
}

/// Reads an object under the expected number.
pub(crate) fn read_object<S: Store>(
    alloc: Global,
    store: &mut S,
    receipt: &S::Receipt,
    expected: &Expected,
) -> Result<ReadObject, RecoverError>
    ensures read { IfOk result (IsReadOf (S.Receipt.state receipt.now) expected.now) }
    ensures answer { IfErr result IsNoAnswer }
    ensures unchanged { OnlyCounts (S.state store.old) (S.state store.new) }
    ensures faults { Counts (ends_by_fault result) (S.state store.old).faults (S.state store.new).faults }
{
    let mut bytes = Vec::new(alloc);
    let size = receipt.len();
    read_up_to(alloc, store, receipt, &mut bytes, size.min(HEADER_BYTES))?;
    match read_header(bytes.as_slice(), size, expected) {
        Ok(header) => read_rest(alloc, store, receipt, expected, &header, &mut bytes),
        Err(reason) => {
            let end = own_end(alloc, store, receipt, expected, reason, &mut bytes)?;
            Ok(ReadObject::Bad { reason, end })
        }
    }
}

// Reads on in an object whose header was read, with its first bytes (a condition).
fn read_rest<S: Store>(
    alloc: Global,
    store: &mut S,
    receipt: &S::Receipt,
    expected: &Expected,
    header: &Header,
    bytes: &mut Vec<u8>,
) -> Result<ReadObject, RecoverError>
    requires { IsReadHeader (S.Receipt.state receipt.now) expected.now bytes.old.items header.now }
    ensures read { IfOk result (IsReadOf (S.Receipt.state receipt.now) expected.now) }
    ensures answer { IfErr result IsNoAnswer }
    ensures unchanged { OnlyCounts (S.state store.old) (S.state store.new) }
    ensures faults { Counts (ends_by_fault result) (S.state store.old).faults (S.state store.new).faults }
{
    match read_front(alloc, store, receipt, expected, header, bytes) {
        Ok(rows) => Ok(ReadObject::Whole {
            rows,
            end: header.end_seq,
        }),
        Err(RecoverError::BadObject { reason, .. }) => Ok(ReadObject::Bad { reason, end: None }),
        Err(error) => Err(error),
    }
}

// The end of an object that is refused for this reason under the expected number, if it is of the grammar by
// itself: it may be where only the end before stands against it. Its first bytes were read (a condition).
fn own_end<S: Store>(
    alloc: Global,
    store: &mut S,
    receipt: &S::Receipt,
    expected: &Expected,
    reason: BadObject,
    bytes: &mut Vec<u8>,
) -> Result<Option<u64>, RecoverError>
    requires head { HasHead (S.Receipt.state receipt.now) bytes.old.items }
    requires refused { IsToldRefused (S.Receipt.state receipt.now) expected.now reason }
    ensures end { IfOk result (IsToldEnd (S.Receipt.state receipt.now) expected.now) }
    ensures answer { IfErr result IsNoAnswer }
    ensures unchanged { OnlyCounts (S.state store.old) (S.state store.new) }
    ensures faults { Counts (ends_by_fault result) (S.state store.old).faults (S.state store.new).faults }
{
    if reason != BadObject::Seqs {
        return Ok(None);
    }
    let alone = Expected {
        end_before: None,
        ..*expected
    };
    let Ok(header) = read_header(bytes.as_slice(), receipt.len(), &alone) else {
        return Ok(None);
    };
    match read_rest(alloc, store, receipt, &alone, &header, bytes)? {
        ReadObject::Whole { end, .. } => Ok(Some(end)),
        ReadObject::Bad { .. } => Ok(None),
    }
}

/// Reads an object's header under the expected number. The first of its bytes, which were read for that, then
/// stand in `bytes`, where none stood before (a condition).
pub fn read_head<S: Store>(
    alloc: Global,
    store: &mut S,
    receipt: &S::Receipt,
    expected: &Expected,
    bytes: &mut Vec<u8>,
) -> Result<Header, RecoverError>
    requires { bytes.old.items ≡ [] }
    ensures ok { IfOk result (IsReadHeader (S.Receipt.state receipt.now) expected.now bytes.new.items) }
    ensures bad { IfErr result (IsWhyNotRead (S.Receipt.state receipt.now) expected.now) }
    ensures none { IfErr result (HasNoHeader (S.Receipt.state receipt.now) expected.now) }
    ensures unchanged { OnlyCounts (S.state store.old) (S.state store.new) }
    ensures faults { Counts (ends_by_fault result) (S.state store.old).faults (S.state store.new).faults }
{
    let size = receipt.len();
    read_up_to(alloc, store, receipt, bytes, size.min(HEADER_BYTES))?;
    match read_header(bytes.as_slice(), size, expected) {
        Ok(header) => Ok(header),
        Err(reason) => Err(bad_object(expected, reason)),
    }
}

/// Reads on in an object until `bytes`, which are its first (a condition), are all of it.
pub(crate) fn read_whole<S: Store>(
    alloc: Global,
    store: &mut S,
    receipt: &S::Receipt,
    bytes: &mut Vec<u8>,
) -> Result<(), StoreError>
    requires less { vec_len bytes.old ≤ (S.Receipt.state receipt.now).size }
    requires first { AreFirstOf (S.Receipt.state receipt.now).told bytes.old.items }
    ensures count { OnOk result (vec_len bytes.new ≡ (S.Receipt.state receipt.now).size) }
    ensures first { OnOk result (AreFirstOf (S.Receipt.state receipt.now).told bytes.new.items) }
    ensures unchanged { OnlyCounts (S.state store.old) (S.state store.new) }
    ensures faults { Counts (has_failed result) (S.state store.old).faults (S.state store.new).faults }
{
    read_up_to(alloc, store, receipt, bytes, receipt.len())
}

/// Reads the rows of an object whose header was read, with its first bytes (a condition). A checkpoint with
/// rows is refused: these are not of the grammar yet.
pub(crate) fn read_front<S: Store>(
    alloc: Global,
    store: &mut S,
    receipt: &S::Receipt,
    expected: &Expected,
    header: &Header,
    bytes: &mut Vec<u8>,
) -> Result<Rows, RecoverError>
    requires { IsReadHeader (S.Receipt.state receipt.now) expected.now bytes.old.items header.now }
    ensures ok { IfOk result (IsReadAs (S.Receipt.state receipt.now) expected.now header.now) }
    ensures bad { IfErr result (IsWhyNotRead (S.Receipt.state receipt.now) expected.now) }
    ensures unchanged { OnlyCounts (S.state store.old) (S.state store.new) }
    ensures faults { Counts (ends_by_fault result) (S.state store.old).faults (S.state store.new).faults }
{
    if header.kind == Kind::Checkpoint && header.rows != 0 {
        return Err(bad_object(expected, BadObject::Rows));
    }
    let size = receipt.len();
    read_up_to(
        alloc,
        store,
        receipt,
        bytes,
        header.front_sectors() * SECTOR_BYTES,
    )?;
    match read_rows(alloc, bytes.as_slice(), size, expected, header) {
        Ok(rows) => Ok(rows),
        Err(RowsReadError::Bad(reason)) => Err(bad_object(expected, reason)),
        Err(RowsReadError::OutOfMemory) => Err(RecoverError::OutOfMemory),
    }
}

/// The error that the expected object is bad.
pub(crate) fn bad_object(expected: &Expected, reason: BadObject) -> RecoverError
    ensures { result ≡ RecoverError.BadObject expected.now.number reason }
{
    RecoverError::BadObject {
        number: expected.number,
        reason,
    }
}

// Reads on in an object until `bytes`, which are its first, are the first `count` of it. They are no more
// yet, and the object has so many (conditions).
fn read_up_to<S: Store>(
    alloc: Global,
    store: &mut S,
    receipt: &S::Receipt,
    bytes: &mut Vec<u8>,
    count: u64,
) -> Result<(), StoreError>
    requires less { vec_len bytes.old ≤ count }
    requires inside { count ≤ (S.Receipt.state receipt.now).size }
    requires first { AreFirstOf (S.Receipt.state receipt.now).told bytes.old.items }
    ensures count { OnOk result (vec_len bytes.new ≡ count) }
    ensures kept { OnOk result (take (length bytes.old.items) bytes.new.items ≡ bytes.old.items) }
    ensures first { OnOk result (AreFirstOf (S.Receipt.state receipt.now).told bytes.new.items) }
    ensures unchanged { OnlyCounts (S.state store.old) (S.state store.new) }
    ensures faults { Counts (has_failed result) (S.state store.old).faults (S.state store.new).faults }
{
    let from = bytes.len() as u64;
    let mut rest = vec![in alloc; 0u8; (count - from) as usize]?;
    store.get(receipt, from, rest.as_mut_slice())?;
    bytes.extend_from_slice(rest.as_slice())?;
    Ok(())
}
