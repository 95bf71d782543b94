use crate::names::name;
use lsvd_base::ObjectBytes;
use lsvd_objstore::{Receipt, Store};
use std::alloc::{AllocError, Global};
use test_output::TestError;

/// The bytes of an object.
pub fn object(alloc: Global, bytes: &[u8]) -> Result<ObjectBytes, AllocError> {
    ObjectBytes::from_bytes(bytes.to_vec(alloc)?)
}

/// Puts an object.
pub fn put<S: Store>(
    alloc: Global,
    store: &mut S,
    text: &str,
    bytes: &[u8],
) -> Result<S::Receipt, TestError> {
    let name = name(text)?;
    let object = object(alloc, bytes)?;
    let outcome = store.put(alloc, &name, &object);
    drop(object);
    Ok(outcome?)
}

/// Some bytes of a receipt, from a place on.
pub fn part<S: Store>(
    alloc: Global,
    store: &mut S,
    receipt: &S::Receipt,
    from: u64,
    count: usize,
) -> Result<Vec<u8>, TestError> {
    let size = receipt.len();
    if size < count as u64 || size - (count as u64) < from {
        return Err(TestError::Refused);
    }
    let mut part = vec![in alloc; 0xff; count]?;
    store.get(receipt, from, part.as_mut_slice())?;
    Ok(part)
}

/// All bytes of the object with a name, if there is one.
pub fn held<S: Store>(
    alloc: Global,
    store: &mut S,
    text: &str,
) -> Result<Option<Vec<u8>>, TestError> {
    let Some(receipt) = store.find(alloc, &name(text)?)? else {
        return Ok(None);
    };
    let count = receipt.len() as usize;
    Ok(Some(part(alloc, store, &receipt, 0, count)?))
}

/// Whether there is an object with a name, and has these bytes.
pub fn is_held<S: Store>(
    alloc: Global,
    store: &mut S,
    text: &str,
    bytes: &[u8],
) -> Result<bool, TestError> {
    let Some(found) = held(alloc, store, text)? else {
        return Ok(false);
    };
    let is_same = found.as_slice() == bytes;
    drop(found);
    Ok(is_same)
}
