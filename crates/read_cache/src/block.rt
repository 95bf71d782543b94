ghost use Rattle.std.specs.Prelude.{◌≡◌, ◌+◌, ◌-◌, ◌%◌, ◌≤◌, length, take, drop, vec_len, IsTrue, IfOk};
ghost use Rattle.std.specs.Prelude.{IfSome, OnOk, is_err};
ghost use Rattle.lsvd_fault.specs.Faults.{Counts};
ghost use Rattle.lsvd_objstore.specs.Store.{OnlyCounts};
ghost use Rattle.read_cache.specs.Block.{BlockState, IsBlockOf, IsFilled};
ghost use Rattle.read_cache.specs.Reading.{AsksGetsOf};

use lsvd_fault::Failed;
use lsvd_objstore::{Receipt, Store};
use std::cmp::min;
use std::marker::Model;

/// How many bytes a block has; the last one of an object may have fewer.
pub(crate) const BLOCK_BYTES: u64 = 65_536;

/// A block of an object.
#[derive(Drop)]
pub(crate) struct Block<R: Receipt> {
    /// What the store gave for the object.
    receipt: R,
    /// The byte of the object at which it begins.
    start: u64,
    /// `BLOCK_BYTES` of them, of which the first are the object's: those up to its end.
    bytes: Vec<u8>,
}

impl<R: Receipt> Model for Block<R> {
    ghost use Rattle.read_cache.specs.Block.{BlockState, IsFilled};

    ghost Value = { BlockState };

    ghost view = { λ b. record { receipt = R.state b.receipt; start = b.start } };

    ghost invariant = { λ b. IsFilled (R.state b.receipt) b.start b.bytes.items };
}

impl<R: Receipt> Block<R> {
    /// Fetches the block of an object that begins at a byte of it (a condition), by one get, over the
    /// `BLOCK_BYTES` bytes of a memory.
    pub(crate) fn fetch<S: Store<Receipt = R>>(
        receipt: R,
        start: u64,
        memory: Vec<u8>,
        store: &mut S,
    ) -> Result<Block<R>, Failed>
        requires start { start ≤ (R.state receipt).size }
        requires memory { vec_len memory ≡ 65536 }
        ensures block { IfOk result (λ block. IsBlockOf (R.state receipt) start block) }
        ensures asked { AsksGetsOf (R.state receipt) 65536 1 (S.gets store.old) (S.gets store.new) }
        ensures unchanged { OnlyCounts (S.state store.old) (S.state store.new) }
        ensures count { Counts (is_err result) (S.state store.old).faults (S.state store.new).faults }
    {
        let mut bytes = memory;
        if let Err(error) = fill(&receipt, start, &mut bytes, store) {
            drop(receipt);
            drop(bytes);
            return Err(error);
        }
        Ok(Block {
            receipt,
            start,
            bytes,
        })
    }

    /// Gives bytes of an object from `from` on, over the whole of `buf`, if this is the block of that object
    /// that they lie in; whether it is. They are some of its bytes, and lie in one block (conditions).
    pub(crate) fn give(&self, receipt: &R, from: u64, buf: &mut [u8]) -> bool
        requires object { from + length buf.old ≤ (R.state receipt.now).size }
        requires block { from % 65536 + length buf.old ≤ 65536 }
        ensures given { IsBlockOf (R.state receipt.now) (from - from % 65536) self.now → IsTrue result }
        ensures bytes { IsTrue result → IfSome (R.state receipt.now).told
            (λ told. buf.new ≡ take (length buf.old) (drop from told)) }
    {
        let at = from % BLOCK_BYTES;
        if self.start != from - at || !self.receipt.same(receipt) {
            return false;
        }
        let at = at as usize;
        buf.copy_from_slice(&self.bytes[at..at + buf.len()]);
        true
    }

    /// Its memory, for another block.
    pub(crate) fn into_memory(self) -> Vec<u8>
        ensures { vec_len result ≡ 65536 }
    {
        let Block {
            receipt,
            start: _,
            bytes,
        } = self;
        drop(receipt);
        bytes
    }
}

// Reads the bytes of an object from one of them on, up to the end of the block that begins there, over the
// first of `BLOCK_BYTES` bytes (conditions).
fn fill<R: Receipt, S: Store<Receipt = R>>(
    receipt: &R,
    start: u64,
    bytes: &mut [u8],
    store: &mut S,
) -> Result<(), Failed>
    requires start { start ≤ (R.state receipt.now).size }
    requires block { length bytes.old ≡ 65536 }
    ensures filled { OnOk result (IsFilled (R.state receipt.now) start bytes.new) }
    ensures asked { AsksGetsOf (R.state receipt.now) 65536 1 (S.gets store.old) (S.gets store.new) }
    ensures unchanged { OnlyCounts (S.state store.old) (S.state store.new) }
    ensures count { Counts (is_err result) (S.state store.old).faults (S.state store.new).faults }
{
    let count = min(BLOCK_BYTES, receipt.len() - start) as usize;
    store.get(receipt, start, &mut bytes[..count])
}
