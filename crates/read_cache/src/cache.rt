ghost use Rattle.std.specs.Prelude.{◌≡◌, ◌+◌, ◌-◌, ◌%◌, ◌≤◌, ◌++◌, length, take, drop, max, vec_len};
ghost use Rattle.std.specs.Prelude.{IsTrue, IfOk, IfSome, OnOk, is_err};
ghost use Rattle.lsvd_fault.specs.Faults.{Counts};
ghost use Rattle.lsvd_objstore.specs.Store.{OnlyCounts};
ghost use Rattle.read_cache.specs.Reading.{AsksGetsOf};

use crate::block::{BLOCK_BYTES, Block};
use lru::LruCache;
use lsvd_fault::Failed;
use lsvd_objstore::{Receipt, Store};
use std::alloc::{AllocError, Global};
use std::marker::Model;
use std::num::NonZeroUsize;

// Of how many objects it is known where the last read ended.
const OBJECTS: usize = 64;

// A read of so many bytes is long enough for a get of its own.
const LONG_READ: u64 = BLOCK_BYTES / 2;

// Which block of an object this is. Objects of two volumes, or of two kinds, may have one number: a block
// says itself which object it is of.
#[derive(Clone, Copy, Debug, PartialEq, Eq, Hash)]
struct BlockKey {
    number: u64,
    // The byte of the object at which it begins.
    start: u64,
}

// Why a block is to be kept, or is already.
#[derive(Clone, Copy, PartialEq, Eq)]
enum Due {
    // It is not: the store is asked for just the bytes of the read.
    No,
    // It was touched a short while ago.
    Touched,
    // The read goes on where the last one of the object ended.
    InOrder,
}

// The same of the two blocks of a read.
#[derive(Clone, Copy)]
struct BothDue {
    front: Due,
    back: Due,
}

/// A cache, in memory, of blocks of the objects of a store. A block has 64 KiB; the last one of an object may
/// have fewer.
///
/// A read of half a block or more goes to the store, and so does one that touches a block for the first time:
/// they ask for just their bytes. A block is fetched, whole, where a read goes on in order, at the byte where
/// the last one of the same object ended, and where it is touched again soon. Then it is kept, until its
/// memory is wanted: by the next block in order, since it was read to its end, or, as the one whose last use
/// is longest ago, by any other.
///
/// A block is of the object of its receipt, and answers for receipts that are the same. Those of a directory
/// do not tell objects apart that had one name and one length, so a cache is to go with its mount.
#[derive(Drop)]
pub struct ReadCache<R: Receipt> {
    alloc: Global,
    /// The most blocks that it keeps.
    capacity: usize,
    blocks: LruCache<BlockKey, Block<R>>,
    /// The blocks that were touched last and not fetched then: a quarter as many as are kept.
    noted: LruCache<BlockKey, ()>,
    /// Where the last read of an object ended, by its number.
    ends: LruCache<u64, u64>,
}

impl<R: Receipt> Model for ReadCache<R> {
    ghost Value = { Unit {0} };

    ghost view = { λ _. tt };
}

impl<R: Receipt> ReadCache<R> {
    /// An empty one that keeps at most this many blocks of 64 KiB; with 0 each read goes to the store. The
    /// one error is that memory ran out.
    pub fn new(alloc: Global, blocks: usize) -> Result<ReadCache<R>, AllocError> {
        let kept = LruCache::new(alloc, at_least_one(blocks))?;
        let noted = LruCache::new(alloc, at_least_one(blocks / 4))?;
        let ends = LruCache::new(alloc, at_least_one(OBJECTS))?;
        Ok(ReadCache {
            alloc,
            capacity: blocks,
            blocks: kept,
            noted,
            ends,
        })
    }

    /// Reads the bytes that the receipt stands for, from `from` on, into the whole of `buf`. They are some of
    /// its bytes (a condition). `Failed` comes where the store could not be read; it counted the fault, and
    /// any bytes stand in `buf`. Where memory is wanting, the bytes come from the store, and none are kept.
    pub fn read_through<S: Store<Receipt = R>>(
        &mut self,
        receipt: &R,
        from: u64,
        buf: &mut [u8],
        store: &mut S,
    ) -> Result<(), Failed>
        requires { from + length buf.old ≤ (R.state receipt.now).size }
        ensures bytes { OnOk result (IfSome (R.state receipt.now).told
            (λ told. buf.new ≡ take (length buf.old) (drop from told))) }
        ensures asked { AsksGetsOf (R.state receipt.now) (max 65536 (length buf.old)) 2 (S.gets store.old)
            (S.gets store.new) }
        ensures unchanged { OnlyCounts (S.state store.old) (S.state store.new) }
        ensures count { Counts (is_err result) (S.state store.old).faults (S.state store.new).faults }
    {
        if self.capacity == 0 {
            return store.get(receipt, from, buf);
        }
        let goes_on = self.goes_on(receipt, from, buf.len());
        if buf.len() as u64 >= LONG_READ {
            return store.get(receipt, from, buf);
        }
        self.read_short(receipt, from, goes_on, buf, store)
    }

    // Whether a read of some bytes of an object from `from` on goes on where the last one of it ended. Notes
    // where this one does.
    fn goes_on(&mut self, receipt: &R, from: u64, count: usize) -> bool
        requires { from + count ≤ (R.state receipt.now).size }
    {
        let _size = receipt.len();
        let end = from + count as u64;
        let last = self.ends.put(receipt.name().number, end);
        last.unwrap_or(None) == Some(from)
    }

    // Reads bytes that lie in one block or in two.
    fn read_short<S: Store<Receipt = R>>(
        &mut self,
        receipt: &R,
        from: u64,
        goes_on: bool,
        buf: &mut [u8],
        store: &mut S,
    ) -> Result<(), Failed>
        requires object { from + length buf.old ≤ (R.state receipt.now).size }
        requires blocks { length buf.old ≤ 65536 }
        ensures bytes { OnOk result (IfSome (R.state receipt.now).told
            (λ told. buf.new ≡ take (length buf.old) (drop from told))) }
        ensures asked { AsksGetsOf (R.state receipt.now) 65536 2 (S.gets store.old) (S.gets store.new) }
        ensures unchanged { OnlyCounts (S.state store.old) (S.state store.new) }
        ensures count { Counts (is_err result) (S.state store.old).faults (S.state store.new).faults }
    {
        let room = BLOCK_BYTES - from % BLOCK_BYTES;
        let front = self.due(receipt, from, goes_on);
        if buf.len() as u64 <= room {
            return self.read_part(receipt, from, front, buf, store);
        }
        let _size = receipt.len();
        let back = self.due(receipt, from + room, goes_on);
        if front == Due::No && back == Due::No {
            return store.get(receipt, from, buf);
        }
        let due = BothDue { front, back };
        let (front, back) = buf.split_at_mut(room as usize);
        self.read_both(receipt, from, due, front, back, store)
    }

    // Reads bytes that lie in two blocks, the front of them and the back, one after the other.
    fn read_both<S: Store<Receipt = R>>(
        &mut self,
        receipt: &R,
        from: u64,
        due: BothDue,
        front: &mut [u8],
        back: &mut [u8],
        store: &mut S,
    ) -> Result<(), Failed>
        requires object { from + (length front.old + length back.old) ≤ (R.state receipt.now).size }
        requires front { from % 65536 + length front.old ≡ 65536 }
        requires back { length back.old ≤ 65536 }
        ensures bytes { OnOk result (IfSome (R.state receipt.now).told (λ told. front.new ++ back.new
            ≡ take (length front.old + length back.old) (drop from told))) }
        ensures asked { AsksGetsOf (R.state receipt.now) 65536 2 (S.gets store.old) (S.gets store.new) }
        ensures unchanged { OnlyCounts (S.state store.old) (S.state store.new) }
        ensures count { Counts (is_err result) (S.state store.old).faults (S.state store.new).faults }
    {
        let _size = receipt.len();
        let next = from + front.len() as u64;
        self.read_part(receipt, from, due.front, front, store)?;
        self.read_part(receipt, next, due.back, back, store)
    }

    // Why the block with a byte of an object is to be kept. Notes it where it is touched for the first time.
    fn due(&mut self, receipt: &R, from: u64, goes_on: bool) -> Due {
        if goes_on {
            return Due::InOrder;
        }
        let key = key_of(receipt, from);
        if self.blocks.contains(&key) || self.is_noted(key) {
            Due::Touched
        } else {
            Due::No
        }
    }

    // Whether a block was touched not long ago. Notes it.
    fn is_noted(&mut self, key: BlockKey) -> bool {
        let last = self.noted.put(key, ());
        last.unwrap_or(None).is_some()
    }

    // Reads bytes that lie in one block, by way of the cache where the block is due.
    fn read_part<S: Store<Receipt = R>>(
        &mut self,
        receipt: &R,
        from: u64,
        due: Due,
        buf: &mut [u8],
        store: &mut S,
    ) -> Result<(), Failed>
        requires object { from + length buf.old ≤ (R.state receipt.now).size }
        requires block { from % 65536 + length buf.old ≤ 65536 }
        ensures bytes { OnOk result (IfSome (R.state receipt.now).told
            (λ told. buf.new ≡ take (length buf.old) (drop from told))) }
        ensures asked { AsksGetsOf (R.state receipt.now) 65536 1 (S.gets store.old) (S.gets store.new) }
        ensures unchanged { OnlyCounts (S.state store.old) (S.state store.new) }
        ensures count { Counts (is_err result) (S.state store.old).faults (S.state store.new).faults }
    {
        if due == Due::No {
            return store.get(receipt, from, buf);
        }
        if self.give(receipt, from, buf) {
            return Ok(());
        }
        let Ok((copy, memory)) = self.prepare(receipt, from, due) else {
            return store.get(receipt, from, buf);
        };
        let block = Block::fetch(copy, from - from % BLOCK_BYTES, memory, store)?;
        block.give(receipt, from, buf);
        self.keep(key_of(receipt, from), block);
        Ok(())
    }

    // Gives bytes that lie in one block, where the cache has it; whether it has.
    fn give(&mut self, receipt: &R, from: u64, buf: &mut [u8]) -> bool
        requires object { from + length buf.old ≤ (R.state receipt.now).size }
        requires block { from % 65536 + length buf.old ≤ 65536 }
        ensures bytes { IsTrue result → IfSome (R.state receipt.now).told
            (λ told. buf.new ≡ take (length buf.old) (drop from told)) }
    {
        match self.blocks.get(&key_of(receipt, from)) {
            Some(block) => block.give(receipt, from, buf),
            None => false,
        }
    }

    // A copy of the receipt, and the memory, for the block with a byte of an object.
    fn prepare(&mut self, receipt: &R, from: u64, due: Due) -> Result<(R, Vec<u8>), AllocError>
        ensures copy { IfOk result (λ both. R.state both.0 ≡ R.state receipt.now) }
        ensures memory { IfOk result (λ both. vec_len both.1 ≡ 65536) }
    {
        let copy = receipt.copy(self.alloc)?;
        match self.memory(key_of(receipt, from), due) {
            Ok(memory) => Ok((copy, memory)),
            Err(error) => {
                drop(copy);
                Err(error)
            }
        }
    }

    // The memory for a block: where no more may be kept, that of one that is let go.
    fn memory(&mut self, key: BlockKey, due: Due) -> Result<Vec<u8>, AllocError>
        ensures { IfOk result (λ memory. vec_len memory ≡ 65536) }
    {
        if self.blocks.len() >= self.capacity {
            if let Some(block) = self.let_go(key, due) {
                return Ok(block.into_memory());
            }
        }
        vec![in self.alloc; 0; BLOCK_BYTES as usize]
    }

    // Lets a block go for another: for one that is fetched in order the one before it, which was read to its
    // end and whose memory is near the processor, else the one whose last use is longest ago.
    fn let_go(&mut self, key: BlockKey, due: Due) -> Option<Block<R>> {
        if due == Due::InOrder {
            let start = key.start.saturating_sub(BLOCK_BYTES);
            let before = BlockKey { start, ..key };
            if let Some((_, block)) = self.blocks.pop_entry(&before) {
                return Some(block);
            }
        }
        let (_, block) = self.blocks.pop_lru()?;
        Some(block)
    }

    // Keeps a block, in place of one with its key. Where memory for its place runs out it is let go.
    fn keep(&mut self, key: BlockKey, block: Block<R>) {
        drop(self.blocks.put(key, block));
    }
}

fn at_least_one(count: usize) -> NonZeroUsize {
    NonZeroUsize::new(count).unwrap_or(NonZeroUsize::MIN)
}

// Which block has a byte of an object.
fn key_of<R: Receipt>(receipt: &R, from: u64) -> BlockKey {
    BlockKey {
        number: receipt.name().number,
        start: from - from % BLOCK_BYTES,
    }
}
