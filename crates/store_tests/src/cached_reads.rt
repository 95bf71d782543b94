use crate::counted_store::CountedStore;
use crate::names::OBJECT;
use crate::objects::put;
use lsvd_objstore::{MemReceipt, MemStore, Receipt};
use read_cache::ReadCache;
use test_output::{TestError, head, tell};

const OBJECT_BYTES: usize = 262_144;

const READ_BYTES: u64 = 4_096;

/// Writes how many gets reads of an object through a cache take.
pub fn tell_all(rt: &HostRuntime) -> Result<(), TestError> {
    head(
        rt,
        "Gets of reads of 4,096 bytes of an object of 262,144, through a cache of two blocks of 65,536",
    )?;
    let bytes = vec![in rt.alloc(); 0x41; OBJECT_BYTES]?;
    let mut store = CountedStore::new(MemStore::new(rt.alloc()));
    let receipt = put(rt.alloc(), &mut store, OBJECT, bytes.as_slice());
    drop(bytes);
    let told = match receipt {
        Ok(receipt) => tell_reads(rt, &mut store, &receipt),
        Err(error) => Err(error),
    };
    drop(store);
    told
}

// Reads, each so many bytes after the one before.
#[derive(Clone, Copy)]
struct Run {
    first: u64,
    step: u64,
    reads: u64,
}

fn reads_from(first: u64, step: u64, reads: u64) -> Run {
    Run { first, step, reads }
}

fn tell_reads(
    rt: &HostRuntime,
    store: &mut CountedStore,
    receipt: &MemReceipt,
) -> Result<(), TestError> {
    let in_order = [reads_from(0, READ_BYTES, 64)];
    let every_second = [reads_from(0, 8_192, 32)];
    let of_each = [reads_from(0, 65_536, 4)];
    let of_one = [reads_from(0, 0, 16)];
    let around = [
        reads_from(0, 0, 2),
        reads_from(65_536, READ_BYTES, 48),
        reads_from(0, 0, 1),
    ];
    tell_gets(rt, "64 in order", store, receipt, &in_order)?;
    tell_gets(rt, "32, every second one", store, receipt, &every_second)?;
    tell_gets(rt, "one of each block", store, receipt, &of_each)?;
    tell_gets(rt, "16 of one block", store, receipt, &of_one)?;
    tell_gets(
        rt,
        "2 of one block, 48 of the others in order, 1 of it",
        store,
        receipt,
        &around,
    )
}

// Writes how many gets some reads take.
fn tell_gets(
    rt: &HostRuntime,
    what: &str,
    store: &mut CountedStore,
    receipt: &MemReceipt,
    runs: &[Run],
) -> Result<(), TestError> {
    let mut cache = ReadCache::new(rt.alloc(), 2)?;
    let before = store.gets();
    let read = read_all(&mut cache, store, receipt, runs);
    drop(cache);
    read?;
    tell(rt, what, &store.gets().saturating_sub(before))
}

fn read_all(
    cache: &mut ReadCache<MemReceipt>,
    store: &mut CountedStore,
    receipt: &MemReceipt,
    runs: &[Run],
) -> Result<(), TestError> {
    for run in runs {
        for read in 0..run.reads {
            let from = run.first.saturating_add(read.saturating_mul(run.step));
            read_one(cache, store, receipt, from)?;
        }
    }
    Ok(())
}

fn read_one(
    cache: &mut ReadCache<MemReceipt>,
    store: &mut CountedStore,
    receipt: &MemReceipt,
    from: u64,
) -> Result<(), TestError> {
    if receipt.len() < READ_BYTES || receipt.len() - READ_BYTES < from {
        return Err(TestError::Refused);
    }
    let mut buf = [0; READ_BYTES as usize];
    cache.read_through(receipt, from, &mut buf, store)?;
    if buf.iter().any(|byte| *byte != 0x41) {
        return Err(TestError::Refused);
    }
    Ok(())
}
