use clone_chain::{Chain, ExtendError};
use std::alloc::Global;
use test_output::{TestError, head, tell};
use uuid::Uuid;

/// Writes the levels of a volume that is a clone, fifteen times over.
pub fn tell_all(rt: &HostRuntime) -> Result<(), TestError> {
    head(
        rt,
        "Clones of clones up to volume 15, each cloned at checkpoint 100 and its number",
    )?;
    let chain = chain_of(rt.alloc(), 15)?;
    let told = tell_chain(rt, &chain);
    drop(chain);
    told
}

fn tell_chain(rt: &HostRuntime, chain: &Chain) -> Result<(), TestError> {
    tell(rt, "ancestors", &chain.count())?;
    for number in [0, 1, 2, 14, 15, 16] {
        let level = chain.level_of(Uuid::from_u128(number));
        println!(rt; "  volume {number} is at level {level:?}")?;
    }
    for level in [0, 1, 2, 15, 16] {
        let checkpoint = chain.ancestor(level).map(|ancestor| ancestor.checkpoint);
        println!(rt; "  level {level} has the checkpoint {checkpoint:?}")?;
    }
    tell(rt, "a clone more", &clone_of(rt.alloc(), chain, 16).err())
}

// The chain of the volume after so many, each a clone of the one before.
fn chain_of(alloc: Global, count: u64) -> Result<Chain, TestError> {
    let mut chain = Chain::new(alloc);
    for number in 0..count {
        chain = clone_of(alloc, &chain, number.saturating_add(1))?;
    }
    Ok(chain)
}

// The chain of a clone of the volume with this number as its uuid, which is no ancestor.
fn clone_of(alloc: Global, chain: &Chain, number: u64) -> Result<Chain, ExtendError> {
    let uuid = Uuid::from_u128(u128::from(number));
    match chain.level_of(uuid) {
        Some(_) => Err(ExtendError::OutOfMemory),
        None => chain.extend(alloc, uuid, number.saturating_add(100)),
    }
}
