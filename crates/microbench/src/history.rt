use crate::error::BenchError;
use crate::volume::{SECTORS, TimedVolume};
use lsvd_base::{Body, Geometry};
use std::alloc::Global;

// How many blocks are written over and over, and how many writes an object has.
const BLOCKS: usize = 10_000;

const WRITES: u64 = 16;

// After how many numbers of objects a checkpoint is sealed.
const NUMBERS: u64 = 64;

const GEOMETRY: Geometry = Geometry {
    sectors: SECTORS * BLOCKS as u64,
    max_write: SECTORS,
    batch: SECTORS * WRITES,
    log: 65_536,
};

/// Overwrites 10,000 blocks of a volume so often, in no order, with a checkpoint every 64 numbers of objects
/// and then each removal that may be made. Tells how many objects are left, and how many of them have a block
/// as it was written last.
pub fn tell_history(rt: &HostRuntime, writes: u64) -> Result<(), BenchError> {
    let mut history = History::new(rt.alloc())?;
    for _ in 0..writes {
        history.write(rt.alloc())?;
    }
    let left = history.number.wrapping_sub(history.removed);
    let live = live_of(rt.alloc(), &history.owners)?;
    println!(rt;
        "{writes:>8} writes: {left} objects of {} are left, {live} of them live",
        history.number
    )?;
    Ok(())
}

#[derive(Drop)]
struct History {
    volume: TimedVolume,
    // The number of the object that has a block as it was written last.
    owners: Vec<u64>,
    // The number of the last object, and how many were removed.
    number: u64,
    removed: u64,
}

impl History {
    fn new(alloc: Global) -> Result<History, BenchError> {
        Ok(History {
            volume: TimedVolume::new(alloc, GEOMETRY)?,
            owners: vec![in alloc; 0; BLOCKS]?,
            number: 1,
            removed: 0,
        })
    }

    // Writes one block, and seals and puts an object of them where it is full.
    fn write(&mut self, alloc: Global) -> Result<(), BenchError> {
        let block = self
            .volume
            .write_block(BLOCKS as u64, Body::filled(alloc, SECTORS, 1)?)?;
        if let Some(owner) = self.owners.get_mut(block as usize) {
            *owner = self.number.wrapping_add(1);
        }
        if self.volume.is_full() {
            self.volume.upload()?;
            self.count()?;
        }
        Ok(())
    }

    // Counts an object, and seals a checkpoint where it is its turn.
    fn count(&mut self) -> Result<(), BenchError> {
        self.number = self.number.wrapping_add(1);
        if self.number % NUMBERS == NUMBERS - 1 {
            self.number = self.number.wrapping_add(1);
            self.volume.seal_checkpoint()?;
            self.volume.put()?;
            self.removed = self.removed.wrapping_add(self.volume.remove_all()?);
        }
        Ok(())
    }
}

// How many numbers there are among these.
fn live_of(alloc: Global, owners: &[u64]) -> Result<usize, BenchError> {
    let mut numbers = Vec::new(alloc);
    numbers.extend_from_slice(owners)?;
    numbers.sort()?;
    numbers.dedup();
    Ok(numbers.len())
}
