ghost use Rattle.vol_core.specs.Step.{HasItsReceipt};
ghost use Rattle.microbench.specs.Receipts.{untold_receipt};

use crate::disk::PlainBytes;
use crate::error::BenchError;
use crate::new_volume::new_volume;
use crate::numbers::Numbers;
use crate::receipt::PlainReceipt;
use lsvd_base::{Body, Geometry};
use lsvd_objstore::Receipt;
use std::alloc::Global;
use vol_core::{Event, Job, Reply, Volume};

/// The sectors of each write.
pub const SECTORS: u64 = 8;

// No number of steps here comes near its limit.
const MOST: u64 = 1 << 40;

/// A volume on a disk in memory, and what was asked of it.
#[derive(Drop)]
pub struct TimedVolume {
    volume: Volume<PlainBytes, PlainReceipt>,
    numbers: Numbers,
    // The writes so far, and the sectors of those that are in no object.
    writes: u64,
    batched: u64,
}

impl TimedVolume {
    /// One without entries. No store has its first object, which has no sectors, so that no look finds it.
    pub fn new(alloc: Global, geometry: Geometry) -> Result<TimedVolume, BenchError> {
        Ok(TimedVolume {
            volume: new_volume(alloc, geometry)?,
            numbers: Numbers::new(0),
            writes: 0,
            batched: 0,
        })
    }

    /// How many writes were made.
    pub fn writes(&self) -> u64 {
        self.writes
    }

    /// Whether the entries that are in no object are full.
    pub fn is_full(&self) -> bool {
        self.volume.geometry().batch <= self.batched
    }

    /// Writes at a place in no order.
    pub fn write(&mut self, body: Body) -> Result<(), BenchError> {
        let lba = self.place(SECTORS);
        self.write_at(lba, body)
    }

    /// Writes one of the first so many blocks, in no order, and answers which.
    pub fn write_block(&mut self, blocks: u64, body: Body) -> Result<u64, BenchError> {
        let block = self.numbers.below(blocks);
        self.write_at(block.wrapping_mul(SECTORS), body)?;
        Ok(block)
    }

    fn write_at(&mut self, lba: u64, body: Body) -> Result<(), BenchError> {
        let Reply::Entered(_) = self.step(Event::Write { lba, body })? else {
            return Err(BenchError::Answer);
        };
        self.writes = self.writes.wrapping_add(1);
        self.batched = self.batched.wrapping_add(SECTORS);
        Ok(())
    }

    /// Seals an object of all entries that are in none, and puts it, where there are any.
    pub fn upload(&mut self) -> Result<(), BenchError> {
        if self.batched == 0 {
            return Ok(());
        }
        self.seal()?;
        self.put()
    }

    /// Seals an object of the entries that are in none, of which there are some.
    pub fn seal(&mut self) -> Result<(), BenchError> {
        let Reply::Sealed(_) = self.step(Event::Seal)? else {
            return Err(BenchError::Answer);
        };
        self.batched = 0;
        Ok(())
    }

    /// Seals a checkpoint.
    pub fn seal_checkpoint(&mut self) -> Result<(), BenchError> {
        match self.step(Event::SealCheckpoint)? {
            Reply::Sealed(_) => Ok(()),
            _ => Err(BenchError::Answer),
        }
    }

    /// Takes the lowest ready object and has it put at once. No store keeps it, so memory does not grow.
    pub fn put(&mut self) -> Result<(), BenchError> {
        let job = self.take()?;
        self.done(job)
    }

    /// Takes the lowest ready object.
    pub fn take(&mut self) -> Result<Job, BenchError> {
        match self.step(Event::TakeJob)? {
            Reply::Taken(job) => Ok(job),
            _ => Err(BenchError::Answer),
        }
    }

    /// Has the put of this object be done.
    pub fn done(&mut self, job: Job) -> Result<(), BenchError> {
        let receipt = PlainReceipt::new(*job.name(), job.object().len());
        match self.step(Event::JobDone { job, receipt })? {
            Reply::Done(_) => Ok(()),
            _ => Err(BenchError::Answer),
        }
    }

    /// Removes each object that may be removed, and answers how many these were.
    pub fn remove_all(&mut self) -> Result<u64, BenchError> {
        let mut removed: u64 = 0;
        for _ in 0..MOST {
            if !self.remove()? {
                break;
            }
            removed = removed.wrapping_add(1);
        }
        Ok(removed)
    }

    // Removes the lowest object that may be removed. Answers whether there was one.
    fn remove(&mut self) -> Result<bool, BenchError> {
        let Reply::Removing(receipt) = self.step(Event::TakeRemove)? else {
            return Ok(false);
        };
        let number = receipt.name().number;
        drop(receipt);
        match self.step(Event::RemoveDone { number })? {
            Reply::Removed => Ok(true),
            _ => Err(BenchError::Answer),
        }
    }

    /// Looks at so many sectors at a place in no order, and gives the plan back.
    pub fn look(&mut self, sectors: u64) -> Result<(), BenchError> {
        let lba = self.place(sectors);
        let Reply::Planned(plan) = self.step(Event::Look { lba, sectors })? else {
            return Err(BenchError::Answer);
        };
        match self.step(Event::Release(plan))? {
            Reply::Released => Ok(()),
            _ => Err(BenchError::Answer),
        }
    }

    // The first of so many sectors somewhere in the volume.
    fn place(&mut self, sectors: u64) -> u64 {
        let places = self.volume.geometry().sectors.saturating_sub(sectors);
        self.numbers.below(places)
    }

    fn step(&mut self, event: Event<PlainReceipt>) -> Result<Reply<PlainReceipt>, BenchError>
        requires { HasItsReceipt untold_receipt event }
    {
        if MOST < self.volume.steps() {
            return Err(BenchError::Refused);
        }
        Ok(self.volume.step(event))
    }
}
