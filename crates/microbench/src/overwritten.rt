ghost use Rattle.std.specs.Prelude.{◌≤◌, OnOk};
ghost use Rattle.volume_owner.specs.Owner.{max_steps};

use crate::clock::Start;
use crate::disk::PlainBytes;
use crate::error::BenchError;
use crate::figures::Figures;
use crate::new_volume::new_volume;
use crate::numbers::Numbers;
use crate::receipt::PlainReceipt;
use crate::store::CountingStore;
use lsvd_base::{Body, Geometry};
use volume_owner::Owner;

/// The sectors of each write.
pub const SECTORS: u64 = 8;

// After how many numbers of objects a drain is made.
const NUMBERS: u64 = 64;

// No run makes as many steps.
const MOST_STEPS: u64 = 1 << 59;

/// Whether a turn of a collection is made after each object.
#[derive(Clone, Copy, PartialEq, Eq)]
pub enum Turns {
    None,
    AfterEachObject,
}

/// A volume of which some blocks, each of one write, are written over and over, and its store in memory. A
/// turn of a collection comes after as many writes as an object has, and a drain after 64 numbers of objects.
#[derive(Drop)]
pub struct Overwritten {
    owner: Owner<PlainBytes, PlainReceipt>,
    store: CountingStore,
    turns: Turns,
    numbers: Numbers,
    // How many blocks there are, the first ones of the volume.
    blocks: u64,
    // The writes since the last turn, and the objects that had been put at the last drain.
    writes: u64,
    drained: u64,
    // When the last call ended.
    clock: Start,
    figures: Figures,
    // Whether it is looked at what the store holds.
    is_sampled: bool,
}

impl Overwritten {
    /// A new one with so many blocks at the front of the volume.
    pub fn new(
        rt: &HostRuntime,
        geometry: Geometry,
        blocks: u64,
        turns: Turns,
    ) -> Result<Overwritten, BenchError> {
        Ok(Overwritten {
            owner: Owner::new(new_volume(rt.alloc(), geometry)?),
            store: CountingStore::new(rt.alloc()),
            turns,
            numbers: Numbers::new(0),
            blocks,
            writes: 0,
            drained: 0,
            clock: Start::now(rt)?,
            figures: Figures::default(),
            is_sampled: false,
        })
    }

    /// Writes each block once, in order.
    pub fn fill(&mut self, rt: &HostRuntime) -> Result<(), BenchError> {
        for block in 0..self.blocks {
            self.write(rt, block)?;
        }
        Ok(())
    }

    /// Makes twice as many writes in no order as is said here, and tells what was measured of them: of what
    /// the store held in the second half alone.
    pub fn overwrite(&mut self, rt: &HostRuntime, half: u64) -> Result<Figures, BenchError> {
        let before = self.store.traffic();
        self.figures = Figures::default();
        self.write_in_no_order(rt, half)?;
        self.is_sampled = true;
        self.write_in_no_order(rt, half)?;
        self.is_sampled = false;
        let after = self.store.traffic();
        self.figures.put = after.put.wrapping_sub(before.put);
        self.figures.gets = after.gets.wrapping_sub(before.gets);
        Ok(self.figures)
    }

    fn write_in_no_order(&mut self, rt: &HostRuntime, count: u64) -> Result<(), BenchError> {
        for _ in 0..count {
            let block = self.numbers.below(self.blocks);
            self.write(rt, block)?;
        }
        Ok(())
    }

    // Writes a block. After as many writes as an object has it makes what comes then.
    fn write(&mut self, rt: &HostRuntime, block: u64) -> Result<(), BenchError> {
        let body = Body::filled(rt.alloc(), SECTORS, 1)?;
        self.may_go_on()?;
        let lba = block.wrapping_mul(SECTORS);
        self.owner.write(rt.alloc(), &mut self.store, lba, body)?;
        self.figures.writes.take(self.clock.lap(rt)?);
        self.writes = self.writes.wrapping_add(1);
        if self.writes < self.owner.geometry().batch / SECTORS {
            return Ok(());
        }
        self.writes = 0;
        self.collect(rt)?;
        if self.store.traffic().puts.wrapping_sub(self.drained) < NUMBERS {
            return Ok(());
        }
        self.drain(rt)
    }

    // Makes the turn of a collection that comes after an object.
    fn collect(&mut self, rt: &HostRuntime) -> Result<(), BenchError> {
        if self.turns == Turns::None {
            return Ok(());
        }
        self.may_go_on()?;
        self.owner.collect(rt.alloc(), &mut self.store)?;
        self.figures.turns.take(self.clock.lap(rt)?);
        Ok(())
    }

    // Puts all with a checkpoint behind it, and makes the removals that this allows.
    fn drain(&mut self, rt: &HostRuntime) -> Result<(), BenchError> {
        self.sample();
        self.may_go_on()?;
        self.owner.drain(rt.alloc(), &mut self.store)?;
        self.figures.drains.take(self.clock.lap(rt)?);
        self.drained = self.store.traffic().puts;
        self.sample();
        Ok(())
    }

    // Looks at what the store holds.
    fn sample(&mut self) {
        if self.is_sampled {
            self.figures.held.take(self.store.traffic().held);
        }
    }

    fn may_go_on(&self) -> Result<(), BenchError>
        ensures { OnOk result (self.now.owner.steps ≤ max_steps) }
    {
        if MOST_STEPS < self.owner.steps() {
            return Err(BenchError::Refused);
        }
        Ok(())
    }
}
