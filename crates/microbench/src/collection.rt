use crate::error::BenchError;
use crate::figures::{Figures, Ratio};
use crate::overwritten::{Overwritten, SECTORS, Turns};
use lsvd_base::{Geometry, SECTOR_BYTES};
use std::fmt;

// How often all live blocks are written over.
const TIMES: u64 = 10;

const NANOSECONDS_OF_MS: u64 = 1_000_000;

// At half of the volume too, the live sectors fill some hundred objects: between two checkpoints dead ones
// stand in the store, 64 objects at most, which else would hide what the collection leaves.
const WHOLE: Geometry = Geometry {
    sectors: 1 << 20,
    max_write: SECTORS,
    batch: 1_024,
    log: 65_536,
};

// The same with few writes in an object.
const SMALL: Geometry = Geometry {
    sectors: 8_192,
    max_write: SECTORS,
    batch: 32,
    log: 4_096,
};

// What is run: of each hundred sectors of a volume so many are live, which are written over.
#[derive(Clone, Copy)]
struct Run {
    geometry: Geometry,
    live: u64,
    turns: Turns,
}

impl Run {
    // How many blocks are live.
    fn blocks(&self) -> u64 {
        (self.geometry.sectors / SECTORS).wrapping_mul(self.live) / 100
    }

    fn make(&self, rt: &HostRuntime) -> Result<Outcome, BenchError> {
        let blocks = self.blocks();
        let mut volume = Overwritten::new(rt, self.geometry, blocks, self.turns)?;
        volume.fill(rt)?;
        let figures = volume.overwrite(rt, blocks.wrapping_mul(TIMES) / 2)?;
        Ok(Outcome {
            run: *self,
            figures,
        })
    }
}

impl fmt::Display for Run {
    fn fmt<W: fmt::Write>(&self, f: &mut fmt::Formatter<W>) -> fmt::Result {
        let turns = match self.turns {
            Turns::None => "no turns",
            Turns::AfterEachObject => "one turn after each object",
        };
        write!(f, "{} live, {turns}", self.live)
    }
}

// What came of a run.
#[derive(Clone, Copy)]
struct Outcome {
    run: Run,
    figures: Figures,
}

impl Outcome {
    // Writes the times, the one of a write beside that of a write without turns.
    fn tell_times(&self, rt: &HostRuntime, without: u64) -> Result<(), BenchError> {
        let figures = &self.figures;
        let writes = figures.writes.count.max(1);
        println!(rt;
            "    {} ns a write, {} of one without turns; of these {} in writes, {} in turns, {} in drains",
            figures.time_of_write(),
            Ratio::of(figures.time_of_write(), without),
            figures.writes.sum / writes,
            figures.turns.sum / writes,
            figures.drains.sum / writes
        )?;
        println!(rt;
            "    the longest write {} ms, the longest turn {} ms, the longest drain {} ms",
            Ratio::of(figures.writes.greatest, NANOSECONDS_OF_MS),
            Ratio::of(figures.turns.greatest, NANOSECONDS_OF_MS),
            Ratio::of(figures.drains.greatest, NANOSECONDS_OF_MS)
        )?;
        Ok(())
    }
}

impl fmt::Display for Outcome {
    fn fmt<W: fmt::Write>(&self, f: &mut fmt::Formatter<W>) -> fmt::Result {
        let figures = &self.figures;
        let written = figures.writes.count.wrapping_mul(SECTORS * SECTOR_BYTES);
        let live = self.run.blocks().wrapping_mul(SECTORS * SECTOR_BYTES);
        let most = Ratio::of(figures.held.greatest, live);
        let mean = Ratio::of(figures.held.mean(), live);
        let put = Ratio::of(figures.put, written);
        let gets = Ratio::of(figures.gets, figures.turns.count);
        write!(
            f,
            "{:>8} writes, {}: store/live {most} at most, {mean} mean; put/written {put}; {gets} gets a turn",
            figures.writes.count, self.run
        )
    }
}

/// Tells what a collection leaves in the store, and what it puts, in a small run.
pub fn tell_small_collection(rt: &HostRuntime) -> Result<(), BenchError> {
    let run = Run {
        geometry: SMALL,
        live: 70,
        turns: Turns::AfterEachObject,
    };
    let outcome = run.make(rt)?;
    println!(rt; "{outcome}")?;
    Ok(())
}

/// Tells what collections leave in the store, what they put, and how long they take, beside the same writes
/// without: where half of a volume is live, and where more is.
pub fn tell_collections(rt: &HostRuntime) -> Result<(), BenchError> {
    for live in [50, 70, 90] {
        tell_collections_at(rt, live)?;
    }
    Ok(())
}

fn tell_collections_at(rt: &HostRuntime, live: u64) -> Result<(), BenchError> {
    let mut first: Option<u64> = None;
    for turns in [Turns::None, Turns::AfterEachObject] {
        let run = Run {
            geometry: WHOLE,
            live,
            turns,
        };
        let outcome = run.make(rt)?;
        let without = first.unwrap_or(outcome.figures.time_of_write());
        first = Some(without);
        println!(rt; "{outcome}")?;
        outcome.tell_times(rt, without)?;
    }
    Ok(())
}
