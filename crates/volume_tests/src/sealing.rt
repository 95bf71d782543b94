ghost use Rattle.batcher.specs.Sealing.{IsExpectedOf};

use Change::{Write, Zero};
use batcher::{Batch, SealedBatch, data_sectors};
use lsvd_base::{Body, Entry, Geometry, in_range};
use object_format::Expected;
use std::alloc::{AllocError, Global};
use test_output::{TestError, head};

// The volume, of whose batches twelve sectors of data make one full.
const GEOMETRY: Geometry = Geometry {
    sectors: 24,
    max_write: 8,
    batch: 12,
    log: 64,
};

// No batch here has as many entries.
const MOST: u64 = 100;

// A change of sectors from the first number on.
#[derive(Clone, Copy, Debug)]
enum Change {
    Write(u64, u64),
    Zero(u64, u64),
}

const BATCHES: &[&[Change]] = &[
    // A zeroing over a write, and a write over a zeroing.
    &[Write(0, 4), Zero(1, 2)],
    &[Zero(0, 4), Write(1, 2)],
    // What is overwritten is dropped, and what touches is one row.
    &[Write(4, 2), Write(4, 2)],
    &[Write(2, 2), Write(0, 2)],
    &[Zero(2, 2), Zero(0, 2)],
    // The fewest are taken that are full, and all where they are not.
    &[Write(0, 8), Write(8, 3), Zero(0, 8)],
    &[Write(0, 8), Write(8, 4), Zero(0, 8)],
    &[Write(0, 8), Write(0, 8), Zero(0, 8)],
];

/// Shows the rows of objects: they are the fewest that do what the entries do, which no clause says.
pub fn tell_seals(rt: &HostRuntime) -> Result<(), TestError> {
    head(rt, "# The rows of sealed batches")?;
    for changes in BATCHES {
        println!(rt; "{changes:?}")?;
        let mut batch = Batch::new(rt.alloc(), GEOMETRY, 0);
        let told = tell_seal(rt, &mut batch, changes);
        drop(batch);
        told?;
    }
    Ok(())
}

fn tell_seal(rt: &HostRuntime, batch: &mut Batch, changes: &[Change]) -> Result<(), TestError> {
    for change in changes {
        let entry = entry_of(rt.alloc(), *change)?;
        add(batch, entry)?;
    }
    match seal(rt.alloc(), batch)? {
        Some(sealed) => tell_sealed(rt, sealed),
        None => head(rt, "  nothing"),
    }
}

fn entry_of(alloc: Global, change: Change) -> Result<Entry, AllocError> {
    Ok(match change {
        Write(lba, sectors) => Entry::Write {
            lba,
            body: Body::filled(alloc, sectors, 1)?,
        },
        Zero(lba, sectors) => Entry::Zero { lba, sectors },
    })
}

// Adds an entry that the volume takes.
fn add(batch: &mut Batch, entry: Entry) -> Result<(), TestError> {
    batch.reserve()?;
    if !in_range(&entry, &batch.geometry()) || MOST < batch.next_seq() {
        return Err(TestError::Refused);
    }
    if batch.sectors().checked_add(data_sectors(&entry)).is_none() {
        return Err(TestError::Refused);
    }
    batch.add(entry);
    Ok(())
}

fn seal(alloc: Global, batch: &Batch) -> Result<Option<SealedBatch>, AllocError> {
    if batch.entries() == 0 {
        return Ok(None);
    }
    let expected = expected_of(batch);
    Ok(Some(batch.seal(alloc, &expected)?))
}

// What is expected of the next object of a batch.
fn expected_of(batch: &Batch) -> Expected
    ensures { IsExpectedOf batch.now result }
{
    Expected {
        uuid: [7; 16],
        number: 3,
        sectors: batch.geometry().sectors,
        ancestors: 0,
        end_before: Some(batch.first_seq()),
    }
}

fn tell_sealed(rt: &HostRuntime, sealed: SealedBatch) -> Result<(), TestError> {
    let told = tell_rows(rt, &sealed);
    drop(sealed);
    told
}

fn tell_rows(rt: &HostRuntime, sealed: &SealedBatch) -> Result<(), TestError> {
    println!(rt; "  {} entries", sealed.entries)?;
    for row in &sealed.rows {
        println!(rt; "  {row:?}")?;
    }
    Ok(())
}
