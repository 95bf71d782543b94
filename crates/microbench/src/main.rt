//! Times what a benchmark from outside the program cannot show: maps of extents in pages, steps of a volume,
//! its seals, checkpoints and removals.
//!
//! Maps stand beside trees of as many numbers, and seals, also of checkpoints, beside plain copies of as
//! many bytes. With the word `time` it makes a whole round and tells the processor time of each call; with a
//! number it overwrites blocks so often, with checkpoints and removals, and tells what objects are left. With
//! the word `collection` it overwrites blocks with and without a collection, and tells what the store holds,
//! what is put into it, and the processor time. Without a word the rounds are small and no time is told, so
//! that what is written is always the same. It has no contract, since nothing is claimed of what is timed. It
//! stands on `volume_owner`, `vol_core`, `extent_map` and the crates below them.
#![tactic(auto)]

mod clock;
mod collection;
mod disk;
mod error;
mod figures;
mod history;
mod maps;
mod new_volume;
mod numbers;
mod overwritten;
mod receipt;
mod steps;
mod store;
mod volume;

use clock::Report;
use collection::{tell_collections, tell_small_collection};
use error::BenchError;
use history::tell_history;
use lsvd_base::Geometry;
use maps::{time_pages, time_tree};
use std::env;
use steps::{time_checkpoint, time_looks, time_writes, write_up_to};
use volume::TimedVolume;

// What is timed.
struct Round {
    // The rows of the maps.
    rows: &'static [u64],
    geometry: Geometry,
    // After how many writes steps are timed.
    points: &'static [u64],
    // How many calls are timed. As many writes fit into one batch.
    calls: u64,
    // The rows of a checkpoint of a volume as large as there is, nearly.
    rows_of_checkpoint: u64,
}

// The sectors of the largest volume.
const MOST_SECTORS: u64 = 1 << 31;

const WHOLE: Round = Round {
    rows: &[1_000, 100_000, 1_000_000],
    geometry: Geometry {
        sectors: 1 << 21,
        max_write: 1_024,
        batch: 16_384,
        log: 65_536,
    },
    points: &[1_000, 100_000, 1_000_000],
    calls: 1_000,
    rows_of_checkpoint: 1_000_000,
};

// Its batches are full, and its log too, before the last of its points.
const SMALL: Round = Round {
    rows: &[400],
    geometry: Geometry {
        sectors: 4_096,
        max_write: 1_024,
        batch: 64,
        log: 2_050,
    },
    points: &[8, 400],
    calls: 4,
    rows_of_checkpoint: 400,
};

// What the words ask for.
enum Asked {
    // A small round, of which no times are told.
    Small,
    // A whole round with its times.
    Whole,
    // So many overwrites, with checkpoints and removals.
    History(u64),
    // Overwrites with and without a collection.
    Collection,
}

fn main(rt: HostRuntime) -> Result<(), BenchError> {
    match request_of(&rt)? {
        Asked::Small => {
            make_round(&rt, Report::new(false), &SMALL)?;
            tell_history(&rt, 2_000)?;
            tell_small_collection(&rt)
        }
        Asked::Whole => make_round(&rt, Report::new(true), &WHOLE),
        Asked::History(writes) => tell_history(&rt, writes),
        Asked::Collection => tell_collections(&rt),
    }
}

// What the first word asks for: a number for a history of so many writes, `collection` for overwrites with a
// collection, another word for a whole round.
fn request_of(rt: &HostRuntime) -> Result<Asked, BenchError> {
    let mut words = env::args(rt)?;
    let _program = words.next();
    Ok(match words.next() {
        None => Asked::Small,
        Some(word) => match word.parse::<u64>() {
            Ok(writes) => Asked::History(writes),
            Err(_) if word.as_str() == "collection" => Asked::Collection,
            Err(_) => Asked::Whole,
        },
    })
}

fn make_round(rt: &HostRuntime, report: Report, round: &Round) -> Result<(), BenchError> {
    for rows in round.rows {
        println!(rt; "{rows:>8} rows")?;
        time_pages(rt, report, *rows, round.calls)?;
        time_tree(rt, report, *rows, round.calls)?;
    }
    let mut volume = TimedVolume::new(rt.alloc(), round.geometry)?;
    make_steps(rt, report, round, &mut volume)?;
    make_checkpoint(rt, report, round)
}

// Times a checkpoint that has a row for nearly each of the writes before it: few of so many touch another in
// so large a volume.
fn make_checkpoint(rt: &HostRuntime, report: Report, round: &Round) -> Result<(), BenchError> {
    let geometry = Geometry {
        sectors: MOST_SECTORS,
        ..round.geometry
    };
    let mut volume = TimedVolume::new(rt.alloc(), geometry)?;
    println!(rt;
        "{:>8} writes in a volume of 2^31 sectors",
        round.rows_of_checkpoint
    )?;
    write_up_to(rt.alloc(), &mut volume, round.rows_of_checkpoint)?;
    time_checkpoint(rt, report, &mut volume)
}

// Times steps. The looks find the last writes in the log, and the others in objects.
fn make_steps(
    rt: &HostRuntime,
    report: Report,
    round: &Round,
    volume: &mut TimedVolume,
) -> Result<(), BenchError> {
    for writes in round.points {
        println!(rt; "{writes:>8} writes")?;
        write_up_to(rt.alloc(), volume, *writes)?;
        time_writes(rt, report, volume, round.calls)?;
        let more = volume.writes().wrapping_add(round.calls);
        write_up_to(rt.alloc(), volume, more)?;
        time_looks(rt, report, volume, round.calls)?;
        time_checkpoint(rt, report, volume)?;
    }
    Ok(())
}
