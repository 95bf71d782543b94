//! Shows what the crates of a volume do where no clause of theirs and no script of the program says it.
//!
//! Its contract is its output, which stands in the stored one of the program `area_tests`:
//! what was answered, under a heading for each topic. In short runs the plain volume stands beside the real
//! one, and where they answer otherwise both answers are printed. A step for which memory ran out is made
//! once more, so that each allocation may be let fail in turn (`scripts/short_memory`).
//! It stands on `test_output`, `vol_recover`, `volume_owner`, `plain_volume` and the crates below them.
#![tactic(auto)]

mod answer;
mod collected;
mod creating;
mod fullness;
mod owned;
mod plain;
mod plain_rows;
mod real;
mod rows;
mod sealing;
mod step;
mod texts;

use answer::Answer;
use collected::tell_collections;
use fullness::tell_fullness;
use owned::tell_owner;
use plain::Plain;
use plain_rows::PLAIN_ROWS;
use real::Real;
use rows::ROWS;
use sealing::tell_seals;
use step::{Row, Step};
use test_output::{TestError, head};
use texts::tell_texts;

/// Tells what batches, volumes and an owner of one answer, and the texts of errors.
pub fn tell_all(rt: &HostRuntime) -> Result<(), TestError> {
    tell_fullness(rt)?;
    tell_seals(rt)?;
    head(rt, "# The plain volume beside the real one")?;
    for row in ROWS {
        tell_row(rt, row)?;
    }
    head(rt, "# The plain volume over stops")?;
    for row in PLAIN_ROWS {
        tell_plain_row(rt, row)?;
    }
    tell_owner(rt)?;
    tell_collections(rt)?;
    tell_texts(rt)
}

// Makes a row's steps on both volumes.
fn tell_row(rt: &HostRuntime, row: &Row) -> Result<(), TestError> {
    head(rt, row.name)?;
    let mut real = Real::new(rt.alloc())?;
    let mut plain = Plain::new(rt.alloc());
    let told = tell_steps(rt, &mut plain, &mut real, row);
    drop(plain);
    drop(real);
    told
}

fn tell_steps(
    rt: &HostRuntime,
    plain: &mut Plain,
    real: &mut Real,
    row: &Row,
) -> Result<(), TestError> {
    for step in row.before {
        plain.make(rt.alloc(), *step)?;
        real.make(rt.alloc(), *step)?;
    }
    for step in row.steps {
        let wanted = plain.make(rt.alloc(), *step)?;
        let found = real.make(rt.alloc(), *step)?;
        tell_both(rt, step, wanted, found)?;
    }
    Ok(())
}

// Writes what both volumes answered.
fn tell_both(
    rt: &HostRuntime,
    step: &Step,
    wanted: Answer,
    found: Answer,
) -> Result<(), TestError> {
    tell(rt, step, wanted)?;
    if found != wanted {
        println!(rt; "    the real one: {found:?}")?;
    }
    Ok(())
}

fn tell(rt: &HostRuntime, step: &Step, answer: Answer) -> Result<(), TestError> {
    println!(rt; "  {step:?}: {answer:?}").map_err(TestError::from)
}

// Makes a row's steps on the plain volume.
fn tell_plain_row(rt: &HostRuntime, row: &Row) -> Result<(), TestError> {
    head(rt, row.name)?;
    let mut plain = Plain::new(rt.alloc());
    let told = tell_plain_steps(rt, &mut plain, row);
    drop(plain);
    told
}

fn tell_plain_steps(rt: &HostRuntime, plain: &mut Plain, row: &Row) -> Result<(), TestError> {
    for step in row.before {
        plain.make(rt.alloc(), *step)?;
    }
    for step in row.steps {
        let answer = plain.make(rt.alloc(), *step)?;
        tell(rt, step, answer)?;
    }
    Ok(())
}
