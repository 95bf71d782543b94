//! The tests of all areas, one area after the other, each under its crate's name; with the name of one as a
//! word, that one alone.
//!
//! Its contract is its output: `stdout` beside `src/` has what it must print without a word. Which lines
//! these are, each area's crate says. It stands on the crates of the areas and on `test_output`.
#![tactic(auto)]

use std::env;
use test_output::TestError;

#[derive(Clone, Copy)]
enum Area {
    Format,
    Store,
    Log,
    Volume,
    Mount,
    Nbd,
}

// Each by the name of its crate.
const AREAS: &[(&str, Area)] = &[
    ("format_tests", Area::Format),
    ("store_tests", Area::Store),
    ("log_tests", Area::Log),
    ("volume_tests", Area::Volume),
    ("mount_tests", Area::Mount),
    ("nbd_tests", Area::Nbd),
];

fn main(rt: HostRuntime) -> Result<(), TestError> {
    let word = first_word(&rt)?;
    let told = tell_areas(&rt, &word);
    drop(word);
    told
}

// The first word after the program's name.
fn first_word(rt: &HostRuntime) -> Result<Option<String>, TestError> {
    let mut words = env::args(rt)?;
    let _program = words.next();
    Ok(words.next())
}

// Tells the areas that are asked for. A word that names none is refused.
fn tell_areas(rt: &HostRuntime, word: &Option<String>) -> Result<(), TestError> {
    let mut count = 0u64;
    for (name, area) in AREAS {
        if is_asked(word, name) {
            println!(rt; "== {name}")?;
            tell_area(rt, *area)?;
            count = count.saturating_add(1);
        }
    }
    if count == 0 {
        return Err(TestError::Refused);
    }
    Ok(())
}

fn is_asked(word: &Option<String>, name: &str) -> bool {
    match word {
        Some(word) => word.as_str() == name,
        None => true,
    }
}

fn tell_area(rt: &HostRuntime, area: Area) -> Result<(), TestError> {
    match area {
        Area::Format => format_tests::tell_all(rt),
        Area::Store => store_tests::tell_all(rt),
        Area::Log => log_tests::tell_all(rt),
        Area::Volume => volume_tests::tell_all(rt),
        Area::Mount => mount_tests::tell_all(rt),
        Area::Nbd => nbd_tests::tell_all(rt),
    }
}
