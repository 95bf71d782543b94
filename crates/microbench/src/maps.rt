use crate::clock::{Report, Start};
use crate::error::BenchError;
use crate::numbers::Numbers;
use extent_map::{ExtentMap, Place};
use std::alloc::{AllocError, Global};
use std::collections::BTreeMap;
use volume_maps::ObjectPlace;

// The sectors of each row that is built, of each set and of each look.
const SECTORS: u64 = 8;

// How far a row begins from the one before it. So rows do not touch.
const STRIDE: u64 = 16;

// No sector here comes near its type's end.
const MOST: u64 = 1 << 40;

// Nor does the number of a place and of a row's sectors more.
const MOST_NUMBER: u64 = (1 << 63) - SECTORS - 1;

/// Times a map in pages that is built in order, and then looks and sets of 8 sectors in random places.
pub fn time_pages(
    rt: &HostRuntime,
    report: Report,
    rows: u64,
    calls: u64,
) -> Result<(), BenchError> {
    let mut map = ExtentMap::new(rt.alloc());
    let start = Start::now(rt)?;
    build(&mut map, rows)?;
    report.tell(rt, start, rows, "a row of a map that is built in order")?;
    let start = Start::now(rt)?;
    look_around(rt.alloc(), &map, rows, calls)?;
    report.tell(rt, start, calls, "a look in the map")?;
    let start = Start::now(rt)?;
    change(&mut map, rows, calls)?;
    report.tell(rt, start, calls, "a set in the map")
}

fn build(map: &mut ExtentMap<ObjectPlace>, rows: u64) -> Result<(), BenchError> {
    for index in 0..rows {
        set(map, index.wrapping_mul(STRIDE), place(index))?;
    }
    Ok(())
}

fn change(map: &mut ExtentMap<ObjectPlace>, rows: u64, calls: u64) -> Result<(), BenchError> {
    let mut numbers = Numbers::new(0);
    for index in 0..calls {
        let lba = numbers.below(rows.wrapping_mul(STRIDE));
        set(map, lba, place(rows.wrapping_add(index)))?;
    }
    Ok(())
}

fn look_around(
    alloc: Global,
    map: &ExtentMap<ObjectPlace>,
    rows: u64,
    calls: u64,
) -> Result<(), BenchError> {
    let mut numbers = Numbers::new(1);
    for _ in 0..calls {
        look(alloc, map, numbers.below(rows.wrapping_mul(STRIDE)))?;
    }
    Ok(())
}

// The place of the row of an index, 1,024 rows an object.
fn place(index: u64) -> ObjectPlace {
    ObjectPlace {
        level: 0,
        number: index / 1_024,
        sector: (index % 1_024 * STRIDE) as u32,
    }
}

fn set(map: &mut ExtentMap<ObjectPlace>, lba: u64, place: ObjectPlace) -> Result<(), BenchError> {
    if MOST < lba || MOST_NUMBER < place.number() {
        return Err(BenchError::Refused);
    }
    map.reserve(1)?;
    map.set(lba, SECTORS, place);
    Ok(())
}

fn look(alloc: Global, map: &ExtentMap<ObjectPlace>, lba: u64) -> Result<(), BenchError> {
    if MOST < lba {
        return Err(BenchError::Refused);
    }
    let _rows = map.look(alloc, lba, SECTORS)?;
    Ok(())
}

/// Times a tree of as many numbers that is built in order, and then searches and inserts of random numbers.
pub fn time_tree(
    rt: &HostRuntime,
    report: Report,
    rows: u64,
    calls: u64,
) -> Result<(), BenchError> {
    let mut tree = BTreeMap::new(rt.alloc());
    let start = Start::now(rt)?;
    fill(&mut tree, rows)?;
    report.tell(rt, start, rows, "a number of a tree that is built in order")?;
    let start = Start::now(rt)?;
    let _found = search(&tree, rows, calls);
    report.tell(rt, start, calls, "a search in the tree")?;
    let start = Start::now(rt)?;
    insert(&mut tree, rows, calls)?;
    report.tell(rt, start, calls, "an insert into the tree")
}

fn fill(tree: &mut BTreeMap<u64, ObjectPlace>, rows: u64) -> Result<(), AllocError> {
    for index in 0..rows {
        tree.insert(index.wrapping_mul(STRIDE), place(index))?;
    }
    Ok(())
}

fn insert(tree: &mut BTreeMap<u64, ObjectPlace>, rows: u64, calls: u64) -> Result<(), AllocError> {
    let mut numbers = Numbers::new(0);
    for index in 0..calls {
        let number = numbers.below(rows.wrapping_mul(STRIDE));
        tree.insert(number, place(index))?;
    }
    Ok(())
}

// How many of some random numbers are there.
fn search(tree: &BTreeMap<u64, ObjectPlace>, rows: u64, calls: u64) -> u64 {
    let mut numbers = Numbers::new(1);
    let mut found = 0u64;
    for _ in 0..calls {
        let is_there = tree.contains_key(&numbers.below(rows.wrapping_mul(STRIDE)));
        found = found.wrapping_add(u64::from(is_there));
    }
    found
}
