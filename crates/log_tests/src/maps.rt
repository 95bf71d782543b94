use extent_map::{Extent, ExtentMap};
use test_output::{TestError, head};

// A change of so many sectors from one on: they get the places from one on, or none.
#[derive(Clone, Copy, Debug)]
enum Change {
    Set(u64, u64, u64),
    Clear(u64, u64),
}

use Change::{Clear, Set};

// Changes of a map, one list after the other, each from an empty one.
const CHANGES: &[&[Change]] = &[
    &[Set(5, 0, 9)],
    // Two that touch are one row where the second goes on with the first.
    &[Set(5, 3, 9), Set(8, 2, 12)],
    &[Set(8, 2, 12), Set(5, 3, 9)],
    &[Set(5, 3, 9), Set(8, 2, 13)],
    // One between two joins both.
    &[Set(0, 4, 0), Set(6, 4, 6), Set(3, 4, 3)],
    // One inside another splits it, unless it has the same places, and the rest keeps its places.
    &[Set(0, 9, 0), Set(3, 2, 70)],
    &[Set(0, 9, 0), Set(3, 2, 3)],
    &[Set(0, 9, 0), Clear(3, 2)],
    &[Set(0, 2, 0), Set(4, 2, 40), Set(8, 2, 80), Clear(1, 8)],
];

// More than the sectors and the places of the tests.
const MOST: u64 = 1 << 20;

// Changes whose rows take more than 3,000 pages.
const MANY: usize = 100_000;

/// Tells the rows of maps whose places are numbers.
pub fn tell_all(rt: &HostRuntime) -> Result<(), TestError> {
    head(rt, "rows of extents")?;
    for changes in CHANGES {
        tell_rows(rt, changes)?;
    }
    head(
        rt,
        "a look at the sectors 2 to 5, and the first of its rows",
    )?;
    tell_look(rt)?;
    head(rt, "room for 100,000 changes at once")?;
    tell_room(rt)
}

// Makes changes of an empty map, and tells its rows.
fn tell_rows(rt: &HostRuntime, changes: &[Change]) -> Result<(), TestError> {
    let map = changed(rt, changes)?;
    let rows = map.rows(rt.alloc());
    drop(map);
    tell(rt, rows?)
}

fn changed(rt: &HostRuntime, changes: &[Change]) -> Result<ExtentMap<u64>, TestError> {
    let mut map = ExtentMap::new(rt.alloc());
    make_all(&mut map, changes)?;
    Ok(map)
}

fn make_all(map: &mut ExtentMap<u64>, changes: &[Change]) -> Result<(), TestError> {
    for change in changes {
        make(map, *change)?;
    }
    Ok(())
}

fn make(map: &mut ExtentMap<u64>, change: Change) -> Result<(), TestError> {
    map.reserve(1)?;
    match change {
        Set(lba, sectors, place) if lba < MOST && sectors < MOST && place < MOST => {
            map.set(lba, sectors, place);
            Ok(())
        }
        Clear(lba, sectors) if lba < MOST && sectors < MOST => {
            map.clear(lba, sectors);
            Ok(())
        }
        _ => Err(TestError::Refused),
    }
}

// Tells the first sector of each row, how many it has, and its first place.
fn tell(rt: &HostRuntime, rows: Vec<Extent<u64>>) -> Result<(), TestError> {
    let told = tell_slice(rt, rows.as_slice());
    drop(rows);
    told
}

fn tell_slice(rt: &HostRuntime, rows: &[Extent<u64>]) -> Result<(), TestError> {
    for row in rows {
        print!(rt; " {}+{} at {}", row.lba, row.sectors, row.place)?;
    }
    println!(rt)?;
    Ok(())
}

// Tells whether a map got room for many changes by one call. No clause can say that there is memory for it.
fn tell_room(rt: &HostRuntime) -> Result<(), TestError> {
    let mut map: ExtentMap<u64> = ExtentMap::new(rt.alloc());
    let made = map.reserve(MANY);
    let has_room = MANY <= map.spare();
    drop(map);
    made?;
    println!(rt; " {has_room}")?;
    Ok(())
}

// Tells a look, and the first row of its sectors.
fn tell_look(rt: &HostRuntime) -> Result<(), TestError> {
    let map = changed(rt, &[Set(0, 3, 0), Set(4, 9, 40)])?;
    let (rows, first) = (map.look(rt.alloc(), 2, 4), map.first_in(2, 4));
    drop(map);
    tell(rt, rows?)?;
    tell_slice(rt, first.as_slice())
}
