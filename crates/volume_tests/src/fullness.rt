use batcher::{MAX_ENTRIES, fullness};
use test_output::TestError;

// The sectors of a batch, and counts of sectors and of entries.
const BATCH: u64 = 16;

const COUNTS: &[(u64, u64)] = &[
    (0, 0),
    (15, MAX_ENTRIES - 1),
    (16, 0),
    (17, MAX_ENTRIES),
    (15, MAX_ENTRIES),
];

/// Shows when a batch is full.
pub fn tell_fullness(rt: &HostRuntime) -> Result<(), TestError> {
    println!(rt; "# When a batch of {BATCH} sectors is full")?;
    for (sectors, entries) in COUNTS {
        let full = fullness(BATCH, *sectors, *entries);
        println!(rt; "{sectors:>2} sectors in {entries:>5} entries: {full:?}")?;
    }
    Ok(())
}
