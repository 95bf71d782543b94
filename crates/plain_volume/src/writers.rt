ghost use Rattle.std.specs.Prelude.{◌≡◌, ◌+◌, ◌-◌, ◌^◌, ◌≤◌, IfOk, min};
ghost use Rattle.std.specs.List.{All};
ghost use Rattle.lsvd_base.specs.Laws.{EndsBy, first_sector, sector_count};
ghost use Rattle.plain_disk.specs.Writers.{writers, runs, run_starts, Follows};

use crate::window::shown_sectors;
use lsvd_base::Entry;
use std::alloc::{AllocError, Global};

/// For each of `sectors` sectors from `lba` on the index of the entry that wrote it last; None where the
/// history has none that covers it, or the last that does is a zeroing. The one error is that memory ran out.
/// It costs as much as the history is long.
pub(crate) fn last_writers(
    alloc: Global,
    history: &[Entry],
    lba: u64,
    sectors: u64,
) -> Result<Vec<Option<u64>>, AllocError>
    requires { All (EndsBy (2 ^ 64 - 1)) history.now }
    ensures { IfOk result (λ last. last.items ≡ writers history.now lba sectors) }
{
    let mut last = vec![in alloc; None; sectors as usize]?;
    for (index, entry) in history.iter().enumerate() {
        follow(last.as_mut_slice(), lba, index as u64, entry);
    }
    Ok(last)
}

// Puts the entry of this index over the last writers of sectors from `lba` on.
fn follow(last: &mut [Option<u64>], lba: u64, index: u64, entry: &Entry)
    requires { EndsBy (2 ^ 64 - 1) entry.now }
    ensures { Follows lba index entry.now last.old last.new }
{
    let (start, end) = covered(last.len(), lba, entry);
    match entry {
        Entry::Write { .. } => last[start..end].fill(Some(index)),
        Entry::Zero { .. } => last[start..end].fill(None),
    }
}

// From which to which of `count` sectors from `lba` on the entry covers them. The two are the same where it
// covers none.
fn covered(count: usize, lba: u64, entry: &Entry) -> (usize, usize)
    requires { EndsBy (2 ^ 64 - 1) entry.now }
    ensures start { result.0 ≡ min count (first_sector entry.now - lba) }
    ensures end { result.1 ≡ min count (first_sector entry.now + sector_count entry.now - lba) }
{
    let (at, sectors) = match entry {
        Entry::Write { lba, body } => (*lba, body.sectors()),
        Entry::Zero { lba, sectors } => (*lba, *sectors),
    };
    let (start, end) = shown_sectors(count as u64, lba, at, sectors);
    (start as usize, end as usize)
}

/// How many maximal runs of sectors these last writers make: each is of one same write, and a sector without
/// one is in none.
pub(crate) fn run_count(last: &[Option<u64>]) -> u64
    ensures { result ≡ runs last.now }
{
    let mut count = 0u64;
    let mut before = None;
    for writer in last {
        count += run_starts(before, *writer);
        before = *writer;
    }
    count
}

// How many runs a sector begins after one with that last writer.
fn run_starts(before: Option<u64>, writer: Option<u64>) -> u64
    ensures run_starts { result ≡ run_starts before writer }
    ensures most { result ≤ 1 }
{
    match (before, writer) {
        (_, None) => 0,
        (Some(index), Some(other)) if index == other => 0,
        _ => 1,
    }
}
