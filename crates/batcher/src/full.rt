ghost use Rattle.std.specs.Prelude.{◌≡◌, ◌^◌, ◌<◌};
ghost use Rattle.std.specs.List.{sum_by};
ghost use Rattle.batcher.specs.Batch.{data_sectors, fullness};

use lsvd_base::Entry;

/// The most entries of a batch.
pub const MAX_ENTRIES: u64 = 16_384;

/// Why a batch takes no further entry.
#[derive(Clone, Copy, Debug, PartialEq, Eq)]
pub enum Full {
    /// Its entries carry this many sectors of data, at least those of the volume's batch.
    Sectors(u64),
    /// It has this many entries, at least the most of a batch.
    Entries(u64),
}

/// Why a batch takes no further entry, whose entries carry `sectors` sectors of data, and of which there are
/// `entries`. None is for a batch that takes one. `batch` is the batch of the volume's geometry, in sectors.
pub fn fullness(batch: u64, sectors: u64, entries: u64) -> Option<Full>
    ensures { result ≡ fullness batch sectors entries }
{
    if sectors >= batch {
        Some(Full::Sectors(sectors))
    } else if entries >= MAX_ENTRIES {
        Some(Full::Entries(entries))
    } else {
        None
    }
}

/// How many sectors of data the entry carries: a zeroing carries none.
pub fn data_sectors(entry: &Entry) -> u64
    ensures { result ≡ data_sectors entry.now }
{
    match entry {
        Entry::Write { body, .. } => body.sectors(),
        Entry::Zero { .. } => 0,
    }
}

/// How many sectors of data the entries carry together. Their number fits (a condition).
pub fn sum_data_sectors(entries: &[Entry]) -> u64
    requires { sum_by data_sectors entries.now < 2 ^ 64 }
    ensures { result ≡ sum_by data_sectors entries.now }
{
    let mut sum = 0u64;
    for entry in entries {
        sum += data_sectors(entry);
    }
    sum
}
