ghost use Rattle.std.specs.Prelude.{◌≡◌, ◌+◌, ◌^◌, ◌<◌, ◌≤◌, IfOk};
ghost use Rattle.std.specs.List.{list_any, range_with_len};
ghost use Rattle.object_stream.specs.Stream.{is_own};
ghost use Rattle.object_stream.specs.Plain.{stream_of};
ghost use Rattle.plain_disk.specs.Writers.{covers_sector};
ghost use Rattle.plain_volume.specs.Fields.{is_read_at, objects_at};

use lsvd_base::Entry;
use object_stream::{Owner, PlainStream};
use std::alloc::{AllocError, Global};

/// The objects that a read of `sectors` sectors from `lba` on gets some of, in ascending order: those up to
/// the frontier that own a sector there, which no entry past its end covers. The one error is that memory ran
/// out.
pub(crate) fn objects_read(
    alloc: Global,
    stream: &PlainStream,
    frontier: u64,
    logged: &[Entry],
    lba: u64,
    sectors: u64,
) -> Result<Vec<u64>, AllocError>
    requires { lba + sectors < 2 ^ 64 }
    ensures { IfOk result (λ numbers. numbers.items ≡ objects_at (stream_of stream.now) frontier logged.now
        lba sectors) }
{
    let mut numbers = Vec::new(alloc);
    for before in 0..frontier {
        let number = before + 1;
        if is_object_read(stream, frontier, logged, number, lba, sectors) {
            numbers.push(number)?;
        }
    }
    Ok(numbers)
}

// Whether a read gets a sector from the object of this number.
fn is_object_read(
    stream: &PlainStream,
    frontier: u64,
    logged: &[Entry],
    number: u64,
    lba: u64,
    sectors: u64,
) -> bool
    requires { lba + sectors < 2 ^ 64 }
    ensures { result ≡ list_any (is_read_at (stream_of stream.now) frontier logged.now number)
        (range_with_len lba sectors) }
{
    for sector in lba..lba + sectors {
        if is_sector_read(stream, frontier, logged, number, sector) {
            return true;
        }
    }
    false
}

// Whether a read gets this sector from the object of this number.
fn is_sector_read(
    stream: &PlainStream,
    frontier: u64,
    logged: &[Entry],
    number: u64,
    sector: u64,
) -> bool
    ensures { result ≡ is_read_at (stream_of stream.now) frontier logged.now number sector }
{
    is_own(number, stream.owner(frontier, sector)) && !is_covered(logged, sector)
}

/// Whether the owner is the volume's own object of this number.
pub(crate) fn is_own(number: u64, owner: Option<Owner>) -> bool
    ensures { result ≡ is_own number owner }
{
    match owner {
        Some(owner) => owner.level == 0 && owner.number == number,
        None => false,
    }
}

// Whether one of the entries covers the sector.
fn is_covered(entries: &[Entry], sector: u64) -> bool
    ensures { result ≡ list_any (λ entry. covers_sector entry sector) entries.now }
{
    for entry in entries {
        if covers(entry, sector) {
            return true;
        }
    }
    false
}

// Whether the entry covers the sector.
fn covers(entry: &Entry, sector: u64) -> bool
    ensures { result ≡ covers_sector entry.now sector }
{
    let (lba, sectors) = match entry {
        Entry::Write { lba, body } => (*lba, body.sectors()),
        Entry::Zero { lba, sectors } => (*lba, *sectors),
    };
    lba <= sector && sector - lba < sectors
}
