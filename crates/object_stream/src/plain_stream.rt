ghost use Rattle.std.specs.Prelude.{◌≡◌, None, min, slice_index_or};
ghost use Rattle.object_stream.specs.Changes.{entry_change, change_at};
ghost use Rattle.object_stream.specs.Stream.{owner_by_change, source_in, owner_by_copy, after_object};
ghost use Rattle.object_stream.specs.Stream.{objects_to, owners, end_after, end_at, unsealed};
ghost use Rattle.object_stream.specs.Plain.{stream_of};

use crate::changes::is_within;
use crate::object::{Content, CopiedSector, StreamObject};
use crate::owner::Owner;
use lsvd_base::Entry;

/// A stream of objects as lists. Each question costs as much as the stream is long.
#[derive(Debug, Drop)]
pub struct PlainStream {
    /// The number of the object that it begins at.
    pub number: u64,
    /// That object's end: how many entries of the history are in it and in the objects before it.
    pub end: u64,
    /// The owner of each sector after that object. A sector past the list has none.
    pub opening: Vec<Option<Owner>>,
    /// The entries of the history from that end on.
    pub entries: Vec<Entry>,
    /// The objects after that one.
    pub objects: Vec<StreamObject>,
}

impl PlainStream {
    /// The owner of a sector after the objects up to this number.
    pub fn owner(&self, number: u64, sector: u64) -> Option<Owner>
        ensures { result ≡ owners (stream_of self.now) number sector }
    {
        let mut owner = self.opening_owner(sector);
        let mut at = self.number;
        let mut end = self.end;
        let mut start = 0;
        for object in self.objects_to(number) {
            at += 1;
            let count = count_before(object.end.saturating_sub(end), self.entries.len() - start);
            let entries = &self.entries[start..start + count];
            owner = owner_after(at, &object.content, entries, sector, owner);
            start += count;
            end = object.end;
        }
        owner
    }

    /// The end of the object of this number: how many entries of the history are in the objects up to it.
    pub fn end_at(&self, number: u64) -> u64
        ensures { result ≡ end_at (stream_of self.now) number }
    {
        end_after(self.end, self.objects_to(number))
    }

    /// The entries that are in no object yet.
    pub fn unsealed(&self) -> &[Entry]
        ensures { result.now ≡ unsealed (stream_of self.now) }
    {
        let end = end_after(self.end, self.objects.as_slice());
        let count = count_before(end.saturating_sub(self.end), self.entries.len());
        &self.entries[count..]
    }

    // The owner of a sector before the objects.
    fn opening_owner(&self, sector: u64) -> Option<Owner>
        ensures { result ≡ slice_index_or self.now.opening.items sector None }
    {
        self.opening.get(sector as usize).copied().flatten()
    }

    // The objects up to this number.
    fn objects_to(&self, number: u64) -> &[StreamObject]
        ensures { result.now ≡ objects_to (stream_of self.now) number }
    {
        let count = count_before(number.saturating_sub(self.number), self.objects.len());
        &self.objects[..count]
    }
}

// The end of the last of some objects, or the one before them where there is none.
fn end_after(before: u64, objects: &[StreamObject]) -> u64
    ensures { result ≡ end_after before objects.now }
{
    let mut end = before;
    for object in objects {
        end = object.end;
    }
    end
}

// The owner of a sector after an object, where a data object has these entries, and it had this owner before.
fn owner_after(
    number: u64,
    content: &Content,
    entries: &[Entry],
    sector: u64,
    before: Option<Owner>,
) -> Option<Owner>
    ensures { result ≡ after_object number content.now entries.now (λ k. before) sector }
{
    match content {
        Content::Data => owner_by_data(number, entries, sector, before),
        Content::Copy(pairs) => owner_by_copy(number, pairs.as_slice(), sector, before),
        Content::Checkpoint => before,
    }
}

// The owner of a sector after the data object of these entries.
fn owner_by_data(
    number: u64,
    entries: &[Entry],
    sector: u64,
    before: Option<Owner>,
) -> Option<Owner>
    ensures { result ≡ owner_by_change number (change_at entries.now sector) before }
{
    let mut owner = before;
    for entry in entries {
        owner = owner_by_entry(number, entry, sector, owner);
    }
    owner
}

// The owner of a sector after an entry that is in the data object of this number.
fn owner_by_entry(number: u64, entry: &Entry, sector: u64, before: Option<Owner>) -> Option<Owner>
    ensures { result ≡ owner_by_change number (entry_change entry.now sector) before }
{
    match entry {
        Entry::Write { lba, body } if is_within(*lba, body.sectors(), sector) => {
            Some(Owner { level: 0, number })
        }
        Entry::Zero { lba, sectors } if is_within(*lba, *sectors, sector) => None,
        _ => before,
    }
}

// The owner of a sector after the copy of these sectors: it changes only where it still is the source.
fn owner_by_copy(
    number: u64,
    pairs: &[CopiedSector],
    sector: u64,
    before: Option<Owner>,
) -> Option<Owner>
    ensures { result ≡ owner_by_copy number (source_in pairs.now sector) before }
{
    match (source_in(pairs, sector), before) {
        (Some(source), Some(owner)) if owner.level == 0 && owner.number == source => {
            Some(Owner { level: 0, number })
        }
        _ => before,
    }
}

/// The source of a sector in a copy, if the copy has it.
pub fn source_in(pairs: &[CopiedSector], sector: u64) -> Option<u64>
    ensures { result ≡ source_in pairs.now sector }
{
    for copied in pairs {
        if copied.lba == sector {
            return Some(copied.source);
        }
    }
    None
}

// How many of a list's elements come before this index.
fn count_before(index: u64, length: usize) -> usize
    ensures { result ≡ min index length }
{
    index.min(length as u64) as usize
}
