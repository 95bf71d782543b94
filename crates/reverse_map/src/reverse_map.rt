ghost use Rattle.std.specs.Prelude.{◌≡◌, ◌+◌, ◌≤◌, ◌++◌, ◌∷◌, [], length, OnOk, OnErr, IsOk};
ghost use Rattle.reverse_map.specs.Ranges.{ranges_of, with_range, without_object, IsAbove};
ghost use Rattle.reverse_map.specs.Order.{Ascend, IsPlaceOf};

use crate::range::SectorRange;
use std::alloc::{AllocError, Global};
use std::marker::Model;

// An object and its ranges.
#[derive(Drop)]
struct Ranges {
    number: u64,
    ranges: Vec<SectorRange>,
}

impl Model for Ranges {
    ghost use Rattle.reverse_map.specs.Ranges.{ObjectRanges};

    ghost Value = { ObjectRanges };

    ghost view = { λ r. record { number = r.number; ranges = r.ranges.items } };
}

/// For each object the ranges of sectors that it may still have in the volume.
#[derive(Drop)]
pub struct ReverseMap {
    objects: Vec<Ranges>,
}

impl Model for ReverseMap {
    ghost use Rattle.std.specs.Prelude.{◌-◌, length, vec_capacity};
    ghost use Rattle.reverse_map.specs.Ranges.{ReverseState};
    ghost use Rattle.reverse_map.specs.Order.{Ascend};

    ghost Value = { ReverseState };

    ghost view = { λ r. record {
      objects = r.objects.items;
      spare = vec_capacity r.objects - length r.objects.items;
    } };

    ghost invariant = { λ r. Ascend r.objects.items };
}

impl ReverseMap {
    /// The reverse of an empty map, without objects. It takes no memory, and has no room.
    pub fn new(alloc: Global) -> ReverseMap
        ensures objects { result.objects ≡ [] }
    {
        ReverseMap {
            objects: Vec::new(alloc),
        }
    }

    /// Makes room for so many more objects. The one error is out of memory, which comes only where that room
    /// is missing. The ranges are as before, and no room is lost.
    pub fn reserve(&mut self, objects: usize) -> Result<(), AllocError>
        ensures room { OnOk result (objects ≤ self.new.spare) }
        ensures succeeds { objects ≤ self.old.spare → IsOk result }
        ensures same { self.new.objects ≡ self.old.objects }
        ensures kept { self.old.spare ≤ self.new.spare }
    {
        self.objects.reserve(objects)
    }

    /// Adds an object with its ranges, in any order. There is room for it, and its number is greater than
    /// those of all objects (conditions). It takes no memory.
    pub fn add(&mut self, number: u64, ranges: Vec<SectorRange>)
        requires room { 1 ≤ self.old.spare }
        requires above { IsAbove self.old.objects number }
        ensures objects { self.new.objects ≡ self.old.objects
            ++ record { number = number; ranges = ranges.items } ∷ [] }
        ensures spare { self.old.spare ≤ self.new.spare + 1 }
    {
        self.objects.push_reserved(Ranges { number, ranges });
    }

    /// Adds an object without a range, as `add` does one with some. The conditions are the same. It takes no
    /// memory.
    pub fn add_empty(&mut self, number: u64)
        requires room { 1 ≤ self.old.spare }
        requires above { IsAbove self.old.objects number }
        ensures objects { self.new.objects ≡ self.old.objects
            ++ record { number = number; ranges = [] } ∷ [] }
        ensures spare { self.old.spare ≤ self.new.spare + 1 }
    {
        let ranges = Vec::new(*self.objects.allocator());
        self.add(number, ranges);
    }

    /// Adds a range to an object. One that is absent changes nothing. The one error is out of memory; then
    /// nothing changes.
    pub fn add_range(&mut self, number: u64, range: SectorRange) -> Result<(), AllocError>
        ensures added { OnOk result (self.new.objects ≡ with_range number range self.old.objects) }
        ensures same { OnErr result (self.new.objects ≡ self.old.objects) }
        ensures spare { self.new.spare ≡ self.old.spare }
    {
        if let Some(at) = place_of(&self.objects, number) {
            self.objects[at].ranges.push(range)?;
        }
        Ok(())
    }

    /// The ranges of an object, in no order; none of one that is absent.
    pub fn ranges(&self, number: u64) -> &[SectorRange]
        ensures { result.now ≡ ranges_of number self.now.objects }
    {
        match place_of(&self.objects, number) {
            Some(at) => self.objects[at].ranges.as_slice(),
            None => &[],
        }
    }

    /// Drops an object, so that there is room for one more. One that is absent changes nothing.
    pub fn drop_object(&mut self, number: u64)
        ensures objects { self.new.objects ≡ without_object number self.old.objects }
        ensures spare { self.new.spare + length self.new.objects ≡ self.old.spare + length self.old.objects }
    {
        if let Some(at) = place_of(&self.objects, number) {
            self.objects.remove(at);
        }
    }
}

// Where the object of a number stands.
fn place_of(objects: &[Ranges], number: u64) -> Option<usize>
    requires { Ascend objects.now }
    ensures { IsPlaceOf number objects.now result }
{
    objects
        .binary_search_by_key(&number, |object| object.number)
        .ok()
}
