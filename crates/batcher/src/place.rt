ghost use Rattle.std.specs.Prelude.{◌≡◌};
ghost use Rattle.batcher.specs.Places.{extent_of};

use extent_map::{Extent, Place};
use lsvd_base::Entry;

/// What a sector of the volume gets from the entries of a batch.
#[derive(Clone, Copy, Debug)]
pub(crate) enum BatchPlace {
    /// The data of the entry at this index among them, from this sector of its body on.
    Data { entry: usize, from: u64 },
    /// Zeros, which are one place for all sectors.
    Zeros,
}

impl Place for BatchPlace {
    ghost use Rattle.std.specs.Prelude.{◌+◌, ◌^◌, ◌<◌};
    ghost use Rattle.std.proofs.Common.{arith, inl, inr, refl};
    ghost use Rattle.batcher.specs.declared.place.BatchPlace.TheVariants.{Data, Zeros};
    ghost use Rattle.batcher.specs.Places.{batch_place_number, place_on};

    ghost number = { batch_place_number };

    ghost on = { place_on };

    fn number(&self) -> u64 {
        match *self {
            BatchPlace::Data { from, .. } => from,
            BatchPlace::Zeros => 0,
        }
    }

    fn on(&self, sectors: u64) -> BatchPlace {
        match *self {
            BatchPlace::Data { entry, from } => BatchPlace::Data {
                entry,
                from: from + sectors,
            },
            BatchPlace::Zeros => BatchPlace::Zeros,
        }
    }

    fn is_same(&self, other: &BatchPlace) -> bool {
        match (*self, *other) {
            (
                BatchPlace::Data { entry, from },
                BatchPlace::Data {
                    entry: other_entry,
                    from: other_from,
                },
            ) => entry == other_entry && from == other_from,
            (BatchPlace::Zeros, BatchPlace::Zeros) => true,
            _ => false,
        }
    }

    ghost on_none = { elim [ Data entry from ↦ Prim.grind arith | Zeros ↦ refl ] };

    ghost on_twice = { λ a b. elim [ Data entry from ↦ Prim.grind arith | Zeros ↦ refl ] };

    ghost number_on = { λ n. elim [ Data entry from ↦ inl refl | Zeros ↦ inr (refl, refl) ] };
}

/// The sectors that the entry at an index changes, with the places that they get.
pub(crate) fn extent_of(index: usize, entry: &Entry) -> Extent<BatchPlace>
    ensures { result ≡ extent_of index entry.now }
{
    match entry {
        Entry::Write { lba, body } => Extent {
            lba: *lba,
            sectors: body.sectors(),
            place: BatchPlace::Data {
                entry: index,
                from: 0,
            },
        },
        Entry::Zero { lba, sectors } => Extent {
            lba: *lba,
            sectors: *sectors,
            place: BatchPlace::Zeros,
        },
    }
}
