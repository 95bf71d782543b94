use extent_map::Place;

/// Where a checkpoint's row has the data of its first sector.
#[derive(Clone, Copy, Debug, PartialEq, Eq)]
pub struct StoredPlace {
    /// How many clones lie between the volume and the object: 0 is for an object of the volume's own.
    pub level: u32,
    /// The number of the object.
    pub number: u64,
    /// The sector of the object's payload.
    pub place: u64,
}

// The number of a place is its sector of the payload. A payload has at most 131,071 sectors, so that all
// places of a row stay far below the limit of a map's places.
impl Place for StoredPlace {
    ghost use Rattle.std.proofs.Common.{arith, inl};
    ghost use Rattle.ckpt_format.specs.Places.{stored_number, stored_on};

    ghost number = { stored_number };

    ghost on = { stored_on };

    fn number(&self) -> u64 {
        self.place
    }

    fn on(&self, sectors: u64) -> StoredPlace {
        StoredPlace {
            place: self.place + sectors,
            ..*self
        }
    }

    fn is_same(&self, other: &StoredPlace) -> bool {
        self == other
    }

    ghost on_none = { λ p. Prim.grind arith };

    ghost on_twice = { λ a b p. Prim.grind arith };

    ghost number_on = { λ n p. inl (Prim.omega arith) };
}
