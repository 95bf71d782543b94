ghost use Rattle.std.specs.Prelude.{◌≡◌};
ghost use Rattle.volume_maps.specs.Places.{place_seq};
ghost use Rattle.volume_maps.specs.Live.{is_in_object};

use extent_map::Place;

// The number of an object's first sector, as a place: the last of its 2^32 sectors has the greatest number of
// a place.
const FIRST_NUMBER: u64 = (1 << 63) - (1 << 32);

/// Where an object has a sector. It takes 16 bytes, since a map of a large volume has millions of rows.
#[derive(Clone, Copy, Debug, PartialEq, Eq)]
pub struct ObjectPlace {
    /// The number of the object.
    pub number: u64,
    /// How many clones lie between the volume and the object: 0 is for an object of the volume's own.
    pub level: u32,
    /// The sector of the object's payload: the sector N is its 512 bytes from byte 512 N of the payload on.
    pub sector: u32,
}

impl ObjectPlace {
    /// Whether it is in the volume's own object of this number.
    pub fn is_in(&self, number: u64) -> bool
        ensures { result ≡ is_in_object number self.now }
    {
        self.level == 0 && self.number == number
    }
}

impl Place for ObjectPlace {
    ghost use Rattle.std.proofs.Common.{arith, inl};
    ghost use Rattle.volume_maps.specs.Places.{object_number, object_on};

    ghost number = { object_number };

    ghost on = { object_on };

    fn number(&self) -> u64 {
        FIRST_NUMBER + self.sector as u64
    }

    fn on(&self, sectors: u64) -> ObjectPlace {
        ObjectPlace {
            sector: (self.sector as u64 + sectors) as u32,
            ..*self
        }
    }

    fn is_same(&self, other: &ObjectPlace) -> bool {
        self == other
    }

    ghost on_none = { λ p. Prim.grind arith };

    ghost on_twice = { λ a b p. Prim.grind arith };

    ghost number_on = { λ n p. inl (Prim.omega arith) };
}

/// Where the last entry past the frontier that changed a sector left it.
#[derive(Clone, Copy, Debug, PartialEq, Eq)]
pub enum LogPlace {
    /// A sector of the log has it, as data of the entry with this seq.
    Data { seq: u64, sector: u64 },
    /// The entry with this seq zeroed it.
    Zeros { seq: u64 },
}

impl LogPlace {
    /// The seq of the entry.
    pub fn seq(&self) -> u64
        ensures { result ≡ place_seq self.now }
    {
        match self {
            LogPlace::Data { seq, .. } | LogPlace::Zeros { seq } => *seq,
        }
    }
}

impl Place for LogPlace {
    ghost use Rattle.std.proofs.Common.{arith, inl, inr, refl};
    ghost use Rattle.volume_maps.specs.declared.place.LogPlace.TheVariants.{Data, Zeros};
    ghost use Rattle.volume_maps.specs.Places.{log_number, log_on};

    ghost number = { log_number };

    ghost on = { log_on };

    fn number(&self) -> u64 {
        match self {
            LogPlace::Data { sector, .. } => *sector,
            LogPlace::Zeros { .. } => 0,
        }
    }

    fn on(&self, sectors: u64) -> LogPlace {
        match self {
            LogPlace::Data { seq, sector } => LogPlace::Data {
                seq: *seq,
                sector: *sector + sectors,
            },
            LogPlace::Zeros { seq } => LogPlace::Zeros { seq: *seq },
        }
    }

    fn is_same(&self, other: &LogPlace) -> bool {
        self == other
    }

    ghost on_none = { elim [ Data seq sector ↦ Prim.grind arith | Zeros seq ↦ refl ] };

    ghost on_twice = { λ a b. elim [ Data seq sector ↦ Prim.grind arith | Zeros seq ↦ refl ] };

    ghost number_on = { λ n. elim [ Data seq sector ↦ inl refl | Zeros seq ↦ inr (refl, refl) ] };
}

/// Where a read finds a sector. One without a place has zeros.
#[derive(Clone, Copy, Debug, PartialEq, Eq)]
pub enum VolumePlace {
    /// In the log.
    Log(LogPlace),
    /// In an object.
    Object(ObjectPlace),
}

impl Place for VolumePlace {
    ghost use Rattle.std.proofs.Common.{arith, inl, inr, refl};
    ghost use Rattle.volume_maps.specs.declared.place.LogPlace.TheVariants.{Data, Zeros};
    ghost use Rattle.volume_maps.specs.declared.place.VolumePlace.TheVariants.{Log, Object};
    ghost use Rattle.volume_maps.specs.Places.{volume_number, volume_on};

    ghost number = { volume_number };

    ghost on = { volume_on };

    fn number(&self) -> u64 {
        match self {
            VolumePlace::Log(place) => place.number(),
            VolumePlace::Object(place) => place.number(),
        }
    }

    fn on(&self, sectors: u64) -> VolumePlace {
        match self {
            VolumePlace::Log(place) => VolumePlace::Log(place.on(sectors)),
            VolumePlace::Object(place) => VolumePlace::Object(place.on(sectors)),
        }
    }

    fn is_same(&self, other: &VolumePlace) -> bool {
        self == other
    }

    ghost on_none = { elim [
      | Log (Data seq sector) ↦ Prim.grind arith
      | Log (Zeros seq) ↦ refl
      | Object place ↦ Prim.grind arith
    ] };

    ghost on_twice = { λ a b. elim [
      | Log (Data seq sector) ↦ Prim.grind arith
      | Log (Zeros seq) ↦ refl
      | Object place ↦ Prim.grind arith
    ] };

    ghost number_on = { λ n. elim [
      | Log (Data seq sector) ↦ inl refl
      | Log (Zeros seq) ↦ inr (refl, refl)
      | Object place ↦ inl (Prim.omega arith)
    ] };
}
