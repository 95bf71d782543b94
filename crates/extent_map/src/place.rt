ghost use Rattle.std.specs.Prelude.{◌≡◌, ◌+◌, ◌^◌, ◌<◌, ◌↔◌, ℕ, IsTrue};
ghost use Rattle.extent_map.specs.Extents.{NumbersGoOn};

/// Where the data of a sector stand. Places go on one by one, or one place stands for each sector, as for
/// zeros.
pub trait Place: Copy {
    /// A number that goes on with the place, as its sectors from the beginning of what it is a place of; 0
    /// for a place of zeros. What is left to 2^63 is what may be added: a place that stands in 32 bits begins
    /// at 2^63 - 2^32.
    ghost number: { Self → ℕ };

    /// The place that stands N sectors on.
    ghost on: { ℕ → Self → Self };

    /// Its number.
    fn number(&self) -> u64
        ensures { result ≡ number self.now };

    /// The place N sectors on. Its number and N are below 2^63 together (a condition).
    fn on(&self, sectors: u64) -> Self
        requires { number self.now + sectors < 2 ^ 63 }
        ensures { result ≡ on sectors self.now };

    /// Whether both are one place.
    fn is_same(&self, other: &Self) -> bool
        ensures { IsTrue result ↔ (self.now ≡ other.now) };

    // A place is itself no sectors on and goes on by sums. Its number goes on with it, or is 0 and stays so.
    ghost on_none: { (p : Self) → on 0 p ≡ p };

    ghost on_twice: { (a b : ℕ) (p : Self) → on a (on b p) ≡ on (b + a) p };

    ghost number_on: { NumbersGoOn on number };
}

impl Place for u64 {
    ghost use Rattle.std.specs.Prelude.{◌+◌};
    ghost use Rattle.std.proofs.Common.{arith, inl};

    ghost number = { λ p. p };

    ghost on = { λ sectors p. p + sectors };

    fn number(&self) -> u64 {
        *self
    }

    fn on(&self, sectors: u64) -> u64 {
        *self + sectors
    }

    fn is_same(&self, other: &u64) -> bool {
        *self == *other
    }

    ghost on_none = { λ p. Prim.omega arith };

    ghost on_twice = { λ a b p. Prim.omega arith };

    ghost number_on = { λ n p. inl (Prim.omega arith) };
}
